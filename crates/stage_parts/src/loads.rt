//! What goes round between the stages, frame by frame.
ghost use Rattle.std.specs.Prelude.{◌≡◌, ◌+◌, ◌<◌, ◌≤◌, ◌++◌, true, if◌then◌else◌, List, [], length, take, slice_index_or, slice_set, IfOk, IfErr, OnOk, OnErr};
ghost use Rattle.std.specs.List.{flat_map, list_all};
ghost use Rattle.std.specs.Vec.{vec_capacity, vec_len};
ghost use Rattle.std.specs.Io.KnownBytes.{append_known};
ghost use Rattle.pf_io.specs.Causes.{HasCause};
ghost use Rattle.pf_io.specs.Streams.{AppendsFront, MarksFault};
ghost use Rattle.ppm_out.specs.Pixmap.{Pixmap};
ghost use Rattle.ppm_out.specs.Ppm.{ppm_bytes};
ghost use Rattle.stage_parts.specs.Loads.{AreImages, bytes_of_all, is_of_size, have_one_size, can_swap, is_for};

use draw_list::{DrawList, Stats};
use fx_math::Lens;
use pf_io::{NoMemory, Sink, WriteError, write_all};
use ppm_out::{Image, append_ppm_reserved, ppm_len, write_ppm};
use std::alloc::Global;
use std::marker::Model;
use std::mem;
use update_lists::{Cut, Updates, Views};

/// The load of a frame: its cut, a draw list and an image for each channel, a buffer for the bytes of all images, and the
/// frame's numbers, which are sums over the channels. Once it is cleared, the buffer has room for these bytes. The bytes of one
/// image alone need no buffer, as they stand in the image: then `is_image` says that they are those.
pub struct Load {
    cut: Cut,
    lists: Vec<DrawList>,
    images: Vec<Image>,
    bytes: Vec<u8>,
    is_image: bool,
    stats: Stats,
}

/// Written out, so that to drop one is a single call.
impl Drop for Load {
    fn drop(self) {
        let Self {
            cut: _,
            lists: _,
            images: _,
            bytes: _,
            is_image: _,
            stats: _,
        } = self;
    }
}

impl Model for Load {
    ghost use Rattle.stage_parts.specs.Loads.{LoadState};

    ghost Value = { LoadState };

    ghost use Rattle.std.specs.Prelude.{◌≡◌, ◌≤◌, true, if◌then◌else◌, length};
    ghost use Rattle.std.specs.List.{flat_map};
    ghost use Rattle.std.specs.Vec.{vec_capacity};
    ghost use Rattle.ppm_out.specs.Ppm.{ppm_bytes};
    ghost use Rattle.stage_parts.specs.Loads.{bytes_of_all};

    ghost view = { λ l. record {
      cut = l.cut;
      lists = l.lists.items;
      images = l.images.items;
      bytes = if l.is_image then flat_map ppm_bytes l.images.items else l.bytes.items;
      stats = l.stats;
    } };

    ghost invariant = { λ l. (bytes_of_all l.images.items ≤ vec_capacity l.bytes)
        × (l.is_image ≡ true → length l.images.items ≡ 1) };
}

/// No numbers yet.
const NO_STATS: Stats = Stats {
    shown: 0,
    states: 0,
    visited: 0,
};

/// The cut of no frame.
fn no_cut(alloc: Global) -> Result<Cut, NoMemory>
    ensures updates { IfOk result (λ c. c.updates ≡ []) }
    ensures views { IfOk result (λ c. c.views ≡ []) }
    ensures frame { IfOk result (λ c. c.frame ≡ 0) }
{
    Ok(Cut {
        frame: 0,
        views: Views::of(alloc, &[])?,
        size: 0,
        tris: 0,
        updates: Updates::new(alloc),
    })
}

/// So many empty draw lists.
fn new_lists(alloc: Global, channels: u8) -> Result<Vec<DrawList>, NoMemory>
    ensures { IfOk result (λ v. length v.items ≡ channels) }
{
    let mut lists = Vec::with_capacity(alloc, channels as usize)?;
    for channel in 0..channels {
        lists.push(DrawList::new(alloc))?;
    }
    Ok(lists)
}

/// So many black images of the lens's size.
fn new_images(alloc: Global, lens: &Lens, channels: u8) -> Result<Vec<Image>, NoMemory>
    ensures { IfOk result (λ v. AreImages lens.now channels v.items) }
{
    let mut images = Vec::with_capacity(alloc, channels as usize)?;
    for channel in 0..channels {
        images.push(Image::new(alloc, lens.w, lens.h)?)?;
    }
    Ok(images)
}

/// A buffer with room for the bytes of so many images of the lens's size.
fn new_bytes(alloc: Global, lens: &Lens, channels: u8) -> Result<Vec<u8>, NoMemory>
    ensures items { IfOk result (λ v. v.items ≡ []) }
    ensures room { IfOk result (λ v. (images : List Pixmap) → AreImages lens.now channels images
        → bytes_of_all images ≤ vec_capacity v) }
{
    let size = ppm_len(lens.w, lens.h) * channels as usize;
    Ok(Vec::with_capacity(alloc, size)?)
}

/// Whether an image has the lens's size.
fn is_of_size(lens: &Lens, image: &Image) -> bool
    ensures { result ≡ is_of_size lens.now image.now }
{
    image.width() == lens.w && image.height() == lens.h
}

/// Whether all images have the lens's size.
fn are_of_size(lens: &Lens, images: &[Image]) -> bool
    ensures { result ≡ list_all (is_of_size lens.now) images.now }
{
    images.iter().all(|image| is_of_size(lens, image))
}

/// Whether two images have the same size.
fn have_one_size(a: &Image, b: &Image) -> bool
    ensures { result ≡ have_one_size a.now b.now }
{
    a.width() == b.width() && a.height() == b.height()
}

/// Exchanges the image at a place with the one handed in, where there is one and the two sizes are equal.
fn swap_in(images: &mut [Image], place: usize, image: &mut Image) -> bool
    ensures exact { result ≡ can_swap images.old place image.old }
    ensures images { images.new ≡ (if result then slice_set images.old place image.old else images.old) }
    ensures back { image.new ≡ (if result then slice_index_or images.old place image.old else image.old) }
    ensures bytes { bytes_of_all images.new ≡ bytes_of_all images.old }
{
    if place >= images.len() {
        return false;
    }
    if !have_one_size(image, &images[place]) {
        return false;
    }
    mem::swap(&mut images[place], image);
    true
}

/// Appends the bytes of images for which there is room.
fn append_all(out: &mut Vec<u8>, images: &[Image])
    requires { vec_len out.old + bytes_of_all images.now ≤ vec_capacity out.old }
    ensures items { out.new.items ≡ out.old.items ++ flat_map ppm_bytes images.now }
    ensures room { vec_capacity out.old ≤ vec_capacity out.new }
{
    for image in images {
        append_ppm_reserved(out, image);
    }
}

impl Load {
    /// A load without a frame: for each channel a draw list without room and a black image of the lens's size.
    pub fn new(alloc: Global, lens: &Lens, channels: u8) -> Result<Load, NoMemory>
        ensures images { IfOk result (λ l. AreImages lens.now channels l.images) }
        ensures lists { IfOk result (λ l. length l.lists ≡ channels) }
        ensures updates { IfOk result (λ l. l.cut.updates ≡ []) }
        ensures bytes { IfOk result (λ l. l.bytes ≡ []) }
    {
        Ok(Load {
            cut: no_cut(alloc)?,
            lists: new_lists(alloc, channels)?,
            images: new_images(alloc, lens, channels)?,
            bytes: new_bytes(alloc, lens, channels)?,
            is_image: false,
            stats: NO_STATS,
        })
    }

    /// The cut.
    pub fn cut(&self) -> &Cut
        ensures { result.now ≡ self.now.cut }
    {
        &self.cut
    }

    /// Puts the cut of another frame in, and hands back the cut that was there.
    pub fn replace_cut(&mut self, cut: Cut) -> Cut
        ensures load { self.new ≡ record self.old { cut = cut } }
        ensures back { result ≡ self.old.cut }
    {
        mem::replace(&mut self.cut, cut)
    }

    /// Takes the update list out, and leaves the empty one.
    pub fn take_updates(&mut self) -> Updates
        ensures load { self.new ≡ record self.old { cut = record self.old.cut { updates = [] } } }
        ensures taken { result ≡ self.old.cut.updates }
    {
        let empty = Updates::new(*self.bytes.allocator());
        mem::replace(&mut self.cut.updates, empty)
    }

    /// Puts an update list in.
    pub fn set_updates(&mut self, updates: Updates)
        ensures { self.new ≡ record self.old { cut = record self.old.cut { updates = updates } } }
    {
        self.cut.updates = updates;
    }

    /// The draw lists, one for each channel.
    pub fn lists(&self) -> &[DrawList]
        ensures { result.now ≡ self.now.lists }
    {
        self.lists.as_slice()
    }

    /// Exchanges the draw lists with those handed in.
    pub fn swap_lists(&mut self, lists: &mut Vec<DrawList>)
        ensures load { self.new ≡ record self.old { lists = lists.old.items } }
        ensures back { lists.new.items ≡ self.old.lists }
    {
        mem::swap(&mut self.lists, lists);
    }

    /// The images, one for each channel.
    pub fn images(&self) -> &[Image]
        ensures { result.now ≡ self.now.images }
    {
        self.images.as_slice()
    }

    /// Exchanges the image of a channel with the one handed in, and answers true; where there is no such channel or the
    /// two sizes differ, it answers false and changes nothing.
    pub fn swap_image(&mut self, channel: usize, image: &mut Image) -> bool
        ensures exact { result ≡ can_swap self.old.images channel image.old }
        ensures load { self.new ≡ record self.old {
          images = if result then slice_set self.old.images channel image.old else self.old.images;
        } }
        ensures back { image.new ≡ (if result then slice_index_or self.old.images channel image.old else image.old) }
    {
        if self.is_image {
            self.bytes.clear();
            append_all(&mut self.bytes, self.images.as_slice());
            self.is_image = false;
        }
        swap_in(self.images.as_mut_slice(), channel, image)
    }

    /// Whether the load has a draw list and an image of the lens's size for each of so many channels.
    pub fn is_for(&self, lens: &Lens, channels: u8) -> bool
        ensures value { result ≡ is_for lens.now channels self.now }
        ensures images { result ≡ true → AreImages lens.now channels self.now.images }
        ensures lists { result ≡ true → length self.now.lists ≡ channels }
    {
        self.lists.len() == channels as usize
            && (self.images.len() == channels as usize && are_of_size(lens, self.images.as_slice()))
    }

    /// The numbers of the frame.
    pub fn stats(&self) -> Stats
        ensures { result ≡ self.now.stats }
    {
        self.stats
    }

    /// Sets the numbers of the frame.
    pub fn set_stats(&mut self, stats: Stats)
        ensures { self.new ≡ record self.old { stats = stats } }
    {
        self.stats = stats;
    }

    /// Writes the bytes of the pictures, or up to a fault, after which the sink gets no more. No byte is copied for that.
    pub fn write_to<S: Sink>(&self, sink: &mut S) -> Result<(), WriteError>
        ensures whole { OnOk result (S.written sink.new ≡ append_known (S.written sink.old) self.now.bytes) }
        ensures cut { IfErr result (λ error. (error.written < length self.now.bytes) ×
            (S.written sink.new ≡ append_known (S.written sink.old) (take error.written self.now.bytes))) }
        ensures front { OnErr result (AppendsFront (S.written sink.old) (S.written sink.new) self.now.bytes) }
        ensures cause { HasCause (S.faults sink.old) (S.faults sink.new) result }
        ensures last { MarksFault (S.at_fault sink.old) (S.at_fault sink.new) (S.written sink.new) result }
    {
        if self.is_image {
            write_ppm(&self.images[0], sink)
        } else {
            write_all(sink, self.bytes.as_slice())
        }
    }

    /// Leaves no bytes of pictures.
    pub fn clear_bytes(&mut self)
        ensures { self.new ≡ record self.old { bytes = [] } }
    {
        self.is_image = false;
        self.bytes.clear();
    }

    /// Takes the P6 bytes of all images, in the order of the channels, as the bytes of the pictures. Those of one image stay in it, and
    /// those of several are put in the buffer.
    pub fn write_bytes(&mut self)
        ensures { self.new ≡ record self.old { bytes = flat_map ppm_bytes self.old.images } }
    {
        if self.images.len() == 1 {
            self.is_image = true;
            return;
        }
        self.is_image = false;
        self.bytes.clear();
        append_all(&mut self.bytes, self.images.as_slice());
    }
}
