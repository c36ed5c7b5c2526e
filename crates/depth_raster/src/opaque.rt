//! Opaque items, drawn batch by batch.
ghost use Rattle.std.specs.Prelude.{◌≡◌, ℕ, ◌+◌, ◌<◌, true, false, [], ◌∷◌, None, Some, All, length, slice_get};
ghost use Rattle.std.specs.Option.{option_to_list};
ghost use Rattle.draw_list.specs.Items.{instance_of_item};
ghost use Rattle.draw_list.specs.Lists.{instances_in};
ghost use Rattle.depth_raster.specs.Canvas.{Draws, Gathers, drawn_with, seen_at, colour_at, waiting_over};
ghost use Rattle.depth_raster.specs.Pieces.{IsPieceOf, IsThere, AreGathered};
ghost use Rattle.depth_raster.specs.Drawing.{instance_over, opaque_over};
ghost use Rattle.depth_raster.specs.Slots.{AreSlotsOf};
ghost use Rattle.depth_raster.specs.Strips.{AreStrips};
ghost use Rattle.ppm_out.specs.Pixmap.{pixel};

use crate::batch::Batch;
use crate::goes::Go;
use crate::shown::hand_over;
use crate::strip::Strip;
use crate::strips::draw_strips;
use crate::work::{processors_for, work_of_slots, work_to_show};
use draw_list::{DrawList, Item};
use fx_math::Lens;
use ppm_out::Image;
use std::thread::Threads;

/// Draws the opaque items of a list.
pub(crate) fn draw_opaque<R: Threads + Sync>(
    rt: &R,
    strips: &mut Vec<Strip>,
    batch: &mut Batch,
    lens: &Lens,
    back: [u8; 3],
    list: &DrawList,
)
    requires sound { AreStrips lens.now strips.old.items }
    requires ready { All (IsPieceOf lens.now) batch.old.pieces }
    ensures sound { AreStrips lens.now strips.new.items }
    ensures ready { All (IsPieceOf lens.now) batch.new.pieces }
    ensures drawn { Draws lens.now batch.old.is_first strips.old.items batch.old.pieces
        batch.new.is_first strips.new.items batch.new.pieces (opaque_over lens.now (instances_in list.now)) }
{
    batch.clear_waiting();
    for number in 0..list.len() {
        draw_numbered(rt, strips, batch, lens, back, list, number);
    }
    batch.prepare(rt, list, lens);
}

/// Draws the item of a number, where it is opaque.
fn draw_numbered<R: Threads + Sync>(
    rt: &R,
    strips: &mut Vec<Strip>,
    batch: &mut Batch,
    lens: &Lens,
    back: [u8; 3],
    list: &DrawList,
    number: usize,
)
    requires sound { AreStrips lens.now strips.old.items }
    requires gathered { AreGathered list.now lens.now batch.old.pieces batch.old.waiting.items }
    ensures sound { AreStrips lens.now strips.new.items }
    ensures gathered { AreGathered list.now lens.now batch.new.pieces batch.new.waiting.items }
    ensures drawn { Gathers list.now lens.now batch.old.is_first strips.old.items batch.old.pieces batch.old.waiting.items
        batch.new.is_first strips.new.items batch.new.pieces batch.new.waiting.items
        (opaque_over lens.now (option_to_list (slice_get (instances_in list.now) number))) }
{
    match list.item(number) {
        Some(item) => draw_if_opaque(rt, strips, batch, lens, back, list, number, item),
        None => {}
    }
}

/// Draws the item of a number, where it is opaque.
fn draw_if_opaque<R: Threads + Sync>(
    rt: &R,
    strips: &mut Vec<Strip>,
    batch: &mut Batch,
    lens: &Lens,
    back: [u8; 3],
    list: &DrawList,
    number: usize,
    item: &Item,
)
    requires sound { AreStrips lens.now strips.old.items }
    requires gathered { AreGathered list.now lens.now batch.old.pieces batch.old.waiting.items }
    requires item { slice_get list.now.items.items number ≡ Some item.now }
    ensures sound { AreStrips lens.now strips.new.items }
    ensures gathered { AreGathered list.now lens.now batch.new.pieces batch.new.waiting.items }
    ensures drawn { Gathers list.now lens.now batch.old.is_first strips.old.items batch.old.pieces batch.old.waiting.items
        batch.new.is_first strips.new.items batch.new.pieces batch.new.waiting.items
        (opaque_over lens.now (instance_of_item list.now.joints.lists list.now.kept.tris item.now ∷ [])) }
{
    match item.tint {
        None => draw_item(rt, strips, batch, lens, back, list, number, item),
        Some(_tint) => {}
    }
}

/// Draws the triangles of the item of a number.
fn draw_item<R: Threads + Sync>(
    rt: &R,
    strips: &mut Vec<Strip>,
    batch: &mut Batch,
    lens: &Lens,
    back: [u8; 3],
    list: &DrawList,
    number: usize,
    item: &Item,
)
    requires sound { AreStrips lens.now strips.old.items }
    requires gathered { AreGathered list.now lens.now batch.old.pieces batch.old.waiting.items }
    requires item { slice_get list.now.items.items number ≡ Some item.now }
    ensures sound { AreStrips lens.now strips.new.items }
    ensures gathered { AreGathered list.now lens.now batch.new.pieces batch.new.waiting.items }
    ensures drawn { Gathers list.now lens.now batch.old.is_first strips.old.items batch.old.pieces batch.old.waiting.items
        batch.new.is_first strips.new.items batch.new.pieces batch.new.waiting.items
        (instance_over lens.now (instance_of_item list.now.joints.lists list.now.kept.tris item.now)) }
{
    for n in 0..item.geom.len {
        match list.tri(item.geom, n) {
            Some(_tri) => draw_tri(rt, strips, batch, lens, back, list, number, n),
            None => return,
        }
    }
}

/// Draws the triangle of a number in an item of a number: it waits to be one of those that are drawn together; where these have no
/// more room, they are drawn before.
fn draw_tri<R: Threads + Sync>(
    rt: &R,
    strips: &mut Vec<Strip>,
    batch: &mut Batch,
    lens: &Lens,
    back: [u8; 3],
    list: &DrawList,
    item: usize,
    number: u32,
)
    requires sound { AreStrips lens.now strips.old.items }
    requires there { IsThere list.now item number }
    requires gathered { AreGathered list.now lens.now batch.old.pieces batch.old.waiting.items }
    ensures sound { AreStrips lens.now strips.new.items }
    ensures gathered { AreGathered list.now lens.now batch.new.pieces batch.new.waiting.items }
    ensures drawn { Gathers list.now lens.now batch.old.is_first strips.old.items batch.old.pieces batch.old.waiting.items
        batch.new.is_first strips.new.items batch.new.pieces batch.new.waiting.items (waiting_over list.now lens.now item number) }
{
    make_room(rt, strips, batch, lens, back, list);
    batch.gather(item, number);
}

/// Draws a full batch.
fn make_room<R: Threads + Sync>(
    rt: &R,
    strips: &mut Vec<Strip>,
    batch: &mut Batch,
    lens: &Lens,
    back: [u8; 3],
    list: &DrawList,
)
    requires sound { AreStrips lens.now strips.old.items }
    requires gathered { AreGathered list.now lens.now batch.old.pieces batch.old.waiting.items }
    ensures sound { AreStrips lens.now strips.new.items }
    ensures gathered { AreGathered list.now lens.now batch.new.pieces batch.new.waiting.items }
    ensures room { length batch.new.pieces + length batch.new.waiting.items < 16384 }
    ensures drawn { Gathers list.now lens.now batch.old.is_first strips.old.items batch.old.pieces batch.old.waiting.items
        batch.new.is_first strips.new.items batch.new.pieces batch.new.waiting.items (λ px py drawn. drawn) }
{
    if batch.is_full() {
        batch.prepare(rt, list, lens);
        flush(rt, strips, batch, lens, back);
    }
}

/// Draws the pieces of a batch, which are ready; it has none then. The first of a picture are drawn over strips that are cleared.
pub(crate) fn flush<R: Threads + Sync>(
    rt: &R,
    strips: &mut Vec<Strip>,
    batch: &mut Batch,
    lens: &Lens,
    back: [u8; 3],
)
    requires sound { AreStrips lens.now strips.old.items }
    requires ready { All (IsPieceOf lens.now) batch.old.pieces }
    ensures sound { AreStrips lens.now strips.new.items }
    ensures later { batch.new.is_first ≡ false }
    ensures empty { batch.new.pieces ≡ [] }
    ensures none { batch.new.waiting.items ≡ [] }
    ensures drawn { (px py : ℕ) → px < lens.now.w → py < lens.now.h
        → seen_at strips.new.items px py ≡ drawn_with lens.now batch.old.is_first strips.old.items batch.old.pieces px py }
    ensures blank { (px py : ℕ) → px < lens.now.w → py < lens.now.h
        → seen_at strips.new.items px py ≡ None → colour_at strips.new.items px py ≡ back }
{
    let processors = begin_go(rt, batch, lens, 0);
    let go = batch.go(lens, back, false);
    draw_strips(rt, processors, &go, strips);
    end_go(batch);
}

/// Draws the last pieces of a picture, which are ready, over strips that are cleared where they are its first ones too, and puts the
/// picture into an image of the lens's size. The batch has no pieces then.
pub(crate) fn finish<R: Threads + Sync>(
    rt: &R,
    strips: &mut Vec<Strip>,
    batch: &mut Batch,
    lens: &Lens,
    back: [u8; 3],
    image: &mut Image,
)
    requires sound { AreStrips lens.now strips.old.items }
    requires ready { All (IsPieceOf lens.now) batch.old.pieces }
    requires width { image.old.width ≡ lens.now.w }
    requires height { image.old.height ≡ lens.now.h }
    ensures sound { AreStrips lens.now strips.new.items }
    ensures empty { batch.new.pieces ≡ [] }
    ensures drawn { (px py : ℕ) → px < lens.now.w → py < lens.now.h
        → seen_at strips.new.items px py ≡ drawn_with lens.now batch.old.is_first strips.old.items batch.old.pieces px py }
    ensures blank { (px py : ℕ) → px < lens.now.w → py < lens.now.h
        → seen_at strips.new.items px py ≡ None → colour_at strips.new.items px py ≡ back }
    ensures width { image.new.width ≡ image.old.width }
    ensures height { image.new.height ≡ image.old.height }
    ensures pixels { (px py : ℕ) → px < lens.now.w → py < lens.now.h → pixel image.new px py ≡ colour_at strips.new.items px py }
{
    let processors = begin_go(rt, batch, lens, work_to_show(image.width(), image.height()));
    let go = batch.go(lens, back, true);
    draw_strips(rt, processors, &go, strips);
    hand_over(strips, image, lens);
    end_go(batch);
}

/// Gets the slots of a batch ready, and answers by how many processors it is drawn, if there is so much work besides.
fn begin_go<R: Threads>(rt: &R, batch: &mut Batch, lens: &Lens, besides: u64) -> usize
    requires { All (IsPieceOf lens.now) batch.old.pieces }
    ensures first { batch.new.is_first ≡ batch.old.is_first }
    ensures pieces { batch.new.pieces ≡ batch.old.pieces }
    ensures count { length batch.new.slots.items ≡ length batch.new.pieces }
    ensures slots { AreSlotsOf lens.now batch.new.pieces batch.new.slots.items }
{
    batch.complete_slots();
    let work = work_of_slots(&batch.slots).saturating_add(besides);
    let processors = processors_for(rt, &mut batch.processors, work);
    batch.sort_slots(processors);
    processors
}

/// Leaves a batch without pieces, whose next ones are not the first of a picture.
fn end_go(batch: &mut Batch)
    ensures later { batch.new.is_first ≡ false }
    ensures empty { batch.new.pieces ≡ [] }
    ensures none { batch.new.waiting.items ≡ [] }
{
    batch.clear();
    batch.is_first = false;
}
