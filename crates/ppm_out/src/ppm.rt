//! Images as Netpbm's raw portable pixmaps.
ghost use Rattle.std.specs.Prelude.{◌≡◌, ℕ, List, ◌+◌, ◌≤◌, ◌++◌, length, vec_len, vec_capacity, IfOk, OnOk, OnErr};
ghost use Rattle.ppm_out.specs.Pixmap.{Pixmap, IsPixmap, Shows};
ghost use Rattle.ppm_out.specs.Ppm.{ppm_bytes, picture_bytes, ppm_header, ppm_size};

use crate::Image;
use itoa::Buffer;
use pf_io::NoMemory;
use std::alloc::Global;
use std::mem;

/// How many bytes the picture of an image so wide and high has.
pub fn ppm_len(width: u16, height: u16) -> usize
    ensures exact { result ≡ ppm_size width height }
    ensures of_image { (image : Pixmap) → IsPixmap image → image.width ≡ width → image.height ≡ height
        → length (ppm_bytes image) ≡ result }
{
    header_len(width, height) + 3 * (height as usize * width as usize)
}

/// How many bytes the header of such a picture has.
fn header_len(width: u16, height: u16) -> usize
    ensures exact { result ≡ length (ppm_header width height) }
    ensures small { result ≤ 19 }
{
    let digits = Buffer::new().format(width).len() + Buffer::new().format(height).len();
    digits + b"P6\n \n255\n".len()
}

/// Appends the picture of an image to `out`, or leaves `out` as it was.
pub fn append_ppm(out: &mut Vec<u8>, image: &Image) -> Result<(), NoMemory>
    ensures ok { OnOk result (out.new.items ≡ out.old.items ++ ppm_bytes image.now) }
    ensures err { OnErr result (out.new.items ≡ out.old.items) }
{
    out.reserve(ppm_len(image.width(), image.height()))?;
    append_ppm_reserved(out, image);
    Ok(())
}

/// Appends the picture of an image to `out`, which has room for it, and takes no memory.
pub fn append_ppm_reserved(out: &mut Vec<u8>, image: &Image)
    requires { vec_len out.old + ppm_size image.now.width image.now.height ≤ vec_capacity out.old }
    ensures exact { out.new.items ≡ out.old.items ++ ppm_bytes image.now }
    ensures room { vec_capacity out.new ≡ vec_capacity out.old }

    // The bytes are determined by the colours that the pixels show.
    ensures shown { (colour : ℕ → ℕ → List ℕ) → Shows image.now colour
        → out.new.items ≡ out.old.items ++ picture_bytes image.now.width image.now.height colour }
{
    append_within(out, image.header());
    append_bands(out, image);
}

// Appends the bytes of all pixels, for which there is room.
fn append_bands(out: &mut Vec<u8>, image: &Image)
    requires { vec_len out.old + length image.now.bytes ≤ vec_capacity out.old }
    ensures items { out.new.items ≡ out.old.items ++ image.now.bytes }
    ensures room { vec_capacity out.new ≡ vec_capacity out.old }
{
    for i in 0..image.bands() {
        append_within(out, image.band(i));
    }
}

// The header of the picture of an image so wide and high.
pub(crate) fn header(alloc: Global, width: u16, height: u16) -> Result<Vec<u8>, NoMemory>
    ensures { IfOk result (λ h. h.items ≡ ppm_header width height) }
{
    let mut out = Vec::with_capacity(alloc, header_len(width, height))?;
    append_header(&mut out, width, height);
    Ok(out)
}

// Appends a picture's header, for which there is room.
fn append_header(out: &mut Vec<u8>, width: u16, height: u16)
    requires { vec_len out.old + length (ppm_header width height) ≤ vec_capacity out.old }
    ensures items { out.new.items ≡ out.old.items ++ ppm_header width height }
    ensures room { vec_capacity out.new ≡ vec_capacity out.old }
{
    append_within(out, b"P6\n");
    append_within(out, Buffer::new().format(width).as_bytes());
    append_within(out, b" ");
    append_within(out, Buffer::new().format(height).as_bytes());
    append_within(out, b"\n255\n");
}

// Appends bytes for which there is room.
fn append_within(out: &mut Vec<u8>, bytes: &[u8])
    requires { vec_len out.old + length bytes.now ≤ vec_capacity out.old }
    ensures items { out.new.items ≡ out.old.items ++ bytes.now }
    ensures room { vec_capacity out.new ≡ vec_capacity out.old }
{
    let none = Vec::new(*out.allocator());
    *out = with_bytes(mem::replace(out, none), bytes);
}

// With these bytes appended, for which there is room. The vector is owned, so that its place and length stay in registers.
fn with_bytes(mut out: Vec<u8>, bytes: &[u8]) -> Vec<u8>
    requires { vec_len out + length bytes.now ≤ vec_capacity out }
    ensures items { result.items ≡ out.items ++ bytes.now }
    ensures room { vec_capacity result ≡ vec_capacity out }
{
    for byte in bytes {
        out.push_reserved(*byte);
    }
    out
}
