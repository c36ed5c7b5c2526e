//! The bytes of an image in bands of rows, one vector each.
ghost use Rattle.std.specs.Prelude.{◌≡◌, ℕ, ◌+◌, ◌*◌, ◌<◌, ◌≤◌, List, [], length, replicate, slice_index, slice_index_or, slice_set, IfOk};
ghost use Rattle.std.specs.List.{concat};
ghost use Rattle.ppm_out.specs.Bands.{band_count, band_size, bytes_of_each, AreBands};

use pf_io::NoMemory;
use std::alloc::Global;
use std::mem;

/// The rows of a band; the last one of an image may have fewer.
pub const BAND_ROWS: u16 = 16;

// How many bands an image so high has.
fn band_count(height: u16) -> usize
    ensures { result ≡ band_count height }
{
    height.div_ceil(BAND_ROWS) as usize
}

// How many bytes a band has.
fn band_size(width: u16, height: u16, i: usize) -> usize
    requires { i < band_count height }
    ensures { result ≡ band_size width height i }
{
    let rows = (height as usize - BAND_ROWS as usize * i).min(BAND_ROWS as usize);
    3 * (rows * width as usize)
}

// The bands of a black image.
pub(crate) fn black_bands(alloc: Global, width: u16, height: u16) -> Result<Vec<Vec<u8>>, NoMemory>
    ensures bands { IfOk result (λ bands. AreBands width height (bytes_of_each bands.items)) }
    ensures black { IfOk result (λ bands. concat (bytes_of_each bands.items) ≡ replicate (3 * (height * width)) 0) }
{
    let count = band_count(height);
    let mut bands = Vec::with_capacity(alloc, count)?;
    for i in 0..count {
        let band = vec![in alloc; 0; band_size(width, height, i)]?;
        bands.push(band)?;
    }
    Ok(bands)
}

// Writes three bytes at a place of a band.
pub(crate) fn set_in_band(bands: &mut [Vec<u8>], i: usize, place: usize, colour: [u8; 3])
    requires band { i < length bands.old }
    requires inside { place + 3 ≤ length (slice_index_or (bytes_of_each bands.old) i []) }
    ensures { bytes_of_each bands.new ≡ slice_set (bytes_of_each bands.old) i
        (slice_set (slice_set (slice_set (slice_index_or (bytes_of_each bands.old) i [])
        place (slice_index colour 0)) (place + 1) (slice_index colour 1)) (place + 2) (slice_index colour 2)) }
{
    set_three(&mut bands[i], place, colour);
}

// Writes three bytes at a place.
fn set_three(bytes: &mut [u8], place: usize, colour: [u8; 3])
    requires { place + 3 ≤ length bytes.old }
    ensures { bytes.new
        ≡ slice_set (slice_set (slice_set bytes.old place (slice_index colour 0)) (place + 1) (slice_index colour 1))
        (place + 2) (slice_index colour 2) }
{
    let [red, green, blue] = colour;
    bytes[place] = red;
    bytes[place + 1] = green;
    bytes[place + 2] = blue;
}

// Exchanges a band with other bytes.
pub(crate) fn exchange(bands: &mut [Vec<u8>], i: usize, rows: &mut Vec<u8>)
    requires { i < length bands.old }
    ensures bands { bytes_of_each bands.new ≡ slice_set (bytes_of_each bands.old) i rows.old.items }
    ensures back { rows.new.items ≡ slice_index_or (bytes_of_each bands.old) i [] }
{
    mem::swap(&mut bands[i], rows);
}

// The bytes of a band.
pub(crate) fn bytes_of(bands: &[Vec<u8>], i: usize) -> &[u8]
    requires { i < length bands.now }
    ensures { result.now ≡ slice_index_or (bytes_of_each bands.now) i [] }
{
    &bands[i]
}
