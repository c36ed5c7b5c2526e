//! The colours of tiles, put into an image.
ghost use Rattle.std.specs.Prelude.{◌≡◌, ◌≢◌, ℕ, ◌+◌, ◌*◌, ◌<◌, ◌≤◌, All, length};
ghost use Rattle.ppm_out.specs.Pixmap.{pixel};
ghost use Rattle.ppm_out.specs.Bands.{band_count, band_size, band_of};
ghost use Rattle.depth_raster.specs.Canvas.{colour_at};
ghost use Rattle.depth_raster.specs.Shown.{SetsRow, SetsTile, ShowsTiles, ShowsItself, IsSeenAs};
ghost use Rattle.depth_raster.specs.Strips.{AreTilesOf, AreStrips, IsTiled, StripsRelate};

use crate::blocks::Block;
use crate::strip::Strip;
use crate::strips::claim_strips;
use crate::tile::Tile;
use fx_math::Lens;
use ppm_out::Image;
use std::thread::Threads;

/// Puts the colours of the tiles of all strips into their rows, and these into an image; so many processors in all claim the strips.
pub(crate) fn show<R: Threads + Sync>(
    rt: &R,
    processors: usize,
    image: &mut Image,
    strips: &mut Vec<Strip>,
    lens: &Lens,
)
    requires width { image.old.width ≡ lens.now.w }
    requires height { image.old.height ≡ lens.now.h }
    requires strips { AreStrips lens.now strips.old.items }
    ensures strips { AreStrips lens.now strips.new.items }
    ensures width { image.new.width ≡ image.old.width }
    ensures height { image.new.height ≡ image.old.height }
    ensures pixels { (px py : ℕ) → px < lens.now.w → py < lens.now.h
        → pixel image.new px py ≡ colour_at strips.old.items px py }
{
    show_strips(rt, processors, strips);
    hand_over(strips, image, lens);
}

/// Puts the colours of the tiles of strips into their rows; so many processors in all claim the strips.
fn show_strips<R: Threads + Sync>(rt: &R, processors: usize, strips: &mut Vec<Strip>)
    requires { All IsTiled strips.old.items }
    ensures many { length strips.new.items ≡ length strips.old.items }
    ensures strips { StripsRelate (λ before after. after ≡ before) strips.old.items strips.new.items }
    ensures shown { All ShowsItself strips.new.items }
{
    claim_strips(
        rt,
        processors,
        strips,
        &|_i: usize, strip: &mut Strip|
            requires { IsTiled strip.now }
            ensures { IsSeenAs strip.entry.now strip.exit.now × ShowsItself strip.exit.now }
        { show_strip(strip) },
    );
}

/// Exchanges the rows of strips with those of an image, which shows what the strips show then.
pub(crate) fn hand_over(strips: &mut Vec<Strip>, image: &mut Image, lens: &Lens)
    requires width { image.old.width ≡ lens.now.w }
    requires height { image.old.height ≡ lens.now.h }
    requires strips { AreStrips lens.now strips.old.items }
    requires shown { All ShowsItself strips.old.items }
    ensures many { length strips.new.items ≡ length strips.old.items }
    ensures strips { StripsRelate (λ before after. after ≡ before) strips.old.items strips.new.items }
    ensures width { image.new.width ≡ image.old.width }
    ensures height { image.new.height ≡ image.old.height }
    ensures pixels { (px py : ℕ) → px < lens.now.w → py < lens.now.h
        → pixel image.new px py ≡ colour_at strips.new.items px py }
{
    exchange_rows(strips.as_mut_slice(), image, lens);
}

/// Exchanges the rows of one strip after the other with those of an image.
fn exchange_rows(strips: &mut [Strip], image: &mut Image, lens: &Lens)
    requires width { image.old.width ≡ lens.now.w }
    requires height { image.old.height ≡ lens.now.h }
    requires strips { AreStrips lens.now strips.old }
    requires shown { All ShowsItself strips.old }
    ensures strips { StripsRelate (λ before after. after ≡ before) strips.old strips.new }
    ensures width { image.new.width ≡ image.old.width }
    ensures height { image.new.height ≡ image.old.height }
    ensures pixels { (px py : ℕ) → px < lens.now.w → py < lens.now.h → pixel image.new px py ≡ colour_at strips.new px py }
{
    for i in 0..strips.len() {
        hand_rows(&mut strips[i], image, i);
    }
}

/// Exchanges the rows of the strip of a number with those of an image.
fn hand_rows(strip: &mut Strip, image: &mut Image, i: usize)
    requires number { i < band_count image.old.height }
    requires size { length strip.old.rows.items ≡ band_size image.old.width image.old.height i }
    ensures seen { IsSeenAs strip.old strip.new }
    ensures width { image.new.width ≡ image.old.width }
    ensures height { image.new.height ≡ image.old.height }
    ensures band { band_of image.new i ≡ strip.old.rows.items }
    ensures others { (j : ℕ) → j < band_count image.old.height → j ≢ i → band_of image.new j ≡ band_of image.old j }
{
    image.swap_band(i, &mut strip.rows);
}

/// Puts the colours of the tiles of a strip into its rows.
pub(crate) fn show_strip(strip: &mut Strip)
    requires { IsTiled strip.old }
    ensures seen { IsSeenAs strip.old strip.new }
    ensures shown { ShowsItself strip.new }
{
    let band = strip.band;
    show_tiles(&strip.tiles, &band, &mut strip.rows);
}

/// Puts the colours of the tiles of a band into the bytes of its rows.
fn show_tiles(tiles: &[Tile], band: &Block, bytes: &mut [u8])
    requires tiles { AreTilesOf band.now tiles.now }
    requires bytes { length bytes.old ≡ 3 * (band.now.rows * band.now.width) }
    ensures { ShowsTiles band.now tiles.now bytes.new }
{
    for j in 0..tiles.len() {
        show_tile(&tiles[j], bytes, band.width);
    }
}

/// Puts the colours of a tile into the bytes of the rows of its band, row after row.
fn show_tile(tile: &Tile, bytes: &mut [u8], width: u16)
    requires columns { tile.now.block.left + tile.now.block.width ≤ width }
    requires rows { 3 * (tile.now.block.rows * width) ≤ length bytes.old }
    ensures { SetsTile width bytes.old bytes.new tile.now tile.now.block.rows }
{
    let block = tile.block;
    for r in 0..block.rows {
        let from = block.place(0, r);
        let colours = &tile.colours[from..from + block.width as usize];
        show_row(colours, bytes, width, block.left, r);
    }
}

/// Puts colours into the bytes of rows so wide, from the column `left` of the row `r` on.
fn show_row(colours: &[[u8; 3]], bytes: &mut [u8], width: u16, left: u16, r: u16)
    requires columns { left + length colours.now ≤ width }
    requires rows { 3 * ((r + 1) * width) ≤ length bytes.old }
    ensures { SetsRow width bytes.old bytes.new left r colours.now }
{
    let start = 3 * (r as usize * width as usize + left as usize);
    let row = colours.as_flattened();
    bytes[start..start + row.len()].copy_from_slice(row);
}
