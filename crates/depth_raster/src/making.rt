//! The tiles of strips, made in the memory that was reserved for them.
ghost use Rattle.std.specs.Prelude.{◌≡◌, ◌*◌, ◌<◌, ◌≤◌, [], true, All, length};
ghost use Rattle.std.specs.Int.{div_ceil};
ghost use Rattle.std.specs.Vec.{vec_capacity};
ghost use Rattle.depth_raster.specs.Strips.{tile_block, AreTilesOf, AreStrips, IsToBe, IsMade, AreToBe, AreMade};

use crate::across::COLUMNS;
use crate::blocks::Block;
use crate::strip::Strip;
use crate::strips::claim_strips;
use crate::tile::Tile;
use crate::work::{Processors, processors_to_show};
use fx_math::Lens;
use std::thread::Threads;

/// Makes the tiles of strips, where they are still to be made: those of a large picture by several processors, since memory that is
/// touched for the first time takes its time.
pub(crate) fn make_strips<R: Threads + Sync>(
    rt: &R,
    processors: &mut Processors,
    strips: &mut Vec<Strip>,
    lens: &Lens,
)
    requires { AreToBe lens.now strips.old.items }
    ensures { AreStrips lens.now strips.new.items }
{
    if are_made(strips) {
        return;
    }
    make_beside(rt, processors_to_show(rt, processors, lens), strips);
}

/// Makes the tiles of strips, one strip after the other.
pub(crate) fn make_in_turn(strips: &mut [Strip], lens: &Lens)
    requires { AreToBe lens.now strips.old }
    ensures { AreStrips lens.now strips.new }
{
    make_each(strips);
}

/// Whether all strips have their tiles.
fn are_made(strips: &[Strip]) -> bool
    ensures { result ≡ true → All (λ s. 0 < length s.tiles.items) strips.now }
{
    strips.iter().all(|strip| strip.tiles.len() > 0)
}

/// Makes the tiles of strips, which so many processors in all claim one after the other.
fn make_beside<R: Threads + Sync>(rt: &R, processors: usize, strips: &mut Vec<Strip>)
    requires { All IsToBe strips.old.items }
    ensures many { length strips.new.items ≡ length strips.old.items }
    ensures made { AreMade strips.old.items strips.new.items }
{
    claim_strips(
        rt,
        processors,
        strips,
        &|_i: usize, strip: &mut Strip|
            requires { IsToBe strip.now }
            ensures { IsMade strip.entry.now strip.exit.now }
        { make_tiles(strip) },
    );
}

/// The same by one processor.
fn make_each(strips: &mut [Strip])
    requires { All IsToBe strips.old }
    ensures { AreMade strips.old strips.new }
{
    for i in 0..strips.len() {
        make_tiles(&mut strips[i]);
    }
}

/// Makes the tiles of a strip, where they are still to be made.
fn make_tiles(strip: &mut Strip)
    requires { IsToBe strip.old }
    ensures { IsMade strip.old strip.new }
{
    if strip.tiles.len() > 0 {
        return;
    }
    let band = strip.band;
    fill_band(&mut strip.tiles, &band);
}

/// Makes the tiles of a band, from the left.
fn fill_band(tiles: &mut Vec<Tile>, band: &Block)
    requires none { tiles.old.items ≡ [] }
    requires rows { band.now.rows ≤ 16 }
    requires room { div_ceil band.now.width 16 ≤ vec_capacity tiles.old }
    ensures { AreTilesOf band.now tiles.new.items }
{
    for j in 0..band.width.div_ceil(COLUMNS) {
        tiles.push_reserved(Tile::new(tile_block(band, j)));
    }
}

/// The block of the tile of a number in a band.
fn tile_block(band: &Block, j: u16) -> Block
    requires { 16 * j < band.now.width }
    ensures { result ≡ tile_block band.now j }
{
    let left = COLUMNS * j;
    Block {
        left,
        first: band.first,
        width: COLUMNS.min(band.width - left),
        rows: band.rows,
    }
}
