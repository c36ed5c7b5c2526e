//! The strips of a picture, drawn.
ghost use Rattle.std.specs.Prelude.{◌≡◌, true, All, length};
ghost use Rattle.std.specs.Fork.{AcceptsEach, ChangesEach};
ghost use Rattle.depth_raster.specs.Blocks.{IsBlockOf};
ghost use Rattle.depth_raster.specs.Pieces.{IsPieceOf, AreRanked};
ghost use Rattle.depth_raster.specs.Goes.{IsReady, IsDrawnIn};
ghost use Rattle.depth_raster.specs.Shares.{AreStacked, AreSlotsFor, HasSlotsFor};
ghost use Rattle.depth_raster.specs.Shown.{ShowsItself};
ghost use Rattle.depth_raster.specs.Strips.{AreTilesOf, TilesRelate, IsStripOf, StripRelates, StripsRelate};
ghost use Rattle.depth_raster.specs.Tiles.{IsCleared, IsSettled, IsBegun, IsPainted, IsDrawn, IsDrawnFrom};

use crate::across::draw_slots;
use crate::blocks::Block;
use crate::goes::Go;
use crate::painting::{clear, paint, settle_tile};
use crate::pieces::Piece;
use crate::shares::{share_out, take_share};
use crate::shown::show_strip;
use crate::strip::Strip;
use crate::strip_slots::{StripSlot, sort_strip};
use crate::tile::Tile;
use crate::work::others_to_claim;
use fx_math::Lens;
use self_scheduling::for_each;
use std::mem;
use std::thread::Threads;

/// The rows of a strip; the last one of a picture may have fewer.
pub(crate) const ROWS: u16 = 16;

/// Draws a go in strips, which so many processors in all claim one after the other; the last go puts each strip into its rows.
pub(crate) fn draw_strips<R: Threads + Sync>(
    rt: &R,
    processors: usize,
    go: &Go<'_>,
    strips: &mut Vec<Strip>,
)
    requires go { IsReady go.now }
    requires strips { All (IsStripOf go.now.lens.now) strips.old.items }
    requires stacked { AreStacked strips.old.items }
    ensures many { length strips.new.items ≡ length strips.old.items }
    ensures drawn { StripsRelate (IsDrawnIn go.now) strips.old.items strips.new.items }
    ensures shown { go.now.is_last ≡ true → All ShowsItself strips.new.items }
{
    if processors < 2 {
        draw_alone(rt, go, strips);
    } else {
        draw_beside(rt, processors, go, strips);
    }
}

/// Draws a go in strips, one after the other. All slots are shared out before.
fn draw_alone<R: Threads + Sync>(rt: &R, go: &Go<'_>, strips: &mut Vec<Strip>)
    requires go { IsReady go.now }
    requires strips { All (IsStripOf go.now.lens.now) strips.old.items }
    requires stacked { AreStacked strips.old.items }
    ensures many { length strips.new.items ≡ length strips.old.items }
    ensures drawn { StripsRelate (IsDrawnIn go.now) strips.old.items strips.new.items }
    ensures shown { go.now.is_last ≡ true → All ShowsItself strips.new.items }
{
    share_out(strips.as_mut_slice(), go.slots);
    claim_strips(
        rt,
        1,
        strips,
        &|_i: usize, strip: &mut Strip|
            requires { IsReady go.now × IsStripOf go.now.lens.now strip.now
                × HasSlotsFor go.now.lens.now go.now.pieces.now strip.now }
            ensures { StripRelates (IsDrawnIn go.entry.now) strip.entry.now strip.exit.now
                × (go.entry.now.is_last ≡ true → ShowsItself strip.exit.now) }
        { draw_and_show(strip, go) },
    );
}

/// Draws a go in strips, which so many processors in all claim one after the other. Who draws a strip looks for its slots.
fn draw_beside<R: Threads + Sync>(rt: &R, processors: usize, go: &Go<'_>, strips: &mut Vec<Strip>)
    requires go { IsReady go.now }
    requires strips { All (IsStripOf go.now.lens.now) strips.old.items }
    ensures many { length strips.new.items ≡ length strips.old.items }
    ensures drawn { StripsRelate (IsDrawnIn go.now) strips.old.items strips.new.items }
    ensures shown { go.now.is_last ≡ true → All ShowsItself strips.new.items }
{
    claim_strips(
        rt,
        processors,
        strips,
        &|_i: usize, strip: &mut Strip|
            requires { IsReady go.now × IsStripOf go.now.lens.now strip.now }
            ensures { StripRelates (IsDrawnIn go.entry.now) strip.entry.now strip.exit.now
                × (go.entry.now.is_last ≡ true → ShowsItself strip.exit.now) }
        { draw_claimed(strip, go) },
    );
}

/// Calls `draw` on each strip, which so many processors in all claim one after the other.
pub(crate) fn claim_strips<R: Threads + Sync, F: Fn(usize, &mut Strip) + Sync>(
    rt: &R,
    processors: usize,
    strips: &mut Vec<Strip>,
    draw: &F,
)
    requires { AcceptsEach F.Fn draw.now strips.old.items }
    ensures many { length strips.new.items ≡ length strips.old.items }
    ensures each { ChangesEach F.Fn draw.now strips.old.items strips.new.items }
{
    let alloc = *strips.allocator();
    let claimed = mem::replace(strips, Vec::new(alloc));
    *strips = for_each(rt, alloc, claimed, others_to_claim(processors), draw);
}

/// Gives a strip its slots of a go, and draws that in it.
fn draw_claimed(strip: &mut Strip, go: &Go<'_>)
    requires go { IsReady go.now }
    requires strip { IsStripOf go.now.lens.now strip.old }
    ensures drawn { StripRelates (IsDrawnIn go.now) strip.old strip.new }
    ensures shown { go.now.is_last ≡ true → ShowsItself strip.new }
{
    take_share(strip, go.slots);
    draw_and_show(strip, go);
}

/// Draws a go in a strip that has its slots, and puts it into its rows where the go is the last one.
fn draw_and_show(strip: &mut Strip, go: &Go<'_>)
    requires go { IsReady go.now }
    requires strip { IsStripOf go.now.lens.now strip.old }
    requires slots { HasSlotsFor go.now.lens.now go.now.pieces.now strip.old }
    ensures drawn { StripRelates (IsDrawnIn go.now) strip.old strip.new }
    ensures shown { go.now.is_last ≡ true → ShowsItself strip.new }
{
    draw_strip(strip, go);
    if go.is_last {
        show_strip(strip);
    }
}

/// Draws a go in a strip, by the least depths of its slots.
fn draw_strip(strip: &mut Strip, go: &Go<'_>)
    requires go { IsReady go.now }
    requires strip { IsStripOf go.now.lens.now strip.old }
    requires slots { HasSlotsFor go.now.lens.now go.now.pieces.now strip.old }
    ensures { StripRelates (IsDrawnIn go.now) strip.old strip.new }
{
    sort_strip(&mut strip.slots);
    let band = strip.band;
    draw_band(
        &mut strip.tiles,
        go.is_first,
        &band,
        go.lens,
        go.back,
        go.pieces,
        &strip.slots,
    );
}

/// Draws the pieces of slots in the tiles of a band. Right before the first ones of a picture these are cleared, and before later
/// ones their marks lose the ranks of those before: the marks are at hand then.
fn draw_band(
    tiles: &mut [Tile],
    is_first: bool,
    band: &Block,
    lens: &Lens,
    back: [u8; 3],
    pieces: &[Piece],
    slots: &[StripSlot],
)
    requires tiles { AreTilesOf band.now tiles.old }
    requires band { IsBlockOf lens.now band.now }
    requires pieces { All (IsPieceOf lens.now) pieces.now }
    requires ranks { AreRanked pieces.now }
    requires slots { AreSlotsFor lens.now pieces.now band.now slots.now }
    ensures { TilesRelate (IsDrawnFrom lens.now back pieces.now is_first) tiles.old tiles.new }
{
    begin_tiles(tiles, is_first);
    draw_tiles(tiles, band, lens, back, pieces, slots);
}

/// Clears the marks of tiles before the first drawing, and takes the ranks from them before a later one.
fn begin_tiles(tiles: &mut [Tile], is_first: bool)
    ensures { TilesRelate (IsBegun is_first) tiles.old tiles.new }
{
    if is_first {
        clear_tiles(tiles);
    } else {
        settle_tiles(tiles);
    }
}

fn clear_tiles(tiles: &mut [Tile])
    ensures { TilesRelate IsCleared tiles.old tiles.new }
{
    for t in 0..tiles.len() {
        clear(&mut tiles[t]);
    }
}

fn settle_tiles(tiles: &mut [Tile])
    ensures { TilesRelate IsSettled tiles.old tiles.new }
{
    for t in 0..tiles.len() {
        settle_tile(&mut tiles[t]);
    }
}

fn draw_tiles(
    tiles: &mut [Tile],
    band: &Block,
    lens: &Lens,
    back: [u8; 3],
    pieces: &[Piece],
    slots: &[StripSlot],
)
    requires tiles { AreTilesOf band.now tiles.old }
    requires band { IsBlockOf lens.now band.now }
    requires pieces { All (IsPieceOf lens.now) pieces.now }
    requires ranks { AreRanked pieces.now }
    requires slots { AreSlotsFor lens.now pieces.now band.now slots.now }
    ensures { TilesRelate (IsDrawn lens.now back pieces.now) tiles.old tiles.new }
{
    draw_slots(tiles, band, lens, pieces, slots);
    paint_tiles(tiles, band, lens, back, pieces);
}

/// Paints the tiles of a band.
fn paint_tiles(tiles: &mut [Tile], band: &Block, lens: &Lens, back: [u8; 3], pieces: &[Piece])
    requires tiles { AreTilesOf band.now tiles.old }
    requires band { IsBlockOf lens.now band.now }
    requires pieces { All (IsPieceOf lens.now) pieces.now }
    ensures { TilesRelate (IsPainted lens.now back pieces.now) tiles.old tiles.new }
{
    for t in 0..tiles.len() {
        paint(&mut tiles[t], lens, back, pieces);
    }
}
