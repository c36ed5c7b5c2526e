//! Pieces over the tiles of a band.
ghost use Rattle.std.specs.Prelude.{◌≡◌, ◌/◌, All};
ghost use Rattle.std.specs.Int.{div_ceil};
ghost use Rattle.depth_raster.specs.Blocks.{IsBlockOf};
ghost use Rattle.depth_raster.specs.Pieces.{IsPieceOf, IsLeast};
ghost use Rattle.depth_raster.specs.StripSlots.{IsStripSlotFor, IsStripSlotOf, strip_slot_over, strip_slots_over};
ghost use Rattle.depth_raster.specs.Strips.{AreTilesOf, TilesRelate};
ghost use Rattle.depth_raster.specs.Tiles.{face_over, IsNoNearer, MarksFollow};

use crate::blocks::Block;
use crate::last::is_after;
use crate::pieces::Piece;
use crate::strip_slots::StripSlot;
use crate::tile::Tile;
use crate::tiles::draw_piece;
use fx_math::Lens;

/// The columns of a tile; the last one of a band may have fewer.
pub(crate) const COLUMNS: u16 = 16;

/// Draws the pieces of slots over the tiles of a band.
pub(crate) fn draw_slots(
    tiles: &mut [Tile],
    band: &Block,
    lens: &Lens,
    pieces: &[Piece],
    slots: &[StripSlot],
)
    requires tiles { AreTilesOf band.now tiles.old }
    requires band { IsBlockOf lens.now band.now }
    requires pieces { All (IsPieceOf lens.now) pieces.now }
    requires slots { All (IsStripSlotOf pieces.now) slots.now }
    ensures { TilesRelate (MarksFollow (strip_slots_over lens.now pieces.now slots.now)) tiles.old tiles.new }
{
    for slot in slots {
        draw_slot(tiles, band, lens, pieces, slot);
    }
}

/// Draws the piece of a slot over the tiles of a band.
#[inline(always)]
fn draw_slot(tiles: &mut [Tile], band: &Block, lens: &Lens, pieces: &[Piece], slot: &StripSlot)
    requires tiles { AreTilesOf band.now tiles.old }
    requires band { IsBlockOf lens.now band.now }
    requires pieces { All (IsPieceOf lens.now) pieces.now }
    requires slot { IsStripSlotOf pieces.now slot.now }
    ensures { TilesRelate (MarksFollow (strip_slot_over lens.now pieces.now slot.now)) tiles.old tiles.new }
{
    let index = slot.index as usize;
    if index < pieces.len() {
        draw_across(tiles, band, lens, &pieces[index], slot);
    }
}

/// Draws the piece of a slot over the tiles of a band.
fn draw_across(tiles: &mut [Tile], band: &Block, lens: &Lens, piece: &Piece, slot: &StripSlot)
    requires tiles { AreTilesOf band.now tiles.old }
    requires band { IsBlockOf lens.now band.now }
    requires ready { IsPieceOf lens.now piece.now }
    requires slot { IsStripSlotFor piece.now slot.now }
    ensures { TilesRelate (MarksFollow (face_over lens.now piece.now.face)) tiles.old tiles.new }
{
    let start = slot.start as usize;
    let end = tiles.len().min(slot.end as usize);
    for t in start..end {
        draw_before(&mut tiles[t], lens, piece, slot.least);
    }
}

/// Draws a piece over the marks of a tile, unless all of these lie before the least depth that a mark of it can have. Little
/// of the piece is looked at then.
fn draw_before(tile: &mut Tile, lens: &Lens, piece: &Piece, least: u32)
    requires block { IsBlockOf lens.now tile.old.block }
    requires ready { IsPieceOf lens.now piece.now }
    requires least { IsLeast piece.now.face least }
    ensures { MarksFollow (face_over lens.now piece.now.face) tile.old tile.new }
{
    if least < tile.top {
        draw_piece(tile, lens, piece);
    } else if least == tile.top {
        draw_at_top(tile, lens, piece);
    }
}

/// Draws a piece none of whose marks lies before the greatest depth of a tile over its marks, unless it comes after all of these.
fn draw_at_top(tile: &mut Tile, lens: &Lens, piece: &Piece)
    requires block { IsBlockOf lens.now tile.old.block }
    requires ready { IsPieceOf lens.now piece.now }
    requires depth { IsNoNearer lens.now piece.now.face tile.old.block tile.old.top }
    ensures { MarksFollow (face_over lens.now piece.now.face) tile.old tile.new }
{
    if is_after(tile, &piece.face) {
        return;
    }
    draw_piece(tile, lens, piece);
}

/// The first tile of a band that a piece can reach.
pub(crate) fn first_tile(piece: &Piece) -> usize
    ensures { result ≡ piece.now.extent.left / 16 }
{
    tile_of(piece.extent.left)
}

/// The end of the tiles of a band that a piece can reach.
pub(crate) fn end_tile(piece: &Piece) -> usize
    ensures { result ≡ div_ceil piece.now.extent.right 16 }
{
    tiles_before(piece.extent.right)
}

/// The tile of a band in which a column lies.
pub(crate) fn tile_of(column: u16) -> usize
    ensures { result ≡ column / 16 }
{
    (column / COLUMNS) as usize
}

/// How many tiles of a band have columns before this one.
pub(crate) fn tiles_before(column: u16) -> usize
    ensures { result ≡ div_ceil column 16 }
{
    column.div_ceil(COLUMNS) as usize
}
