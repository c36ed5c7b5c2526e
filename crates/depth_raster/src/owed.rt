//! Marks that are owed: a piece that covers all of a tile is kept in place of its marks, until these are asked for. Most such
//! tiles are painted without them.
ghost use Rattle.std.specs.Prelude.{◌≡◌, true, None, All, length};
ghost use Rattle.depth_raster.specs.Blocks.{size_of};
ghost use Rattle.depth_raster.specs.Marks.{nothing};
ghost use Rattle.depth_raster.specs.Owed.{IsOwedIn, owed_marks};
ghost use Rattle.depth_raster.specs.Tiles.{face_over, IsKept, MarksFollow};

use crate::blocks::Block;
use crate::marks::Mark;
use crate::pieces::Piece;
use crate::tile::Tile;
use crate::tiles::draw_marks;
use fx_math::Lens;

/// A piece that covers all of a tile in which nothing is drawn, made ready for a lens. None of its marks there is deeper than
/// `top`.
#[derive(Clone, Copy)]
pub(crate) struct Owed {
    pub(crate) lens: Lens,
    pub(crate) piece: Piece,
    pub(crate) top: u32,
}

/// Draws a piece that covers all of a blank tile: its marks are owed.
pub(crate) fn owe(tile: &mut Tile, owed: &Owed)
    requires blank { tile.old.blank ≡ true }
    requires covered { IsOwedIn tile.old.block owed.now }
    ensures { MarksFollow (face_over owed.now.lens owed.now.piece.face) tile.old tile.new }
{
    tile.blank = false;
    tile.top = owed.top;
    tile.last = None;
    tile.owed = Some(*owed);
}

/// Writes the marks of a tile that are owed.
pub(crate) fn pay(tile: &mut Tile)
    ensures kept { IsKept tile.old tile.new }
    ensures paid { tile.new.owed ≡ None }
    ensures top { tile.new.top ≡ tile.old.top }
    ensures blank { tile.new.blank ≡ tile.old.blank }
{
    match tile.owed {
        Some(owed) => {
            let block = tile.block;
            write(&mut tile.marks, &block, &owed);
            tile.owed = None;
        }
        None => {}
    }
}

/// Writes the marks that are owed in a block.
#[inline(never)]
fn write(marks: &mut [Mark], block: &Block, owed: &Owed)
    requires len { length marks.old ≡ size_of block.now }
    requires unwritten { All (λ m. m ≡ nothing) marks.old }
    requires owed { IsOwedIn block.now owed.now }
    ensures { marks.new ≡ owed_marks owed.now block.now }
{
    match &owed.piece.ready {
        Some(face) => draw_marks(marks, block, &owed.lens, &owed.piece, face),
        None => {}
    }
}
