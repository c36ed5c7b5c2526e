//! The colours of a block that one piece covers.
ghost use Rattle.std.specs.Prelude.{◌≡◌, ℕ, List, All, length};
ghost use Rattle.depth_raster.specs.Blocks.{IsBlockOf, size_of, colour_in};
ghost use Rattle.depth_raster.specs.Following.{Relates};
ghost use Rattle.depth_raster.specs.Owed.{AreShown};
ghost use Rattle.depth_raster.specs.Pieces.{IsPieceOf};
ghost use Rattle.depth_raster.specs.Tiles.{hit_within, painted_within};
ghost use Rattle.depth_raster.specs.declared.marks.Mark.{Mark};

use crate::blocks::Block;
use crate::painting::paint_piece;
use crate::pieces::Piece;
use crate::runs::Run;
use fx_math::Lens;

/// Gives all pixels of a block the colours of the piece of a rank, which is nearest at each of them. Where that is one of an
/// earlier drawing, they keep their colours.
pub(crate) fn paint_covered(
    colours: &mut [[u8; 3]],
    block: &Block,
    lens: &Lens,
    pieces: &[Piece],
    rank: u32,
)
    requires colours { length colours.old ≡ size_of block.now }
    requires block { IsBlockOf lens.now block.now }
    requires pieces { All (IsPieceOf lens.now) pieces.now }
    ensures { (back : List ℕ) (marks : List Mark) → AreShown block.now marks rank
        → Relates block.now (colour_in block.now colours.old) (colour_in block.now colours.new)
        (painted_within lens.now back pieces.now block.now marks) }
{
    let rank = rank as usize;
    if rank == 0 {
        return;
    }
    if pieces.len() < rank {
        return;
    }
    paint_whole(colours, block, lens, &pieces[rank - 1]);
}

/// Gives all pixels of a block the colours of a piece that covers it.
fn paint_whole(colours: &mut [[u8; 3]], block: &Block, lens: &Lens, piece: &Piece)
    requires colours { length colours.old ≡ size_of block.now }
    requires block { IsBlockOf lens.now block.now }
    requires piece { IsPieceOf lens.now piece.now }
    ensures { Relates block.now (colour_in block.now colours.old) (colour_in block.now colours.new)
        (hit_within lens.now piece.now block.now) }
{
    if block.width == 0 {
        return;
    }
    for r in 0..block.rows {
        let run = Run {
            r,
            start: 0,
            end: block.width,
        };
        paint_piece(colours, block, lens, piece, &run);
    }
}
