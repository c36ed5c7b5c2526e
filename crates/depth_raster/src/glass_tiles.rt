//! Glass over the colours of a tile.
ghost use Rattle.std.specs.Prelude.{◌≡◌, ◌+◌, ◌<◌, ◌≤◌, length};
ghost use Rattle.depth_raster.specs.Blocks.{IsBlockOf, size_of, colour_in};
ghost use Rattle.depth_raster.specs.Following.{Follows, RowFollows};
ghost use Rattle.depth_raster.specs.Pieces.{IsPieceOf, HasFace};
ghost use Rattle.depth_raster.specs.Tiles.{glass_within, face_glazes, ColoursFollow};

use crate::blocks::Block;
use crate::edges::{steps_of, values_at};
use crate::hiding::is_hidden;
use crate::marks::Mark;
use crate::means::Means;
use crate::owed::pay;
use crate::pieces::Piece;
use crate::pixels::{glazed, limit};
use crate::tile::Tile;
use fx_math::Lens;
use tri_cover::Face;

/// Draws a piece of glass over the colours of a tile.
pub(crate) fn glaze_tile(tile: &mut Tile, lens: &Lens, piece: &Piece)
    requires block { IsBlockOf lens.now tile.old.block }
    requires ready { IsPieceOf lens.now piece.now }
    ensures { ColoursFollow (face_glazes lens.now piece.now.face) tile.old tile.new }
{
    match &piece.ready {
        Some(face) => glaze_face(tile, lens, piece, face),
        None => {}
    }
}

/// Draws the piece of a face of glass over the colours of a tile.
fn glaze_face(tile: &mut Tile, lens: &Lens, piece: &Piece, face: &Face)
    requires block { IsBlockOf lens.now tile.old.block }
    requires ready { IsPieceOf lens.now piece.now }
    requires face { HasFace piece.now face.now }
    ensures { ColoursFollow (face_glazes lens.now piece.now.face) tile.old tile.new }
{
    let block = tile.block;
    if is_hidden(face, &block, limit(tile.top, piece.face.shift)) {
        return;
    }
    pay(tile);
    tile.plain = None;
    glaze_colours(&mut tile.colours, &tile.marks, &block, lens, piece, face);
}

/// Draws the piece of a face of glass over the colours of a block.
fn glaze_colours(
    colours: &mut [[u8; 3]],
    marks: &[Mark],
    block: &Block,
    lens: &Lens,
    piece: &Piece,
    face: &Face,
)
    requires colours { length colours.old ≡ size_of block.now }
    requires marks { length marks.now ≡ size_of block.now }
    requires block { IsBlockOf lens.now block.now }
    requires ready { IsPieceOf lens.now piece.now }
    requires face { HasFace piece.now face.now }
    ensures { Follows block.now.width block.now.rows (colour_in block.now colours.old) (colour_in block.now colours.new)
        (glass_within block.now marks.now (face_glazes lens.now piece.now.face)) }
{
    let extent = piece.extent;
    for r in block.rows_from(extent.top)..block.rows_to(extent.bottom) {
        glaze_row(colours, marks, block, lens, piece, face, r);
    }
}

/// Draws the piece of a face of glass over the colours of a row of a block, from each pixel to the next.
fn glaze_row(
    colours: &mut [[u8; 3]],
    marks: &[Mark],
    block: &Block,
    lens: &Lens,
    piece: &Piece,
    face: &Face,
    r: u16,
)
    requires colours { length colours.old ≡ size_of block.now }
    requires marks { length marks.now ≡ size_of block.now }
    requires block { IsBlockOf lens.now block.now }
    requires ready { IsPieceOf lens.now piece.now }
    requires face { HasFace piece.now face.now }
    requires row { r < block.now.rows }
    requires top { piece.now.extent.top ≤ block.now.first + r }
    requires bottom { block.now.first + r < piece.now.extent.bottom }
    ensures { RowFollows block.now (colour_in block.now colours.old) (colour_in block.now colours.new)
        (glass_within block.now marks.now (face_glazes lens.now piece.now.face)) r }
{
    let start = block.columns_from(piece.extent.left);
    let end = block.columns_to(piece.extent.right);
    if end <= start {
        return;
    }
    let steps = steps_of(face);
    let mut values = values_at(face, block.left + start, block.first + r);
    let mut means = Means::at(face, block.left + start, block.first + r, face.colours[0]);
    for q in start..end {
        let place = block.place(q, r);
        let glazed = glazed(
            piece,
            face,
            &values,
            &mut means,
            &marks[place],
            colours[place],
        );
        colours[place] = glazed;
        values = values.plus(&steps);
        means.advance();
    }
}
