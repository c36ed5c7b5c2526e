//! Faces over the marks of a tile.
ghost use Rattle.std.specs.Prelude.{◌≡◌, ℕ, ◌+◌, ◌-◌, ◌<◌, ◌≤◌, true, None, All, length, min, slice_set, slice_index_or};
ghost use Rattle.fx_math.specs.declared.lenses.Lens.{Lens};
ghost use Rattle.depth_raster.specs.Around.{IsWithin};
ghost use Rattle.depth_raster.specs.Blocks.{IsBlockOf, size_of};
ghost use Rattle.depth_raster.specs.Edges.{AreValuesAt};
ghost use Rattle.depth_raster.specs.Following.{Follows, RowFollows, SpanRelates};
ghost use Rattle.depth_raster.specs.Marks.{mark_over, no_mark};
ghost use Rattle.depth_raster.specs.Narrow.{AreNarrowAt, IsLineAt};
ghost use Rattle.depth_raster.specs.Pieces.{IsPieceOf, HasFace};
ghost use Rattle.depth_raster.specs.Runs.{IsRunOf};
ghost use Rattle.depth_raster.specs.Spans.{LiesIn, becomes};
ghost use Rattle.depth_raster.specs.Stamps.{IsStampOf};
ghost use Rattle.depth_raster.specs.Tiles.{mark_in, within, face_over, IsNoNearer, MarksFollow};
ghost use Rattle.depth_raster.specs.Weighed.{AreInnerTo};
ghost use Rattle.depth_raster.specs.declared.pieces.Piece.{Piece};
ghost use Rattle.tri_cover.specs.declared.face.Face as faces;

use crate::blocks::Block;
use crate::covers::covering_top;
use crate::edges::{line_below, small_falls_of, small_line, steps_of, values_at};
use crate::hiding::{is_beyond, is_hidden};
use crate::last::is_after;
use crate::marks::Mark;
use crate::means::{natural, weight_at};
use crate::owed::{Owed, owe, pay};
use crate::pieces::Piece;
use crate::pixels::limit;
use crate::runs::Run;
use crate::stamps::Stamp;
use crate::tile::Tile;
use edge_values::{EdgeValues, NarrowLine, NarrowValues};
use fx_math::Lens;
use tri_cover::Face;

/// Draws a piece over the marks of a tile. It stands by itself, so that a piece is not looked at before a tile asks for it.
#[inline(never)]
pub(crate) fn draw_piece(tile: &mut Tile, lens: &Lens, piece: &Piece)
    requires block { IsBlockOf lens.now tile.old.block }
    requires ready { IsPieceOf lens.now piece.now }
    ensures { MarksFollow (face_over lens.now piece.now.face) tile.old tile.new }
{
    match &piece.ready {
        Some(face) => draw_face(tile, lens, piece, face),
        None => {}
    }
}

/// Draws the piece of a face over the marks of a tile, unless its edge values tell that it changes none in the part of the tile
/// that it can reach.
fn draw_face(tile: &mut Tile, lens: &Lens, piece: &Piece, face: &Face)
    requires block { IsBlockOf lens.now tile.old.block }
    requires ready { IsPieceOf lens.now piece.now }
    requires face { HasFace piece.now face.now }
    ensures { MarksFollow (face_over lens.now piece.now.face) tile.old tile.new }
{
    let part = tile.block.part_in(&piece.extent);
    let limit = limit(tile.top, piece.face.shift);
    if is_hidden(face, &part, limit) {
        return;
    }
    if is_beyond(face, &part, limit - 1) {
        draw_at_top(tile, lens, piece, face);
    } else {
        draw_over(tile, lens, piece, face);
    }
}

/// Draws the piece of a face none of whose marks lies before the greatest depth of a tile over its marks, unless it comes after
/// all of these.
fn draw_at_top(tile: &mut Tile, lens: &Lens, piece: &Piece, face: &Face)
    requires block { IsBlockOf lens.now tile.old.block }
    requires ready { IsPieceOf lens.now piece.now }
    requires face { HasFace piece.now face.now }
    requires depth { IsNoNearer lens.now piece.now.face tile.old.block tile.old.top }
    ensures { MarksFollow (face_over lens.now piece.now.face) tile.old tile.new }
{
    if is_after(tile, &piece.face) {
        return;
    }
    draw_over(tile, lens, piece, face);
}

/// Draws the piece of a face over the marks of a tile, whose last one is not known any more then.
fn draw_over(tile: &mut Tile, lens: &Lens, piece: &Piece, face: &Face)
    requires block { IsBlockOf lens.now tile.old.block }
    requires ready { IsPieceOf lens.now piece.now }
    requires face { HasFace piece.now face.now }
    ensures { MarksFollow (face_over lens.now piece.now.face) tile.old tile.new }
{
    if tile.blank {
        if let Some(top) = covering_top(piece, face, &tile.block) {
            let owed = Owed {
                lens: *lens,
                piece: *piece,
                top,
            };
            owe(tile, &owed);
            return;
        }
    }
    draw_written(tile, lens, piece, face);
}

/// Draws the piece of a face over the written marks of a tile.
fn draw_written(tile: &mut Tile, lens: &Lens, piece: &Piece, face: &Face)
    requires block { IsBlockOf lens.now tile.old.block }
    requires ready { IsPieceOf lens.now piece.now }
    requires face { HasFace piece.now face.now }
    ensures { MarksFollow (face_over lens.now piece.now.face) tile.old tile.new }
{
    pay(tile);
    draw_paid(tile, lens, piece, face);
}

/// The same where none is owed.
fn draw_paid(tile: &mut Tile, lens: &Lens, piece: &Piece, face: &Face)
    requires paid { tile.old.owed ≡ None }
    requires block { IsBlockOf lens.now tile.old.block }
    requires ready { IsPieceOf lens.now piece.now }
    requires face { HasFace piece.now face.now }
    ensures { MarksFollow (face_over lens.now piece.now.face) tile.old tile.new }
{
    let block = tile.block;
    tile.blank = false;
    tile.last = None;
    draw_marks(&mut tile.marks, &block, lens, piece, face);
    tile.top = greatest_within(&tile.marks, &block, tile.top);
}

/// A depth behind which no mark of a block lies, from one that is known to be so: the greatest of the marks, looked for until a
/// row has that depth.
fn greatest_within(marks: &[Mark], block: &Block, most: u32) -> u32
    requires len { length marks.now ≡ size_of block.now }
    requires most { All (λ m. m.depth ≤ most) marks.now }
    ensures { All (λ m. m.depth ≤ result) marks.now }
{
    let mut greatest = 0;
    for r in 0..block.rows {
        let depth = greatest_in_row(marks, block, r);
        if most <= depth {
            return most;
        }
        greatest = greater(greatest, depth);
    }
    greatest
}

/// The greatest depth of the marks of a row of a block. No mark ends the search, so that several are compared at once.
fn greatest_in_row(marks: &[Mark], block: &Block, r: u16) -> u32
    requires len { length marks.now ≡ size_of block.now }
    requires row { r < block.now.rows }
    ensures { (q : ℕ) → q < block.now.width → (mark_in block.now marks.now q r).depth ≤ result }
{
    let mut greatest = 0;
    for q in 0..block.width {
        let place = block.place(q, r);
        greatest = greater(greatest, marks[place].depth);
    }
    greatest
}

fn greater(a: u32, b: u32) -> u32
    ensures first { a ≤ result }
    ensures second { b ≤ result }
{
    if a < b { b } else { a }
}

/// Draws the piece of a face over the marks of a block.
pub(crate) fn draw_marks(marks: &mut [Mark], block: &Block, lens: &Lens, piece: &Piece, face: &Face)
    requires len { length marks.old ≡ size_of block.now }
    requires block { IsBlockOf lens.now block.now }
    requires ready { IsPieceOf lens.now piece.now }
    requires face { HasFace piece.now face.now }
    ensures { Follows block.now.width block.now.rows (mark_in block.now marks.old) (mark_in block.now marks.new)
        (within block.now (face_over lens.now piece.now.face)) }
{
    let extent = piece.extent;
    let start = block.columns_from(extent.left);
    let end = block.columns_to(extent.right);
    if end <= start {
        return;
    }
    let stamp = Stamp::of(piece, face);
    if piece.small {
        draw_lines(marks, block, lens, piece, face, &stamp, start, end);
        return;
    }
    for r in block.rows_from(extent.top)..block.rows_to(extent.bottom) {
        let run = Run { r, start, end };
        draw_row(marks, block, lens, piece, face, &stamp, &run);
    }
}

/// Draws the piece of a face with small edge values over the marks of a block, in all columns in which it can be hit, from each row
/// to the next.
fn draw_lines(
    marks: &mut [Mark],
    block: &Block,
    lens: &Lens,
    piece: &Piece,
    face: &Face,
    stamp: &Stamp,
    start: u16,
    end: u16,
)
    requires len { length marks.old ≡ size_of block.now }
    requires block { IsBlockOf lens.now block.now }
    requires ready { IsPieceOf lens.now piece.now }
    requires face { HasFace piece.now face.now }
    requires stamp { IsStampOf piece.now face.now stamp.now }
    requires small { piece.now.small ≡ true }
    requires some { start < end }
    requires start { start ≡ piece.now.extent.left - block.now.left }
    requires end { end ≡ min block.now.width (piece.now.extent.right - block.now.left) }
    ensures { Follows block.now.width block.now.rows (mark_in block.now marks.old) (mark_in block.now marks.new)
        (within block.now (face_over lens.now piece.now.face)) }
{
    let top = block.rows_from(piece.extent.top);
    let bottom = block.rows_to(piece.extent.bottom);
    if bottom <= top {
        return;
    }
    let falls = small_falls_of(face);
    let px = block.left + start;
    let last = block.left + (end - 1);
    let mut line = small_line(face, px, last, block.first + top);
    for r in top..bottom {
        let run = Run { r, start, end };
        draw_line(marks, block, lens, piece, face, stamp, &line, &run);
        line = line_below(&line, &falls);
    }
}

/// Draws the piece of a face with small edge values over the marks of a row of a block: the run has all columns in which the piece
/// can be hit, and the line is that of the face in it.
fn draw_line(
    marks: &mut [Mark],
    block: &Block,
    lens: &Lens,
    piece: &Piece,
    face: &Face,
    stamp: &Stamp,
    line: &NarrowLine,
    run: &Run,
)
    requires len { length marks.old ≡ size_of block.now }
    requires block { IsBlockOf lens.now block.now }
    requires ready { IsPieceOf lens.now piece.now }
    requires face { HasFace piece.now face.now }
    requires stamp { IsStampOf piece.now face.now stamp.now }
    requires line { IsLineAt face.now (block.now.left + run.now.start) (block.now.left + (run.now.end - 1))
        (block.now.first + run.now.r) line.now }
    requires run { IsRunOf block.now run.now }
    requires start { run.now.start ≡ piece.now.extent.left - block.now.left }
    requires end { run.now.end ≡ min block.now.width (piece.now.extent.right - block.now.left) }
    requires top { piece.now.extent.top ≤ block.now.first + run.now.r }
    requires bottom { block.now.first + run.now.r < piece.now.extent.bottom }
    ensures { RowFollows block.now (mark_in block.now marks.old) (mark_in block.now marks.new)
        (within block.now (face_over lens.now piece.now.face)) run.now.r }
{
    draw_narrow(marks, block, lens, piece, face, stamp, line, run);
}

/// Draws the piece of any face over the marks of a row of a block: the run has all columns in which the piece can be hit.
fn draw_row(
    marks: &mut [Mark],
    block: &Block,
    lens: &Lens,
    piece: &Piece,
    face: &Face,
    stamp: &Stamp,
    run: &Run,
)
    requires len { length marks.old ≡ size_of block.now }
    requires block { IsBlockOf lens.now block.now }
    requires ready { IsPieceOf lens.now piece.now }
    requires face { HasFace piece.now face.now }
    requires stamp { IsStampOf piece.now face.now stamp.now }
    requires run { IsRunOf block.now run.now }
    requires start { run.now.start ≡ piece.now.extent.left - block.now.left }
    requires end { run.now.end ≡ min block.now.width (piece.now.extent.right - block.now.left) }
    requires top { piece.now.extent.top ≤ block.now.first + run.now.r }
    requires bottom { block.now.first + run.now.r < piece.now.extent.bottom }
    ensures { RowFollows block.now (mark_in block.now marks.old) (mark_in block.now marks.new)
        (within block.now (face_over lens.now piece.now.face)) run.now.r }
{
    draw_wide(marks, block, lens, piece, face, stamp, run);
}

/// Draws the piece of a face over the marks of a run in its box by its edge values in 64 bits. Where these tell that all pixels
/// of the run are covered, or none of them, they are not asked for at each one.
fn draw_narrow(
    marks: &mut [Mark],
    block: &Block,
    lens: &Lens,
    piece: &Piece,
    face: &Face,
    stamp: &Stamp,
    line: &NarrowLine,
    run: &Run,
)
    requires len { length marks.old ≡ size_of block.now }
    requires block { IsBlockOf lens.now block.now }
    requires ready { IsPieceOf lens.now piece.now }
    requires face { HasFace piece.now face.now }
    requires stamp { IsStampOf piece.now face.now stamp.now }
    requires line { IsLineAt face.now (block.now.left + run.now.start) (block.now.left + (run.now.end - 1))
        (block.now.first + run.now.r) line.now }
    requires run { IsRunOf block.now run.now }
    requires inside { LiesIn piece.now.extent block.now run.now }
    ensures { SpanRelates block.now (mark_in block.now marks.old) (mark_in block.now marks.new)
        (becomes (within block.now (face_over lens.now piece.now.face))) run.now.r run.now.start run.now.end }
{
    if line.is_inside() {
        draw_inside(marks, block, lens, piece, face, stamp, line, run);
        return;
    }
    if line.is_outside() {
        return;
    }
    draw_partly(marks, block, lens, piece, face, stamp, line, run);
}

/// Draws the piece of a face over the marks of a run in its box all of which it covers, from each pixel to the next.
fn draw_inside(
    marks: &mut [Mark],
    block: &Block,
    lens: &Lens,
    piece: &Piece,
    face: &Face,
    stamp: &Stamp,
    line: &NarrowLine,
    run: &Run,
)
    requires len { length marks.old ≡ size_of block.now }
    requires block { IsBlockOf lens.now block.now }
    requires ready { IsPieceOf lens.now piece.now }
    requires face { HasFace piece.now face.now }
    requires stamp { IsStampOf piece.now face.now stamp.now }
    requires line { IsLineAt face.now (block.now.left + run.now.start) (block.now.left + (run.now.end - 1))
        (block.now.first + run.now.r) line.now }
    requires inner { AreInnerTo face.now (block.now.left + run.now.start) (block.now.left + (run.now.end - 1))
        (block.now.first + run.now.r) }
    requires run { IsRunOf block.now run.now }
    requires inside { LiesIn piece.now.extent block.now run.now }
    ensures { SpanRelates block.now (mark_in block.now marks.old) (mark_in block.now marks.new)
        (becomes (within block.now (face_over lens.now piece.now.face))) run.now.r run.now.start run.now.end }
{
    let steps = line.steps;
    let mut values = line.start;
    let mut about = values.about();
    for q in run.start..run.end {
        stamp.draw(
            marks,
            block.place(q, run.r),
            u128::from(values.sum()),
            about,
        );
        values = values.plus(&steps);
        about = about + stamp.step;
    }
}

/// Draws the piece of a face over the marks of a run in its box, from each pixel to the next.
fn draw_partly(
    marks: &mut [Mark],
    block: &Block,
    lens: &Lens,
    piece: &Piece,
    face: &Face,
    stamp: &Stamp,
    line: &NarrowLine,
    run: &Run,
)
    requires len { length marks.old ≡ size_of block.now }
    requires block { IsBlockOf lens.now block.now }
    requires ready { IsPieceOf lens.now piece.now }
    requires face { HasFace piece.now face.now }
    requires stamp { IsStampOf piece.now face.now stamp.now }
    requires line { IsLineAt face.now (block.now.left + run.now.start) (block.now.left + (run.now.end - 1))
        (block.now.first + run.now.r) line.now }
    requires run { IsRunOf block.now run.now }
    requires inside { LiesIn piece.now.extent block.now run.now }
    ensures { SpanRelates block.now (mark_in block.now marks.old) (mark_in block.now marks.new)
        (becomes (within block.now (face_over lens.now piece.now.face))) run.now.r run.now.start run.now.end }
{
    let steps = line.steps;
    let mut values = line.start;
    let mut about = values.about();
    for q in run.start..run.end {
        draw_values(marks, block.place(q, run.r), stamp, &values, about);
        values = values.plus(&steps);
        about = about + stamp.step;
    }
}

/// Draws the piece of a face over the marks of a run in its box by its edge values in 128 bits. Where these tell that all pixels
/// of the run are covered, they are not asked for at each one.
#[cold]
#[inline(never)]
fn draw_wide(
    marks: &mut [Mark],
    block: &Block,
    lens: &Lens,
    piece: &Piece,
    face: &Face,
    stamp: &Stamp,
    run: &Run,
)
    requires len { length marks.old ≡ size_of block.now }
    requires block { IsBlockOf lens.now block.now }
    requires ready { IsPieceOf lens.now piece.now }
    requires face { HasFace piece.now face.now }
    requires stamp { IsStampOf piece.now face.now stamp.now }
    requires run { IsRunOf block.now run.now }
    requires inside { LiesIn piece.now.extent block.now run.now }
    ensures { SpanRelates block.now (mark_in block.now marks.old) (mark_in block.now marks.new)
        (becomes (within block.now (face_over lens.now piece.now.face))) run.now.r run.now.start run.now.end }
{
    let row = block.first + run.r;
    let values = values_at(face, block.left + run.start, row);
    let last = values_at(face, block.left + (run.end - 1), row);
    if values.are_inner() && last.are_inner() {
        draw_wide_inside(marks, block, lens, piece, face, stamp, &values, run);
    } else {
        draw_wide_partly(marks, block, lens, piece, face, stamp, &values, run);
    }
}

/// Draws the piece of a face over the marks of a run in its box all of which it covers, by the sum of its edge values in 128 bits,
/// from each pixel to the next.
fn draw_wide_inside(
    marks: &mut [Mark],
    block: &Block,
    lens: &Lens,
    piece: &Piece,
    face: &Face,
    stamp: &Stamp,
    first: &EdgeValues,
    run: &Run,
)
    requires len { length marks.old ≡ size_of block.now }
    requires block { IsBlockOf lens.now block.now }
    requires ready { IsPieceOf lens.now piece.now }
    requires face { HasFace piece.now face.now }
    requires stamp { IsStampOf piece.now face.now stamp.now }
    requires inner { AreInnerTo face.now (block.now.left + run.now.start) (block.now.left + (run.now.end - 1))
        (block.now.first + run.now.r) }
    requires run { IsRunOf block.now run.now }
    requires inside { LiesIn piece.now.extent block.now run.now }
    ensures { SpanRelates block.now (mark_in block.now marks.old) (mark_in block.now marks.new)
        (becomes (within block.now (face_over lens.now piece.now.face))) run.now.r run.now.start run.now.end }
{
    let mut weight = weight_at(face, block.left + run.start, block.first + run.r);
    let mut about = first.about();
    for q in run.start..run.end {
        stamp.draw(marks, block.place(q, run.r), natural(&weight), about);
        weight.advance();
        about = about + stamp.step;
    }
}

/// Draws the piece of a face over the marks of a run in its box by its edge values in 128 bits, from each pixel to the next.
fn draw_wide_partly(
    marks: &mut [Mark],
    block: &Block,
    lens: &Lens,
    piece: &Piece,
    face: &Face,
    stamp: &Stamp,
    first: &EdgeValues,
    run: &Run,
)
    requires len { length marks.old ≡ size_of block.now }
    requires block { IsBlockOf lens.now block.now }
    requires ready { IsPieceOf lens.now piece.now }
    requires face { HasFace piece.now face.now }
    requires stamp { IsStampOf piece.now face.now stamp.now }
    requires values { AreValuesAt face.now (block.now.left + run.now.start) (block.now.first + run.now.r) first.now }
    requires run { IsRunOf block.now run.now }
    requires inside { LiesIn piece.now.extent block.now run.now }
    ensures { SpanRelates block.now (mark_in block.now marks.old) (mark_in block.now marks.new)
        (becomes (within block.now (face_over lens.now piece.now.face))) run.now.r run.now.start run.now.end }
{
    let steps = steps_of(face);
    let mut values = *first;
    let mut about = values.about();
    for q in run.start..run.end {
        draw_wide_values(marks, block.place(q, run.r), stamp, &values, about);
        values = values.plus(&steps);
        about = about + stamp.step;
    }
}

/// Draws a piece by its stamp over the mark at a place, where the face has these edge values in 128 bits. A float that is about
/// their sum makes it cheap.
#[inline(always)]
fn draw_wide_values(
    marks: &mut [Mark],
    place: usize,
    stamp: &Stamp,
    values: &EdgeValues,
    about: f64,
)
    requires place { place < length marks.old }
    ensures { (p : Piece) (f : faces.Face) (lens : Lens) (px py : ℕ) → IsStampOf p f stamp.now → HasFace p f
        → px < lens.w → py < lens.h → IsPieceOf lens p → IsWithin p.extent px py → AreValuesAt f px py values.now
        → marks.new ≡ slice_set marks.old place (mark_over lens px py p.face (slice_index_or marks.old place no_mark)) }
{
    if let Some(sum) = values.inner_sum() {
        stamp.draw(marks, place, sum, about);
    }
}

/// Draws a piece by its stamp over the mark at a place, where the face has these edge values. A float that is about their sum makes
/// it cheap.
#[inline(always)]
fn draw_values(marks: &mut [Mark], place: usize, stamp: &Stamp, values: &NarrowValues, about: f64)
    requires place { place < length marks.old }
    ensures { (p : Piece) (f : faces.Face) (lens : Lens) (px py : ℕ) → IsStampOf p f stamp.now → HasFace p f
        → px < lens.w → py < lens.h → IsPieceOf lens p → IsWithin p.extent px py → AreNarrowAt f px py values.now
        → marks.new ≡ slice_set marks.old place (mark_over lens px py p.face (slice_index_or marks.old place no_mark)) }
{
    if let Some(sum) = values.inner_sum() {
        stamp.draw(marks, place, u128::from(sum), about);
    }
}
