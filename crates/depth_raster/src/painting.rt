//! The colours of a tile after faces are drawn.
ghost use Rattle.std.specs.Prelude.{◌≡◌, ℕ, true, false, [], ◌+◌, ◌<◌, ◌≤◌, All, Some, IsTrue, IfSome, length, slice_set, slice_index_or};
ghost use Rattle.fx_math.specs.Limits.{size_limit};
ghost use Rattle.depth_raster.specs.Blocks.{IsBlockOf, size_of, colour_in};
ghost use Rattle.depth_raster.specs.Following.{Follows, Relates, SpanRelates};
ghost use Rattle.depth_raster.specs.Means.{AreMeansAt, filled, shaded_within};
ghost use Rattle.depth_raster.specs.Mixing.{AreColours, IsFlat};
ghost use Rattle.depth_raster.specs.Pieces.{IsPieceOf, settled, kept_colour};
ghost use Rattle.depth_raster.specs.Runs.{IsRunOf};
ghost use Rattle.depth_raster.specs.Shading.{IsSpanAt, shade_colour};
ghost use Rattle.depth_raster.specs.Small.{IsSmallFace};
ghost use Rattle.depth_raster.specs.Tiles.{mark_in, painted_within, kept_within, hit_within, HaveRank, IsCleared, IsSettled, IsFilled, IsPainted};

use crate::blocks::Block;
use crate::covered::paint_covered;
use crate::marks::{Mark, NOTHING};
use crate::means::Means;
use crate::owed::pay;
use crate::pieces::Piece;
use crate::runs::Run;
use crate::spans::span_at;
use crate::tile::Tile;
use fx_math::Lens;
use span_shading::{Shade, Span};
use tri_cover::Face;

/// Clears the marks of a tile, unless they are those of a blank one. What is owed is owed no more.
pub(crate) fn clear(tile: &mut Tile)
    ensures { IsCleared tile.old tile.new }
{
    if tile.blank {
        return;
    }
    match tile.owed {
        Some(_) => tile.owed = None,
        None => tile.marks.fill(Mark::nothing()),
    }
    tile.blank = true;
    tile.top = NOTHING;
    tile.last = None;
}

/// Gives each pixel of a tile the colour of the piece that is nearest there. What was drawn before keeps its colour, and
/// where nothing is drawn, the pixel has the background's: in a blank tile, all of them.
pub(crate) fn paint(tile: &mut Tile, lens: &Lens, back: [u8; 3], pieces: &[Piece])
    requires block { IsBlockOf lens.now tile.old.block }
    requires pieces { All (IsPieceOf lens.now) pieces.now }
    ensures { IsPainted lens.now back pieces.now tile.old tile.new }
{
    if tile.blank {
        fill(tile, back);
    } else {
        paint_marked(tile, lens, back, pieces);
    }
}

/// Gives all pixels of a tile one colour, unless they are known to have it.
fn fill(tile: &mut Tile, colour: [u8; 3])
    ensures { IsFilled colour tile.old tile.new }
{
    if is_plain(tile.plain, colour) {
        return;
    }
    tile.colours.fill(colour);
    tile.plain = Some(colour);
}

/// Whether the colour that is known is this one.
fn is_plain(plain: Option<[u8; 3]>, colour: [u8; 3]) -> bool
    ensures { IsTrue result → plain ≡ Some colour }
{
    match plain {
        Some(plain) => plain == colour,
        None => false,
    }
}

/// Paints a tile that is not blank.
fn paint_marked(tile: &mut Tile, lens: &Lens, back: [u8; 3], pieces: &[Piece])
    requires marked { tile.old.blank ≡ false }
    requires block { IsBlockOf lens.now tile.old.block }
    requires pieces { All (IsPieceOf lens.now) pieces.now }
    ensures { IsPainted lens.now back pieces.now tile.old tile.new }
{
    let block = tile.block;
    tile.plain = None;
    match tile.owed {
        Some(owed) => {
            paint_covered(
                &mut tile.colours,
                &block,
                lens,
                pieces,
                owed.piece.face.rank,
            );
        }
        None => paint_rows(&mut tile.colours, &tile.marks, &block, lens, back, pieces),
    }
}

/// Takes the ranks from the marks of a tile, before pieces of other ranks are drawn. A blank one has none.
pub(crate) fn settle_tile(tile: &mut Tile)
    ensures { IsSettled tile.old tile.new }
{
    if tile.blank {
        return;
    }
    settle_marked(tile);
}

/// Takes the ranks from the marks of a tile that is not blank.
fn settle_marked(tile: &mut Tile)
    requires marked { tile.old.blank ≡ false }
    ensures { IsSettled tile.old tile.new }
{
    pay(tile);
    let block = tile.block;
    settle(&mut tile.marks, &block);
    tile.last = None;
}

/// Takes the ranks from the marks of a block, and leaves their depths.
fn settle(marks: &mut [Mark], block: &Block)
    requires len { length marks.old ≡ size_of block.now }
    ensures marks { Follows block.now.width block.now.rows (mark_in block.now marks.old) (mark_in block.now marks.new)
        (λ q r m. settled m) }
    ensures depths { (most : ℕ) → All (λ m. m.depth ≤ most) marks.old → All (λ m. m.depth ≤ most) marks.new }
{
    for i in 0..marks.len() {
        marks[i].rank = 0;
    }
}

fn paint_rows(
    colours: &mut [[u8; 3]],
    marks: &[Mark],
    block: &Block,
    lens: &Lens,
    back: [u8; 3],
    pieces: &[Piece],
)
    requires colours { length colours.old ≡ size_of block.now }
    requires marks { length marks.now ≡ size_of block.now }
    requires block { IsBlockOf lens.now block.now }
    requires pieces { All (IsPieceOf lens.now) pieces.now }
    ensures { Relates block.now (colour_in block.now colours.old) (colour_in block.now colours.new)
        (painted_within lens.now back pieces.now block.now marks.now) }
{
    for r in 0..block.rows {
        let mut q = 0;
        while q < block.width {
            let end = run_end(marks, block, q, r);
            let run = Run { r, start: q, end };
            paint_run(colours, marks, block, lens, back, pieces, &run);
            q = end;
        }
    }
}

/// The end of a run of pixels in a row, from one of them on: their marks have one rank.
fn run_end(marks: &[Mark], block: &Block, start: u16, r: u16) -> u16
    requires marks { length marks.now ≡ size_of block.now }
    requires narrow { block.now.width ≤ size_limit }
    requires column { start < block.now.width }
    requires row { r < block.now.rows }
    ensures some { start < result }
    ensures within { result ≤ block.now.width }
    ensures ranks { HaveRank block.now marks.now r start result (mark_in block.now marks.now start r).rank }
{
    let rank = marks[block.place(start, r)].rank;
    for q in start + 1..block.width {
        let place = block.place(q, r);
        if marks[place].rank != rank {
            return q;
        }
    }
    block.width
}

/// Paints a run of pixels, whose marks have one rank.
fn paint_run(
    colours: &mut [[u8; 3]],
    marks: &[Mark],
    block: &Block,
    lens: &Lens,
    back: [u8; 3],
    pieces: &[Piece],
    run: &Run,
)
    requires colours { length colours.old ≡ size_of block.now }
    requires marks { length marks.now ≡ size_of block.now }
    requires block { IsBlockOf lens.now block.now }
    requires pieces { All (IsPieceOf lens.now) pieces.now }
    requires run { IsRunOf block.now run.now }
    requires ranks { HaveRank block.now marks.now run.now.r run.now.start run.now.end
        (mark_in block.now marks.now run.now.start run.now.r).rank }
    ensures { SpanRelates block.now (colour_in block.now colours.old) (colour_in block.now colours.new)
        (painted_within lens.now back pieces.now block.now marks.now) run.now.r run.now.start run.now.end }
{
    let place = block.place(run.start, run.r);
    let rank = marks[place].rank as usize;
    if rank == 0 {
        paint_old(colours, marks, block, back, run);
    } else if rank <= pieces.len() {
        let index = rank - 1;
        paint_piece(colours, block, lens, &pieces[index], run);
    }
}

/// Paints a run of pixels at which nothing is drawn together: what was drawn before keeps its colour.
fn paint_old(colours: &mut [[u8; 3]], marks: &[Mark], block: &Block, back: [u8; 3], run: &Run)
    requires colours { length colours.old ≡ size_of block.now }
    requires marks { length marks.now ≡ size_of block.now }
    requires run { IsRunOf block.now run.now }
    ensures { SpanRelates block.now (colour_in block.now colours.old) (colour_in block.now colours.new)
        (kept_within back block.now marks.now) run.now.r run.now.start run.now.end }
{
    for q in run.start..run.end {
        let place = block.place(q, run.r);
        paint_back(colours, place, &marks[place], back);
    }
}

/// Gives a pixel of a mark at which nothing is drawn the background's colour; any other pixel keeps its own.
#[inline(always)]
fn paint_back(colours: &mut [[u8; 3]], place: usize, mark: &Mark, back: [u8; 3])
    requires { place < length colours.old }
    ensures { colours.new ≡ slice_set colours.old place (kept_colour back mark.now (slice_index_or colours.old place [])) }
{
    if NOTHING <= mark.depth {
        colours[place] = back;
    }
}

/// Paints a run of pixels at which a piece is nearest.
pub(crate) fn paint_piece(
    colours: &mut [[u8; 3]],
    block: &Block,
    lens: &Lens,
    piece: &Piece,
    run: &Run,
)
    requires colours { length colours.old ≡ size_of block.now }
    requires block { IsBlockOf lens.now block.now }
    requires ready { IsPieceOf lens.now piece.now }
    requires run { IsRunOf block.now run.now }
    ensures { SpanRelates block.now (colour_in block.now colours.old) (colour_in block.now colours.new)
        (hit_within lens.now piece.now block.now) run.now.r run.now.start run.now.end }
{
    match &piece.ready {
        Some(face) => paint_face(colours, block, face, piece.small, run),
        None => {}
    }
}

/// Paints a run of pixels by a face. Where its vertices have one colour, so has each of the pixels.
fn paint_face(colours: &mut [[u8; 3]], block: &Block, face: &Face, small: bool, run: &Run)
    requires small { small ≡ true → IsSmallFace face.now }
    requires colours { length colours.old ≡ size_of block.now }
    requires columns { block.now.left + block.now.width ≤ size_limit }
    requires rows { block.now.first + block.now.rows ≤ size_limit }
    requires run { IsRunOf block.now run.now }
    ensures { SpanRelates block.now (colour_in block.now colours.old) (colour_in block.now colours.new)
        (shaded_within face.now block.now) run.now.r run.now.start run.now.end }
{
    match flat_colour(&face.colours) {
        Some(colour) => fill_run(colours, block, colour, run),
        None => {
            if small {
                paint_small(colours, block, face, run)
            } else {
                paint_shaded(colours, block, face, run)
            }
        }
    }
}

/// The one colour of three vertices, where they have one.
#[inline(always)]
fn flat_colour(colours: &[[u8; 3]; 3]) -> Option<[u8; 3]>
    ensures { IfSome result (IsFlat colours.now) }
{
    let [x, y, z] = *colours;
    if x[0] == y[0]
        && x[0] == z[0]
        && x[1] == y[1]
        && x[1] == z[1]
        && x[2] == y[2]
        && x[2] == z[2]
    {
        Some([x[0], x[1], x[2]])
    } else {
        None
    }
}

/// Paints a run of pixels by a small face whose vertices have several colours. Where its means at the first of them are those at
/// the last one too, they are those of all between.
fn paint_small(colours: &mut [[u8; 3]], block: &Block, face: &Face, run: &Run)
    requires small { IsSmallFace face.now }
    requires colours { length colours.old ≡ size_of block.now }
    requires columns { block.now.left + block.now.width ≤ size_limit }
    requires rows { block.now.first + block.now.rows ≤ size_limit }
    requires run { IsRunOf block.now run.now }
    ensures { SpanRelates block.now (colour_in block.now colours.old) (colour_in block.now colours.new)
        (shaded_within face.now block.now) run.now.r run.now.start run.now.end }
{
    let span = span_at(face, block.left + run.start, block.first + run.r);
    let shade = span.shade();
    if span.is_even(&shade, run.end - run.start - 1) {
        fill_run(colours, block, colour_of(&shade), run);
    } else {
        paint_span(colours, block, face, &span, run);
    }
}

/// The colour of three means.
#[inline(always)]
fn colour_of(shade: &Shade) -> [u8; 3]
    ensures { result ≡ shade_colour shade.now }
{
    [shade.red, shade.green, shade.blue]
}

/// Paints a run of pixels by a small face, from each pixel to the next, from its span at the first of them.
fn paint_span(colours: &mut [[u8; 3]], block: &Block, face: &Face, first: &Span, run: &Run)
    requires small { IsSmallFace face.now }
    requires bytes { AreColours face.now.colours }
    requires colours { length colours.old ≡ size_of block.now }
    requires columns { block.now.left + block.now.width ≤ size_limit }
    requires rows { block.now.first + block.now.rows ≤ size_limit }
    requires run { IsRunOf block.now run.now }
    requires span { IsSpanAt face.now (block.now.left + run.now.start) (block.now.first + run.now.r) first.now }
    ensures { SpanRelates block.now (colour_in block.now colours.old) (colour_in block.now colours.new)
        (shaded_within face.now block.now) run.now.r run.now.start run.now.end }
{
    let mut span = *first;
    for q in run.start..run.end {
        let place = block.place(q, run.r);
        let shade = span.shade();
        colours[place] = colour_of(&shade);
        span.advance();
    }
}

/// Paints a run of pixels by a face whose vertices have several colours.
fn paint_shaded(colours: &mut [[u8; 3]], block: &Block, face: &Face, run: &Run)
    requires colours { length colours.old ≡ size_of block.now }
    requires columns { block.now.left + block.now.width ≤ size_limit }
    requires rows { block.now.first + block.now.rows ≤ size_limit }
    requires run { IsRunOf block.now run.now }
    ensures { SpanRelates block.now (colour_in block.now colours.old) (colour_in block.now colours.new)
        (shaded_within face.now block.now) run.now.r run.now.start run.now.end }
{
    let guess = first_guess(colours, block, face, run);
    let first = Means::at(face, block.left + run.start, block.first + run.r, guess);
    paint_from(colours, block, face, &first, run);
}

/// Paints a run of pixels by a face, with its means at the first of them. Where they are the quotients at the last one too, they
/// are those of all between: from pixel to pixel the sums change evenly.
fn paint_from(colours: &mut [[u8; 3]], block: &Block, face: &Face, first: &Means, run: &Run)
    requires colours { length colours.old ≡ size_of block.now }
    requires columns { block.now.left + block.now.width ≤ size_limit }
    requires rows { block.now.first + block.now.rows ≤ size_limit }
    requires run { IsRunOf block.now run.now }
    requires means { AreMeansAt face.now (block.now.left + run.now.start) (block.now.first + run.now.r) first.now }
    ensures { SpanRelates block.now (colour_in block.now colours.old) (colour_in block.now colours.new)
        (shaded_within face.now block.now) run.now.r run.now.start run.now.end }
{
    let mut means = *first;
    means.settle();
    if means.are_even(run.end - run.start - 1) {
        fill_run(colours, block, means.colour(), run);
    } else {
        paint_steps(colours, block, face, &means, run);
    }
}

/// Gives a run of pixels one colour.
fn fill_run(colours: &mut [[u8; 3]], block: &Block, colour: [u8; 3], run: &Run)
    requires colours { length colours.old ≡ size_of block.now }
    requires run { IsRunOf block.now run.now }
    ensures { SpanRelates block.now (colour_in block.now colours.old) (colour_in block.now colours.new)
        (filled colour) run.now.r run.now.start run.now.end }
{
    for q in run.start..run.end {
        let place = block.place(q, run.r);
        colours[place] = colour;
    }
}

/// Paints a run of pixels by a face, from each pixel to the next, from its means at the first of them.
fn paint_steps(colours: &mut [[u8; 3]], block: &Block, face: &Face, first: &Means, run: &Run)
    requires colours { length colours.old ≡ size_of block.now }
    requires columns { block.now.left + block.now.width ≤ size_limit }
    requires rows { block.now.first + block.now.rows ≤ size_limit }
    requires run { IsRunOf block.now run.now }
    requires means { AreMeansAt face.now (block.now.left + run.now.start) (block.now.first + run.now.r) first.now }
    ensures { SpanRelates block.now (colour_in block.now colours.old) (colour_in block.now colours.new)
        (shaded_within face.now block.now) run.now.r run.now.start run.now.end }
{
    let mut means = *first;
    for q in run.start..run.end {
        let place = block.place(q, run.r);
        means.settle();
        colours[place] = means.colour();
        means.advance();
    }
}

/// A guess of a face's colour at the first pixel of a run: that of the pixel above; where there is none, that of a vertex.
fn first_guess(colours: &[[u8; 3]], block: &Block, face: &Face, run: &Run) -> [u8; 3]
    requires colours { length colours.now ≡ size_of block.now }
    requires run { IsRunOf block.now run.now }
{
    if run.r == 0 {
        face.colours[0]
    } else {
        let place = block.place(run.start, run.r - 1);
        colours[place]
    }
}
