//! The mark of a tile that comes last, by depth, place and number.
ghost use Rattle.std.specs.Prelude.{◌≡◌, true, false, IsTrue, is_some};
ghost use Rattle.depth_raster.specs.Later.{mark_at, ComesLast};
ghost use Rattle.depth_raster.specs.Marks.{goes_before};
ghost use Rattle.depth_raster.specs.Tiles.{marks_of, IsKept};

use crate::faces::Face;
use crate::marks::Mark;
use crate::owed::pay;
use crate::tile::Tile;

/// Whether the mark that a face has at the greatest depth of a tile comes before none of the tile's marks. The last of these is
/// looked for at most once between two drawings over the tile, and only where it is asked for.
pub(crate) fn is_after(tile: &mut Tile, face: &Face) -> bool
    ensures kept { IsKept tile.old tile.new }
    ensures after { IsTrue result → ComesLast (mark_at face.now tile.old.top) (marks_of tile.old) }
    ensures known { IsTrue result → is_some tile.new.last ≡ true }
{
    let mark = face.mark_at(tile.top);
    match tile.last {
        Some(last) => !mark.goes_before(&last),
        None => is_after_all(tile, &mark),
    }
}

/// Whether a mark comes before none of a tile's marks, the last of which is not known yet.
fn is_after_all(tile: &mut Tile, mark: &Mark) -> bool
    ensures kept { IsKept tile.old tile.new }
    ensures after { IsTrue result → ComesLast mark.now (marks_of tile.old) }
    ensures known { IsTrue result → is_some tile.new.last ≡ true }
{
    pay(tile);
    if is_before_any(mark, &tile.marks) {
        return false;
    }
    tile.last = Some(last_within(&tile.marks));
    true
}

/// Whether a mark comes before one of some.
fn is_before_any(mark: &Mark, marks: &[Mark]) -> bool
    ensures { result ≡ false → ComesLast mark.now marks.now }
{
    for other in marks {
        if mark.goes_before(other) {
            return true;
        }
    }
    false
}

/// A mark that comes before none of some: the last of them.
fn last_within(marks: &[Mark]) -> Mark
    ensures { ComesLast result marks.now }
{
    let mut last = Mark {
        depth: 0,
        place: 0,
        number: 0,
        rank: 0,
    };
    for mark in marks {
        last = later(last, *mark);
    }
    last
}

/// The later one of two marks.
fn later(a: Mark, b: Mark) -> Mark
    ensures first { goes_before result a ≡ false }
    ensures second { goes_before result b ≡ false }
{
    if a.goes_before(&b) { b } else { a }
}
