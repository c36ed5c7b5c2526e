//! A tile of a picture: a block of pixels with its marks and its colours.
ghost use Rattle.std.specs.Prelude.{◌≡◌, ◌≤◌, true, None, [], ◌∷◌, All, length};
ghost use Rattle.std.specs.Option.{ForSome};
ghost use Rattle.depth_raster.specs.Blocks.{size_of};
ghost use Rattle.depth_raster.specs.Later.{ComesLast};
ghost use Rattle.depth_raster.specs.Marks.{nothing};
ghost use Rattle.depth_raster.specs.Owed.{marks_with, IsOwedIn};

use crate::blocks::Block;
use crate::marks::{Mark, NOTHING};
use crate::owed::Owed;
use arrayvec::ArrayVec;

/// The pixels of a tile at most.
const PIXELS: usize = 256;

/// A block of a picture, with a mark and a colour at each of its pixels; no mark has a depth above `top`,
/// and none comes after `last`, where that is known. In a blank one nothing is drawn, and a plain one has one colour. Where the
/// first piece covers all of it, its marks are owed: they are written once another piece asks for them. Marks and colours lie in the
/// tile itself, so that the tiles of a strip are one block of memory, of which no page is touched before they are made.
#[derive(Drop)]
pub(crate) struct Tile {
    pub(crate) block: Block,
    pub(crate) blank: bool,
    pub(crate) plain: Option<[u8; 3]>,
    pub(crate) top: u32,
    pub(crate) last: Option<Mark>,
    pub(crate) marks: ArrayVec<Mark, PIXELS>,
    pub(crate) owed: Option<Owed>,
    pub(crate) colours: ArrayVec<[u8; 3], PIXELS>,
    ghost marks_whole: { length marks.items ≡ size_of block },
    ghost colours_whole: { length colours.items ≡ size_of block },
    ghost blanked: { blank ≡ true → All (λ m. m ≡ nothing) marks.items },
    ghost unowing: { blank ≡ true → owed ≡ None },
    ghost unwritten: { ForSome owed (λ o. All (λ m. m ≡ nothing) marks.items) },
    ghost owing: { ForSome owed (λ o. ∥ IsOwedIn block o ∥₁) },
    ghost plained: { ForSome plain (λ c. All (λ x. x ≡ c) colours.items) },
    ghost topped: { All (λ m. m.depth ≤ top) (marks_with block marks.items owed) },
    ghost ended: { ForSome last (λ l. ComesLast l (marks_with block marks.items owed)) },
}

impl Tile {
    /// A tile of nothing, black. Its block has at most 256 pixels.
    pub(crate) fn new(block: Block) -> Tile
        requires { size_of block ≤ 256 }
        ensures { result.block ≡ block }
    {
        let count = block.rows as usize * block.width as usize;
        Tile {
            block,
            blank: true,
            plain: Some([0; 3]),
            top: NOTHING,
            last: None,
            marks: no_marks(count),
            owed: None,
            colours: black(count),
        }
    }
}

/// So many marks of nothing.
fn no_marks(count: usize) -> ArrayVec<Mark, PIXELS>
    requires { count ≤ 256 }
    ensures count { length result.items ≡ count }
    ensures each { All (λ m. m ≡ nothing) result.items }
{
    let mut marks = ArrayVec::new();
    for i in 0..count {
        marks.push(Mark::nothing());
    }
    marks
}

/// So many pixels of black.
fn black(count: usize) -> ArrayVec<[u8; 3], PIXELS>
    requires { count ≤ 256 }
    ensures count { length result.items ≡ count }
    ensures each { All (λ c. c ≡ 0 ∷ 0 ∷ 0 ∷ []) result.items }
{
    let mut colours = ArrayVec::new();
    for i in 0..count {
        colours.push([0; 3]);
    }
    colours
}
