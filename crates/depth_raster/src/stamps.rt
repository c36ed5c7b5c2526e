//! What a piece leaves at the pixels that it covers.
ghost use Rattle.std.specs.Prelude.{◌≡◌, ℕ, ◌-◌, ◌<◌, ◌^◌, length, slice_set, slice_index_or};
ghost use Rattle.fx_math.specs.declared.lenses.Lens.{Lens};
ghost use Rattle.tri_cover.specs.declared.face.Face as faces;
ghost use Rattle.depth_raster.specs.Around.{IsWithin};
ghost use Rattle.depth_raster.specs.Marks.{lesser, mark_over, no_mark};
ghost use Rattle.depth_raster.specs.Pieces.{IsPieceOf, HasFace};
ghost use Rattle.depth_raster.specs.Stamps.{IsStampOf, mark_by_stamp};
ghost use Rattle.depth_raster.specs.Weighed.{IsInnerSumAt};
ghost use Rattle.depth_raster.specs.declared.pieces.Piece.{Piece};

use crate::looks::depths_of;
use crate::marks::Mark;
use crate::pieces::Piece;
use edge_values::Depths;
use std::num::nearest_i64_to_f64;
use tri_cover::Face;

/// What tells the depths of a piece of a face and the marks that it leaves, taken from the piece once for all pixels of a tile:
/// its depths, with a float that is about their dividend and one that is about the step of the sum of the edge values from a
/// pixel to the next one of its row, and what its marks have beside their depth.
#[derive(Clone, Copy)]
pub(crate) struct Stamp {
    pub(crate) depths: Depths,
    pub(crate) about: f64,
    pub(crate) step: f64,
    pub(crate) shift: u32,
    pub(crate) place: u32,
    pub(crate) number: u32,
    pub(crate) rank: u32,
}

impl Stamp {
    /// The stamp of a piece of a face.
    pub(crate) fn of(piece: &Piece, face: &Face) -> Stamp
        ensures { IsStampOf piece.now face.now result }
    {
        Stamp {
            depths: depths_of(face),
            about: piece.about,
            step: nearest_i64_to_f64(face.edges.sum.a) * 2.0,
            shift: piece.face.shift,
            place: piece.face.place,
            number: piece.face.number,
            rank: piece.face.rank,
        }
    }

    /// Leaves the piece's mark at a place, where it is nearer: at a pixel that the piece covers, none of whose edge values is below
    /// 0, and this is their sum. A float that is about the sum makes it cheap, and whatever it is, the mark is exact.
    #[inline(always)]
    pub(crate) fn draw(&self, marks: &mut [Mark], place: usize, sum: u128, about: f64)
        requires place { place < length marks.old }
        requires sum { sum < 2 ^ 84 }
        ensures { (p : Piece) (f : faces.Face) (lens : Lens) (px py : ℕ) → IsStampOf p f self.now → HasFace p f
            → px < lens.w → py < lens.h → IsPieceOf lens p → IsWithin p.extent px py → IsInnerSumAt f px py sum
            → marks.new ≡ slice_set marks.old place (mark_over lens px py p.face (slice_index_or marks.old place no_mark)) }
    {
        match self.depths.guessed(self.about / about, sum) {
            Some(depth) => {
                if self.depths.are_seen_at(depth) {
                    self.draw_hit(marks, place, depth as u32);
                }
            }
            None => self.draw_divided(marks, place, sum),
        }
    }

    /// The same, by a division.
    #[cold]
    #[inline(never)]
    fn draw_divided(&self, marks: &mut [Mark], place: usize, sum: u128)
        requires place { place < length marks.old }
        ensures { (p : Piece) (f : faces.Face) (lens : Lens) (px py : ℕ) → IsStampOf p f self.now → HasFace p f
            → px < lens.w → py < lens.h → IsPieceOf lens p → IsWithin p.extent px py → IsInnerSumAt f px py sum
            → marks.new ≡ slice_set marks.old place (mark_over lens px py p.face (slice_index_or marks.old place no_mark)) }
    {
        if let Some(depth) = self.depths.divided(sum) {
            self.draw_hit(marks, place, depth);
        }
    }

    /// Leaves the mark of a hit at a depth, where it is nearer.
    #[inline(always)]
    fn draw_hit(&self, marks: &mut [Mark], place: usize, depth: u32)
        requires place { place < length marks.old }
        ensures { marks.new ≡ slice_set marks.old place (lesser (slice_index_or marks.old place no_mark) (mark_by_stamp self.now depth)) }
    {
        if let Some(nearer) = marks[place].nearer(self.mark(depth)) {
            marks[place] = nearer;
        }
    }

    /// The mark of a hit at a depth.
    #[inline(always)]
    fn mark(&self, depth: u32) -> Mark
        ensures { result ≡ mark_by_stamp self.now depth }
    {
        Mark {
            depth: depth.saturating_sub(self.shift),
            place: self.place,
            number: self.number,
            rank: self.rank,
        }
    }
}
