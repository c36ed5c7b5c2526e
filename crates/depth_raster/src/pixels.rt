//! A piece at a pixel.
ghost use Rattle.std.specs.Prelude.{◌≡◌, ℕ, ◌+◌, ◌<◌, ◌^◌};
ghost use Rattle.fx_math.specs.declared.lenses.Lens.{Lens};
ghost use Rattle.depth_raster.specs.Around.{IsWithin};
ghost use Rattle.depth_raster.specs.Edges.{AreValuesAt};
ghost use Rattle.depth_raster.specs.Faces.{glazed_by_face};
ghost use Rattle.depth_raster.specs.Marks.{behind_as};
ghost use Rattle.depth_raster.specs.Means.{AreMeansAt, AreSmallMeans};
ghost use Rattle.depth_raster.specs.Pieces.{IsPieceOf, HasFace};

use crate::glazing::blend;
use crate::looks::is_seen;
use crate::marks::Mark;
use crate::means::Means;
use crate::pieces::Piece;
use edge_values::EdgeValues;
use tri_cover::Face;

/// What a piece of a face of glass leaves of the colour under it, over a mark, at a pixel where the face has these edge values and
/// means. The means are settled where it is seen.
pub(crate) fn glazed(
    piece: &Piece,
    face: &Face,
    values: &EdgeValues,
    means: &mut Means,
    behind: &Mark,
    under: [u8; 3],
) -> [u8; 3]
    requires face { HasFace piece.now face.now }
    requires small { AreSmallMeans means.old }
    ensures colour { (lens : Lens) (px py : ℕ) → px < lens.w → py < lens.h → IsPieceOf lens piece.now → IsWithin piece.now.extent px py
        → AreValuesAt face.now px py values.now → AreMeansAt face.now px py means.old
        → result ≡ glazed_by_face lens px py piece.now.face (behind_as behind.now) under }
    ensures means { (px py : ℕ) → AreMeansAt face.now px py means.old → AreMeansAt face.now px py means.new }
{
    if !is_seen(face, values, limit(behind.depth, piece.face.shift)) {
        return under;
    }
    means.settle();
    blend(piece.face.alpha, means.colour(), under)
}

/// The least depth of a hit that lies behind a depth even when it is brought nearer by a decal shift.
pub(crate) fn limit(depth: u32, shift: u32) -> u64
    ensures value { result ≡ depth + 1 + shift }
    ensures bound { result < 2 ^ 40 }
{
    u64::from(depth) + 1 + u64::from(shift)
}
