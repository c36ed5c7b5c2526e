//! Faces at pixels: hit before a depth or not.
ghost use Rattle.std.specs.Prelude.{◌≡◌, ℕ, ◌<◌, ◌^◌, true};
ghost use Rattle.tri_cover.specs.Faces.{is_in_box};
ghost use Rattle.depth_raster.specs.Edges.{AreValuesAt};
ghost use Rattle.depth_raster.specs.Looks.{AreDepthsOf, IsSeen};

use edge_values::{Depths, EdgeValues};
use tri_cover::Face;

/// Whether a face is hit at a pixel of its box before a depth, from its edge values there.
pub(crate) fn is_seen(face: &Face, values: &EdgeValues, limit: u64) -> bool
    requires { limit < 2 ^ 40 }
    ensures { (px py : ℕ) → AreValuesAt face.now px py values.now → is_in_box face.now.extent px py ≡ true
        → IsSeen face.now px py limit result }
{
    match values.covered() {
        Some(sum) => depths_of(face).are_before(limit, sum),
        None => false,
    }
}

/// What tells the depth of a face at its pixels.
#[inline(always)]
pub(crate) fn depths_of(face: &Face) -> Depths
    ensures { AreDepthsOf face.now result }
{
    Depths {
        dividend: face.dividend,
        near: face.extent.near,
        far: face.extent.far,
    }
}
