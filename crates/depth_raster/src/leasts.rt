//! The least depths that faces can have.
ghost use Rattle.std.specs.Prelude.{◌<◌, pos, ◌≤ℤ◌};
ghost use Rattle.tri_cover.specs.Hits.{vertex};
ghost use Rattle.depth_raster.specs.Pieces.{IsLeast};

use crate::faces::Face;
use pf_model::Tri;

/// A depth before which no mark of a face lies, whose triangle has come to the eye.
pub(crate) fn least_mark(face: &Face) -> u32
    ensures { IsLeast face.now result }
{
    let least = least_depth(&face.tri);
    least.saturating_sub(face.shift)
}

/// The least depth of the vertices of a triangle, or 0 where one has a depth below 0.
fn least_depth(tri: &Tri) -> u32
    ensures first { 0 < result → pos result ≤ℤ (vertex tri.now 0).y }
    ensures second { 0 < result → pos result ≤ℤ (vertex tri.now 1).y }
    ensures third { 0 < result → pos result ≤ℤ (vertex tri.now 2).y }
{
    let [u, v, w] = tri.v;
    positive(u.y).min(positive(v.y)).min(positive(w.y))
}

/// A depth, or 0 in place of one below it.
fn positive(depth: i32) -> u32
    ensures { 0 < result → pos result ≤ℤ depth }
{
    if depth < 0 { 0 } else { depth.unsigned_abs() }
}
