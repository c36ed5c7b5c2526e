//! Faces whose edge values are so small that they and their sums, weighed by channels, have 64 bits.
ghost use Rattle.std.specs.Prelude.{IsTrue};
ghost use Rattle.std.specs.Option.{ForSome};
ghost use Rattle.depth_raster.specs.Small.{IsSmallLinear, IsSmallFace};

use edge_values::are_small;
use tri_cover::{Face, Linear};

/// Whether the edge values of a face are small, where there is one.
pub(crate) fn is_small(ready: &Option<Face>) -> bool
    ensures { IsTrue result → ForSome ready.now IsSmallFace }
{
    match ready {
        Some(face) => is_small_face(face),
        None => false,
    }
}

fn is_small_face(face: &Face) -> bool
    ensures { IsTrue result → IsSmallFace face.now }
{
    is_small_linear(&face.edges.e0)
        && is_small_linear(&face.edges.e1)
        && is_small_linear(&face.edges.e2)
}

fn is_small_linear(linear: &Linear) -> bool
    ensures { IsTrue result → IsSmallLinear linear.now }
{
    are_small(linear.a, linear.b, linear.c)
}
