//! Triangles in eye coordinates.
ghost use Rattle.std.specs.Prelude.{map};
ghost use Rattle.fx_math.specs.Views.{matrix_of};
ghost use Rattle.tri_cover.specs.Hits.{HitsAs};

use fx_math::Affine;
use pf_model::{Tri, carried_point};

/// A triangle after a list of steps, one after the other: at each pixel, through each lens, it is hit as the triangle is
/// after the steps.
pub fn carried(tri: &Tri, steps: &[Affine]) -> Tri
    ensures { HitsAs tri.now (map matrix_of steps.now) result }
{
    let [u, v, w] = tri.v;
    let c = tri.c;
    Tri {
        v: [
            carried_point(u, steps),
            carried_point(v, steps),
            carried_point(w, steps),
        ],
        c,
    }
}
