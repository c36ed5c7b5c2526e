//! Triangles made ready for the pixels of a picture.
ghost use Rattle.std.specs.Prelude.{◌≡◌, ◌*◌, ◌<◌, ◌^◌, unsigned_abs};
ghost use Rattle.fx_math.specs.Within.{IsWithin};
ghost use Rattle.fx_math.specs.Views.{point_of};
ghost use Rattle.tri_cover.specs.Readiness.{IsReady, Foretells};

use crate::edge_functions::EdgeFunctions;
use crate::face::Face;
use crate::plane::Plane;
use crate::seen::extent_of;
use fx_math::{Lens, Vec3};
use pf_model::Tri;

/// The face of a triangle in eye coordinates: at each pixel of the picture it has the triangle's hit, on either side of the
/// triangle and whatever its coordinates. None where the triangle is hit at no pixel. It takes no memory.
pub fn face_of(tri: &Tri, lens: &Lens) -> Option<Face>
    ensures { IsReady lens.now tri.now result }
{
    let [u, v, w] = tri.v;
    face_of_vertices(u, v, w, tri.c, lens)
}

fn face_of_vertices(u: Vec3, v: Vec3, w: Vec3, colours: [[u8; 3]; 3], lens: &Lens) -> Option<Face>
    ensures { Foretells lens.now (point_of u) (point_of v) (point_of w) colours result }
{
    let first = Plane::through(v, w);
    let volume = first.volume(u);
    if volume == 0 {
        return None;
    }
    let extent = extent_of(u, v, w, lens)?;
    let second = Plane::through(w, u);
    let third = Plane::through(u, v);
    Some(Face {
        edges: EdgeFunctions::new(first, second, third, volume, lens),
        dividend: dividend(lens.f, volume),
        extent,
        colours,
    })
}

/// Twice the focal length times the magnitude of a determinant.
fn dividend(f: u16, volume: i128) -> u128
    requires { IsWithin (3 * 2 ^ 91) volume }
    ensures value { result ≡ 2 * f * unsigned_abs volume }
    ensures small { result < 2 ^ 110 }
{
    2 * u128::from(f) * volume.unsigned_abs()
}
