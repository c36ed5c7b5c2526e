//! The hit of a triangle at a pixel.
ghost use Rattle.std.specs.Prelude.{◌≡◌, ◌<◌, []};
ghost use Rattle.fx_math.specs.Within.{AreSmall};
ghost use Rattle.fx_math.specs.Plain.{vector};
ghost use Rattle.tri_cover.specs.Hits.{hit, hit_of};

use crate::edges::EdgeValues;
use crate::hit::Hit;
use crate::judge::judge;
use crate::ray::{ray, row};
use fx_math::{Lens, det};
use pf_model::Tri;

/// The hit of a triangle in eye coordinates at the pixel `px`, `py`, which is counted from the top left. There is none
/// where the ray through the pixel's middle does not meet the triangle, or meets it before the lens's least depth or
/// beyond its greatest. Both sides of a triangle are seen.
pub fn cover(tri: &Tri, px: u16, py: u16, lens: &Lens) -> Option<Hit>
    requires x { px < lens.now.w }
    requires y { py < lens.now.h }
    ensures { result ≡ hit lens.now px py [] tri.now }
{
    let [u, v, w] = tri.v;
    cover_rows(lens, px, py, row(u), row(v), row(w), tri.c)
}

fn cover_rows(
    lens: &Lens,
    px: u16,
    py: u16,
    u: [i64; 3],
    v: [i64; 3],
    w: [i64; 3],
    colours: [[u8; 3]; 3],
) -> Option<Hit>
    requires x { px < lens.now.w }
    requires y { py < lens.now.h }
    requires u { AreSmall u }
    requires v { AreSmall v }
    requires w { AreSmall w }
    ensures { result ≡ hit_of lens.now px py (vector u) (vector v) (vector w) colours }
{
    let volume = det(u, v, w);
    let edges = EdgeValues::new(ray(lens, px, py), u, v, w);
    judge(lens, volume, &edges, colours)
}
