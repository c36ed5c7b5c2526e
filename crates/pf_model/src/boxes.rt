//! Boxes of triangles, and how far a box is from the eye.
ghost use Rattle.std.specs.Prelude.{◌≡◌, ◌*◌, ◌+◌, ◌≤◌, ◌+ℤ◌, map, fold, Some};
ghost use Rattle.std.specs.List.{flat_map};
ghost use Rattle.std.specs.Option.{option_map};
ghost use Rattle.fx_math.specs.Within.{IsCoordinate};
ghost use Rattle.fx_math.specs.Views.{point_of, bounds_of};
ghost use Rattle.fx_math.specs.Fixed.{box_at};
ghost use Rattle.pf_model.specs.Boxes.{joined, hull_of_all, box_of_tris, corners, square, squared_distance};

use crate::geometry::Tri;
use fx_math::{Box3, Vec3, hull};

/// The least box around triangles, none where there are none.
#[tactic(auto, using(crate::proofs::Hulls::hull_of_points))]
pub fn box_of_tris(tris: &[Tri]) -> Option<Box3>
    ensures { option_map bounds_of result ≡ box_of_tris tris.now }
{
    widened(tris)
}

fn widened(tris: &[Tri]) -> Option<Box3>
    ensures { option_map bounds_of result ≡ hull_of_all (map (λ p. Some (box_at p)) (flat_map corners tris.now)) }
{
    let mut around = None;
    for tri in tris {
        around = with_tri(around, tri);
    }
    around
}

fn with_tri(around: Option<Box3>, tri: &Tri) -> Option<Box3>
    ensures { option_map bounds_of result
        ≡ fold joined (option_map bounds_of around) (map (λ p. Some (box_at p)) (corners tri.now)) }
{
    let mut wider = around;
    for v in tri.v.iter() {
        wider = with_point(wider, *v);
    }
    wider
}

fn with_point(around: Option<Box3>, v: Vec3) -> Option<Box3>
    ensures { option_map bounds_of result ≡ joined (option_map bounds_of around) (Some (box_at (point_of v))) }
{
    let point = Box3 { lo: v, hi: v };
    match around {
        Some(b) => Some(hull(&b, &point)),
        None => Some(point),
    }
}

/// Four times the squared distance of the middle of an eye box from the eye, in (1/4096 unit)².
#[tactic(auto, unfolding(crate::specs::Boxes::squared_distance))]
pub fn squared_distance(b: &Box3) -> u64
    ensures { result ≡ squared_distance (bounds_of b.now) }
{
    squared_sum(b.lo.x, b.hi.x) + squared_sum(b.lo.y, b.hi.y) + squared_sum(b.lo.z, b.hi.z)
}

fn squared_sum(lo: i32, hi: i32) -> u64
    requires lo { IsCoordinate lo }
    requires hi { IsCoordinate hi }
    ensures value { result ≡ square (lo +ℤ hi) }
    ensures bound { result ≤ 4611686009837453316 }
{
    let size = (i64::from(lo) + i64::from(hi)).unsigned_abs();
    squared(size)
}

fn squared(size: u64) -> u64
    requires { size ≤ 2147483646 }
    ensures value { result ≡ size * size }
    ensures bound { result ≤ 4611686009837453316 }
{
    size * size
}
