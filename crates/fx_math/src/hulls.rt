//! The least box around boxes and points.
ghost use Rattle.std.specs.Prelude.{◌≡◌, map, All, IfSome, IsSome, ◌↔◌, ◌≢◌, []};
ghost use Rattle.std.specs.Int.{int_min, int_max};
ghost use Rattle.fx_math.specs.Within.{IsCoordinate};
ghost use Rattle.fx_math.specs.Plain.{Bounds, Holds, IsInside, point};
ghost use Rattle.fx_math.specs.Views.{point_of, bounds_of};
ghost use Rattle.fx_math.specs.Fixed.{box_at, hull, hull_of, hull_with};
ghost use Rattle.std.specs.Option.{option_map};

use crate::boxes::Box3;
use crate::vectors::Vec3;

/// The least box around two boxes.
#[tactic(auto, unfolding(crate::specs::Fixed::hull))]
pub fn hull(a: &Box3, b: &Box3) -> Box3
    ensures value { bounds_of result ≡ hull (bounds_of a.now) (bounds_of b.now) }
    ensures holds_first { IsInside (bounds_of a.now) (bounds_of result) }
    ensures holds_second { IsInside (bounds_of b.now) (bounds_of result) }
    ensures least { (c : Bounds) → IsInside (bounds_of a.now) c → IsInside (bounds_of b.now) c
        → IsInside (bounds_of result) c }
{
    Box3 {
        lo: lower_corner(a.lo, b.lo),
        hi: upper_corner(a.hi, b.hi),
    }
}

fn lower(a: i32, b: i32) -> i32
    requires a { IsCoordinate a }
    requires b { IsCoordinate b }
    ensures value { result ≡ int_min a b }
    ensures bound { IsCoordinate result }
{
    a.min(b)
}

fn upper(a: i32, b: i32) -> i32
    requires a { IsCoordinate a }
    requires b { IsCoordinate b }
    ensures value { result ≡ int_max a b }
    ensures bound { IsCoordinate result }
{
    a.max(b)
}

fn lower_corner(p: Vec3, q: Vec3) -> Vec3
    ensures { point_of result ≡ point (int_min p.x q.x) (int_min p.y q.y) (int_min p.z q.z) }
{
    Vec3 {
        x: lower(p.x, q.x),
        y: lower(p.y, q.y),
        z: lower(p.z, q.z),
    }
}

fn upper_corner(p: Vec3, q: Vec3) -> Vec3
    ensures { point_of result ≡ point (int_max p.x q.x) (int_max p.y q.y) (int_max p.z q.z) }
{
    Vec3 {
        x: upper(p.x, q.x),
        y: upper(p.y, q.y),
        z: upper(p.z, q.z),
    }
}

/// The least box around the points of a slice; None exactly where it is empty.
pub fn hull_of(vs: &[Vec3]) -> Option<Box3>
    ensures value { option_map bounds_of result ≡ hull_of (map point_of vs.now) }
    ensures some { IsSome result ↔ (vs.now ≢ []) }
    ensures holds { IfSome result (λ b. All (λ v. Holds (bounds_of b) (point_of v)) vs.now) }
    ensures least { IfSome result (λ b. (c : Bounds) → All (λ v. Holds c (point_of v)) vs.now
        → IsInside (bounds_of b) c) }
{
    let mut around = None;
    for v in vs {
        around = Some(around_also(around, *v));
    }
    around
}

fn around_also(around: Option<Box3>, v: Vec3) -> Box3
    ensures { bounds_of result ≡ hull_with (option_map bounds_of around) (box_at (point_of v)) }
{
    let point = Box3 { lo: v, hi: v };
    match around {
        None => point,
        Some(b) => hull(&b, &point),
    }
}
