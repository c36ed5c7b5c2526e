//! Points and boxes under affine steps.
//!
//! All sums fit i64: a product of a coordinate and an entry is below 2^50 in magnitude, and the sum of three below 2^52.
//! The shift by 16 places is the division by 65536 rounded down.
ghost use Rattle.std.specs.Prelude.{◌≡◌, pos, ◌*ℤ◌, ◌+ℤ◌};
ghost use Rattle.std.specs.Int.{int_min, int_max};
ghost use Rattle.fx_math.specs.Limits.{product_limit, dot_limit};
ghost use Rattle.fx_math.specs.Within.{IsWithin, IsCoordinate, IsEntry};
ghost use Rattle.fx_math.specs.Plain.{Point, Bounds, point, IsBox, IsInside, Holds};
ghost use Rattle.fx_math.specs.Views.{point_of, matrix_of, bounds_of};
ghost use Rattle.fx_math.specs.Fixed.{apply, apply_box, clamp, floor_div, moved, dot, least_dot, greatest_dot};

use crate::boxes::Box3;
use crate::matrices::Affine;
use crate::vectors::Vec3;

const MOST: i64 = 1_073_741_823;

const LEAST: i64 = -1_073_741_823;

/// The point after a step: each coordinate is the sum of its products, rounded down to a whole number, plus the
/// translation, and is clamped to the coordinates' range.
pub fn apply(m: &Affine, v: Vec3) -> Vec3
    ensures value { point_of result ≡ apply (matrix_of m.now) (point_of v) }
{
    let [p, q, r] = m.a;
    moved_point(
        dot(v, p[0], q[0], r[0]),
        dot(v, p[1], q[1], r[1]),
        dot(v, p[2], q[2], r[2]),
        m.t,
    )
}

fn product(z: i32, a: i32) -> i64
    requires z { IsCoordinate z }
    requires a { IsEntry a }
    ensures value { result ≡ z *ℤ a }
    ensures bound { IsWithin product_limit result }
{
    i64::from(z) * i64::from(a)
}

fn sum(x: i64, y: i64, z: i64) -> i64
    requires x { IsWithin product_limit x }
    requires y { IsWithin product_limit y }
    requires z { IsWithin product_limit z }
    ensures value { result ≡ x +ℤ y +ℤ z }
    ensures bound { IsWithin dot_limit result }
{
    x + y + z
}

fn dot(v: Vec3, a: i32, b: i32, c: i32) -> i64
    requires a { IsEntry a }
    requires b { IsEntry b }
    requires c { IsEntry c }
    ensures value { result ≡ dot (point_of v) a b c }
    ensures bound { IsWithin dot_limit result }
{
    sum(product(v.x, a), product(v.y, b), product(v.z, c))
}

fn moved(sum: i64, t: i32) -> i32
    requires sum { IsWithin dot_limit sum }
    requires t { IsCoordinate t }
    ensures value { result ≡ moved sum t }
    ensures bound { IsCoordinate result }
{
    clamped(whole(sum) + i64::from(t))
}

fn moved_point(x: i64, y: i64, z: i64, t: Vec3) -> Vec3
    requires x { IsWithin dot_limit x }
    requires y { IsWithin dot_limit y }
    requires z { IsWithin dot_limit z }
    ensures { point_of result ≡ point (moved x t.x) (moved y t.y) (moved z t.z) }
{
    Vec3 {
        x: moved(x, t.x),
        y: moved(y, t.y),
        z: moved(z, t.z),
    }
}

fn whole(sum: i64) -> i64
    requires { IsWithin dot_limit sum }
    ensures value { result ≡ floor_div sum (pos 65536) }
    ensures bound { IsWithin dot_limit result }
{
    sum >> 16
}

#[tactic(auto, unfolding(crate::specs::Fixed::clamp))]
fn clamped(z: i64) -> i32
    ensures value { result ≡ clamp z }
    ensures bound { IsCoordinate result }
{
    z.clamp(LEAST, MOST) as i32
}

/// The least and the greatest of several sums.
#[derive(Clone, Copy)]
struct Ends {
    least: i64,
    greatest: i64,
}

fn product_ends(low: i32, high: i32, a: i32) -> Ends
    requires low { IsCoordinate low }
    requires high { IsCoordinate high }
    requires a { IsEntry a }
    ensures least { result.least ≡ int_min (low *ℤ a) (high *ℤ a) }
    ensures greatest { result.greatest ≡ int_max (low *ℤ a) (high *ℤ a) }
    ensures least_bound { IsWithin product_limit result.least }
    ensures greatest_bound { IsWithin product_limit result.greatest }
{
    let first = product(low, a);
    let second = product(high, a);
    Ends {
        least: first.min(second),
        greatest: first.max(second),
    }
}

fn sum_ends(b: &Box3, p: i32, q: i32, r: i32) -> Ends
    requires p { IsEntry p }
    requires q { IsEntry q }
    requires r { IsEntry r }
    ensures least { result.least ≡ least_dot (bounds_of b.now) p q r }
    ensures greatest { result.greatest ≡ greatest_dot (bounds_of b.now) p q r }
    ensures least_bound { IsWithin dot_limit result.least }
    ensures greatest_bound { IsWithin dot_limit result.greatest }
{
    let x = product_ends(b.lo.x, b.hi.x, p);
    let y = product_ends(b.lo.y, b.hi.y, q);
    let z = product_ends(b.lo.z, b.hi.z, r);
    Ends {
        least: sum(x.least, y.least, z.least),
        greatest: sum(x.greatest, y.greatest, z.greatest),
    }
}

/// The box around a box after a step: its ends are those of the sums over the box, moved as `apply` moves a sum.
pub fn apply_box(m: &Affine, b: &Box3) -> Box3
    ensures value { bounds_of result ≡ apply_box (matrix_of m.now) (bounds_of b.now) }

    // a point of the box is moved into the result
    ensures holds { (p : Point) → Holds (bounds_of b.now) p → Holds (bounds_of result) (apply (matrix_of m.now) p) }

    // a part of the box is moved into the result
    ensures keeps_parts { (part : Bounds) → IsBox part → IsInside part (bounds_of b.now)
        → IsInside (apply_box (matrix_of m.now) part) (bounds_of result) }
{
    let [p, q, r] = m.a;
    let x = sum_ends(b, p[0], q[0], r[0]);
    let y = sum_ends(b, p[1], q[1], r[1]);
    let z = sum_ends(b, p[2], q[2], r[2]);
    let lo = moved_point(x.least, y.least, z.least, m.t);
    let hi = moved_point(x.greatest, y.greatest, z.greatest, m.t);
    Box3 { lo, hi }
}
