//! Where a triangle may be seen: a box of pixels, and depths.
//!
//! Where all vertices lie between the lens's depths, so does each point of the triangle, and the middles of its pixels lie
//! between its vertices: there are none where no middle does. Else the box is the whole picture.
ghost use Rattle.std.specs.Prelude.{◌≡◌, ◌↔◌, ◌-◌, ◌*◌, ◌≤◌, ◌<◌, ◌^◌, pos, ◌*ℤ◌, ◌≤ℤ◌, unsigned_abs, IfSome, IsTrue};
ghost use Rattle.std.specs.Int.{int_min, int_max};
ghost use Rattle.fx_math.specs.Limits.{size_limit};
ghost use Rattle.fx_math.specs.Within.{IsWithin, IsCoordinate};
ghost use Rattle.fx_math.specs.Views.{point_of};
ghost use Rattle.fx_math.specs.Fixed.{floor_div};
ghost use Rattle.tri_cover.specs.Extents.{IsExtentOf, IsSpanOf, AreBetween, IsDeepEnough, AreNearer, IsNearer, AreFarther, IsFarther, AreBefore, first_column, last_column, first_row, last_row, least_column, greatest_column, least_row, greatest_row, least_of, greatest_of, place_times, ceil_div, first_place, last_place, IsInPicture, IsWhole};

use crate::extent::{Extent, Span};
use fx_math::{Lens, Vec3};

/// The places around that at which a point is seen: the first one that does not lie before it, and the last one that does not lie
/// behind it. They are one where the point is seen at a pixel's middle.
#[derive(Clone, Copy)]
struct Ends {
    first: i64,
    last: i64,
}

/// The extent of the triangle of these vertices; None where it has no hit.
pub(crate) fn extent_of(u: Vec3, v: Vec3, w: Vec3, lens: &Lens) -> Option<Extent>
    ensures value { IsExtentOf lens.now (point_of u) (point_of v) (point_of w) result }
    ensures in_picture { IfSome result (λ x. IsInPicture lens.now x) }
{
    if are_between(u, v, w, lens) {
        between(u, v, w, lens)
    } else if are_nearer(u, v, w, lens) || are_farther(u, v, w, lens) {
        None
    } else {
        Some(whole(lens))
    }
}

fn are_between(u: Vec3, v: Vec3, w: Vec3, lens: &Lens) -> bool
    ensures { IsTrue result ↔ AreBetween lens.now (point_of u) (point_of v) (point_of w) }
{
    is_between(u, lens) && is_between(v, lens) && is_between(w, lens)
}

fn is_between(p: Vec3, lens: &Lens) -> bool
    ensures { IsTrue result ↔ IsDeepEnough lens.now (point_of p) }
{
    lens.near <= p.y && p.y <= lens.far
}

fn are_nearer(u: Vec3, v: Vec3, w: Vec3, lens: &Lens) -> bool
    ensures { IsTrue result ↔ AreNearer lens.now (point_of u) (point_of v) (point_of w) }
{
    is_nearer(u, lens) && is_nearer(v, lens) && is_nearer(w, lens)
}

fn is_nearer(p: Vec3, lens: &Lens) -> bool
    ensures { IsTrue result ↔ IsNearer lens.now (point_of p) }
{
    p.y < lens.near
}

fn are_farther(u: Vec3, v: Vec3, w: Vec3, lens: &Lens) -> bool
    ensures { IsTrue result ↔ AreFarther lens.now (point_of u) (point_of v) (point_of w) }
{
    is_farther(u, lens) && is_farther(v, lens) && is_farther(w, lens)
}

fn is_farther(p: Vec3, lens: &Lens) -> bool
    ensures { IsTrue result ↔ IsFarther lens.now (point_of p) }
{
    p.y > lens.far
}

/// The whole picture, at the lens's depths.
fn whole(lens: &Lens) -> Extent
    ensures { IsWhole lens.now result }
{
    Extent {
        columns: Span {
            first: 0,
            last: lens.w - 1,
        },
        rows: Span {
            first: 0,
            last: lens.h - 1,
        },
        near: lens.near as u32,
        far: lens.far as u32,
    }
}

/// The extent where all vertices lie between the lens's depths.
fn between(u: Vec3, v: Vec3, w: Vec3, lens: &Lens) -> Option<Extent>
    requires { AreBetween lens.now (point_of u) (point_of v) (point_of w) }
    ensures value { IsExtentOf lens.now (point_of u) (point_of v) (point_of w) result }
    ensures in_picture { IfSome result (λ x. IsInPicture lens.now x) }
{
    let columns = columns(u, v, w, lens)?;
    let rows = rows(u, v, w, lens)?;
    Some(Extent {
        columns,
        rows,
        near: 0,
        far: u32::MAX,
    })
}

/// The columns between those of three points before the eye.
fn columns(u: Vec3, v: Vec3, w: Vec3, lens: &Lens) -> Option<Span>
    requires { AreBefore (point_of u) (point_of v) (point_of w) }
    ensures { IsSpanOf lens.now.w (least_column lens.now (point_of u) (point_of v) (point_of w))
        (greatest_column lens.now (point_of u) (point_of v) (point_of w)) result }
{
    span_of(lens.w, column(u, lens), column(v, lens), column(w, lens))
}

fn column(p: Vec3, lens: &Lens) -> Ends
    requires { pos 1 ≤ℤ p.y }
    ensures first { result.first ≡ first_column lens.now (point_of p) }
    ensures last { result.last ≡ last_column lens.now (point_of p) }
{
    places(lens.f, lens.w, p.x, p.y)
}

/// The rows between those of three points before the eye.
fn rows(u: Vec3, v: Vec3, w: Vec3, lens: &Lens) -> Option<Span>
    requires { AreBefore (point_of u) (point_of v) (point_of w) }
    ensures { IsSpanOf lens.now.h (least_row lens.now (point_of u) (point_of v) (point_of w))
        (greatest_row lens.now (point_of u) (point_of v) (point_of w)) result }
{
    span_of(lens.h, row(u, lens), row(v, lens), row(w, lens))
}

fn row(p: Vec3, lens: &Lens) -> Ends
    requires { pos 1 ≤ℤ p.y }
    ensures first { result.first ≡ first_row lens.now (point_of p) }
    ensures last { result.last ≡ last_row lens.now (point_of p) }
{
    places(lens.f, lens.h, -p.z, p.y)
}

/// The pixels of a side between three points; None where there are none.
fn span_of(size: u16, p: Ends, q: Ends, r: Ends) -> Option<Span>
    requires size { 1 ≤ size }
    ensures { IsSpanOf size (least_of p.first q.first r.first) (greatest_of p.last q.last r.last) result }
{
    let least = least(p.first, q.first, r.first);
    let greatest = greatest(p.last, q.last, r.last);
    if greatest < least {
        return None;
    }
    clipped(size, least, greatest)
}

fn clipped(size: u16, least: i64, greatest: i64) -> Option<Span>
    requires size { 1 ≤ size }
    requires order { least ≤ℤ greatest }
    ensures { IsSpanOf size least greatest result }
{
    if greatest < 0 || least >= i64::from(size) {
        return None;
    }
    Some(Span {
        first: nearest_place(size, least),
        last: nearest_place(size, greatest),
    })
}

/// The place of a side that is nearest to this one.
fn nearest_place(size: u16, place: i64) -> u16
    requires { 1 ≤ size }
    ensures { pos result ≡ int_min (int_max place (pos 0)) (pos (size - 1)) }
{
    place.max(0).min(i64::from(size) - 1) as u16
}

fn least(p: i64, q: i64, r: i64) -> i64
    ensures { result ≡ least_of p q r }
{
    p.min(q).min(r)
}

fn greatest(p: i64, q: i64, r: i64) -> i64
    ensures { result ≡ greatest_of p q r }
{
    p.max(q).max(r)
}

/// The places, along a side of `size` pixels, around that at which a point is seen, which is `side` from the middle and at this
/// depth.
fn places(f: u16, size: u16, side: i32, depth: i32) -> Ends
    requires size { 1 ≤ size }
    requires most { size ≤ size_limit }
    requires side { IsCoordinate side }
    requires coordinate { IsCoordinate depth }
    requires depth { pos 1 ≤ℤ depth }
    ensures first { result.first ≡ first_place f size side depth }
    ensures last { result.last ≡ last_place f size side depth }
{
    around(place_times(f, size, side, depth), 2 * i64::from(depth))
}

fn place_times(f: u16, size: u16, side: i32, depth: i32) -> i64
    requires size { 1 ≤ size }
    requires most { size ≤ size_limit }
    requires side { IsCoordinate side }
    requires depth { IsCoordinate depth }
    ensures value { result ≡ place_times f size side depth }
    ensures bound { IsWithin (2 ^ 48) result }
{
    magnified(f, side) + across(size, depth)
}

fn magnified(f: u16, side: i32) -> i64
    requires { IsCoordinate side }
    ensures value { result ≡ pos (2 * f) *ℤ side }
    ensures bound { IsWithin (2 ^ 47) result }
{
    2 * i64::from(f) * i64::from(side)
}

fn across(size: u16, depth: i32) -> i64
    requires size { 1 ≤ size }
    requires most { size ≤ size_limit }
    requires depth { IsCoordinate depth }
    ensures value { result ≡ pos (size - 1) *ℤ depth }
    ensures bound { IsWithin (2 ^ 40) result }
{
    i64::from(size - 1) * i64::from(depth)
}

/// The whole numbers around `n / d`, by one division.
fn around(n: i64, d: i64) -> Ends
    requires some { pos 1 ≤ℤ d }
    requires divisor { IsWithin (2 ^ 32) d }
    requires small { unsigned_abs n < 2 ^ 60 }
    ensures first { result.first ≡ ceil_div n d }
    ensures last { result.last ≡ floor_div n d }
{
    let last = floor_quotient(n, d);
    let first = if d * last < n { last + 1 } else { last };
    Ends { first, last }
}

/// The greatest whole number that is not above `n / d`.
#[tactic(auto, unfolding(fx_math::specs::Fixed::floor_div))]
fn floor_quotient(n: i64, d: i64) -> i64
    requires some { pos 1 ≤ℤ d }
    requires small { unsigned_abs n < 2 ^ 60 }
    ensures { result ≡ floor_div n d }
{
    if n < 0 { (n + 1) / d - 1 } else { n / d }
}
