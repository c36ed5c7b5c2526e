//! Planes through the eye and two points of a triangle.
//!
//! The scalar product of such a plane's normal with the ray of a pixel is an edge value, and it is linear in the pixel.
ghost use Rattle.std.specs.Prelude.{◌≡◌, ◌*◌, ◌^◌, pos, neg_ℤ, ◌+ℤ◌, ◌-ℤ◌, ◌*ℤ◌};
ghost use Rattle.fx_math.specs.Within.{IsWithin, IsCoordinate};
ghost use Rattle.fx_math.specs.Views.{point_of};
ghost use Rattle.tri_cover.specs.Normals.{AreNormal, turned};

use crate::linear::Linear;
use fx_math::{Lens, Vec3};

/// The plane through the eye that has this normal.
#[derive(Clone, Copy)]
pub(crate) struct Plane {
    x: i64,
    y: i64,
    z: i64,
    ghost normal: { AreNormal x y z },
}

impl Plane {
    ghost use Rattle.tri_cover.specs.Planes.{normal_of, cross, product, turned_point, IsLinearOf};

    /// The plane through the eye and two points: its normal is their cross product.
    pub(crate) fn through(p: Vec3, q: Vec3) -> Plane
        ensures { normal_of result ≡ cross (point_of p) (point_of q) }
    {
        Plane {
            x: minor(p.y, p.z, q.y, q.z),
            y: minor(p.z, p.x, q.z, q.x),
            z: minor(p.x, p.y, q.x, q.y),
        }
    }

    /// The determinant of a point and the two through which the plane goes.
    pub(crate) fn volume(&self, p: Vec3) -> i128
        ensures value { result ≡ product (point_of p) (normal_of self.now) }
        ensures bound { IsWithin (3 * 2 ^ 91) result }
    {
        sum(weigh(p.x, self.x), weigh(p.y, self.y), weigh(p.z, self.z))
    }

    /// The plane, with its normal turned where the determinant `volume` is below 0.
    pub(crate) fn facing(self, volume: i128) -> Plane
        ensures { normal_of result ≡ turned_point volume (normal_of self) }
    {
        Plane {
            x: turn(volume, self.x),
            y: turn(volume, self.y),
            z: turn(volume, self.z),
        }
    }

    /// The edge value as a function of the pixel.
    pub(crate) fn linear(&self, lens: &Lens) -> Linear
        ensures { IsLinearOf lens.now (normal_of self.now) result }
    {
        Linear {
            a: self.x,
            b: negated(self.z),
            c: self.at_first(lens),
        }
    }

    /// The edge value at the first pixel.
    fn at_first(&self, lens: &Lens) -> i128
        ensures value { result ≡ (pos 1 -ℤ pos lens.now.w) *ℤ self.now.x +ℤ pos (2 * lens.now.f) *ℤ self.now.y
            +ℤ (pos lens.now.h -ℤ pos 1) *ℤ self.now.z }
        ensures bound { IsWithin (2 ^ 80) result }
    {
        add(
            term(left(lens), self.x),
            term(ahead(lens), self.y),
            term(top(lens), self.z),
        )
    }
}

fn minor(a: i32, b: i32, c: i32, d: i32) -> i64
    requires a { IsCoordinate a }
    requires b { IsCoordinate b }
    requires c { IsCoordinate c }
    requires d { IsCoordinate d }
    ensures value { result ≡ a *ℤ d -ℤ b *ℤ c }
    ensures bound { IsWithin (2 ^ 61) result }
{
    times(a, d) - times(b, c)
}

fn times(a: i32, b: i32) -> i64
    requires a { IsCoordinate a }
    requires b { IsCoordinate b }
    ensures value { result ≡ a *ℤ b }
    ensures bound { IsWithin (2 ^ 60) result }
{
    i64::from(a) * i64::from(b)
}

fn weigh(coordinate: i32, normal: i64) -> i128
    requires coordinate { IsCoordinate coordinate }
    requires normal { IsWithin (2 ^ 61) normal }
    ensures value { result ≡ coordinate *ℤ normal }
    ensures bound { IsWithin (2 ^ 91) result }
{
    i128::from(coordinate) * i128::from(normal)
}

fn sum(x: i128, y: i128, z: i128) -> i128
    requires x { IsWithin (2 ^ 91) x }
    requires y { IsWithin (2 ^ 91) y }
    requires z { IsWithin (2 ^ 91) z }
    ensures value { result ≡ x +ℤ y +ℤ z }
    ensures bound { IsWithin (3 * 2 ^ 91) result }
{
    x + y + z
}

/// The ray of the first pixel to the right, forward and up.
fn left(lens: &Lens) -> i64
    ensures value { result ≡ pos 1 -ℤ pos lens.now.w }
    ensures bound { IsWithin (2 ^ 17) result }
{
    1 - i64::from(lens.w)
}

fn ahead(lens: &Lens) -> i64
    ensures value { result ≡ pos (2 * lens.now.f) }
    ensures bound { IsWithin (2 ^ 17) result }
{
    2 * i64::from(lens.f)
}

fn top(lens: &Lens) -> i64
    ensures value { result ≡ pos lens.now.h -ℤ pos 1 }
    ensures bound { IsWithin (2 ^ 17) result }
{
    i64::from(lens.h) - 1
}

fn term(ray: i64, normal: i64) -> i128
    requires ray { IsWithin (2 ^ 17) ray }
    requires normal { IsWithin (2 ^ 61) normal }
    ensures value { result ≡ ray *ℤ normal }
    ensures bound { IsWithin (2 ^ 78) result }
{
    i128::from(ray) * i128::from(normal)
}

fn add(x: i128, y: i128, z: i128) -> i128
    requires x { IsWithin (2 ^ 78) x }
    requires y { IsWithin (2 ^ 78) y }
    requires z { IsWithin (2 ^ 78) z }
    ensures value { result ≡ x +ℤ y +ℤ z }
    ensures bound { IsWithin (2 ^ 80) result }
{
    x + y + z
}

fn turn(volume: i128, z: i64) -> i64
    requires { IsWithin (2 ^ 61) z }
    ensures value { result ≡ turned volume z }
    ensures bound { IsWithin (2 ^ 61) result }
{
    if volume < 0 { -z } else { z }
}

fn negated(z: i64) -> i64
    requires { IsWithin (2 ^ 61) z }
    ensures value { result ≡ neg_ℤ z }
    ensures bound { IsWithin (2 ^ 61) result }
{
    -z
}
