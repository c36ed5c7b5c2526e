//! Boxes against the frustum of a lens.
//!
//! The products of a coordinate below 2^30 with twice a focal length below 2^17, or with a picture's size, fit i64.
#![tactic(auto)]

ghost use Rattle.std.specs.Prelude.{◌≡◌, ◌≤◌, ◌*◌, ◌^◌, pos, neg_ℤ, ◌*ℤ◌, IsTrue};
ghost use Rattle.fx_math.specs.Limits.{coordinate_limit};
ghost use Rattle.fx_math.specs.Within.{IsWithin, IsCoordinate};
ghost use Rattle.fx_math.specs.Views.{bounds_of};
ghost use Rattle.pf_bounds.specs.Outside.{is_off_depth, is_beside, is_outside, HitsNothing, PartsAreOutside};

use fx_math::{Box3, Lens};

/// Whether a box in eye coordinates lies outside the frustum of the lens, by six tests: all of it is nearer or farther than
/// the lens's depths, or to one side of the rays of all pixels.
pub fn outside(b: &Box3, lens: &Lens) -> bool
    ensures value { result ≡ is_outside lens.now (bounds_of b.now) }

    // no pixel is hit by a triangle in a box that is outside
    ensures hidden { IsTrue result → HitsNothing lens.now (bounds_of b.now) }

    // a box inside one that is outside is outside
    ensures parts { IsTrue result → PartsAreOutside lens.now (bounds_of b.now) }
{
    fails_a_test(b, lens)
}

#[tactic(auto, unfolding(crate::specs::Outside::is_outside))]
fn fails_a_test(b: &Box3, lens: &Lens) -> bool
    ensures { result ≡ is_outside lens.now (bounds_of b.now) }
{
    off_depth(b, lens)
        || beside(lens.f, lens.w, b.lo.x, b.hi.x, b.hi.y)
        || beside(lens.f, lens.h, b.lo.z, b.hi.z, b.hi.y)
}

#[tactic(auto, unfolding(crate::specs::Outside::is_off_depth))]
fn off_depth(b: &Box3, lens: &Lens) -> bool
    ensures { result ≡ is_off_depth lens.now (bounds_of b.now) }
{
    b.hi.y < lens.near || b.lo.y > lens.far
}

#[tactic(auto, unfolding(crate::specs::Outside::is_beside))]
fn beside(focus: u16, size: u16, low: i32, high: i32, depth: i32) -> bool
    requires size { 1 ≤ size }
    requires low { IsCoordinate low }
    requires high { IsCoordinate high }
    requires depth { IsCoordinate depth }
    ensures { result ≡ is_beside focus size low high depth }
{
    let limit = scaled(u32::from(size - 1), depth);
    let right = scaled(2 * u32::from(focus), low);
    let left = opposite(scaled(2 * u32::from(focus), high));
    right > limit || left > limit
}

fn scaled(n: u32, z: i32) -> i64
    requires n { n ≤ 2 ^ 17 }
    requires z { IsCoordinate z }
    ensures value { result ≡ pos n *ℤ z }
    ensures bound { IsWithin (2 ^ 17 * coordinate_limit) result }
{
    i64::from(n) * i64::from(z)
}

fn opposite(z: i64) -> i64
    requires { IsWithin (2 ^ 17 * coordinate_limit) z }
    ensures value { result ≡ neg_ℤ z }
    ensures bound { IsWithin (2 ^ 17 * coordinate_limit) result }
{
    -z
}
