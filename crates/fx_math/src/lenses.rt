//! What a picture shows: its size, its focal length and its depths.
ghost use Rattle.std.specs.Prelude.{◌≡◌, ◌↔◌, ◌≤◌, ◌≤ℤ◌, pos, IsSome, IfSome, IsTrue};
ghost use Rattle.fx_math.specs.Limits.{size_limit, coordinate_limit};
ghost use Rattle.fx_math.specs.Within.{IsLens};

use crate::vectors::MAX_COORDINATE;

/// The greatest width and height of a picture, in pixels.
pub const MAX_SIZE: u16 = 1_024;

/// The size `w` times `h` of a picture and the focal length `f`, all in pixels, and the least and the greatest depth, in
/// whole numbers of 1/4096 unit, at which anything is seen. The eye is at 0 and looks along +Y.
#[derive(Clone, Copy, Debug, PartialEq, Eq)]
pub struct Lens {
    pub w: u16,
    pub h: u16,
    pub f: u16,
    pub near: i32,
    pub far: i32,
    pub ghost in_range: { IsLens w h f near far },
}

impl Lens {
    /// The lens of these numbers; None exactly where `w` or `h` is not from 1 to `MAX_SIZE`, `f` is 0, `near` is below 1
    /// or above `far`, or `far` is above `MAX_COORDINATE`.
    pub fn new(w: u16, h: u16, f: u16, near: i32, far: i32) -> Option<Lens>
        ensures in_range { IsSome result ↔ IsLens w h f near far }
        ensures w { IfSome result (λ lens. lens.w ≡ w) }
        ensures h { IfSome result (λ lens. lens.h ≡ h) }
        ensures f { IfSome result (λ lens. lens.f ≡ f) }
        ensures near { IfSome result (λ lens. lens.near ≡ near) }
        ensures far { IfSome result (λ lens. lens.far ≡ far) }
    {
        if is_size(w) && is_size(h) && f > 0 && are_depths(near, far) {
            Some(Lens { w, h, f, near, far })
        } else {
            None
        }
    }
}

fn is_size(n: u16) -> bool
    ensures { IsTrue result ↔ (1 ≤ n) × (n ≤ size_limit) }
{
    n >= 1 && n <= MAX_SIZE
}

fn are_depths(near: i32, far: i32) -> bool
    ensures { IsTrue result ↔ (pos 1 ≤ℤ near) × (near ≤ℤ far) × (far ≤ℤ pos coordinate_limit) }
{
    near >= 1 && near <= far && far <= MAX_COORDINATE
}
