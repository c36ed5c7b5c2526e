//! Axis-aligned boxes in fixed point.
ghost use Rattle.std.specs.Prelude.{◌≡◌, ◌↔◌, IsSome, IfSome};
ghost use Rattle.fx_math.specs.Plain.{IsBox, point};

use crate::vectors::Vec3;

/// The points from `lo` to `hi` in each coordinate.
#[derive(Clone, Copy, Debug, PartialEq, Eq)]
pub struct Box3 {
    pub lo: Vec3,
    pub hi: Vec3,
    pub ghost ordered: { IsBox (record { lo = point lo.x lo.y lo.z; hi = point hi.x hi.y hi.z }) },
}

impl Box3 {
    ghost use Rattle.fx_math.specs.Views.{point_of, bounds_of};

    /// The box from `lo` to `hi`; None exactly where a coordinate of `lo` is above that of `hi`.
    pub fn new(lo: Vec3, hi: Vec3) -> Option<Box3>
        ensures ordered { IsSome result ↔ IsBox (record { lo = point_of lo; hi = point_of hi }) }
        ensures value { IfSome result (λ b. bounds_of b ≡ record { lo = point_of lo; hi = point_of hi }) }
    {
        if lo.x <= hi.x && lo.y <= hi.y && lo.z <= hi.z {
            Some(Box3 { lo, hi })
        } else {
            None
        }
    }
}
