//! The extents of a box along the axes, and their ends after a turn: eight products a box, with no least and greatest.
ghost use Rattle.std.specs.Prelude.{◌≡◌, pos, ◌*ℤ◌, ◌+ℤ◌, ◌≤ℤ◌};
ghost use Rattle.std.specs.Int.{int_min, int_max};
ghost use Rattle.fx_math.specs.Within.{IsCoordinate, IsEntry};
ghost use Rattle.fx_math.specs.Fixed.{moved};

use crate::sums::blended;
use fx_math::{Box3, Vec3};

/// The coordinates of a box along an axis, from `lo` to `hi`.
#[derive(Clone, Copy)]
pub(crate) struct Extent {
    lo: i32,
    hi: i32,
    ghost lo_within: { IsCoordinate lo },
    ghost hi_within: { IsCoordinate hi },
    ghost ordered: { lo ≤ℤ hi },
}

/// The ends of an extent, in the order of what they give.
#[derive(Clone, Copy)]
pub(crate) struct Ends {
    pub(crate) least: i32,
    pub(crate) greatest: i32,
    pub(crate) ghost least_within: { IsCoordinate least },
    pub(crate) ghost greatest_within: { IsCoordinate greatest },
}

impl Extent {
    pub(crate) fn x(b: &Box3) -> Extent
        ensures lo { result.lo ≡ b.now.lo.x }
        ensures hi { result.hi ≡ b.now.hi.x }
    {
        Extent {
            lo: b.lo.x,
            hi: b.hi.x,
        }
    }

    pub(crate) fn y(b: &Box3) -> Extent
        ensures lo { result.lo ≡ b.now.lo.y }
        ensures hi { result.hi ≡ b.now.hi.y }
    {
        Extent {
            lo: b.lo.y,
            hi: b.hi.y,
        }
    }

    pub(crate) fn z(b: &Box3) -> Extent
        ensures lo { result.lo ≡ b.now.lo.z }
        ensures hi { result.hi ≡ b.now.hi.z }
    {
        Extent {
            lo: b.lo.z,
            hi: b.hi.z,
        }
    }

    /// The ends in the order of their products with a factor, which turns them round where it is negative.
    fn ends(self, factor: i32) -> Ends
        ensures least { result.least *ℤ factor ≡ int_min (self.lo *ℤ factor) (self.hi *ℤ factor) }
        ensures greatest { result.greatest *ℤ factor ≡ int_max (self.lo *ℤ factor) (self.hi *ℤ factor) }
    {
        if factor < 0 {
            return Ends {
                least: self.hi,
                greatest: self.lo,
            };
        }
        Ends {
            least: self.lo,
            greatest: self.hi,
        }
    }
}

/// The ends of the sums of two products over two extents, as coordinates.
pub(crate) fn blended_ends(p: Extent, a: i32, q: Extent, b: i32) -> Ends
    requires a { IsEntry a }
    requires b { IsEntry b }
    ensures least { result.least
        ≡ moved (int_min (p.lo *ℤ a) (p.hi *ℤ a) +ℤ int_min (q.lo *ℤ b) (q.hi *ℤ b)) (pos 0) }
    ensures greatest { result.greatest
        ≡ moved (int_max (p.lo *ℤ a) (p.hi *ℤ a) +ℤ int_max (q.lo *ℤ b) (q.hi *ℤ b)) (pos 0) }
{
    let first = p.ends(a);
    let second = q.ends(b);
    Ends {
        least: blended(first.least, a, second.least, b),
        greatest: blended(first.greatest, a, second.greatest, b),
    }
}

/// A corner of a box.
pub(crate) fn corner(x: i32, y: i32, z: i32) -> Vec3
    requires x { IsCoordinate x }
    requires y { IsCoordinate y }
    requires z { IsCoordinate z }
    ensures x { result.x ≡ x }
    ensures y { result.y ≡ y }
    ensures z { result.z ≡ z }
{
    Vec3 { x, y, z }
}
