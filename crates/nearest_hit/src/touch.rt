//! Boxes with a common point.
ghost use Rattle.std.specs.Prelude.{◌≡◌};
ghost use Rattle.fx_math.specs.Views.{bounds_of};
ghost use Rattle.nearest_hit.specs.Touch.{overlap, touch};

use fx_math::Box3;

/// Whether the ranges of two boxes along X overlap.
#[tactic(auto, unfolding(crate::specs::Touch::overlap))]
fn overlap_x(b: &Box3, c: &Box3) -> bool
    ensures { result ≡ overlap b.now.lo.x b.now.hi.x c.now.lo.x c.now.hi.x }
{
    b.lo.x <= c.hi.x && c.lo.x <= b.hi.x
}

/// Whether the ranges of two boxes along Y overlap.
#[tactic(auto, unfolding(crate::specs::Touch::overlap))]
fn overlap_y(b: &Box3, c: &Box3) -> bool
    ensures { result ≡ overlap b.now.lo.y b.now.hi.y c.now.lo.y c.now.hi.y }
{
    b.lo.y <= c.hi.y && c.lo.y <= b.hi.y
}

/// Whether the ranges of two boxes along Z overlap.
#[tactic(auto, unfolding(crate::specs::Touch::overlap))]
fn overlap_z(b: &Box3, c: &Box3) -> bool
    ensures { result ≡ overlap b.now.lo.z b.now.hi.z c.now.lo.z c.now.hi.z }
{
    b.lo.z <= c.hi.z && c.lo.z <= b.hi.z
}

/// Whether two boxes have a common point: their ranges overlap in each coordinate.
#[tactic(auto, unfolding(crate::specs::Touch::touch))]
pub(crate) fn touch(b: &Box3, c: &Box3) -> bool
    ensures { result ≡ touch (bounds_of b.now) (bounds_of c.now) }
{
    overlap_x(b, c) && overlap_y(b, c) && overlap_z(b, c)
}
