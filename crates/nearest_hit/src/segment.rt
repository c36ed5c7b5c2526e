//! Segments.
ghost use Rattle.std.specs.Prelude.{◌≡◌, ◌-ℤ◌};
ghost use Rattle.fx_math.specs.Within.{AreSmall, IsWithin, IsCoordinate};
ghost use Rattle.fx_math.specs.Limits.{row_limit};
ghost use Rattle.fx_math.specs.Plain.{vector};
ghost use Rattle.fx_math.specs.Laws.{side};
ghost use Rattle.fx_math.specs.Views.{point_of, bounds_of};
ghost use Rattle.nearest_hit.specs.Segments.{box_around};

use fx_math::{Box3, Vec3, hull};

/// A segment in eye coordinates, from one point to another. The two may be equal: such a segment hits nothing.
#[derive(Clone, Copy, Debug, PartialEq, Eq)]
pub struct Segment {
    pub from: Vec3,
    pub to: Vec3,
}

impl Segment {
    /// The least box around the segment.
    pub fn around(&self) -> Box3
        ensures { bounds_of result ≡ box_around self.now }
    {
        let first = Box3 {
            lo: self.from,
            hi: self.from,
        };
        let last = Box3 {
            lo: self.to,
            hi: self.to,
        };
        hull(&first, &last)
    }
}

/// The difference of two coordinates.
fn difference(a: i32, b: i32) -> i64
    requires a { IsCoordinate a }
    requires b { IsCoordinate b }
    ensures value { result ≡ b -ℤ a }
    ensures bound { IsWithin row_limit result }
{
    i64::from(b) - i64::from(a)
}

/// The side from one point to another.
pub(crate) fn side(p: Vec3, q: Vec3) -> [i64; 3]
    ensures value { vector result ≡ side (point_of p) (point_of q) }
    ensures bound { AreSmall result }
{
    [
        difference(p.x, q.x),
        difference(p.y, q.y),
        difference(p.z, q.z),
    ]
}
