//! Where a segment crosses a triangle.
//!
//! A determinant of sides is at most 6 * 2^93 in magnitude, the sum of three of them at most 18 * 2^93, and 65536 times a
//! determinant at most 6 * 2^109: all fit i128.
ghost use Rattle.std.specs.Prelude.{◌≡◌, ◌≢◌, ◌*◌, ◌≤◌, pos, neg_ℤ, ◌*ℤ◌, IsTrue, IfSome};
ghost use Rattle.fx_math.specs.Limits.{det_limit};
ghost use Rattle.fx_math.specs.Within.{IsWithin, AreSmall};
ghost use Rattle.fx_math.specs.Plain.{vector};
ghost use Rattle.fx_math.specs.Views.{point_of};
ghost use Rattle.fx_math.specs.Hit.{det3, edges};

use crate::segment::{Segment, side};
use fx_math::{Vec3, det, floor_div};

/// The determinants of a segment and a triangle.
#[derive(Clone, Copy)]
pub(crate) struct Crossing {
    volume: i128,
    e0: i128,
    e1: i128,
    e2: i128,
    ghost volume_within: { IsWithin det_limit volume },
    ghost e0_within: { IsWithin det_limit e0 },
    ghost e1_within: { IsWithin det_limit e1 },
    ghost e2_within: { IsWithin det_limit e2 },
}

impl Crossing {
    ghost use Rattle.std.specs.Prelude.{◌≡◌, ◌≢◌, ◌*◌, ◌≤◌, pos, neg_ℤ, IsTrue, IfSome};
    ghost use Rattle.fx_math.specs.Hit.{sum_of};
    ghost use Rattle.nearest_hit.specs.Crossings.{are_above, is_part, is_ahead, is_crossed, time_at, judged, turned};
    ghost use Rattle.nearest_hit.specs.Crossings.{volume_at, edges_between};
    ghost use Rattle.nearest_hit.specs.Crossed.{edges_of};

    /// Those of a segment and the triangle of these vertices.
    pub(crate) fn of(segment: &Segment, u: Vec3, v: Vec3, w: Vec3) -> Crossing
        ensures volume { result.volume ≡ volume_at (point_of segment.now.from) (point_of u) (point_of v) (point_of w) }
        ensures edges { edges_of result
            ≡ edges_between (point_of segment.now.from) (point_of segment.now.to) (point_of u) (point_of v) (point_of w) }
    {
        Crossing::of_sides(
            side(segment.from, segment.to),
            side(segment.from, u),
            side(segment.from, v),
            side(segment.from, w),
        )
    }

    /// Those of the sides from the segment's start to its end, `d`, and to the vertices.
    fn of_sides(d: [i64; 3], a: [i64; 3], b: [i64; 3], c: [i64; 3]) -> Crossing
        requires d { AreSmall d }
        requires a { AreSmall a }
        requires b { AreSmall b }
        requires c { AreSmall c }
        ensures volume { result.volume ≡ det3 (vector a) (vector b) (vector c) }
        ensures edges { edges_of result ≡ edges (vector d) (vector a) (vector b) (vector c) }
    {
        Crossing {
            volume: det(a, b, c),
            e0: det(d, b, c),
            e1: det(a, d, c),
            e2: det(a, b, d),
        }
    }

    /// The sum of the edge values.
    fn sum(&self) -> i128
        ensures value { result ≡ sum_of (edges_of self.now) }
        ensures bound { IsWithin (3 * det_limit) result }
    {
        self.e0 + self.e1 + self.e2
    }

    /// The same with all signs turned.
    fn turned(&self) -> Crossing
        ensures volume { result.volume ≡ neg_ℤ self.now.volume }
        ensures edges { edges_of result ≡ turned (edges_of self.now) }
    {
        Crossing {
            volume: -self.volume,
            e0: -self.e0,
            e1: -self.e1,
            e2: -self.e2,
        }
    }

    /// Whether no edge value is below 0.
    #[tactic(auto, unfolding(crate::specs::Crossings::are_above))]
    fn are_above(&self) -> bool
        ensures { result ≡ are_above (edges_of self.now) }
    {
        self.e0 >= 0 && self.e1 >= 0 && self.e2 >= 0
    }

    /// Whether the volume is a part of the sum of the edge values.
    #[tactic(auto, unfolding(crate::specs::Crossings::is_part))]
    fn is_part(&self, sum: i128) -> bool
        ensures { result ≡ is_part self.now.volume sum }
    {
        self.volume >= 0 && self.volume <= sum
    }

    /// Whether the sum is above 0, no edge value is below 0, and the volume is a part of the sum.
    #[tactic(auto, unfolding(crate::specs::Crossings::is_ahead))]
    fn is_ahead(&self) -> bool
        ensures { result ≡ is_ahead self.now.volume (edges_of self.now) }
    {
        let sum = self.sum();
        sum > 0 && self.are_above() && self.is_part(sum)
    }

    /// Whether the segment crosses the triangle.
    #[tactic(auto, unfolding(crate::specs::Crossings::is_crossed))]
    fn is_crossed(&self) -> bool
        ensures { result ≡ is_crossed self.now.volume (edges_of self.now) }
    {
        self.is_ahead() || self.turned().is_ahead()
    }

    /// How far along the segment the crossing lies, in 1/65536 of its length, rounded down.
    #[tactic(auto, unfolding(crate::specs::Crossings::time_at))]
    fn time(&self) -> i128
        requires { sum_of (edges_of self.now) ≢ pos 0 }
        ensures { result ≡ time_at self.now.volume (edges_of self.now) }
    {
        floor_div(scaled(self.volume), self.sum())
    }

    /// The time of the crossing, where the segment crosses the triangle.
    pub(crate) fn judge(&self) -> Option<u32>
        ensures value { result ≡ judged self.now.volume (edges_of self.now) }
        ensures bound { IfSome result (λ t. t ≤ 65536) }
    {
        if self.is_crossed() {
            Some(self.time() as u32)
        } else {
            None
        }
    }
}

fn scaled(volume: i128) -> i128
    requires { IsWithin det_limit volume }
    ensures value { result ≡ pos 65536 *ℤ volume }
    ensures bound { IsWithin (65536 * det_limit) result }
{
    65_536 * volume
}
