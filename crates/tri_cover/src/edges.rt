//! Edge values: how much of each vertex of a triangle is in the point that a pixel's ray meets.
//!
//! A determinant of eye coordinates and rays is at most 6 * 2^93 in magnitude, times twice the focal length at most
//! 6 * 2^110, and the sum of three edge values times colours is below 2^106: all fit i128.
ghost use Rattle.std.specs.Prelude.{◌≡◌, ◌≢◌, ◌+◌, ◌*◌, ◌≤◌, ◌<◌, pos, ℤ, ◌*ℤ◌, ◌+ℤ◌, IsTrue};
ghost use Rattle.fx_math.specs.Within.{IsWithin, AreSmall};
ghost use Rattle.fx_math.specs.Plain.{vector};
ghost use Rattle.tri_cover.specs.EdgeValues.{IsDeterminant, AreDeterminants};

use fx_math::{det, floor_div};

/// The edge values of a direction in a triangle.
#[derive(Clone, Copy)]
pub(crate) struct EdgeValues {
    e0: i128,
    e1: i128,
    e2: i128,
    ghost narrow: { AreDeterminants e0 e1 e2 },
}

impl EdgeValues {
    ghost use Rattle.fx_math.specs.Hit.{edges, sum_of, is_inside};
    ghost use Rattle.tri_cover.specs.Edges.{edges_of, are_not_below_zero, are_not_above_zero, are_of_one_sign, sum_of_edges};
    ghost use Rattle.tri_cover.specs.Hits.{mean, mean_colour};

    /// Those of the direction `d` in the triangle of these vertices.
    pub(crate) fn new(d: [i64; 3], u: [i64; 3], v: [i64; 3], w: [i64; 3]) -> EdgeValues
        requires d { AreSmall d }
        requires u { AreSmall u }
        requires v { AreSmall v }
        requires w { AreSmall w }
        ensures { edges_of result ≡ edges (vector d) (vector u) (vector v) (vector w) }
    {
        EdgeValues {
            e0: det(d, v, w),
            e1: det(u, d, w),
            e2: det(u, v, d),
        }
    }

    /// The values after a step, where these are determinants too.
    pub(crate) fn plus(&self, step: &EdgeValues) -> EdgeValues
        requires { AreDeterminants (self.now.e0 +ℤ step.now.e0) (self.now.e1 +ℤ step.now.e1)
            (self.now.e2 +ℤ step.now.e2) }
        ensures { edges_of result ≡ sum_of_edges (edges_of self.now) (edges_of step.now) }
    {
        EdgeValues {
            e0: self.e0 + step.e0,
            e1: self.e1 + step.e1,
            e2: self.e2 + step.e2,
        }
    }

    /// Their sum.
    pub(crate) fn sum(&self) -> i128
        ensures value { result ≡ sum_of (edges_of self.now) }
        ensures bound { IsWithin 178263365657094759585473888256 result }
    {
        self.e0 + self.e1 + self.e2
    }

    /// Whether the determinant of the vertices, `volume`, is not 0, and no edge value has the opposite sign.
    pub(crate) fn is_inside(&self, volume: i128) -> bool
        ensures { result ≡ is_inside volume (edges_of self.now) }
    {
        if volume > 0 {
            self.are_not_below_zero()
        } else {
            volume < 0 && self.are_not_above_zero()
        }
    }

    fn are_not_below_zero(&self) -> bool
        ensures { result ≡ are_not_below_zero (edges_of self.now) }
    {
        self.e0 >= 0 && self.e1 >= 0 && self.e2 >= 0
    }

    fn are_not_above_zero(&self) -> bool
        ensures { result ≡ are_not_above_zero (edges_of self.now) }
    {
        self.e0 <= 0 && self.e1 <= 0 && self.e2 <= 0
    }

    /// The colour: the mean of each channel; `sum` is that of the edge values.
    #[tactic(auto, unfolding(crate::specs::Hits::mean_colour))]
    pub(crate) fn colour(&self, sum: i128, colours: [[u8; 3]; 3]) -> [u8; 3]
        requires sum { sum ≡ sum_of (edges_of self.now) }
        requires some { sum ≢ pos 0 }
        requires signs { IsTrue (are_of_one_sign (edges_of self.now)) }
        ensures { result ≡ mean_colour (edges_of self.now) colours }
    {
        let [first, second, third] = colours;
        [
            self.mean(sum, first[0], second[0], third[0]),
            self.mean(sum, first[1], second[1], third[1]),
            self.mean(sum, first[2], second[2], third[2]),
        ]
    }

    /// The mean of three values, each weighed by its edge value, rounded down; `sum` is that of the edge values.
    #[tactic(auto, unfolding(crate::specs::Hits::mean))]
    fn mean(&self, sum: i128, c0: u8, c1: u8, c2: u8) -> u8
        requires sum { sum ≡ sum_of (edges_of self.now) }
        requires some { sum ≢ pos 0 }
        requires signs { IsTrue (are_of_one_sign (edges_of self.now)) }
        ensures { result ≡ mean (edges_of self.now) c0 c1 c2 }
    {
        floor_div(
            add(weigh(c0, self.e0), weigh(c1, self.e1), weigh(c2, self.e2)),
            sum,
        ) as u8
    }
}

fn weigh(channel: u8, edge: i128) -> i128
    requires { IsDeterminant edge }
    ensures value { result ≡ pos channel *ℤ edge }
    ensures bound { IsWithin 15152386080853054564765280501760 result }
{
    i128::from(channel) * edge
}

fn add(a: i128, b: i128, c: i128) -> i128
    requires a { IsWithin 15152386080853054564765280501760 a }
    requires b { IsWithin 15152386080853054564765280501760 b }
    requires c { IsWithin 15152386080853054564765280501760 c }
    ensures value { result ≡ a +ℤ b +ℤ c }
    ensures bound { IsWithin 45457158242559163694295841505280 result }
{
    a + b + c
}
