//! The three edge values of a triangle along a row in 128 bits, by steps from each pixel to the next.
ghost use Rattle.std.specs.Prelude.{◌≡◌, ◌<◌, ◌^◌, false, IfSome, IfNone, IsTrue, ◌↔◌};
ghost use Rattle.fx_math.specs.Within.{IsWithin};
ghost use Rattle.edge_values.specs.Weights.{AreSmall, are_covering, IsWeightOf, AreInner, IsInnerSum};

use crate::quotients::near;

/// The three edge values of a triangle, each of a magnitude of at most 2^82: at a pixel, or by how much they change from a pixel
/// to the next one of its row.
#[derive(Clone, Copy)]
pub struct EdgeValues {
    pub first: i128,
    pub second: i128,
    pub third: i128,
    pub ghost small: { AreSmall first second third },
}

impl EdgeValues {
    ghost use Rattle.edge_values.specs.Steps.{DoFit, IsSumOf};

    /// Those after a step.
    pub fn plus(&self, steps: &EdgeValues) -> EdgeValues
        requires { DoFit self.now steps.now }
        ensures { IsSumOf self.now steps.now result }
    {
        EdgeValues {
            first: self.first + steps.first,
            second: self.second + steps.second,
            third: self.third + steps.third,
        }
    }

    /// Their sum, where none of them is below 0.
    #[inline(always)]
    pub fn inner_sum(&self) -> Option<u128>
        ensures some { IfSome result (IsInnerSum self.now.first self.now.second self.now.third) }
        ensures bound { IfSome result (λ s. s < 2 ^ 84) }
        ensures none { IfNone result (AreInner self.now.first self.now.second self.now.third → ⊥) }
    {
        if self.are_inner() {
            Some((self.first + self.second + self.third).unsigned_abs())
        } else {
            None
        }
    }

    /// Whether none of them is below 0.
    #[inline(always)]
    pub fn are_inner(&self) -> bool
        ensures { IsTrue result ↔ AreInner self.now.first self.now.second self.now.third }
    {
        self.first >= 0 && self.second >= 0 && self.third >= 0
    }

    /// A float that is about their sum. Nothing rests on its value.
    pub fn about(&self) -> f64 {
        let sum = self
            .first
            .wrapping_add(self.second)
            .wrapping_add(self.third);
        let size = near(sum.unsigned_abs());
        if sum < 0 { 0.0 - size } else { size }
    }

    /// Their sum, where they are those of a pixel that is covered: none of them below 0, and the sum above 0.
    pub fn covered(&self) -> Option<u128>
        ensures some { IfSome result (IsWeightOf self.now.first self.now.second self.now.third) }
        ensures none { IfNone result (are_covering self.now.first self.now.second self.now.third ≡ false) }
    {
        weight(self.first, self.second, self.third)
    }
}

/// The sum of three edge values, where they are those of a pixel that is covered.
fn weight(first: i128, second: i128, third: i128) -> Option<u128>
    requires first { IsWithin (2 ^ 82) first }
    requires second { IsWithin (2 ^ 82) second }
    requires third { IsWithin (2 ^ 82) third }
    ensures some { IfSome result (IsWeightOf first second third) }
    ensures none { IfNone result (are_covering first second third ≡ false) }
{
    if first < 0 || second < 0 || third < 0 {
        return None;
    }
    let sum = first + second + third;
    if sum > 0 {
        Some(sum.unsigned_abs())
    } else {
        None
    }
}
