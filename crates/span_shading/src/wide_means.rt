//! The mean of a channel along a row in 128 bits, by steps from each pixel to the next.
//!
//! A channel is the mean of those of the vertices, each weighed by its edge value, rounded down: the quotient of a weighed sum
//! and a weight, both linear in the pixel. What the quotient leaves of the weighed sum is linear too as long as the mean stays,
//! and it stays where this rest is at least 0 and below the weight. So a step is an addition, and needs no product.
ghost use Rattle.std.specs.Prelude.{◌≡◌, ℕ, ◌<◌, ◌^◌, ℤ, pos, ◌+ℤ◌, ◌*ℤ◌, IsTrue, ◌↔◌};
ghost use Rattle.fx_math.specs.Within.{IsWithin};
ghost use Rattle.span_shading.specs.Quotients.{IsChannel};

use crate::wide::WideWeight;
use crate::wide_quotients::{ahead, is_left, left, minus, plus, quotient, whole};

/// The mean of a channel at a pixel, what it leaves of the channel's weighed sum, and by how much that changes to the next pixel
/// of the row if the mean stays.
#[derive(Clone, Copy)]
pub struct Mean {
    pub mean: u8,
    pub rest: i128,
    pub change: i128,
    pub ghost byte: { mean < 2 ^ 8 },
}

impl Mean {
    ghost use Rattle.span_shading.specs.Means.{IsMeanOf, IsSmallMean, IsSettled, IsNextOf, Stays};

    /// This mean of a weighed sum, which changes by so much to the next pixel.
    #[inline(always)]
    pub fn new(number: i128, step: i128, weight: &WideWeight, mean: u8) -> Mean
        requires number { IsWithin (2 ^ 98) number }
        requires step { IsWithin (2 ^ 98) step }
        ensures left { IsMeanOf number step weight.now result }
        ensures mean { result.mean ≡ mean }
    {
        Mean {
            mean,
            rest: left(number, mean, weight.here),
            change: left(step, mean, weight.step),
        }
    }

    /// Whether it is the quotient, rounded down.
    #[inline(always)]
    fn is_settled(&self, weight: &WideWeight) -> bool
        ensures { IsTrue result ↔ IsSettled self.now weight.now }
    {
        0 <= self.rest && self.rest < weight.here
    }

    /// Makes it the quotient, where the weighed sum is that of a pixel that is covered.
    #[inline(always)]
    pub fn settle(&mut self, weight: &WideWeight)
        requires { IsSmallMean self.old }
        ensures kept { (number step : ℤ) → IsMeanOf number step weight.now self.old → IsMeanOf number step weight.now self.new }
        ensures settled { (number step : ℤ) → IsMeanOf number step weight.now self.old → IsChannel number weight.now.here
            → IsSettled self.new weight.now }
    {
        if !self.is_settled(weight) {
            *self = self.mended(weight);
        }
    }

    /// The quotient, where the weighed sum is that of a pixel that is covered: the mean beside this one, or else by a division.
    #[cold]
    #[inline(never)]
    fn mended(&self, weight: &WideWeight) -> Mean
        requires { IsSmallMean self.now }
        ensures kept { (number step : ℤ) → IsMeanOf number step weight.now self.now → IsMeanOf number step weight.now result }
        ensures settled { (number step : ℤ) → IsMeanOf number step weight.now self.now → IsChannel number weight.now.here
            → IsSettled result weight.now }
    {
        let beside = self.beside(weight);
        if beside.is_settled(weight) {
            beside
        } else {
            self.divided(weight)
        }
    }

    /// With the mean that is one less where too much is taken, and else one more.
    fn beside(&self, weight: &WideWeight) -> Mean
        requires { IsSmallMean self.now }
        ensures { (number step : ℤ) → IsMeanOf number step weight.now self.now → IsMeanOf number step weight.now result }
    {
        if self.rest < 0 && self.mean > 0 {
            return self.less(weight);
        }
        if self.mean < 255 {
            return self.more(weight);
        }
        *self
    }

    /// With the mean that is one less.
    fn less(&self, weight: &WideWeight) -> Mean
        requires small { IsSmallMean self.now }
        requires some { 0 < self.now.mean }
        ensures { (number step : ℤ) → IsMeanOf number step weight.now self.now → IsMeanOf number step weight.now result }
    {
        Mean {
            mean: self.mean - 1,
            rest: plus(self.rest, weight.here),
            change: plus(self.change, weight.step),
        }
    }

    /// With the mean that is one more.
    fn more(&self, weight: &WideWeight) -> Mean
        requires small { IsSmallMean self.now }
        requires most { self.now.mean < 255 }
        ensures { (number step : ℤ) → IsMeanOf number step weight.now self.now → IsMeanOf number step weight.now result }
    {
        Mean {
            mean: self.mean + 1,
            rest: minus(self.rest, weight.here),
            change: minus(self.change, weight.step),
        }
    }

    /// With the mean that a division tells.
    #[cold]
    #[inline(never)]
    fn divided(&self, weight: &WideWeight) -> Mean
        requires { IsSmallMean self.now }
        ensures kept { (number step : ℤ) → IsMeanOf number step weight.now self.now → IsMeanOf number step weight.now result }
        ensures settled { (number step : ℤ) → IsMeanOf number step weight.now self.now → IsChannel number weight.now.here
            → IsSettled result weight.now }
    {
        let number = whole(self.rest, self.mean, weight.here);
        let step = whole(self.change, self.mean, weight.step);
        Mean::new(number, step, weight, quotient(number, weight.here))
    }

    /// Goes to the next pixel of the row; the mean stays.
    #[inline(always)]
    pub fn advance(&mut self)
        requires { IsWithin (2 ^ 97) (self.old.rest +ℤ self.old.change) }
        ensures { IsNextOf self.old self.new }
    {
        self.rest = self.rest + self.change;
    }

    /// Whether it is the quotient at this pixel, and at one so many further on, where the weight is `there`.
    #[inline(always)]
    pub fn stays(&self, weight: &WideWeight, count: u16, there: i128) -> bool
        requires small { IsSmallMean self.now }
        requires there { there ≡ weight.now.here +ℤ weight.now.step *ℤ pos count }
        ensures { IsTrue result ↔ Stays self.now weight.now count }
    {
        self.is_settled(weight) && is_left(ahead(self.rest, self.change, count), there)
    }
}
