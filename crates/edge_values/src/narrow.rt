//! The three edge values of a triangle along a row in 64 bits, where they are small enough.
ghost use Rattle.std.specs.Prelude.{◌≡◌, ◌<◌, ◌*◌, ◌^◌, false, pos, ◌+ℤ◌, ◌≤ℤ◌, IfSome, IfNone, IsTrue, ◌↔◌};
ghost use Rattle.fx_math.specs.Within.{IsWithin};
ghost use Rattle.edge_values.specs.Small.{AreWithin};
ghost use Rattle.edge_values.specs.Weights.{AreBelow, AreInner, IsInnerSum};

use std::num::nearest_i64_to_f64;

/// Three edge values, each of a magnitude of at most 2^52, or by how much they change from a pixel to the next one of its row.
#[derive(Clone, Copy)]
pub struct NarrowValues {
    pub first: i64,
    pub second: i64,
    pub third: i64,
    pub ghost small: { AreWithin (2 ^ 52) first second third },
}

/// The edge values of a triangle at the first and the last pixel of a part of a row, and by how much they change from each to the
/// next.
#[derive(Clone, Copy)]
pub struct NarrowLine {
    pub start: NarrowValues,
    pub last: NarrowValues,
    pub steps: NarrowValues,
}

impl NarrowValues {
    ghost use Rattle.edge_values.specs.Narrow.{DoFit, IsSumOf};

    /// Those after a step.
    pub fn plus(&self, steps: &NarrowValues) -> NarrowValues
        requires { DoFit self.now steps.now }
        ensures { IsSumOf self.now steps.now result }
    {
        NarrowValues {
            first: self.first + steps.first,
            second: self.second + steps.second,
            third: self.third + steps.third,
        }
    }

    /// Their sum, where none of them is below 0.
    pub fn inner_sum(&self) -> Option<u64>
        ensures some { IfSome result (IsInnerSum self.now.first self.now.second self.now.third) }
        ensures none { IfNone result (AreInner self.now.first self.now.second self.now.third → ⊥) }
    {
        if self.are_inner() {
            Some(self.sum())
        } else {
            None
        }
    }

    /// Whether none of them is below 0.
    fn are_inner(&self) -> bool
        ensures inner { IsTrue result → AreInner self.now.first self.now.second self.now.third }
        ensures outer { result ≡ false → AreInner self.now.first self.now.second self.now.third → ⊥ }
    {
        self.first >= 0 && self.second >= 0 && self.third >= 0
    }

    /// Their sum, where it is known that none of them is below 0.
    pub fn sum(&self) -> u64
        requires { AreInner self.now.first self.now.second self.now.third }
        ensures { IsInnerSum self.now.first self.now.second self.now.third result }
    {
        natural(total(self.first, self.second, self.third))
    }

    /// A float that is about their sum. Nothing rests on its value.
    pub fn about(&self) -> f64 {
        nearest_i64_to_f64(
            self.first
                .wrapping_add(self.second)
                .wrapping_add(self.third),
        )
    }
}

impl NarrowLine {
    ghost use Rattle.edge_values.specs.Narrow.{IsInside, IsOutside};

    /// Whether no edge value is below 0 at the first and at the last pixel; none is so between them then.
    pub fn is_inside(&self) -> bool
        ensures { IsTrue result ↔ IsInside self.now }
    {
        if !self.start.are_inner() {
            return false;
        }
        self.last.are_inner()
    }

    /// Whether one edge value is below 0 both at the first and at the last pixel; it is so between them then.
    pub fn is_outside(&self) -> bool
        ensures { IsTrue result ↔ IsOutside self.now }
    {
        if are_below(self.start.first, self.last.first) {
            return true;
        }
        if are_below(self.start.second, self.last.second) {
            return true;
        }
        if are_below(self.start.third, self.last.third) {
            return true;
        }
        false
    }
}

/// Whether two numbers are below 0.
fn are_below(a: i64, b: i64) -> bool
    requires a { IsWithin (2 ^ 52) a }
    requires b { IsWithin (2 ^ 52) b }
    ensures { IsTrue result ↔ AreBelow a b }
{
    a < 0 && b < 0
}

fn total(first: i64, second: i64, third: i64) -> i64
    requires first { IsWithin (2 ^ 52) first }
    requires second { IsWithin (2 ^ 52) second }
    requires third { IsWithin (2 ^ 52) third }
    ensures value { result ≡ first +ℤ second +ℤ third }
    ensures bound { IsWithin (3 * 2 ^ 52) result }
{
    first + second + third
}

/// A number that is not below 0.
fn natural(number: i64) -> u64
    requires least { pos 0 ≤ℤ number }
    requires bound { IsWithin (3 * 2 ^ 52) number }
    ensures value { pos result ≡ number }
    ensures bound { result < 2 ^ 63 }
{
    number as u64
}
