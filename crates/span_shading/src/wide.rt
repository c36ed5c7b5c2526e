//! Weighed sums of channels, and their weights, in 128 bits.
ghost use Rattle.std.specs.Prelude.{◌≡◌, ◌^◌, pos, ◌+ℤ◌, ◌*ℤ◌};
ghost use Rattle.fx_math.specs.Within.{IsWithin};
ghost use Rattle.span_shading.specs.Mixing.{mix, AreBytes};

use crate::wide_quotients::ahead;

/// The sum of a triangle's edge values, of a magnitude of at most 2^82: at a pixel, and by how much it changes to the next one of
/// the row.
#[derive(Clone, Copy)]
pub struct WideWeight {
    pub here: i128,
    pub step: i128,
    pub ghost here_small: { IsWithin (2 ^ 82) here },
    pub ghost step_small: { IsWithin (2 ^ 82) step },
}

impl WideWeight {
    /// Goes to the next pixel of the row.
    #[inline(always)]
    pub fn advance(&mut self)
        requires { IsWithin (2 ^ 82) (self.old.here +ℤ self.old.step) }
        ensures here { self.new.here ≡ self.old.here +ℤ self.old.step }
        ensures step { self.new.step ≡ self.old.step }
    {
        *self = WideWeight {
            here: self.here + self.step,
            step: self.step,
        };
    }

    /// The sum at a pixel so many further on in the row.
    #[inline(always)]
    pub fn ahead(&self, count: u16) -> i128
        ensures { result ≡ self.now.here +ℤ self.now.step *ℤ pos count }
    {
        ahead(self.here, self.step, count)
    }
}

/// Three values of a channel, weighed by three edge values or by their steps, each of a magnitude of at most 2^82. It tells too
/// that the three values have 8 bits.
#[inline(always)]
pub fn wide_mix(x: u8, y: u8, z: u8, first: i128, second: i128, third: i128) -> i128
    requires first { IsWithin (2 ^ 82) first }
    requires second { IsWithin (2 ^ 82) second }
    requires third { IsWithin (2 ^ 82) third }
    ensures value { result ≡ mix x y z first second third }
    ensures bound { IsWithin (2 ^ 92) result }
    ensures bytes { AreBytes x y z }
{
    sum_of(weighed(x, first), weighed(y, second), weighed(z, third))
}

#[inline(always)]
fn weighed(channel: u8, number: i128) -> i128
    requires { IsWithin (2 ^ 82) number }
    ensures value { result ≡ pos channel *ℤ number }
    ensures bound { IsWithin (2 ^ 90) result }
{
    i128::from(channel) * number
}

#[inline(always)]
fn sum_of(x: i128, y: i128, z: i128) -> i128
    requires x { IsWithin (2 ^ 90) x }
    requires y { IsWithin (2 ^ 90) y }
    requires z { IsWithin (2 ^ 90) z }
    ensures value { result ≡ x +ℤ y +ℤ z }
    ensures bound { IsWithin (2 ^ 92) result }
{
    x + y + z
}
