//! Numbers that change evenly along a row of pixels.
ghost use Rattle.std.specs.Prelude.{◌≡◌, ◌<◌, ◌^◌, ◌*◌, pos, ◌+ℤ◌, ◌*ℤ◌};
ghost use Rattle.fx_math.specs.Within.{IsWithin};
ghost use Rattle.span_shading.specs.Mixing.{mix, ahead};

/// An edge value of a triangle: at a pixel, and by how much it changes to the next one of the row.
#[derive(Clone, Copy)]
pub struct Line {
    pub here: i64,
    pub step: i64,
    pub ghost here_small: { IsWithin (2 ^ 52) here },
    pub ghost step_small: { IsWithin (2 ^ 40) step },
}

/// A channel of a triangle's vertices, each weighed by its edge value: at a pixel, and by how much it changes to the next one of
/// the row.
#[derive(Clone, Copy)]
pub struct Sum {
    pub here: i64,
    pub step: i64,
    pub ghost here_small: { IsWithin (3 * 2 ^ 60) here },
    pub ghost step_small: { IsWithin (3 * 2 ^ 48) step },
}

/// The sum of a triangle's edge values: at a pixel, and by how much it changes to the next one of the row.
#[derive(Clone, Copy)]
pub struct Weight {
    pub here: i64,
    pub step: i64,
    pub ghost here_small: { IsWithin (3 * 2 ^ 52) here },
    pub ghost step_small: { IsWithin (3 * 2 ^ 40) step },
}

impl Sum {
    ghost use Rattle.span_shading.specs.Sums.{IsSumOf, IsNextSum};

    /// That of the vertices' three values of a channel.
    #[inline(always)]
    pub fn of(x: u8, y: u8, z: u8, first: &Line, second: &Line, third: &Line) -> Sum
        ensures { IsSumOf x y z first.now second.now third.now result }
    {
        Sum {
            here: mixed(x, y, z, first.here, second.here, third.here),
            step: mixed(x, y, z, first.step, second.step, third.step),
        }
    }

    /// That at the next pixel.
    #[inline(always)]
    pub(crate) fn next(&self) -> Sum
        requires { IsWithin (3 * 2 ^ 60) (self.now.here +ℤ self.now.step) }
        ensures { IsNextSum self.now result }
    {
        Sum {
            here: self.here + self.step,
            step: self.step,
        }
    }

    /// The number so many pixels further on.
    #[inline(always)]
    pub(crate) fn ahead(&self, count: u16) -> i64
        requires { count < 2 ^ 10 }
        ensures value { result ≡ ahead self.now.here self.now.step count }
        ensures bound { IsWithin (15 * 2 ^ 58) result }
    {
        self.here + far(self.step, count)
    }
}

impl Weight {
    ghost use Rattle.span_shading.specs.Sums.{IsWeightOf, IsNextWeight};

    /// That of three edge values.
    #[inline(always)]
    pub fn of(first: &Line, second: &Line, third: &Line) -> Weight
        ensures { IsWeightOf first.now second.now third.now result }
    {
        Weight {
            here: total(first.here, second.here, third.here),
            step: total(first.step, second.step, third.step),
        }
    }

    /// That at the next pixel.
    #[inline(always)]
    pub(crate) fn next(&self) -> Weight
        requires { IsWithin (3 * 2 ^ 52) (self.now.here +ℤ self.now.step) }
        ensures { IsNextWeight self.now result }
    {
        Weight {
            here: self.here + self.step,
            step: self.step,
        }
    }

    /// The number so many pixels further on.
    #[inline(always)]
    pub(crate) fn ahead(&self, count: u16) -> i64
        requires { count < 2 ^ 10 }
        ensures value { result ≡ ahead self.now.here self.now.step count }
        ensures bound { IsWithin (15 * 2 ^ 50) result }
    {
        self.here + far(self.step, count)
    }
}

/// Three values of a channel, weighed by three edge values or by their steps.
#[inline(always)]
fn mixed(x: u8, y: u8, z: u8, first: i64, second: i64, third: i64) -> i64
    requires first { IsWithin (2 ^ 52) first }
    requires second { IsWithin (2 ^ 52) second }
    requires third { IsWithin (2 ^ 52) third }
    ensures value { result ≡ mix x y z first second third }
    ensures bound { IsWithin (3 * 2 ^ 60) result }
{
    sum_of(weighed(x, first), weighed(y, second), weighed(z, third))
}

#[inline(always)]
fn weighed(channel: u8, number: i64) -> i64
    requires { IsWithin (2 ^ 52) number }
    ensures value { result ≡ pos channel *ℤ number }
    ensures bound { IsWithin (2 ^ 60) result }
{
    i64::from(channel) * number
}

#[inline(always)]
fn sum_of(x: i64, y: i64, z: i64) -> i64
    requires x { IsWithin (2 ^ 60) x }
    requires y { IsWithin (2 ^ 60) y }
    requires z { IsWithin (2 ^ 60) z }
    ensures value { result ≡ x +ℤ y +ℤ z }
    ensures bound { IsWithin (3 * 2 ^ 60) result }
{
    x + y + z
}

/// The sum of three edge values or of their steps.
#[inline(always)]
fn total(x: i64, y: i64, z: i64) -> i64
    requires x { IsWithin (2 ^ 52) x }
    requires y { IsWithin (2 ^ 52) y }
    requires z { IsWithin (2 ^ 52) z }
    ensures value { result ≡ x +ℤ y +ℤ z }
    ensures bound { IsWithin (3 * 2 ^ 52) result }
{
    x + y + z
}

/// By how much a number changes over so many pixels.
#[inline(always)]
fn far(step: i64, count: u16) -> i64
    requires step { IsWithin (3 * 2 ^ 48) step }
    requires count { count < 2 ^ 10 }
    ensures value { result ≡ step *ℤ pos count }
    ensures bound { IsWithin (3 * 2 ^ 58) result }
{
    step * i64::from(count)
}
