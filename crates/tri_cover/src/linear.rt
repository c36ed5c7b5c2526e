//! Linear functions of the pixel.
ghost use Rattle.std.specs.Prelude.{◌≡◌, ◌<◌, ◌*◌, ◌^◌, pos, ◌+ℤ◌, ◌*ℤ◌};
ghost use Rattle.fx_math.specs.Limits.{size_limit};
ghost use Rattle.fx_math.specs.Within.{IsWithin};
ghost use Rattle.tri_cover.specs.Coefficients.{AreWide};

/// The function `2 * a * px + 2 * b * py + c` of the pixel (px, py), which is counted from the top left.
#[derive(Clone, Copy, Debug, PartialEq, Eq)]
pub struct Linear {
    pub a: i64,
    pub b: i64,
    pub c: i128,
    pub ghost wide: { AreWide a b c },
}

impl Linear {
    ghost use Rattle.tri_cover.specs.Linears.{value_at, step_of, IsNarrow, IsTotal};

    /// The value at a pixel.
    pub fn at(&self, px: u16, py: u16) -> i128
        requires px { px < size_limit }
        requires py { py < size_limit }
        ensures value { result ≡ value_at self.now px py }
        ensures bound { IsWithin (2 ^ 82) result }
    {
        sum_of(times(self.a, px), times(self.b, py), self.c)
    }

    /// By how much the value changes from a pixel to the next one of its row.
    pub fn step(&self) -> i128
        ensures value { result ≡ step_of self.now }
        ensures bound { IsWithin (2 ^ 64) result }
    {
        2 * i128::from(self.a)
    }

    /// The sum of three edge values.
    pub(crate) fn total(e0: Linear, e1: Linear, e2: Linear) -> Linear
        requires e0 { IsNarrow e0 }
        requires e1 { IsNarrow e1 }
        requires e2 { IsNarrow e2 }
        ensures { IsTotal e0 e1 e2 result }
    {
        Linear {
            a: slope(e0.a, e1.a, e2.a),
            b: slope(e0.b, e1.b, e2.b),
            c: constant(e0.c, e1.c, e2.c),
        }
    }
}

fn times(slope: i64, place: u16) -> i128
    requires slope { IsWithin (3 * 2 ^ 61) slope }
    requires place { place < size_limit }
    ensures value { result ≡ (pos 2 *ℤ slope) *ℤ pos place }
    ensures bound { IsWithin (3 * 2 ^ 72) result }
{
    2 * product(slope, place)
}

fn product(slope: i64, place: u16) -> i128
    requires slope { IsWithin (3 * 2 ^ 61) slope }
    requires place { place < size_limit }
    ensures value { result ≡ slope *ℤ pos place }
    ensures bound { IsWithin (3 * 2 ^ 71) result }
{
    i128::from(slope) * i128::from(place)
}

fn sum_of(x: i128, y: i128, c: i128) -> i128
    requires x { IsWithin (3 * 2 ^ 72) x }
    requires y { IsWithin (3 * 2 ^ 72) y }
    requires c { IsWithin (3 * 2 ^ 80) c }
    ensures value { result ≡ x +ℤ y +ℤ c }
    ensures bound { IsWithin (2 ^ 82) result }
{
    x + y + c
}

fn slope(x: i64, y: i64, z: i64) -> i64
    requires x { IsWithin (2 ^ 61) x }
    requires y { IsWithin (2 ^ 61) y }
    requires z { IsWithin (2 ^ 61) z }
    ensures value { result ≡ x +ℤ y +ℤ z }
    ensures bound { IsWithin (3 * 2 ^ 61) result }
{
    x + y + z
}

fn constant(x: i128, y: i128, z: i128) -> i128
    requires x { IsWithin (2 ^ 80) x }
    requires y { IsWithin (2 ^ 80) y }
    requires z { IsWithin (2 ^ 80) z }
    ensures value { result ≡ x +ℤ y +ℤ z }
    ensures bound { IsWithin (3 * 2 ^ 80) result }
{
    x + y + z
}
