//! Edge values whose coefficients are so small that they and their sums, weighed by channels, have 64 bits.
ghost use Rattle.std.specs.Prelude.{◌≡◌, ◌<◌, ◌*◌, ◌^◌, pos, ◌+ℤ◌, ◌*ℤ◌, IsTrue, ◌↔◌};
ghost use Rattle.fx_math.specs.Limits.{size_limit};
ghost use Rattle.fx_math.specs.Within.{IsWithin};
ghost use Rattle.edge_values.specs.Small.{AreSmallCoefficients, value_of, step_of};

/// The greatest magnitude of the coefficients of a column and a row in a small edge value, 2^39.
const MOST_SLOPE: u64 = 549_755_813_888;

/// The greatest magnitude of a small edge value's constant, 2^50. At the pixels of a picture the value has at most 2^52 then.
const MOST_CONSTANT: u128 = 1_125_899_906_842_624;

/// Whether the edge value `2 * a * px + 2 * b * py + c` of the pixel (px, py) has small coefficients: `a` and `b` of a magnitude
/// of at most 2^39, and `c` of at most 2^50.
pub fn are_small(a: i64, b: i64, c: i128) -> bool
    ensures { IsTrue result ↔ AreSmallCoefficients a b c }
{
    a.unsigned_abs() <= MOST_SLOPE
        && b.unsigned_abs() <= MOST_SLOPE
        && c.unsigned_abs() <= MOST_CONSTANT
}

/// The edge value of small coefficients at a pixel of a picture, of a magnitude of at most 3 * 2^50.
pub fn small_value(a: i64, b: i64, c: i128, px: u16, py: u16) -> i64
    requires px { px < size_limit }
    requires py { py < size_limit }
    requires small { AreSmallCoefficients a b c }
    ensures value { result ≡ value_of a b c px py }
    ensures bound { IsWithin (3 * 2 ^ 50) result }
{
    sum_of(times(a, px), times(b, py), constant(c))
}

/// By how much an edge value of small coefficients changes from a pixel to the next one of its row, at most 2^40.
pub fn small_step(a: i64) -> i64
    requires { IsWithin (2 ^ 39) a }
    ensures value { result ≡ step_of a }
    ensures bound { IsWithin (2 ^ 40) result }
{
    2 * a
}

fn sum_of(x: i64, y: i64, c: i64) -> i64
    requires x { IsWithin (2 ^ 50) x }
    requires y { IsWithin (2 ^ 50) y }
    requires c { IsWithin (2 ^ 50) c }
    ensures value { result ≡ x +ℤ y +ℤ c }
    ensures bound { IsWithin (3 * 2 ^ 50) result }
{
    x + y + c
}

/// Twice the product of a coefficient and a place.
fn times(slope: i64, place: u16) -> i64
    requires slope { IsWithin (2 ^ 39) slope }
    requires place { place < size_limit }
    ensures value { result ≡ (pos 2 *ℤ slope) *ℤ pos place }
    ensures bound { IsWithin (2 ^ 50) result }
{
    product(small_step(slope), place)
}

fn product(step: i64, place: u16) -> i64
    requires step { IsWithin (2 ^ 40) step }
    requires place { place < size_limit }
    ensures value { result ≡ step *ℤ pos place }
    ensures bound { IsWithin (2 ^ 50) result }
{
    step * i64::from(place)
}

fn constant(number: i128) -> i64
    requires { IsWithin (2 ^ 50) number }
    ensures value { result ≡ number }
    ensures bound { IsWithin (2 ^ 50) result }
{
    number as i64
}
