//! Means of a channel: quotients of a weighed sum and a weight, guessed and judged.
ghost use Rattle.std.specs.Prelude.{◌≡◌, ◌*◌, ◌/◌, ◌<◌, ◌^◌, pos, ◌-ℤ◌, ◌*ℤ◌, ◌<ℤ◌, IsTrue, ◌↔◌};
ghost use Rattle.fx_math.specs.Within.{IsWithin};
ghost use Rattle.span_shading.specs.Quotients.{IsMean, IsChannel, IsLeft, IsInverse};

/// About 2^64 divided by a weight, and 0 for a weight that is not above 0. Whatever it is, the means that are guessed by it
/// are judged.
pub(crate) fn inverse(weight: i64) -> u64
    ensures { IsInverse weight result }
{
    if weight <= 0 {
        return 0;
    }
    18_446_744_073_709_551_615 / weight.unsigned_abs()
}

/// The inverse of a weight, from that of one near it, by Newton's step.
#[inline(always)]
pub(crate) fn refined(inverse: u64, weight: i64) -> u64 {
    let over = inverse.wrapping_mul(weight.cast_unsigned());
    inverse.wrapping_sub(high_product(inverse.cast_signed(), over.cast_signed()))
}

/// The upper half of a product.
#[inline(always)]
fn high_product(x: i64, y: i64) -> u64 {
    upper_half(i128::from(x).wrapping_mul(i128::from(y)).cast_unsigned())
}

#[inline(always)]
fn upper_half(number: u128) -> u64 {
    (number / 18_446_744_073_709_551_616) as u64
}

/// A guess of a mean, by the inverse of the weight.
#[inline(always)]
pub(crate) fn guess(number: i64, inverse: u64) -> u8 {
    let product = u128::from(number.cast_unsigned()) * u128::from(inverse);
    (upper_half(product) % 256) as u8
}

/// Whether this is the mean, where the weight is above 0.
#[inline(always)]
pub(crate) fn fits(number: i64, weight: i64, mean: u8) -> bool
    requires number { IsWithin (3 * 2 ^ 60) number }
    requires weight { IsWithin (3 * 2 ^ 52) weight }
    ensures { pos 0 <ℤ weight → (IsTrue result ↔ IsMean number weight mean) }
{
    is_below(left(number, mean, weight), weight)
}

/// Whether this is the mean, whatever the weight is.
#[inline(always)]
pub(crate) fn is_mean(number: i64, weight: i64, mean: u8) -> bool
    requires number { IsWithin (15 * 2 ^ 58) number }
    requires weight { IsWithin (15 * 2 ^ 50) weight }
    ensures { IsTrue result ↔ IsMean number weight mean }
{
    is_left(left(number, mean, weight), weight)
}

/// The mean of a channel of a pixel that is covered.
pub(crate) fn quotient(number: i64, weight: i64) -> u8
    ensures { IsChannel number weight → IsMean number weight result }
{
    if number < 0 || weight <= 0 {
        return 0;
    }
    byte_quotient(number.unsigned_abs(), weight.unsigned_abs())
}

/// A quotient of at most 255.
#[tactic(auto, using(crate::proofs::Means::quotient_before))]
fn byte_quotient(number: u64, weight: u64) -> u8
    requires { 0 < weight }
    ensures { number < 256 * weight → result ≡ number / weight }
{
    let quotient = number / weight;
    if quotient < 256 { quotient as u8 } else { 255 }
}

/// Whether a rest is left by a quotient of a weight above 0: as numbers without a sign, those below 0 are the greatest.
#[inline(always)]
fn is_below(rest: i64, weight: i64) -> bool
    ensures { pos 0 <ℤ weight → (IsTrue result ↔ IsLeft rest weight) }
{
    rest.cast_unsigned() < weight.cast_unsigned()
}

/// Whether a rest is left by a quotient of a weight.
#[inline(always)]
fn is_left(rest: i64, weight: i64) -> bool
    ensures { IsTrue result ↔ IsLeft rest weight }
{
    0 <= rest && rest < weight
}

/// What a mean leaves of a weighed sum.
#[inline(always)]
fn left(number: i64, mean: u8, weight: i64) -> i64
    requires number { IsWithin (15 * 2 ^ 58) number }
    requires weight { IsWithin (15 * 2 ^ 50) weight }
    ensures { result ≡ number -ℤ pos mean *ℤ weight }
{
    number - taken(mean, weight)
}

/// What a mean takes of a weighed sum.
#[inline(always)]
fn taken(mean: u8, weight: i64) -> i64
    requires { IsWithin (15 * 2 ^ 50) weight }
    ensures value { result ≡ pos mean *ℤ weight }
    ensures bound { IsWithin (15 * 2 ^ 58) result }
{
    i64::from(mean) * weight
}
