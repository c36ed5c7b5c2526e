//! Quotients of a weighed sum and a weight in 128 bits, and what they leave.
ghost use Rattle.std.specs.Prelude.{◌≡◌, ◌*◌, ◌/◌, ◌<◌, ◌^◌, pos, ◌+ℤ◌, ◌-ℤ◌, ◌*ℤ◌, IsTrue, ◌↔◌};
ghost use Rattle.fx_math.specs.Within.{IsWithin};
ghost use Rattle.span_shading.specs.Quotients.{IsMean, IsChannel, IsLeft};

/// Whether this is left by a quotient of this weight.
#[inline(always)]
pub(crate) fn is_left(rest: i128, weight: i128) -> bool
    ensures { IsTrue result ↔ IsLeft rest weight }
{
    0 <= rest && rest < weight
}

/// What a mean leaves of a weighed sum.
#[inline(always)]
pub(crate) fn left(number: i128, mean: u8, weight: i128) -> i128
    requires number { IsWithin (2 ^ 98) number }
    requires weight { IsWithin (2 ^ 82) weight }
    ensures { result ≡ number -ℤ pos mean *ℤ weight }
{
    number - taken(mean, weight)
}

/// The weighed sum of which a mean leaves this.
pub(crate) fn whole(rest: i128, mean: u8, weight: i128) -> i128
    requires rest { IsWithin (2 ^ 97) rest }
    requires weight { IsWithin (2 ^ 82) weight }
    ensures value { result ≡ rest +ℤ pos mean *ℤ weight }
    ensures bound { IsWithin (2 ^ 98) result }
{
    rest + taken(mean, weight)
}

/// What a mean takes of a weighed sum.
#[inline(always)]
fn taken(mean: u8, weight: i128) -> i128
    requires { IsWithin (2 ^ 82) weight }
    ensures value { result ≡ pos mean *ℤ weight }
    ensures bound { IsWithin (2 ^ 90) result }
{
    i128::from(mean) * weight
}

/// What is left where a mean takes once less of a weight.
pub(crate) fn plus(rest: i128, weight: i128) -> i128
    requires rest { IsWithin (2 ^ 97) rest }
    requires weight { IsWithin (2 ^ 82) weight }
    ensures value { result ≡ rest +ℤ weight }
    ensures bound { IsWithin (2 ^ 98) result }
{
    rest + weight
}

/// What is left where a mean takes once more of a weight.
pub(crate) fn minus(rest: i128, weight: i128) -> i128
    requires rest { IsWithin (2 ^ 97) rest }
    requires weight { IsWithin (2 ^ 82) weight }
    ensures value { result ≡ rest -ℤ weight }
    ensures bound { IsWithin (2 ^ 98) result }
{
    rest - weight
}

/// A number that changes by so much from a pixel to the next, so many further on.
#[inline(always)]
pub(crate) fn ahead(here: i128, step: i128, count: u16) -> i128
    requires here { IsWithin (2 ^ 97) here }
    requires step { IsWithin (2 ^ 97) step }
    ensures value { result ≡ here +ℤ step *ℤ pos count }
    ensures bound { IsWithin (2 ^ 114) result }
{
    here + far(step, count)
}

/// By how much a number changes over so many pixels.
#[inline(always)]
fn far(step: i128, count: u16) -> i128
    requires { IsWithin (2 ^ 97) step }
    ensures value { result ≡ step *ℤ pos count }
    ensures bound { IsWithin (2 ^ 113) result }
{
    step * i128::from(count)
}

/// The mean of a channel of a pixel that is covered.
pub(crate) fn quotient(number: i128, weight: i128) -> u8
    ensures { IsChannel number weight → IsMean number weight result }
{
    if number < 0 || weight <= 0 {
        return 0;
    }
    byte_quotient(number.unsigned_abs(), weight.unsigned_abs())
}

/// A quotient of at most 255.
#[tactic(auto, using(crate::proofs::Means::quotient_before))]
fn byte_quotient(number: u128, weight: u128) -> u8
    requires { 0 < weight }
    ensures { number < 256 * weight → result ≡ number / weight }
{
    let quotient = number / weight;
    if quotient < 256 { quotient as u8 } else { 255 }
}
