//! Quotients by the sum of edge values: guessed by floats, and judged by integers.
ghost use Rattle.std.specs.Prelude.{◌≡◌, ◌*◌, ◌/◌, ◌<◌, ◌^◌, IsTrue, IfSome};

use std::num::nearest_u64_to_f64;

/// The product of a depth below 2^40 and a sum of edge values below 2^84.
#[inline(always)]
pub fn product(limit: u64, sum: u128) -> u128
    requires limit { limit < 2 ^ 40 }
    requires sum { sum < 2 ^ 84 }
    ensures { result ≡ limit * sum }
{
    u128::from(limit) * sum
}

/// A float a little above a dividend, so that where a sum divides it the quotient is not guessed one too small. Nothing rests on
/// its value.
pub fn about(dividend: u128) -> f64 {
    near(dividend) * 1.000_000_000_000_001
}

/// A float near a number.
pub(crate) fn near(number: u128) -> f64 {
    let high = (number / 18_446_744_073_709_551_616) as u64;
    let low = (number % 18_446_744_073_709_551_616) as u64;
    if high == 0 {
        nearest_u64_to_f64(low)
    } else {
        nearest_u64_to_f64(high) * 18_446_744_073_709_551_616.0 + nearest_u64_to_f64(low)
    }
}

/// The quotient by a sum below 2^84, if a float that is about it, rounded down, is right.
#[inline(always)]
pub(crate) fn guessed_quotient(dividend: u128, sum: u128, about: f64) -> Option<u64>
    requires { sum < 2 ^ 84 }
    ensures { IfSome result (λ q. (0 < sum) × (q ≡ dividend / sum) × (q < 2 ^ 32)) }
{
    let guess = rounded(about);
    if is_quotient(dividend, sum, guess) {
        Some(guess)
    } else {
        None
    }
}

/// A float below 2^32, rounded down. A float from 2^52 to 2^53 has no digits below one, so that a sum with 2^52 is rounded to a
/// whole number, whose digits are the lowest of the float; the half that is taken off makes of this rounding one down.
#[inline(always)]
fn rounded(guess: f64) -> u64
    ensures { result < 2 ^ 32 }
{
    let whole = guess + 4_503_599_627_370_495.5;
    if whole < 9_007_199_254_740_992.0 {
        whole.to_bits() % 4_294_967_296
    } else {
        0
    }
}

/// Whether a number is the quotient: whether it leaves less than the sum. Where its product is greater than the dividend, what is
/// left wraps around to far more.
#[inline(always)]
#[tactic(auto, using(crate::proofs::Divided::divisor_left, crate::proofs::Divided::quotient_left))]
fn is_quotient(dividend: u128, sum: u128, guess: u64) -> bool
    requires sum { sum < 2 ^ 84 }
    requires guess { guess < 2 ^ 32 }
    ensures some { IsTrue result → 0 < sum }
    ensures quotient { IsTrue result → guess ≡ dividend / sum }
{
    dividend.wrapping_sub(product(guess, sum)) < sum
}
