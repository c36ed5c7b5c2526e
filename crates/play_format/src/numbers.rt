//! Numbers as a play spells them.
ghost use Rattle.std.specs.Prelude.{◌≡◌, ◌<◌, ◌≤◌, ◌==◌, if◌then◌else◌, true, false, min, pos, length, slice_index, MatchResult};
ghost use Rattle.std.specs.List.{prefix_len, take_while, list_all};
ghost use Rattle.std.specs.Char.{is_ascii_digit};
ghost use Rattle.std.specs.Str.Parse.{digits_value};
ghost use Rattle.play_format.specs.declared.refusal.Why.TheVariants as whys;
ghost use Rattle.play_format.specs.Rests.{front_word, front_len, IsBehind, held};
ghost use Rattle.play_format.specs.Numbers.{is_natural, is_number, value_of, number_at, minus};

use crate::refusal::Why;

/// The least and the greatest number that may stand at a place.
#[derive(Clone, Copy, Debug, PartialEq, Eq)]
pub struct Limits {
    pub low: i32,
    pub high: i32,
}

/// Above every limit: a magnitude is counted no further.
const ENOUGH: u64 = 1 << 40;

/// The decimal digits at the front of a text: the number that they write, up to `ENOUGH`, and how many they are.
fn digits(text: &[u8]) -> (u64, usize)
    ensures value { result.0 ≡ min (digits_value 10 (take_while is_ascii_digit text.now)) 1099511627776 }
    ensures len { result.1 ≡ prefix_len is_ascii_digit text.now }
    ensures bound { result.1 ≤ length text.now }
{
    let mut value = 0;
    for (len, b) in text.iter().enumerate() {
        if !b.is_ascii_digit() {
            return (value, len);
        }
        value = (value * 10 + u64::from(*b - b'0')).min(ENOUGH);
    }
    (value, text.len())
}

/// What is left of a text behind the digits at its front, of which there are `len`, and the space after them, where there
/// is a space. It is `Err(Why::Number)` where the first word has another byte behind them.
fn behind(text: &[u8], len: usize) -> Result<Option<&[u8]>, Why>
    requires digits { len ≡ prefix_len is_ascii_digit text.now }
    requires bound { len ≤ length text.now }
    ensures { MatchResult result
        (λ rest. (front_len text.now ≡ len) × IsBehind text.now rest)
        (λ why. (why ≡ whys.Number) × (list_all is_ascii_digit (front_word text.now) ≡ false)) }
{
    if len == text.len() {
        Ok(None)
    } else if text[len] == b' ' {
        Ok(Some(&text[len + 1..]))
    } else {
        Err(Why::Number)
    }
}

fn begins_with(text: &[u8], b: u8) -> bool
    requires { 0 < b }
    ensures { result ≡ (slice_index text.now 0 == b) }
{
    match text {
        [] => false,
        [first, ..] => *first == b,
    }
}

/// The number that the first word of a text writes without a sign, up to `ENOUGH`, and what is left of the text behind the
/// space after it, where there is a space. It is `Err(Why::Number)` where the word is no such number.
fn natural(text: &[u8]) -> Result<(u64, Option<&[u8]>), Why>
    ensures { MatchResult result
        (λ r. (is_natural (front_word text.now) ≡ true)
        × (r.0 ≡ min (digits_value 10 (front_word text.now)) 1099511627776) × IsBehind text.now r.1)
        (λ why. (why ≡ whys.Number) × (is_natural (front_word text.now) ≡ false)) }
{
    let (value, len) = digits(text);
    let rest = behind(text, len)?;
    if len == 0 || (len != 1 && begins_with(text, b'0')) {
        return Err(Why::Number);
    }
    Ok((value, rest))
}

/// A number with its sign.
fn with_sign(is_negative: bool, n: u64) -> i64
    requires { n ≤ 1099511627776 }
    ensures { result ≡ (if is_negative then minus n else pos n) }
{
    if is_negative { -(n as i64) } else { n as i64 }
}

/// The number that the first word of a text writes, up to `ENOUGH` in magnitude, and what is left of the text behind the
/// space after it, where there is a space. It is `Err(Why::Number)` where the word is no number.
fn signed(text: &[u8]) -> Result<(i64, Option<&[u8]>), Why>
    ensures { MatchResult result
        (λ r. (is_number (front_word text.now) ≡ true)
        × (r.0 ≡ held (value_of (front_word text.now))) × IsBehind text.now r.1)
        (λ why. (why ≡ whys.Number) × (is_number (front_word text.now) ≡ false)) }
{
    let is_negative = begins_with(text, b'-');
    let magnitude = &text[usize::from(is_negative)..];
    if is_negative && begins_with(magnitude, b'0') {
        return Err(Why::Number);
    }
    let (n, rest) = natural(magnitude)?;
    Ok((with_sign(is_negative, n), rest))
}

/// The number that the first word of a line writes, and what is left of the line behind the space after it, where there is
/// a space. It is `Err(Why::Number)` where the word is no number, of whatever length, and else `Err(Why::Range)` where the
/// number is outside the limits.
pub fn number(line: &[u8], limits: Limits) -> Result<(i32, Option<&[u8]>), Why>
    ensures { MatchResult result
        (λ r. (number_at limits (front_word line.now) ≡ Ok r.0) × IsBehind line.now r.1)
        (λ why. number_at limits (front_word line.now) ≡ Err why) }
{
    let (value, rest) = signed(line)?;
    if value < i64::from(limits.low) || i64::from(limits.high) < value {
        return Err(Why::Range);
    }
    Ok((value as i32, rest))
}
