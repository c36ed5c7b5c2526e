//! Lines of a text, and words of a line.
ghost use Rattle.std.specs.Prelude.{◌≡◌, ◌+◌, ◌<◌, ◌^◌, ◌==◌, [], ◌∷◌, length, count_by, MatchOption, IfSome};
ghost use Rattle.std.specs.List.{slice_split, position};
ghost use Rattle.play_format.specs.Words.{words};
ghost use Rattle.play_format.specs.Early.{IsEnd};
ghost use Rattle.play_format.specs.Rests.{left_words};

use memchr::memchr;

/// What stands before the first `byte` and what stands after it; None where the text has none.
pub fn cut(text: &[u8], byte: u8) -> Option<(&[u8], &[u8])>
    ensures parts { MatchOption result
        (slice_split (λ b. b == byte) text.now ≡ text.now ∷ [])
        (λ x. slice_split (λ b. b == byte) text.now ≡ x.0.now ∷ slice_split (λ b. b == byte) x.1.now) }
    ensures shorter { IfSome result (λ x. length x.0.now + length x.1.now + 1 ≡ length text.now) }
    ensures end { IfSome result (λ x. IsEnd text.now x.1.now) }
{
    match place_of(text, byte) {
        None => None,
        Some(end) => Some((&text[..end], &text[end + 1..])),
    }
}

fn place_of(text: &[u8], byte: u8) -> Option<usize>
    ensures { result ≡ position (λ b. b == byte) text.now }
{
    memchr(byte, text)
}

/// The first word of a line, and what is left of the line behind the space after it, where there is a space.
pub fn first_word(line: &[u8]) -> (&[u8], Option<&[u8]>)
    ensures { words line.now ≡ result.0.now ∷ left_words result.1 }
{
    match cut(line, b' ') {
        None => (line, None),
        Some((word, rest)) => (word, Some(rest)),
    }
}

/// The number of words of a line.
pub fn word_count(line: &[u8]) -> usize
    ensures { result ≡ length (words line.now) }
{
    spaces(line) + 1
}

fn spaces(line: &[u8]) -> usize
    ensures value { result ≡ count_by (λ b. b == 32) line.now }
    ensures bound { result < 2 ^ 63 }
{
    line.iter().filter(|b| **b == b' ').count()
}
