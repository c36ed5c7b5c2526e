//! The values of the options.
ghost use Rattle.std.specs.Prelude.{◌≡◌, ◌≤◌, codes, decimal, IfSome, option_map};
ghost use Rattle.std.specs.Str.{bytes_eq};
ghost use Rattle.program_words.specs.Meaning.{number_in, mode_named, mode_of, dbase_of, ahead_of, make_of, stream_of};

use crate::words::Mode;
use itoa::Buffer;

/// Whether a number is written like this.
fn is_written(number: u16, text: &str) -> bool
    ensures { result ≡ bytes_eq (decimal number) text.now }
{
    Buffer::new().format(number).as_bytes() == text.as_bytes()
}

/// The number from `low` to `high` that is written like this.
fn number_in(low: u16, high: u16, text: &str) -> Option<u16>
    ensures value { result ≡ number_in low high text.now }
    ensures within { IfSome result (λ n. (low ≤ n) × (n ≤ high)) }
{
    let number: u16 = text.parse().ok()?;
    if number < low || high < number || !is_written(number, text) {
        return None;
    }
    Some(number)
}

/// The mode that has this name.
fn mode_named(text: &str) -> Option<Mode>
    ensures { result ≡ mode_named text.now }
{
    match text {
        "appculldraw" => Some(Mode::Appculldraw),
        "app_culldraw" => Some(Mode::AppCulldraw),
        "appcull_draw" => Some(Mode::AppcullDraw),
        "app_cull_draw" => Some(Mode::AppCullDraw),
        _ => None,
    }
}

/// Returns which stages share a thread.
pub(crate) fn mode_of(given: Option<&str>) -> Option<Mode>
    ensures { result ≡ mode_of (option_map (λ text. text.now) given.entry) }
{
    match given {
        None => Some(Mode::Appculldraw),
        Some(text) => mode_named(text),
    }
}

/// Whether the database process has a thread of its own: clap's value of the flag.
pub(crate) fn dbase_of(given: Option<&str>) -> bool
    ensures { result ≡ dbase_of (option_map (λ text. text.now) given.entry) }
{
    given.is_some_and(|text| text == "true")
}

/// Returns how many frames may be in flight.
pub(crate) fn ahead_of(given: Option<&str>) -> Option<u8>
    ensures { result ≡ ahead_of (option_map (λ text. text.now) given.entry) }
{
    match given {
        None => Some(1),
        Some(text) => number_in(1, 4, text).map(|ahead| ahead as u8),
    }
}

/// Returns the number of the generated play, if one is to be made.
pub(crate) fn make_of(given: Option<&str>) -> Option<Option<u16>>
    ensures { result ≡ make_of (option_map (λ text. text.now) given.entry) }
{
    match given {
        None => Some(None),
        Some(text) => number_in(1, 256, text).map(Some),
    }
}

/// Returns how many items a piece of a draw list has at most, if draw lists are sent in pieces.
pub(crate) fn stream_of(given: Option<&str>) -> Option<Option<u32>>
    ensures value { result ≡ stream_of (option_map (λ text. text.now) given.entry) }
    ensures within { IfSome result (λ r. IfSome r (λ n. (1 ≤ n) × (n ≤ 4096))) }
{
    match given {
        None => Some(None),
        Some(text) => number_in(1, 4096, text).map(|items| Some(u32::from(items))),
    }
}
