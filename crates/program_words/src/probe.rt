//! The value of the probe's option.
ghost use Rattle.std.specs.Prelude.{◌≡◌, ◌∷◌, IfSome, option_map};
ghost use Rattle.std.specs.Fmt.{signed_decimal};
ghost use Rattle.std.specs.Str.{bytes_eq};
ghost use Rattle.fx_math.specs.Within.{IsCoordinate};
ghost use Rattle.play_format.specs.Making.{vector};
ghost use Rattle.program_words.specs.Probes.{pieces, coordinate_in, segment_in};
ghost use Rattle.program_words.specs.Lefts.{left_pieces, next_coordinate, next_point};
ghost use Rattle.program_words.specs.Meaning.{probe_of};

use fx_math::{MAX_COORDINATE, Vec3};
use itoa::Buffer;
use nearest_hit::Segment;

/// Whether a number is written like this.
fn is_written(number: i32, text: &str) -> bool
    ensures { result ≡ bytes_eq (signed_decimal number) text.now }
{
    Buffer::new().format(number).as_bytes() == text.as_bytes()
}

/// The coordinate that is written like this.
fn coordinate_in(text: &str) -> Option<i32>
    ensures value { result ≡ coordinate_in text.now }
    ensures within { IfSome result IsCoordinate }
{
    let number: i32 = text.parse().ok()?;
    if number < -MAX_COORDINATE || MAX_COORDINATE < number || !is_written(number, text) {
        return None;
    }
    Some(number)
}

/// Returns what is before the first comma of a text, and what is after it, if there is a comma.
fn cut(text: &str) -> (&str, Option<&str>)
    ensures { pieces text.now ≡ result.0.now ∷ left_pieces result.1 }
{
    match text.split_once(',') {
        None => (text, None),
        Some((piece, left)) => (piece, Some(left)),
    }
}

/// The first coordinate of what is left of a text, and what is left behind it.
fn next_coordinate(left: Option<&str>) -> Option<(i32, Option<&str>)>
    ensures value { option_map (λ r. (r.0, left_pieces r.1)) result ≡ next_coordinate (left_pieces left.entry) }
    ensures within { IfSome result (λ r. IsCoordinate r.0) }
{
    let (piece, left) = cut(left?);
    Some((coordinate_in(piece)?, left))
}

/// The point of three coordinates.
fn point(x: i32, y: i32, z: i32) -> Vec3
    requires x { IsCoordinate x }
    requires y { IsCoordinate y }
    requires z { IsCoordinate z }
    ensures { result ≡ vector x y z }
{
    Vec3 { x, y, z }
}

/// The point of the first three coordinates of what is left of a text, and what is left behind them.
fn next_point(left: Option<&str>) -> Option<(Vec3, Option<&str>)>
    ensures { option_map (λ r. (r.0, left_pieces r.1)) result ≡ next_point (left_pieces left.entry) }
{
    let (x, left) = next_coordinate(left)?;
    let (y, left) = next_coordinate(left)?;
    let (z, left) = next_coordinate(left)?;
    Some((point(x, y, z), left))
}

/// The segment of six coordinates with commas between them.
fn segment_in(text: &str) -> Option<Segment>
    ensures { result ≡ segment_in text.now }
{
    let (from, left) = next_point(Some(text))?;
    let (to, left) = next_point(left)?;
    match left {
        None => Some(Segment { from, to }),
        Some(_) => None,
    }
}

/// Returns the segment whose nearest hit is asked for in each frame, if one is.
pub(crate) fn probe_of(given: Option<&str>) -> Option<Option<Segment>>
    ensures { result ≡ probe_of (option_map (λ text. text.now) given.entry) }
{
    match given {
        None => Some(None),
        Some(text) => segment_in(text).map(Some),
    }
}
