//! One line of a live text behind the first.
ghost use Rattle.std.specs.Prelude.{◌≡◌, Ok, MatchResult, codes};
ghost use Rattle.std.specs.Str.{bytes_eq};
ghost use Rattle.play_format.specs.Outcomes.{Fails};
ghost use Rattle.play_format.specs.Rests.{IsSound};
ghost use Rattle.live_text.specs.LiveGrammar.{live_entry_at, is_barred, place_for, back_in_app, live_next};
ghost use Rattle.live_text.specs.States.{LiveFits};

use play_format::{Command, LineError, Place, Spot, Why, first_word, read_line};

/// Whether this is the first line of a live text.
pub fn is_first_line(line: &[u8]) -> bool
    ensures { result ≡ bytes_eq line.now (codes "perfly live 1") }
{
    line == b"perfly live 1".as_slice()
}

/// Whether a live text has no line with this first word.
fn is_barred(word: &[u8]) -> bool
    ensures { result ≡ is_barred word.now }
{
    word == b"wait".as_slice() || word == b"dbase".as_slice()
}

/// The place where a play has a line with this first word.
fn place_for(place: Place, word: &[u8]) -> Place
    ensures { result ≡ place_for place word.now }
{
    match place {
        Place::App => {
            if word == b"buffer".as_slice() {
                Place::Dbase
            } else {
                Place::App
            }
        }
        _ => place,
    }
}

/// Reads a line: its command, and its numbers in place of what `numbers` holds.
#[tactic(auto, unfolding(crate::specs::LiveGrammar::live_entry_at))]
pub fn read_live_line(numbers: &mut Vec<i32>, spot: Spot, line: &[u8]) -> Result<Command, LineError>
    requires { IsSound spot }
    ensures { MatchResult result
        (λ c. live_entry_at spot line.now ≡ Ok (c, numbers.new.items))
        (λ e. Fails e (live_entry_at spot line.now)) }
{
    let (word, _) = first_word(line);
    if is_barred(word) {
        return Err(LineError::Wrong(Why::Command));
    }
    let spot = Spot {
        place: place_for(spot.place, word),
        ..spot
    };
    read_line(numbers, spot, line)
}

/// The place where a live text goes on.
fn back_in_app(place: Place) -> Place
    ensures { result ≡ back_in_app place }
{
    match place {
        Place::Dbase => Place::App,
        _ => place,
    }
}

/// The spot behind a line that was read.
#[tactic(auto, unfolding(play_format::specs::Places::next_spot))]
pub fn next_spot(spot: Spot, command: Command, numbers: &[i32]) -> Spot
    requires sound { IsSound spot }
    requires fits { LiveFits spot command numbers.now }
    ensures value { result ≡ live_next spot command numbers.now }
    ensures sound { IsSound result }
{
    let next = spot.next(command, numbers);
    Spot {
        place: back_in_app(next.place),
        triangles: 0,
        ..next
    }
}
