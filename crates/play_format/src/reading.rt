//! One line of a play: its command and its numbers, or the first cause against it.
ghost use Rattle.std.specs.Prelude.{◌≡◌, ◌≤◌, ◌+◌, ◌&&◌, Ok, IfOk, MatchResult, length, drop, codes};
ghost use Rattle.std.specs.List.{find};
ghost use Rattle.std.specs.Option.{option_map};
ghost use Rattle.std.specs.Str.{bytes_eq};
ghost use Rattle.play_format.specs.Words.{words};
ghost use Rattle.play_format.specs.Commands.{text_of, tail_of, words_in, all_commands, Entry};
ghost use Rattle.play_format.specs.Places.{may_stand};
ghost use Rattle.play_format.specs.Grammar.{numbers_at, switched, switch_form, picked, named, entry_at, fields_at};
ghost use Rattle.play_format.specs.Outcomes.{Fails};
ghost use Rattle.play_format.specs.Rests.{left_words, IsSound};

use crate::commands::{ALL, Command, Form};
use crate::numbers::{Limits, number};
use crate::places::{Spot, is_ordered};
use crate::refusal::{LineError, Why};
use crate::words::{first_word, word_count};

/// The command that a word names at this place.
fn named(spot: Spot, word: &[u8]) -> Option<Command>
    ensures { result ≡ named spot word.now }
{
    ALL.iter()
        .copied()
        .find(|c| c.text() == word && spot.allows(*c))
}

/// Which form of `sw` its last word makes.
fn switched(value: &[u8]) -> Form
    ensures { result ≡ switched value.now }
{
    if value == b"on".as_slice() {
        Form::SwitchOn
    } else if value == b"off".as_slice() {
        Form::SwitchOff
    } else {
        Form::SwitchTo
    }
}

/// Which form of `sw` the words behind it make.
fn switch_form(rest: Option<&[u8]>) -> Form
    ensures { result ≡ switch_form (left_words rest.entry) }
{
    let Some(line) = rest else {
        return Form::SwitchTo;
    };
    match first_word(line).1 {
        None => Form::SwitchTo,
        Some(value) => switched(value),
    }
}

/// The form that a command has by the words behind it.
fn picked(rest: Option<&[u8]>, command: Command) -> Command
    ensures { result ≡ picked (left_words rest.entry) command }
{
    match command {
        Command::Edit(Form::SwitchTo) => Command::Edit(switch_form(rest)),
        _ => command,
    }
}

/// The number of words of a line with this command.
fn words_in(channels: u8, command: Command) -> usize
    requires { channels ≤ 4 }
    ensures { result ≡ words_in channels command }
{
    1 + command.limits(channels).len() + command.tail_len()
}

/// Reads as many numbers as there are limits, in place of what `numbers` holds, and returns what is left of the line.
pub fn read_numbers<'a>(
    numbers: &mut Vec<i32>,
    rest: Option<&'a [u8]>,
    limits: &[Limits],
) -> Result<Option<&'a [u8]>, LineError>
    ensures read { MatchResult result
        (λ _. numbers_at limits.now (left_words rest.entry) ≡ Ok numbers.new.items)
        (λ e. Fails e (numbers_at limits.now (left_words rest.entry))) }
    ensures left { IfOk result (λ left. length limits.now + length (left_words left) ≡ length (left_words rest.entry)) }
{
    numbers.clear();
    let mut left = rest;
    for limit in limits {
        let Some(line) = left else {
            return Err(LineError::Wrong(Why::Fields));
        };
        let (value, after) = number(line, *limit)?;
        numbers.push(value)?;
        left = after;
    }
    Ok(left)
}

/// The number of words of what is left of a line, where anything is left.
fn left_count(left: Option<&[u8]>) -> usize
    ensures { result ≡ length (left_words left.entry) }
{
    match left {
        None => 0,
        Some(text) => word_count(text),
    }
}

/// Reads the numbers of a line with this command, in place of what `numbers` holds; `rest` stands behind its first word.
fn read_fields(
    numbers: &mut Vec<i32>,
    spot: Spot,
    command: Command,
    line: &[u8],
    rest: Option<&[u8]>,
) -> Result<(), LineError>
    requires spot { IsSound spot }
    requires rest { drop 1 (words line.now) ≡ left_words rest }
    ensures { MatchResult result
        (λ _. fields_at spot command (words line.now) ≡ Ok numbers.new.items)
        (λ e. Fails e (fields_at spot command (words line.now))) }
{
    match read_numbers(numbers, rest, command.limits(spot.channels)) {
        Ok(left) => {
            if left_count(left) == command.tail_len() {
                Ok(())
            } else {
                Err(LineError::Wrong(Why::Fields))
            }
        }
        Err(LineError::Wrong(why)) => {
            if word_count(line) == words_in(spot.channels, command) {
                Err(LineError::Wrong(why))
            } else {
                Err(LineError::Wrong(Why::Fields))
            }
        }
        Err(LineError::NoMemory) => Err(LineError::NoMemory),
    }
}

/// Reads a line: its command, and its numbers in place of what `numbers` holds.
#[tactic(auto, unfolding(crate::specs::Grammar::entry_at))]
pub fn read_line(numbers: &mut Vec<i32>, spot: Spot, line: &[u8]) -> Result<Command, LineError>
    requires { IsSound spot }
    ensures { MatchResult result
        (λ c. entry_at spot line.now ≡ Ok (c, numbers.new.items))
        (λ e. Fails e (entry_at spot line.now)) }
{
    let (word, rest) = first_word(line);
    let Some(command) = named(spot, word) else {
        return Err(LineError::Wrong(Why::Command));
    };
    let command = picked(rest, command);
    read_fields(numbers, spot, command, line, rest)?;
    if !is_ordered(command, numbers) {
        return Err(LineError::Wrong(Why::Range));
    }
    if !spot.has_room(command, numbers) {
        return Err(LineError::Wrong(Why::Count));
    }
    Ok(command)
}
