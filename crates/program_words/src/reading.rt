//! Arguments read with clap.
ghost use Rattle.std.specs.Prelude.{◌≡◌, ◌≢◌, ◌≤◌, ◌==◌, true, false, length, map, codes, Some, None, Err, IfOk, IfSome, MatchResult, option_map};
ghost use Rattle.std.specs.List.{list_any};
ghost use Rattle.std.specs.Str.{bytes_eq};
ghost use Rattle.std.specs.String.{string_bytes};
ghost use Rattle.clap.specs.Words.{fault_of, matches_of, rows_of, found_of, first_of, kind_of};
ghost use Rattle.clap.specs.declared.error.kind.ErrorKind.TheVariants as kind;
ghost use Rattle.program_words.specs.Usage.{usage};
ghost use Rattle.program_words.specs.Meaning.{meaning_of_values, meaning_of_words};
ghost use Rattle.program_words.specs.declared.words.WordsError.TheVariants as error;

use crate::command::usage;
use crate::probe::probe_of;
use crate::values::{ahead_of, dbase_of, make_of, mode_of, stream_of};
use crate::words::{Words, WordsError};
use clap::error::ErrorKind;
use clap::{ArgMatches, Error};
use std::alloc::Global;

/// Returns whether one of the words is `--`.
fn has_dashes(words: &[String]) -> bool
    ensures { result ≡ list_any (λ w. bytes_eq (string_bytes w) (codes "--")) words.now }
{
    words.iter().any(|word| word.as_str() == "--")
}

/// Returns what clap's refusal means.
fn refusal(cause: &Error) -> WordsError
    ensures { result ≡ error.Wrong → kind_of cause.now ≢ kind.OutOfMemory }
{
    if cause.kind() == ErrorKind::OutOfMemory {
        WordsError::NoMemory
    } else {
        WordsError::Wrong
    }
}

/// Returns the matches of the words.
fn matches<'a>(alloc: Global, words: &'a [String]) -> Result<ArgMatches<'a>, WordsError>
    ensures { MatchResult result
        (λ m. ((length (fault_of usage (map string_bytes words.entry.now)) == 0) ≡ true)
        × (rows_of (found_of m) ≡ matches_of usage (map string_bytes words.entry.now)))
        (λ e. e ≡ error.Wrong → (length (fault_of usage (map string_bytes words.entry.now)) == 0) ≡ false) }
{
    let Ok(command) = usage(alloc) else {
        return Err(WordsError::NoMemory);
    };
    match command.try_get_matches_from(words) {
        Ok(matches) => Ok(matches),
        Err(cause) => Err(refusal(&cause)),
    }
}

/// Returns the value of an option, if it was given.
fn value<'a>(matches: &ArgMatches<'a>, name: &str) -> Option<&'a str>
    ensures { option_map (λ text. text.now) result ≡ first_of name.now (rows_of (found_of matches.now)) }
{
    matches.get_str(name)
}

/// Returns what the values of the options mean.
fn meaning(matches: &ArgMatches) -> Option<Words>
    ensures value { result ≡ meaning_of_values (rows_of (found_of matches.now)) }
    ensures stream { IfSome result (λ w. IfSome w.stream (λ n. (1 ≤ n) × (n ≤ 4096))) }
{
    let mode = mode_of(value(matches, "mode"))?;
    let dbase = dbase_of(value(matches, "dbase"));
    let ahead = ahead_of(value(matches, "ahead"))?;
    let make = make_of(value(matches, "make"))?;
    let probe = probe_of(value(matches, "probe"))?;
    let stream = stream_of(value(matches, "stream"))?;
    Some(Words {
        mode,
        dbase,
        ahead,
        make,
        probe,
        stream,
    })
}

/// Reads the arguments behind the program's name: `[--mode m] [--dbase] [--ahead 1..4] [--make 1..256] [--probe
/// x0,y0,z0,x1,y1,z1] [--stream 1..4096]`. The mode is `appculldraw`, `app_culldraw`, `appcull_draw` or
/// `app_cull_draw`, and the six numbers of a probe are coordinates. Each option comes at most once, in any order, its
/// value as the next word or after `=`. A value that is the next word does not begin with `-`.
///
/// Returns what they mean. Returns `Err(Wrong)` only if they have no meaning, and `Err(NoMemory)` if memory runs out.
#[tactic(auto, unfolding(crate::specs::Meaning::meaning_of_words))]
pub fn read_words(alloc: Global, words: &[String]) -> Result<Words, WordsError>
    ensures right { IfOk result (λ w. meaning_of_words (map string_bytes words.now) ≡ Some w) }
    ensures wrong { result ≡ Err error.Wrong → meaning_of_words (map string_bytes words.now) ≡ None }
    ensures stream { IfOk result (λ w. IfSome w.stream (λ n. (1 ≤ n) × (n ≤ 4096))) }
{
    if has_dashes(words) {
        return Err(WordsError::Wrong);
    }
    let matches = matches(alloc, words)?;
    meaning(&matches).ok_or(WordsError::Wrong)
}
