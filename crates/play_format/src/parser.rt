//! Reading a play.
ghost use Rattle.std.specs.Prelude.{◌≡◌, ℕ, List, None, IfOk, IfErr, MatchResult};
ghost use Rattle.std.specs.List.{All};
ghost use Rattle.play_format.specs.Early.{IsEarly};
ghost use Rattle.play_format.specs.Outcomes.{Refuses, ReadAs};
ghost use Rattle.play_format.specs.Grammar.{reading};
ghost use Rattle.play_format.specs.Reads.{Reads, HasReading, first_refusal, Gives, IsRefusal};
ghost use Rattle.play_format.specs.Plays.{Script};

use crate::early::{Early, early_lines};
use crate::header::{header, version};
use crate::places::Spot;
use crate::play::Play;
use crate::reader::Reader;
use crate::refusal::ParseError;
use crate::sections::{app_section, base_section};
use std::alloc::Global;
use std::thread::Threads;

/// Reads a play line by line, but for the triangle lines that were read before.
fn read_play(alloc: Global, bytes: &[u8], early: Vec<Early>) -> Result<Play, ParseError>
    requires { All (IsEarly bytes.now) early.items }
    ensures { MatchResult result (λ p. ReadAs bytes.now p) (λ e. Refuses e (reading bytes.now)) }
{
    let (version, rest) = version(bytes)?;
    let mut reader = Reader {
        rest,
        line: 2,
        spot: Spot::start(version),
        text: bytes,
        early,
    };
    let mut numbers = Vec::new(alloc);
    let mut corners = Vec::new(alloc);
    let (lens, back) = header(&mut reader, &mut numbers)?;
    let channels = reader.spot.channels;
    let (app, more) = app_section(alloc, &mut reader, &mut numbers, &mut corners)?;
    if !more {
        return Ok(Play::new(lens, back, channels, app, Vec::new(alloc)));
    }
    let dbase = base_section(alloc, &mut reader, &mut numbers, &mut corners)?;
    Ok(Play::new(lens, back, channels, app, dbase))
}

/// Reads a play. The text is refused exactly where it is no play, with its first wrong line and the first cause against
/// that line.
pub fn parse(alloc: Global, bytes: &[u8]) -> Result<Play, ParseError>
    // What is read is spelled so.
    ensures found { IfOk result (λ p. Reads bytes.now p) }
    // A text that spells a play is read as that play, unless memory runs out.
    ensures only { (p : Script) → Reads bytes.now p → Gives result p }
    // A text is refused only where it spells no play, by its first wrong line.
    ensures refused { IfErr result (λ e. IsRefusal e bytes.now) }
{
    read_play(alloc, bytes, Vec::new(alloc))
}

/// Reads a play as `parse` does, the triangle lines of a long one in a thread for each processor.
pub fn parse_beside<R: Threads + Sync>(
    rt: &R,
    alloc: Global,
    bytes: &[u8],
) -> Result<Play, ParseError>
    // What is read is spelled so.
    ensures found { IfOk result (λ p. Reads bytes.now p) }
    // A text that spells a play is read as that play, unless memory runs out.
    ensures only { (p : Script) → Reads bytes.now p → Gives result p }
    // A text is refused only where it spells no play, by its first wrong line.
    ensures refused { IfErr result (λ e. IsRefusal e bytes.now) }
{
    let early = early_lines(rt, alloc, bytes);
    read_play(alloc, bytes, early)
}

/// A text spells at most one play, and it spells one exactly where it has no wrong line.
pub fn one_reading()
    ensures one { (text : List ℕ) (p q : Script) → Reads text p → Reads text q → p ≡ q }
    ensures none_wrong { (text : List ℕ) → HasReading text → first_refusal text ≡ None }
    ensures some_play { (text : List ℕ) → first_refusal text ≡ None → HasReading text }
{}
