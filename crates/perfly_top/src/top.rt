//! The whole of perfly as one call.
ghost use Rattle.std.specs.Prelude.{◌≡◌, ◌≢◌, ◌↔◌, ◌⊎◌, ◌≤◌, ℕ, true, None, Some, IsSome, IfSome, map};
ghost use Rattle.std.specs.String.{string_bytes};
ghost use Rattle.pf_io.specs.Causes.{Calm, Rose};
ghost use Rattle.pf_io.specs.Streams.{TakesFront};
ghost use Rattle.program_words.specs.declared.words.Words.{Words};
ghost use Rattle.program_words.specs.Meaning.{meaning_of_words};
ghost use Rattle.perfly_top.specs.Calls.{IsRefused, IsBarred, IsUntouched};
ghost use Rattle.perfly_top.specs.Endings.{IsStopped, IsBegun, IsDone, IsDoneUntold, FindsEnd, IsDue, IsDueMade};

use crate::alone::perfly_alone;
use crate::ending::{Ended, stopped};
use crate::hosted::perfly_hosted;
use crate::preparing::right_words;
use crate::setup::AloneWords;
use pf_history::History;
use pf_io::{Gate, Sink, Source};
use pipe_core::PlayEnd;
use program_ends::{DONE, FRAME_FAULT, NO_MEMORY, READ_FAULT, REFUSED, REPORT_FAULT, STUCK, WORDS};
use std::alloc::Global;
use std::sync::Wait;
use std::thread::Threads;

/// Plays the play of a source, as `words`, the arguments behind the program's name, say. It reads the play, writes the
/// pictures of its frames to `frames` as P6 images, and the report of its calls to `report`. With `--make` the source
/// is not read: a generated play is played, and `report` gets one line. If the play does not come to its end, `report`
/// gets a message.
///
/// The stages pass `gate` before each frame and each merge. By the words they share one thread or are divided among
/// several; the caller's thread alone uses the source and the two sinks. If they share one, the words being those of an
/// [`AloneWords`], the call is one of [`perfly_alone`], which may not wait. Else the call waits for the other threads.
///
/// Returns the status, 0 to 7, with the history. The status is [`WORDS`] if the words have no meaning, [`REFUSED`] if
/// what was read is no play, and [`STUCK`] if the play could never end. It is [`READ_FAULT`], [`FRAME_FAULT`] or
/// [`REPORT_FAULT`] only if that stream reported a fault, [`NO_MEMORY`] if memory ran out, and else [`DONE`].
pub fn perfly<
    R: Threads + Wait + Copy + Drop + Send + Sync + 'static,
    I: Source,
    O: Sink,
    P: Sink,
    G: Gate + Send + Drop + 'static,
>(
    alloc: Global,
    rt: &R,
    words: &[String],
    input: &mut I,
    frames: &mut O,
    report: &mut P,
    gate: G,
) -> Ended
    ensures one_of { result.status ≤ NO_MEMORY }

    // Done, the headline: the play that was given was played to its end, and reported.
    ensures done { result.status ≡ DONE → IsDone (meaning_of_words (map string_bytes words.now)) (I.left input.old) (I.left input.new)
        result.history.entries (O.written frames.old) (O.written frames.new) (P.written report.old) (P.written report.new) }
    ensures report_calm { result.status ≡ DONE → Calm (P.faults report.old) (P.faults report.new) }
    ensures frames_flushed { (result.status ≡ DONE) ⊎ (result.status ≡ REPORT_FAULT) → O.flushed frames.new ≡ true }
    ensures report_flushed { result.status ≡ DONE → P.flushed report.new ≡ true }

    // What was given cannot be played. The words are read first, and nothing of the source if they are wrong.
    ensures wrong_words { result.status ≡ WORDS
        → (meaning_of_words (map string_bytes words.now) ≡ None) × (I.left input.new ≡ I.left input.old) }
    ensures refused { result.status ≡ REFUSED → IfSome result.refusal (λ r.
        IsRefused (meaning_of_words (map string_bytes words.now)) (I.left input.old) (I.left input.new) r) }
    ensures stuck { result.status ≡ STUCK → IfSome result.stuck (λ lines.
        IsBarred (meaning_of_words (map string_bytes words.now)) (I.left input.old) (I.left input.new) lines.0 lines.1) }
    ensures refusal { IsSome result.refusal ↔ result.status ≡ REFUSED }
    ensures stuck_lines { IsSome result.stuck ↔ result.status ≡ STUCK }

    // A fault of a stream. One of the report sink comes after a full run. One of the frame sink is its last call.
    ensures read_fault { result.status ≡ READ_FAULT → Rose (I.faults input.old) (I.faults input.new) }
    ensures read_calm { result.status ≢ READ_FAULT → Calm (I.faults input.old) (I.faults input.new) }
    ensures frame_fault { result.status ≡ FRAME_FAULT → Rose (O.faults frames.old) (O.faults frames.new) }
    ensures frame_last { result.status ≡ FRAME_FAULT → O.at_fault frames.new ≡ O.written frames.new }
    ensures frame_calm { result.status ≢ FRAME_FAULT → Calm (O.faults frames.old) (O.faults frames.new) }
    ensures report_fault { result.status ≡ REPORT_FAULT → Rose (P.faults report.old) (P.faults report.new) }
    ensures untold { result.status ≡ REPORT_FAULT
        → IsDoneUntold (meaning_of_words (map string_bytes words.now)) (I.left input.old) (I.left input.new)
        result.history.entries (O.written frames.old) (O.written frames.new) (P.written report.old) (P.written report.new) }

    // What is left if the play did not come to its end: only a fault of the frame sink cuts a picture short.
    ensures early { 1 ≤ result.status → result.status ≤ READ_FAULT
        → IsUntouched result.history.entries (O.written frames.old) (O.written frames.new) }
    ensures begun { result.status ≡ FRAME_FAULT
        → IsBegun (meaning_of_words (map string_bytes words.now)) (I.left input.old) (I.left input.new)
        PlayEnd.FrameFault result.history.entries (O.written frames.old) (O.written frames.new) }
    ensures part { result.status ≡ NO_MEMORY
        → IsUntouched result.history.entries (O.written frames.old) (O.written frames.new)
        ⊎ IsBegun (meaning_of_words (map string_bytes words.now)) (I.left input.old) (I.left input.new)
        PlayEnd.NoMemory result.history.entries (O.written frames.old) (O.written frames.new) }
    ensures part_read { TakesFront (I.left input.old) (I.left input.new) }
    ensures unread { (w : Words) (n : ℕ) → meaning_of_words (map string_bytes words.now) ≡ Some w → w.make ≡ Some n
        → I.left input.new ≡ I.left input.old }
    ensures ends { FindsEnd (meaning_of_words (map string_bytes words.now)) (I.left input.old) (I.left input.new)
        (I.ends input.old) (I.ends input.new) result.status }
    ensures stopped { result.status ≢ DONE → result.status ≢ REPORT_FAULT
        → IsStopped result.status result.refusal result.stuck
        (P.written report.old) (P.written report.new) (P.faults report.old) (P.faults report.new) }

    // Each call ends as is due, except for faults and lack of memory.
    ensures due { IsDue (meaning_of_words (map string_bytes words.now)) (I.left input.old) result.status }
    ensures made { IsDueMade (meaning_of_words (map string_bytes words.now)) result.status }
{
    match right_words(alloc, words) {
        Err(stop) => stopped(report, stop, History::new(alloc)),
        Ok(words) => match AloneWords::of(words) {
            Some(alone) => perfly_alone(alloc, rt, alone, input, frames, report, &gate),
            None => perfly_hosted(alloc, rt, words, input, frames, report, gate),
        },
    }
}
