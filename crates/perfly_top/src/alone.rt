//! perfly on one thread, as a call that may not wait.
ghost use Rattle.std.specs.Prelude.{◌≡◌, ◌≢◌, ◌↔◌, ◌⊎◌, ◌≤◌, ℕ, true, None, Some, IsSome, IfSome};
ghost use Rattle.std.specs.Io.KnownBytes.{append_known};
ghost use Rattle.pf_io.specs.Causes.{Calm, Rose};
ghost use Rattle.pf_io.specs.Streams.{TakesFront};
ghost use Rattle.play_check.specs.Stuck.{IsStuck};
ghost use Rattle.program_ends.specs.Played.{IsPart, IsPlayed};
ghost use Rattle.program_ends.specs.Told.{AddsSome};
ghost use Rattle.perfly_top.specs.Calls.{IsRefused, IsBarred, IsUntouched};
ghost use Rattle.perfly_top.specs.Program.{told, IsSummed};
ghost use Rattle.perfly_top.specs.Endings.{IsStopped, IsBegun, IsDone, IsDoneUntold, FindsEnd, IsDue, IsDueMade};
ghost use Rattle.perfly_top.specs.Setups.{is_on_one_thread, words_alone};

use crate::ending::{Ended, stopped, tell};
use crate::playing_alone::run_alone;
use crate::preparing::prepared;
use crate::setup::AloneWords;
use pf_history::History;
use pf_io::{Gate, Sink, Source};
use pipe_core::PlayEnd;
use play_format::Play;
use program_ends::laws::what_is_left_is_part;
use program_ends::{
    DONE, FRAME_FAULT, NO_MEMORY, READ_FAULT, REFUSED, REPORT_FAULT, STUCK, Stop, WORDS,
};
use program_words::{Mode, Words};
use std::alloc::Global;
use std::thread::Threads;

/// Plays what there is to play on one thread, and reports it.
fn played<R: Threads + Sync, O: Sink, P: Sink, G: Gate>(
    alloc: Global,
    rt: &R,
    play: Play,
    words: Words,
    frames: &mut O,
    report: &mut P,
    gate: &G,
) -> Ended
    requires alone { is_on_one_thread words ≡ true }
    requires can_end { ¬ IsStuck play.app play.dbase }
    requires some { 1 ≤ words.ahead }
    requires few { words.ahead ≤ 4 }
    requires stream { IfSome words.stream (λ n. (1 ≤ n) × (n ≤ 4096)) }
    ensures one_of { (result.status ≡ DONE) ⊎ (result.status ≡ FRAME_FAULT) ⊎ (result.status ≡ REPORT_FAULT)
        ⊎ (result.status ≡ NO_MEMORY) }
    ensures begun { result.status ≡ FRAME_FAULT
        → IsPart words.ahead play PlayEnd.FrameFault result.history.entries (O.written frames.old) (O.written frames.new) }
    ensures part { result.status ≡ NO_MEMORY
        → IsPart words.ahead play PlayEnd.NoMemory result.history.entries (O.written frames.old) (O.written frames.new) }
    ensures played { (result.status ≡ DONE) ⊎ (result.status ≡ REPORT_FAULT)
        → IsPlayed words.ahead play result.history.entries (O.written frames.old) (O.written frames.new) }
    ensures whole { result.status ≡ DONE → (sum : ℕ)
        × IsSummed words play result.history.entries (O.written frames.old) sum
        × (P.written report.new ≡ append_known (P.written report.old) (told words play result.history.entries sum)) }
    ensures some_told { result.status ≡ REPORT_FAULT → (sum : ℕ)
        × IsSummed words play result.history.entries (O.written frames.old) sum
        × AddsSome (P.written report.old) (P.written report.new) (told words play result.history.entries sum) }
    ensures frame_fault { result.status ≡ FRAME_FAULT → Rose (O.faults frames.old) (O.faults frames.new) }
    ensures frame_last { result.status ≡ FRAME_FAULT → O.at_fault frames.new ≡ O.written frames.new }
    ensures frame_calm { result.status ≢ FRAME_FAULT → Calm (O.faults frames.old) (O.faults frames.new) }
    ensures report_fault { result.status ≡ REPORT_FAULT → Rose (P.faults report.old) (P.faults report.new) }
    ensures report_calm { result.status ≡ DONE → Calm (P.faults report.old) (P.faults report.new) }
    ensures frames_flushed { (result.status ≡ DONE) ⊎ (result.status ≡ REPORT_FAULT) → O.flushed frames.new ≡ true }
    ensures report_flushed { result.status ≡ DONE → P.flushed report.new ≡ true }
    ensures stopped { result.status ≢ DONE → result.status ≢ REPORT_FAULT
        → IsStopped result.status result.refusal result.stuck
        (P.written report.old) (P.written report.new) (P.faults report.old) (P.faults report.new) }
    ensures no_refusal { result.refusal ≡ None }
    ensures not_stuck { result.stuck ≡ None }
{
    what_is_left_is_part();
    let run = run_alone(alloc, rt, play, words, frames, gate);
    match run.played.end {
        PlayEnd::Done => tell(alloc, words, run, report),
        PlayEnd::FrameFault => stopped(report, Stop::FrameFault, run.played.history),
        PlayEnd::NoMemory => stopped(report, Stop::NoMemory, run.played.history),
    }
}

/// Plays the play of a source with all stages on one thread: [`perfly`](crate::perfly), for words that ask for no more.
/// It may not wait, so it returns if the calls of its source, sinks and gate do. A picture may still be drawn by several
/// threads, and a long text read by several: these are joined, and wait for nobody.
///
/// Returns what [`perfly`](crate::perfly) returns, by the same clauses, about the words that `words` stands for. The
/// status is never [`WORDS`].
pub fn perfly_alone<R: Threads + Sync, I: Source, O: Sink, P: Sink, G: Gate>(
    alloc: Global,
    rt: &R,
    words: AloneWords,
    input: &mut I,
    frames: &mut O,
    report: &mut P,
    gate: &G,
) -> Ended
    requires some { 1 ≤ words.ahead }
    requires few { words.ahead ≤ 4 }
    requires low { IfSome words.make (λ n. 1 ≤ n) }
    requires high { IfSome words.make (λ n. n ≤ 256) }
    ensures one_of { result.status ≤ NO_MEMORY }

    // Done, the headline: the play that was given was played to its end, and reported.
    ensures done { result.status ≡ DONE → IsDone (Some (words_alone words)) (I.left input.old) (I.left input.new)
        result.history.entries (O.written frames.old) (O.written frames.new) (P.written report.old) (P.written report.new) }
    ensures report_calm { result.status ≡ DONE → Calm (P.faults report.old) (P.faults report.new) }
    ensures frames_flushed { (result.status ≡ DONE) ⊎ (result.status ≡ REPORT_FAULT) → O.flushed frames.new ≡ true }
    ensures report_flushed { result.status ≡ DONE → P.flushed report.new ≡ true }

    // What was given cannot be played.
    ensures right_words { result.status ≢ WORDS }
    ensures refused { result.status ≡ REFUSED → IfSome result.refusal (λ r.
        IsRefused (Some (words_alone words)) (I.left input.old) (I.left input.new) r) }
    ensures stuck { result.status ≡ STUCK → IfSome result.stuck (λ lines.
        IsBarred (Some (words_alone words)) (I.left input.old) (I.left input.new) lines.0 lines.1) }
    ensures refusal { IsSome result.refusal ↔ result.status ≡ REFUSED }
    ensures stuck_lines { IsSome result.stuck ↔ result.status ≡ STUCK }

    // A fault of a stream. One of the report sink comes after a full run. One of the frame sink is its last call.
    ensures read_fault { result.status ≡ READ_FAULT → Rose (I.faults input.old) (I.faults input.new) }
    ensures read_calm { result.status ≢ READ_FAULT → Calm (I.faults input.old) (I.faults input.new) }
    ensures frame_fault { result.status ≡ FRAME_FAULT → Rose (O.faults frames.old) (O.faults frames.new) }
    ensures frame_last { result.status ≡ FRAME_FAULT → O.at_fault frames.new ≡ O.written frames.new }
    ensures frame_calm { result.status ≢ FRAME_FAULT → Calm (O.faults frames.old) (O.faults frames.new) }
    ensures report_fault { result.status ≡ REPORT_FAULT → Rose (P.faults report.old) (P.faults report.new) }
    ensures untold { result.status ≡ REPORT_FAULT
        → IsDoneUntold (Some (words_alone words)) (I.left input.old) (I.left input.new)
        result.history.entries (O.written frames.old) (O.written frames.new) (P.written report.old) (P.written report.new) }

    // What is left if the play did not come to its end: only a fault of the frame sink cuts a picture short.
    ensures early { 1 ≤ result.status → result.status ≤ READ_FAULT
        → IsUntouched result.history.entries (O.written frames.old) (O.written frames.new) }
    ensures begun { result.status ≡ FRAME_FAULT
        → IsBegun (Some (words_alone words)) (I.left input.old) (I.left input.new)
        PlayEnd.FrameFault result.history.entries (O.written frames.old) (O.written frames.new) }
    ensures part { result.status ≡ NO_MEMORY
        → IsUntouched result.history.entries (O.written frames.old) (O.written frames.new)
        ⊎ IsBegun (Some (words_alone words)) (I.left input.old) (I.left input.new)
        PlayEnd.NoMemory result.history.entries (O.written frames.old) (O.written frames.new) }
    ensures part_read { TakesFront (I.left input.old) (I.left input.new) }
    ensures unread { (n : ℕ) → words.make ≡ Some n → I.left input.new ≡ I.left input.old }
    ensures ends { FindsEnd (Some (words_alone words)) (I.left input.old) (I.left input.new)
        (I.ends input.old) (I.ends input.new) result.status }
    ensures stopped { result.status ≢ DONE → result.status ≢ REPORT_FAULT
        → IsStopped result.status result.refusal result.stuck
        (P.written report.old) (P.written report.new) (P.faults report.old) (P.faults report.new) }

    // Each call ends as is due, except for faults and lack of memory.
    ensures due { IsDue (Some (words_alone words)) (I.left input.old) result.status }
    ensures made { IsDueMade (Some (words_alone words)) result.status }
{
    let words = Words {
        mode: Mode::Appculldraw,
        dbase: false,
        ahead: words.ahead,
        make: words.make,
        probe: None,
        stream: None,
    };
    match prepared(alloc, rt, words, input) {
        Err(stop) => stopped(report, stop, History::new(alloc)),
        Ok(play) => played(alloc, rt, play, words, frames, report, gate),
    }
}
