//! The whole of a live run as one call.
ghost use Rattle.std.specs.Prelude.{◌≡◌, ◌≢◌, ◌↔◌, ◌⊎◌, ◌≤◌, ℕ, List, Option, true, false, map, None, Some, IsSome, IfSome};
ghost use Rattle.std.specs.String.{string_bytes};
ghost use Rattle.pf_io.specs.Causes.{Calm, Rose};
ghost use Rattle.pf_io.specs.Streams.{TakesFront};
ghost use Rattle.live_run.specs.LiveWords.{live_meaning};
ghost use Rattle.live_run.specs.LiveRuns.{IsUnopened, IsLiveDone, IsLiveRefused, IsLiveUnread, IsLiveBegun, IsLiveStopped};
ghost use Rattle.live_run.specs.Closing.{StatusBlames, StatusReads, EndsLive};

use crate::driving::{begin, drive};
use crate::ending::{LiveEnded, close, stopped};
use crate::halt::stop_of;
use crate::reading::Reading;
use crate::setup::live_setup;
use crate::source::LiveSource;
use mode_hosts::{PlayEnd, Setup};
use pf_history::History;
use pf_io::{Gate, Sink};
use program_ends::{
    DONE, FRAME_FAULT, NO_MEMORY, READ_FAULT, REFUSED, REPORT_FAULT, STUCK, Stop, WORDS,
};
use std::alloc::Global;
use std::sync::Wait;
use std::thread::Threads;

/// Plays the live text of a source, as this setup asks for it: [`perfly_live`] behind the reading of its words.
fn play_live<
    R: Threads + Wait + Copy + Drop + Send + Sync + 'static,
    S: LiveSource,
    O: Sink,
    P: Sink,
    G: Gate + Send + Drop + 'static,
>(
    alloc: Global,
    rt: &R,
    setup: &Setup,
    input: &mut S,
    frames: &mut O,
    report: &mut P,
    gate: G,
) -> LiveEnded
    requires at_least_one { 1 ≤ setup.now.ahead }
    requires at_most_four { setup.now.ahead ≤ 4 }
    requires stream { IfSome setup.now.stream (λ n. (1 ≤ n) × (n ≤ 4096)) }
    requires here { setup.now.dbase ≡ false }
    ensures one_of { (result.status ≡ DONE) ⊎ (result.status ≡ REFUSED) ⊎ ((READ_FAULT ≤ result.status) × (result.status ≤ NO_MEMORY)) }
    ensures ends { EndsLive (record {
      setup = setup.now;
      left = S.left input.old;
      frames = O.written frames.old;
      report = P.written report.old;
      faults = P.faults report.old;
    }) (S.left input.new) result.status result.refusal result.history.entries
        (O.written frames.new) (P.written report.new) (P.faults report.new) }
    ensures refusal { IsSome result.refusal ↔ result.status ≡ REFUSED }
    ensures blames { StatusBlames result.status (O.faults frames.old) (O.faults frames.new) (O.at_fault frames.new) (O.written frames.new) }
    ensures reads { StatusReads result.status (S.faults input.old) (S.faults input.new) }
    ensures frames_flushed { result.status ≡ DONE → O.flushed frames.new ≡ true }
    ensures report_flushed { result.status ≡ DONE → P.flushed report.new ≡ true }
    ensures part_read { TakesFront (S.left input.old) (S.left input.new) }
{
    let Ok(mut reading) = Reading::new(alloc) else {
        return stopped(report, Stop::NoMemory, History::new(alloc));
    };
    match begin(alloc, rt, setup, gate, &mut reading, input) {
        Err(halt) => stopped(report, stop_of(halt), History::new(alloc)),
        Ok(mut live) => {
            let came = drive(alloc, rt, &mut live, &mut reading, input, frames, report);
            close(alloc, rt, live, came, frames, report)
        }
    }
}

/// Plays the live text of a source while it comes, as `words`, the arguments behind the program's name, say. It reads the
/// source only when what it read so far is settled: all commands are made, in the order of the text, the picture of each frame
/// is written to `frames`, a line for each entry and each frame to `report`, and both are flushed. What comes in one read may
/// overlap.
///
/// The stages pass `gate` before each frame and each merge. The caller's thread alone uses the source and the two sinks. The call
/// waits for other threads, as the words divide the stages.
///
/// Returns the status with the history. The status is [`WORDS`] if the words have no meaning, and [`REFUSED`] if a line is wrong.
/// It is [`READ_FAULT`], [`FRAME_FAULT`] or [`REPORT_FAULT`] only if that stream reported a fault, [`NO_MEMORY`] if memory ran
/// out, and else [`DONE`]. At `REFUSED` and `READ_FAULT` the commands before are settled, and the pipe is closed, before the
/// message comes.
pub fn perfly_live<
    R: Threads + Wait + Copy + Drop + Send + Sync + 'static,
    S: LiveSource,
    O: Sink,
    P: Sink,
    G: Gate + Send + Drop + 'static,
>(
    alloc: Global,
    rt: &R,
    words: &[String],
    input: &mut S,
    frames: &mut O,
    report: &mut P,
    gate: G,
) -> LiveEnded
    ensures one_of { result.status ≤ NO_MEMORY }
    ensures not_stuck { result.status ≢ STUCK }

    // Done, the headline: the commands of the text were driven to their end, and reported.
    ensures done { result.status ≡ DONE → IsLiveDone (live_meaning (map string_bytes words.now)) (S.left input.old) (S.left input.new)
        result.history.entries (O.written frames.old) (O.written frames.new) (P.written report.old) (P.written report.new) }
    ensures report_calm { result.status ≡ DONE → Calm (P.faults report.old) (P.faults report.new) }
    ensures frames_flushed { result.status ≡ DONE → O.flushed frames.new ≡ true }
    ensures report_flushed { result.status ≡ DONE → P.flushed report.new ≡ true }

    // What was given is wrong. The words are read first, and nothing of the source if they are wrong.
    ensures wrong_words { result.status ≡ WORDS
        → (live_meaning (map string_bytes words.now) ≡ None) × (input.new ≡ input.old)
        × IsUnopened result.history.entries (O.written frames.old) (O.written frames.new) }
    ensures refused { result.status ≡ REFUSED → IfSome result.refusal (λ r.
        IsLiveRefused (live_meaning (map string_bytes words.now)) (S.left input.old) (S.left input.new) r
        result.history.entries (O.written frames.old) (O.written frames.new)
        (P.written report.old) (P.written report.new) (P.faults report.old) (P.faults report.new)) }
    ensures refusal { IsSome result.refusal ↔ result.status ≡ REFUSED }

    // A fault of a stream. One of the frame sink is its last call.
    ensures unread { result.status ≡ READ_FAULT
        → IsLiveUnread (live_meaning (map string_bytes words.now)) (S.left input.old) (S.left input.new)
        result.history.entries (O.written frames.old) (O.written frames.new)
        (P.written report.old) (P.written report.new) (P.faults report.old) (P.faults report.new) }
    ensures read_fault { result.status ≡ READ_FAULT → Rose (S.faults input.old) (S.faults input.new) }
    ensures read_calm { result.status ≤ REFUSED → Calm (S.faults input.old) (S.faults input.new) }
    ensures read_counts { Calm (S.faults input.old) (S.faults input.new) ⊎ Rose (S.faults input.old) (S.faults input.new) }
    ensures frame_fault { result.status ≡ FRAME_FAULT → Rose (O.faults frames.old) (O.faults frames.new) }
    ensures frame_last { result.status ≡ FRAME_FAULT → O.at_fault frames.new ≡ O.written frames.new }
    ensures frame_calm { result.status ≢ FRAME_FAULT → Calm (O.faults frames.old) (O.faults frames.new) }
    ensures report_fault { result.status ≡ REPORT_FAULT → Rose (P.faults report.old) (P.faults report.new) }

    // What is left if the run was cut off: only a fault of the frame sink cuts a picture short.
    ensures begun { result.status ≡ FRAME_FAULT
        → IsLiveBegun (live_meaning (map string_bytes words.now)) (S.left input.old) (S.left input.new)
        PlayEnd.FrameFault result.history.entries (O.written frames.old) (O.written frames.new) }
    ensures untold { result.status ≡ REPORT_FAULT
        → IsLiveBegun (live_meaning (map string_bytes words.now)) (S.left input.old) (S.left input.new)
        PlayEnd.Done result.history.entries (O.written frames.old) (O.written frames.new) }
    ensures part { result.status ≡ NO_MEMORY
        → ((input.new ≡ input.old) × IsUnopened result.history.entries (O.written frames.old) (O.written frames.new))
        ⊎ IsLiveBegun (live_meaning (map string_bytes words.now)) (S.left input.old) (S.left input.new)
        PlayEnd.NoMemory result.history.entries (O.written frames.old) (O.written frames.new) }
    ensures part_read { TakesFront (S.left input.old) (S.left input.new) }
    ensures stopped { (result.status ≡ WORDS) ⊎ (result.status ≡ FRAME_FAULT) ⊎ (result.status ≡ NO_MEMORY)
        → IsLiveStopped result.status result.refusal result.history.entries
        (P.written report.old) (P.written report.new) (P.faults report.old) (P.faults report.new) }
{
    match live_setup(alloc, words) {
        Err(stop) => stopped(report, stop, History::new(alloc)),
        Ok(setup) => play_live(alloc, rt, &setup, input, frames, report, gate),
    }
}
