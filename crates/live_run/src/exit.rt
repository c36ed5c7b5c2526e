//! A live run as one call, from its arguments to the status that it exits with.
ghost use Rattle.std.specs.Prelude.{◌≡◌, ◌≢◌, ◌≤◌, ◌⊎◌, ℕ, Option, true, map, drop, None, Some, Err, IfOk, IfErr};
ghost use Rattle.std.specs.String.{string_bytes};
ghost use Rattle.std.specs.Vec.Iter.{into_iter_items};
ghost use Rattle.std.specs.IoError.{error_kind};
ghost use Rattle.std.specs.Process.{exit_status};
ghost use Rattle.pf_io.specs.Causes.{Calm, Rose};
ghost use Rattle.pf_io.specs.Streams.{TakesFront};
ghost use Rattle.pf_history.specs.Logs.{Log};
ghost use Rattle.pipe_plays.specs.declared.played.PlayEnd.TheVariants as end;
ghost use Rattle.play_format.specs.declared.refusal.Refusal.{Refusal};
ghost use Rattle.program_ends.specs.Statuses.{status_of};
ghost use Rattle.program_ends.specs.Stops.{stop_of_arguments};
ghost use Rattle.program_ends.specs.declared.stop.Stop.TheVariants as stop;
ghost use Rattle.live_run.specs.LiveWords.{live_meaning};
ghost use Rattle.live_run.specs.Arguments.{meaning_of_arguments};
ghost use Rattle.live_run.specs.LiveRuns.{IsLiveDone, IsLiveRefused, IsLiveUnread, IsLiveBegun, IsLiveStopped};

use crate::ending::stopped;
use crate::source::LiveSource;
use crate::top::perfly_live;
use pf_history::History;
use pf_io::{Gate, NoMemory, Sink};
use program_ends::{
    DONE, FRAME_FAULT, NO_MEMORY, READ_FAULT, REFUSED, REPORT_FAULT, STUCK, Stop, WORDS,
};
use std::alloc::Global;
use std::env::Args;
use std::io;
use std::process::ExitCode;
use std::sync::Wait;
use std::thread::Threads;

/// Returns the words behind the program's name.
fn words_behind(alloc: Global, mut arguments: Args) -> Result<Vec<String>, NoMemory>
    ensures { IfOk result (λ words. words.items ≡ drop 1 (into_iter_items arguments)) }
{
    let _name = arguments.next();
    Ok(arguments.collect(alloc)?)
}

/// Returns the words behind the program's name, if the arguments can be read.
fn words_of(alloc: Global, arguments: io::Result<Args>) -> Result<Vec<String>, Stop>
    ensures meaning { IfOk result (λ words. live_meaning (map string_bytes words.items) ≡ meaning_of_arguments arguments) }
    ensures unread { IfErr arguments (λ error. result ≡ Err (stop_of_arguments (error_kind error))) }
    ensures why { IfErr result (λ s. ((s ≡ stop.Words) × (meaning_of_arguments arguments ≡ None)) ⊎ (s ≡ stop.NoMemory)) }
{
    Ok(words_behind(alloc, arguments?)?)
}

/// Runs the program: calls [`perfly_live`] with the words behind its name, which is the first of the arguments. Arguments
/// that cannot be read, for example since one is no text, are wrong words.
///
/// Returns the status to exit with, 0 to 7 but 3: that of [`perfly_live`].
pub fn run<
    R: Threads + Wait + Copy + Drop + Send + Sync + 'static,
    S: LiveSource,
    O: Sink,
    P: Sink,
    G: Gate + Send + Drop + 'static,
>(
    alloc: Global,
    rt: &R,
    arguments: io::Result<Args>,
    input: &mut S,
    frames: &mut O,
    report: &mut P,
    gate: G,
) -> ExitCode
    ensures one_of { exit_status result ≤ NO_MEMORY }
    ensures not_stuck { exit_status result ≢ STUCK }
    ensures unread_arguments { IfErr arguments (λ error. exit_status result ≡ status_of (stop_of_arguments (error_kind error))) }

    // Done, the headline: the commands of the text were driven to their end, and reported.
    ensures done { exit_status result ≡ DONE → (log : Log)
        × IsLiveDone (meaning_of_arguments arguments) (S.left input.old) (S.left input.new)
        log (O.written frames.old) (O.written frames.new) (P.written report.old) (P.written report.new) }
    ensures report_calm { exit_status result ≡ DONE → Calm (P.faults report.old) (P.faults report.new) }
    ensures frames_flushed { exit_status result ≡ DONE → O.flushed frames.new ≡ true }
    ensures report_flushed { exit_status result ≡ DONE → P.flushed report.new ≡ true }

    // What was given is wrong.
    ensures wrong_words { exit_status result ≡ WORDS
        → (meaning_of_arguments arguments ≡ None) × (input.new ≡ input.old) × (O.written frames.new ≡ O.written frames.old) }
    ensures refused { exit_status result ≡ REFUSED → (refusal : Refusal) × (log : Log)
        × IsLiveRefused (meaning_of_arguments arguments) (S.left input.old) (S.left input.new) refusal
        log (O.written frames.old) (O.written frames.new)
        (P.written report.old) (P.written report.new) (P.faults report.old) (P.faults report.new) }

    // A fault of a stream.
    ensures unread { exit_status result ≡ READ_FAULT → (log : Log)
        × IsLiveUnread (meaning_of_arguments arguments) (S.left input.old) (S.left input.new)
        log (O.written frames.old) (O.written frames.new)
        (P.written report.old) (P.written report.new) (P.faults report.old) (P.faults report.new) }
    ensures read_fault { exit_status result ≡ READ_FAULT → Rose (S.faults input.old) (S.faults input.new) }
    ensures read_calm { exit_status result ≤ REFUSED → Calm (S.faults input.old) (S.faults input.new) }
    ensures frame_fault { exit_status result ≡ FRAME_FAULT → Rose (O.faults frames.old) (O.faults frames.new) }
    ensures frame_last { exit_status result ≡ FRAME_FAULT → O.at_fault frames.new ≡ O.written frames.new }
    ensures frame_calm { exit_status result ≢ FRAME_FAULT → Calm (O.faults frames.old) (O.faults frames.new) }
    ensures report_fault { exit_status result ≡ REPORT_FAULT → Rose (P.faults report.old) (P.faults report.new) }

    // What is left if the run was cut off, and the message.
    ensures begun { exit_status result ≡ FRAME_FAULT → (log : Log)
        × IsLiveBegun (meaning_of_arguments arguments) (S.left input.old) (S.left input.new)
        end.FrameFault log (O.written frames.old) (O.written frames.new) }
    ensures untold { exit_status result ≡ REPORT_FAULT → (log : Log)
        × IsLiveBegun (meaning_of_arguments arguments) (S.left input.old) (S.left input.new)
        end.Done log (O.written frames.old) (O.written frames.new) }
    ensures part { exit_status result ≡ NO_MEMORY
        → ((input.new ≡ input.old) × (O.written frames.new ≡ O.written frames.old)) ⊎ ((log : Log)
        × IsLiveBegun (meaning_of_arguments arguments) (S.left input.old) (S.left input.new)
        end.NoMemory log (O.written frames.old) (O.written frames.new)) }
    ensures part_read { TakesFront (S.left input.old) (S.left input.new) }
    ensures stopped { (exit_status result ≡ WORDS) ⊎ (exit_status result ≡ FRAME_FAULT) ⊎ (exit_status result ≡ NO_MEMORY)
        → (refusal : Option Refusal) × (log : Log) × IsLiveStopped (exit_status result) refusal log
        (P.written report.old) (P.written report.new) (P.faults report.old) (P.faults report.new) }
{
    match words_of(alloc, arguments) {
        Err(stop) => ExitCode::from(stopped(report, stop, History::new(alloc)).status),
        Ok(words) => {
            let ended = perfly_live(alloc, rt, words.as_slice(), input, frames, report, gate);
            ExitCode::from(ended.status)
        }
    }
}
