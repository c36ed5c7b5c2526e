//! The program as one call, from its arguments to the status that it exits with.
ghost use Rattle.std.specs.Prelude.{◌≡◌, ◌≢◌, ◌≤◌, ◌⊎◌, ℕ, true, map, drop, None, Some, Err, IfOk, IfErr};
ghost use Rattle.std.specs.String.{string_bytes};
ghost use Rattle.std.specs.Vec.Iter.{into_iter_items};
ghost use Rattle.std.specs.IoError.{error_kind};
ghost use Rattle.std.specs.Process.{exit_status};
ghost use Rattle.pf_io.specs.Causes.{Calm, Rose};
ghost use Rattle.pf_io.specs.Streams.{TakesFront};
ghost use Rattle.pf_history.specs.Logs.{Log};
ghost use Rattle.pipe_plays.specs.declared.played.PlayEnd.TheVariants as end;
ghost use Rattle.play_format.specs.declared.refusal.Refusal.{Refusal};
ghost use Rattle.program_words.specs.declared.words.Words.{Words};
ghost use Rattle.program_words.specs.Meaning.{meaning_of_words};
ghost use Rattle.program_ends.specs.Messages.{message_of};
ghost use Rattle.program_ends.specs.Statuses.{status_of};
ghost use Rattle.program_ends.specs.Stops.{stop_of_arguments};
ghost use Rattle.program_ends.specs.Told.{IsTold};
ghost use Rattle.program_ends.specs.declared.stop.Stop.{Stop};
ghost use Rattle.program_ends.specs.declared.stop.Stop.TheVariants as stop;
ghost use Rattle.perfly_top.specs.Arguments.{meaning_of_arguments};
ghost use Rattle.perfly_top.specs.Calls.{IsRefused, IsBarred};
ghost use Rattle.perfly_top.specs.Endings.{IsBegun, IsDone, IsDoneUntold, FindsEnd, IsDue, IsDueMade};

use crate::ending::stopped;
use crate::top::perfly;
use pf_history::History;
use pf_io::{Gate, NoMemory, Sink, Source};
use program_ends::{
    DONE, FRAME_FAULT, NO_MEMORY, READ_FAULT, REFUSED, REPORT_FAULT, STUCK, Stop, WORDS,
};
use std::alloc::Global;
use std::env::Args;
use std::io;
use std::process::ExitCode;
use std::sync::Wait;
use std::thread::Threads;

/// Returns the words behind the program's name.
fn words_behind(alloc: Global, mut arguments: Args) -> Result<Vec<String>, NoMemory>
    ensures { IfOk result (λ words. words.items ≡ drop 1 (into_iter_items arguments)) }
{
    let _name = arguments.next();
    Ok(arguments.collect(alloc)?)
}

/// Returns the words behind the program's name, if the arguments can be read.
fn words_of(alloc: Global, arguments: io::Result<Args>) -> Result<Vec<String>, Stop>
    ensures meaning { IfOk result (λ words. meaning_of_words (map string_bytes words.items) ≡ meaning_of_arguments arguments) }
    ensures unread { IfErr arguments (λ error. result ≡ Err (stop_of_arguments (error_kind error))) }
    ensures why { IfErr result (λ s. ((s ≡ stop.Words) × (meaning_of_arguments arguments ≡ None)) ⊎ (s ≡ stop.NoMemory)) }
{
    Ok(words_behind(alloc, arguments?)?)
}

/// Runs the program: calls [`perfly`] with the words behind its name, which is the first of the arguments. Arguments
/// that cannot be read, for example since one is no text, are wrong words.
///
/// Returns the status to exit with, 0 to 7: that of [`perfly`].
pub fn run<
    R: Threads + Wait + Copy + Drop + Send + Sync + 'static,
    I: Source,
    O: Sink,
    P: Sink,
    G: Gate + Send + Drop + 'static,
>(
    alloc: Global,
    rt: &R,
    arguments: io::Result<Args>,
    input: &mut I,
    frames: &mut O,
    report: &mut P,
    gate: G,
) -> ExitCode
    ensures one_of { exit_status result ≤ NO_MEMORY }
    ensures unread_arguments { IfErr arguments (λ error. exit_status result ≡ status_of (stop_of_arguments (error_kind error))) }

    // Done, the headline: the play that was given was played to its end, and reported.
    ensures done { exit_status result ≡ DONE → (log : Log)
        × IsDone (meaning_of_arguments arguments) (I.left input.old) (I.left input.new)
        log (O.written frames.old) (O.written frames.new) (P.written report.old) (P.written report.new) }
    ensures report_calm { exit_status result ≡ DONE → Calm (P.faults report.old) (P.faults report.new) }
    ensures frames_flushed { (exit_status result ≡ DONE) ⊎ (exit_status result ≡ REPORT_FAULT) → O.flushed frames.new ≡ true }
    ensures report_flushed { exit_status result ≡ DONE → P.flushed report.new ≡ true }

    // What was given cannot be played.
    ensures wrong_words { exit_status result ≡ WORDS
        → (meaning_of_arguments arguments ≡ None) × (I.left input.new ≡ I.left input.old) }
    ensures refused { exit_status result ≡ REFUSED → (refusal : Refusal)
        × IsRefused (meaning_of_arguments arguments) (I.left input.old) (I.left input.new) refusal
        × IsTold (P.written report.old) (P.written report.new) (P.faults report.old) (P.faults report.new)
        (message_of (stop.Refused refusal)) }
    ensures stuck { exit_status result ≡ STUCK → (app dbase : ℕ)
        × IsBarred (meaning_of_arguments arguments) (I.left input.old) (I.left input.new) app dbase
        × IsTold (P.written report.old) (P.written report.new) (P.faults report.old) (P.faults report.new)
        (message_of (stop.Stuck app dbase)) }

    // A fault of a stream.
    ensures read_fault { exit_status result ≡ READ_FAULT → Rose (I.faults input.old) (I.faults input.new) }
    ensures read_calm { exit_status result ≢ READ_FAULT → Calm (I.faults input.old) (I.faults input.new) }
    ensures frame_fault { exit_status result ≡ FRAME_FAULT → Rose (O.faults frames.old) (O.faults frames.new) }
    ensures frame_last { exit_status result ≡ FRAME_FAULT → O.at_fault frames.new ≡ O.written frames.new }
    ensures frame_calm { exit_status result ≢ FRAME_FAULT → Calm (O.faults frames.old) (O.faults frames.new) }
    ensures report_fault { exit_status result ≡ REPORT_FAULT → Rose (P.faults report.old) (P.faults report.new) }
    ensures untold { exit_status result ≡ REPORT_FAULT → (log : Log)
        × IsDoneUntold (meaning_of_arguments arguments) (I.left input.old) (I.left input.new)
        log (O.written frames.old) (O.written frames.new) (P.written report.old) (P.written report.new) }

    // What is left if the play did not come to its end, and the message.
    ensures early { 1 ≤ exit_status result → exit_status result ≤ READ_FAULT → O.written frames.new ≡ O.written frames.old }
    ensures begun { exit_status result ≡ FRAME_FAULT → (log : Log)
        × IsBegun (meaning_of_arguments arguments) (I.left input.old) (I.left input.new)
        end.FrameFault log (O.written frames.old) (O.written frames.new) }
    ensures part { exit_status result ≡ NO_MEMORY → (O.written frames.new ≡ O.written frames.old) ⊎ ((log : Log)
        × IsBegun (meaning_of_arguments arguments) (I.left input.old) (I.left input.new)
        end.NoMemory log (O.written frames.old) (O.written frames.new)) }
    ensures part_read { TakesFront (I.left input.old) (I.left input.new) }
    ensures unread { (w : Words) (n : ℕ) → meaning_of_arguments arguments ≡ Some w → w.make ≡ Some n
        → I.left input.new ≡ I.left input.old }
    ensures ends { FindsEnd (meaning_of_arguments arguments) (I.left input.old) (I.left input.new)
        (I.ends input.old) (I.ends input.new) (exit_status result) }
    ensures message { exit_status result ≢ DONE → exit_status result ≢ REPORT_FAULT → (why : Stop)
        × (exit_status result ≡ status_of why)
        × IsTold (P.written report.old) (P.written report.new) (P.faults report.old) (P.faults report.new) (message_of why) }

    // Each call ends as is due, except for faults and lack of memory.
    ensures due { IsDue (meaning_of_arguments arguments) (I.left input.old) (exit_status result) }
    ensures made { IsDueMade (meaning_of_arguments arguments) (exit_status result) }
{
    match words_of(alloc, arguments) {
        Err(stop) => ExitCode::from(stopped(report, stop, History::new(alloc)).status),
        Ok(words) => {
            let ended = perfly(alloc, rt, words.as_slice(), input, frames, report, gate);
            ExitCode::from(ended.status)
        }
    }
}
