//! How a call ends, and what it writes then.
ghost use Rattle.std.specs.Prelude.{◌≡◌, ◌⊎◌, true, None};
ghost use Rattle.std.specs.Io.KnownBytes.{append_known};
ghost use Rattle.pf_io.specs.Causes.{Calm, Rose};
ghost use Rattle.play_format.specs.Plays.{Script};
ghost use Rattle.program_ends.specs.Messages.{message_of};
ghost use Rattle.program_ends.specs.Statuses.{status_of, refusal_of, stuck_of};
ghost use Rattle.program_ends.specs.Told.{IsTold, AddsSome};
ghost use Rattle.perfly_top.specs.Endings.{IsStopped};
ghost use Rattle.perfly_top.specs.Program.{told};
ghost use Rattle.perfly_top.specs.Runs.{HasNumbers, HasAnswers};

use crate::playing::{Run, telling};
use pf_history::History;
use pf_io::{NoMemory, Sink};
use play_format::Refusal;
use program_ends::{
    DONE, NO_MEMORY, REPORT_FAULT, Stop, deliver, refusal_of, say_why, status_of, stuck_of,
};
use program_words::Words;
use std::alloc::Global;

/// How a call of [`perfly`](crate::perfly) ended.
#[derive(Drop)]
pub struct Ended {
    /// [`DONE`], [`WORDS`](crate::WORDS), [`REFUSED`](crate::REFUSED), [`STUCK`](crate::STUCK),
    /// [`READ_FAULT`](crate::READ_FAULT), [`FRAME_FAULT`](crate::FRAME_FAULT), [`REPORT_FAULT`] or [`NO_MEMORY`].
    pub status: u8,
    /// The entries of the play, in the order in which they were made.
    pub history: History,
    /// At [`REFUSED`](crate::REFUSED) the first wrong line, and the first cause against it.
    pub refusal: Option<Refusal>,
    /// At [`STUCK`](crate::STUCK) the lines of the first `wait` and of the first `await` that cannot be passed, 0 if
    /// there is none.
    pub stuck: Option<(u32, u32)>,
}

/// Stops a call, and writes why to the report sink.
pub(crate) fn stopped<P: Sink>(report: &mut P, stop: Stop, history: History) -> Ended
    ensures status { result.status ≡ status_of stop }
    ensures history { result.history ≡ history }
    ensures refusal { result.refusal ≡ refusal_of stop }
    ensures stuck { result.stuck ≡ stuck_of stop }
    ensures told { IsTold (P.written report.old) (P.written report.new) (P.faults report.old) (P.faults report.new)
        (message_of stop) }
{
    say_why(report, stop);
    Ended {
        status: status_of(stop),
        history,
        refusal: refusal_of(stop),
        stuck: stuck_of(stop),
    }
}

/// Reports a play that came to its end.
pub(crate) fn tell<P: Sink>(alloc: Global, words: Words, run: Run, report: &mut P) -> Ended
    ensures one_of { (result.status ≡ DONE) ⊎ (result.status ≡ REPORT_FAULT) ⊎ (result.status ≡ NO_MEMORY) }
    ensures history { result.history ≡ run.played.history }
    ensures whole { (play : Script) → HasNumbers play run.played.stats.items run.played.history.entries
        → HasAnswers words play run.played.probes.items run.played.history.entries
        → result.status ≡ DONE
        → P.written report.new ≡ append_known (P.written report.old) (told words play run.played.history.entries run.sum) }
    ensures some { (play : Script) → HasNumbers play run.played.stats.items run.played.history.entries
        → HasAnswers words play run.played.probes.items run.played.history.entries
        → result.status ≡ REPORT_FAULT
        → AddsSome (P.written report.old) (P.written report.new) (told words play run.played.history.entries run.sum) }
    ensures calm { result.status ≡ DONE → Calm (P.faults report.old) (P.faults report.new) }
    ensures flushed { result.status ≡ DONE → P.flushed report.new ≡ true }
    ensures fault { result.status ≡ REPORT_FAULT → Rose (P.faults report.old) (P.faults report.new) }
    ensures stopped { result.status ≡ NO_MEMORY → IsStopped result.status result.refusal result.stuck
        (P.written report.old) (P.written report.new) (P.faults report.old) (P.faults report.new) }
    ensures no_refusal { result.refusal ≡ None }
    ensures not_stuck { result.stuck ≡ None }
{
    match telling(alloc, words, &run) {
        Err(NoMemory) => stopped(report, Stop::NoMemory, run.played.history),
        Ok(text) => {
            let status = deliver(report, text.as_slice());
            Ended {
                status,
                history: run.played.history,
                refusal: None,
                stuck: None,
            }
        }
    }
}
