//! How a live run ends.
ghost use Rattle.std.specs.Prelude.{◌≡◌, ◌≢◌, ◌⊎◌, ◌↔◌, ℕ, ◌≤◌, true, false, List, Option, None, Some, Ok, Err, IfSome, IsSome, OnOk};
ghost use Rattle.mode_hosts.specs.Lives.{LiveBlames};
ghost use Rattle.program_ends.specs.Statuses.{status_of, refusal_of};
ghost use Rattle.program_ends.specs.Messages.{message_of};
ghost use Rattle.program_ends.specs.Told.{IsTold};
ghost use Rattle.live_run.specs.declared.halt.Halt.TheVariants as halt;
ghost use Rattle.live_run.specs.Runs.{Start, MadeAt, ToldAt};
ghost use Rattle.live_run.specs.Closing.{end_of_halt, end_of_pipe, end_untold, end_at, is_quiet, TellsRest, Says, StatusBlames, EndsLive};

use crate::halt::Halt;
use crate::live::Live;
use crate::telling::Closed;
use mode_hosts::PlayEnd;
use pf_history::History;
use pf_io::{Failed, Gate, Sink};
use play_format::Refusal;
use program_ends::laws::what_is_left_is_part;
use program_ends::{
    DONE, FRAME_FAULT, READ_FAULT, REFUSED, REPORT_FAULT, Stop, refusal_of, say_why, status_of,
    write_out,
};
use std::alloc::Global;
use std::sync::Wait;
use std::thread::Threads;

/// How a call of [`perfly_live`](crate::perfly_live) ended.
#[derive(Drop)]
pub struct LiveEnded {
    /// [`DONE`](program_ends::DONE), [`WORDS`](program_ends::WORDS), [`REFUSED`](program_ends::REFUSED),
    /// [`READ_FAULT`](program_ends::READ_FAULT), [`FRAME_FAULT`](program_ends::FRAME_FAULT),
    /// [`REPORT_FAULT`] or [`NO_MEMORY`](program_ends::NO_MEMORY).
    pub status: u8,
    /// The entries, in the order in which they were made. Those that were told have left memory.
    pub history: History,
    /// At [`REFUSED`](program_ends::REFUSED) the first wrong line, and the first cause against it.
    pub refusal: Option<Refusal>,
}

/// How a run ends: its status, and what it says last, if it may say anything.
#[derive(Clone, Copy, Debug, PartialEq, Eq)]
struct End {
    status: u8,
    why: Option<Stop>,
}

/// The end of a run that stops, and says why.
fn stops(stop: Stop) -> End
    ensures status { result.status ≡ status_of stop }
    ensures why { result.why ≡ Some stop }
{
    End {
        status: status_of(stop),
        why: Some(stop),
    }
}

/// The end of a run that says nothing more.
fn silent(status: u8) -> End
    ensures { result ≡ record { status = status; why = None } }
{
    End { status, why: None }
}

/// The end of a run that reads no further, whose pipe came to its end, and which told all.
fn end_of_halt(halt: Halt) -> End
    ensures { end_of_halt halt ≡ (result.status, result.why) }
{
    match halt {
        Halt::Refused(refusal) => stops(Stop::Refused(refusal)),
        Halt::ReadFault => stops(Stop::ReadFault),
        Halt::ReportFault => silent(REPORT_FAULT),
        Halt::Untold => stops(Stop::NoMemory),
        Halt::Broken => stops(Stop::NoMemory),
    }
}

/// The end of a run which told all, by the end of its pipe and what came before.
fn end_of_pipe(played: PlayEnd, came: Result<(), Halt>) -> End
    ensures { end_of_pipe played came ≡ (result.status, result.why) }
{
    match played {
        PlayEnd::FrameFault => stops(Stop::FrameFault),
        PlayEnd::NoMemory => stops(Stop::NoMemory),
        PlayEnd::Done => match came {
            Ok(()) => silent(DONE),
            Err(halt) => end_of_halt(halt),
        },
    }
}

/// The end of a run which didn't tell all, by the end of its pipe.
fn end_untold(played: PlayEnd, halt: Halt) -> End
    ensures { end_untold played halt ≡ (result.status, result.why) }
{
    match halt {
        Halt::ReportFault => match played {
            PlayEnd::FrameFault => silent(FRAME_FAULT),
            PlayEnd::Done => silent(REPORT_FAULT),
            PlayEnd::NoMemory => silent(REPORT_FAULT),
        },
        Halt::Refused(_) | Halt::ReadFault | Halt::Untold | Halt::Broken => match played {
            PlayEnd::FrameFault => stops(Stop::FrameFault),
            PlayEnd::Done => stops(Stop::NoMemory),
            PlayEnd::NoMemory => stops(Stop::NoMemory),
        },
    }
}

/// The end of a run, by the end of its pipe, what came before, and what telling the rest came to.
fn end_at(played: PlayEnd, came: Result<(), Halt>, told: Result<(), Halt>) -> End
    ensures { end_at played came told ≡ (result.status, result.why) }
{
    match told {
        Ok(()) => end_of_pipe(played, came),
        Err(halt) => end_untold(played, halt),
    }
}

/// Tells what was not told while the pipe was open.
fn tell_rest<P: Sink>(alloc: Global, closed: &Closed, report: &mut P) -> Result<(), Halt>
    ensures rest { TellsRest closed.now.frames closed.now.told closed.now.played.history.entries closed.now.played.stats.items
        (P.written report.old) (P.written report.new) (P.faults report.old) (P.faults report.new) result }
    ensures flushed { OnOk result (P.flushed report.new ≡ true) }
{
    let mut text = Vec::new(alloc);
    closed.append_rest(alloc, &mut text)?;
    match write_out(report, text.as_slice()) {
        Ok(()) => Ok(()),
        Err(Failed) => Err(Halt::ReportFault),
    }
}

/// Whether the report sink is to get nothing more, or lines are lost.
fn is_quiet(came: Result<(), Halt>) -> bool
    ensures { result ≡ is_quiet came }
{
    match came {
        Ok(()) => false,
        Err(halt) => match halt {
            Halt::ReportFault => true,
            Halt::Untold => true,
            Halt::Refused(_) => false,
            Halt::ReadFault => false,
            Halt::Broken => false,
        },
    }
}

/// Tells what was not told, unless the report sink is to get nothing more, or lines are lost.
fn tell_unless<P: Sink>(
    alloc: Global,
    closed: &Closed,
    came: Result<(), Halt>,
    report: &mut P,
) -> Result<(), Halt>
    ensures rest { is_quiet came ≡ false
        → TellsRest closed.now.frames closed.now.told closed.now.played.history.entries closed.now.played.stats.items
        (P.written report.old) (P.written report.new) (P.faults report.old) (P.faults report.new) result }
    ensures same { is_quiet came ≡ true → result ≡ came }
    ensures none { is_quiet came ≡ true → report.new ≡ report.old }
    ensures flushed { is_quiet came ≡ false → OnOk result (P.flushed report.new ≡ true) }
{
    if is_quiet(came) {
        return came;
    }
    tell_rest(alloc, closed, report)
}

/// Stops a call, and writes why to the report sink.
pub(crate) fn stopped<P: Sink>(report: &mut P, stop: Stop, history: History) -> LiveEnded
    ensures status { result.status ≡ status_of stop }
    ensures history { result.history ≡ history }
    ensures refusal { result.refusal ≡ refusal_of stop }
    ensures told { IsTold (P.written report.old) (P.written report.new) (P.faults report.old) (P.faults report.new)
        (message_of stop) }
{
    say_why(report, stop);
    LiveEnded {
        status: status_of(stop),
        history,
        refusal: refusal_of(stop),
    }
}

/// Ends a run: says why, if it may.
fn ended<P: Sink>(report: &mut P, end: End, history: History) -> LiveEnded
    ensures says { Says end.status end.why result.status result.refusal
        (P.written report.old) (P.written report.new) (P.faults report.old) (P.faults report.new) }
    ensures silent { end.why ≡ None → report.new ≡ report.old }
    ensures history { result.history ≡ history }
{
    match end.why {
        Some(stop) => stopped(report, stop, history),
        None => LiveEnded {
            status: end.status,
            history,
            refusal: None,
        },
    }
}

/// Closes the pipe of a run that came to this, tells the rest, and says why the run ends.
pub(crate) fn close<
    R: Threads + Wait + Copy + Drop + Send + Sync + 'static,
    O: Sink,
    P: Sink,
    G: Gate + Send + Drop + 'static,
>(
    alloc: Global,
    rt: &R,
    live: Live<R, G>,
    came: Result<(), Halt>,
    frames: &mut O,
    report: &mut P,
) -> LiveEnded
    ensures one_of { (result.status ≡ DONE) ⊎ (result.status ≡ REFUSED) ⊎ ((READ_FAULT ≤ result.status) × (result.status ≤ 7)) }
    ensures ends { (s : Start) (left : Option (List ℕ)) → MadeAt came s left (O.written frames.old) live
        → ToldAt came s.report (P.written report.old) s.faults (P.faults report.old) live
        → EndsLive s left result.status result.refusal result.history.entries (O.written frames.new) (P.written report.new) (P.faults report.new) }
    ensures refusal { IsSome result.refusal ↔ result.status ≡ REFUSED }
    ensures blames { (before : ℕ)
        → LiveBlames live.pipe before (O.faults frames.old) (O.at_fault frames.old) (O.written frames.old)
        → StatusBlames result.status before (O.faults frames.new) (O.at_fault frames.new) (O.written frames.new) }
    ensures unread { result.status ≡ READ_FAULT → came ≡ Err halt.ReadFault }
    ensures read { result.status ≤ REFUSED → came ≢ Err halt.ReadFault }
    ensures frames_flushed { result.status ≡ DONE → O.flushed frames.new ≡ true }
    ensures report_flushed { result.status ≡ DONE → P.flushed report.new ≡ true }
{
    what_is_left_is_part();
    let closed = live.close(rt, alloc, frames);
    let told = tell_unless(alloc, &closed, came, report);
    let end = end_at(closed.played.end, came, told);
    ended(report, end, closed.played.history)
}
