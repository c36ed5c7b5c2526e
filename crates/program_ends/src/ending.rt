//! The statuses, and the text that a call ends with.
ghost use Rattle.std.specs.Prelude.{◌≡◌, ◌⊎◌, true, OnOk, OnErr};
ghost use Rattle.std.specs.Io.KnownBytes.{append_known};
ghost use Rattle.pf_io.specs.Causes.{Calm, Rose};
ghost use Rattle.program_ends.specs.Statuses.{status_of, refusal_of, stuck_of};
ghost use Rattle.program_ends.specs.Told.{IsTold, AddsSome};

use crate::stop::Stop;
use pf_io::{Failed, Sink, write_all};
use play_format::Refusal;

/// Status: the play was played to its end, and reported.
pub const DONE: u8 = 0;
/// Status: the arguments have no meaning.
pub const WORDS: u8 = 1;
/// Status: what was read is no play.
pub const REFUSED: u8 = 2;
/// Status: the play could never end.
pub const STUCK: u8 = 3;
/// Status: the source reported a fault.
pub const READ_FAULT: u8 = 4;
/// Status: the frame sink reported a fault.
pub const FRAME_FAULT: u8 = 5;
/// Status: the report sink reported a fault, after a full run.
pub const REPORT_FAULT: u8 = 6;
/// Status: out of memory.
pub const NO_MEMORY: u8 = 7;

/// Returns the status of a call that stops.
pub fn status_of(stop: Stop) -> u8
    ensures { result ≡ status_of stop }
{
    match stop {
        Stop::Words => WORDS,
        Stop::Refused(_) => REFUSED,
        Stop::Stuck(_, _) => STUCK,
        Stop::ReadFault => READ_FAULT,
        Stop::FrameFault => FRAME_FAULT,
        Stop::NoMemory => NO_MEMORY,
    }
}

/// Returns the refusal of a call that stops.
pub fn refusal_of(stop: Stop) -> Option<Refusal>
    ensures { result ≡ refusal_of stop }
{
    match stop {
        Stop::Refused(refusal) => Some(refusal),
        _ => None,
    }
}

/// Returns the lines at which the play is stuck for which a call stops.
pub fn stuck_of(stop: Stop) -> Option<(u32, u32)>
    ensures { result ≡ stuck_of stop }
{
    match stop {
        Stop::Stuck(app, dbase) => Some((app, dbase)),
        _ => None,
    }
}

/// Writes a text, and flushes the sink.
pub fn write_out<P: Sink>(report: &mut P, text: &[u8]) -> Result<(), Failed>
    ensures told { IsTold (P.written report.old) (P.written report.new) (P.faults report.old) (P.faults report.new) text.now }
    ensures calm { OnOk result (Calm (P.faults report.old) (P.faults report.new)) }
    ensures whole { OnOk result (P.written report.new ≡ append_known (P.written report.old) text.now) }
    ensures flushed { OnOk result (P.flushed report.new ≡ true) }
    ensures fault { OnErr result (Rose (P.faults report.old) (P.faults report.new)) }
{
    match write_all(report, text) {
        Ok(()) => report.flush(),
        Err(_) => Err(Failed),
    }
}

/// Writes a text. Returns the status of a call that ends so.
pub fn deliver<P: Sink>(report: &mut P, text: &[u8]) -> u8
    ensures one_of { (result ≡ DONE) ⊎ (result ≡ REPORT_FAULT) }
    ensures whole { result ≡ DONE → P.written report.new ≡ append_known (P.written report.old) text.now }
    ensures some { result ≡ REPORT_FAULT → AddsSome (P.written report.old) (P.written report.new) text.now }
    ensures calm { result ≡ DONE → Calm (P.faults report.old) (P.faults report.new) }
    ensures flushed { result ≡ DONE → P.flushed report.new ≡ true }
    ensures fault { result ≡ REPORT_FAULT → Rose (P.faults report.old) (P.faults report.new) }
{
    match write_out(report, text) {
        Ok(()) => DONE,
        Err(Failed) => REPORT_FAULT,
    }
}
