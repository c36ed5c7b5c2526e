//! The messages on the report sink.
ghost use Rattle.std.specs.Prelude.{◌≡◌};
ghost use Rattle.std.specs.List.{flat_map};
ghost use Rattle.play_format.specs.Messages.{cause_text};
ghost use Rattle.program_ends.specs.Messages.{message_of};
ghost use Rattle.program_ends.specs.Told.{IsTold};
ghost use Rattle.program_ends.specs.declared.stop.Stop.TheVariants as stop;

use crate::stop::Stop;
use itoa::Buffer;
use pf_io::{Sink, write_all};
use play_format::{Refusal, Why};

/// Returns the name of a cause.
fn cause(why: Why) -> &'static [u8]
    ensures { result.now ≡ cause_text why }
{
    match why {
        Why::Version => b"Version",
        Why::Command => b"Command",
        Why::Fields => b"Fields",
        Why::Number => b"Number",
        Why::Range => b"Range",
        Why::Count => b"Count",
        Why::Length => b"Length",
    }
}

/// Writes pieces one after the other, up to a fault.
fn say<R: Sink>(report: &mut R, pieces: &[&[u8]])
    ensures { IsTold (R.written report.old) (R.written report.new) (R.faults report.old) (R.faults report.new)
        (flat_map (λ piece. piece.now) pieces.now) }
{
    for piece in pieces {
        if write_all(report, piece).is_err() {
            return;
        }
    }
}

/// Writes which line is refused, and why.
fn say_refusal<R: Sink>(report: &mut R, refusal: Refusal)
    ensures { IsTold (R.written report.old) (R.written report.new) (R.faults report.old) (R.faults report.new)
        (message_of (stop.Refused refusal)) }
{
    let mut line = Buffer::new();
    let line = line.format(refusal.line).as_bytes();
    say(
        report,
        &[b"perfly: line ", line, b": ", cause(refusal.why), b"\n"],
    );
}

/// Writes at which lines a play is stuck.
fn say_stuck<R: Sink>(report: &mut R, app: u32, dbase: u32)
    ensures { IsTold (R.written report.old) (R.written report.new) (R.faults report.old) (R.faults report.new)
        (message_of (stop.Stuck app dbase)) }
{
    let (mut wait, mut await_line) = (Buffer::new(), Buffer::new());
    let wait = wait.format(app).as_bytes();
    let await_line = await_line.format(dbase).as_bytes();
    say(
        report,
        &[b"perfly: stuck app ", wait, b" dbase ", await_line, b"\n"],
    );
}

/// Writes why a call ends. A fault cuts the message short.
pub fn say_why<R: Sink>(report: &mut R, stop: Stop)
    ensures { IsTold (R.written report.old) (R.written report.new) (R.faults report.old) (R.faults report.new)
        (message_of stop) }
{
    match stop {
        Stop::Words => say(report, &[b"perfly: words\n"]),
        Stop::Refused(refusal) => say_refusal(report, refusal),
        Stop::Stuck(app, dbase) => say_stuck(report, app, dbase),
        Stop::ReadFault => say(report, &[b"perfly: read fault\n"]),
        Stop::FrameFault => say(report, &[b"perfly: frame fault\n"]),
        Stop::NoMemory => say(report, &[b"perfly: no memory\n"]),
    }
}
