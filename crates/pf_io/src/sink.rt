//! Where bytes go to.
ghost use Rattle.std.specs.Prelude.{◌≡◌, ℕ, ◌<◌, ◌≤◌, Bool, List, Option, length, take, IfOk, IfErr, OnOk, OnErr};
ghost use Rattle.std.specs.Io.KnownBytes.{append_known};
ghost use Rattle.pf_io.specs.Causes.{HasCause};
ghost use Rattle.pf_io.specs.Streams.{Writes, MarksFault, AppendsFront, flushed_after_write, flushed_after_flush};

use crate::Failed;
use std::error::Error;
use std::fmt;

/// A sink of bytes.
pub trait Sink {
    // The bytes written, where it tells them.
    ghost written: { Self → Option (List ℕ) };

    // How many faults it has reported, up to the last value of the count.
    ghost faults: { Self → ℕ };

    // The bytes that were written at its last fault, where it tells them.
    ghost at_fault: { Self → Option (List ℕ) };

    // Whether its last call that succeeded was a flush.
    ghost flushed: { Self → Bool };

    /// Writes the first bytes of `piece`, which isn't empty, and answers their number, 1 at least. A device that takes
    /// nothing of a piece is a fault.
    fn write(&mut self, piece: &[u8]) -> Result<usize, Failed>
        requires { 0 < length piece.now }
        ensures bound { IfOk result (λ n. (0 < n) × (n ≤ length piece.now)) }
        ensures bytes { Writes (written self.old) (written self.new) result piece.now }
        ensures cause { HasCause (faults self.old) (faults self.new) result }
        ensures last { MarksFault (at_fault self.old) (at_fault self.new) (written self.new) result }
        ensures flushed { flushed self.new ≡ flushed_after_write (flushed self.old) result };

    /// Sees to it that no byte waits in a buffer.
    fn flush(&mut self) -> Result<(), Failed>
        ensures bytes { written self.new ≡ written self.old }
        ensures cause { HasCause (faults self.old) (faults self.new) result }
        ensures last { MarksFault (at_fault self.old) (at_fault self.new) (written self.new) result }
        ensures flushed { flushed self.new ≡ flushed_after_flush (flushed self.old) result };
}

/// A fault cut a write short.
#[derive(Clone, Copy, Debug, PartialEq, Eq)]
pub struct WriteError {
    /// How many bytes went out before the fault.
    pub written: usize,
}

impl fmt::Display for WriteError {
    ghost use Rattle.std.specs.Prelude.{Some, ◌++◌, codes, decimal};

    ghost output = { λ error.
        Some (codes "the stream reported a fault after " ++ decimal error.written ++ codes " bytes") };

    fn fmt<W: fmt::Write>(&self, f: &mut fmt::Formatter<W>) -> fmt::Result {
        let written = self.written;
        write!(f, "{Failed} after {written} bytes")
    }
}

impl Error for WriteError {}

/// Writes all of `bytes`, or up to a fault, after which the sink gets no more.
pub fn write_all<S: Sink>(sink: &mut S, bytes: &[u8]) -> Result<(), WriteError>
    ensures whole { OnOk result (S.written sink.new ≡ append_known (S.written sink.old) bytes.now) }
    ensures cut { IfErr result (λ error. (error.written < length bytes.now) ×
        (S.written sink.new ≡ append_known (S.written sink.old) (take error.written bytes.now))) }
    ensures front { OnErr result (AppendsFront (S.written sink.old) (S.written sink.new) bytes.now) }
    ensures cause { HasCause (S.faults sink.old) (S.faults sink.new) result }

    // Nothing is written after a fault.
    ensures last { MarksFault (S.at_fault sink.old) (S.at_fault sink.new) (S.written sink.new) result }
{
    let mut written = 0;
    while written < bytes.len() {
        match sink.write(&bytes[written..]) {
            Ok(count) => written += count,
            Err(Failed) => return Err(WriteError { written }),
        }
    }
    Ok(())
}
