//! The process's own streams as a source and as sinks. They tell no bytes of their own, but take and give exactly those
//! of the standard library's reader or writer.
ghost use Rattle.std.specs.Prelude.{◌≡◌, ℕ, ◌<◌, ◌≤◌, false, length, IfOk, None};
ghost use Rattle.std.specs.Io.KnownBytes.{Keeps, ReadConsumes, WriteAppends};
ghost use Rattle.pf_io.specs.Causes.{Rose, HasCause};
ghost use Rattle.pf_io.specs.Streams.{Reads, Writes, MarksFault, ends_after, flushed_after_write, flushed_after_flush};
ghost use Rattle.pf_io.specs.Standard.{Reading, Writing};

use crate::source::note_end;
use crate::{Failed, Sink, Source};
use std::io::{ErrorKind, Read, Write};
use std::marker::Model;

/// Notes one more fault.
fn note_fault(faults: &mut u64) -> Failed
    ensures later { faults.old ≤ faults.new }
    ensures rose { Rose faults.old faults.new }
{
    *faults = faults.saturating_add(1);
    Failed
}

/// A reader of the standard library as a source. A call that a signal interrupted is tried again; every other error is
/// a fault.
#[derive(Drop)]
pub struct StdSource<R> {
    reader: R,
    faults: u64,
    ends: u64,
}

impl<R> Model for StdSource<R> {
    ghost Value = { Reading R };

    ghost view = { λ s. record { reader = s.reader; faults = s.faults; ends = s.ends } };
}

impl<R: Read> StdSource<R> {
    /// The source over `reader`.
    pub fn new(reader: R) -> StdSource<R>
        ensures { result ≡ record { reader = reader; faults = 0; ends = 0 } }
    {
        StdSource {
            reader,
            faults: 0,
            ends: 0,
        }
    }
}

impl<R: Read> Source for StdSource<R> {
    ghost left = { λ _. None };

    ghost faults = { λ s. s.faults };

    ghost ends = { λ s. s.ends };

    fn read(&mut self, into: &mut [u8]) -> Result<usize, Failed>
        requires { 0 < length into.old }
        ensures bound { IfOk result (λ n. n ≤ length into.new) }
        ensures bytes { Reads None None result into.new }
        ensures cause { HasCause self.old.faults self.new.faults result }
        ensures ends { self.new.ends ≡ ends_after self.old.ends result }

        // It gives what the reader gave, and a fault leaves the reader's bytes.
        ensures given { ReadConsumes (R.remaining self.old.reader) (R.remaining self.new.reader) result into.new }
    {
        for _ in 0..u64::MAX {
            match self.reader.read(into) {
                Ok(count) => {
                    note_end(&mut self.ends, count);
                    return Ok(count);
                }
                Err(error) if error.kind() == ErrorKind::Interrupted => {}
                Err(_) => break,
            }
        }
        Err(note_fault(&mut self.faults))
    }
}

/// A writer of the standard library as a sink. A call that a signal interrupted is tried again; every other error is a
/// fault, and so is a write that takes nothing.
#[derive(Drop)]
pub struct StdSink<W> {
    writer: W,
    faults: u64,
    flushed: bool,
}

impl<W> Model for StdSink<W> {
    ghost Value = { Writing W };

    ghost view = { λ s. record { writer = s.writer; faults = s.faults; flushed = s.flushed } };
}

impl<W: Write> StdSink<W> {
    /// The sink over `writer`.
    pub fn new(writer: W) -> StdSink<W>
        ensures { result ≡ record { writer = writer; faults = 0; flushed = false } }
    {
        StdSink {
            writer,
            faults: 0,
            flushed: false,
        }
    }
}

impl<W: Write> Sink for StdSink<W> {
    ghost written = { λ _. None };

    ghost faults = { λ s. s.faults };

    ghost at_fault = { λ _. None };

    ghost flushed = { λ s. s.flushed };

    fn write(&mut self, piece: &[u8]) -> Result<usize, Failed>
        requires { 0 < length piece.now }
        ensures bound { IfOk result (λ n. (0 < n) × (n ≤ length piece.now)) }
        ensures bytes { Writes None None result piece.now }
        ensures cause { HasCause self.old.faults self.new.faults result }
        ensures flushed { self.new.flushed ≡ flushed_after_write self.old.flushed result }

        // It takes what the writer took, and a fault leaves the writer's bytes.
        ensures taken { WriteAppends (W.contents self.old.writer) (W.contents self.new.writer) result piece.now }
    {
        for _ in 0..u64::MAX {
            match self.writer.write(piece) {
                Ok(0) => break,
                Ok(count) => {
                    self.flushed = false;
                    return Ok(count);
                }
                Err(error) if error.kind() == ErrorKind::Interrupted => {}
                Err(_) => break,
            }
        }
        Err(note_fault(&mut self.faults))
    }

    fn flush(&mut self) -> Result<(), Failed>
        ensures cause { HasCause self.old.faults self.new.faults result }
        ensures flushed { self.new.flushed ≡ flushed_after_flush self.old.flushed result }

        // It leaves the writer's bytes.
        ensures kept { Keeps (W.contents self.old.writer) (W.contents self.new.writer) }
    {
        for _ in 0..u64::MAX {
            match self.writer.flush() {
                Ok(()) => {
                    self.flushed = true;
                    return Ok(());
                }
                Err(error) if error.kind() == ErrorKind::Interrupted => {}
                Err(_) => break,
            }
        }
        Err(note_fault(&mut self.faults))
    }
}
