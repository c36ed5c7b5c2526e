//! A sink that adds up the bytes that it passes on.
ghost use Rattle.std.specs.Prelude.{◌≡◌, ◌<◌, ◌≤◌, Bool, List, ℕ, length, Option, None, Some, IfOk};
ghost use Rattle.std.specs.Borrow.{GName};
ghost use Rattle.pf_io.specs.Causes.{HasCause};
ghost use Rattle.pf_io.specs.Streams.{Writes, MarksFault, flushed_after_write, flushed_after_flush};
ghost use Rattle.perfly_top.specs.Sums.{sum_of_bytes, IsSumSince};

use pf_io::{Failed, Sink};
use std::marker::{Brand, PhantomData};

/// What a sink was when the sum was 0: the bytes that it had, and the loan by which it is held.
pub(crate) trait Start {
    ghost start: { Option (List ℕ) };

    ghost loan: { Option GName };
}

impl Start for Brand {
    ghost start = { None };

    ghost loan = { None };
}

/// A sink that is held by a loan, which its calls keep.
pub(crate) trait Held {
    ghost bytes: { Self → Option (List ℕ) };

    ghost failed: { Self → ℕ };

    ghost at_failure: { Self → Option (List ℕ) };

    ghost is_flushed: { Self → Bool };

    ghost loan: { Self → GName };

    /// As `Sink::write`.
    fn put(&mut self, piece: &[u8]) -> Result<usize, Failed>
        requires { 0 < length piece.now }
        ensures same { loan self.new ≡ loan self.old }
        ensures bound { IfOk result (λ n. (0 < n) × (n ≤ length piece.now)) }
        ensures bytes { Writes (bytes self.old) (bytes self.new) result piece.now }
        ensures cause { HasCause (failed self.old) (failed self.new) result }
        ensures last { MarksFault (at_failure self.old) (at_failure self.new) (bytes self.new) result }
        ensures flushed { is_flushed self.new ≡ flushed_after_write (is_flushed self.old) result };

    /// As `Sink::flush`.
    fn end(&mut self) -> Result<(), Failed>
        ensures same { loan self.new ≡ loan self.old }
        ensures bytes { bytes self.new ≡ bytes self.old }
        ensures cause { HasCause (failed self.old) (failed self.new) result }
        ensures last { MarksFault (at_failure self.old) (at_failure self.new) (bytes self.new) result }
        ensures flushed { is_flushed self.new ≡ flushed_after_flush (is_flushed self.old) result };
}

/// A sink that is lent.
pub(crate) struct Lent<'a, O: Sink> {
    pub(crate) sink: &'a mut O,
}

impl<'a, O: Sink> Held for Lent<'a, O> {
    ghost bytes = { λ s. O.written s.sink.now };

    ghost failed = { λ s. O.faults s.sink.now };

    ghost at_failure = { λ s. O.at_fault s.sink.now };

    ghost is_flushed = { λ s. O.flushed s.sink.now };

    ghost loan = { λ s. s.sink.ghost_name };

    fn put(&mut self, piece: &[u8]) -> Result<usize, Failed> {
        self.sink.write(piece)
    }

    fn end(&mut self) -> Result<(), Failed> {
        self.sink.flush()
    }
}

/// Returns the sum of bytes, modulo 2^64.
fn sum_of(bytes: &[u8]) -> u64
    ensures { result ≡ sum_of_bytes bytes.now }
{
    let mut sum = 0u64;
    for byte in bytes {
        sum = sum.wrapping_add(u64::from(*byte));
    }
    sum
}

/// A sink that passes each call on, and adds up the bytes that it took since its start.
pub(crate) struct Summing<H: Held, S: Start> {
    pub(crate) held: H,
    pub(crate) sum: u64,
    pub(crate) start: PhantomData<S>,
    pub ghost same: { S.loan ≡ Some (H.loan held) },
    pub ghost added: { IsSumSince S.start (H.bytes held) sum },
}

impl<H: Held, S: Start> Sink for Summing<H, S> {
    ghost written = { λ s. H.bytes s.held };

    ghost faults = { λ s. H.failed s.held };

    ghost at_fault = { λ s. H.at_failure s.held };

    ghost flushed = { λ s. H.is_flushed s.held };

    fn write(&mut self, piece: &[u8]) -> Result<usize, Failed> {
        let taken = self.held.put(piece)?;
        self.sum = self.sum.wrapping_add(sum_of(&piece[..taken]));
        Ok(taken)
    }

    fn flush(&mut self) -> Result<(), Failed> {
        self.held.end()
    }
}
