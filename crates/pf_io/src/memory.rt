//! A source and a sink over memory, which fail where they are told to and nowhere else.
ghost use Rattle.std.specs.Prelude.{◌≡◌, ◌↔◌, ℕ, ◌+◌, ◌-◌, ◌<◌, ◌≤◌, ◌⊎◌, min, [], ◌++◌, length, take, true, false, vec_len, vec_capacity, Contains, IfSome, IfOk, IsErr, OnErr, OnOk, Some};
ghost use Rattle.pf_io.specs.Causes.{HasCause};
ghost use Rattle.pf_io.specs.Streams.{Reads, Writes, MarksFault, ends_after, flushed_after_write, flushed_after_flush};
ghost use Rattle.pf_io.specs.Memory.{MemoryInput, MemoryOutput, fresh_plan, left_in, after_read, kept_at_fault, after_fault, reach, IsDue};

use crate::faults::Faults;
use crate::source::note_end;
use crate::{Failed, NoMemory, Sink, Source};
use std::alloc::Global;
use std::marker::Model;

/// A source over bytes in memory. A read that begins at a listed place fails, once for each entry of it, and a read that
/// would cross one stops there.
#[derive(Drop)]
pub struct MemSource {
    bytes: Vec<u8>,
    place: usize,
    ends: u64,
    faults: Faults,
}

impl Model for MemSource {
    ghost Value = { MemoryInput };

    ghost view = { λ s. record { bytes = s.bytes.items; place = s.place; ends = s.ends; plan = s.faults } };

    ghost invariant = { λ s. s.place ≤ vec_len s.bytes };
}

impl MemSource {
    /// A source of `bytes` that fails at the places of `fail_at`.
    pub fn new(bytes: Vec<u8>, fail_at: Vec<u64>) -> MemSource
        ensures { result ≡ record { bytes = bytes.items; place = 0; ends = 0; plan = fresh_plan fail_at.items } }
    {
        MemSource {
            bytes,
            place: 0,
            ends: 0,
            faults: Faults::new(fail_at),
        }
    }
}

impl Source for MemSource {
    ghost left = { left_in };

    ghost faults = { λ s. s.plan.count };

    ghost ends = { λ s. s.ends };

    fn read(&mut self, into: &mut [u8]) -> Result<usize, Failed>
        requires { 0 < length into.old }
        ensures bound { IfOk result (λ n. n ≤ length into.new) }
        ensures bytes { Reads (left_in self.old) (left_in self.new) result into.new }
        ensures cause { HasCause self.old.plan.count self.new.plan.count result }
        ensures ends { self.new.ends ≡ ends_after self.old.ends result }

        // It fails at the places of the plan and nowhere else.
        ensures due { IsErr result ↔ Contains self.old.plan.places self.old.place }
        ensures fault { OnErr result (self.new ≡ record self.old { plan = after_fault self.old.place self.old.plan }) }
        ensures moved { IfOk result (λ n. self.new ≡ after_read n self.old) }
        ensures count { IfOk result (λ n. n ≡ reach self.old.plan self.old.place
            (min (length into.old) (length self.old.bytes - self.old.place))) }
    {
        if self.faults.is_due(self.place) {
            return Err(self.faults.strike(self.place));
        }
        let rest = &self.bytes[self.place..];
        let count = self.faults.reach(self.place, into.len().min(rest.len()));
        into[..count].copy_from_slice(&rest[..count]);
        self.place += count;
        note_end(&mut self.ends, count);
        Ok(count)
    }
}

/// A sink that keeps the bytes in memory. A write that begins at a listed place fails, once for each entry of it, and a
/// write that would cross one stops there; a flush counts as a call that begins where the sink stands. A write fails
/// where the room is full.
#[derive(Drop)]
pub struct MemSink {
    bytes: Vec<u8>,
    room: usize,
    flushed: bool,
    faults: Faults,
}

impl Model for MemSink {
    ghost Value = { MemoryOutput };

    ghost view = { λ s. record { bytes = s.bytes.items; room = s.room; flushed = s.flushed; plan = s.faults } };

    ghost invariant = { λ s. (vec_len s.bytes ≤ s.room) × (s.room ≤ vec_capacity s.bytes)
        × IfSome s.faults.last (λ place. place ≤ vec_len s.bytes) };
}

impl MemSink {
    /// A sink with the memory for `room` bytes, that fails at the places of `fail_at`.
    pub fn new(alloc: Global, room: usize, fail_at: Vec<u64>) -> Result<MemSink, NoMemory>
        ensures { IfOk result (λ s. s ≡ record { bytes = []; room = room; flushed = false; plan = fresh_plan fail_at.items }) }
    {
        Ok(MemSink {
            bytes: Vec::with_capacity(alloc, room)?,
            room,
            flushed: false,
            faults: Faults::new(fail_at),
        })
    }

    /// The bytes written.
    pub fn bytes(&self) -> &[u8]
        ensures { result.now ≡ self.now.bytes }
    {
        &self.bytes
    }
}

impl Sink for MemSink {
    ghost written = { λ s. Some s.bytes };

    ghost faults = { λ s. s.plan.count };

    ghost at_fault = { kept_at_fault };

    ghost flushed = { λ s. s.flushed };

    fn write(&mut self, piece: &[u8]) -> Result<usize, Failed>
        requires { 0 < length piece.now }
        ensures bound { IfOk result (λ n. (0 < n) × (n ≤ length piece.now)) }
        ensures bytes { Writes (Some self.old.bytes) (Some self.new.bytes) result piece.now }
        ensures cause { HasCause self.old.plan.count self.new.plan.count result }
        ensures last { MarksFault (kept_at_fault self.old) (kept_at_fault self.new) (Some self.new.bytes) result }
        ensures flushed { self.new.flushed ≡ flushed_after_write self.old.flushed result }

        // It fails at the places of the plan and where the room is full, and nowhere else.
        ensures due { IsErr result ↔ (IsDue self.old ⊎ (self.old.room ≤ length self.old.bytes)) }
        ensures fault { OnErr result
            (self.new ≡ record self.old { plan = after_fault (length self.old.bytes) self.old.plan }) }
        ensures moved { IfOk result (λ n. self.new
            ≡ record self.old { bytes = self.old.bytes ++ take n piece.now; flushed = false }) }
        ensures count { IfOk result (λ n. n ≡ reach self.old.plan (length self.old.bytes)
            (min (length piece.now) (self.old.room - length self.old.bytes))) }
    {
        let place = self.bytes.len();
        if self.faults.is_due(place) || place >= self.room {
            return Err(self.faults.strike(place));
        }
        let count = self.faults.reach(place, piece.len().min(self.room - place));
        self.bytes.extend_from_slice(&piece[..count]).unwrap();
        self.flushed = false;
        Ok(count)
    }

    fn flush(&mut self) -> Result<(), Failed>
        ensures bytes { Some self.new.bytes ≡ Some self.old.bytes }
        ensures cause { HasCause self.old.plan.count self.new.plan.count result }
        ensures last { MarksFault (kept_at_fault self.old) (kept_at_fault self.new) (Some self.new.bytes) result }
        ensures flushed { self.new.flushed ≡ flushed_after_flush self.old.flushed result }

        // It fails at the places of the plan and nowhere else.
        ensures due { IsErr result ↔ IsDue self.old }
        ensures fault { OnErr result
            (self.new ≡ record self.old { plan = after_fault (length self.old.bytes) self.old.plan }) }
        ensures quiet { OnOk result (self.new ≡ record self.old { flushed = true }) }
    {
        if self.faults.is_due(self.bytes.len()) {
            return Err(self.faults.strike(self.bytes.len()));
        }
        self.flushed = true;
        Ok(())
    }
}
