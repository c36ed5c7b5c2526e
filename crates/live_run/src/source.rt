//! Where a live run reads its text.
ghost use Rattle.std.specs.Prelude.{◌≡◌, ℕ, ◌<◌, ◌≤◌, true, List, [], Option, length, IfOk};
ghost use Rattle.live_feed.specs.Feeds.{Fed};
ghost use Rattle.mode_hosts.specs.Lives.{stats_of, LiveRests};
ghost use Rattle.pf_io.specs.Causes.{HasCause};
ghost use Rattle.pf_io.specs.Streams.{Reads, ends_after};

use crate::live::Live;
use crate::reading::Reading;
use pf_io::{Failed, Gate, Sink, Source};
use std::marker::Model;
use std::sync::Wait;
use std::thread::Threads;

/// That all that was read so far is settled: the picture of each frame is written and flushed, and so are the lines of the
/// report. A run makes one before each read, and none serves twice.
#[derive(Debug, Drop)]
pub struct Settled {
    frames: u64,
}

impl Settled {
    /// Nothing was given yet of what was read.
    pub(crate) fn nothing(reading: &Reading) -> Settled
        requires { (text : List ℕ) × Fed text [] reading.now }
        ensures { result.frames ≡ 0 }
    {
        let _ = reading;
        Settled { frames: 0 }
    }

    /// Nothing is left to do of what the pipe was given, all its frames were told, and both sinks were flushed.
    pub(crate) fn after<
        R: Threads + Wait + Copy + Drop + Send + Sync + 'static,
        O: Sink,
        P: Sink,
        G: Gate + Send + Drop + 'static,
    >(live: &Live<R, G>, frames: &O, report: &P) -> Settled
        requires rests { LiveRests live.now.pipe }
        requires told { live.now.frames ≡ length (stats_of live.now.pipe) }
        requires shown { O.flushed frames.now ≡ true }
        requires reported { P.flushed report.now ≡ true }
        ensures { result.frames ≡ length (stats_of live.now.pipe) }
    {
        let _ = frames;
        let _ = report;
        Settled {
            frames: live.frames_shown(),
        }
    }

    /// How many pictures were written and flushed.
    pub fn frames(&self) -> u64
        ensures { result ≡ self.now.frames }
    {
        self.frames
    }
}

/// A source of bytes that is read only when what it handed out is settled.
pub trait LiveSource {
    // The bytes that it has left, where it tells them.
    ghost left: { Self → Option (List ℕ) };

    // How many faults it has reported, up to the last value of the count.
    ghost faults: { Self → ℕ };

    // How many reads have found the end, up to the last value of the count.
    ghost ends: { Self → ℕ };

    /// Reads the next bytes into the front of `into`, which isn't empty, and returns their number; 0 is the end of the
    /// input. It may wait for the pictures and the lines that are told settled.
    fn read(&mut self, into: &mut [u8], settled: Settled) -> Result<usize, Failed>
        requires { 0 < length into.old }
        ensures bound { IfOk result (λ n. n ≤ length into.new) }
        ensures bytes { Reads (left self.old) (left self.new) result into.new }
        ensures cause { HasCause (faults self.old) (faults self.new) result }
        ensures ends { ends self.new ≡ ends_after (ends self.old) result };
}

/// A source that is read live.
#[derive(Drop)]
pub struct Streamed<S> {
    source: S,
}

impl<S> Model for Streamed<S> {
    ghost Value = { S };

    ghost view = { λ s. s.source };
}

impl<S> Streamed<S> {
    /// The source, read live.
    pub fn new(source: S) -> Streamed<S>
        ensures { result ≡ source }
    {
        Streamed { source }
    }
}

impl<S: Source> LiveSource for Streamed<S> {
    ghost left = { λ s. S.left s };

    ghost faults = { λ s. S.faults s };

    ghost ends = { λ s. S.ends s };

    fn read(&mut self, into: &mut [u8], settled: Settled) -> Result<usize, Failed>
        requires { 0 < length into.old }
        ensures bound { IfOk result (λ n. n ≤ length into.new) }
        ensures bytes { Reads (S.left self.old) (S.left self.new) result into.new }
        ensures cause { HasCause (S.faults self.old) (S.faults self.new) result }
        ensures ends { S.ends self.new ≡ ends_after (S.ends self.old) result }
    {
        let _ = settled;
        self.source.read(into)
    }
}
