//! The numbers of the frames that came back, of which those that were told leave memory.
ghost use Rattle.std.specs.Prelude.{◌≡◌, ◌+◌, ◌<◌, ◌≤◌, [], ◌∷◌, ◌++◌, length, drop, OnOk, OnErr};
ghost use Rattle.told_log.specs.Lists.{HasTold};

use draw_list::Stats;
use pf_io::NoMemory;
use std::alloc::Global;
use std::marker::Model;
use told_log::ToldLog;

/// The numbers of the frames that came back. Contracts see all of them, how many of them were told (the oldest ones),
/// and how many more have room.
///
/// Memory holds the numbers that were not told, in one list, and before them at most as many that were.
#[derive(Drop)]
pub(crate) struct ToldStats {
    // All numbers, for contracts alone: each is told as soon as it is added, so that none stays in memory.
    past: ToldLog<Stats>,
    held: Vec<Stats>,
    // How many of those held were told.
    gone: usize,
    room: usize,
}

impl Model for ToldStats {
    ghost use Rattle.std.specs.Prelude.{◌-◌, length};
    ghost use Rattle.std.specs.Vec.{vec_capacity};
    ghost use Rattle.told_log.specs.Lists.{Entries};
    ghost use Rattle.draw_list.specs.declared.stats.Stats.{Stats};
    ghost use Rattle.frame_stages.specs.Numbers.{HoldsLast};

    ghost Value = { Entries Stats };

    ghost view = { λ s. record {
      entries = s.past.entries;
      told = length s.past.entries - (length s.held.items - s.gone);
      spare = s.room;
    } };

    ghost invariant = { λ s. HoldsLast s.past s.held.items s.gone s.room (vec_capacity s.held) };
}

impl ToldStats {
    /// No numbers, and no room.
    pub(crate) fn new(alloc: Global) -> ToldStats
        ensures { result ≡ record { entries = []; told = 0; spare = 0 } }
    {
        ToldStats {
            past: ToldLog::new(alloc),
            held: Vec::new(alloc),
            gone: 0,
            room: 0,
        }
    }

    /// Makes room for the numbers of `n` more frames. Returns NoMemory only where that room was missing.
    pub(crate) fn reserve(&mut self, n: usize) -> Result<(), NoMemory>
        ensures room { OnOk result (n ≤ self.new.spare) }
        ensures entries { self.new.entries ≡ self.old.entries }
        ensures told { self.new.told ≡ self.old.told }
        ensures spare { self.old.spare ≤ self.new.spare }
        ensures full { OnErr result (self.old.spare < n) }
    {
        if n <= self.room {
            return Ok(());
        }
        self.past.reserve(n)?;
        self.held.reserve(n)?;
        self.room = n;
        Ok(())
    }

    /// Appends the numbers of a frame, for which there is room.
    pub(crate) fn push_reserved(&mut self, stats: Stats)
        requires { 0 < self.old.spare }
        ensures entries { self.new.entries ≡ self.old.entries ++ stats ∷ [] }
        ensures told { self.new.told ≡ self.old.told }
        ensures spare { self.new.spare + 1 ≡ self.old.spare }
    {
        self.past.push_reserved(stats);
        let _ = self.past.take();
        self.held.push_reserved(stats);
        self.room -= 1;
    }

    /// Tells the oldest numbers that were not told. Returns None where all were told.
    pub(crate) fn take(&mut self) -> Option<Stats>
        ensures told { HasTold self.old self.new result }
        ensures spare { self.new.spare ≡ self.old.spare }
    {
        let stats = *self.held.get(self.gone)?;
        self.gone += 1;
        // Fewer numbers are moved than leave memory, so that a call takes constant time on average.
        if self.gone > self.held.len() / 2 {
            drop(self.held.drain(..self.gone));
            self.gone = 0;
        }
        Some(stats)
    }

    /// The numbers that were not told, oldest first.
    pub(crate) fn untold(&self) -> &[Stats]
        ensures { result.now ≡ drop self.now.told self.now.entries }
    {
        &self.held[self.gone..]
    }

    /// The numbers that were not told, oldest first, for who is done with the others.
    pub(crate) fn into_untold(self) -> Vec<Stats>
        ensures { result.items ≡ drop self.told self.entries }
    {
        let Self {
            past: _,
            mut held,
            gone,
            room: _,
        } = self;
        drop(held.drain(..gone));
        held
    }

    /// The number of frames that came back.
    pub(crate) fn len(&self) -> usize
        ensures { result ≡ length self.now.entries }
    {
        self.past.len()
    }
}
