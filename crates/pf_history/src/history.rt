//! The history of a play, as a list that only grows.
ghost use Rattle.std.specs.Prelude.{◌≡◌, ◌==◌, ◌+◌, ◌<◌, ◌≤◌, [], ◌∷◌, ◌++◌, length, drop, OnOk, OnErr, IfOk};
ghost use Rattle.pf_history.specs.Logs.{Recorded, HasTold};

use crate::commands::Entry;
use pf_io::NoMemory;
use std::alloc::Global;
use std::marker::Model;
use told_log::ToldLog;

/// A history: its entries in order, each beside the number of the seat that made it. An entry that was told leaves memory;
/// where none is told, memory holds all. Contracts see the list of all entries, how many were told, and how many more have
/// room.
pub struct History {
    entries: ToldLog<(u32, Entry)>,
}

/// Written out, so that to drop one is a single call.
impl Drop for History {
    fn drop(self) {
        let Self { entries: _ } = self;
    }
}

impl Model for History {
    ghost Value = { Recorded };

    ghost view = { λ h. record { entries = h.entries.entries; told = h.entries.told; spare = h.entries.spare } };
}

impl History {
    /// An empty history.
    pub fn new(alloc: Global) -> History
        ensures entries { result.entries ≡ [] }
        ensures told { result.told ≡ 0 }
    {
        History {
            entries: ToldLog::new(alloc),
        }
    }

    /// Makes room for `n` more entries; the entries stay, and no room is lost. It fails only where that room was
    /// missing.
    pub fn reserve(&mut self, n: usize) -> Result<(), NoMemory>
        ensures room { OnOk result (n ≤ self.new.spare) }
        ensures entries { self.new.entries ≡ self.old.entries }
        ensures told { self.new.told ≡ self.old.told }
        ensures spare { self.old.spare ≤ self.new.spare }
        ensures full { OnErr result (self.old.spare < n) }
    {
        self.entries.reserve(n)
    }

    /// Appends an entry that a seat made.
    pub fn push_reserved(&mut self, seat: u32, entry: Entry)
        requires { 0 < self.old.spare }
        ensures entries { self.new.entries ≡ self.old.entries ++ (seat, entry) ∷ [] }
        ensures told { self.new.told ≡ self.old.told }
        ensures spare { self.new.spare + 1 ≡ self.old.spare }
    {
        self.entries.push_reserved((seat, entry));
    }

    /// Tells the oldest entry that was not told: hands it out, beside the number of its seat, and forgets it. Returns None
    /// where all were told.
    pub fn take(&mut self) -> Option<(u32, Entry)>
        ensures told { HasTold self.old self.new result }
        ensures spare { self.new.spare ≡ self.old.spare }
    {
        self.entries.take()
    }

    /// The number of entries, told or not.
    pub fn len(&self) -> usize
        ensures { result ≡ length self.now.entries }
    {
        self.entries.len()
    }

    /// Whether there is no entry.
    pub fn is_empty(&self) -> bool
        ensures { result ≡ (length self.now.entries == 0) }
    {
        self.entries.is_empty()
    }

    /// The number of entries that were told.
    pub fn told(&self) -> usize
        ensures value { result ≡ self.now.told }
        ensures few { result ≤ length self.now.entries }
    {
        self.entries.told()
    }

    /// The entries that were not told, oldest first, each beside the number of its seat: two slices, of which the second
    /// goes on where the first ends.
    pub fn untold(&self) -> (&[(u32, Entry)], &[(u32, Entry)])
        ensures { result.0.now ++ result.1.now ≡ drop self.now.told self.now.entries }
    {
        self.entries.untold()
    }

    /// All entries, as two slices like those of `untold`. Returns NoMemory where some were told, since they left memory.
    pub fn whole(&self) -> Result<(&[(u32, Entry)], &[(u32, Entry)]), NoMemory>
        ensures entries { IfOk result (λ all. all.0.now ++ all.1.now ≡ self.now.entries) }
        ensures told { OnErr result (0 < self.now.told) }
    {
        match self.entries.whole() {
            Some(all) => Ok(all),
            None => Err(NoMemory),
        }
    }
}
