//! The history, with room for its entries made in batches.
ghost use Rattle.std.specs.Prelude.{◌≡◌, ◌+◌, ◌-◌, ◌≤◌, ◌∷◌, ◌++◌, [], length, take, drop, OnOk, OnErr};
ghost use Rattle.std.specs.Vec.{vec_capacity};
ghost use Rattle.pf_history.specs.Logs.{HasTold};
ghost use Rattle.pf_scene.specs.Batches.{IsFull, IsReady};

use pf_history::{Entry, History};
use pf_io::NoMemory;
use std::alloc::Global;
use std::marker::Model;

/// For how many entries room is made at once.
const BATCH: usize = 64;

/// The history. Room for entries is made a batch at a time, so between the first entry of a batch and its last none is
/// refused.
#[derive(Drop)]
pub(crate) struct Entries {
    history: History,
}

impl Model for Entries {
    ghost use Rattle.pf_history.specs.Logs.{Recorded};
    ghost use Rattle.pf_scene.specs.Batches.{IsBatched};

    ghost Value = { Recorded };

    ghost view = { λ e. e.history };

    ghost invariant = { λ e. IsBatched e.history };
}

impl Entries {
    /// No entries, and no room.
    pub(crate) fn new(alloc: Global) -> Entries
        ensures entries { result.entries ≡ [] }
        ensures told { result.told ≡ 0 }
    {
        Entries {
            history: History::new(alloc),
        }
    }

    /// Makes room for an entry, where it is missing for the batch. It fails at the first entry of a batch alone.
    pub(crate) fn reserve(&mut self) -> Result<(), NoMemory>
        ensures room { OnOk result (IsReady self.new) }
        ensures entries { self.new.entries ≡ self.old.entries }
        ensures told { self.new.told ≡ self.old.told }
        ensures full { OnErr result (IsFull self.old.entries) }
    {
        if self.history.len() % BATCH == 0 {
            self.history.reserve(BATCH)?;
        }
        Ok(())
    }

    /// Appends an entry that a seat made.
    pub(crate) fn push_reserved(&mut self, seat: u32, entry: Entry)
        requires { IsReady self.old }
        ensures entries { self.new.entries ≡ self.old.entries ++ (seat, entry) ∷ [] }
        ensures told { self.new.told ≡ self.old.told }
    {
        self.history.push_reserved(seat, entry);
    }

    /// Tells the oldest entry that was not told: hands it out, beside the number of its seat, and forgets it. Returns None
    /// where all were told.
    pub(crate) fn take(&mut self) -> Option<(u32, Entry)>
        ensures { HasTold self.old self.new result }
    {
        self.history.take()
    }

    /// Tells the oldest entries that were not told, in order, as many as there is room for, and puts them behind those of
    /// `into`.
    pub(crate) fn take_into(&mut self, into: &mut Vec<(u32, Entry)>)
        ensures same { self.new.entries ≡ self.old.entries }
        ensures told { self.new.told
            ≡ self.old.told + length (take (vec_capacity into.old - length into.old.items) (drop self.old.told self.old.entries)) }
        ensures entries { into.new.items ≡ into.old.items
            ++ take (vec_capacity into.old - length into.old.items) (drop self.old.told self.old.entries) }
        ensures room { vec_capacity into.new ≡ vec_capacity into.old }
    {
        let free = into.capacity() - into.len();
        for _told in 0..free {
            match self.take() {
                Some(entry) => into.push_reserved(entry),
                None => return,
            }
        }
    }

    /// The number of entries, told or not.
    pub(crate) fn len(&self) -> usize
        ensures { result ≡ length self.now.entries }
    {
        self.history.len()
    }

    /// The number of entries that were told.
    pub(crate) fn told(&self) -> usize
        ensures value { result ≡ self.now.told }
        ensures few { result ≤ length self.now.entries }
    {
        self.history.told()
    }

    /// The history.
    pub(crate) fn into_history(self) -> History
        ensures entries { result.entries ≡ self.entries }
        ensures told { result.told ≡ self.told }
    {
        let Self { history } = self;
        history
    }
}
