//! The log.
ghost use Rattle.std.specs.Prelude.{◌≡◌, ◌==◌, ℕ, ◌+◌, ◌<◌, ◌≤◌, [], ◌∷◌, ◌++◌, length, drop, OnOk, OnErr, MatchOption};
ghost use Rattle.told_log.specs.Lists.{Entries, all_of, told_of, free_of, KeepsLog, HasTold};
ghost use Rattle.std.specs.VecDeque.{deque_len, deque_capacity};

use crate::past::Past;
use pf_io::NoMemory;
use std::alloc::Global;
use std::collections::VecDeque;
use std::marker::Model;

/// A log that only grows, and keeps in memory the entries that were not told yet. Contracts see all its entries, how many
/// of them were told (the oldest ones), and how many more have room.
#[derive(Drop)]
pub struct ToldLog<T> {
    alloc: Global,
    kept: VecDeque<T>,
    past: Option<Past<T>>,
    len: usize,
    room: usize,
}

impl<T> Model for ToldLog<T> {
    ghost Value = { Entries T };

    ghost view = { λ log. record { entries = all_of log.past; told = length (told_of log.past); spare = log.room } };

    ghost invariant = { λ log.
        KeepsLog log.past log.kept.items (free_of log.past (deque_capacity log.kept) (deque_len log.kept)) log.len log.room };
}

impl<T> ToldLog<T> {
    /// A log with no entry, and no room.
    pub fn new(alloc: Global) -> ToldLog<T>
        ensures { result ≡ record { entries = []; told = 0; spare = 0 } }
    {
        ToldLog {
            alloc,
            kept: VecDeque::new(alloc),
            past: None,
            len: 0,
            room: 0,
        }
    }

    /// Appends an entry, for which there is room.
    pub fn push_reserved(&mut self, item: T)
        requires { 0 < self.old.spare }
        ensures entries { self.new.entries ≡ self.old.entries ++ item ∷ [] }
        ensures told { self.new.told ≡ self.old.told }
        ensures spare { self.new.spare + 1 ≡ self.old.spare }
    {
        let Some(past) = &mut self.past else {
            unreachable!();
        };
        past.add(&item);
        self.kept.push_back_reserved(item);
        self.len += 1;
        self.room -= 1;
    }

    /// Tells the oldest entry that was not told: hands it out, and forgets it. Returns None where all were told.
    pub fn take(&mut self) -> Option<T>
        ensures told { HasTold self.old self.new result }
        ensures spare { self.new.spare ≡ self.old.spare }
    {
        let past = self.past.as_mut()?;
        let item = self.kept.pop_front()?;
        past.tell(&item);
        Some(item)
    }

    /// The entries that were not told, oldest first, as two slices, of which the second goes on where the first ends.
    pub fn untold(&self) -> (&[T], &[T])
        ensures { result.0.now ++ result.1.now ≡ drop self.now.told self.now.entries }
    {
        self.kept.as_slices()
    }

    /// All entries, as two slices like those of `untold`. Returns None where some were told, since they left memory.
    pub fn whole(&self) -> Option<(&[T], &[T])>
        ensures { MatchOption result (0 < self.now.told) (λ all. all.0.now ++ all.1.now ≡ self.now.entries) }
    {
        if self.told() > 0 {
            return None;
        }
        Some(self.untold())
    }

    /// The number of entries, told or not.
    pub fn len(&self) -> usize
        ensures { result ≡ length self.now.entries }
    {
        self.len
    }

    /// Whether there is no entry.
    pub fn is_empty(&self) -> bool
        ensures { result ≡ (length self.now.entries == 0) }
    {
        self.len == 0
    }

    /// The number of entries that were told.
    pub fn told(&self) -> usize
        ensures value { result ≡ self.now.told }
        ensures few { result ≤ length self.now.entries }
    {
        self.len - self.kept()
    }

    /// The number of entries that memory holds: those that were not told.
    pub fn kept(&self) -> usize
        ensures { self.now.told + result ≡ length self.now.entries }
    {
        self.kept.len()
    }
}

impl<T: Drop> ToldLog<T> {
    /// Makes room for `n` more entries; the entries stay, and no room is lost. Returns NoMemory only where that room was
    /// missing.
    pub fn reserve(&mut self, n: usize) -> Result<(), NoMemory>
        ensures room { OnOk result (n ≤ self.new.spare) }
        ensures entries { self.new.entries ≡ self.old.entries }
        ensures told { self.new.told ≡ self.old.told }
        ensures spare { self.old.spare ≤ self.new.spare }
        ensures full { OnErr result (self.old.spare < n) }
    {
        if n <= self.room {
            return Ok(());
        }
        if n > usize::MAX - self.len {
            return Err(NoMemory);
        }
        self.kept.reserve(n)?;
        if self.past.is_none() {
            self.past = Some(Past::new(self.alloc)?);
        }
        self.room = n;
        Ok(())
    }

    /// The entries that were not told, oldest first, for who is done with the log.
    pub fn into_untold(self) -> Vec<T>
        ensures { result.items ≡ drop self.told self.entries }
    {
        let Self {
            alloc: _,
            kept,
            past: _,
            len: _,
            room: _,
        } = self;
        Vec::from(kept)
    }
}
