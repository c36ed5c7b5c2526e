//! All entries that a log ever had, as a meaning: nothing is stored of them.
ghost use Rattle.std.specs.Prelude.{◌≡◌};

use atomic_table::{Play, Seat, Table, TableRule};
use pf_io::NoMemory;
use std::alloc::Global;
use std::collections::LinkedList;

// All entries of a log and those that were told, each oldest first. It is the view of the log's seat: no value of it is
// made, so no entry is stored.
#[derive(Drop)]
struct Lists<T> {
    all: LinkedList<T>,
    told: LinkedList<T>,
}

// The rule of the log's table: every word is allowed, and at first there is no entry.
struct AnyWord;

impl<T> TableRule<T, Lists<T>, ()> for AnyWord {
    ghost use Rattle.told_log.specs.Steps.{empty_lists};

    ghost holds = { λ _ _. Unit {0} };

    ghost first = { λ _. empty_lists };
}

// The step that adds an entry.
struct Adding;

impl<T> Play<T, Lists<T>> for Adding {
    ghost use Rattle.told_log.specs.Steps.{Adds};

    ghost then = { Adds };
}

// The step that tells an entry.
struct Telling;

impl<T> Play<T, Lists<T>> for Telling {
    ghost use Rattle.told_log.specs.Steps.{Tells};

    ghost then = { Tells };
}

// The one word of the table, which stays 0. Each entry added and each entry told is one step on it.
const WORD: usize = 0;

/// The entries that a log ever had, and which of them were told, as contracts see them.
#[derive(Drop)]
pub struct Past<T> {
    table: Table<T, Lists<T>, (), AnyWord, Global>,
    seat: Seat<T, Lists<T>>,
    ghost seated: { (seat.table_id ≡ table.shared.table_id) × (table.shared.table_id.words ≡ 1) },
}

impl<T: Drop> Past<T> {
    ghost use Rattle.std.specs.Prelude.{◌≡◌, [], IfOk};
    ghost use Rattle.told_log.specs.Lists.{all_in, told_in};

    /// The past of a log that had no entry. Returns NoMemory where its one word has no room.
    pub(crate) fn new(alloc: Global) -> Result<Past<T>, NoMemory>
        ensures all { IfOk result (λ past. all_in past ≡ []) }
        ensures told { IfOk result (λ past. told_in past ≡ []) }
    {
        let (table, seat) = Table::of_words(alloc, &[0], &())?;
        Ok(Past { table, seat })
    }
}

impl<T> Past<T> {
    ghost use Rattle.std.specs.Prelude.{◌≡◌, ◌++◌, [], ◌∷◌};
    ghost use Rattle.told_log.specs.Lists.{all_in, told_in};

    /// Notes one entry more.
    pub(crate) fn add(&mut self, item: &T)
        ensures all { all_in self.new ≡ all_in self.old ++ item.now ∷ [] }
        ensures told { told_in self.new ≡ told_in self.old }
    {
        let table = &self.table;
        table
            .shared
            .compare_exchange_with::<Adding>(&mut self.seat, WORD, 0, 0, item);
    }

    /// Notes that one entry more was told.
    pub(crate) fn tell(&mut self, item: &T)
        ensures all { all_in self.new ≡ all_in self.old }
        ensures told { told_in self.new ≡ told_in self.old ++ item.now ∷ [] }
    {
        let table = &self.table;
        table
            .shared
            .compare_exchange_with::<Telling>(&mut self.seat, WORD, 0, 0, item);
    }
}
