//! Keys by ids, in two bytes each, of which no more are written than the ids that were used ask, so that a new graph is
//! quickly made.
ghost use Rattle.std.specs.Prelude.{◌≡◌, ◌<◌, Some, None, IfOk, slice_index_or, slice_set, length, ℕ};
ghost use Rattle.pf_edits.specs.Tables.{key_in};

use pf_io::NoMemory;
use pf_model::write_to;
use std::alloc::Global;
use std::marker::Model;

/// The number of ids.
const IDS: usize = 65_536;

/// The keys of the ids that have one. Contracts see them by id. There is memory for the cells of all ids, and as many are
/// written as the greatest id that ever got a key asks.
#[derive(Debug, Drop)]
pub(crate) struct Keys {
    /// Under each id its key and one more, or 0 where it has none.
    cells: Vec<u16>,
}

impl Model for Keys {
    ghost use Rattle.std.specs.Prelude.{ℕ, List, Option, map};
    ghost use Rattle.std.specs.Vec.{vec_capacity};
    ghost use Rattle.pf_edits.specs.Tables.{key_in, cells_of_all, AreCells};

    ghost Value = { List (Option ℕ) };

    ghost view = { λ k. map key_in (cells_of_all k.cells.items) };

    ghost invariant = { λ k. AreCells k.cells.items (vec_capacity k.cells) };
}

impl Keys {
    /// No keys. It takes the memory of all cells.
    pub(crate) fn new(alloc: Global) -> Result<Keys, NoMemory>
        ensures length { IfOk result (λ k. length k ≡ 65536) }
        ensures none { IfOk result (λ k. (id : ℕ) → slice_index_or k id None ≡ None) }
    {
        let cells = Vec::with_capacity(alloc, IDS)?;
        Ok(Keys { cells })
    }

    /// The key of an id.
    pub(crate) fn get(&self, id: u16) -> Option<usize>
        ensures { result ≡ slice_index_or self.now id None }
    {
        key_in(cell_at(self.cells.as_slice(), usize::from(id)))
    }

    /// Gives an id a key.
    pub(crate) fn set(&mut self, id: u16, key: usize)
        requires { key < 65535 }
        ensures { self.new ≡ slice_set self.old id (Some key) }
    {
        write_to(&mut self.cells, usize::from(id));
        self.cells[usize::from(id)] = key as u16 + 1;
    }

    /// Takes the key of an id away.
    pub(crate) fn clear(&mut self, id: u16)
        ensures { self.new ≡ slice_set self.old id None }
    {
        if usize::from(id) < self.cells.len() {
            self.cells[usize::from(id)] = 0;
        }
    }
}

/// What stands in a cell, 0 past the last that is written.
fn cell_at(cells: &[u16], place: usize) -> u16
    ensures { result ≡ slice_index_or cells.now place 0 }
{
    match cells.get(place) {
        Some(cell) => *cell,
        None => 0,
    }
}

/// The key that a cell has.
fn key_in(cell: u16) -> Option<usize>
    ensures { result ≡ key_in cell }
{
    if cell == 0 {
        None
    } else {
        Some(usize::from(cell) - 1)
    }
}
