//! Marks of states, and how many there are.
ghost use Rattle.std.specs.Prelude.{◌≡◌, ℕ, ◌<◌, ◌≤◌, false, true, length, replicate, slice_index_or, slice_set, count_by, OnOk};
ghost use Rattle.draw_list.specs.Listed.{AreListed};

use crate::tables::grow;
use pf_io::NoMemory;
use pf_model::write_to;
use std::alloc::Global;
use std::marker::Model;

/// The number of the states that there may be.
const STATES: usize = 65_536;

/// A mark for each state, and the list of the states that have one. Entries are written up to the greatest state that was
/// marked; the width is the number of states that may have a mark, none without memory.
#[derive(Debug, Drop)]
pub(crate) struct States {
    marks: Vec<bool>,
    marked: Vec<u16>,
    width: usize,
}

impl Model for States {
    ghost use Rattle.std.specs.Prelude.{Bool, false, List};
    ghost use Rattle.std.specs.Vec.{vec_capacity};
    ghost use Rattle.draw_list.specs.Listed.{IsListedTable, whole_table};

    ghost Value = { List Bool };

    ghost view = { λ s. whole_table false s.marks.items s.width };

    ghost invariant = { λ s. IsListedTable (λ m. m) false s.marks.items s.width (vec_capacity s.marks)
        s.marked.items (vec_capacity s.marked) };
}

impl States {
    pub(crate) fn new(alloc: Global) -> States
        ensures { length result ≡ 0 }
    {
        States {
            marks: Vec::new(alloc),
            marked: Vec::new(alloc),
            width: 0,
        }
    }

    /// Takes memory for the mark of each state.
    pub(crate) fn reserve(&mut self) -> Result<(), NoMemory>
        ensures ready { OnOk result (length self.new ≡ 65536) }
        ensures marks { (state : ℕ) → slice_index_or self.new state false ≡ slice_index_or self.old state false }
        ensures more { length self.old ≡ 65536 → length self.new ≡ 65536 }
    {
        grow(&mut self.marked, STATES)?;
        grow(&mut self.marks, STATES)?;
        self.width = STATES;
        Ok(())
    }

    /// Takes all marks away.
    pub(crate) fn clear(&mut self)
        ensures { self.new ≡ replicate (length self.old) false }
    {
        unmark(self.marks.as_mut_slice(), self.marked.as_slice());
        self.marked.clear();
    }

    /// Marks a state.
    pub(crate) fn add(&mut self, state: u16)
        requires { state < length self.old }
        ensures { self.new ≡ slice_set self.old state true }
    {
        let place = state as usize;
        write_to(&mut self.marks, place);
        if self.marks[place] {
            return;
        }
        self.marks[place] = true;
        self.marked.push_reserved(state);
    }

    /// How many states have a mark.
    pub(crate) fn count(&self) -> u32
        ensures value { result ≡ count_by (λ m. m) self.now }
        ensures len { length self.now ≤ 65536 }
    {
        self.marked.len() as u32
    }
}

/// Takes the marks of these states away, which are all that have one.
fn unmark(marks: &mut [bool], states: &[u16])
    requires { AreListed (λ m. m) false marks.old states.now }
    ensures len { length marks.new ≡ length marks.old }
    ensures none { (state : ℕ) → slice_index_or marks.new state false ≡ false }
{
    for state in states {
        marks[*state as usize] = false;
    }
}
