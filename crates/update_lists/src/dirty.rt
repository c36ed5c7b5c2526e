//! The ids that changed since the last cut.
ghost use Rattle.std.specs.Prelude.{◌≡◌, ◌≤◌, ◌<◌, ◌+◌, ℕ, [], true, false, IfOk, OnOk, OnErr};
ghost use Rattle.pf_model.specs.Copies.{put_in, updates_of};
ghost use Rattle.update_lists.specs.Marks.{among};
ghost use Rattle.update_lists.specs.Taking.{CanTake, geode_serials, times_in};

use crate::updates::Updates;
use crate::{marks, taking};
use pf_io::NoMemory;
use pf_model::{Arrays, NodeView};
use std::alloc::Global;
use std::marker::Model;

/// The ids of the nodes that changed since the last cut: a mark for each id, and the list of the ids that have one. There
/// is memory for the marks of all ids, and as many are written as the greatest id that was ever marked asks.
#[derive(Debug)]
pub struct Dirty {
    table: Vec<bool>,
    ids: Vec<u16>,
}

/// Written out, so that to drop one is a single call.
impl Drop for Dirty {
    fn drop(self) {
        let Self { table: _, ids: _ } = self;
    }
}

impl Model for Dirty {
    ghost use Rattle.std.specs.Prelude.{ℕ, List, []};
    ghost use Rattle.std.specs.Vec.{vec_capacity};
    ghost use Rattle.pf_model.specs.Copies.{put_all};
    ghost use Rattle.update_lists.specs.Marks.{AreMarks};

    ghost Value = { List ℕ };

    ghost view = { λ d. put_all d.ids.items [] };

    ghost invariant = { λ d. AreMarks d.table.items (vec_capacity d.table) d.ids.items (vec_capacity d.ids) };
}

impl Dirty {
    /// No marks. It takes the memory of all marks.
    pub fn new(alloc: Global) -> Result<Dirty, NoMemory>
        ensures { IfOk result (λ d. d ≡ []) }
    {
        Ok(Dirty {
            table: marks::no_marks(alloc)?,
            ids: marks::no_ids(alloc)?,
        })
    }

    /// Marks an id, without memory, and in constant time unless it is greater than each before it.
    pub fn mark(&mut self, id: u16)
        ensures { self.new ≡ put_in id self.old }
    {
        marks::mark(&mut self.table, &mut self.ids, id);
    }

    /// The update list of the marked ids, each with its latest node or none; the marks are cleared. The triangles of a
    /// geode are taken from `arrays`. All growths come before the first array is taken, and a refusal may leave more
    /// free copies and changes nothing else.
    pub fn cut<V: NodeView, A: Arrays>(
        &mut self,
        scene: &V,
        arrays: &mut A,
    ) -> Result<Updates, NoMemory>
        requires { CanTake (A.written arrays.old) (V.look scene.now) self.old }
        ensures updates { IfOk result (λ u. u ≡ updates_of (V.look scene.now) self.old) }
        ensures cleared { OnOk result (self.new ≡ []) }
        ensures taken { OnOk result ((s : ℕ) → A.free arrays.old s ≤ A.free arrays.new s + 1) }
        ensures others { (s : ℕ) → among s (geode_serials (V.look scene.now) self.old) ≡ false
            → A.free arrays.new s ≡ A.free arrays.old s }
        ensures written { (s : ℕ) → A.written arrays.new s ≡ A.written arrays.old s }
        ensures unchanged { OnErr result (self.new ≡ self.old) }
        ensures free { OnErr result ((s : ℕ) → A.free arrays.old s ≤ A.free arrays.new s) }
        ensures out { OnOk result ((s : ℕ) → A.out arrays.new s
            ≡ A.out arrays.old s + times_in s (geode_serials (V.look scene.now) self.old)) }
        ensures none_out { OnErr result ((s : ℕ) → A.out arrays.new s ≡ A.out arrays.old s) }
        ensures most { (b : ℕ) → A.most arrays.old ≤ b
            → ((s : ℕ) → among s (geode_serials (V.look scene.now) self.old) ≡ true → A.out arrays.old s < b)
            → A.most arrays.new ≤ b }
    {
        marks::sort(&mut self.ids);
        let updates = taking::take(self.ids.as_slice(), scene, arrays, *self.ids.allocator())?;
        marks::clear(&mut self.table, &mut self.ids);
        Ok(updates)
    }
}
