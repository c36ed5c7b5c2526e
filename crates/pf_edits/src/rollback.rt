//! Edits undone, one by one and all of a merge.
ghost use Rattle.std.specs.Prelude.{◌≡◌, ◌+◌, ◌-◌, ◌^◌, ◌<◌, ◌≤◌, ◌∷◌, ◌++◌, ◌||◌, [], ℕ, List, true, None, Some, IfOk, IfErr, OnOk, OnErr, length, reverse};
ghost use Rattle.std.specs.List.{fold, list_all};
ghost use Rattle.std.specs.Result.{IsErrOf};
ghost use Rattle.pf_model.specs.Limits.{IsGraphWithinLimits};
ghost use Rattle.pf_model.specs.Edits.{fault_of, effect, Refuses};
ghost use Rattle.pf_model.specs.Merges.{merge_fault};
ghost use Rattle.pf_model.specs.Fits.{fits};
ghost use Rattle.pf_edits.specs.Ways.{is_in};
ghost use Rattle.pf_edits.specs.Extents.{parents_of};
ghost use Rattle.pf_edits.specs.Working.{told, IsWorking};
ghost use Rattle.pf_edits.specs.Undoing.{graph_before, parents_before, brings_back, CanUndo, KeepsParents, AllUndoable, before_all};
ghost use Rattle.pf_edits.specs.Settling.{asked_link, any_asks, IsTight, IsTightBut, Grows, IsNoted, ComeFrom};
ghost use Rattle.pf_edits.specs.Refusals.{RefusesAll, BeginsWell};

use crate::climb::over_children;
use crate::errors::EditsError;
use crate::links::relink_freely;
use crate::nodes::{insert, remove, swap_kind};
use crate::records::Record;
use crate::undo::{Older, Undo};
use crate::work::Work;
use pf_model::{Edit, EditError, Ids, Kind};

impl Work {
    /// Takes out a node that was made.
    fn undo_make(&mut self, id: u16)
        requires working { IsWorking self.old }
        requires within { IsGraphWithinLimits (graph_before id Older.Made (told self.old)) }
        requires can { CanUndo id Older.Made (told self.old) (parents_of self.old.records.slots) }
        ensures working { IsWorking self.new }
        ensures told { told self.new ≡ graph_before id Older.Made (told self.old) }
        ensures parents { (b : ℕ) → (p : ℕ) → is_in p (parents_before id Older.Made (parents_of self.old.records.slots) b) ≡ true
            → is_in p (parents_of self.new.records.slots b) ≡ true }
        ensures entries { (b : ℕ) → (p : ℕ) → is_in p (parents_of self.new.records.slots b) ≡ true
            → (is_in p (parents_of self.old.records.slots b) || brings_back id Older.Made p b) ≡ true }
    {
        remove(&mut self.records, id);
        let serial = self.next_serial - 1;
        self.next_serial = serial;
    }

    /// Puts a deleted node back.
    fn undo_delete(&mut self, id: u16, older: Record)
        requires working { IsWorking self.old }
        requires within { IsGraphWithinLimits (graph_before id (Older.Deleted older) (told self.old)) }
        requires can { CanUndo id (Older.Deleted older) (told self.old) (parents_of self.old.records.slots) }
        ensures working { IsWorking self.new }
        ensures told { told self.new ≡ graph_before id (Older.Deleted older) (told self.old) }
        ensures parents { (b : ℕ) → (p : ℕ) → is_in p (parents_before id (Older.Deleted older) (parents_of self.old.records.slots) b) ≡ true
            → is_in p (parents_of self.new.records.slots b) ≡ true }
        ensures entries { (b : ℕ) → (p : ℕ) → is_in p (parents_of self.new.records.slots b) ≡ true
            → (is_in p (parents_of self.old.records.slots b) || brings_back id (Older.Deleted older) p b) ≡ true }
    {
        let Record {
            node,
            parents,
            extent: _,
            before: _,
        } = older;
        let count = self.records.len();
        prove!(count < 4_097);
        insert(&mut self.records, id, node, parents);
        self.gone.pop();
    }

    /// Gives a node its older children.
    fn undo_link(&mut self, id: u16, children: Ids)
        requires working { IsWorking self.old }
        requires within { IsGraphWithinLimits (graph_before id (Older.Children children) (told self.old)) }
        requires can { CanUndo id (Older.Children children) (told self.old) (parents_of self.old.records.slots) }
        ensures working { IsWorking self.new }
        ensures told { told self.new ≡ graph_before id (Older.Children children) (told self.old) }
        ensures parents { (b : ℕ) → (p : ℕ) → is_in p (parents_of self.old.records.slots b) ≡ true
            → is_in p (parents_of self.new.records.slots b) ≡ true }
        ensures entries { (b : ℕ) → (p : ℕ) → is_in p (parents_of self.new.records.slots b) ≡ true
            → (is_in p (parents_of self.old.records.slots b) || brings_back id (Older.Children children) p b) ≡ true }
    {
        let extent = over_children(&self.records, children.as_slice());
        relink_freely(&mut self.records, &mut self.way, id, children, extent);
    }

    /// Gives a node its older kind.
    fn undo_kind(&mut self, id: u16, kind: Kind)
        requires working { IsWorking self.old }
        requires within { IsGraphWithinLimits (graph_before id (Older.Kind kind) (told self.old)) }
        requires can { CanUndo id (Older.Kind kind) (told self.old) (parents_of self.old.records.slots) }
        ensures working { IsWorking self.new }
        ensures told { told self.new ≡ graph_before id (Older.Kind kind) (told self.old) }
        ensures parents { (b : ℕ) → (p : ℕ) → is_in p (parents_of self.old.records.slots b) ≡ true
            → is_in p (parents_of self.new.records.slots b) ≡ true }
        ensures entries { (b : ℕ) → (p : ℕ) → is_in p (parents_of self.new.records.slots b) ≡ true
            → (is_in p (parents_of self.old.records.slots b) || brings_back id (Older.Kind kind) p b) ≡ true }
    {
        swap_kind(&mut self.records, id, kind);
    }

    /// Undoes the last edit.
    fn undo(&mut self, u: Undo)
        requires working { IsWorking self.old }
        requires within { IsGraphWithinLimits (graph_before u.id u.older (told self.old)) }
        requires can { CanUndo u.id u.older (told self.old) (parents_of self.old.records.slots) }
        ensures working { IsWorking self.new }
        ensures told { told self.new ≡ graph_before u.id u.older (told self.old) }
        ensures parents { (b : ℕ) → (p : ℕ) → is_in p (parents_before u.id u.older (parents_of self.old.records.slots) b) ≡ true
            → is_in p (parents_of self.new.records.slots b) ≡ true }
        ensures entries { (b : ℕ) → (p : ℕ) → is_in p (parents_of self.new.records.slots b) ≡ true
            → (is_in p (parents_of self.old.records.slots b) || brings_back u.id u.older p b) ≡ true }
    {
        let Undo { id, older } = u;
        match older {
            Older::Made => self.undo_make(id),
            Older::Deleted(record) => self.undo_delete(id, record),
            Older::Children(children) => self.undo_link(id, children),
            Older::Kind(kind) => self.undo_kind(id, kind),
        }
    }

    /// Undoes edits, the last first.
    fn roll_back(&mut self, done: &mut Vec<Undo>)
        requires working { IsWorking self.old }
        requires undoable { AllUndoable (told self.old) (parents_of self.old.records.slots) (reverse done.old.items) }
        ensures working { IsWorking self.new }
        ensures told { told self.new ≡ before_all (told self.old) (reverse done.old.items) }
        ensures asked { (es : List Edit)
            → ComeFrom (before_all (told self.old) (reverse done.old.items)) es self.old.records.slots (reverse done.old.items)
            → IsTightBut self.new.records.slots (any_asks es) }
    {
        while let Some(undo) = done.pop() {
            self.undo(undo);
        }
    }

    /// Undoes edits of a list, the last first, and forgets the links that they had asked for.
    fn take_back(&mut self, es: &[Edit], done: &mut Vec<Undo>)
        requires working { IsWorking self.old }
        requires undoable { AllUndoable (told self.old) (parents_of self.old.records.slots) (reverse done.old.items) }
        requires asked { ComeFrom (before_all (told self.old) (reverse done.old.items)) es.now self.old.records.slots
            (reverse done.old.items) }
        ensures working { IsWorking self.new }
        ensures told { told self.new ≡ before_all (told self.old) (reverse done.old.items) }
        ensures tight { IsTight self.new.records.slots }
    {
        self.roll_back(done);
        self.settle_all_undone(es);
    }

    /// Makes an edit without fault and notes what undoes it. Only want of memory can stop it.
    fn apply_noted(&mut self, e: &Edit, done: &mut Vec<Undo>) -> Result<(), EditError>
        requires working { IsWorking self.old }
        requires serials { self.old.next_serial < 2 ^ 32 - 1 }
        requires fits { fits e.now ≡ true }
        requires none { None ≡ fault_of (told self.old) e.now }
        requires undoable { AllUndoable (told self.old) (parents_of self.old.records.slots) (reverse done.old.items) }
        ensures working { IsWorking self.new }
        ensures undoable { AllUndoable (told self.new) (parents_of self.new.records.slots) (reverse done.new.items) }
        ensures before { before_all (told self.new) (reverse done.new.items)
            ≡ before_all (told self.old) (reverse done.old.items) }
        ensures after { OnOk result (told self.new ≡ effect (told self.old) e.now) }
        ensures grown { OnOk result (Grows (asked_link e.now) self.old.records.slots self.new.records.slots) }
        ensures noted { OnOk result (IsNoted self.old self.new done.old.items done.new.items) }
        ensures fewer { OnErr result (KeepsParents self.new self.old) }
        ensures same { OnErr result (done.new.items ≡ done.old.items) }
        ensures memory { IfErr result (λ r. r ≡ EditError.NoMemory) }
    {
        done.reserve(1)?;
        let undo = self.apply(e)?;
        match done.push(undo) {
            Ok(()) => Ok(()),
            Err(_) => unreachable!(),
        }
    }

    /// Makes an edit and notes what undoes it, or refuses it. All its faults are tested before memory is asked.
    fn step(&mut self, e: &Edit, done: &mut Vec<Undo>) -> Result<(), EditError>
        requires working { IsWorking self.old }
        requires serials { self.old.next_serial < 2 ^ 32 - 1 }
        requires fits { fits e.now ≡ true }
        requires undoable { AllUndoable (told self.old) (parents_of self.old.records.slots) (reverse done.old.items) }
        ensures working { IsWorking self.new }
        ensures undoable { AllUndoable (told self.new) (parents_of self.new.records.slots) (reverse done.new.items) }
        ensures before { before_all (told self.new) (reverse done.new.items)
            ≡ before_all (told self.old) (reverse done.old.items) }
        ensures done { OnOk result (fault_of (told self.old) e.now ≡ None) }
        ensures after { OnOk result (told self.new ≡ effect (told self.old) e.now) }
        ensures grown { OnOk result (Grows (asked_link e.now) self.old.records.slots self.new.records.slots) }
        ensures noted { OnOk result (IsNoted self.old self.new done.old.items done.new.items) }
        ensures fewer { OnErr result (KeepsParents self.new self.old) }
        ensures same { OnErr result (done.new.items ≡ done.old.items) }
        ensures fault { IfErr result (λ r. Refuses r (fault_of (told self.old) e.now)) }
        ensures memory { IsErrOf result EditError.NoMemory → fault_of (told self.old) e.now ≡ None }
    {
        if let Some(fault) = self.judge(e) {
            return Err(EditError::Fault(fault));
        }
        self.apply_noted(e, done)
    }

    /// Makes all edits of a list in order, or none of them.
    pub(crate) fn edits(&mut self, es: &[Edit]) -> Result<(), EditsError>
        requires working { IsWorking self.old }
        requires tight { IsTight self.old.records.slots }
        requires serials { self.old.next_serial + length es.now < 2 ^ 32 }
        requires fits { list_all fits es.now ≡ true }
        ensures working { IsWorking self.new }
        ensures tight { IsTight self.new.records.slots }
        ensures done { OnOk result (merge_fault (told self.old) es.now ≡ None) }
        ensures after { OnOk result (told self.new ≡ fold effect (told self.old) es.now) }
        ensures fault { IfErr result (λ r. RefusesAll r (merge_fault (told self.old) es.now)) }
        ensures memory { IsErrOf result EditsError.NoMemory → BeginsWell (told self.old) es.now }
        ensures unchanged { OnErr result (told self.new ≡ told self.old) }
    {
        let mut done = Vec::new(*self.gone.allocator());
        let mut place: u32 = 0;
        for e in es {
            place += 1;
            if let Err(error) = self.step(e, &mut done) {
                self.take_back(es, &mut done);
                return Err(EditsError::at(place, error));
            }
        }
        self.settle_all(es, done.as_slice());
        Ok(())
    }
}
