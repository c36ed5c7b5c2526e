//! Entries of parents whose link is gone, taken out once nothing is undone any more.
ghost use Rattle.std.specs.Prelude.{◌≡◌, ◌==◌, ◌&&◌, ℕ, true, false};
ghost use Rattle.pf_model.specs.Limits.{has_child};
ghost use Rattle.pf_edits.specs.Ways.{is_in};
ghost use Rattle.pf_edits.specs.Extents.{look_of, parents_of, extent_at, IsSound};
ghost use Rattle.pf_edits.specs.Working.{told, IsWorking};
ghost use Rattle.pf_edits.specs.Undoing.{frees, KeepsParents};
ghost use Rattle.pf_edits.specs.Settling.{asked_link, lost_link, is_link, loses, any_asks, any_takes, any_frees, any_loses, IsTight, IsTightBut, AreSettled};

use crate::climb::has_child;
use crate::records::Records;
use crate::undo::{Older, Undo};
use crate::work::Work;
use pf_model::Edit;

/// Forgets a parent of a node.
fn forget_parent(records: &mut Records, id: u16, parent: u16)
    ensures nodes { (b : ℕ) → look_of records.new.slots b ≡ look_of records.old.slots b }
    ensures extents { (b : ℕ) → extent_at records.new.slots b ≡ extent_at records.old.slots b }
    ensures gone { is_in parent (parents_of records.new.slots id) ≡ false }
    ensures fewer { (b : ℕ) → (p : ℕ) → is_in p (parents_of records.new.slots b) ≡ true
        → is_in p (parents_of records.old.slots b) ≡ true }
    ensures kept { (b : ℕ) → (p : ℕ) → (b == id && p == parent) ≡ false
        → is_in p (parents_of records.old.slots b) ≡ true → is_in p (parents_of records.new.slots b) ≡ true }
{
    if let Some(mut record) = records.take(id) {
        record.parents.forget(parent);
        records.put(id, record);
    }
}

/// Forgets a parent of a node that is not its child.
fn settle_link(records: &mut Records, parent: u16, child: u16)
    requires { IsSound records.old.slots }
    ensures nodes { (b : ℕ) → look_of records.new.slots b ≡ look_of records.old.slots b }
    ensures sound { IsSound records.new.slots }
    ensures gone { has_child (look_of records.new.slots) parent child ≡ false
        → is_in parent (parents_of records.new.slots child) ≡ false }
    ensures fewer { (b : ℕ) → (p : ℕ) → is_in p (parents_of records.new.slots b) ≡ true
        → is_in p (parents_of records.old.slots b) ≡ true }
{
    if !has_child(records, parent, child) {
        forget_parent(records, child, parent);
    }
}

/// Forgets a parent of those of these nodes that are not its children.
fn settle_links(records: &mut Records, parent: u16, children: &[u16])
    requires { IsSound records.old.slots }
    ensures nodes { (b : ℕ) → look_of records.new.slots b ≡ look_of records.old.slots b }
    ensures sound { IsSound records.new.slots }
    ensures fewer { (b : ℕ) → (p : ℕ) → is_in p (parents_of records.new.slots b) ≡ true
        → is_in p (parents_of records.old.slots b) ≡ true }
    ensures settled { AreSettled records.new.slots (λ y x. parent == y && is_in x children.now) }
{
    for child in children {
        settle_link(records, parent, *child);
    }
}

/// The parent and the child of the link that an edit asks for.
fn asked_link(e: &Edit) -> Option<(u16, u16)>
    ensures { result ≡ asked_link e.now }
{
    match e {
        Edit::Add { parent, child } => Some((*parent, *child)),
        Edit::Insert { parent, child, .. } => Some((*parent, *child)),
        Edit::Replace { parent, by, .. } => Some((*parent, *by)),
        _ => None,
    }
}

/// The parent and the child of the link that an edit takes away.
fn lost_link(e: &Edit) -> Option<(u16, u16)>
    ensures { result ≡ lost_link e.now }
{
    match e {
        Edit::Replace { parent, child, .. } => Some((*parent, *child)),
        Edit::Remove { parent, child } => Some((*parent, *child)),
        _ => None,
    }
}

impl Work {
    /// Forgets the parent of a pair of parent and child that is no link.
    fn settle_pair(&mut self, pair: Option<(u16, u16)>)
        requires { IsWorking self.old }
        ensures working { IsWorking self.new }
        ensures told { told self.new ≡ told self.old }
        ensures fewer { KeepsParents self.new self.old }
        ensures settled { AreSettled self.new.records.slots (is_link pair) }
    {
        if let Some((parent, child)) = pair {
            settle_link(&mut self.records, parent, child);
        }
    }

    /// Forgets a node that an edit deleted as the parent of its children.
    fn settle_deleted(&mut self, u: &Undo)
        requires { IsWorking self.old }
        ensures working { IsWorking self.new }
        ensures told { told self.new ≡ told self.old }
        ensures fewer { KeepsParents self.new self.old }
        ensures settled { AreSettled self.new.records.slots (frees u.now.id u.now.older) }
    {
        if let Older::Deleted(record) = &u.older {
            settle_links(&mut self.records, u.id, record.node.children.as_slice());
        }
    }

    /// Forgets the links that an edit took away.
    pub(crate) fn settle(&mut self, e: &Edit, u: &Undo)
        requires working { IsWorking self.old }
        requires lost { IsTightBut self.old.records.slots (loses e.now u.now) }
        ensures working { IsWorking self.new }
        ensures told { told self.new ≡ told self.old }
        ensures tight { IsTight self.new.records.slots }
    {
        self.settle_pair(lost_link(e));
        self.settle_deleted(u);
    }

    /// Forgets the links between two nodes that edits took away.
    fn settle_lost(&mut self, es: &[Edit])
        requires { IsWorking self.old }
        ensures working { IsWorking self.new }
        ensures told { told self.new ≡ told self.old }
        ensures fewer { KeepsParents self.new self.old }
        ensures settled { AreSettled self.new.records.slots (any_takes es.now) }
    {
        for e in es {
            self.settle_pair(lost_link(e));
        }
    }

    /// Forgets the nodes that edits deleted as the parents of their children.
    fn settle_all_deleted(&mut self, done: &[Undo])
        requires { IsWorking self.old }
        ensures working { IsWorking self.new }
        ensures told { told self.new ≡ told self.old }
        ensures fewer { KeepsParents self.new self.old }
        ensures settled { AreSettled self.new.records.slots (any_frees done.now) }
    {
        for undo in done {
            self.settle_deleted(undo);
        }
    }

    /// Forgets the links that edits took away.
    pub(crate) fn settle_all(&mut self, es: &[Edit], done: &[Undo])
        requires working { IsWorking self.old }
        requires lost { IsTightBut self.old.records.slots (any_loses es.now done.now) }
        ensures working { IsWorking self.new }
        ensures told { told self.new ≡ told self.old }
        ensures tight { IsTight self.new.records.slots }
    {
        self.settle_lost(es);
        self.settle_all_deleted(done);
    }

    /// Forgets the links that undone edits had asked for, but for those that there are.
    fn settle_asked(&mut self, es: &[Edit])
        requires { IsWorking self.old }
        ensures working { IsWorking self.new }
        ensures told { told self.new ≡ told self.old }
        ensures fewer { KeepsParents self.new self.old }
        ensures settled { AreSettled self.new.records.slots (any_asks es.now) }
    {
        for e in es {
            self.settle_pair(asked_link(e));
        }
    }

    /// Forgets the links that undone edits had asked for.
    pub(crate) fn settle_all_undone(&mut self, es: &[Edit])
        requires working { IsWorking self.old }
        requires asked { IsTightBut self.old.records.slots (any_asks es.now) }
        ensures working { IsWorking self.new }
        ensures told { told self.new ≡ told self.old }
        ensures tight { IsTight self.new.records.slots }
    {
        self.settle_asked(es);
    }
}
