//! Faults of edits, with those that speak of the graph after the edit. All stays as it was.
ghost use Rattle.std.specs.Prelude.{◌≡◌, ◌==◌, ◌||◌, ℕ, List, true, false, is_some};
ghost use Rattle.std.specs.List.{position};
ghost use Rattle.pf_model.specs.Graphs.{node_at, children_of, is_below, change};
ghost use Rattle.pf_model.specs.Limits.{is_there, IsGraphWithinLimits};
ghost use Rattle.pf_model.specs.NodeEdits.{with_children, is_attribute};
ghost use Rattle.pf_model.specs.Edits.{first, size_rules, fault_of};
ghost use Rattle.pf_model.specs.Children.{replace_first};
ghost use Rattle.pf_edits.specs.Ways.{is_in, LeadUp, IsUpFrom};
ghost use Rattle.pf_edits.specs.Extents.{look_of, extent_at, joined, reckoned, IsSound};
ghost use Rattle.pf_edits.specs.Listed.{nodes_of};
ghost use Rattle.pf_edits.specs.Working.{told, IsWorking};
ghost use Rattle.pf_edits.specs.Undoing.{KeepsParents};

use crate::climb::{climb, lengthened_extent, over_children, over_swapped};
use crate::extents::{Extent, LEAF};
use crate::faults::{
    fault_of_add, fault_of_delete, fault_of_insert, fault_of_make, fault_of_remove,
    fault_of_replace, find_node,
};
use crate::links::fault_along;
use crate::records::Records;
use crate::work::Work;
use pf_model::{Edit, Fault, attribute_fault};

/// The place of the first that is this child.
fn place_in(children: &[u16], child: u16) -> Option<usize>
    ensures { result ≡ position (λ c. c == child) children.now }
{
    children.iter().position(|c| *c == child)
}

/// The extent of a node with `by` in the place of the first child that is this one.
fn over_replaced(records: &Records, children: &[u16], child: u16, by: u16) -> Extent
    ensures { result ≡ reckoned (extent_at records.now.slots) (replace_first child by children.now) }
{
    match place_in(children, child) {
        Some(place) => over_swapped(records, children, place, by),
        None => over_children(records, children),
    }
}

/// The extent of a parent with `by` in the place of the first child that is this one.
fn replaced_extent(records: &Records, parent: u16, child: u16, by: u16) -> Extent
    ensures { result ≡ reckoned (extent_at records.now.slots)
        (replace_first child by (children_of (node_at (nodes_of records.now.slots)) parent)) }
{
    match find_node(records, parent) {
        Some(node) => over_replaced(records, node.children.as_slice(), child, by),
        None => LEAF,
    }
}

impl Work {
    /// The fault of depth or size of the graph where a parent had other children, with which its extent is known, by
    /// the way up from the parent.
    fn size_fault(&mut self, parent: u16, extent: Extent) -> Option<Fault>
        requires sound { IsSound self.old.records.slots }
        requires within { IsGraphWithinLimits (told self.old) }
        requires leads { LeadUp (look_of self.old.records.slots) self.old.way }
        requires above { IsUpFrom (look_of self.old.records.slots) self.old.way parent }
        requires there { is_there (node_at (nodes_of self.old.records.slots)) parent ≡ true }
        ensures fault { (cs : List ℕ) → extent ≡ reckoned (extent_at self.old.records.slots) cs
            → ((x : ℕ) → is_in x cs ≡ true
            → (x == parent || is_below (look_of self.old.records.slots) x parent) ≡ false)
            → result ≡ first (size_rules (change parent (with_children cs) (nodes_of self.old.records.slots))) }
        ensures sound { IsSound self.new.records.slots }
        ensures told { told self.new ≡ told self.old }
        ensures kept { KeepsParents self.old self.new }
        ensures fewer { KeepsParents self.new self.old }
    {
        fault_along(&mut self.records, &self.way, parent, extent)
    }

    /// The fault of an Add, by the way up from its parent.
    fn judge_add_along(&mut self, parent: u16, child: u16) -> Option<Fault>
        requires sound { IsSound self.old.records.slots }
        requires within { IsGraphWithinLimits (told self.old) }
        requires leads { LeadUp (look_of self.old.records.slots) self.old.way }
        requires above { IsUpFrom (look_of self.old.records.slots) self.old.way parent }
        ensures fault { result ≡ fault_of (told self.old) (Edit.Add parent child) }
        ensures sound { IsSound self.new.records.slots }
        ensures told { told self.new ≡ told self.old }
        ensures kept { KeepsParents self.old self.new }
        ensures fewer { KeepsParents self.new self.old }
    {
        if let Some(fault) = fault_of_add(&self.records, &self.way, parent, child) {
            return Some(fault);
        }
        let extent = lengthened_extent(&self.records, parent, child);
        self.size_fault(parent, extent)
    }

    /// The fault of an Add.
    fn judge_add(&mut self, parent: u16, child: u16) -> Option<Fault>
        requires working { IsWorking self.old }
        ensures fault { result ≡ fault_of (told self.old) (Edit.Add parent child) }
        ensures working { IsWorking self.new }
        ensures told { told self.new ≡ told self.old }
        ensures kept { KeepsParents self.old self.new }
        ensures fewer { KeepsParents self.new self.old }
    {
        climb(&self.records, &mut self.way, parent);
        let fault = self.judge_add_along(parent, child);
        self.way.clear();
        fault
    }

    /// The fault of an Insert, by the way up from its parent.
    fn judge_insert_along(&mut self, parent: u16, place: u16, child: u16) -> Option<Fault>
        requires sound { IsSound self.old.records.slots }
        requires within { IsGraphWithinLimits (told self.old) }
        requires leads { LeadUp (look_of self.old.records.slots) self.old.way }
        requires above { IsUpFrom (look_of self.old.records.slots) self.old.way parent }
        ensures fault { result ≡ fault_of (told self.old) (Edit.Insert parent place child) }
        ensures sound { IsSound self.new.records.slots }
        ensures told { told self.new ≡ told self.old }
        ensures kept { KeepsParents self.old self.new }
        ensures fewer { KeepsParents self.new self.old }
    {
        if let Some(fault) = fault_of_insert(&self.records, &self.way, parent, place, child) {
            return Some(fault);
        }
        let extent = lengthened_extent(&self.records, parent, child);
        self.size_fault(parent, extent)
    }

    /// The fault of an Insert.
    fn judge_insert(&mut self, parent: u16, place: u16, child: u16) -> Option<Fault>
        requires working { IsWorking self.old }
        ensures fault { result ≡ fault_of (told self.old) (Edit.Insert parent place child) }
        ensures working { IsWorking self.new }
        ensures told { told self.new ≡ told self.old }
        ensures kept { KeepsParents self.old self.new }
        ensures fewer { KeepsParents self.new self.old }
    {
        climb(&self.records, &mut self.way, parent);
        let fault = self.judge_insert_along(parent, place, child);
        self.way.clear();
        fault
    }

    /// The fault of a Replace, by the way up from its parent.
    fn judge_replace_along(&mut self, parent: u16, child: u16, by: u16) -> Option<Fault>
        requires sound { IsSound self.old.records.slots }
        requires within { IsGraphWithinLimits (told self.old) }
        requires leads { LeadUp (look_of self.old.records.slots) self.old.way }
        requires above { IsUpFrom (look_of self.old.records.slots) self.old.way parent }
        ensures fault { result ≡ fault_of (told self.old) (Edit.Replace parent child by) }
        ensures sound { IsSound self.new.records.slots }
        ensures told { told self.new ≡ told self.old }
        ensures kept { KeepsParents self.old self.new }
        ensures fewer { KeepsParents self.new self.old }
    {
        if let Some(fault) = fault_of_replace(&self.records, &self.way, parent, child, by) {
            return Some(fault);
        }
        let extent = replaced_extent(&self.records, parent, child, by);
        self.size_fault(parent, extent)
    }

    /// The fault of a Replace.
    fn judge_replace(&mut self, parent: u16, child: u16, by: u16) -> Option<Fault>
        requires working { IsWorking self.old }
        ensures fault { result ≡ fault_of (told self.old) (Edit.Replace parent child by) }
        ensures working { IsWorking self.new }
        ensures told { told self.new ≡ told self.old }
        ensures kept { KeepsParents self.old self.new }
        ensures fewer { KeepsParents self.new self.old }
    {
        climb(&self.records, &mut self.way, parent);
        let fault = self.judge_replace_along(parent, child, by);
        self.way.clear();
        fault
    }

    /// The fault of an edit that changes the kind of one node.
    fn judge_attribute(&self, e: &Edit) -> Option<Fault>
        requires { is_attribute e.now ≡ true }
        ensures { result ≡ fault_of (told self.now) e.now }
    {
        attribute_fault(find_node(&self.records, e.named()), e)
    }

    /// The fault of an edit, or none.
    pub(crate) fn judge(&mut self, e: &Edit) -> Option<Fault>
        requires working { IsWorking self.old }
        ensures fault { result ≡ fault_of (told self.old) e.now }
        ensures working { IsWorking self.new }
        ensures told { told self.new ≡ told self.old }
        ensures kept { KeepsParents self.old self.new }
        ensures fewer { KeepsParents self.new self.old }
    {
        match e {
            Edit::Make { id, .. } => fault_of_make(&self.records, *id),
            Edit::Add { parent, child } => self.judge_add(*parent, *child),
            Edit::Insert {
                parent,
                place,
                child,
            } => self.judge_insert(*parent, *place, *child),
            Edit::Replace { parent, child, by } => self.judge_replace(*parent, *child, *by),
            Edit::Remove { parent, child } => fault_of_remove(&self.records, *parent, *child),
            Edit::Delete { id } => fault_of_delete(&self.records, *id),
            Edit::Pick { .. }
            | Edit::Mat { .. }
            | Edit::Trans { .. }
            | Edit::Rot { .. }
            | Edit::Scale { .. }
            | Edit::Range { .. }
            | Edit::Centre { .. }
            | Edit::Times { .. }
            | Edit::Run { .. }
            | Edit::Stop { .. }
            | Edit::Verts { .. } => self.judge_attribute(e),
        }
    }
}
