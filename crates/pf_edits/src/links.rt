//! Other children of a node, with extents reckoned anew along the way up from it.
ghost use Rattle.std.specs.Prelude.{◌≡◌, ◌≤◌, ◌==◌, ◌||◌, ◌∷◌, ◌++◌, [], ℕ, List, true, false, if◌then◌else◌, reverse, Some, is_some, OnOk, OnErr};
ghost use Rattle.std.specs.Option.{option_map};
ghost use Rattle.pf_model.specs.Graphs.{children_of, change, size_of, is_below};
ghost use Rattle.pf_model.specs.Limits.{has_child};
ghost use Rattle.pf_model.specs.Laws.{AreLow};
ghost use Rattle.pf_model.specs.NodeEdits.{with_children};
ghost use Rattle.pf_model.specs.Edits.{first, size_rules};
ghost use Rattle.pf_edits.specs.Ways.{is_in, LeadUp};
ghost use Rattle.pf_edits.specs.Extents.{look_of, parents_of, extent_at, reckoned, child_list, Meets, IsSound};
ghost use Rattle.pf_edits.specs.Listed.{nodes_of};
ghost use Rattle.pf_edits.specs.Settling.{Grows};

use crate::climb::{climb, extent_at, has_child, has_room, is_in, set_along};
use crate::extents::Extent;
use crate::faults::excess;
use crate::records::Records;
use crate::way::Way;
use pf_io::NoMemory;
use pf_model::{Fault, Ids};

/// Puts other children into a node, and hands back those that stood there.
fn swap_children(records: &mut Records, id: u16, children: Ids) -> Ids
    requires { is_some (look_of records.old.slots id) ≡ true }
    ensures back { option_map child_list (look_of records.old.slots id) ≡ Some result }
    ensures nodes { (b : ℕ) → look_of records.new.slots b
        ≡ (if b == id then option_map (with_children children) (look_of records.old.slots b)
        else look_of records.old.slots b) }
    ensures parents { (b : ℕ) → parents_of records.new.slots b ≡ parents_of records.old.slots b }
    ensures extents { (b : ℕ) → extent_at records.new.slots b ≡ extent_at records.old.slots b }
{
    match records.swap_children(id, children) {
        Some(older) => older,
        None => unreachable!(),
    }
}

/// Gives a node other children, with which its extent is known, and reckons those above it anew along a way up.
fn relink_along(records: &mut Records, way: &Way, id: u16, children: Ids, extent: Extent) -> Ids
    requires there { is_some (look_of records.old.slots id) ≡ true }
    requires meets { Meets (look_of records.old.slots) (extent_at records.old.slots) }
    requires leads { LeadUp (look_of records.old.slots) way.now }
    requires member { is_in id way.now ≡ true }
    requires apart { (x : ℕ) → is_in x way.now ≡ true → is_in x children ≡ false }
    requires extent { extent ≡ reckoned (extent_at records.old.slots) children }
    ensures back { option_map child_list (look_of records.old.slots id) ≡ Some result }
    ensures nodes { (b : ℕ) → look_of records.new.slots b
        ≡ (if b == id then option_map (with_children children) (look_of records.old.slots b)
        else look_of records.old.slots b) }
    ensures parents { (b : ℕ) → parents_of records.new.slots b ≡ parents_of records.old.slots b }
    ensures meets { Meets (look_of records.new.slots) (extent_at records.new.slots) }
    ensures others { (b : ℕ) → is_in b way.now ≡ false
        → extent_at records.new.slots b ≡ extent_at records.old.slots b }
{
    let older = swap_children(records, id, children);
    set_along(records, way, id, extent);
    older
}

/// Gives a node other children, all of which have it noted as a parent, and with which its extent is known.
pub(crate) fn relink_freely(
    records: &mut Records,
    way: &mut Way,
    id: u16,
    children: Ids,
    extent: Extent,
) -> Ids
    requires way { way.old ≡ [] }
    requires sound { IsSound records.old.slots }
    requires low { AreLow (look_of records.old.slots) }
    requires there { is_some (look_of records.old.slots id) ≡ true }
    requires noted { (x : ℕ) → is_in x children ≡ true → is_in id (parents_of records.old.slots x) ≡ true }
    requires apart { (x : ℕ) → is_in x children ≡ true
        → (x == id || is_below (look_of records.old.slots) x id) ≡ false }
    requires extent { extent ≡ reckoned (extent_at records.old.slots) children }
    ensures way { way.new ≡ [] }
    ensures back { option_map child_list (look_of records.old.slots id) ≡ Some result }
    ensures nodes { (b : ℕ) → look_of records.new.slots b
        ≡ (if b == id then option_map (with_children children) (look_of records.old.slots b)
        else look_of records.old.slots b) }
    ensures parents { (b : ℕ) → parents_of records.new.slots b ≡ parents_of records.old.slots b }
    ensures sound { IsSound records.new.slots }
{
    climb(records, way, id);
    let older = relink_along(records, way, id, children, extent);
    way.clear();
    older
}

/// The fault of depth or size that a graph would have where a node had other children, with which its extent is known,
/// by the extents along a way up from it. All stays as it is. Where there is no room for sure, the extents are set as
/// after the change, and then back.
pub(crate) fn fault_along(
    records: &mut Records,
    way: &Way,
    id: u16,
    extent: Extent,
) -> Option<Fault>
    requires sound { IsSound records.old.slots }
    requires low { AreLow (look_of records.old.slots) }
    requires small { (b : ℕ) → size_of (look_of records.old.slots) b ≤ 131072 }
    requires there { is_some (look_of records.old.slots id) ≡ true }
    requires leads { LeadUp (look_of records.old.slots) way.now }
    requires member { is_in id way.now ≡ true }
    requires above { (b : ℕ) → is_in b way.now ≡ true
        → (b == id || is_below (look_of records.old.slots) b id) ≡ true }
    ensures fault { (cs : List ℕ) → extent ≡ reckoned (extent_at records.old.slots) cs
        → ((x : ℕ) → is_in x cs ≡ true → (x == id || is_below (look_of records.old.slots) x id) ≡ false)
        → result ≡ first (size_rules (change id (with_children cs) (nodes_of records.old.slots))) }
    ensures nodes { (b : ℕ) → look_of records.new.slots b ≡ look_of records.old.slots b }
    ensures parents { (b : ℕ) → parents_of records.new.slots b ≡ parents_of records.old.slots b }
    ensures sound { IsSound records.new.slots }
{
    let before = extent_at(records, id);
    if has_room(records, way.as_slice(), before, extent) {
        return None;
    }
    set_along(records, way, id, extent);
    let fault = excess(records, way.as_slice());
    set_along(records, way, id, before);
    fault
}

/// Notes a parent of a node.
fn note_parent(records: &mut Records, id: u16, parent: u16) -> Result<(), NoMemory>
    ensures nodes { (b : ℕ) → look_of records.new.slots b ≡ look_of records.old.slots b }
    ensures extents { (b : ℕ) → extent_at records.new.slots b ≡ extent_at records.old.slots b }
    ensures noted { OnOk result (is_some (look_of records.old.slots id) ≡ true
        → is_in parent (parents_of records.new.slots id) ≡ true) }
    ensures kept { (b : ℕ) → (p : ℕ) → is_in p (parents_of records.old.slots b) ≡ true
        → is_in p (parents_of records.new.slots b) ≡ true }
    ensures grown { OnOk result (Grows (Some (parent, id)) records.old.slots records.new.slots) }
    ensures fewer { OnErr result ((b : ℕ) → (p : ℕ) → is_in p (parents_of records.new.slots b) ≡ true
        → is_in p (parents_of records.old.slots b) ≡ true) }
{
    match records.take(id) {
        Some(mut record) => {
            let noted = record.parents.push(parent);
            records.put(id, record);
            noted
        }
        None => Ok(()),
    }
}

/// Whether a parent of a node is noted.
fn is_noted(records: &Records, id: u16, parent: u16) -> bool
    ensures { result ≡ is_in parent (parents_of records.now.slots id) }
{
    match records.find(id) {
        Some(record) => is_in(parent, record.parents.as_slice()),
        None => false,
    }
}

/// Makes sure that a parent of a node is noted, before the node is its child.
pub(crate) fn note_link(records: &mut Records, id: u16, parent: u16) -> Result<(), NoMemory>
    requires sound { IsSound records.old.slots }
    requires there { is_some (look_of records.old.slots id) ≡ true }
    ensures nodes { (b : ℕ) → look_of records.new.slots b ≡ look_of records.old.slots b }
    ensures extents { (b : ℕ) → extent_at records.new.slots b ≡ extent_at records.old.slots b }
    ensures sound { IsSound records.new.slots }
    ensures noted { OnOk result (is_in parent (parents_of records.new.slots id) ≡ true) }
    ensures kept { (b : ℕ) → (p : ℕ) → is_in p (parents_of records.old.slots b) ≡ true
        → is_in p (parents_of records.new.slots b) ≡ true }
    ensures grown { OnOk result (Grows (Some (parent, id)) records.old.slots records.new.slots) }
    ensures fewer { OnErr result ((b : ℕ) → (p : ℕ) → is_in p (parents_of records.new.slots b) ≡ true
        → is_in p (parents_of records.old.slots b) ≡ true) }
{
    if has_child(records, parent, id) || is_noted(records, id, parent) {
        return Ok(());
    }
    note_parent(records, id, parent)
}
