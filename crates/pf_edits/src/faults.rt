//! Faults of edits, in the order of their rules.
ghost use Rattle.std.specs.Prelude.{◌≡◌, ◌==◌, ◌∷◌, ◌<◌, [], ℕ, true, false, nat_lt, length, map, None, is_some};
ghost use Rattle.std.specs.List.{list_any};
ghost use Rattle.std.specs.Option.{option_copied};
ghost use Rattle.pf_model.specs.Kinds.{is_geode};
ghost use Rattle.pf_model.specs.Graphs.{Nodes, node_at};
ghost use Rattle.pf_model.specs.Limits.{has_child, IsRising};
ghost use Rattle.pf_model.specs.Edits.{first, when, absent, has_kind, child_count, is_child, cycle, full, make_rules, link_rules, room_rules};
ghost use Rattle.pf_model.specs.Edits.{add_rules, insert_rules, swap_rules, replace_rules, remove_rules, delete_rules, size_rules};
ghost use Rattle.pf_edits.specs.Ways.{is_in, IsUpFrom};
ghost use Rattle.pf_edits.specs.Extents.{look_of, extent_at, Meets, IsSound, IsWithin};
ghost use Rattle.pf_edits.specs.Listed.{nodes_of};

use crate::climb;
use crate::records::Records;
use crate::way::Way;
use pf_model::{Fault, Node};

/// The node of an id.
#[tactic(auto, using(crate::proofs::Listed::found))]
pub(crate) fn find_node(records: &Records, id: u16) -> Option<&Node>
    ensures { option_copied result ≡ node_at (nodes_of records.now.slots) id }
{
    match records.find(id) {
        Some(record) => Some(&record.node),
        None => None,
    }
}

fn absent(records: &Records, id: u16) -> Option<Fault>
    ensures { result ≡ absent (nodes_of records.now.slots) id }
{
    if find_node(records, id).is_none() {
        return Some(Fault::Absent(id));
    }
    None
}

fn is_geode_at(records: &Records, id: u16) -> bool
    ensures { result ≡ has_kind is_geode (node_at (nodes_of records.now.slots) id) }
{
    match find_node(records, id) {
        Some(node) => node.kind.is_geode(),
        None => false,
    }
}

/// The number of children of a node.
pub(crate) fn child_count(records: &Records, id: u16) -> usize
    ensures { result ≡ child_count (nodes_of records.now.slots) id }
{
    match find_node(records, id) {
        Some(node) => node.children.len(),
        None => 0,
    }
}

fn is_child(records: &Records, parent: u16, child: u16) -> bool
    ensures { result ≡ is_child (nodes_of records.now.slots) parent child }
{
    match find_node(records, parent) {
        Some(node) => climb::is_in(child, node.children.as_slice()),
        None => false,
    }
}

/// A link that would put the parent below itself, by the way up from the parent: the child is on it.
#[tactic(auto, using(crate::proofs::Works::told_cycle))]
fn cycle(records: &Records, way: &Way, parent: u16, child: u16) -> Option<Fault>
    requires { IsUpFrom (look_of records.now.slots) way.now parent }
    ensures { result ≡ cycle (nodes_of records.now.slots) parent child }
{
    if way.contains(child) {
        Some(Fault::Cycle(parent, child))
    } else {
        None
    }
}

/// A parent that has 256 children.
fn full(records: &Records, parent: u16) -> Option<Fault>
    ensures { result ≡ full (nodes_of records.now.slots) parent }
{
    if child_count(records, parent) >= 256 {
        Some(Fault::Many(257))
    } else {
        None
    }
}

/// What stands in the way of a link, its place and its effect on others aside.
fn fault_of_link(records: &Records, parent: u16, child: u16) -> Option<Fault>
    ensures { result ≡ first (link_rules (nodes_of records.now.slots) parent child) }
{
    if let Some(fault) = absent(records, parent) {
        return Some(fault);
    }
    if let Some(fault) = absent(records, child) {
        return Some(fault);
    }
    if is_geode_at(records, parent) {
        return Some(Fault::Kind(parent));
    }
    if child == 0 {
        return Some(Fault::Kind(0));
    }
    None
}

/// A link that would put the parent below itself, or to a parent that has 256 children.
fn cycle_or_full(records: &Records, way: &Way, parent: u16, child: u16) -> Option<Fault>
    requires { IsUpFrom (look_of records.now.slots) way.now parent }
    ensures { result ≡ first (room_rules (nodes_of records.now.slots) parent child) }
{
    if let Some(fault) = cycle(records, way, parent, child) {
        return Some(fault);
    }
    full(records, parent)
}

/// The fault of an Add that does not speak of the graph after it.
pub(crate) fn fault_of_add(records: &Records, way: &Way, parent: u16, child: u16) -> Option<Fault>
    requires { IsUpFrom (look_of records.now.slots) way.now parent }
    ensures { result ≡ first (add_rules (nodes_of records.now.slots) parent child) }
{
    if let Some(fault) = fault_of_link(records, parent, child) {
        return Some(fault);
    }
    cycle_or_full(records, way, parent, child)
}

/// The fault of an Insert that does not speak of the graph after it.
pub(crate) fn fault_of_insert(
    records: &Records,
    way: &Way,
    parent: u16,
    place: u16,
    child: u16,
) -> Option<Fault>
    requires { IsUpFrom (look_of records.now.slots) way.now parent }
    ensures { result ≡ first (insert_rules (nodes_of records.now.slots) parent place child) }
{
    if let Some(fault) = fault_of_link(records, parent, child) {
        return Some(fault);
    }
    if usize::from(place) > child_count(records, parent) {
        return Some(Fault::Place(place));
    }
    cycle_or_full(records, way, parent, child)
}

fn absent_of_three(records: &Records, parent: u16, child: u16, by: u16) -> Option<Fault>
    ensures { result ≡ first (absent (nodes_of records.now.slots) parent ∷ absent (nodes_of records.now.slots) child
        ∷ absent (nodes_of records.now.slots) by ∷ []) }
{
    if let Some(fault) = absent(records, parent) {
        return Some(fault);
    }
    if let Some(fault) = absent(records, child) {
        return Some(fault);
    }
    absent(records, by)
}

/// What stands in the way of a replacement, its effect on others aside.
fn fault_of_swap(records: &Records, parent: u16, child: u16, by: u16) -> Option<Fault>
    ensures { result ≡ first (swap_rules (nodes_of records.now.slots) parent child by) }
{
    if let Some(fault) = absent_of_three(records, parent, child, by) {
        return Some(fault);
    }
    if is_geode_at(records, parent) {
        return Some(Fault::Kind(parent));
    }
    if by == 0 {
        return Some(Fault::Kind(0));
    }
    if !is_child(records, parent, child) {
        return Some(Fault::NotChild(parent, child));
    }
    None
}

/// The fault of a Replace that does not speak of the graph after it.
pub(crate) fn fault_of_replace(
    records: &Records,
    way: &Way,
    parent: u16,
    child: u16,
    by: u16,
) -> Option<Fault>
    requires { IsUpFrom (look_of records.now.slots) way.now parent }
    ensures { result ≡ first (replace_rules (nodes_of records.now.slots) parent child by) }
{
    if let Some(fault) = fault_of_swap(records, parent, child, by) {
        return Some(fault);
    }
    cycle(records, way, parent, by)
}

/// The fault of a Remove.
pub(crate) fn fault_of_remove(records: &Records, parent: u16, child: u16) -> Option<Fault>
    ensures { result ≡ first (remove_rules (nodes_of records.now.slots) parent child) }
{
    if let Some(fault) = absent(records, parent) {
        return Some(fault);
    }
    if let Some(fault) = absent(records, child) {
        return Some(fault);
    }
    if is_geode_at(records, parent) {
        return Some(Fault::Kind(parent));
    }
    if !is_child(records, parent, child) {
        return Some(Fault::NotChild(parent, child));
    }
    None
}

/// Whether one of these has a child.
fn is_child_of_one(records: &Records, parents: &[u16], child: u16) -> bool
    ensures { result ≡ list_any (λ p. has_child (look_of records.now.slots) p child) parents.now }
{
    parents
        .iter()
        .any(|parent| climb::has_child(records, *parent, child))
}

/// Whether a node that is there is some node's child.
fn is_used(records: &Records, id: u16) -> bool
    requires sound { IsSound records.now.slots }
    requires there { is_some (look_of records.now.slots id) ≡ true }
    ensures { result ≡ list_any (λ e. list_any (λ c. c == id) e.1.children) (nodes_of records.now.slots) }
{
    match records.find(id) {
        Some(record) => is_child_of_one(records, record.parents.as_slice(), id),
        None => unreachable!(),
    }
}

/// The fault of a Delete.
pub(crate) fn fault_of_delete(records: &Records, id: u16) -> Option<Fault>
    requires { IsSound records.now.slots }
    ensures { result ≡ first (delete_rules (nodes_of records.now.slots) id) }
{
    if let Some(fault) = absent(records, id) {
        return Some(fault);
    }
    if id == 0 {
        return Some(Fault::Kind(0));
    }
    if is_used(records, id) {
        return Some(Fault::InUse(id));
    }
    None
}

/// An id that has a node.
fn taken(records: &Records, id: u16) -> Option<Fault>
    ensures { result ≡ when (is_some (node_at (nodes_of records.now.slots) id)) (Fault.Taken id) }
{
    if find_node(records, id).is_some() {
        return Some(Fault::Taken(id));
    }
    None
}

/// As many nodes as a graph may have.
fn crowded(records: &Records) -> Option<Fault>
    ensures { result ≡ when (nat_lt 4096 (length (nodes_of records.now.slots))) (Fault.Many 4097) }
{
    if records.len() > 4_096 {
        return Some(Fault::Many(4_097));
    }
    None
}

/// The fault of making a node.
pub(crate) fn fault_of_make(records: &Records, id: u16) -> Option<Fault>
    ensures { result ≡ first (make_rules (nodes_of records.now.slots) id) }
{
    if let Some(fault) = taken(records, id) {
        return Some(fault);
    }
    crowded(records)
}

/// A chain or an unfolded size above the limits, of nodes whose extents these are and of which all off a way are within
/// them.
pub(crate) fn excess(records: &Records, way: &[u16]) -> Option<Fault>
    ensures { (nodes : Nodes) → IsRising (map (λ e. e.0) nodes) → Meets (node_at nodes) (extent_at records.now.slots)
        → ((b : ℕ) → is_in b way.now ≡ false → IsWithin (extent_at records.now.slots b))
        → result ≡ first (size_rules nodes) }
{
    let greatest = climb::greatest_along(records, way);
    if greatest.height > 32 {
        return Some(Fault::Deep(greatest.height));
    }
    if greatest.size > 131_072 {
        return Some(Fault::Large);
    }
    None
}
