//! Links of a graph: the faults of a new link, and changes of the children of a node.
ghost use Rattle.std.specs.Prelude.{◌≡◌, ◌∷◌, [], ◌<◌, ◌≤◌, ◌==◌, nat_lt, length, map, Some, None, IfOk, IfErr, OnOk, OnErr, true};
ghost use Rattle.std.specs.List.{list_any, insert};
ghost use Rattle.pf_model.specs.Kinds.{is_geode};
ghost use Rattle.pf_model.specs.Graphs.{change, node_at, children_of, is_below, size_of};
ghost use Rattle.pf_model.specs.Limits.{IsRising, is_there};
ghost use Rattle.pf_model.specs.Children.{replace_first, drop_first};
ghost use Rattle.pf_model.specs.NodeEdits.{with_children};
ghost use Rattle.pf_model.specs.Edits.{first, absent, has_kind, is_child, child_count, cycle, full, in_use, greatest_height, link_rules, room_rules, add_rules, insert_rules, swap_rules, replace_rules, remove_rules, delete_rules, size_rules, fault_of, effect, Refuses};
ghost use Rattle.plain_graph.specs.Places.{change_at, graph_of};

use crate::graph::{find_node, place_of};
use crate::survey::{extent_told, extents, greatest_of, is_large};
use pf_io::NoMemory;
use pf_model::{Edit, EditError, Fault, Ids, Node};
use std::alloc::Global;
use std::mem;

// The faults

/// An id without a node.
fn absent(nodes: &[(u16, Node)], id: u16) -> Option<Fault>
    ensures { result ≡ absent nodes.now id }
{
    if find_node(nodes, id).is_none() {
        Some(Fault::Absent(id))
    } else {
        None
    }
}

fn is_geode_at(nodes: &[(u16, Node)], id: u16) -> bool
    ensures { result ≡ has_kind is_geode (node_at nodes.now id) }
{
    match find_node(nodes, id) {
        Some(node) => node.kind.is_geode(),
        None => false,
    }
}

/// How many children the node of an id has.
fn child_count(nodes: &[(u16, Node)], id: u16) -> usize
    ensures { result ≡ child_count nodes.now id }
{
    match find_node(nodes, id) {
        Some(node) => node.children.len(),
        None => 0,
    }
}

/// Whether a node is a child of another.
fn is_child(nodes: &[(u16, Node)], parent: u16, child: u16) -> bool
    ensures { result ≡ is_child nodes.now parent child }
{
    match find_node(nodes, parent) {
        Some(node) => node.children.as_slice().iter().any(|c| *c == child),
        None => false,
    }
}

/// Whether the second node is below the first.
fn reaches(alloc: Global, nodes: &[(u16, Node)], from: u16, to: u16) -> Result<bool, NoMemory>
    requires { IsRising (map (λ e. e.0) nodes.now) }
    ensures { IfOk result (λ b. b ≡ is_below (node_at nodes.now) from to) }
{
    let table = extents(alloc, to, nodes)?;
    Ok(extent_told(nodes, table.as_slice(), from).reaches)
}

/// A link that would put the parent below itself.
fn cycle(
    alloc: Global,
    nodes: &[(u16, Node)],
    parent: u16,
    child: u16,
) -> Result<Option<Fault>, NoMemory>
    requires { IsRising (map (λ e. e.0) nodes.now) }
    ensures { IfOk result (λ f. f ≡ cycle nodes.now parent child) }
{
    let is_above = reaches(alloc, nodes, child, parent)?;
    if child == parent || is_above {
        Ok(Some(Fault::Cycle(parent, child)))
    } else {
        Ok(None)
    }
}

/// A parent that has 256 children.
fn full(nodes: &[(u16, Node)], parent: u16) -> Option<Fault>
    ensures { result ≡ full nodes.now parent }
{
    if child_count(nodes, parent) >= 256 {
        Some(Fault::Many(257))
    } else {
        None
    }
}

fn holds(children: &Ids, id: u16) -> bool
    ensures { result ≡ list_any (λ c. c == id) children.now }
{
    children.as_slice().iter().any(|c| *c == id)
}

fn has_parent(nodes: &[(u16, Node)], id: u16) -> bool
    ensures { result ≡ list_any (λ e. list_any (λ c. c == id) e.1.children) nodes.now }
{
    nodes.iter().any(|entry| holds(&entry.1.children, id))
}

/// A node that some node has as a child.
fn in_use(nodes: &[(u16, Node)], id: u16) -> Option<Fault>
    ensures { result ≡ in_use nodes.now id }
{
    if has_parent(nodes, id) {
        Some(Fault::InUse(id))
    } else {
        None
    }
}

/// The greatest height, and whether an unfolded size is above the limit.
fn measures(alloc: Global, nodes: &[(u16, Node)]) -> Result<(u32, bool), NoMemory>
    requires { IsRising (map (λ e. e.0) nodes.now) }
    ensures height { IfOk result (λ m. m.0 ≡ greatest_height nodes.now) }
    ensures large { IfOk result (λ m. m.1 ≡ list_any (λ e. nat_lt 131072 (size_of (node_at nodes.now) e.0)) nodes.now) }
{
    let table = extents(alloc, 0, nodes)?;
    Ok((greatest_of(table.as_slice()), is_large(table.as_slice())))
}

/// A chain or an unfolded size above the limits.
fn oversize(alloc: Global, nodes: &[(u16, Node)]) -> Result<Option<Fault>, NoMemory>
    requires { IsRising (map (λ e. e.0) nodes.now) }
    ensures { IfOk result (λ f. f ≡ first (size_rules nodes.now)) }
{
    let (height, large) = measures(alloc, nodes)?;
    if height > 32 {
        return Ok(Some(Fault::Deep(height)));
    }
    if large {
        return Ok(Some(Fault::Large));
    }
    Ok(None)
}

/// What stands in the way of a link, its place and its effect on others aside.
fn fault_of_link(nodes: &[(u16, Node)], parent: u16, child: u16) -> Option<Fault>
    ensures { result ≡ first (link_rules nodes.now parent child) }
{
    if let Some(fault) = absent(nodes, parent) {
        return Some(fault);
    }
    if let Some(fault) = absent(nodes, child) {
        return Some(fault);
    }
    if is_geode_at(nodes, parent) {
        return Some(Fault::Kind(parent));
    }
    if child == 0 {
        return Some(Fault::Kind(0));
    }
    None
}

/// A link that would put the parent below itself, or to a parent that has 256 children.
fn cycle_or_full(
    alloc: Global,
    nodes: &[(u16, Node)],
    parent: u16,
    child: u16,
) -> Result<Option<Fault>, NoMemory>
    requires { IsRising (map (λ e. e.0) nodes.now) }
    ensures { IfOk result (λ f. f ≡ first (room_rules nodes.now parent child)) }
{
    if let Some(fault) = cycle(alloc, nodes, parent, child)? {
        return Ok(Some(fault));
    }
    Ok(full(nodes, parent))
}

/// The fault of an Add that does not speak of the graph after it.
fn fault_of_add(
    alloc: Global,
    nodes: &[(u16, Node)],
    parent: u16,
    child: u16,
) -> Result<Option<Fault>, NoMemory>
    requires { IsRising (map (λ e. e.0) nodes.now) }
    ensures { IfOk result (λ f. f ≡ first (add_rules nodes.now parent child)) }
{
    if let Some(fault) = fault_of_link(nodes, parent, child) {
        return Ok(Some(fault));
    }
    cycle_or_full(alloc, nodes, parent, child)
}

/// The fault of an Insert that does not speak of the graph after it.
fn fault_of_insert(
    alloc: Global,
    nodes: &[(u16, Node)],
    parent: u16,
    place: u16,
    child: u16,
) -> Result<Option<Fault>, NoMemory>
    requires { IsRising (map (λ e. e.0) nodes.now) }
    ensures { IfOk result (λ f. f ≡ first (insert_rules nodes.now parent place child)) }
{
    if let Some(fault) = fault_of_link(nodes, parent, child) {
        return Ok(Some(fault));
    }
    if usize::from(place) > child_count(nodes, parent) {
        return Ok(Some(Fault::Place(place)));
    }
    cycle_or_full(alloc, nodes, parent, child)
}

fn absent_of_three(nodes: &[(u16, Node)], parent: u16, child: u16, by: u16) -> Option<Fault>
    ensures { result ≡ first (absent nodes.now parent ∷ absent nodes.now child ∷ absent nodes.now by ∷ []) }
{
    if let Some(fault) = absent(nodes, parent) {
        return Some(fault);
    }
    if let Some(fault) = absent(nodes, child) {
        return Some(fault);
    }
    absent(nodes, by)
}

/// What stands in the way of a replacement, its effect on others aside.
fn fault_of_swap(nodes: &[(u16, Node)], parent: u16, child: u16, by: u16) -> Option<Fault>
    ensures { result ≡ first (swap_rules nodes.now parent child by) }
{
    if let Some(fault) = absent_of_three(nodes, parent, child, by) {
        return Some(fault);
    }
    if is_geode_at(nodes, parent) {
        return Some(Fault::Kind(parent));
    }
    if by == 0 {
        return Some(Fault::Kind(0));
    }
    if !is_child(nodes, parent, child) {
        return Some(Fault::NotChild(parent, child));
    }
    None
}

/// The fault of a Replace that does not speak of the graph after it.
fn fault_of_replace(
    alloc: Global,
    nodes: &[(u16, Node)],
    parent: u16,
    child: u16,
    by: u16,
) -> Result<Option<Fault>, NoMemory>
    requires { IsRising (map (λ e. e.0) nodes.now) }
    ensures { IfOk result (λ f. f ≡ first (replace_rules nodes.now parent child by)) }
{
    if let Some(fault) = fault_of_swap(nodes, parent, child, by) {
        return Ok(Some(fault));
    }
    cycle(alloc, nodes, parent, by)
}

/// The fault of a Remove.
fn fault_of_remove(nodes: &[(u16, Node)], parent: u16, child: u16) -> Option<Fault>
    ensures { result ≡ first (remove_rules nodes.now parent child) }
{
    if let Some(fault) = absent(nodes, parent) {
        return Some(fault);
    }
    if let Some(fault) = absent(nodes, child) {
        return Some(fault);
    }
    if is_geode_at(nodes, parent) {
        return Some(Fault::Kind(parent));
    }
    if !is_child(nodes, parent, child) {
        return Some(Fault::NotChild(parent, child));
    }
    None
}

/// The fault of a Delete.
pub(crate) fn fault_of_delete(nodes: &[(u16, Node)], id: u16) -> Option<Fault>
    ensures { result ≡ first (delete_rules nodes.now id) }
{
    if let Some(fault) = absent(nodes, id) {
        return Some(fault);
    }
    if id == 0 {
        return Some(Fault::Kind(0));
    }
    in_use(nodes, id)
}

// The changes

/// Puts other children into the node at a place, and hands back those that stood there.
fn swap_children(nodes: &mut [(u16, Node)], place: usize, children: Ids) -> Ids
    requires { place < length nodes.old }
    ensures after { nodes.new ≡ change_at place (with_children children) nodes.old }
    ensures back { nodes.old ≡ change_at place (with_children result) nodes.new }
    ensures ids { map (λ e. e.0) nodes.new ≡ map (λ e. e.0) nodes.old }
{
    mem::replace(&mut nodes[place].1.children, children)
}

/// Gives the parent, which stands at a place, other children, unless the graph would grow too deep or too large.
fn relink(
    alloc: Global,
    nodes: &mut [(u16, Node)],
    place: usize,
    children: Ids,
) -> Result<(), EditError>
    requires there { place < length nodes.old }
    requires rising { IsRising (map (λ e. e.0) nodes.old) }
    ensures done { OnOk result (first (size_rules (change_at place (with_children children) nodes.old)) ≡ None) }
    ensures after { OnOk result (nodes.new ≡ change_at place (with_children children) nodes.old) }
    ensures fault { IfErr result (λ e. Refuses e (first (size_rules (change_at place (with_children children) nodes.old)))) }
    ensures unchanged { OnErr result (nodes.new ≡ nodes.old) }
    ensures ids { map (λ e. e.0) nodes.new ≡ map (λ e. e.0) nodes.old }
{
    let older = swap_children(nodes, place, children);
    match oversize(alloc, nodes) {
        Ok(None) => Ok(()),
        Ok(Some(fault)) => {
            swap_children(nodes, place, older);
            Err(EditError::Fault(fault))
        }
        Err(NoMemory) => {
            swap_children(nodes, place, older);
            Err(EditError::NoMemory)
        }
    }
}

/// Gives a node other children, unless the graph would grow too deep or too large.
fn relink_node(
    alloc: Global,
    nodes: &mut [(u16, Node)],
    parent: u16,
    children: Ids,
) -> Result<(), EditError>
    requires there { is_there (node_at nodes.old) parent ≡ true }
    requires rising { IsRising (map (λ e. e.0) nodes.old) }
    ensures done { OnOk result (first (size_rules (change parent (with_children children) nodes.old)) ≡ None) }
    ensures after { OnOk result (nodes.new ≡ change parent (with_children children) nodes.old) }
    ensures fault { IfErr result (λ e. Refuses e (first (size_rules (change parent (with_children children) nodes.old)))) }
    ensures unchanged { OnErr result (nodes.new ≡ nodes.old) }
    ensures ids { map (λ e. e.0) nodes.new ≡ map (λ e. e.0) nodes.old }
{
    match place_of(nodes, parent) {
        Some(place) => relink(alloc, nodes, place, children),
        None => unreachable!(),
    }
}

/// Gives a node other children.
fn give_children(nodes: &mut [(u16, Node)], parent: u16, children: Ids)
    requires { is_there (node_at nodes.old) parent ≡ true }
    ensures after { nodes.new ≡ change parent (with_children children) nodes.old }
    ensures ids { map (λ e. e.0) nodes.new ≡ map (λ e. e.0) nodes.old }
{
    match place_of(nodes, parent) {
        Some(place) => {
            swap_children(nodes, place, children);
        }
        None => unreachable!(),
    }
}

/// The children of a parent with one more before a place.
fn lengthened(nodes: &[(u16, Node)], parent: u16, place: usize, child: u16) -> Result<Ids, NoMemory>
    requires there { is_there (node_at nodes.now) parent ≡ true }
    requires within { place ≤ child_count nodes.now parent }
    requires room { child_count nodes.now parent < 256 }
    ensures { IfOk result (λ cs. cs ≡ insert (children_of (node_at nodes.now) parent) place child) }
{
    match find_node(nodes, parent) {
        Some(node) => {
            let mut children = node.children.copy()?;
            children.insert(place, child)?;
            Ok(children)
        }
        None => unreachable!(),
    }
}

/// The children of a parent with another in the place of the first that is this child.
fn replaced(nodes: &[(u16, Node)], parent: u16, child: u16, by: u16) -> Result<Ids, NoMemory>
    requires { is_there (node_at nodes.now) parent ≡ true }
    ensures { IfOk result (λ cs. cs ≡ replace_first child by (children_of (node_at nodes.now) parent)) }
{
    match find_node(nodes, parent) {
        Some(node) => node.children.with_first_replaced(child, by),
        None => unreachable!(),
    }
}

/// The children of a parent without the first that is this child.
fn shortened(nodes: &[(u16, Node)], parent: u16, child: u16) -> Result<Ids, NoMemory>
    requires { is_there (node_at nodes.now) parent ≡ true }
    ensures { IfOk result (λ cs. cs ≡ drop_first child (children_of (node_at nodes.now) parent)) }
{
    match find_node(nodes, parent) {
        Some(node) => node.children.without_first(child),
        None => unreachable!(),
    }
}

/// Appends a child.
pub(crate) fn add(
    alloc: Global,
    nodes: &mut [(u16, Node)],
    parent: u16,
    child: u16,
) -> Result<(), EditError>
    requires { IsRising (map (λ e. e.0) nodes.old) }
    ensures done { OnOk result (fault_of (graph_of nodes.old) (Edit.Add parent child) ≡ None) }
    ensures after { OnOk result (nodes.new ≡ (effect (graph_of nodes.old) (Edit.Add parent child)).nodes) }
    ensures fault { IfErr result (λ e. Refuses e (fault_of (graph_of nodes.old) (Edit.Add parent child))) }
    ensures unchanged { OnErr result (nodes.new ≡ nodes.old) }
    ensures ids { map (λ e. e.0) nodes.new ≡ map (λ e. e.0) nodes.old }
{
    if let Some(fault) = fault_of_add(alloc, nodes, parent, child)? {
        return Err(EditError::Fault(fault));
    }
    let children = lengthened(nodes, parent, child_count(nodes, parent), child)?;
    relink_node(alloc, nodes, parent, children)
}

/// Puts a child before a place.
pub(crate) fn insert(
    alloc: Global,
    nodes: &mut [(u16, Node)],
    parent: u16,
    place: u16,
    child: u16,
) -> Result<(), EditError>
    requires { IsRising (map (λ e. e.0) nodes.old) }
    ensures done { OnOk result (fault_of (graph_of nodes.old) (Edit.Insert parent place child) ≡ None) }
    ensures after { OnOk result (nodes.new ≡ (effect (graph_of nodes.old) (Edit.Insert parent place child)).nodes) }
    ensures fault { IfErr result (λ e. Refuses e (fault_of (graph_of nodes.old) (Edit.Insert parent place child))) }
    ensures unchanged { OnErr result (nodes.new ≡ nodes.old) }
    ensures ids { map (λ e. e.0) nodes.new ≡ map (λ e. e.0) nodes.old }
{
    if let Some(fault) = fault_of_insert(alloc, nodes, parent, place, child)? {
        return Err(EditError::Fault(fault));
    }
    let children = lengthened(nodes, parent, usize::from(place), child)?;
    relink_node(alloc, nodes, parent, children)
}

/// Puts `by` at the first place that holds the child.
pub(crate) fn replace(
    alloc: Global,
    nodes: &mut [(u16, Node)],
    parent: u16,
    child: u16,
    by: u16,
) -> Result<(), EditError>
    requires { IsRising (map (λ e. e.0) nodes.old) }
    ensures done { OnOk result (fault_of (graph_of nodes.old) (Edit.Replace parent child by) ≡ None) }
    ensures after { OnOk result (nodes.new ≡ (effect (graph_of nodes.old) (Edit.Replace parent child by)).nodes) }
    ensures fault { IfErr result (λ e. Refuses e (fault_of (graph_of nodes.old) (Edit.Replace parent child by))) }
    ensures unchanged { OnErr result (nodes.new ≡ nodes.old) }
    ensures ids { map (λ e. e.0) nodes.new ≡ map (λ e. e.0) nodes.old }
{
    if let Some(fault) = fault_of_replace(alloc, nodes, parent, child, by)? {
        return Err(EditError::Fault(fault));
    }
    let children = replaced(nodes, parent, child, by)?;
    relink_node(alloc, nodes, parent, children)
}

/// Takes out the first place that holds the child.
pub(crate) fn remove(nodes: &mut [(u16, Node)], parent: u16, child: u16) -> Result<(), EditError>
    requires { IsRising (map (λ e. e.0) nodes.old) }
    ensures done { OnOk result (fault_of (graph_of nodes.old) (Edit.Remove parent child) ≡ None) }
    ensures after { OnOk result (nodes.new ≡ (effect (graph_of nodes.old) (Edit.Remove parent child)).nodes) }
    ensures fault { IfErr result (λ e. Refuses e (fault_of (graph_of nodes.old) (Edit.Remove parent child))) }
    ensures unchanged { OnErr result (nodes.new ≡ nodes.old) }
    ensures ids { map (λ e. e.0) nodes.new ≡ map (λ e. e.0) nodes.old }
{
    if let Some(fault) = fault_of_remove(nodes, parent, child) {
        return Err(EditError::Fault(fault));
    }
    let children = shortened(nodes, parent, child)?;
    give_children(nodes, parent, children);
    Ok(())
}
