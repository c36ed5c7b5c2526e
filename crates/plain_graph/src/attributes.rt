//! Edits that change the kind of one node alone.
ghost use Rattle.std.specs.Prelude.{◌≡◌, ◌<◌, length, map, true, Some, None, IfOk, IfErr, OnOk, OnErr};
ghost use Rattle.std.specs.Option.{option_map};
ghost use Rattle.pf_model.specs.Graphs.{node_at, change};
ghost use Rattle.pf_model.specs.Copies.{named_by};
ghost use Rattle.pf_model.specs.NodeEdits.{with_kind, node_after, kind_after, is_attribute};
ghost use Rattle.pf_model.specs.Limits.{is_there};
ghost use Rattle.pf_model.specs.Edits.{first, attribute_rules, Refuses};
ghost use Rattle.pf_model.specs.Fits.{fits};
ghost use Rattle.plain_graph.specs.Places.{change_at};

use crate::graph::{find_node, place_of};
use pf_io::NoMemory;
use pf_model::{Edit, EditError, Kind, Node, attribute_fault, kind_after};

/// The kind that such an edit gives its node.
fn new_kind(nodes: &[(u16, Node)], time: u32, e: &Edit) -> Result<Kind, NoMemory>
    requires there { is_there (node_at nodes.now) (named_by e.now) ≡ true }
    requires fits { fits e.now ≡ true }
    ensures { IfOk result (λ k. option_map (kind_after time e.now) (node_at nodes.now (named_by e.now)) ≡ Some k) }
{
    match find_node(nodes, e.named()) {
        Some(node) => kind_after(node, time, e),
        None => unreachable!(),
    }
}

/// Gives the node at a place another kind.
fn put_kind(nodes: &mut [(u16, Node)], place: usize, kind: Kind)
    requires { place < length nodes.old }
    ensures after { nodes.new ≡ change_at place (with_kind kind) nodes.old }
    ensures ids { map (λ e. e.0) nodes.new ≡ map (λ e. e.0) nodes.old }
{
    nodes[place].1.kind = kind;
}

/// Gives a node another kind.
fn rekind(nodes: &mut [(u16, Node)], id: u16, kind: Kind)
    requires { is_there (node_at nodes.old) id ≡ true }
    ensures after { nodes.new ≡ change id (with_kind kind) nodes.old }
    ensures ids { map (λ e. e.0) nodes.new ≡ map (λ e. e.0) nodes.old }
{
    match place_of(nodes, id) {
        Some(place) => put_kind(nodes, place, kind),
        None => unreachable!(),
    }
}

/// Changes the kind of one node.
pub(crate) fn set_attribute(nodes: &mut [(u16, Node)], time: u32, e: &Edit) -> Result<(), EditError>
    requires attribute { is_attribute e.now ≡ true }
    requires fits { fits e.now ≡ true }
    ensures done { OnOk result (first (attribute_rules e.now (node_at nodes.old (named_by e.now))) ≡ None) }
    ensures after { OnOk result (nodes.new ≡ change (named_by e.now) (node_after time e.now) nodes.old) }
    ensures fault { IfErr result (λ r. Refuses r (first (attribute_rules e.now (node_at nodes.old (named_by e.now))))) }
    ensures unchanged { OnErr result (nodes.new ≡ nodes.old) }
    ensures ids { map (λ e. e.0) nodes.new ≡ map (λ e. e.0) nodes.old }
{
    if let Some(fault) = attribute_fault(find_node(nodes, e.named()), e) {
        return Err(EditError::Fault(fault));
    }
    let kind = new_kind(nodes, time, e)?;
    rekind(nodes, e.named(), kind);
    Ok(())
}
