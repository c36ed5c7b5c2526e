//! Nodes put in and taken out, and other kinds of nodes.
ghost use Rattle.std.specs.Prelude.{◌≡◌, ◌<◌, ◌==◌, ℕ, true, false, if◌then◌else◌, Some, None, is_some, OnSome};
ghost use Rattle.std.specs.Option.{option_map, option_map_or};
ghost use Rattle.pf_model.specs.Limits.{has_child};
ghost use Rattle.pf_model.specs.NodeEdits.{with_kind};
ghost use Rattle.pf_edits.specs.Tables.{record_at};
ghost use Rattle.pf_edits.specs.Ways.{is_in};
ghost use Rattle.pf_edits.specs.Extents.{look_of, parents_of, extent_at, kind_of, IsSound};

use crate::climb::reckon;
use crate::extents::LEAF;
use crate::parents::Parents;
use crate::records::{Record, Records};
use pf_model::{Kind, Node};

/// Puts a node under an id that has none and that is no node's child.
pub(crate) fn insert(records: &mut Records, id: u16, node: Node, parents: Parents)
    requires room { 0 < records.old.spare }
    requires absent { record_at records.old.slots id ≡ None }
    requires sound { IsSound records.old.slots }
    requires unused { (y : ℕ) → has_child (look_of records.old.slots) y id ≡ false }
    requires apart { is_in id node.children ≡ false }
    requires noted { (x : ℕ) → is_in x node.children ≡ true → is_in id (parents_of records.old.slots x) ≡ true }
    ensures nodes { (b : ℕ) → look_of records.new.slots b
        ≡ (if b == id then Some node else look_of records.old.slots b) }
    ensures parents { (b : ℕ) → parents_of records.new.slots b
        ≡ (if b == id then parents else parents_of records.old.slots b) }
    ensures sound { IsSound records.new.slots }
{
    let entry = Record {
        node,
        parents,
        extent: LEAF,
        before: LEAF,
    };
    records.put(id, entry);
    reckon(records, id);
}

/// Takes out the record of an id that is no node's child.
pub(crate) fn remove(records: &mut Records, id: u16) -> Option<Record>
    requires sound { IsSound records.old.slots }
    requires unused { (y : ℕ) → has_child (look_of records.old.slots) y id ≡ false }
    ensures record { result ≡ record_at records.old.slots id }
    ensures nodes { (b : ℕ) → look_of records.new.slots b ≡ (if b == id then None else look_of records.old.slots b) }
    ensures parents { (b : ℕ) → (b == id) ≡ false → parents_of records.new.slots b ≡ parents_of records.old.slots b }
    ensures sound { IsSound records.new.slots }
{
    records.take(id)
}

/// Puts another kind into a node, and hands back the one that stood there.
pub(crate) fn swap_kind(records: &mut Records, id: u16, kind: Kind) -> Kind
    requires there { is_some (look_of records.old.slots id) ≡ true }
    requires sound { IsSound records.old.slots }
    ensures back { option_map kind_of (look_of records.old.slots id) ≡ Some result }
    ensures nodes { (b : ℕ) → look_of records.new.slots b
        ≡ (if b == id then option_map (with_kind kind) (look_of records.old.slots b)
        else look_of records.old.slots b) }
    ensures parents { (b : ℕ) → parents_of records.new.slots b ≡ parents_of records.old.slots b }
    ensures sound { IsSound records.new.slots }
{
    match records.swap_kind(id, kind) {
        Some(older) => older,
        None => unreachable!(),
    }
}
