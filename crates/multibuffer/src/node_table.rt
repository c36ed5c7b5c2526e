//! The nodes of a copy, in a slot for each id.
ghost use Rattle.std.specs.Prelude.{◌≡◌, ℕ, ◌<◌, ◌==◌, None, [], if◌then◌else◌, slice_index_or, slice_set, length, IfOk};
ghost use Rattle.std.specs.Option.{option_copied};
ghost use Rattle.pf_model.specs.Graphs.{node_at};
ghost use Rattle.pf_model.specs.Copies.{updated};
ghost use Rattle.multibuffer.specs.StageCopies.{entry_at};

use pf_io::NoMemory;
use pf_model::{Node, NodeView, write_to};
use std::alloc::Global;
use std::marker::Model;
use std::mem;
use update_lists::Updates;

/// The number of ids.
const IDS: usize = 65_536;

/// Nodes by their ids, in rising order of these. There is memory for the slots of all ids and for no more, and as many are written as the
/// greatest id that was ever named asks.
#[derive(Debug, Drop)]
pub(crate) struct NodeTable {
    slots: Vec<Option<Node>>,
}

impl Model for NodeTable {
    ghost use Rattle.std.specs.Prelude.{◌≡◌};
    ghost use Rattle.std.specs.Vec.{vec_capacity};
    ghost use Rattle.pf_model.specs.Graphs.{Nodes};
    ghost use Rattle.multibuffer.specs.Slots.{nodes_from};

    ghost Value = { Nodes };

    ghost view = { λ t. nodes_from 0 t.slots.items };

    ghost invariant = { λ t. vec_capacity t.slots ≡ 65536 };
}

/// The node in a slot, none past the last that is written.
fn node_in(slots: &[Option<Node>], place: usize) -> Option<&Node>
    ensures { option_copied result ≡ slice_index_or slots.now place None }
{
    match slots.get(place) {
        Some(slot) => slot.as_ref(),
        None => None,
    }
}

impl NodeTable {
    /// No nodes. It takes the memory of all slots.
    pub(crate) fn new(alloc: Global) -> Result<NodeTable, NoMemory>
        ensures { IfOk result (λ t. t ≡ []) }
    {
        let slots = Vec::with_capacity(alloc, IDS)?;
        Ok(NodeTable { slots })
    }

    /// Puts a node, or none, under an id, and hands back what stood there.
    pub(crate) fn replace(&mut self, id: u16, node: Option<Node>) -> Option<Node>
        ensures nodes { self.new ≡ updated self.old (id, node) }
        ensures looks { (k : ℕ) → node_at self.new k ≡ (if k == id then node else node_at self.old k) }
        ensures stood { result ≡ node_at self.old id }
    {
        write_to(&mut self.slots, id as usize);
        mem::replace(&mut self.slots[id as usize], node)
    }

    /// Exchanges an entry of an update list with what stands under its id, and tells the id.
    pub(crate) fn take_entry(&mut self, updates: &mut Updates, i: usize) -> u16
        requires { i < length updates.old }
        ensures id { result ≡ (entry_at updates.old i).0 }
        ensures nodes { self.new ≡ updated self.old (entry_at updates.old i) }
        ensures looks { (k : ℕ) → node_at self.new k
            ≡ (if k == result then (entry_at updates.old i).1 else node_at self.old k) }
        ensures updates { updates.new ≡ slice_set updates.old i (result, node_at self.old result) }
    {
        let id = match updates.id(i) {
            Some(id) => id,
            None => unreachable!(),
        };
        let mut node = None;
        updates.swap(i, &mut node);
        let mut stood = self.replace(id, node);
        updates.swap(i, &mut stood);
        id
    }
}

impl NodeView for NodeTable {
    ghost look = { λ nodes. node_at nodes };

    fn node(&self, id: u16) -> Option<&Node> {
        node_in(self.slots.as_slice(), id as usize)
    }
}
