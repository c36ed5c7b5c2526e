//! The records of the working graph: a node a record, found by its id in one step.
ghost use Rattle.std.specs.Prelude.{◌≡◌, ◌<◌, ◌≤◌, ◌==◌, if◌then◌else◌, Some, None, is_some, IsSome, OnSome, IfOk, slice_index_or, length, count_by, ℕ, true};
ghost use Rattle.std.specs.Option.{option_copied, option_map};
ghost use Rattle.slab.specs.Slab.{get, slab_len, Updates};
ghost use Rattle.pf_model.specs.Totals.{triangles_of};
ghost use Rattle.pf_edits.specs.Tables.{record_at, triangles_in};
ghost use Rattle.pf_edits.specs.Extents.{with_extent, children_in, with_child_list, kind_in, with_other_kind};

use crate::extents::Extent;
use crate::keys::Keys;
use crate::parents::Parents;
use pf_io::NoMemory;
use pf_model::{Ids, Kind, Node};
use slab::Slab;
use std::alloc::Global;
use std::marker::Model;
use std::mem;

/// A node with the nodes that have it as a child, its extent, and the one that it had until that was last set.
#[derive(Debug, Drop)]
pub(crate) struct Record {
    pub(crate) node: Node,
    pub(crate) parents: Parents,
    pub(crate) extent: Extent,
    pub(crate) before: Extent,
}

/// Records by their ids, with room for as many as a graph has nodes, and the number of all their triangles.
#[derive(Debug, Drop)]
pub(crate) struct Records {
    keys: Keys,
    slab: Slab<Record>,
    tris: u32,
}

impl Model for Records {
    ghost use Rattle.std.specs.Prelude.{◌-◌};
    ghost use Rattle.slab.specs.Slab.{slab_len};
    ghost use Rattle.pf_edits.specs.Tables.{Table, slots_of, IsKept};

    ghost Value = { Table };

    ghost view = { λ r. record { slots = slots_of r.slab r.keys; spare = r.slab.capacity - slab_len r.slab } };

    ghost invariant = { λ r. IsKept r.keys r.slab r.tris };
}

impl Records {
    /// No records.
    pub(crate) fn new(alloc: Global) -> Result<Records, NoMemory>
        ensures none { IfOk result (λ r. (b : ℕ) → record_at r.slots b ≡ None) }
        ensures empty { IfOk result (λ r. count_by is_some r.slots ≡ 0) }
        ensures room { IfOk result (λ r. 0 < r.spare) }
    {
        let slab = Slab::with_capacity(alloc, 4_097)?;
        // Keys are below the capacity, and have to find room in their table.
        if slab.capacity() > 65_535 {
            return Err(NoMemory);
        }
        Ok(Records {
            keys: Keys::new(alloc)?,
            slab,
            tris: 0,
        })
    }

    /// The number of records.
    pub(crate) fn len(&self) -> usize
        ensures value { result ≡ count_by is_some self.now.slots }
        ensures room { result < 4097 → 0 < self.now.spare }
    {
        self.slab.len()
    }

    /// The number of triangles of all records.
    pub(crate) fn tris(&self) -> u32
        ensures value { result ≡ triangles_in self.now.slots }
        ensures wide { length self.now.slots ≡ 65536 }
    {
        self.tris
    }

    /// The record of an id.
    pub(crate) fn find(&self, id: u16) -> Option<&Record>
        ensures { option_copied result ≡ record_at self.now.slots id }
    {
        let key = self.keys.get(id)?;
        self.slab.get(key)
    }

    /// Puts a record under an id that has none.
    pub(crate) fn put(&mut self, id: u16, entry: Record)
        requires room { 0 < self.old.spare }
        requires absent { record_at self.old.slots id ≡ None }
        ensures { (b : ℕ) → record_at self.new.slots b ≡ (if b == id then Some entry else record_at self.old.slots b) }
    {
        let more = triangles(&entry.node.kind);
        let key = self.slab.insert_reserved(entry);
        self.keys.set(id, key);
        self.tris += more;
    }

    /// Takes out the record of an id.
    pub(crate) fn take(&mut self, id: u16) -> Option<Record>
        ensures record { result ≡ record_at self.old.slots id }
        ensures after { (b : ℕ) → record_at self.new.slots b ≡ (if b == id then None else record_at self.old.slots b) }
        ensures room { OnSome result (0 < self.new.spare) }
    {
        match self.keys.get(id) {
            Some(key) => {
                self.keys.clear(id);
                let record = self.slab.remove(key);
                self.tris -= triangles(&record.node.kind);
                Some(record)
            }
            None => None,
        }
    }

    /// Sets the extent of the record of an id, where it has one.
    pub(crate) fn set_extent(&mut self, id: u16, extent: Extent)
        ensures { (b : ℕ) → record_at self.new.slots b
            ≡ (if b == id then option_map (with_extent extent) (record_at self.old.slots b)
            else record_at self.old.slots b) }
    {
        if let Some(key) = self.keys.get(id) {
            write_extent(&mut self.slab, key, extent);
        }
    }

    /// Puts other children into the node of an id. Returns those that stood there, or `None` if the id has no node.
    pub(crate) fn swap_children(&mut self, id: u16, children: Ids) -> Option<Ids>
        ensures back { result ≡ option_map children_in (record_at self.old.slots id) }
        ensures after { (b : ℕ) → record_at self.new.slots b
            ≡ (if b == id then option_map (with_child_list children) (record_at self.old.slots b)
            else record_at self.old.slots b) }
    {
        match self.keys.get(id) {
            Some(key) => write_children(&mut self.slab, key, children),
            None => None,
        }
    }

    /// Puts another kind into the node of an id. Returns the one that stood there, or `None` if the id has no node.
    pub(crate) fn swap_kind(&mut self, id: u16, kind: Kind) -> Option<Kind>
        ensures back { result ≡ option_map kind_in (record_at self.old.slots id) }
        ensures after { (b : ℕ) → record_at self.new.slots b
            ≡ (if b == id then option_map (with_other_kind kind) (record_at self.old.slots b)
            else record_at self.old.slots b) }
    {
        let more = triangles(&kind);
        match self.keys.get(id) {
            Some(key) => {
                let older = write_kind(&mut self.slab, key, kind);
                self.tris -= triangles(&older);
                self.tris += more;
                Some(older)
            }
            None => None,
        }
    }
}

/// Puts other children into the node under a key. Returns those that stood there, or `None` if the key has no node.
fn write_children(slab: &mut Slab<Record>, key: usize, children: Ids) -> Option<Ids>
    ensures back { result ≡ option_map children_in (get slab.old key) }
    ensures updates { Updates slab.old slab.new key (option_map (with_child_list children) (get slab.old key)) }
    ensures len { slab_len slab.new ≡ slab_len slab.old }
    ensures capacity { slab.new.capacity ≡ slab.old.capacity }
{
    match slab.get_mut(key) {
        Some(record) => Some(mem::replace(&mut record.node.children, children)),
        None => None,
    }
}

/// Puts another kind into the node under a key. Returns the one that stood there.
fn write_kind(slab: &mut Slab<Record>, key: usize, kind: Kind) -> Kind
    requires { is_some (get slab.old key) ≡ true }
    ensures back { option_map kind_in (get slab.old key) ≡ Some result }
    ensures updates { Updates slab.old slab.new key (option_map (with_other_kind kind) (get slab.old key)) }
    ensures len { slab_len slab.new ≡ slab_len slab.old }
    ensures capacity { slab.new.capacity ≡ slab.old.capacity }
{
    match slab.get_mut(key) {
        Some(record) => mem::replace(&mut record.node.kind, kind),
        None => unreachable!(),
    }
}

/// Sets the extent of the record under a key, where there is one.
fn write_extent(slab: &mut Slab<Record>, key: usize, extent: Extent)
    ensures updates { Updates slab.old slab.new key (option_map (with_extent extent) (get slab.old key)) }
    ensures len { slab_len slab.new ≡ slab_len slab.old }
    ensures capacity { slab.new.capacity ≡ slab.old.capacity }
{
    if let Some(record) = slab.get_mut(key) {
        record.before = record.extent;
        record.extent = extent;
    }
}

/// The number of triangles of a kind, 0 where it is no geode.
fn triangles(kind: &Kind) -> u32
    ensures value { result ≡ triangles_of kind.now }
    ensures bound { result ≤ 4096 }
{
    match kind {
        Kind::Geode { geom, .. } | Kind::Glass { geom, .. } => geom.len() as u32,
        _ => 0,
    }
}
