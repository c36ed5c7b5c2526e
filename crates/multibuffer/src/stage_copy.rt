//! The copy of the scene that a stage keeps.
ghost use Rattle.std.specs.Prelude.{◌≡◌, ℕ, ◌≤◌, Bool, true, false, [], ◌∷◌, ◌++◌, List, map, IfOk};
ghost use Rattle.pf_model.specs.Graphs.{Look, node_at};
ghost use Rattle.pf_model.specs.Limits.{KeepsLimits};
ghost use Rattle.pf_model.specs.Copies.{UpdateList, updated_by, updates_of, copy_of};
ghost use Rattle.bound_cache.specs.Caches.{box_at, touched_at, noted_at, is_geode_at, AreBoxesOf, ChangesAreTouched, AreNoted, IsCalm};
ghost use Rattle.multibuffer.specs.StageCopies.{is_named, boxes_of, HasRightBoxes};

use crate::node_table::NodeTable;
use bound_cache::BoxCache;
use fx_math::Box3;
use pf_io::NoMemory;
use pf_model::{Ids, Kind, Node, NodeView, SceneView};
use std::alloc::Global;
use std::marker::Model;
use update_lists::Updates;

/// A copy of the scene, kept by update lists, with the box of each node. Only `new` takes memory.
#[derive(Debug)]
pub struct StageCopy {
    nodes: NodeTable,
    cache: BoxCache,
}

/// Written out, so that to drop one is a single call.
impl Drop for StageCopy {
    fn drop(self) {
        let Self { nodes: _, cache: _ } = self;
    }
}

impl Model for StageCopy {
    ghost use Rattle.multibuffer.specs.StageCopies.{CopyState, IsTended};

    ghost Value = { CopyState };

    ghost view = { λ c. record { nodes = c.nodes; boxes = c.cache.boxes } };

    ghost invariant = { λ c. IsTended c.nodes c.cache };
}

/// Exchanges each entry of an update list with what stands under its id, and touches the id.
fn take_all(nodes: &mut NodeTable, cache: &mut BoxCache, updates: &mut Updates)
    requires { (k : ℕ) → touched_at cache.old k ≡ false }
    ensures nodes { nodes.new ≡ updated_by nodes.old updates.old }
    ensures looks { (k : ℕ) → is_named k updates.old ≡ false → node_at nodes.new k ≡ node_at nodes.old k }
    ensures updates { updates.new ≡ updates_of (node_at nodes.old) (map (λ e. e.0) updates.old) }
    ensures boxes { (k : ℕ) → box_at cache.new k ≡ box_at cache.old k }
    ensures touched { (k : ℕ) → touched_at cache.new k ≡ is_named k updates.old }
    ensures noted { (k : ℕ) → noted_at cache.new k ≡ false → noted_at cache.old k ≡ false }
{
    for i in 0..updates.len() {
        let id = nodes.take_entry(updates, i);
        cache.touch(id);
    }
}

/// Brings the boxes to the nodes.
fn refresh(cache: &mut BoxCache, nodes: &NodeTable)
    ensures right { (was : Look) → AreBoxesOf was (box_at cache.old)
        → ChangesAreTouched was (node_at nodes.now) (touched_at cache.old) → AreNoted was (noted_at cache.old)
        → KeepsLimits (node_at nodes.now) → AreBoxesOf (node_at nodes.now) (box_at cache.new) }
    ensures noted { (was : Look) → ChangesAreTouched was (node_at nodes.now) (touched_at cache.old)
        → AreNoted was (noted_at cache.old) → AreNoted (node_at nodes.now) (noted_at cache.new) }
    ensures kept { (id : ℕ) → is_geode_at (node_at nodes.now) id ≡ true → touched_at cache.old id ≡ false
        → box_at cache.new id ≡ box_at cache.old id }
    ensures calm { (calm : ℕ → Bool) → IsCalm (node_at nodes.now) (touched_at cache.old) calm
        → (id : ℕ) → calm id ≡ true → box_at cache.new id ≡ box_at cache.old id }
    ensures untouched { (id : ℕ) → touched_at cache.new id ≡ false }
{
    cache.clean(nodes);
}

impl StageCopy {
    /// The copy before the first update list: the scene alone.
    pub fn new(alloc: Global) -> Result<StageCopy, NoMemory>
        ensures nodes { IfOk result (λ c. c.nodes ≡ copy_of []) }
        ensures right { IfOk result HasRightBoxes }
    {
        let mut nodes = NodeTable::new(alloc)?;
        let mut cache = BoxCache::new(alloc)?;
        let scene = Node {
            serial: 0,
            born: 0,
            kind: Kind::Group,
            children: Ids::new(alloc),
        };
        nodes.replace(0, Some(scene));
        cache.touch(0);
        refresh(&mut cache, &nodes);
        Ok(StageCopy { nodes, cache })
    }

    /// Sets each listed id to its node, or clears it, hands back what stood there in the same list, and brings the boxes
    /// to the nodes. Where they were right before and the copy is within the limits, they are right. A node that is not listed,
    /// nor any below it, has the box that the cache had of it before, whether it was right or not.
    pub fn take(&mut self, updates: Updates) -> Updates
        ensures nodes { self.new.nodes ≡ updated_by self.old.nodes updates }
        ensures copy { (lists : List UpdateList) → self.old.nodes ≡ copy_of lists
            → self.new.nodes ≡ copy_of (lists ++ updates ∷ []) }
        ensures stood { result ≡ updates_of (node_at self.old.nodes) (map (λ e. e.0) updates) }
        ensures right { HasRightBoxes self.old → KeepsLimits (node_at self.new.nodes) → HasRightBoxes self.new }
        ensures kept { (id : ℕ) → is_geode_at (node_at self.new.nodes) id ≡ true → is_named id updates ≡ false
            → boxes_of self.new id ≡ boxes_of self.old id }
        ensures calm { (calm : ℕ → Bool) → IsCalm (node_at self.new.nodes) (λ id. is_named id updates) calm
            → (id : ℕ) → calm id ≡ true → boxes_of self.new id ≡ boxes_of self.old id }
    {
        let mut updates = updates;
        take_all(&mut self.nodes, &mut self.cache, &mut updates);
        refresh(&mut self.cache, &self.nodes);
        updates
    }

    /// The cache of boxes, as its last clean left it: the boxes of the copy are its boxes.
    pub fn cache(&self) -> &BoxCache
        ensures boxes { result.now.boxes ≡ self.now.boxes }
        ensures clean { (id : ℕ) → touched_at result.now id ≡ false }
    {
        &self.cache
    }
}

impl NodeView for StageCopy {
    ghost look = { λ c. node_at c.nodes };

    fn node(&self, id: u16) -> Option<&Node> {
        self.nodes.node(id)
    }
}

impl SceneView for StageCopy {
    ghost boxes = { boxes_of };

    fn box_of(&self, id: u16) -> Option<Box3> {
        self.cache().box_of(id)
    }
}
