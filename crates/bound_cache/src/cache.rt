//! The cache of boxes as its callers see it.
ghost use Rattle.std.specs.Prelude.{◌≡◌, ℕ, ◌||◌, ◌==◌, Bool, true, false, None, IfOk};
ghost use Rattle.std.specs.Option.{option_map};
ghost use Rattle.fx_math.specs.Views.{bounds_of};
ghost use Rattle.pf_model.specs.Graphs.{Look};
ghost use Rattle.pf_model.specs.Limits.{KeepsLimits};
ghost use Rattle.bound_cache.specs.Caches.{box_at, touched_at, noted_at, AreBoxesOf, ChangesAreTouched, AreNoted, is_geode_at, IsCalm};

use crate::marks::Mark;
use crate::table::BoxTable;
use fx_math::Box3;
use pf_io::NoMemory;
use pf_model::NodeView;
use std::alloc::Global;
use std::marker::Model;

/// The box of each node of a scene, kept while the scene changes. Whoever changes a node touches its id, and a clean
/// then reckons the boxes of the touched ids and of all above them anew. It looks at the nodes that were touched and at those
/// whose boxes are made of others, and at no other node.
#[derive(Debug)]
pub struct BoxCache {
    table: BoxTable,
    any_touched: bool,
}

/// Written out, so that to drop one is a single call.
impl Drop for BoxCache {
    fn drop(self) {
        let Self {
            table: _,
            any_touched: _,
        } = self;
    }
}

impl Model for BoxCache {
    ghost use Rattle.std.specs.Prelude.{map};
    ghost use Rattle.std.specs.Option.{option_map};
    ghost use Rattle.fx_math.specs.Views.{bounds_of};
    ghost use Rattle.bound_cache.specs.Caches.{CacheState};
    ghost use Rattle.bound_cache.specs.Tables.{is_touched, is_noted, IsAtRest};
    ghost use Rattle.bound_cache.specs.Views.{table_of};

    ghost Value = { CacheState };

    ghost view = { λ c. record {
      boxes = map (option_map bounds_of) c.table.boxes.items;
      touched = map is_touched c.table.marks.items;
      noted = map is_noted c.table.marks.items;
    } };

    ghost invariant = { λ c. IsAtRest (table_of c.table) c.any_touched };
}

impl BoxCache {
    /// No id has a box, and none is touched: the cache of a scene without nodes.
    pub fn new(alloc: Global) -> Result<BoxCache, NoMemory>
        ensures boxes { IfOk result (λ c. (id : ℕ) → box_at c id ≡ None) }
        ensures touched { IfOk result (λ c. (id : ℕ) → touched_at c id ≡ false) }
        ensures noted { IfOk result (λ c. (id : ℕ) → noted_at c id ≡ false) }
    {
        let table = BoxTable::new(alloc)?;
        Ok(BoxCache {
            table,
            any_touched: false,
        })
    }

    /// Notes that the node of an id changes.
    pub fn touch(&mut self, id: u16)
        ensures boxes { (k : ℕ) → box_at self.new k ≡ box_at self.old k }
        ensures touched { (k : ℕ) → touched_at self.new k ≡ (k == id || touched_at self.old k) }
        ensures noted { (k : ℕ) → noted_at self.new k ≡ (k == id || noted_at self.old k) }
    {
        self.table.set_mark(id, Mark::Touched);
        self.any_touched = true;
    }

    /// Brings the boxes to those of a scene. Where the boxes were those of the scene as it was, each id whose node has
    /// changed since was touched, each node of the scene as it was whose box is made of others was noted, and the scene is
    /// within the limits, all boxes are then those from scratch. On every scene it goes at most 32 nodes deep, an untouched
    /// geode keeps its box, and so does each node that is untouched with all below it, whether the box was right or not. From
    /// the empty scene of `new` on the nodes are noted as that is asked, as long as each change is touched.
    pub fn clean<V: NodeView>(&mut self, scene: &V)
        ensures right { (was : Look) → AreBoxesOf was (box_at self.old)
            → ChangesAreTouched was (V.look scene.now) (touched_at self.old) → AreNoted was (noted_at self.old)
            → KeepsLimits (V.look scene.now) → AreBoxesOf (V.look scene.now) (box_at self.new) }
        ensures noted { (was : Look) → ChangesAreTouched was (V.look scene.now) (touched_at self.old)
            → AreNoted was (noted_at self.old) → AreNoted (V.look scene.now) (noted_at self.new) }
        ensures kept { (id : ℕ) → is_geode_at (V.look scene.now) id ≡ true → touched_at self.old id ≡ false
            → box_at self.new id ≡ box_at self.old id }
        ensures calm { (calm : ℕ → Bool) → IsCalm (V.look scene.now) (touched_at self.old) calm
            → (id : ℕ) → calm id ≡ true → box_at self.new id ≡ box_at self.old id }
        ensures untouched { (id : ℕ) → touched_at self.new id ≡ false }
    {
        if !self.any_touched {
            return;
        }
        self.table.reach_all(scene);
        self.table.rest(scene);
        self.any_touched = false;
    }

    /// The box of the node of an id, as the last clean left it.
    pub fn box_of(&self, id: u16) -> Option<Box3>
        ensures { option_map bounds_of result ≡ box_at self.now id }
    {
        self.table.box_of(id)
    }
}
