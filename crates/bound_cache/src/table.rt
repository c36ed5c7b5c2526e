//! The boxes of all ids, and the pass of a clean over them.
ghost use Rattle.std.specs.Prelude.{◌≡◌, ℕ, ◌+◌, ◌<◌, ◌≤◌, true, None, map, max, length, slice_index_or, IfOk};
ghost use Rattle.std.specs.Vec.{vec_capacity};
ghost use Rattle.std.specs.List.{list_any};
ghost use Rattle.std.specs.Option.{option_map};
ghost use Rattle.fx_math.specs.Views.{bounds_of};
ghost use Rattle.pf_model.specs.Graphs.{Look};
ghost use Rattle.pf_model.specs.Laws.{AreLow};
ghost use Rattle.pf_model.specs.Boxes.{hull_of_all, box_from, box_step};
ghost use Rattle.bound_cache.specs.Sizes.{AreCleanFrom};
ghost use Rattle.bound_cache.specs.declared.marks.Mark.TheVariants.{Clean};
ghost use Rattle.bound_cache.specs.Tables.{is_done, is_changed, is_stale, parts, mark_of_parts, rested, with_box, with_mark, settled};
ghost use Rattle.bound_cache.specs.Tables.{FitsLevels, StaysHalfway, Proceeds};

use crate::marks::Mark;
use crate::reckoning::{carried, joined, parts_of};
use fx_math::Box3;
use pf_io::NoMemory;
use pf_model::{Kind, Node, NodeView, box_of_tris, write_to};
use std::alloc::Global;

/// The number of ids.
const IDS: usize = 65_536;

/// The nodes on the longest chain of a scene within the limits.
const MAX_LEVELS: u8 = 32;

/// The box and the mark of each id, and one more than the greatest id that was ever marked. There is memory for the boxes of
/// all ids, and as many are written as the greatest id that has had one asks.
#[derive(Debug, Drop)]
pub(crate) struct BoxTable {
    boxes: Vec<Option<Box3>>,
    marks: Vec<Mark>,
    marked: u32,
    ghost reserved: { 65536 ≤ vec_capacity boxes },
    ghost sized: { length marks.items ≡ 65536 },
    ghost unmarked: { AreCleanFrom marked marks.items },
}

/// So many times the same item.
fn filled<T: Copy>(alloc: Global, item: T, count: usize) -> Result<Vec<T>, NoMemory>
    ensures count { IfOk result (λ v. length v.items ≡ count) }
    ensures same { IfOk result (λ v. (k : ℕ) → slice_index_or v.items k item ≡ item) }
{
    let mut items = Vec::with_capacity(alloc, count)?;
    for place in 0..count {
        items.push(item)?;
    }
    Ok(items)
}

/// The mark of an id whose box is made of these.
fn mark_of_parts(ids: &[u16]) -> Mark
    ensures { result ≡ mark_of_parts ids.now }
{
    match ids {
        [] => Mark::Clean,
        [_, ..] => Mark::Noted,
    }
}

/// The mark that an id keeps when a clean has ended.
fn rested<V: NodeView>(scene: &V, id: u16, mark: Mark) -> Mark
    ensures { result ≡ rested (V.look scene.now id) mark }
{
    match mark {
        Mark::Clean => Mark::Clean,
        Mark::Noted | Mark::Touched | Mark::Same => Mark::Noted,
        Mark::Changed => mark_of_parts(parts_of(scene, id)),
    }
}

/// Gives each of the first ids the mark that it keeps when a clean has ended.
fn rest_first<V: NodeView>(marks: &mut Vec<Mark>, scene: &V, count: u32)
    requires within { count ≤ length marks.old.items }
    requires narrow { count ≤ 65536 }
    ensures count { length marks.new.items ≡ length marks.old.items }
    ensures first { (k : ℕ) → k < count → slice_index_or marks.new.items k Clean
        ≡ rested (V.look scene.now k) (slice_index_or marks.old.items k Clean) }
    ensures others { (k : ℕ) → count ≤ k
        → slice_index_or marks.new.items k Clean ≡ slice_index_or marks.old.items k Clean }
{
    for place in 0..count {
        let mark = marks[place as usize];
        if mark.is_under_way() {
            marks[place as usize] = rested(scene, place as u16, mark);
        }
    }
}

impl BoxTable {
    ghost use Rattle.bound_cache.specs.Views.{table_of};

    /// No id has a box, and none is touched.
    pub(crate) fn new(alloc: Global) -> Result<BoxTable, NoMemory>
        ensures boxes { IfOk result (λ t. (id : ℕ) → (table_of t).boxes id ≡ None) }
        ensures marks { IfOk result (λ t. (id : ℕ) → (table_of t).marks id ≡ Clean) }
    {
        let boxes = Vec::with_capacity(alloc, IDS)?;
        let marks = filled(alloc, Mark::Clean, IDS)?;
        Ok(BoxTable {
            boxes,
            marks,
            marked: 0,
        })
    }

    /// The box of an id.
    pub(crate) fn box_of(&self, id: u16) -> Option<Box3>
        ensures { option_map bounds_of result ≡ (table_of self.now).boxes id }
    {
        if let Some(around) = self.boxes.get(id as usize) {
            *around
        } else {
            None
        }
    }

    /// The mark of an id.
    fn mark_of(&self, id: u16) -> Mark
        ensures { result ≡ (table_of self.now).marks id }
    {
        self.marks[id as usize]
    }

    /// Marks an id.
    pub(crate) fn set_mark(&mut self, id: u16, mark: Mark)
        ensures { table_of self.new ≡ with_mark id mark (table_of self.old) }
    {
        self.marks[id as usize] = mark;
        self.marked = self.marked.max(id as u32 + 1);
    }

    /// Gives an id a box, or none.
    fn set_box(&mut self, id: u16, around: Option<Box3>)
        ensures { table_of self.new ≡ with_box id (option_map bounds_of around) (table_of self.old) }
    {
        write_to(&mut self.boxes, id as usize);
        self.boxes[id as usize] = around;
    }

    /// Gives each id the mark that it keeps when a clean has ended, and leaves the boxes.
    pub(crate) fn rest<V: NodeView>(&mut self, scene: &V)
        ensures boxes { (table_of self.new).boxes ≡ (table_of self.old).boxes }
        ensures marks { (id : ℕ) → (table_of self.new).marks id
            ≡ rested (V.look scene.now id) ((table_of self.old).marks id) }
    {
        rest_first(&mut self.marks, scene, self.marked);
    }

    /// Whether the box of one of these has changed.
    fn any_changed(&self, ids: &[u16]) -> bool
        ensures { result ≡ list_any (λ c. is_changed ((table_of self.now).marks c)) ids.now }
    {
        ids.iter().any(|id| self.mark_of(*id).is_changed())
    }

    /// The hull of the boxes of these.
    fn hull_of_all(&self, ids: &[u16]) -> Option<Box3>
        ensures { option_map bounds_of result ≡ hull_of_all (map (table_of self.now).boxes ids.now) }
    {
        let mut around = None;
        for id in ids {
            around = joined(around, self.box_of(*id));
        }
        around
    }

    /// The box of a node from those of its children.
    fn box_from(&self, node: &Node) -> Option<Box3>
        ensures { option_map bounds_of result ≡ box_from (table_of self.now).boxes node.now }
    {
        match &node.kind {
            Kind::Geode { geom, .. } => box_of_tris(geom.as_slice()),
            Kind::Glass { geom, .. } => box_of_tris(geom.as_slice()),
            _ => carried(&node.kind, self.hull_of_all(node.children.as_slice())),
        }
    }

    /// The box of an id from those of its children, none where it has no node.
    fn reckoned<V: NodeView>(&self, scene: &V, id: u16) -> Option<Box3>
        ensures { option_map bounds_of result ≡ box_step (V.look scene.now) (table_of self.now).boxes id }
    {
        match scene.node(id) {
            Some(node) => self.box_from(node),
            None => None,
        }
    }

    /// Whether the box of an id has to be reckoned: it was touched, or the box of a part has changed.
    fn is_stale<V: NodeView>(&self, scene: &V, id: u16, ids: &[u16]) -> bool
        requires { ids.now ≡ parts (V.look scene.now id) }
        ensures { result ≡ is_stale (V.look scene.now) id (table_of self.now) }
    {
        !self.mark_of(id).is_still() || self.any_changed(ids)
    }

    /// Reckons the box of an id where it has to be, and marks it. `ids` are its parts.
    fn settle<V: NodeView>(&mut self, scene: &V, id: u16, ids: &[u16])
        requires { ids.now ≡ parts (V.look scene.now id) }
        ensures { table_of self.new ≡ settled (V.look scene.now) id (table_of self.old) }
    {
        if self.is_stale(scene, id, ids) {
            let around = self.reckoned(scene, id);
            self.set_box(id, around);
            self.set_mark(id, Mark::Changed);
        } else {
            self.set_mark(id, Mark::Same);
        }
    }

    /// Settles an id after all below it, at most so many nodes deep; where there is nothing to do it is left.
    fn visit<V: NodeView>(&mut self, scene: &V, levels: u8, id: u16)
        ensures done { 0 < levels → is_done ((table_of self.new).marks id) ≡ true }
        ensures proceeds { Proceeds (V.look scene.now) (table_of self.old) (table_of self.new) }
        ensures right { AreLow (V.look scene.now) → FitsLevels (V.look scene.now) levels id
            → StaysHalfway (V.look scene.now) (table_of self.old) (table_of self.new) }
    {
        if levels == 0 {
            return;
        }
        if self.mark_of(id).is_done() {
            return;
        }
        let parts = parts_of(scene, id);
        for part in parts {
            if !self.mark_of(*part).is_done() {
                self.visit(scene, levels - 1, *part);
            }
        }
        self.settle(scene, id, parts);
    }

    /// Visits an id at which there is something to do.
    fn reach<V: NodeView>(&mut self, scene: &V, id: u16)
        ensures done { is_done ((table_of self.new).marks id) ≡ true }
        ensures proceeds { Proceeds (V.look scene.now) (table_of self.old) (table_of self.new) }
        ensures right { AreLow (V.look scene.now)
            → StaysHalfway (V.look scene.now) (table_of self.old) (table_of self.new) }
    {
        if self.mark_of(id).is_done() {
            return;
        }
        self.visit(scene, MAX_LEVELS, id);
    }

    /// Visits all ids at which there is something to do.
    pub(crate) fn reach_all<V: NodeView>(&mut self, scene: &V)
        ensures done { (id : ℕ) → is_done ((table_of self.new).marks id) ≡ true }
        ensures proceeds { Proceeds (V.look scene.now) (table_of self.old) (table_of self.new) }
        ensures right { AreLow (V.look scene.now)
            → StaysHalfway (V.look scene.now) (table_of self.old) (table_of self.new) }
    {
        for id in 0..self.marked {
            self.reach(scene, id as u16);
        }
    }
}
