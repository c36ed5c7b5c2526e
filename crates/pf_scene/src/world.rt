//! The graph with what follows its edits: the graves, the marks and the cycles.
ghost use Rattle.std.specs.Prelude.{◌≡◌, ℕ, ◌+◌, ◌-◌, ◌^◌, ◌<◌, ◌≤◌, true, false, None, [], ◌∷◌, ◌++◌, map, length, if◌then◌else◌, is_some, IfOk, OnOk, OnErr};
ghost use Rattle.std.specs.List.{list_all, list_any};
ghost use Rattle.std.specs.Vec.{vec_capacity};
ghost use Rattle.pf_model.specs.Graphs.{node_at, size_of, empty_scene};
ghost use Rattle.pf_model.specs.Limits.{IsRising, IsGraphWithinLimits};
ghost use Rattle.pf_model.specs.Totals.{triangle_count};
ghost use Rattle.pf_model.specs.Fits.{fits};
ghost use Rattle.pf_model.specs.Edits.{fault_of, after};
ghost use Rattle.pf_model.specs.Merges.{merge_fault, after_all};
ghost use Rattle.pf_model.specs.Copies.{grave_of, named_by, put_all, updates_of, freed_by, graves_kept};
ghost use Rattle.pf_history.specs.Objects.{emptied};
ghost use Rattle.cycle_buffer.specs.Cycles.{written_at, out_at, most_of, AreBetween};
ghost use Rattle.update_lists.specs.Taking.{geode_serials, times_in};
ghost use Rattle.pf_scene.specs.Counts.{AreTrimmed, AreAsMany, fitting_in_all};
ghost use Rattle.pf_scene.specs.Stock.{IsStocked, IsOpen, makes_geode, was_made, first_fault};

use crate::{burial, stock};
use async_delete::Graves;
use cycle_buffer::Cycles;
use pf_edits::{EditsError, WorkGraph};
use pf_io::NoMemory;
use pf_model::{Edit, EditError, EditList, Fault, SerialsBuilder};
use std::alloc::Global;
use std::marker::Model;
use std::slice;
use update_lists::{Dirty, Updates};

/// The graph, the graves of its deleted nodes, the marks of its changed ids, and the cycles of its geodes.
#[derive(Debug, Drop)]
pub(crate) struct World {
    graph: WorkGraph,
    graves: Graves,
    dirty: Dirty,
    cycles: Cycles,
}

impl Model for World {
    ghost use Rattle.cycle_buffer.specs.Cycles.{written_at};
    ghost use Rattle.pf_scene.specs.Stock.{IsStocked};
    ghost use Rattle.pf_scene.specs.Worlds.{WorldState};

    ghost Value = { WorldState };

    ghost view = { λ w. record { graph = w.graph; graves = w.graves.graves; marks = w.dirty; cycles = w.cycles } };

    ghost invariant = { λ w. IsStocked (written_at w.cycles) w.graph };
}

impl World {
    /// The scene alone, without graves and marks; the cycle of a geode gets so many copies.
    pub(crate) fn new(alloc: Global, copies: u8) -> Result<World, NoMemory>
        ensures { IfOk result (λ w. w ≡ record {
          graph = empty_scene;
          graves = [];
          marks = [];
          cycles = record { cycles = []; copies = copies; most = 0 };
        }) }
    {
        Ok(World {
            graph: WorkGraph::new(alloc)?,
            graves: Graves::new(alloc),
            dirty: Dirty::new(alloc)?,
            cycles: Cycles::new(alloc, copies),
        })
    }

    /// Does nothing: tells that the graph is within the limits, that its geodes have their cycles, and that no cycle has
    /// fewer copies than a new one gets.
    pub(crate) fn keeps_limits(&self)
        ensures limits { IsGraphWithinLimits self.now.graph }
        ensures stocked { IsStocked (written_at self.now.cycles) self.now.graph }
        ensures between { AreBetween self.now.cycles }
    {
        self.graph.keeps_limits();
        let _ = self.cycles.most();
    }

    /// The number of graves.
    pub(crate) fn graves(&self) -> usize
        ensures { result ≡ length self.now.graves }
    {
        self.graves.len()
    }

    /// The unfolded size of the scene.
    pub(crate) fn size(&self) -> u32
        ensures { result ≡ size_of (node_at self.now.graph.nodes) 0 }
    {
        self.graph.size()
    }

    /// The number of triangles of all geodes.
    pub(crate) fn tris(&self) -> u32
        ensures { result ≡ triangle_count (node_at self.now.graph.nodes) }
    {
        self.graph.tris()
    }

    /// The greatest number of copies that the cycles told so far. None has more.
    pub(crate) fn most_copies(&self) -> u32
        ensures value { result ≡ self.now.cycles.most }
        ensures between { AreBetween self.now.cycles }
    {
        self.cycles.most()
    }

    /// Applies an edit after so many frames, or answers its fault, where there is memory.
    fn try_edit(&mut self, e: &Edit, frames: u32) -> Result<Option<Fault>, NoMemory>
        requires fits { fits e.now ≡ true }
        requires serials { self.old.graph.next_serial < 2 ^ 32 - 1 }
        requires empty { self.old.graph.gone ≡ [] }
        ensures fault { IfOk result (λ f. f ≡ fault_of self.old.graph e.now) }
        ensures graph { OnOk result (self.new.graph ≡ emptied (after self.old.graph e.now)) }
        ensures graves { OnOk result (self.new.graves
            ≡ self.old.graves ++ map (grave_of frames) (after self.old.graph e.now).gone) }
        ensures marks { OnOk result (self.new.marks ≡ put_all
            (if is_some (fault_of self.old.graph e.now) then [] else named_by e.now ∷ []) self.old.marks) }
        ensures trimmed { AreTrimmed self.old.graph.next_serial self.old.cycles self.new.cycles }
        ensures none { OnOk result (was_made (is_some (fault_of self.old.graph e.now)) (makes_geode e.now) ≡ false
            → (s : ℕ) → self.old.graph.next_serial ≤ s → written_at self.new.cycles s ≡ None) }
        ensures none_made { OnErr result ((s : ℕ) → self.old.graph.next_serial ≤ s → written_at self.new.cycles s ≡ None) }
        ensures unchanged { OnErr result (self.new ≡ record self.old { cycles = self.new.cycles }) }
        ensures out { OnErr result ((s : ℕ) → out_at self.new.cycles s ≡ out_at self.old.cycles s) }
    {
        let edits = slice::from_ref(e);
        self.graves.reserve(1)?;
        self.graph.keeps_limits();
        let first = self.graph.next_serial();
        stock::open(&mut self.cycles, first, edits)?;
        match self.graph.edit(e) {
            Ok(()) => {
                follow(
                    &mut self.graph,
                    &mut self.graves,
                    &mut self.cycles,
                    edits,
                    frames,
                );
                burial::mark(&mut self.dirty, edits);
                Ok(None)
            }
            Err(EditError::Fault(fault)) => {
                stock::withdraw(&mut self.cycles, first, edits);
                Ok(Some(fault))
            }
            Err(EditError::NoMemory) => {
                stock::withdraw(&mut self.cycles, first, edits);
                Err(NoMemory)
            }
        }
    }

    /// The fault of an edit, or none. It takes no memory, and nothing changes.
    fn judge(&mut self, e: &Edit) -> Option<Fault>
        ensures fault { result ≡ fault_of self.old.graph e.now }
        ensures unchanged { self.new ≡ self.old }
    {
        self.graph.judge(e)
    }

    /// The fault of the first edit, or none. It takes no memory, and nothing changes.
    fn judge_first(&mut self, edits: &[Edit]) -> Option<Fault>
        ensures fault { result ≡ first_fault self.old.graph edits.now }
        ensures unchanged { self.new ≡ self.old }
    {
        match edits {
            [] => None,
            [e, ..] => self.judge(e),
        }
    }

    /// Applies an edit after so many frames, or answers its fault, or where it has none want of memory.
    pub(crate) fn edit(&mut self, e: &Edit, frames: u32) -> Result<Option<Fault>, NoMemory>
        requires fits { fits e.now ≡ true }
        requires serials { self.old.graph.next_serial < 2 ^ 32 - 1 }
        requires empty { self.old.graph.gone ≡ [] }
        ensures fault { IfOk result (λ f. f ≡ fault_of self.old.graph e.now) }
        ensures memory { OnErr result (fault_of self.old.graph e.now ≡ None) }
        ensures graph { OnOk result (self.new.graph ≡ emptied (after self.old.graph e.now)) }
        ensures graves { OnOk result (self.new.graves
            ≡ self.old.graves ++ map (grave_of frames) (after self.old.graph e.now).gone) }
        ensures marks { OnOk result (self.new.marks ≡ put_all
            (if is_some (fault_of self.old.graph e.now) then [] else named_by e.now ∷ []) self.old.marks) }
        ensures trimmed { AreTrimmed self.old.graph.next_serial self.old.cycles self.new.cycles }
        ensures none { OnOk result (was_made (is_some (fault_of self.old.graph e.now)) (makes_geode e.now) ≡ false
            → (s : ℕ) → self.old.graph.next_serial ≤ s → written_at self.new.cycles s ≡ None) }
        ensures none_made { OnErr result ((s : ℕ) → self.old.graph.next_serial ≤ s → written_at self.new.cycles s ≡ None) }
        ensures unchanged { OnErr result (self.new ≡ record self.old { cycles = self.new.cycles }) }
        ensures out { OnErr result ((s : ℕ) → out_at self.new.cycles s ≡ out_at self.old.cycles s) }
    {
        match self.try_edit(e, frames) {
            Ok(fault) => Ok(fault),
            Err(NoMemory) => match self.judge(e) {
                Some(fault) => Ok(Some(fault)),
                None => Err(NoMemory),
            },
        }
    }

    /// Applies all edits of a list after so many frames, or answers the first fault with its place, counted from 1, where
    /// there is memory.
    fn try_merge(&mut self, list: &EditList, frames: u32) -> Result<Option<(u32, Fault)>, NoMemory>
        requires fits { list_all fits list.now ≡ true }
        requires serials { self.old.graph.next_serial + length list.now < 2 ^ 32 }
        requires empty { self.old.graph.gone ≡ [] }
        ensures fault { IfOk result (λ f. f ≡ merge_fault self.old.graph list.now) }
        ensures graph { OnOk result (self.new.graph ≡ emptied (after_all self.old.graph list.now)) }
        ensures graves { OnOk result (self.new.graves
            ≡ self.old.graves ++ map (grave_of frames) (after_all self.old.graph list.now).gone) }
        ensures marks { OnOk result (self.new.marks ≡ put_all
            (if is_some (merge_fault self.old.graph list.now) then [] else map named_by list.now) self.old.marks) }
        ensures trimmed { AreTrimmed self.old.graph.next_serial self.old.cycles self.new.cycles }
        ensures none { OnOk result (was_made (is_some (merge_fault self.old.graph list.now))
            (list_any makes_geode list.now) ≡ false
            → (s : ℕ) → self.old.graph.next_serial ≤ s → written_at self.new.cycles s ≡ None) }
        ensures none_made { OnErr result ((s : ℕ) → self.old.graph.next_serial ≤ s → written_at self.new.cycles s ≡ None) }
        ensures unchanged { OnErr result (self.new ≡ record self.old { cycles = self.new.cycles }) }
        ensures out { OnErr result ((s : ℕ) → out_at self.new.cycles s ≡ out_at self.old.cycles s) }
    {
        let edits = list.as_slice();
        self.graves.reserve(edits.len())?;
        self.graph.keeps_limits();
        let first = self.graph.next_serial();
        stock::open(&mut self.cycles, first, edits)?;
        match self.graph.edits(list) {
            Ok(()) => {
                follow(
                    &mut self.graph,
                    &mut self.graves,
                    &mut self.cycles,
                    edits,
                    frames,
                );
                burial::mark(&mut self.dirty, edits);
                Ok(None)
            }
            Err(EditsError::Fault { place, fault }) => {
                stock::withdraw(&mut self.cycles, first, edits);
                Ok(Some((place, fault)))
            }
            Err(EditsError::NoMemory) => {
                stock::withdraw(&mut self.cycles, first, edits);
                Err(NoMemory)
            }
        }
    }

    /// Applies all edits of a list after so many frames, or answers the first fault with its place, counted from 1, or
    /// where the first edit has none want of memory.
    pub(crate) fn merge(
        &mut self,
        list: &EditList,
        frames: u32,
    ) -> Result<Option<(u32, Fault)>, NoMemory>
        requires fits { list_all fits list.now ≡ true }
        requires serials { self.old.graph.next_serial + length list.now < 2 ^ 32 }
        requires empty { self.old.graph.gone ≡ [] }
        ensures fault { IfOk result (λ f. f ≡ merge_fault self.old.graph list.now) }
        ensures memory { OnErr result (first_fault self.old.graph list.now ≡ None) }
        ensures graph { OnOk result (self.new.graph ≡ emptied (after_all self.old.graph list.now)) }
        ensures graves { OnOk result (self.new.graves
            ≡ self.old.graves ++ map (grave_of frames) (after_all self.old.graph list.now).gone) }
        ensures marks { OnOk result (self.new.marks ≡ put_all
            (if is_some (merge_fault self.old.graph list.now) then [] else map named_by list.now) self.old.marks) }
        ensures trimmed { AreTrimmed self.old.graph.next_serial self.old.cycles self.new.cycles }
        ensures none { OnOk result (was_made (is_some (merge_fault self.old.graph list.now))
            (list_any makes_geode list.now) ≡ false
            → (s : ℕ) → self.old.graph.next_serial ≤ s → written_at self.new.cycles s ≡ None) }
        ensures none_made { OnErr result ((s : ℕ) → self.old.graph.next_serial ≤ s → written_at self.new.cycles s ≡ None) }
        ensures unchanged { OnErr result (self.new ≡ record self.old { cycles = self.new.cycles }) }
        ensures out { OnErr result ((s : ℕ) → out_at self.new.cycles s ≡ out_at self.old.cycles s) }
    {
        match self.try_merge(list, frames) {
            Ok(fault) => Ok(fault),
            Err(NoMemory) => match self.judge_first(list.as_slice()) {
                Some(fault) => Ok(Some((1, fault))),
                None => Err(NoMemory),
            },
        }
    }

    /// How many graves are due once so many frames are retired.
    pub(crate) fn due(&self, retired: u32) -> usize
        ensures { result ≡ length (freed_by retired self.now.graves) }
    {
        self.graves.due(retired)
    }

    /// Drops the graves that are due once so many frames are retired, appends their serials, and takes back the
    /// triangles that came home. It takes no memory.
    pub(crate) fn sync(&mut self, retired: u32, home: &mut Vec<Updates>, out: &mut SerialsBuilder)
        requires { length (freed_by retired self.old.graves) ≤ out.old.spare }
        ensures graph { self.new.graph ≡ self.old.graph }
        ensures graves { self.new.graves ≡ graves_kept retired self.old.graves }
        ensures marks { self.new.marks ≡ self.old.marks }
        ensures freed { out.new.items ≡ out.old.items ++ freed_by retired self.old.graves }
        ensures room { out.new.spare + length (freed_by retired self.old.graves) ≡ out.old.spare }
        ensures home { home.new.items ≡ [] }
        ensures capacity { vec_capacity home.new ≡ vec_capacity home.old }
        ensures written { (s : ℕ) → written_at self.new.cycles s ≡ written_at self.old.cycles s }
        ensures most { most_of self.new.cycles ≡ most_of self.old.cycles }
        ensures counts { AreAsMany self.old.cycles self.new.cycles }
        ensures out { (s : ℕ) → out_at self.new.cycles s
            ≡ out_at self.old.cycles s - fitting_in_all (written_at self.old.cycles s) s home.old.items }
    {
        stock::take_all_home(&mut self.cycles, home);
        self.graves.sweep(retired, out);
    }

    /// The update list of the changed ids, and from then on none is changed. A refusal changes nothing that is seen.
    pub(crate) fn cut(&mut self) -> Result<Updates, NoMemory>
        requires { IsRising self.old.marks }
        ensures updates { IfOk result (λ u. u ≡ updates_of (node_at self.old.graph.nodes) self.old.marks) }
        ensures cleared { OnOk result (self.new.marks ≡ []) }
        ensures graph { self.new.graph ≡ self.old.graph }
        ensures graves { self.new.graves ≡ self.old.graves }
        ensures unchanged { OnErr result (self.new.marks ≡ self.old.marks) }
        ensures written { (s : ℕ) → written_at self.new.cycles s ≡ written_at self.old.cycles s }
        ensures out { OnOk result ((s : ℕ) → out_at self.new.cycles s ≡ out_at self.old.cycles s
            + times_in s (geode_serials (node_at self.old.graph.nodes) self.old.marks)) }
        ensures none_out { OnErr result ((s : ℕ) → out_at self.new.cycles s ≡ out_at self.old.cycles s) }
        ensures most { (b : ℕ) → most_of self.old.cycles ≤ b → ((s : ℕ) → out_at self.old.cycles s < b)
            → most_of self.new.cycles ≤ b }
        ensures begins { self.new.cycles.copies ≡ self.old.cycles.copies }
    {
        self.graph.keeps_limits();
        self.dirty.cut(&self.graph, &mut self.cycles)
    }

    /// Goes on to the next frame.
    pub(crate) fn next_frame(&mut self)
        requires { self.old.graph.time < 2 ^ 32 - 1 }
        ensures graph { self.new.graph ≡ record self.old.graph { time = self.old.graph.time + 1 } }
        ensures graves { self.new.graves ≡ self.old.graves }
        ensures marks { self.new.marks ≡ self.old.marks }
        ensures cycles { self.new.cycles ≡ self.old.cycles }
    {
        self.graph.next_frame();
    }
}

/// What follows accepted edits: each geode that they name is written to its cycle, and deleted nodes are buried, whose
/// cycles go. It takes no memory.
fn follow(
    graph: &mut WorkGraph,
    graves: &mut Graves,
    cycles: &mut Cycles,
    edits: &[Edit],
    frames: u32,
)
    requires open { IsOpen (written_at cycles.old) graph.old (map named_by edits.now) }
    requires room { length graph.old.gone ≤ graves.old.spare }
    ensures graph { graph.new ≡ emptied graph.old }
    ensures graves { graves.new.graves ≡ graves.old.graves ++ map (grave_of frames) graph.old.gone }
    ensures stocked { IsStocked (written_at cycles.new) graph.new }
    ensures none { (s : ℕ) → written_at cycles.old s ≡ None → written_at cycles.new s ≡ None }
    ensures trimmed { (next : ℕ) → AreTrimmed next cycles.old cycles.new }
{
    stock::settle(cycles, graph, edits);
    let gone = graph.take_gone();
    stock::forget(cycles, gone.as_slice());
    burial::bury(graves, gone, frames);
}
