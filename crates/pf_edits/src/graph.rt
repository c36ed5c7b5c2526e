//! The working graph: a scene graph whose edits cost what the node that they name and its ancestors cost.
ghost use Rattle.std.specs.Prelude.{◌≡◌, ◌+◌, ◌-◌, ◌^◌, ◌<◌, [], true, None, Some, IfOk, IfErr, OnOk, OnErr, length};
ghost use Rattle.std.specs.Option.{option_copied};
ghost use Rattle.std.specs.Result.{IsErrOf};
ghost use Rattle.pf_model.specs.Graphs.{SceneGraph, node_at, size_of, empty_scene};
ghost use Rattle.pf_model.specs.Limits.{IsGraphWithinLimits};
ghost use Rattle.pf_model.specs.Totals.{triangle_count};
ghost use Rattle.pf_model.specs.Edits.{fault_of, after, Refuses};
ghost use Rattle.pf_model.specs.Merges.{merge_fault, after_all};
ghost use Rattle.pf_model.specs.Fits.{fits};
ghost use Rattle.std.specs.List.{list_all};
ghost use Rattle.pf_edits.specs.Refusals.{RefusesAll, BeginsWell};

use crate::climb::extent_at;
use crate::errors::EditsError;
use crate::faults::find_node;
use crate::work::Work;
use pf_io::NoMemory;
use pf_model::{Edit, EditError, EditList, Fault, Gone, Node, NodeView};
use std::alloc::Global;
use std::marker::Model;
use std::mem;

/// A scene graph within the limits that is edited node by node. The cost of an edit grows with the node that it names
/// and that node's ancestors, never with the scene.
#[derive(Debug)]
pub struct WorkGraph {
    work: Work,
}

/// Written out, so that to drop one is a single call.
impl Drop for WorkGraph {
    fn drop(self) {
        let Self { work: _ } = self;
    }
}

impl Model for WorkGraph {
    ghost use Rattle.pf_model.specs.Graphs.{SceneGraph};
    ghost use Rattle.pf_edits.specs.Working.{told};
    ghost use Rattle.pf_edits.specs.Settling.{IsSettled};

    ghost Value = { SceneGraph };

    ghost view = { λ g. told g.work };

    ghost invariant = { λ g. IsSettled g.work };
}

impl WorkGraph {
    /// Returns the graph of the scene alone, which prepares frame 1. Returns `Err(NoMemory)` if memory runs out.
    pub fn new(alloc: Global) -> Result<WorkGraph, NoMemory>
        ensures { IfOk result (λ g. g ≡ empty_scene) }
    {
        Ok(WorkGraph {
            work: Work::new(alloc)?,
        })
    }

    /// Does nothing: tells that the graph is within the limits.
    pub fn keeps_limits(&self)
        ensures { IsGraphWithinLimits self.now }
    {
        let _ = &self.work;
    }

    /// The number of the frame in preparation.
    pub fn time(&self) -> u32
        ensures { result ≡ self.now.time }
    {
        self.work.time
    }

    /// The serial that the next node made gets.
    pub fn next_serial(&self) -> u32
        ensures { result ≡ self.now.next_serial }
    {
        self.work.next_serial
    }

    /// The number of triangles of all geodes, each geode once however often it is a child.
    pub fn tris(&self) -> u32
        ensures { result ≡ triangle_count (node_at self.now.nodes) }
    {
        self.work.records.tris()
    }

    /// The unfolded size of the scene.
    pub fn size(&self) -> u32
        ensures { result ≡ size_of (node_at self.now.nodes) 0 }
    {
        extent_at(&self.work.records, 0).size
    }

    /// Goes on to the next frame.
    pub fn next_frame(&mut self)
        requires { self.old.time < 2 ^ 32 - 1 }
        ensures { self.new ≡ record self.old { time = self.old.time + 1 } }
    {
        self.work.time += 1;
    }

    /// Takes out what is left of the deleted nodes, in the order of their deletion.
    pub fn take_gone(&mut self) -> Vec<Gone>
        ensures gone { result.items ≡ self.old.gone }
        ensures after { self.new ≡ record self.old { gone = [] } }
    {
        let alloc = *self.work.gone.allocator();
        mem::replace(&mut self.work.gone, Vec::new(alloc))
    }

    /// The fault of an edit, or none. It takes no memory, and the graph stays as it is.
    pub fn judge(&mut self, e: &Edit) -> Option<Fault>
        ensures fault { result ≡ fault_of self.old e.now }
        ensures unchanged { self.new ≡ self.old }
    {
        self.work.judge(e)
    }

    /// Applies an edit, whose numbers are in the ranges of a play.
    ///
    /// Returns `Err(EditError::Fault)` with the fault of the edit in this graph, and only if it has one. Returns
    /// `Err(EditError::NoMemory)` if memory runs out for an edit without a fault. Either leaves the graph as it was.
    pub fn edit(&mut self, e: &Edit) -> Result<(), EditError>
        requires serials { self.old.next_serial < 2 ^ 32 - 1 }
        requires fits { fits e.now ≡ true }
        ensures done { OnOk result (fault_of self.old e.now ≡ None) }
        ensures after { OnOk result (self.new ≡ after self.old e.now) }
        ensures fault { IfErr result (λ r. Refuses r (fault_of self.old e.now)) }
        ensures memory { IsErrOf result EditError.NoMemory → fault_of self.old e.now ≡ None }
        ensures unchanged { OnErr result (self.new ≡ self.old) }
    {
        let undo = self.work.edit(e)?;
        self.work.settle(e, &undo);
        Ok(())
    }

    /// Applies all edits of a list in order. Their numbers are in the ranges of a play.
    ///
    /// Returns `Err(EditsError::Fault)` with the first fault and the place of its edit, counted from 1. Returns
    /// `Err(EditsError::NoMemory)` if memory runs out, which comes only if the first edit has no fault. Either leaves
    /// the graph as it was.
    pub fn edits(&mut self, es: &EditList) -> Result<(), EditsError>
        requires serials { self.old.next_serial + length es.now < 2 ^ 32 }
        requires fits { list_all fits es.now ≡ true }
        ensures done { OnOk result (merge_fault self.old es.now ≡ None) }
        ensures after { OnOk result (self.new ≡ after_all self.old es.now) }
        ensures fault { IfErr result (λ r. RefusesAll r (merge_fault self.old es.now)) }
        ensures memory { IsErrOf result EditsError.NoMemory → BeginsWell self.old es.now }
        ensures unchanged { OnErr result (self.new ≡ self.old) }
    {
        self.work.edits(es.as_slice())
    }
}

impl NodeView for WorkGraph {
    ghost look = { λ g. node_at g.nodes };

    fn node(&self, id: u16) -> Option<&Node> {
        find_node(&self.work.records, id)
    }
}
