//! The buffer: a scene graph of its own, the recorded edits, and how many edits were dropped.
ghost use Rattle.std.specs.Prelude.{◌≡◌, ◌-◌, ◌^◌, ◌<◌, true, None, length, IfOk, IfErr, OnOk, OnErr};
ghost use Rattle.std.specs.List.{list_all};
ghost use Rattle.std.specs.Result.{IsErrOf};
ghost use Rattle.pf_model.specs.Edits.{fault_of};
ghost use Rattle.pf_model.specs.Merges.{empty_buffer, judged, recorded};
ghost use Rattle.pf_model.specs.Fits.{fits};
ghost use Rattle.pf_history.specs.Asks.{merge_of};
ghost use Rattle.dbase_buffer.specs.Judging.{TellsFault, left_by};

use crate::errors::BufferError;
use pf_edits::WorkGraph;
use pf_history::Merge;
use pf_io::NoMemory;
use pf_model::{Edit, EditError, EditListBuilder};
use std::alloc::Global;
use std::marker::Model;

/// A buffer (pfBuffer). Edits are judged at once in a scene graph of the buffer's own, which begins
/// as the scene alone and prepares frame 1; children that are asked to be added or removed are
/// recorded without a test. Contracts see the graph, the recorded edits in order, and the number of
/// dropped ones. It has room for at most one more edit than as many again as it has recorded.
#[derive(Debug)]
pub struct Buffer {
    graph: WorkGraph,
    edits: EditListBuilder,
    dropped: u32,
}

/// Written out, so that to drop one is a single call.
impl Drop for Buffer {
    fn drop(self) {
        let Self {
            graph: _,
            edits: _,
            dropped: _,
        } = self;
    }
}

impl Model for Buffer {
    ghost use Rattle.dbase_buffer.specs.Judging.{IsRecord};
    ghost use Rattle.pf_model.specs.Merges.{BufferState};

    ghost Value = { BufferState };

    ghost view = { λ b. record { graph = b.graph; edits = b.edits.items; dropped = b.dropped } };

    ghost invariant = { λ b. IsRecord b.edits };
}

impl Buffer {
    /// Returns a buffer with nothing recorded and nothing dropped. Returns `Err(NoMemory)` if memory runs out.
    pub fn new(alloc: Global) -> Result<Buffer, NoMemory>
        ensures { IfOk result (λ b. b ≡ empty_buffer) }
    {
        Ok(Buffer {
            graph: WorkGraph::new(alloc)?,
            edits: EditListBuilder::new(alloc),
            dropped: 0,
        })
    }

    /// The number of edits recorded.
    pub fn len(&self) -> usize
        ensures { result ≡ length self.now.edits }
    {
        self.edits.len()
    }

    /// The number of edits dropped for a fault in the buffer's graph.
    pub fn dropped(&self) -> u32
        ensures { result ≡ self.now.dropped }
    {
        self.dropped
    }

    /// The serial that the next node made in the buffer's graph gets.
    pub fn next_serial(&self) -> u32
        ensures { result ≡ self.now.graph.next_serial }
    {
        self.graph.next_serial()
    }

    /// Why an edit is not recorded that finds no room: its fault, for which it is counted as dropped,
    /// or want of memory.
    fn refuse_without_room(&mut self, e: &Edit) -> BufferError
        requires { self.old.dropped < 2 ^ 32 - 1 }
        ensures fault { TellsFault result (fault_of self.old.graph e.now) }
        ensures memory { result ≡ BufferError.NoMemory → fault_of self.old.graph e.now ≡ None }
        ensures left { self.new ≡ left_by result self.old e.now }
    {
        match self.graph.judge(e) {
            Some(fault) => {
                self.dropped += 1;
                BufferError::Fault(fault)
            }
            None => BufferError::NoMemory,
        }
    }

    /// Makes an edit in the buffer's graph and records it. Its numbers are in the ranges of a play.
    ///
    /// Returns `Err(BufferError::Fault)` with the fault that the edit has in that graph, and counts the edit as
    /// dropped. Returns `Err(BufferError::NoMemory)` if memory runs out for an edit without a fault, and leaves the
    /// buffer as it was.
    #[tactic(auto, using(crate::proofs::Fitting::one_more_fits))]
    pub fn edit(&mut self, e: Edit) -> Result<(), BufferError>
        requires serials { self.old.graph.next_serial < 2 ^ 32 - 1 }
        requires drops { self.old.dropped < 2 ^ 32 - 1 }
        requires fits { fits e ≡ true }
        ensures done { OnOk result (fault_of self.old.graph e ≡ None) }
        ensures recorded { OnOk result (self.new ≡ judged self.old e) }
        ensures fault { IfErr result (λ r. TellsFault r (fault_of self.old.graph e)) }
        ensures memory { IsErrOf result BufferError.NoMemory → fault_of self.old.graph e ≡ None }
        ensures left { IfErr result (λ r. self.new ≡ left_by r self.old e) }
    {
        if self.edits.reserve(1).is_err() {
            return Err(self.refuse_without_room(&e));
        }
        match self.graph.edit(&e) {
            Ok(()) => {
                self.edits.push_reserved(e);
                Ok(())
            }
            Err(EditError::Fault(fault)) => {
                self.dropped += 1;
                Err(BufferError::Fault(fault))
            }
            Err(EditError::NoMemory) => Err(BufferError::NoMemory),
        }
    }

    /// Records a child to be appended in the scene, without a test (pfBufferAddChild). `parent` and `child` are ids.
    ///
    /// Returns `Err(NoMemory)` if memory runs out, and leaves the buffer as it was.
    #[tactic(auto, using(crate::proofs::Fitting::one_more_fits))]
    pub fn ask_add(&mut self, parent: u16, child: u16) -> Result<(), NoMemory>
        ensures ok { OnOk result (self.new ≡ recorded self.old (Edit.Add parent child)) }
        ensures err { OnErr result (self.new ≡ self.old) }
    {
        self.edits.reserve(1)?;
        self.edits.push_reserved(Edit::Add { parent, child });
        Ok(())
    }

    /// Records a child to be taken out in the scene, without a test (pfBufferRemoveChild). `parent` and `child` are
    /// ids.
    ///
    /// Returns `Err(NoMemory)` if memory runs out, and leaves the buffer as it was.
    #[tactic(auto, using(crate::proofs::Fitting::one_more_fits))]
    pub fn ask_remove(&mut self, parent: u16, child: u16) -> Result<(), NoMemory>
        ensures ok { OnOk result (self.new ≡ recorded self.old (Edit.Remove parent child)) }
        ensures err { OnErr result (self.new ≡ self.old) }
    {
        self.edits.reserve(1)?;
        self.edits.push_reserved(Edit::Remove { parent, child });
        Ok(())
    }

    /// The merge that the buffer asks for (pfMergeBuffer): its recorded edits in order, and how
    /// many it dropped. It takes no memory.
    pub fn take(self) -> Merge
        ensures merge { result ≡ merge_of self }
        ensures fits { list_all fits result.edits ≡ true }
    {
        let Buffer {
            graph: _,
            edits,
            dropped,
        } = self;
        Merge {
            edits: edits.finish(),
            dropped,
        }
    }
}
