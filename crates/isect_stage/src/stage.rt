//! The stage that is asked frame by frame.
ghost use Rattle.std.specs.Prelude.{◌≡◌, ◌<◌, List, [], ◌∷◌, ◌++◌, IfOk, OnOk, OnErr};
ghost use Rattle.pf_model.specs.Graphs.{node_at};
ghost use Rattle.pf_model.specs.Copies.{updated_by};
ghost use Rattle.multibuffer.specs.StageCopies.{boxes_of};
ghost use Rattle.nearest_hit.specs.Nearest.{nearest, CanBeProbed};
ghost use Rattle.isect_stage.specs.Asking.{hit_in, Question, MayWant, IsectKeeps};

use multibuffer::StageCopy;
use nearest_hit::{Near, Segment, probe};
use pf_io::NoMemory;
use pf_model::{Steps, View};
use std::alloc::Global;
use std::marker::{Brand, Model};
use std::sync::ledger::{Blank, Ledger};
use update_lists::Updates;

/// The stage that finds the nearest hit of one segment in each frame (pfISECT). It keeps a copy of the scene of its own
/// by the update lists of the frames, and asks it once for each frame. The segment is in eye coordinates of the first
/// channel, in 1/4,096 of a unit. It takes memory for its copy of each update list, and for the results.
///
/// Contracts see the segment, the copy with its boxes, the results so far, and for how many results there is room.
pub struct IsectStage {
    segment: Segment,
    copy: StageCopy,
    answers: Vec<Option<Near>>,
}

/// Written out, so that to drop one is a single call.
impl Drop for IsectStage {
    fn drop(self) {
        let Self {
            segment: _,
            copy: _,
            answers: _,
        } = self;
    }
}

impl Model for IsectStage {
    ghost use Rattle.std.specs.Vec.{vec_capacity};
    ghost use Rattle.isect_stage.specs.Asking.{IsectWork};

    ghost Value = { IsectWork };

    ghost view = { λ s. record { segment = s.segment; copy = s.copy; answers = s.answers.items; room = vec_capacity s.answers } };
}

/// Returns the nearest hit in a copy. The steps are counted by a counter that nobody reads.
fn counted<L: Ledger>(
    blank: Blank,
    copy: &StageCopy,
    time: u32,
    view: &View,
    segment: &Segment,
) -> Option<Near>
    requires name { blank.name ≡ L.name }
    requires parts { blank.parts ≡ L.parts }
    requires some { 0 < L.parts }
    ensures best { result ≡ hit_in copy.now time view.now segment.now }
    ensures nearest { CanBeProbed (node_at copy.now.nodes) (boxes_of copy.now) time
        → result ≡ nearest (node_at copy.now.nodes) time view.now segment.now }
{
    let mut steps = Steps::<L>::new(blank);
    probe(copy, time, view, segment, &mut steps)
}

/// Returns a copy of an update list. The empty one takes no memory.
fn copied(alloc: Global, updates: &Updates) -> Result<Updates, NoMemory>
    ensures copy { IfOk result (λ u. u ≡ updates.now) }
    ensures wanted { OnErr result (updates.now ≡ [] → ⊥) }
{
    if updates.len() == 0 {
        return Ok(Updates::new(alloc));
    }
    updates.copy()
}

impl IsectStage {
    /// Returns the stage of a segment, which was asked for no frame yet: its copy is the scene alone. Returns
    /// `Err(NoMemory)` if memory runs out.
    pub fn new(alloc: Global, segment: Segment) -> Result<IsectStage, NoMemory>
        ensures segment { IfOk result (λ s. s.segment ≡ segment) }
        ensures answers { IfOk result (λ s. s.answers ≡ []) }
        ensures keeps { IfOk result (λ s. IsectKeeps s []) }
    {
        Ok(IsectStage {
            segment,
            copy: StageCopy::new(alloc)?,
            answers: Vec::new(alloc),
        })
    }

    /// Takes a copy of the update list of frame `frame` into the copy of the scene, and adds the nearest hit in it as a
    /// result. `view` is that of the first channel.
    ///
    /// Returns `Err(NoMemory)` if memory runs out, and then leaves the stage as it was. That comes only if the list has
    /// an update or there is no room for the result.
    pub fn frame(&mut self, frame: u32, view: &View, updates: &Updates) -> Result<(), NoMemory>
        ensures segment { self.new.segment ≡ self.old.segment }
        ensures copy { OnOk result (self.new.copy.nodes ≡ updated_by self.old.copy.nodes updates.now) }
        ensures adds { OnOk result (self.new.answers
            ≡ self.old.answers ++ hit_in self.new.copy frame view.now self.new.segment ∷ []) }
        ensures keeps { (asked : List Question) → IsectKeeps self.old asked → OnOk result (IsectKeeps self.new
            (asked ++ record { frame = frame; view = view.now; updates = updates.now } ∷ [])) }
        ensures refused { OnErr result (self.new ≡ self.old) }
        ensures wanted { OnErr result (MayWant self.old updates.now) }
    {
        let updates = copied(*self.answers.allocator(), updates)?;
        self.answers.reserve(1)?;
        self.copy.take(updates);
        let answer = counted::<Brand>(Blank::new(1), &self.copy, frame, view, &self.segment);
        match self.answers.push(answer) {
            Ok(()) => Ok(()),
            Err(_) => unreachable!(),
        }
    }

    /// Returns the results, one for each frame in turn: the nearest hit, or `None` if the segment hits nothing.
    pub fn into_answers(self) -> Vec<Option<Near>>
        ensures { result.items ≡ self.answers }
    {
        let Self {
            segment: _,
            copy: _,
            answers,
        } = self;
        answers
    }

    /// Returns the results so far, one for each frame in turn: the nearest hit, or `None` if the segment hits nothing.
    pub fn answers(&self) -> &[Option<Near>]
        ensures { result.now ≡ self.now.answers }
    {
        self.answers.as_slice()
    }
}
