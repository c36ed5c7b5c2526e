//! The stage at its links.
ghost use Rattle.std.specs.Prelude.{◌≡◌, ◌+◌, ◌||◌, true, false, List, [], ◌∷◌, ◌++◌, drop, length, slice_index_or, None, Some, Ok, IfOk, OnOk, OnErr};
ghost use Rattle.seat_lock.specs.Log.{Found};
ghost use Rattle.pf_model.specs.Angles.{home_view};
ghost use Rattle.stage_parts.specs.Packets.{is_end};
ghost use Rattle.stage_parts.specs.Answers.{is_over, IsFull, IsDry, WaitsToPass};
ghost use Rattle.stage_parts.specs.declared.answers.Did.TheVariants as did;
ghost use Rattle.stage_parts.specs.declared.packets.Packet.TheVariants as packet;
ghost use Rattle.isect_stage.specs.Asking.{Question, MayWant, IsectKeeps};
ghost use Rattle.isect_stage.specs.Marks.{FoundMark, MarksAtError};
ghost use Rattle.isect_stage.specs.Probing.{question_in, ProbeKeeps, IsAsked, AsksFor, RunsOut, Steps, IsProbeAnswer};

use crate::stage::IsectStage;
use crate::stop_mark::{is_stopped, set_mark};
use frame_link::{SendEnd, TakeEnd};
use nearest_hit::{Near, Segment};
use pf_io::NoMemory;
use pf_model::View;
use pf_scene::Scene;
use seat_lock::Desk;
use stage_parts::{Did, Load, Packet, StageError};
use std::alloc::Global;
use std::marker::Model;
use update_lists::{Cut, Views};

/// The stage at its links, between the application and the cull. It takes the loads that the application sends, asks
/// for the nearest hit in the frame of each, and sends the packets on as they came. Each load that it asks for takes
/// memory. If memory runs out it is over, and sets the stop mark of the shared scene.
///
/// Contracts see the stage that is asked, whether the End was passed on, whether memory ran out, and the packet that it
/// holds to send.
pub struct ProbeStage {
    stage: IsectStage,
    ended: bool,
    failed: bool,
    held: Option<Packet>,
}

/// Written out, so that to drop one is a single call.
impl Drop for ProbeStage {
    fn drop(self) {
        let Self {
            stage: _,
            ended: _,
            failed: _,
            held: _,
        } = self;
    }
}

impl Model for ProbeStage {
    ghost use Rattle.isect_stage.specs.Probing.{ProbeWork};

    ghost Value = { ProbeWork };

    ghost view = { λ p. record { isect = p.stage; ended = p.ended; failed = p.failed; held = p.held } };
}

/// Returns whether a packet is the End.
fn is_end(packet: &Packet) -> bool
    ensures { result ≡ is_end packet.now }
{
    match packet {
        Packet::Frame(_) => false,
        Packet::End => true,
    }
}

/// Returns the view of the first channel, or the view of zeros if there is none.
fn first_view(views: &Views) -> View
    ensures { result ≡ slice_index_or views.now 0 home_view }
{
    match views.at(0) {
        Some(view) => *view,
        None => View::home(),
    }
}

/// Asks a stage for the frame of a cut. Running out of memory leaves the stage as it was.
fn ask(stage: &mut IsectStage, cut: &Cut) -> Result<(), NoMemory>
    ensures asked { OnOk result (IsAsked stage.old stage.new (question_in cut.now)) }
    ensures keeps { (asked : List Question) → IsectKeeps stage.old asked
        → OnOk result (IsectKeeps stage.new (asked ++ question_in cut.now ∷ [])) }
    ensures refused { OnErr result (stage.new ≡ stage.old) }
    ensures wanted { OnErr result (MayWant stage.old cut.now.updates) }
{
    let view = first_view(&cut.views);
    stage.frame(cut.frame, &view, &cut.updates)
}

impl ProbeStage {
    /// Returns the stage of a segment, which took no packet yet. Returns `Err(NoMemory)` if memory runs out.
    pub fn new(alloc: Global, segment: Segment) -> Result<ProbeStage, NoMemory>
        ensures segment { IfOk result (λ p. p.isect.segment ≡ segment) }
        ensures answers { IfOk result (λ p. p.isect.answers ≡ []) }
        ensures keeps { IfOk result (λ p. ProbeKeeps p [] []) }
        ensures whole { IfOk result (λ p. p.failed ≡ false) }
    {
        Ok(ProbeStage {
            stage: IsectStage::new(alloc, segment)?,
            ended: false,
            failed: false,
            held: None,
        })
    }

    /// Sends a packet, or holds it if the link has no room. Returns whether it was sent.
    fn send<S: SendEnd<Packet>>(&mut self, packet: Packet, to: &mut S) -> bool
        requires going { self.old.ended ≡ false }
        requires bare { self.old.held ≡ None }
        ensures isect { self.new.isect ≡ self.old.isect }
        ensures failed { self.new.failed ≡ self.old.failed }
        ensures keeps { (taken : List Packet)
            → ProbeKeeps (record self.old { held = Some packet }) taken (S.sent to.old)
            → ProbeKeeps self.new taken (S.sent to.new) }
        ensures sent { result ≡ true → length (S.sent to.new) ≡ length (S.sent to.old) + 1 }
        ensures still { result ≡ false → self.new ≡ record self.old { held = Some packet } }
        ensures unsent { result ≡ false → S.sent to.new ≡ S.sent to.old }
        ensures full { result ≡ false → IsFull (S.room to.old) (S.told_taken to.old) (S.sent to.old) }
        ensures to_link { S.send_at to.new ≡ S.send_at to.old }
        ensures to_room { S.room to.new ≡ S.room to.old }
        ensures to_told { S.told_taken to.new ≡ S.told_taken to.old }
    {
        let ends = is_end(&packet);
        match to.push(packet) {
            Ok(()) => {
                self.ended = ends;
                true
            }
            Err(packet) => {
                self.held = Some(packet);
                false
            }
        }
    }

    /// Asks for a load that came, and holds it, also if memory runs out.
    fn accept(&mut self, load: Load) -> Result<(), NoMemory>
        requires whole { self.old.failed ≡ false }
        requires bare { self.old.held ≡ None }
        ensures asked { OnOk result (IsAsked self.old.isect self.new.isect (question_in load.cut)) }
        ensures failed { OnOk result (self.new.failed ≡ false) }
        ensures keeps { (taken sent : List Packet) → ProbeKeeps self.old taken sent
            → ProbeKeeps self.new (taken ++ packet.Frame load ∷ []) sent }
        ensures out { OnErr result (self.new ≡ record self.old { failed = true; held = Some (packet.Frame load) }) }
        ensures wanted { OnErr result (MayWant self.old.isect load.cut.updates) }
    {
        let asked = ask(&mut self.stage, load.cut());
        self.held = Some(Packet::Frame(load));
        match asked {
            Ok(()) => Ok(()),
            Err(NoMemory) => {
                self.failed = true;
                Err(NoMemory)
            }
        }
    }

    /// Takes a packet, asks for it if it is a load, and holds it. Returns whether one came.
    fn take<T: TakeEnd<Packet>>(&mut self, from: &mut T) -> Result<bool, NoMemory>
        requires whole { self.old.failed ≡ false }
        requires bare { self.old.held ≡ None }
        ensures keeps { (sent : List Packet) → ProbeKeeps self.old (T.taken from.old) sent
            → ProbeKeeps self.new (T.taken from.new) sent }
        ensures asks { OnOk result (AsksFor self.old.isect self.new.isect
            (drop (length (T.taken from.old)) (T.taken from.new))) }
        ensures failed { OnOk result (self.new.failed ≡ false) }
        ensures came { result ≡ Ok true → length (T.taken from.new) ≡ length (T.taken from.old) + 1 }
        ensures still { result ≡ Ok false → self.new ≡ self.old }
        ensures none { result ≡ Ok false → T.taken from.new ≡ T.taken from.old }
        ensures dry { result ≡ Ok false → IsDry (T.told_sent from.old) (T.taken from.old) }
        ensures out { OnErr result (RunsOut self.old self.new (T.taken from.old) (T.taken from.new)) }
        ensures from_link { T.take_at from.new ≡ T.take_at from.old }
        ensures from_room { T.take_room from.new ≡ T.take_room from.old }
        ensures from_told { T.told_sent from.new ≡ T.told_sent from.old }
    {
        match from.pop() {
            None => Ok(false),
            Some(Packet::End) => {
                self.held = Some(Packet::End);
                Ok(true)
            }
            Some(Packet::Frame(load)) => {
                self.accept(load)?;
                Ok(true)
            }
        }
    }

    /// Sends the packet held, or takes one. Returns whether a packet moved.
    fn go<S: SendEnd<Packet>, T: TakeEnd<Packet>>(
        &mut self,
        from: &mut T,
        to: &mut S,
    ) -> Result<bool, NoMemory>
        requires going { self.old.ended ≡ false }
        requires whole { self.old.failed ≡ false }
        ensures keeps { ProbeKeeps self.old (T.taken from.old) (S.sent to.old)
            → ProbeKeeps self.new (T.taken from.new) (S.sent to.new) }
        ensures asks { OnOk result (AsksFor self.old.isect self.new.isect
            (drop (length (T.taken from.old)) (T.taken from.new))) }
        ensures failed { OnOk result (self.new.failed ≡ false) }
        ensures steps { Steps result
            (record { state = self.old; taken = T.taken from.old; sent = S.sent to.old })
            (record { state = self.new; taken = T.taken from.new; sent = S.sent to.new })
            (WaitsToPass self.old.held (IsDry (T.told_sent from.old) (T.taken from.old))
            (IsFull (S.room to.old) (S.told_taken to.old) (S.sent to.old))) }
        ensures from_link { T.take_at from.new ≡ T.take_at from.old }
        ensures from_room { T.take_room from.new ≡ T.take_room from.old }
        ensures from_told { T.told_sent from.new ≡ T.told_sent from.old }
        ensures to_link { S.send_at to.new ≡ S.send_at to.old }
        ensures to_room { S.room to.new ≡ S.room to.old }
        ensures to_told { S.told_taken to.new ≡ S.told_taken to.old }
    {
        match self.held.take() {
            Some(packet) => Ok(self.send(packet, to)),
            None => self.take(from),
        }
    }

    /// Returns whether the End was passed on.
    pub fn has_ended(&self) -> bool
        ensures { result ≡ self.now.ended }
    {
        self.ended
    }

    /// Returns whether memory ran out.
    pub fn has_failed(&self) -> bool
        ensures { result ≡ self.now.failed }
    {
        self.failed
    }

    /// Returns the results, one for each load in turn that it asked for: the nearest hit, or `None` if the segment hits
    /// nothing.
    pub fn into_answers(self) -> Vec<Option<Near>>
        ensures { result.items ≡ self.isect.answers }
    {
        let Self {
            stage,
            ended: _,
            failed: _,
            held: _,
        } = self;
        stage.into_answers()
    }

    /// One step: sends the packet that it holds, or else takes one, asks for it if it is a load, and holds it. Returns
    /// `Did` if a packet moved, `NotYet` if none could, and `Over` if the stage is over or finds the stop mark.
    ///
    /// Returns `Err(NoMemory)` if memory runs out at a load, and no other error. Then it holds that load, has set the
    /// stop mark, and is over.
    pub fn poll<D: Desk<Scene>, S: SendEnd<Packet>, T: TakeEnd<Packet>>(
        &mut self,
        desk: &mut D,
        from: &mut T,
        to: &mut S,
    ) -> Result<Did, StageError>
        // It keeps its part, whatever it received and sent.
        ensures segment { self.new.isect.segment ≡ self.old.isect.segment }
        ensures keeps { ProbeKeeps self.old (T.taken from.old) (S.sent to.old)
            → ProbeKeeps self.new (T.taken from.new) (S.sent to.new) }

        // It asks once for the load that came, within the limits or beyond, and for nothing if none came.
        ensures asks { OnOk result (AsksFor self.old.isect self.new.isect
            (drop (length (T.taken from.old)) (T.taken from.new))) }

        // What it returns. It is over exactly if the End was passed on, memory ran out before, or this look found the
        // stop mark.
        ensures answer { IsProbeAnswer result
            (record { state = self.old; taken = T.taken from.old; sent = S.sent to.old })
            (record { state = self.new; taken = T.taken from.new; sent = S.sent to.new })
            (WaitsToPass self.old.held (IsDry (T.told_sent from.old) (T.taken from.old))
            (IsFull (S.room to.old) (S.told_taken to.old) (S.sent to.old))) }
        ensures failed { OnOk result (self.new.failed ≡ self.old.failed) }
        ensures ended { (self.old.ended || self.old.failed) ≡ true → result ≡ Ok did.Over }
        ensures looked { (self.old.ended || self.old.failed) ≡ false
            → FoundMark (D.number desk.old) (D.seen desk.old) (D.told desk.old) (is_over result) }

        // It adds no entry, sets the stop mark exactly if it returns an error, and leaves all else of the desk and the
        // links.
        ensures found { Found (D.number desk.old) (D.seen desk.old) (D.seen desk.new) }
        ensures marks { MarksAtError result (D.told desk.old) (D.told desk.new) }
        ensures number { D.number desk.new ≡ D.number desk.old }
        ensures stands { D.stands desk.new ≡ D.stands desk.old }
        ensures from_link { T.take_at from.new ≡ T.take_at from.old }
        ensures from_room { T.take_room from.new ≡ T.take_room from.old }
        ensures from_told { T.told_sent from.new ≡ T.told_sent from.old }
        ensures to_link { S.send_at to.new ≡ S.send_at to.old }
        ensures to_room { S.room to.new ≡ S.room to.old }
        ensures to_told { S.told_taken to.new ≡ S.told_taken to.old }
    {
        if self.ended || self.failed {
            return Ok(Did::Over);
        }
        if is_stopped(desk) {
            return Ok(Did::Over);
        }
        match self.go(from, to) {
            Ok(moved) => Ok(Did::of(moved)),
            Err(NoMemory) => {
                set_mark(desk);
                Err(StageError::NoMemory)
            }
        }
    }
}
