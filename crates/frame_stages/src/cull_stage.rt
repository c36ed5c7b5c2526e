//! The cull.
ghost use Rattle.std.specs.Prelude.{◌≡◌, ◌+◌, true, false, List, [], ◌∷◌, ◌++◌, drop, length, None, Some, Ok, IfOk};
ghost use Rattle.seat_lock.specs.Log.{Found};
ghost use Rattle.pf_model.specs.Copies.{copy_of};
ghost use Rattle.multibuffer.specs.StageCopies.{HasRightBoxes};
ghost use Rattle.stage_parts.specs.Packets.{is_end};
ghost use Rattle.stage_parts.specs.Parts.{sent_and_held};
ghost use Rattle.frame_stages.specs.Looks.{SawMark};
ghost use Rattle.stage_parts.specs.Answers.{is_over, IsFull, IsDry, WaitsToPass, MovesOne, PassesOn};
ghost use Rattle.frame_stages.specs.CullBoxes.{HoldsCulled, KeepsBoxes};
ghost use Rattle.frame_stages.specs.CullWorks.{CullKeeps};
ghost use Rattle.stage_parts.specs.declared.answers.Did.TheVariants as did;
ghost use Rattle.stage_parts.specs.declared.packets.Packet.TheVariants as packet;
ghost use Rattle.frame_stages.specs.Stays.{desk_place, end_place};
ghost use Rattle.frame_stages.specs.Turns.{GoesInTurn};

use crate::culling::cull_load;
use crate::looks::is_stopped;
use frame_link::{SendEnd, TakeEnd};
use fx_math::Lens;
use multibuffer::StageCopy;
use pf_io::{Gate, NoMemory, Stage};
use pf_scene::Scene;
use seat_lock::Desk;
use stage_parts::{Did, Load, Packet, StageError};
use std::alloc::Global;
use std::marker::Model;

/// The cull: it takes the loads that the application sends, keeps its copy of the scene by their update lists, fills
/// their draw lists with what is in sight, and sends them on. No poll
/// answers want of memory.
///
/// Contracts see the lens, the copy with its boxes, whether the End was passed on, and the packet that it holds to send.
pub struct CullStage {
    alloc: Global,
    lens: Lens,
    copy: StageCopy,
    ended: bool,
    held: Option<Packet>,
}

/// Written out, so that to drop one is a single call.
impl Drop for CullStage {
    fn drop(self) {
        let Self {
            alloc: _,
            lens: _,
            copy: _,
            ended: _,
            held: _,
        } = self;
    }
}

impl Model for CullStage {
    ghost use Rattle.frame_stages.specs.CullWorks.{CullWork};

    ghost Value = { CullWork };

    ghost view = { λ c. record { lens = c.lens; copy = c.copy; ended = c.ended; held = c.held } };
}

/// Whether a packet is the End.
fn is_end(packet: &Packet) -> bool
    ensures { result ≡ is_end packet.now }
{
    match packet {
        Packet::Frame(_) => false,
        Packet::End => true,
    }
}

impl CullStage {
    /// Returns the cull of a lens, which has not begun: its copy is the scene alone. Returns `Err(NoMemory)` if memory
    /// runs out.
    pub fn new(alloc: Global, lens: Lens) -> Result<CullStage, NoMemory>
        ensures lens { IfOk result (λ c. c.lens ≡ lens) }
        ensures nodes { IfOk result (λ c. c.copy.nodes ≡ copy_of []) }
        ensures boxes { IfOk result (λ c. HasRightBoxes c.copy) }
        ensures ended { IfOk result (λ c. c.ended ≡ false) }
        ensures held { IfOk result (λ c. c.held ≡ None) }
        ensures keeps { IfOk result (λ c. CullKeeps c [] []) }
    {
        Ok(CullStage {
            alloc,
            lens,
            copy: StageCopy::new(alloc)?,
            ended: false,
            held: None,
        })
    }

    /// Sends a packet, or holds it where the link has no room, and answers whether it was sent.
    fn send<S: SendEnd<Packet>>(&mut self, packet: Packet, to: &mut S) -> bool
        requires going { self.old.ended ≡ false }
        requires bare { self.old.held ≡ None }
        ensures lens { self.new.lens ≡ self.old.lens }
        ensures copy { self.new.copy ≡ self.old.copy }
        ensures keeps { (taken : List Packet)
            → CullKeeps (record self.old { held = Some packet }) taken (S.sent to.old)
            → CullKeeps self.new taken (S.sent to.new) }
        ensures all { sent_and_held (S.sent to.new) self.new.held ≡ S.sent to.old ++ packet ∷ [] }
        ensures sent { result ≡ true → length (S.sent to.new) ≡ length (S.sent to.old) + 1 }
        ensures still { result ≡ false → self.new ≡ record self.old { held = Some packet } }
        ensures unsent { result ≡ false → S.sent to.new ≡ S.sent to.old }
        ensures full { result ≡ false → IsFull (S.room to.old) (S.told_taken to.old) (S.sent to.old) }
        ensures to { end_place (S.send_at to.new) (S.room to.new) (S.told_taken to.new)
            ≡ end_place (S.send_at to.old) (S.room to.old) (S.told_taken to.old) }
    {
        let ends = is_end(&packet);
        match to.push(packet) {
            Ok(()) => {
                self.ended = ends;
                true
            }
            Err(packet) => {
                self.held = Some(packet);
                false
            }
        }
    }

    /// Culls a load that came, and holds it.
    fn cull(&mut self, mut load: Load)
        requires bare { self.old.held ≡ None }
        ensures lens { self.new.lens ≡ self.old.lens }
        ensures keeps { (taken sent : List Packet) → CullKeeps self.old taken sent
            → CullKeeps self.new (taken ++ packet.Frame load ∷ []) sent }
        ensures boxes { HoldsCulled self.old.lens self.old.copy self.new.copy load self.new.held }
    {
        cull_load(self.alloc, &mut self.copy, &self.lens, &mut load);
        self.held = Some(Packet::Frame(load));
    }

    /// Takes a packet and holds what it makes of it, and answers whether one came.
    fn take<T: TakeEnd<Packet>, G: Gate>(&mut self, from: &mut T, gate: &G) -> bool
        requires bare { self.old.held ≡ None }
        ensures lens { self.new.lens ≡ self.old.lens }
        ensures keeps { (sent : List Packet) → CullKeeps self.old (T.taken from.old) sent
            → CullKeeps self.new (T.taken from.new) sent }
        ensures boxes { KeepsBoxes self.old.lens self.old.copy self.new.copy self.new.held
            (drop (length (T.taken from.old)) (T.taken from.new)) }
        ensures came { result ≡ true → length (T.taken from.new) ≡ length (T.taken from.old) + 1 }
        ensures still { result ≡ false → self.new ≡ self.old }
        ensures none { result ≡ false → T.taken from.new ≡ T.taken from.old }
        ensures dry { result ≡ false → IsDry (T.told_sent from.old) (T.taken from.old) }
        ensures from { end_place (T.take_at from.new) (T.take_room from.new) (T.told_sent from.new)
            ≡ end_place (T.take_at from.old) (T.take_room from.old) (T.told_sent from.old) }
    {
        match from.pop() {
            None => false,
            Some(Packet::End) => {
                self.held = Some(Packet::End);
                true
            }
            Some(Packet::Frame(load)) => {
                gate.pass(Stage::Cull, load.cut().frame);
                self.cull(load);
                true
            }
        }
    }

    /// Sends the packet held, or takes one, and answers whether a packet moved.
    fn go<S: SendEnd<Packet>, T: TakeEnd<Packet>, G: Gate>(
        &mut self,
        from: &mut T,
        to: &mut S,
        gate: &G,
    ) -> bool
        requires going { self.old.ended ≡ false }
        ensures lens { self.new.lens ≡ self.old.lens }
        ensures keeps { CullKeeps self.old (T.taken from.old) (S.sent to.old)
            → CullKeeps self.new (T.taken from.new) (S.sent to.new) }
        ensures boxes { KeepsBoxes self.old.lens self.old.copy self.new.copy self.new.held
            (drop (length (T.taken from.old)) (T.taken from.new)) }
        ensures turn { GoesInTurn self.old.held self.new.held
            (record { state = self.old; taken = T.taken from.old; sent = S.sent to.old })
            (record { state = self.new; taken = T.taken from.new; sent = S.sent to.new }) }
        ensures moves { MovesOne result
            (record { state = self.old; taken = T.taken from.old; sent = S.sent to.old })
            (record { state = self.new; taken = T.taken from.new; sent = S.sent to.new })
            (WaitsToPass self.old.held (IsDry (T.told_sent from.old) (T.taken from.old))
            (IsFull (S.room to.old) (S.told_taken to.old) (S.sent to.old))) }
        ensures from { end_place (T.take_at from.new) (T.take_room from.new) (T.told_sent from.new)
            ≡ end_place (T.take_at from.old) (T.take_room from.old) (T.told_sent from.old) }
        ensures to { end_place (S.send_at to.new) (S.room to.new) (S.told_taken to.new)
            ≡ end_place (S.send_at to.old) (S.room to.old) (S.told_taken to.old) }
    {
        match self.held.take() {
            Some(packet) => self.send(packet, to),
            None => self.take(from, gate),
        }
    }

    /// The copy of the scene that it culls, with the cache of its boxes.
    pub fn copy(&self) -> &StageCopy
        ensures { result.now ≡ self.now.copy }
    {
        &self.copy
    }

    /// Whether it has ended: the End was passed on.
    pub fn has_ended(&self) -> bool
        ensures { result ≡ self.now.ended }
    {
        self.ended
    }

    /// One step: sends the packet that it holds, or takes one and holds what it makes of it. Returns `Did` if a packet
    /// moved, `NotYet` if none could, and `Over` if it has ended or finds the stop mark. It returns no error.
    pub fn poll<D: Desk<Scene>, S: SendEnd<Packet>, T: TakeEnd<Packet>, G: Gate>(
        &mut self,
        desk: &mut D,
        from: &mut T,
        to: &mut S,
        gate: &G,
    ) -> Result<Did, StageError>
        // It keeps its part, whatever it received and sent.
        ensures lens { self.new.lens ≡ self.old.lens }
        ensures keeps { CullKeeps self.old (T.taken from.old) (S.sent to.old)
            → CullKeeps self.new (T.taken from.new) (S.sent to.new) }

        // It culls by the boxes that its copy keeps, right or not: what an update list leaves alone has the box that it had
        // before, and each channel's list is what the walk by these boxes leaves. Where no load came the copy stays.
        ensures boxes { KeepsBoxes self.old.lens self.old.copy self.new.copy self.new.held
            (drop (length (T.taken from.old)) (T.taken from.new)) }

        // It sends the packet that it holds first, and takes one only where it holds none.
        ensures turn { GoesInTurn self.old.held self.new.held
            (record { state = self.old; taken = T.taken from.old; sent = S.sent to.old })
            (record { state = self.new; taken = T.taken from.new; sent = S.sent to.new }) }

        // What its answer says. It is over exactly where the End was passed on or this look found the stop mark.
        ensures answer { PassesOn result
            (record { state = self.old; taken = T.taken from.old; sent = S.sent to.old })
            (record { state = self.new; taken = T.taken from.new; sent = S.sent to.new })
            (WaitsToPass self.old.held (IsDry (T.told_sent from.old) (T.taken from.old))
            (IsFull (S.room to.old) (S.told_taken to.old) (S.sent to.old))) }
        ensures ended { self.old.ended ≡ true → result ≡ Ok did.Over }
        ensures looked { self.old.ended ≡ false
            → SawMark (D.number desk.old) (D.seen desk.old) (D.told desk.old) (is_over result) (D.seen desk.new) }

        // It adds no entry, and leaves all else of the desk and the links.
        ensures found { Found (D.number desk.old) (D.seen desk.old) (D.seen desk.new) }
        ensures told { D.told desk.new ≡ D.told desk.old }
        ensures desk { desk_place (D.number desk.new) (D.stands desk.new) ≡ desk_place (D.number desk.old) (D.stands desk.old) }
        ensures from { end_place (T.take_at from.new) (T.take_room from.new) (T.told_sent from.new)
            ≡ end_place (T.take_at from.old) (T.take_room from.old) (T.told_sent from.old) }
        ensures to { end_place (S.send_at to.new) (S.room to.new) (S.told_taken to.new)
            ≡ end_place (S.send_at to.old) (S.room to.old) (S.told_taken to.old) }
    {
        if self.ended {
            return Ok(Did::Over);
        }
        if is_stopped(desk) {
            return Ok(Did::Over);
        }
        let moved = self.go(from, to, gate);
        Ok(Did::of(moved))
    }
}
