//! The draw.
ghost use Rattle.std.specs.Prelude.{◌≡◌, ◌+◌, true, false, List, [], ◌∷◌, ◌++◌, length, None, Some, Ok, IfOk};
ghost use Rattle.seat_lock.specs.Log.{Found};
ghost use Rattle.stage_parts.specs.Parts.{sent_and_held, DrawPart};
ghost use Rattle.frame_stages.specs.Looks.{SawMark};
ghost use Rattle.stage_parts.specs.Answers.{is_over, IsFull, IsDry, WaitsToPass, MovesOne, PassesOn};
ghost use Rattle.frame_stages.specs.Works.{IsGivenAsBefore};
ghost use Rattle.stage_parts.specs.declared.answers.Did.TheVariants as did;
ghost use Rattle.stage_parts.specs.declared.packets.Packet.TheVariants as packet;
ghost use Rattle.frame_stages.specs.Stays.{desk_place, end_place};
ghost use Rattle.frame_stages.specs.Turns.{GoesInTurn};

use crate::looks::is_stopped;
use crate::painting::paint;
use depth_raster::Raster;
use frame_link::{SendEnd, TakeEnd};
use fx_math::Lens;
use pf_io::{Gate, NoMemory, Stage};
use pf_scene::Scene;
use ppm_out::Image;
use seat_lock::Desk;
use stage_parts::{Did, Load, Packet, StageError};
use std::alloc::Global;
use std::marker::Model;
use std::thread::Threads;

/// The draw: it takes the loads that the cull sends, draws their pictures, and sends them back. No poll
/// answers want of memory: a picture that several processors draw takes some, and is the same without.
///
/// Contracts see the lens, the background, whether the End was taken, and the packet that it holds to send.
pub struct DrawStage {
    lens: Lens,
    back: [u8; 3],
    raster: Raster,
    image: Image,
    ended: bool,
    held: Option<Packet>,
}

/// Written out, so that to drop one is a single call.
impl Drop for DrawStage {
    fn drop(self) {
        let Self {
            lens: _,
            back: _,
            raster: _,
            image: _,
            ended: _,
            held: _,
        } = self;
    }
}

impl Model for DrawStage {
    ghost use Rattle.frame_stages.specs.Works.{DrawWork, CanDraw};

    ghost Value = { DrawWork };

    ghost view = { λ d. record { lens = d.lens; back = d.back; state = record { ended = d.ended; held = d.held } } };

    ghost invariant = { λ d. CanDraw d.lens d.raster d.image };
}

impl DrawStage {
    /// Returns the draw of a lens before a background of red, green and blue, which has not begun. Returns
    /// `Err(NoMemory)` if memory runs out.
    pub fn new(alloc: Global, lens: Lens, back: [u8; 3]) -> Result<DrawStage, NoMemory>
        ensures { IfOk result (λ d. d ≡ record { lens = lens; back = back; state = record { ended = false; held = None } }) }
    {
        Ok(DrawStage {
            lens,
            back,
            raster: Raster::new(alloc, &lens)?,
            image: Image::new(alloc, lens.w, lens.h)?,
            ended: false,
            held: None,
        })
    }

    /// Sends a packet, or holds it where the link has no room, and answers whether it was sent.
    fn send<S: SendEnd<Packet>>(&mut self, packet: Packet, to: &mut S) -> bool
        requires bare { self.old.state.held ≡ None }
        ensures given { IsGivenAsBefore self.old self.new }
        ensures part { (taken : List Packet)
            → DrawPart self.old.lens self.old.back (record self.old.state { held = Some packet }) taken (S.sent to.old)
            → DrawPart self.new.lens self.new.back self.new.state taken (S.sent to.new) }
        ensures all { sent_and_held (S.sent to.new) self.new.state.held ≡ S.sent to.old ++ packet ∷ [] }
        ensures sent { result ≡ true → length (S.sent to.new) ≡ length (S.sent to.old) + 1 }
        ensures still { result ≡ false → self.new.state ≡ record self.old.state { held = Some packet } }
        ensures unsent { result ≡ false → S.sent to.new ≡ S.sent to.old }
        ensures full { result ≡ false → IsFull (S.room to.old) (S.told_taken to.old) (S.sent to.old) }
        ensures to { end_place (S.send_at to.new) (S.room to.new) (S.told_taken to.new)
            ≡ end_place (S.send_at to.old) (S.room to.old) (S.told_taken to.old) }
    {
        match to.push(packet) {
            Ok(()) => true,
            Err(packet) => {
                self.held = Some(packet);
                false
            }
        }
    }

    /// Draws the pictures of a load that came, and holds it.
    fn draw<R: Threads + Sync>(&mut self, rt: &R, mut load: Load)
        requires bare { self.old.state.held ≡ None }
        ensures given { IsGivenAsBefore self.old self.new }
        ensures part { (taken sent : List Packet)
            → DrawPart self.old.lens self.old.back self.old.state taken sent
            → DrawPart self.new.lens self.new.back self.new.state (taken ++ packet.Frame load ∷ []) sent }
    {
        paint(rt, &mut self.raster, self.back, &mut self.image, &mut load);
        self.held = Some(Packet::Frame(load));
    }

    /// Takes a packet and holds what it makes of it, and answers whether one came.
    fn take<R: Threads + Sync, T: TakeEnd<Packet>, G: Gate>(
        &mut self,
        rt: &R,
        from: &mut T,
        gate: &G,
    ) -> bool
        requires bare { self.old.state.held ≡ None }
        ensures given { IsGivenAsBefore self.old self.new }
        ensures part { (sent : List Packet)
            → DrawPart self.old.lens self.old.back self.old.state (T.taken from.old) sent
            → DrawPart self.new.lens self.new.back self.new.state (T.taken from.new) sent }
        ensures came { result ≡ true → length (T.taken from.new) ≡ length (T.taken from.old) + 1 }
        ensures still { result ≡ false → self.new.state ≡ self.old.state }
        ensures none { result ≡ false → T.taken from.new ≡ T.taken from.old }
        ensures dry { result ≡ false → IsDry (T.told_sent from.old) (T.taken from.old) }
        ensures from { end_place (T.take_at from.new) (T.take_room from.new) (T.told_sent from.new)
            ≡ end_place (T.take_at from.old) (T.take_room from.old) (T.told_sent from.old) }
    {
        match from.pop() {
            None => false,
            Some(Packet::End) => {
                self.ended = true;
                true
            }
            Some(Packet::Frame(load)) => {
                gate.pass(Stage::Draw, load.cut().frame);
                self.draw(rt, load);
                true
            }
        }
    }

    /// Sends the packet held, or takes one, and answers whether a packet moved.
    fn go<R: Threads + Sync, S: SendEnd<Packet>, T: TakeEnd<Packet>, G: Gate>(
        &mut self,
        rt: &R,
        from: &mut T,
        to: &mut S,
        gate: &G,
    ) -> bool
        ensures given { IsGivenAsBefore self.old self.new }
        ensures part { DrawPart self.old.lens self.old.back self.old.state (T.taken from.old) (S.sent to.old)
            → DrawPart self.new.lens self.new.back self.new.state (T.taken from.new) (S.sent to.new) }
        ensures turn { GoesInTurn self.old.state.held self.new.state.held
            (record { state = self.old.state; taken = T.taken from.old; sent = S.sent to.old })
            (record { state = self.new.state; taken = T.taken from.new; sent = S.sent to.new }) }
        ensures moves { MovesOne result
            (record { state = self.old.state; taken = T.taken from.old; sent = S.sent to.old })
            (record { state = self.new.state; taken = T.taken from.new; sent = S.sent to.new })
            (WaitsToPass self.old.state.held (IsDry (T.told_sent from.old) (T.taken from.old))
            (IsFull (S.room to.old) (S.told_taken to.old) (S.sent to.old))) }
        ensures from { end_place (T.take_at from.new) (T.take_room from.new) (T.told_sent from.new)
            ≡ end_place (T.take_at from.old) (T.take_room from.old) (T.told_sent from.old) }
        ensures to { end_place (S.send_at to.new) (S.room to.new) (S.told_taken to.new)
            ≡ end_place (S.send_at to.old) (S.room to.old) (S.told_taken to.old) }
    {
        match self.held.take() {
            Some(packet) => self.send(packet, to),
            None => self.take(rt, from, gate),
        }
    }

    /// Whether it has ended: the End was taken.
    pub fn has_ended(&self) -> bool
        ensures { result ≡ self.now.state.ended }
    {
        self.ended
    }

    /// One step: sends the packet that it holds, or takes one and holds what it makes of it. Returns `Did` if a packet
    /// moved, `NotYet` if none could, and `Over` if it has ended or finds the stop mark. It returns no error.
    pub fn poll<R: Threads + Sync, D: Desk<Scene>, S: SendEnd<Packet>, T: TakeEnd<Packet>, G: Gate>(
        &mut self,
        rt: &R,
        desk: &mut D,
        from: &mut T,
        to: &mut S,
        gate: &G,
    ) -> Result<Did, StageError>
        // It keeps its part, whatever it received and sent.
        ensures given { IsGivenAsBefore self.old self.new }
        ensures part { DrawPart self.old.lens self.old.back self.old.state (T.taken from.old) (S.sent to.old)
            → DrawPart self.new.lens self.new.back self.new.state (T.taken from.new) (S.sent to.new) }

        // It sends the packet that it holds first, and takes one, be it the End, only where it holds none.
        ensures turn { GoesInTurn self.old.state.held self.new.state.held
            (record { state = self.old.state; taken = T.taken from.old; sent = S.sent to.old })
            (record { state = self.new.state; taken = T.taken from.new; sent = S.sent to.new }) }

        // What its answer says. It is over exactly where the End was taken or this look found the stop mark.
        ensures answer { PassesOn result
            (record { state = self.old.state; taken = T.taken from.old; sent = S.sent to.old })
            (record { state = self.new.state; taken = T.taken from.new; sent = S.sent to.new })
            (WaitsToPass self.old.state.held (IsDry (T.told_sent from.old) (T.taken from.old))
            (IsFull (S.room to.old) (S.told_taken to.old) (S.sent to.old))) }
        ensures ended { self.old.state.ended ≡ true → result ≡ Ok did.Over }
        ensures looked { self.old.state.ended ≡ false
            → SawMark (D.number desk.old) (D.seen desk.old) (D.told desk.old) (is_over result) (D.seen desk.new) }

        // It adds no entry, and leaves all else of the desk and the links.
        ensures found { Found (D.number desk.old) (D.seen desk.old) (D.seen desk.new) }
        ensures told { D.told desk.new ≡ D.told desk.old }
        ensures desk { desk_place (D.number desk.new) (D.stands desk.new) ≡ desk_place (D.number desk.old) (D.stands desk.old) }
        ensures from { end_place (T.take_at from.new) (T.take_room from.new) (T.told_sent from.new)
            ≡ end_place (T.take_at from.old) (T.take_room from.old) (T.told_sent from.old) }
        ensures to { end_place (S.send_at to.new) (S.room to.new) (S.told_taken to.new)
            ≡ end_place (S.send_at to.old) (S.room to.old) (S.told_taken to.old) }
    {
        if self.ended {
            return Ok(Did::Over);
        }
        if is_stopped(desk) {
            return Ok(Did::Over);
        }
        let moved = self.go(rt, from, to, gate);
        Ok(Did::of(moved))
    }
}
