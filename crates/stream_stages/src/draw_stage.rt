//! The draw of the streamed draw list.
ghost use Rattle.std.specs.Prelude.{◌≡◌, ◌+◌, ◌<◌, true, false, List, [], ◌++◌, length, None, Some, Ok, IfOk};
ghost use Rattle.std.specs.Option.{option_to_list};
ghost use Rattle.seat_lock.specs.Log.{Found};
ghost use Rattle.stage_parts.specs.declared.answers.Did.TheVariants as did;
ghost use Rattle.stage_parts.specs.declared.packets.Packet.TheVariants as packet;
ghost use Rattle.stage_parts.specs.Answers.{is_over};
ghost use Rattle.stream_stages.specs.Cuts.{Cut};
ghost use Rattle.stream_stages.specs.Links.{SawMark, desk_place, end_place, HasNoRoom, HasNoMore, moment, MovesOne, Answers};
ghost use Rattle.stream_stages.specs.PieceFrames.{lists_in};
ghost use Rattle.stream_stages.specs.DrawParts.{IsGivenAsBefore, HasChannels, StreamDrawPart, WaitsToTake, WaitsToMove, WaitsToDraw};
ghost use Rattle.stream_stages.specs.DrawParts.{TakesInTurn, MovesInTurn, DrawsInTurn};
ghost use Rattle.stream_stages.specs.DrawSteps.{IsReadyFor};

use crate::drawing::{Drawing, draw_piece};
use crate::looks::is_stopped;
use crate::pieces::Piece;
use depth_raster::PieceRaster;
use frame_link::{SendEnd, TakeEnd};
use fx_math::Lens;
use pf_io::{Gate, NoMemory, Stage};
use pf_scene::Scene;
use ppm_out::Image;
use seat_lock::Desk;
use stage_parts::{Did, Packet, StageError};
use std::alloc::Global;
use std::marker::Model;
use std::thread::Threads;

/// The draw of the streamed draw list. It takes the loads that the cull sends, and for each channel of a load the
/// pieces up to the one marked `last`, draws their pictures, returns each piece, and sends the loads back. A picture
/// that several processors draw takes memory, and is the same without.
///
/// Contracts see the lens, the background, whether the End was taken, the piece and the packet that it holds, the frame
/// whose pieces come, and its renderer.
pub struct StreamDrawStage {
    lens: Lens,
    back: [u8; 3],
    raster: PieceRaster,
    image: Image,
    ended: bool,
    spent: Option<Piece>,
    held: Option<Packet>,
    frame: Option<Drawing>,
}

/// Written out, so that to drop one is a single call.
impl Drop for StreamDrawStage {
    fn drop(self) {
        let Self {
            lens: _,
            back: _,
            raster: _,
            image: _,
            ended: _,
            spent: _,
            held: _,
            frame: _,
        } = self;
    }
}

impl Model for StreamDrawStage {
    ghost use Rattle.stream_stages.specs.PieceFrames.{lists_in};
    ghost use Rattle.stream_stages.specs.DrawParts.{StreamDrawWork, CanDrawPieces};

    ghost Value = { StreamDrawWork };

    ghost view = { λ d. record {
      lens = d.lens;
      back = d.back;
      state = record { ended = d.ended; spent = d.spent; held = d.held; frame = d.frame; raster = d.raster };
    } };

    ghost invariant = { λ d. CanDrawPieces d.lens d.back d.raster d.image d.frame };
}

impl StreamDrawStage {
    /// Returns the draw of a lens before a background of red, green and blue, which has not begun. Returns
    /// `Err(NoMemory)` if memory runs out.
    pub fn new(alloc: Global, lens: Lens, back: [u8; 3]) -> Result<StreamDrawStage, NoMemory>
        ensures lens { IfOk result (λ d. d.lens ≡ lens) }
        ensures back { IfOk result (λ d. d.back ≡ back) }
        ensures ended { IfOk result (λ d. d.state.ended ≡ false) }
        ensures spent { IfOk result (λ d. d.state.spent ≡ None) }
        ensures held { IfOk result (λ d. d.state.held ≡ None) }
        ensures frame { IfOk result (λ d. d.state.frame ≡ None) }
        ensures part { IfOk result (λ d. (first : List Cut) → StreamDrawPart d.lens d.back first d.state [] [] [] first) }
    {
        let mut raster = PieceRaster::new(alloc, &lens)?;
        raster.begin(back);
        Ok(StreamDrawStage {
            lens,
            back,
            raster,
            image: Image::new(alloc, lens.w, lens.h)?,
            ended: false,
            spent: None,
            held: None,
            frame: None,
        })
    }

    /// Gives a piece back, or holds it if the link has no room. Returns whether it was given.
    fn give_back<B: SendEnd<Piece>>(&mut self, piece: Piece, back: &mut B) -> bool
        requires bare { self.old.state.spent ≡ None }
        ensures given { IsGivenAsBefore self.old self.new }
        ensures part { (first came : List Cut) → (taken sent : List Packet)
            → StreamDrawPart self.old.lens self.old.back first (record self.old.state { spent = Some piece })
            taken sent came (B.sent back.old)
            → StreamDrawPart self.new.lens self.new.back first self.new.state taken sent came (B.sent back.new) }
        ensures sent { result ≡ true → length (B.sent back.new) ≡ length (B.sent back.old) + 1 }
        ensures still { result ≡ false → self.new.state ≡ record self.old.state { spent = Some piece } }
        ensures unsent { result ≡ false → B.sent back.new ≡ B.sent back.old }
        ensures full { result ≡ false → HasNoRoom (B.room back.old) (B.told_taken back.old) (B.sent back.old) }
        ensures back { end_place (B.send_at back.new) (B.room back.new) (B.told_taken back.new)
            ≡ end_place (B.send_at back.old) (B.room back.old) (B.told_taken back.old) }
    {
        match back.push(piece) {
            Ok(()) => true,
            Err(piece) => {
                self.spent = Some(piece);
                false
            }
        }
    }

    /// Sends a packet, or holds it if the link has no room. Returns whether it was sent.
    fn send<S: SendEnd<Packet>>(&mut self, packet: Packet, to: &mut S) -> bool
        requires bare { self.old.state.held ≡ None }
        ensures given { IsGivenAsBefore self.old self.new }
        ensures part { (first came gone : List Cut) → (taken : List Packet)
            → StreamDrawPart self.old.lens self.old.back first (record self.old.state { held = Some packet })
            taken (S.sent to.old) came gone
            → StreamDrawPart self.new.lens self.new.back first self.new.state taken (S.sent to.new) came gone }
        ensures sent { result ≡ true → length (S.sent to.new) ≡ length (S.sent to.old) + 1 }
        ensures still { result ≡ false → self.new.state ≡ record self.old.state { held = Some packet } }
        ensures unsent { result ≡ false → S.sent to.new ≡ S.sent to.old }
        ensures full { result ≡ false → HasNoRoom (S.room to.old) (S.told_taken to.old) (S.sent to.old) }
        ensures to { end_place (S.send_at to.new) (S.room to.new) (S.told_taken to.new)
            ≡ end_place (S.send_at to.old) (S.room to.old) (S.told_taken to.old) }
    {
        match to.push(packet) {
            Ok(()) => true,
            Err(packet) => {
                self.held = Some(packet);
                false
            }
        }
    }

    /// Goes on with a frame: waits for the pieces of its next channel, or holds its load to send if none is left.
    fn go_on(&mut self, frame: Drawing)
        requires bare { self.old.state.held ≡ None }
        requires between { self.old.state.frame ≡ None }
        ensures given { IsGivenAsBefore self.old self.new }
        ensures part { (first came gone : List Cut) → (taken sent : List Packet)
            → IsReadyFor self.old.lens self.old.back self.old.state taken sent (lists_in came) frame
            → gone ++ option_to_list self.old.state.spent ≡ first ++ came
            → StreamDrawPart self.new.lens self.new.back first self.new.state taken sent came gone }
    {
        if frame.has_channels() {
            self.frame = Some(frame);
            return;
        }
        self.held = Some(Packet::Frame(frame.finished()));
    }

    /// Takes a piece and draws it. Returns whether one came.
    fn take_piece<R: Threads + Sync, P: TakeEnd<Piece>>(
        &mut self,
        rt: &R,
        frame: Drawing,
        pieces: &mut P,
    ) -> bool
        requires channels { HasChannels frame }
        requires given { self.old.state.spent ≡ None }
        requires bare { self.old.state.held ≡ None }
        requires between { self.old.state.frame ≡ None }
        ensures given { IsGivenAsBefore self.old self.new }
        ensures part { (first gone : List Cut) → (taken sent : List Packet)
            → StreamDrawPart self.old.lens self.old.back first (record self.old.state { frame = Some frame })
            taken sent (P.taken pieces.old) gone
            → StreamDrawPart self.new.lens self.new.back first self.new.state taken sent (P.taken pieces.new) gone }
        ensures came { result ≡ true → length (P.taken pieces.new) ≡ length (P.taken pieces.old) + 1 }
        ensures still { result ≡ false → self.new.state ≡ record self.old.state { frame = Some frame } }
        ensures none { result ≡ false → P.taken pieces.new ≡ P.taken pieces.old }
        ensures dry { result ≡ false → HasNoMore (P.told_sent pieces.old) (P.taken pieces.old) }
        ensures pieces { end_place (P.take_at pieces.new) (P.take_room pieces.new) (P.told_sent pieces.new)
            ≡ end_place (P.take_at pieces.old) (P.take_room pieces.old) (P.told_sent pieces.old) }
    {
        match pieces.pop() {
            None => {
                self.frame = Some(frame);
                false
            }
            Some(piece) => {
                let mut frame = frame;
                draw_piece(rt, &mut self.raster, &mut self.image, &mut frame, &piece);
                self.spent = Some(piece);
                self.go_on(frame);
                true
            }
        }
    }

    /// Takes a packet and begins its frame. Returns whether one came.
    fn take<T: TakeEnd<Packet>, G: Gate>(&mut self, from: &mut T, gate: &G) -> bool
        requires bare { self.old.state.held ≡ None }
        requires between { self.old.state.frame ≡ None }
        ensures given { IsGivenAsBefore self.old self.new }
        ensures part { (first came gone : List Cut) → (sent : List Packet)
            → StreamDrawPart self.old.lens self.old.back first self.old.state (T.taken from.old) sent came gone
            → StreamDrawPart self.new.lens self.new.back first self.new.state (T.taken from.new) sent came gone }
        ensures came { result ≡ true → length (T.taken from.new) ≡ length (T.taken from.old) + 1 }
        ensures still { result ≡ false → self.new.state ≡ self.old.state }
        ensures none { result ≡ false → T.taken from.new ≡ T.taken from.old }
        ensures dry { result ≡ false → HasNoMore (T.told_sent from.old) (T.taken from.old) }
        ensures from { end_place (T.take_at from.new) (T.take_room from.new) (T.told_sent from.new)
            ≡ end_place (T.take_at from.old) (T.take_room from.old) (T.told_sent from.old) }
    {
        match from.pop() {
            None => false,
            Some(Packet::End) => {
                self.ended = true;
                true
            }
            Some(Packet::Frame(load)) => {
                gate.pass(Stage::Draw, load.cut().frame);
                self.go_on(Drawing::of(load));
                true
            }
        }
    }

    /// Takes a piece of the frame that is being drawn, or a packet if there is none. Returns whether one came.
    fn take_next<R: Threads + Sync, T: TakeEnd<Packet>, P: TakeEnd<Piece>, G: Gate>(
        &mut self,
        rt: &R,
        from: &mut T,
        pieces: &mut P,
        gate: &G,
    ) -> bool
        requires given { self.old.state.spent ≡ None }
        requires bare { self.old.state.held ≡ None }
        ensures given { IsGivenAsBefore self.old self.new }
        ensures part { (first gone : List Cut) → (sent : List Packet)
            → StreamDrawPart self.old.lens self.old.back first self.old.state (T.taken from.old) sent (P.taken pieces.old) gone
            → StreamDrawPart self.new.lens self.new.back first self.new.state (T.taken from.new) sent (P.taken pieces.new) gone }
        ensures moves { (gone : List Cut) → (sent : List Packet) → MovesOne result
            (moment self.old.state (T.taken from.old) sent (P.taken pieces.old) gone)
            (moment self.new.state (T.taken from.new) sent (P.taken pieces.new) gone)
            (WaitsToTake self.old.state (HasNoMore (P.told_sent pieces.old) (P.taken pieces.old))
            (HasNoMore (T.told_sent from.old) (T.taken from.old))) }
        ensures turn { (gone : List Cut) → (sent : List Packet) → TakesInTurn
            (moment self.old.state (T.taken from.old) sent (P.taken pieces.old) gone)
            (moment self.new.state (T.taken from.new) sent (P.taken pieces.new) gone) }
        ensures from { end_place (T.take_at from.new) (T.take_room from.new) (T.told_sent from.new)
            ≡ end_place (T.take_at from.old) (T.take_room from.old) (T.told_sent from.old) }
        ensures pieces { end_place (P.take_at pieces.new) (P.take_room pieces.new) (P.told_sent pieces.new)
            ≡ end_place (P.take_at pieces.old) (P.take_room pieces.old) (P.told_sent pieces.old) }
    {
        match self.frame.take() {
            Some(frame) => self.take_piece(rt, frame, pieces),
            None => self.take(from, gate),
        }
    }

    /// Sends the packet that it holds, or else takes what comes next. Returns whether something moved.
    fn go_forward<
        R: Threads + Sync,
        S: SendEnd<Packet>,
        T: TakeEnd<Packet>,
        P: TakeEnd<Piece>,
        G: Gate,
    >(&mut self, rt: &R, from: &mut T, to: &mut S, pieces: &mut P, gate: &G) -> bool
        requires given { self.old.state.spent ≡ None }
        ensures given { IsGivenAsBefore self.old self.new }
        ensures part { (first gone : List Cut)
            → StreamDrawPart self.old.lens self.old.back first self.old.state
            (T.taken from.old) (S.sent to.old) (P.taken pieces.old) gone
            → StreamDrawPart self.new.lens self.new.back first self.new.state
            (T.taken from.new) (S.sent to.new) (P.taken pieces.new) gone }
        ensures moves { (gone : List Cut) → MovesOne result
            (moment self.old.state (T.taken from.old) (S.sent to.old) (P.taken pieces.old) gone)
            (moment self.new.state (T.taken from.new) (S.sent to.new) (P.taken pieces.new) gone)
            (WaitsToMove self.old.state (HasNoRoom (S.room to.old) (S.told_taken to.old) (S.sent to.old))
            (HasNoMore (P.told_sent pieces.old) (P.taken pieces.old)) (HasNoMore (T.told_sent from.old) (T.taken from.old))) }
        ensures turn { (gone : List Cut) → MovesInTurn
            (moment self.old.state (T.taken from.old) (S.sent to.old) (P.taken pieces.old) gone)
            (moment self.new.state (T.taken from.new) (S.sent to.new) (P.taken pieces.new) gone) }
        ensures from { end_place (T.take_at from.new) (T.take_room from.new) (T.told_sent from.new)
            ≡ end_place (T.take_at from.old) (T.take_room from.old) (T.told_sent from.old) }
        ensures to { end_place (S.send_at to.new) (S.room to.new) (S.told_taken to.new)
            ≡ end_place (S.send_at to.old) (S.room to.old) (S.told_taken to.old) }
        ensures pieces { end_place (P.take_at pieces.new) (P.take_room pieces.new) (P.told_sent pieces.new)
            ≡ end_place (P.take_at pieces.old) (P.take_room pieces.old) (P.told_sent pieces.old) }
    {
        match self.held.take() {
            Some(packet) => self.send(packet, to),
            None => self.take_next(rt, from, pieces, gate),
        }
    }

    /// Gives the piece that it holds back, or else goes forward. Returns whether something moved.
    fn go<
        R: Threads + Sync,
        S: SendEnd<Packet>,
        T: TakeEnd<Packet>,
        P: TakeEnd<Piece>,
        B: SendEnd<Piece>,
        G: Gate,
    >(&mut self, rt: &R, from: &mut T, to: &mut S, pieces: &mut P, back: &mut B, gate: &G) -> bool
        ensures given { IsGivenAsBefore self.old self.new }
        ensures part { (first : List Cut)
            → StreamDrawPart self.old.lens self.old.back first self.old.state (T.taken from.old) (S.sent to.old) (P.taken pieces.old)
            (B.sent back.old)
            → StreamDrawPart self.new.lens self.new.back first self.new.state (T.taken from.new) (S.sent to.new) (P.taken pieces.new)
            (B.sent back.new) }
        ensures moves { MovesOne result
            (moment self.old.state (T.taken from.old) (S.sent to.old) (P.taken pieces.old) (B.sent back.old))
            (moment self.new.state (T.taken from.new) (S.sent to.new) (P.taken pieces.new) (B.sent back.new))
            (WaitsToDraw self.old.state (HasNoRoom (B.room back.old) (B.told_taken back.old) (B.sent back.old))
            (HasNoRoom (S.room to.old) (S.told_taken to.old) (S.sent to.old))
            (HasNoMore (P.told_sent pieces.old) (P.taken pieces.old)) (HasNoMore (T.told_sent from.old) (T.taken from.old))) }
        ensures turn { DrawsInTurn
            (moment self.old.state (T.taken from.old) (S.sent to.old) (P.taken pieces.old) (B.sent back.old))
            (moment self.new.state (T.taken from.new) (S.sent to.new) (P.taken pieces.new) (B.sent back.new)) }
        ensures from { end_place (T.take_at from.new) (T.take_room from.new) (T.told_sent from.new)
            ≡ end_place (T.take_at from.old) (T.take_room from.old) (T.told_sent from.old) }
        ensures to { end_place (S.send_at to.new) (S.room to.new) (S.told_taken to.new)
            ≡ end_place (S.send_at to.old) (S.room to.old) (S.told_taken to.old) }
        ensures pieces { end_place (P.take_at pieces.new) (P.take_room pieces.new) (P.told_sent pieces.new)
            ≡ end_place (P.take_at pieces.old) (P.take_room pieces.old) (P.told_sent pieces.old) }
        ensures back { end_place (B.send_at back.new) (B.room back.new) (B.told_taken back.new)
            ≡ end_place (B.send_at back.old) (B.room back.old) (B.told_taken back.old) }
    {
        match self.spent.take() {
            Some(piece) => self.give_back(piece, back),
            None => self.go_forward(rt, from, to, pieces, gate),
        }
    }

    /// Returns whether it has ended: the End was taken.
    pub fn has_ended(&self) -> bool
        ensures { result ≡ self.now.state.ended }
    {
        self.ended
    }

    /// One step: gives back the piece or sends the packet that it holds, or takes a piece of the frame that is being
    /// drawn and draws it, or takes a packet.
    ///
    /// Returns `Did` if a packet or a piece moved, `NotYet` if none could, and `Over` if it has ended or finds the stop
    /// mark. It returns no error.
    pub fn poll<
        R: Threads + Sync,
        D: Desk<Scene>,
        S: SendEnd<Packet>,
        T: TakeEnd<Packet>,
        P: TakeEnd<Piece>,
        B: SendEnd<Piece>,
        G: Gate,
    >(
        &mut self,
        rt: &R,
        desk: &mut D,
        from: &mut T,
        to: &mut S,
        pieces: &mut P,
        back: &mut B,
        gate: &G,
    ) -> Result<Did, StageError>
        // It keeps its part, whatever it received and sent.
        ensures given { IsGivenAsBefore self.old self.new }
        ensures part { (first : List Cut)
            → StreamDrawPart self.old.lens self.old.back first self.old.state (T.taken from.old) (S.sent to.old) (P.taken pieces.old)
            (B.sent back.old)
            → StreamDrawPart self.new.lens self.new.back first self.new.state (T.taken from.new) (S.sent to.new) (P.taken pieces.new)
            (B.sent back.new) }

        // It gives the piece back that it holds first, then it sends the packet, and takes a packet only if it holds
        // nothing and no frame is being drawn.
        ensures turn { DrawsInTurn
            (moment self.old.state (T.taken from.old) (S.sent to.old) (P.taken pieces.old) (B.sent back.old))
            (moment self.new.state (T.taken from.new) (S.sent to.new) (P.taken pieces.new) (B.sent back.new)) }

        // What it returns. It is over exactly if the End was taken or this look found the stop mark.
        ensures answer { Answers result
            (moment self.old.state (T.taken from.old) (S.sent to.old) (P.taken pieces.old) (B.sent back.old))
            (moment self.new.state (T.taken from.new) (S.sent to.new) (P.taken pieces.new) (B.sent back.new))
            (WaitsToDraw self.old.state (HasNoRoom (B.room back.old) (B.told_taken back.old) (B.sent back.old))
            (HasNoRoom (S.room to.old) (S.told_taken to.old) (S.sent to.old))
            (HasNoMore (P.told_sent pieces.old) (P.taken pieces.old)) (HasNoMore (T.told_sent from.old) (T.taken from.old))) }
        ensures ended { self.old.state.ended ≡ true → result ≡ Ok did.Over }
        ensures looked { self.old.state.ended ≡ false
            → SawMark (D.number desk.old) (D.seen desk.old) (D.told desk.old) (is_over result) (D.seen desk.new) }

        // It adds no entry, and leaves all else of the desk and the links.
        ensures found { Found (D.number desk.old) (D.seen desk.old) (D.seen desk.new) }
        ensures told { D.told desk.new ≡ D.told desk.old }
        ensures desk { desk_place (D.number desk.new) (D.stands desk.new) ≡ desk_place (D.number desk.old) (D.stands desk.old) }
        ensures from { end_place (T.take_at from.new) (T.take_room from.new) (T.told_sent from.new)
            ≡ end_place (T.take_at from.old) (T.take_room from.old) (T.told_sent from.old) }
        ensures to { end_place (S.send_at to.new) (S.room to.new) (S.told_taken to.new)
            ≡ end_place (S.send_at to.old) (S.room to.old) (S.told_taken to.old) }
        ensures pieces { end_place (P.take_at pieces.new) (P.take_room pieces.new) (P.told_sent pieces.new)
            ≡ end_place (P.take_at pieces.old) (P.take_room pieces.old) (P.told_sent pieces.old) }
        ensures back { end_place (B.send_at back.new) (B.room back.new) (B.told_taken back.new)
            ≡ end_place (B.send_at back.old) (B.room back.old) (B.told_taken back.old) }
    {
        if self.ended {
            return Ok(Did::Over);
        }
        if is_stopped(desk) {
            return Ok(Did::Over);
        }
        let moved = self.go(rt, from, to, pieces, back, gate);
        Ok(Did::of(moved))
    }
}
