//! The cull of the streamed draw list.
ghost use Rattle.std.specs.Prelude.{◌≡◌, ◌+◌, ◌<◌, ◌≤◌, true, false, List, [], ◌∷◌, ◌++◌, length, None, Some, Ok, IfOk};
ghost use Rattle.seat_lock.specs.Log.{Found};
ghost use Rattle.pf_model.specs.Copies.{copy_of};
ghost use Rattle.stage_parts.specs.declared.answers.Did.TheVariants as did;
ghost use Rattle.stage_parts.specs.declared.packets.Packet.TheVariants as packet;
ghost use Rattle.stage_parts.specs.Answers.{is_over};
ghost use Rattle.stage_parts.specs.Packets.{is_end};
ghost use Rattle.stream_stages.specs.Cuts.{Cut};
ghost use Rattle.stream_stages.specs.Links.{SawMark, desk_place, end_place, HasNoRoom, HasNoMore, moment, MovesOne, Answers};
ghost use Rattle.stream_stages.specs.CullParts.{IsAsGiven, StreamCullPart, RefillsPieces, WaitsToFill, WaitsToSend, WaitsToCull};
ghost use Rattle.stream_stages.specs.CullParts.{TakesInTurn, MovesInTurn, CullsInTurn};

use crate::looks::is_stopped;
use crate::pieces::Piece;
use crate::sending::{Sending, begin_channel, fill_piece, take_updates};
use crate::streams::StreamWalk;
use frame_link::{SendEnd, TakeEnd};
use fx_math::Lens;
use multibuffer::StageCopy;
use pf_io::{Gate, NoMemory, Stage};
use pf_scene::Scene;
use seat_lock::Desk;
use stage_parts::{Did, Load, Packet, StageError};
use std::alloc::Global;
use std::marker::Model;

/// The cull of the streamed draw list. It takes the loads that the application sends, keeps its copy of the scene by
/// their update lists, and sends them on without draw lists. Then it sends for each channel of the load what is in
/// sight, in the pieces that return to it, of which the last one of a list has the mark.
///
/// Contracts see the lens, how many items a piece takes, the copy with its boxes, whether the End was passed on, the
/// packet and the piece that it holds to send, the frame whose pieces are sent, and the walk.
pub struct StreamCullStage {
    lens: Lens,
    limit: u32,
    copy: StageCopy,
    ended: bool,
    held: Option<Packet>,
    piece: Option<Piece>,
    frame: Option<Sending>,
    walk: StreamWalk,
}

/// Written out, so that to drop one is a single call.
impl Drop for StreamCullStage {
    fn drop(self) {
        let Self {
            lens: _,
            limit: _,
            copy: _,
            ended: _,
            held: _,
            piece: _,
            frame: _,
            walk: _,
        } = self;
    }
}

impl Model for StreamCullStage {
    ghost use Rattle.std.specs.Prelude.{◌<◌, IfSome};
    ghost use Rattle.stream_stages.specs.CullParts.{StreamCullWork};

    ghost Value = { StreamCullWork };

    ghost view = { λ c. record {
      lens = c.lens;
      limit = c.limit;
      state = record { copy = c.copy; ended = c.ended; held = c.held; piece = c.piece; frame = c.frame; walk = c.walk };
    } };

    ghost invariant = { λ c. IfSome c.frame (λ s. s.channel < 4) };
}

/// Returns whether a packet is the End.
fn is_end(packet: &Packet) -> bool
    ensures { result ≡ is_end packet.now }
{
    match packet {
        Packet::Frame(_) => false,
        Packet::End => true,
    }
}

impl StreamCullStage {
    /// Returns the cull of a lens whose pieces take at most `limit` items, which has not begun: its copy is the scene
    /// alone. Returns `Err(NoMemory)` if memory runs out.
    pub fn new(alloc: Global, lens: Lens, limit: u32) -> Result<StreamCullStage, NoMemory>
        ensures lens { IfOk result (λ c. c.lens ≡ lens) }
        ensures limit { IfOk result (λ c. c.limit ≡ limit) }
        ensures nodes { IfOk result (λ c. c.state.copy.nodes ≡ copy_of []) }
        ensures ended { IfOk result (λ c. c.state.ended ≡ false) }
        ensures held { IfOk result (λ c. c.state.held ≡ None) }
        ensures piece { IfOk result (λ c. c.state.piece ≡ None) }
        ensures frame { IfOk result (λ c. c.state.frame ≡ None) }
        ensures part { IfOk result (λ c. StreamCullPart c.lens c.limit c.state [] [] []) }
        ensures own { IfOk result (λ c. RefillsPieces c.limit c.state.piece [] []) }
    {
        Ok(StreamCullStage {
            lens,
            limit,
            copy: StageCopy::new(alloc)?,
            ended: false,
            held: None,
            piece: None,
            frame: None,
            walk: StreamWalk::new(alloc)?,
        })
    }

    /// Sends a packet, or holds it if the link has no room. Returns whether it was sent.
    fn send<S: SendEnd<Packet>>(&mut self, packet: Packet, to: &mut S) -> bool
        requires going { self.old.state.ended ≡ false }
        requires bare { self.old.state.held ≡ None }
        ensures given { IsAsGiven self.old self.new }
        ensures part { (taken : List Packet) → (gone : List Cut)
            → StreamCullPart self.old.lens self.old.limit (record self.old.state { held = Some packet }) taken (S.sent to.old) gone
            → StreamCullPart self.new.lens self.new.limit self.new.state taken (S.sent to.new) gone }
        ensures piece { self.new.state.piece ≡ self.old.state.piece }
        ensures sent { result ≡ true → length (S.sent to.new) ≡ length (S.sent to.old) + 1 }
        ensures still { result ≡ false → self.new.state ≡ record self.old.state { held = Some packet } }
        ensures unsent { result ≡ false → S.sent to.new ≡ S.sent to.old }
        ensures full { result ≡ false → HasNoRoom (S.room to.old) (S.told_taken to.old) (S.sent to.old) }
        ensures to { end_place (S.send_at to.new) (S.room to.new) (S.told_taken to.new)
            ≡ end_place (S.send_at to.old) (S.room to.old) (S.told_taken to.old) }
    {
        let ends = is_end(&packet);
        match to.push(packet) {
            Ok(()) => {
                self.ended = ends;
                true
            }
            Err(packet) => {
                self.held = Some(packet);
                false
            }
        }
    }

    /// Sends a piece, or holds it if the link has no room. Returns whether it was sent.
    fn send_piece<P: SendEnd<Piece>>(&mut self, piece: Piece, pieces: &mut P) -> bool
        requires bare { self.old.state.piece ≡ None }
        ensures given { IsAsGiven self.old self.new }
        ensures part { (taken sent : List Packet)
            → StreamCullPart self.old.lens self.old.limit (record self.old.state { piece = Some piece }) taken sent (P.sent pieces.old)
            → StreamCullPart self.new.lens self.new.limit self.new.state taken sent (P.sent pieces.new) }
        ensures own { (came : List Cut) → RefillsPieces self.old.limit (Some piece) came (P.sent pieces.old)
            → RefillsPieces self.new.limit self.new.state.piece came (P.sent pieces.new) }
        ensures sent { result ≡ true → length (P.sent pieces.new) ≡ length (P.sent pieces.old) + 1 }
        ensures still { result ≡ false → self.new.state ≡ record self.old.state { piece = Some piece } }
        ensures unsent { result ≡ false → P.sent pieces.new ≡ P.sent pieces.old }
        ensures full { result ≡ false → HasNoRoom (P.room pieces.old) (P.told_taken pieces.old) (P.sent pieces.old) }
        ensures pieces { end_place (P.send_at pieces.new) (P.room pieces.new) (P.told_taken pieces.new)
            ≡ end_place (P.send_at pieces.old) (P.room pieces.old) (P.told_taken pieces.old) }
    {
        match pieces.push(piece) {
            Ok(()) => true,
            Err(piece) => {
                self.piece = Some(piece);
                false
            }
        }
    }

    /// Fills a piece that takes as many items as the cull is given, and holds it.
    fn fill(&mut self, frame: Sending, piece: Piece)
        requires limit { piece.limit ≡ self.old.limit }
        requires few { frame.channel < 4 }
        requires bare { self.old.state.piece ≡ None }
        ensures given { IsAsGiven self.old self.new }
        ensures part { (taken sent : List Packet) → (gone : List Cut)
            → StreamCullPart self.old.lens self.old.limit (record self.old.state { frame = Some frame }) taken sent gone
            → StreamCullPart self.new.lens self.new.limit self.new.state taken sent gone }
        ensures own { (came came' gone : List Cut) → came' ≡ came ++ piece ∷ [] → RefillsPieces self.old.limit None came gone
            → RefillsPieces self.new.limit self.new.state.piece came' gone }
    {
        let mut piece = piece;
        self.frame = fill_piece(&self.copy, &mut self.walk, &self.lens, frame, &mut piece);
        self.piece = Some(piece);
    }

    /// Takes a returned piece, and fills it. One that takes another number of items is dropped. Returns whether one
    /// came.
    fn take_piece<B: TakeEnd<Piece>>(&mut self, frame: Sending, back: &mut B) -> bool
        requires few { frame.channel < 4 }
        requires bare { self.old.state.piece ≡ None }
        ensures given { IsAsGiven self.old self.new }
        ensures part { (taken sent : List Packet) → (gone : List Cut)
            → StreamCullPart self.old.lens self.old.limit (record self.old.state { frame = Some frame }) taken sent gone
            → StreamCullPart self.new.lens self.new.limit self.new.state taken sent gone }
        ensures own { (gone : List Cut) → RefillsPieces self.old.limit None (B.taken back.old) gone
            → RefillsPieces self.new.limit self.new.state.piece (B.taken back.new) gone }
        ensures came { result ≡ true → length (B.taken back.new) ≡ length (B.taken back.old) + 1 }
        ensures still { result ≡ false → self.new.state ≡ record self.old.state { frame = Some frame } }
        ensures none { result ≡ false → B.taken back.new ≡ B.taken back.old }
        ensures dry { result ≡ false → HasNoMore (B.told_sent back.old) (B.taken back.old) }
        ensures back { end_place (B.take_at back.new) (B.take_room back.new) (B.told_sent back.new)
            ≡ end_place (B.take_at back.old) (B.take_room back.old) (B.told_sent back.old) }
    {
        match back.pop() {
            None => {
                self.frame = Some(frame);
                false
            }
            Some(piece) => {
                if piece.limit() != self.limit {
                    self.frame = Some(frame);
                    return true;
                }
                self.fill(frame, piece);
                true
            }
        }
    }

    /// Takes the update list of a load into the copy, begins its frame, and holds it with the previous nodes.
    fn begin(&mut self, load: Load)
        requires going { self.old.state.ended ≡ false }
        requires bare { self.old.state.held ≡ None }
        requires between { self.old.state.frame ≡ None }
        ensures given { IsAsGiven self.old self.new }
        ensures part { (taken sent : List Packet) → (gone : List Cut)
            → StreamCullPart self.old.lens self.old.limit self.old.state taken sent gone
            → StreamCullPart self.new.lens self.new.limit self.new.state (taken ++ packet.Frame load ∷ []) sent gone }
        ensures piece { self.new.state.piece ≡ self.old.state.piece }
    {
        let mut load = load;
        take_updates(&mut self.copy, &mut load);
        self.frame = begin_channel(&mut self.walk, &self.lens, Sending::of(load.cut()));
        self.held = Some(Packet::Frame(load));
    }

    /// Takes a packet and holds what it makes of it. Returns whether one came.
    fn take<T: TakeEnd<Packet>, G: Gate>(&mut self, from: &mut T, gate: &G) -> bool
        requires going { self.old.state.ended ≡ false }
        requires bare { self.old.state.held ≡ None }
        requires between { self.old.state.frame ≡ None }
        ensures given { IsAsGiven self.old self.new }
        ensures part { (sent : List Packet) → (gone : List Cut)
            → StreamCullPart self.old.lens self.old.limit self.old.state (T.taken from.old) sent gone
            → StreamCullPart self.new.lens self.new.limit self.new.state (T.taken from.new) sent gone }
        ensures piece { self.new.state.piece ≡ self.old.state.piece }
        ensures came { result ≡ true → length (T.taken from.new) ≡ length (T.taken from.old) + 1 }
        ensures still { result ≡ false → self.new.state ≡ self.old.state }
        ensures none { result ≡ false → T.taken from.new ≡ T.taken from.old }
        ensures dry { result ≡ false → HasNoMore (T.told_sent from.old) (T.taken from.old) }
        ensures from { end_place (T.take_at from.new) (T.take_room from.new) (T.told_sent from.new)
            ≡ end_place (T.take_at from.old) (T.take_room from.old) (T.told_sent from.old) }
    {
        match from.pop() {
            None => false,
            Some(Packet::End) => {
                self.held = Some(Packet::End);
                true
            }
            Some(Packet::Frame(load)) => {
                gate.pass(Stage::Cull, load.cut().frame);
                self.begin(load);
                true
            }
        }
    }

    /// Takes a returned piece for the frame whose pieces are sent, or a packet if there is none. Returns whether one
    /// came.
    fn take_next<T: TakeEnd<Packet>, B: TakeEnd<Piece>, G: Gate>(
        &mut self,
        from: &mut T,
        back: &mut B,
        gate: &G,
    ) -> bool
        requires going { self.old.state.ended ≡ false }
        requires bare { self.old.state.held ≡ None }
        requires sent { self.old.state.piece ≡ None }
        ensures given { IsAsGiven self.old self.new }
        ensures part { (sent : List Packet) → (gone : List Cut)
            → StreamCullPart self.old.lens self.old.limit self.old.state (T.taken from.old) sent gone
            → StreamCullPart self.new.lens self.new.limit self.new.state (T.taken from.new) sent gone }
        ensures own { (gone : List Cut) → RefillsPieces self.old.limit None (B.taken back.old) gone
            → RefillsPieces self.new.limit self.new.state.piece (B.taken back.new) gone }
        ensures moves { (sent : List Packet) → (gone : List Cut) → MovesOne result
            (moment self.old.state (T.taken from.old) sent (B.taken back.old) gone)
            (moment self.new.state (T.taken from.new) sent (B.taken back.new) gone)
            (WaitsToFill self.old.state (HasNoMore (B.told_sent back.old) (B.taken back.old))
            (HasNoMore (T.told_sent from.old) (T.taken from.old))) }
        ensures turn { (sent : List Packet) → (gone : List Cut) → TakesInTurn
            (moment self.old.state (T.taken from.old) sent (B.taken back.old) gone)
            (moment self.new.state (T.taken from.new) sent (B.taken back.new) gone) }
        ensures from { end_place (T.take_at from.new) (T.take_room from.new) (T.told_sent from.new)
            ≡ end_place (T.take_at from.old) (T.take_room from.old) (T.told_sent from.old) }
        ensures back { end_place (B.take_at back.new) (B.take_room back.new) (B.told_sent back.new)
            ≡ end_place (B.take_at back.old) (B.take_room back.old) (B.told_sent back.old) }
    {
        match self.frame.take() {
            Some(frame) => self.take_piece(frame, back),
            None => self.take(from, gate),
        }
    }

    /// Sends the piece that it holds, or else takes what comes next. Returns whether something moved.
    fn go_on<T: TakeEnd<Packet>, P: SendEnd<Piece>, B: TakeEnd<Piece>, G: Gate>(
        &mut self,
        from: &mut T,
        pieces: &mut P,
        back: &mut B,
        gate: &G,
    ) -> bool
        requires going { self.old.state.ended ≡ false }
        requires bare { self.old.state.held ≡ None }
        ensures given { IsAsGiven self.old self.new }
        ensures part { (sent : List Packet)
            → StreamCullPart self.old.lens self.old.limit self.old.state (T.taken from.old) sent (P.sent pieces.old)
            → StreamCullPart self.new.lens self.new.limit self.new.state (T.taken from.new) sent (P.sent pieces.new) }
        ensures own { RefillsPieces self.old.limit self.old.state.piece (B.taken back.old) (P.sent pieces.old)
            → RefillsPieces self.new.limit self.new.state.piece (B.taken back.new) (P.sent pieces.new) }
        ensures moves { (sent : List Packet) → MovesOne result
            (moment self.old.state (T.taken from.old) sent (B.taken back.old) (P.sent pieces.old))
            (moment self.new.state (T.taken from.new) sent (B.taken back.new) (P.sent pieces.new))
            (WaitsToSend self.old.state (HasNoRoom (P.room pieces.old) (P.told_taken pieces.old) (P.sent pieces.old))
            (HasNoMore (B.told_sent back.old) (B.taken back.old)) (HasNoMore (T.told_sent from.old) (T.taken from.old))) }
        ensures turn { (sent : List Packet) → MovesInTurn
            (moment self.old.state (T.taken from.old) sent (B.taken back.old) (P.sent pieces.old))
            (moment self.new.state (T.taken from.new) sent (B.taken back.new) (P.sent pieces.new)) }
        ensures from { end_place (T.take_at from.new) (T.take_room from.new) (T.told_sent from.new)
            ≡ end_place (T.take_at from.old) (T.take_room from.old) (T.told_sent from.old) }
        ensures pieces { end_place (P.send_at pieces.new) (P.room pieces.new) (P.told_taken pieces.new)
            ≡ end_place (P.send_at pieces.old) (P.room pieces.old) (P.told_taken pieces.old) }
        ensures back { end_place (B.take_at back.new) (B.take_room back.new) (B.told_sent back.new)
            ≡ end_place (B.take_at back.old) (B.take_room back.old) (B.told_sent back.old) }
    {
        match self.piece.take() {
            Some(piece) => self.send_piece(piece, pieces),
            None => self.take_next(from, back, gate),
        }
    }

    /// Sends the packet that it holds, or else goes on with pieces. Returns whether something moved.
    fn go<S: SendEnd<Packet>, T: TakeEnd<Packet>, P: SendEnd<Piece>, B: TakeEnd<Piece>, G: Gate>(
        &mut self,
        from: &mut T,
        to: &mut S,
        pieces: &mut P,
        back: &mut B,
        gate: &G,
    ) -> bool
        requires going { self.old.state.ended ≡ false }
        ensures given { IsAsGiven self.old self.new }
        ensures part { StreamCullPart self.old.lens self.old.limit self.old.state (T.taken from.old) (S.sent to.old) (P.sent pieces.old)
            → StreamCullPart self.new.lens self.new.limit self.new.state (T.taken from.new) (S.sent to.new) (P.sent pieces.new) }
        ensures own { RefillsPieces self.old.limit self.old.state.piece (B.taken back.old) (P.sent pieces.old)
            → RefillsPieces self.new.limit self.new.state.piece (B.taken back.new) (P.sent pieces.new) }
        ensures moves { MovesOne result
            (moment self.old.state (T.taken from.old) (S.sent to.old) (B.taken back.old) (P.sent pieces.old))
            (moment self.new.state (T.taken from.new) (S.sent to.new) (B.taken back.new) (P.sent pieces.new))
            (WaitsToCull self.old.state (HasNoRoom (S.room to.old) (S.told_taken to.old) (S.sent to.old))
            (HasNoRoom (P.room pieces.old) (P.told_taken pieces.old) (P.sent pieces.old))
            (HasNoMore (B.told_sent back.old) (B.taken back.old)) (HasNoMore (T.told_sent from.old) (T.taken from.old))) }
        ensures turn { CullsInTurn
            (moment self.old.state (T.taken from.old) (S.sent to.old) (B.taken back.old) (P.sent pieces.old))
            (moment self.new.state (T.taken from.new) (S.sent to.new) (B.taken back.new) (P.sent pieces.new)) }
        ensures from { end_place (T.take_at from.new) (T.take_room from.new) (T.told_sent from.new)
            ≡ end_place (T.take_at from.old) (T.take_room from.old) (T.told_sent from.old) }
        ensures to { end_place (S.send_at to.new) (S.room to.new) (S.told_taken to.new)
            ≡ end_place (S.send_at to.old) (S.room to.old) (S.told_taken to.old) }
        ensures pieces { end_place (P.send_at pieces.new) (P.room pieces.new) (P.told_taken pieces.new)
            ≡ end_place (P.send_at pieces.old) (P.room pieces.old) (P.told_taken pieces.old) }
        ensures back { end_place (B.take_at back.new) (B.take_room back.new) (B.told_sent back.new)
            ≡ end_place (B.take_at back.old) (B.take_room back.old) (B.told_sent back.old) }
    {
        match self.held.take() {
            Some(packet) => self.send(packet, to),
            None => self.go_on(from, pieces, back, gate),
        }
    }

    /// Returns the copy of the scene that it culls, with the cache of its boxes.
    pub fn copy(&self) -> &StageCopy
        ensures { result.now ≡ self.now.state.copy }
    {
        &self.copy
    }

    /// Returns whether it has ended: the End was passed on.
    pub fn has_ended(&self) -> bool
        ensures { result ≡ self.now.state.ended }
    {
        self.ended
    }

    /// One step: sends the packet or the piece that it holds, or takes a returned piece and fills it, or takes a packet
    /// and holds what it makes of it.
    ///
    /// Returns `Did` if a packet or a piece moved, `NotYet` if none could, and `Over` if it has ended or finds the stop
    /// mark. It returns no error.
    pub fn poll<
        D: Desk<Scene>,
        S: SendEnd<Packet>,
        T: TakeEnd<Packet>,
        P: SendEnd<Piece>,
        B: TakeEnd<Piece>,
        G: Gate,
    >(
        &mut self,
        desk: &mut D,
        from: &mut T,
        to: &mut S,
        pieces: &mut P,
        back: &mut B,
        gate: &G,
    ) -> Result<Did, StageError>
        // It keeps its part, whatever it received and sent.
        ensures given { IsAsGiven self.old self.new }
        ensures part { StreamCullPart self.old.lens self.old.limit self.old.state (T.taken from.old) (S.sent to.old) (P.sent pieces.old)
            → StreamCullPart self.new.lens self.new.limit self.new.state (T.taken from.new) (S.sent to.new) (P.sent pieces.new) }

        // It sends and holds as many pieces as returned for its number of items, and each takes that number.
        ensures own { RefillsPieces self.old.limit self.old.state.piece (B.taken back.old) (P.sent pieces.old)
            → RefillsPieces self.new.limit self.new.state.piece (B.taken back.new) (P.sent pieces.new) }

        // It sends the packet that it holds first, then the piece, and takes a packet only if it holds nothing and no
        // frame's pieces are left to send.
        ensures turn { CullsInTurn
            (moment self.old.state (T.taken from.old) (S.sent to.old) (B.taken back.old) (P.sent pieces.old))
            (moment self.new.state (T.taken from.new) (S.sent to.new) (B.taken back.new) (P.sent pieces.new)) }

        // What it returns. It is over exactly if the End was passed on or this look found the stop mark.
        ensures answer { Answers result
            (moment self.old.state (T.taken from.old) (S.sent to.old) (B.taken back.old) (P.sent pieces.old))
            (moment self.new.state (T.taken from.new) (S.sent to.new) (B.taken back.new) (P.sent pieces.new))
            (WaitsToCull self.old.state (HasNoRoom (S.room to.old) (S.told_taken to.old) (S.sent to.old))
            (HasNoRoom (P.room pieces.old) (P.told_taken pieces.old) (P.sent pieces.old))
            (HasNoMore (B.told_sent back.old) (B.taken back.old)) (HasNoMore (T.told_sent from.old) (T.taken from.old))) }
        ensures ended { self.old.state.ended ≡ true → result ≡ Ok did.Over }
        ensures looked { self.old.state.ended ≡ false
            → SawMark (D.number desk.old) (D.seen desk.old) (D.told desk.old) (is_over result) (D.seen desk.new) }

        // It adds no entry, and leaves all else of the desk and the links.
        ensures found { Found (D.number desk.old) (D.seen desk.old) (D.seen desk.new) }
        ensures told { D.told desk.new ≡ D.told desk.old }
        ensures desk { desk_place (D.number desk.new) (D.stands desk.new) ≡ desk_place (D.number desk.old) (D.stands desk.old) }
        ensures from { end_place (T.take_at from.new) (T.take_room from.new) (T.told_sent from.new)
            ≡ end_place (T.take_at from.old) (T.take_room from.old) (T.told_sent from.old) }
        ensures to { end_place (S.send_at to.new) (S.room to.new) (S.told_taken to.new)
            ≡ end_place (S.send_at to.old) (S.room to.old) (S.told_taken to.old) }
        ensures pieces { end_place (P.send_at pieces.new) (P.room pieces.new) (P.told_taken pieces.new)
            ≡ end_place (P.send_at pieces.old) (P.room pieces.old) (P.told_taken pieces.old) }
        ensures back { end_place (B.take_at back.new) (B.take_room back.new) (B.told_sent back.new)
            ≡ end_place (B.take_at back.old) (B.take_room back.old) (B.told_sent back.old) }
    {
        if self.ended {
            return Ok(Did::Over);
        }
        if is_stopped(desk) {
            return Ok(Did::Over);
        }
        let moved = self.go(from, to, pieces, back, gate);
        Ok(Did::of(moved))
    }
}
