//! The steps of the application, each to be taken where the scene was just looked at.
ghost use Rattle.std.specs.Prelude.{◌≡◌, ◌+◌, ◌<◌, ◌≤◌, ◌++◌, ◌∷◌, [], ℕ, true, false, length, Option, None, Some, Ok, Err, OnOk, OnErr};
ghost use Rattle.pf_model.specs.declared.lines.AppStep.TheVariants as app;
ghost use Rattle.pf_history.specs.Logs.{Log};
ghost use Rattle.pf_scene.specs.Scenes.{SceneState};
ghost use Rattle.stage_parts.specs.Packets.{is_end};
ghost use Rattle.stage_parts.specs.declared.packets.Packet.TheVariants as packet;
ghost use Rattle.frame_stages.specs.declared.script.Next.TheVariants as next;
ghost use Rattle.stage_parts.specs.declared.answers.Did.TheVariants as did;
ghost use Rattle.stage_parts.specs.Answers.{did_of, is_over};
ghost use Rattle.frame_stages.specs.Scripts.{next_step, IsNext, passed, SyncIsNext, synced_script, most_lines};
ghost use Rattle.frame_stages.specs.Flights.{HaveFirst, begun, IsTaken, IsFitFor};
ghost use Rattle.frame_stages.specs.Looks.{FoundMark};
ghost use Rattle.frame_stages.specs.AppWorks.{work_of, is_done, merges_in, holding, with_load};
ghost use Rattle.frame_stages.specs.AppAnswers.{Ends, around, with_sent, with_back, IsBackFrom, Polled};
ghost use Rattle.frame_stages.specs.AppBacks.{TakesOnly};
ghost use Rattle.frame_stages.specs.Stays.{desk_place, end_place};

use crate::app_turns::{Came, look, make_edit, make_frame, make_view, stop};
use crate::script::{Next, Script};
use crate::taking_back::{Brought, Flight, new_load};
use frame_link::{SendEnd, TakeEnd};
use fx_math::Lens;
use pf_io::{Gate, NoMemory, Sink, Stage};
use pf_model::{AppLine, View};
use pf_scene::Scene;
use seat_lock::Desk;
use stage_parts::{Did, Load, Packet, StageError};

/// The parts of the application's stage: its section, the frames in flight, whether a Sync stands since the last Frame,
/// whether the End was sent, and the packet that it holds to send; how many merges the play has, the lens, the
/// background, and the number of channels.
#[derive(Drop)]
pub(crate) struct Application {
    pub(crate) script: Script,
    pub(crate) flight: Flight,
    pub(crate) synced: bool,
    pub(crate) ended: bool,
    pub(crate) held: Option<Packet>,
    pub(crate) merges: u32,
    pub(crate) lens: Lens,
    pub(crate) back: [u8; 3],
    pub(crate) channels: u8,
}

/// Whether a packet is the End.
fn is_end(packet: &Packet) -> bool
    ensures { result ≡ is_end packet.now }
{
    match packet {
        Packet::Frame(_) => false,
        Packet::End => true,
    }
}

impl Application {
    /// Sends a packet, or holds it where the link has no room, and answers whether it was sent.
    pub(crate) fn send<S: SendEnd<Packet>>(&mut self, packet: Packet, to: &mut S) -> bool
        requires bare { self.old.held ≡ None }
        requires going { self.old.ended ≡ false }
        ensures polled { (k : ℕ) (seen : Log) (told : Option SceneState) (ends : Ends) →
            Polled k (Ok (did_of result)) (holding packet (work_of self.old)) (work_of self.new)
            (around seen told (with_sent (S.sent to.old) (S.room to.old) (S.told_taken to.old) ends))
            (around seen told (with_sent (S.sent to.new) (S.room to.old) (S.told_taken to.old) ends)) }
        ensures to { end_place (S.send_at to.new) (S.room to.new) (S.told_taken to.new)
            ≡ end_place (S.send_at to.old) (S.room to.old) (S.told_taken to.old) }
    {
        let last = is_end(&packet);
        match to.push(packet) {
            Ok(()) => {
                self.ended = last;
                true
            }
            Err(packet) => {
                self.held = Some(packet);
                false
            }
        }
    }

    /// Passes a line that waits for so many merges, where as many are made.
    fn wait(&mut self, wanted: u32, merges: u32) -> Did
        requires next { next_step self.old.script.rest ≡ Some (app.Wait wanted) }
        requires bare { self.old.held ≡ None }
        requires going { self.old.ended ≡ false }
        requires waited { self.old.script.need ≤ merges }
        ensures polled { (k : ℕ) (seen : Log) (told : Option SceneState) (ends : Ends) → merges ≡ merges_in seen →
            Polled k (Ok result) (work_of self.old) (work_of self.new) (around seen told ends) (around seen told ends) }
        ensures on { is_over (Ok result) ≡ false }
    {
        if merges < wanted {
            return Did::NotYet;
        }
        self.script.pass_wait(wanted);
        Did::Did
    }

    /// Makes the edit of the next line.
    fn edit<D: Desk<Scene>>(&mut self, desk: &mut D) -> Result<Did, StageError>
        requires next { IsNext next.Edit (next_step self.old.script.rest) }
        requires bare { self.old.held ≡ None }
        requires going { self.old.ended ≡ false }
        requires waited { self.old.script.need ≤ merges_in (D.seen desk.old) }
        ensures polled { (ends : Ends) → Polled (D.number desk.old) result (work_of self.old) (work_of self.new)
            (around (D.seen desk.old) (D.told desk.old) ends) (around (D.seen desk.new) (D.told desk.new) ends) }
        ensures on { is_over result ≡ false }
        ensures desk { desk_place (D.number desk.new) (D.stands desk.new) ≡ desk_place (D.number desk.old) (D.stands desk.old) }
    {
        match make_edit(desk, &mut self.script) {
            Came::Entered => Ok(Did::Did),
            Came::NotNow => Ok(Did::NotYet),
            Came::NoMemory => {
                stop(desk);
                Err(StageError::NoMemory)
            }
        }
    }

    /// Sets the view of the next line.
    fn view<D: Desk<Scene>>(
        &mut self,
        channel: u8,
        view: View,
        desk: &mut D,
    ) -> Result<Did, StageError>
        requires next { next_step self.old.script.rest ≡ Some (app.View channel view) }
        requires bare { self.old.held ≡ None }
        requires going { self.old.ended ≡ false }
        requires waited { self.old.script.need ≤ merges_in (D.seen desk.old) }
        ensures polled { (ends : Ends) → Polled (D.number desk.old) result (work_of self.old) (work_of self.new)
            (around (D.seen desk.old) (D.told desk.old) ends) (around (D.seen desk.new) (D.told desk.new) ends) }
        ensures on { is_over result ≡ false }
        ensures desk { desk_place (D.number desk.new) (D.stands desk.new) ≡ desk_place (D.number desk.old) (D.stands desk.old) }
    {
        match make_view(desk, channel, view) {
            Came::Entered => {
                self.script.pass();
                Ok(Did::Did)
            }
            Came::NotNow => Ok(Did::NotYet),
            Came::NoMemory => {
                stop(desk);
                Err(StageError::NoMemory)
            }
        }
    }

    /// Notes that a Sync was made, for a line of its own or before a Frame.
    fn note_sync(&mut self, asked: bool)
        requires next { SyncIsNext asked self.old.synced (next_step self.old.script.rest) }
        ensures { self.new ≡ record self.old { script = synced_script asked self.old.script; synced = true } }
    {
        if asked {
            self.script.pass();
        }
        self.synced = true;
    }

    /// Makes a Sync, where no packet came back.
    fn sync_turn<D: Desk<Scene>>(&mut self, asked: bool, desk: &mut D) -> Result<Did, StageError>
        requires next { SyncIsNext asked self.old.synced (next_step self.old.script.rest) }
        requires bare { self.old.held ≡ None }
        requires going { self.old.ended ≡ false }
        requires whole { self.old.flight.fault ≡ None }
        requires waited { self.old.script.need ≤ merges_in (D.seen desk.old) }
        ensures polled { (ends : Ends) → IsBackFrom self.old.flight ends →
            Polled (D.number desk.old) result (work_of self.old) (work_of self.new)
            (around (D.seen desk.old) (D.told desk.old) ends) (around (D.seen desk.new) (D.told desk.new) ends) }
        ensures on { is_over result ≡ false }
        ensures desk { desk_place (D.number desk.new) (D.stands desk.new) ≡ desk_place (D.number desk.old) (D.stands desk.old) }
    {
        if !self.flight.has_room() {
            return Ok(Did::NotYet);
        }
        match self.flight.sync(desk) {
            Came::Entered => {
                self.note_sync(asked);
                Ok(Did::Did)
            }
            Came::NotNow => Ok(Did::NotYet),
            Came::NoMemory => {
                stop(desk);
                Err(StageError::NoMemory)
            }
        }
    }

    /// Takes a packet back and writes its picture, or makes a Sync where none came: for a line of its own, or before a
    /// Frame.
    fn sync<D: Desk<Scene>, T: TakeEnd<Packet>, O: Sink>(
        &mut self,
        asked: bool,
        desk: &mut D,
        from: &mut T,
        frames: &mut O,
    ) -> Result<Did, StageError>
        requires next { SyncIsNext asked self.old.synced (next_step self.old.script.rest) }
        requires bare { self.old.held ≡ None }
        requires going { self.old.ended ≡ false }
        requires whole { self.old.flight.fault ≡ None }
        requires waited { self.old.script.need ≤ merges_in (D.seen desk.old) }
        ensures polled { (ends : Ends) → Polled (D.number desk.old) result (work_of self.old) (work_of self.new)
            (around (D.seen desk.old) (D.told desk.old) (with_back (T.taken from.old) (T.told_sent from.old)
            (record { bytes = O.written frames.old; faults = O.faults frames.old; at_fault = O.at_fault frames.old }) ends))
            (around (D.seen desk.new) (D.told desk.new) (with_back (T.taken from.new) (T.told_sent from.old)
            (record { bytes = O.written frames.new; faults = O.faults frames.new; at_fault = O.at_fault frames.new }) ends)) }
        ensures on { is_over result ≡ false }
        ensures desk { desk_place (D.number desk.new) (D.stands desk.new) ≡ desk_place (D.number desk.old) (D.stands desk.old) }
        ensures from { end_place (T.take_at from.new) (T.take_room from.new) (T.told_sent from.new)
            ≡ end_place (T.take_at from.old) (T.take_room from.old) (T.told_sent from.old) }
    {
        match self.flight.bring_back(from, frames) {
            Brought::Nothing => self.sync_turn(asked, desk),
            Brought::Whole => Ok(Did::Did),
            Brought::Short => {
                stop(desk);
                Err(StageError::FrameFault)
            }
        }
    }

    /// Makes the closing Sync, where no packet came back, and holds the End.
    fn close_turn<D: Desk<Scene>>(&mut self, merges: u32, desk: &mut D) -> Result<Did, StageError>
        requires next { next_step self.old.script.rest ≡ None }
        requires bare { self.old.held ≡ None }
        requires going { self.old.ended ≡ false }
        requires whole { self.old.flight.fault ≡ None }
        requires waited { self.old.script.need ≤ merges_in (D.seen desk.old) }
        requires merges { merges ≡ merges_in (D.seen desk.old) }
        ensures polled { (ends : Ends) → IsBackFrom self.old.flight ends →
            Polled (D.number desk.old) result (work_of self.old) (work_of self.new)
            (around (D.seen desk.old) (D.told desk.old) ends) (around (D.seen desk.new) (D.told desk.new) ends) }
        ensures on { is_over result ≡ false }
        ensures desk { desk_place (D.number desk.new) (D.stands desk.new) ≡ desk_place (D.number desk.old) (D.stands desk.old) }
    {
        if self.flight.is_away() {
            return Ok(Did::NotYet);
        }
        if merges < self.merges {
            return Ok(Did::NotYet);
        }
        if !self.flight.has_room() {
            return Ok(Did::NotYet);
        }
        match self.flight.sync(desk) {
            Came::Entered => {
                self.held = Some(Packet::End);
                Ok(Did::Did)
            }
            Came::NotNow => Ok(Did::NotYet),
            Came::NoMemory => {
                stop(desk);
                Err(StageError::NoMemory)
            }
        }
    }

    /// Takes a packet back and writes its picture, or closes where none is away.
    fn close<D: Desk<Scene>, T: TakeEnd<Packet>, O: Sink>(
        &mut self,
        merges: u32,
        desk: &mut D,
        from: &mut T,
        frames: &mut O,
    ) -> Result<Did, StageError>
        requires next { next_step self.old.script.rest ≡ None }
        requires bare { self.old.held ≡ None }
        requires going { self.old.ended ≡ false }
        requires whole { self.old.flight.fault ≡ None }
        requires waited { self.old.script.need ≤ merges_in (D.seen desk.old) }
        requires merges { merges ≡ merges_in (D.seen desk.old) }
        ensures polled { (ends : Ends) → Polled (D.number desk.old) result (work_of self.old) (work_of self.new)
            (around (D.seen desk.old) (D.told desk.old) (with_back (T.taken from.old) (T.told_sent from.old)
            (record { bytes = O.written frames.old; faults = O.faults frames.old; at_fault = O.at_fault frames.old }) ends))
            (around (D.seen desk.new) (D.told desk.new) (with_back (T.taken from.new) (T.told_sent from.old)
            (record { bytes = O.written frames.new; faults = O.faults frames.new; at_fault = O.at_fault frames.new }) ends)) }
        ensures on { is_over result ≡ false }
        ensures desk { desk_place (D.number desk.new) (D.stands desk.new) ≡ desk_place (D.number desk.old) (D.stands desk.old) }
        ensures from { end_place (T.take_at from.new) (T.take_room from.new) (T.told_sent from.new)
            ≡ end_place (T.take_at from.old) (T.take_room from.old) (T.told_sent from.old) }
    {
        match self.flight.bring_back(from, frames) {
            Brought::Nothing => self.close_turn(merges, desk),
            Brought::Whole => Ok(Did::Did),
            Brought::Short => {
                stop(desk);
                Err(StageError::FrameFault)
            }
        }
    }

    /// Holds the load of a frame that was begun.
    fn begin(&mut self, load: Load)
        requires next { next_step self.old.script.rest ≡ Some app.Frame }
        requires taken { IsTaken self.old.flight }
        ensures { self.new ≡ record self.old {
          script = passed self.old.script;
          flight = begun self.old.flight;
          synced = false;
          held = Some (packet.Frame load);
        } }
    {
        self.script.pass();
        self.flight.begin();
        self.synced = false;
        self.held = Some(Packet::Frame(load));
    }

    /// Begins a frame with a load of the lens, which was taken out of hand.
    fn frame_with<D: Desk<Scene>>(
        &mut self,
        mut load: Load,
        desk: &mut D,
    ) -> Result<Did, StageError>
        requires next { next_step self.old.script.rest ≡ Some app.Frame }
        requires synced { self.old.synced ≡ true }
        requires bare { self.old.held ≡ None }
        requires going { self.old.ended ≡ false }
        requires waited { self.old.script.need ≤ merges_in (D.seen desk.old) }
        requires taken { IsTaken self.old.flight }
        requires ready { IsFitFor self.old.lens self.old.channels load }
        ensures polled { (ends : Ends) → Polled (D.number desk.old) result (with_load load (work_of self.old)) (work_of self.new)
            (around (D.seen desk.old) (D.told desk.old) ends) (around (D.seen desk.new) (D.told desk.new) ends) }
        ensures on { is_over result ≡ false }
        ensures desk { desk_place (D.number desk.new) (D.stands desk.new) ≡ desk_place (D.number desk.old) (D.stands desk.old) }
    {
        let alloc = self.flight.allocator();
        match make_frame(alloc, desk, self.flight.ahead(), &mut load) {
            Came::Entered => {
                self.begin(load);
                Ok(Did::Did)
            }
            Came::NotNow => {
                self.flight.put_back(load);
                Ok(Did::NotYet)
            }
            Came::NoMemory => {
                self.flight.put_back(load);
                stop(desk);
                Err(StageError::NoMemory)
            }
        }
    }

    /// Begins a frame with a new load, in place of one that is not for the lens.
    fn frame_anew<D: Desk<Scene>>(&mut self, old: Load, desk: &mut D) -> Result<Did, StageError>
        requires next { next_step self.old.script.rest ≡ Some app.Frame }
        requires synced { self.old.synced ≡ true }
        requires bare { self.old.held ≡ None }
        requires going { self.old.ended ≡ false }
        requires waited { self.old.script.need ≤ merges_in (D.seen desk.old) }
        requires taken { IsTaken self.old.flight }
        requires first { HaveFirst old.lists }
        ensures polled { (ends : Ends) → Polled (D.number desk.old) result (with_load old (work_of self.old)) (work_of self.new)
            (around (D.seen desk.old) (D.told desk.old) ends) (around (D.seen desk.new) (D.told desk.new) ends) }
        ensures on { is_over result ≡ false }
        ensures desk { desk_place (D.number desk.new) (D.stands desk.new) ≡ desk_place (D.number desk.old) (D.stands desk.old) }
    {
        let alloc = self.flight.allocator();
        let Ok(mut fresh) = new_load(alloc, &self.lens, self.channels) else {
            self.flight.put_back(old);
            stop(desk);
            return Err(StageError::NoMemory);
        };
        match make_frame(alloc, desk, self.flight.ahead(), &mut fresh) {
            Came::Entered => {
                self.begin(fresh);
                Ok(Did::Did)
            }
            Came::NotNow => {
                self.flight.put_back(old);
                Ok(Did::NotYet)
            }
            Came::NoMemory => {
                self.flight.put_back(old);
                stop(desk);
                Err(StageError::NoMemory)
            }
        }
    }

    /// Begins the frame of the next line behind a Sync. All memory of the frame is taken before. It waits where no load is
    /// in hand.
    fn frame<D: Desk<Scene>, G: Gate>(&mut self, desk: &mut D, gate: &G) -> Result<Did, StageError>
        requires next { next_step self.old.script.rest ≡ Some app.Frame }
        requires synced { self.old.synced ≡ true }
        requires bare { self.old.held ≡ None }
        requires going { self.old.ended ≡ false }
        requires waited { self.old.script.need ≤ merges_in (D.seen desk.old) }
        requires lines { self.old.script.at < most_lines }
        requires few { self.old.flight.frames ≤ self.old.script.at }
        ensures polled { (ends : Ends) → Polled (D.number desk.old) result (work_of self.old) (work_of self.new)
            (around (D.seen desk.old) (D.told desk.old) ends) (around (D.seen desk.new) (D.told desk.new) ends) }
        ensures on { is_over result ≡ false }
        ensures desk { desk_place (D.number desk.new) (D.stands desk.new) ≡ desk_place (D.number desk.old) (D.stands desk.old) }
    {
        let Ok(()) = self.flight.make_room() else {
            stop(desk);
            return Err(StageError::NoMemory);
        };
        match self.flight.take_load() {
            None => Ok(Did::NotYet),
            Some(load) => {
                gate.pass(Stage::App, self.flight.frames() + 1);
                if load.is_for(&self.lens, self.channels) {
                    self.frame_with(load, desk)
                } else {
                    self.frame_anew(load, desk)
                }
            }
        }
    }

    /// Takes the next step of the section, where so many merges are made.
    fn step<D: Desk<Scene>, T: TakeEnd<Packet>, O: Sink, G: Gate>(
        &mut self,
        merges: u32,
        desk: &mut D,
        from: &mut T,
        frames: &mut O,
        gate: &G,
    ) -> Result<Did, StageError>
        requires bare { self.old.held ≡ None }
        requires going { self.old.ended ≡ false }
        requires whole { self.old.flight.fault ≡ None }
        requires waited { self.old.script.need ≤ merges_in (D.seen desk.old) }
        requires merges { merges ≡ merges_in (D.seen desk.old) }
        requires few { self.old.flight.frames ≤ self.old.script.at }
        ensures polled { (ends : Ends) → Polled (D.number desk.old) result (work_of self.old) (work_of self.new)
            (around (D.seen desk.old) (D.told desk.old) (with_back (T.taken from.old) (T.told_sent from.old)
            (record { bytes = O.written frames.old; faults = O.faults frames.old; at_fault = O.at_fault frames.old }) ends))
            (around (D.seen desk.new) (D.told desk.new) (with_back (T.taken from.new) (T.told_sent from.old)
            (record { bytes = O.written frames.new; faults = O.faults frames.new; at_fault = O.at_fault frames.new }) ends)) }
        ensures on { is_over result ≡ false }
        ensures desk { desk_place (D.number desk.new) (D.stands desk.new) ≡ desk_place (D.number desk.old) (D.stands desk.old) }
        ensures from { end_place (T.take_at from.new) (T.take_room from.new) (T.told_sent from.new)
            ≡ end_place (T.take_at from.old) (T.take_room from.old) (T.told_sent from.old) }
    {
        match self.script.next() {
            Next::Edit => self.edit(desk),
            Next::View(channel, view) => self.view(channel, view, desk),
            Next::Sync => self.sync(true, desk, from, frames),
            Next::Frame => {
                if self.synced {
                    self.frame(desk, gate)
                } else {
                    self.sync(false, desk, from, frames)
                }
            }
            Next::Wait(wanted) => Ok(self.wait(wanted, merges)),
            Next::Close => self.close(merges, desk, from, frames),
        }
    }

    /// Takes the next step, once as many merges are made as were waited for.
    fn go_on<D: Desk<Scene>, T: TakeEnd<Packet>, O: Sink, G: Gate>(
        &mut self,
        merges: u32,
        desk: &mut D,
        from: &mut T,
        frames: &mut O,
        gate: &G,
    ) -> Result<Did, StageError>
        requires bare { self.old.held ≡ None }
        requires going { self.old.ended ≡ false }
        requires whole { self.old.flight.fault ≡ None }
        requires merges { merges ≡ merges_in (D.seen desk.old) }
        requires few { self.old.flight.frames ≤ self.old.script.at }
        ensures polled { (ends : Ends) → Polled (D.number desk.old) result (work_of self.old) (work_of self.new)
            (around (D.seen desk.old) (D.told desk.old) (with_back (T.taken from.old) (T.told_sent from.old)
            (record { bytes = O.written frames.old; faults = O.faults frames.old; at_fault = O.at_fault frames.old }) ends))
            (around (D.seen desk.new) (D.told desk.new) (with_back (T.taken from.new) (T.told_sent from.old)
            (record { bytes = O.written frames.new; faults = O.faults frames.new; at_fault = O.at_fault frames.new }) ends)) }
        ensures on { is_over result ≡ false }
        ensures desk { desk_place (D.number desk.new) (D.stands desk.new) ≡ desk_place (D.number desk.old) (D.stands desk.old) }
        ensures from { end_place (T.take_at from.new) (T.take_room from.new) (T.told_sent from.new)
            ≡ end_place (T.take_at from.old) (T.take_room from.old) (T.told_sent from.old) }
    {
        if merges < self.script.need() {
            return Ok(Did::NotYet);
        }
        self.step(merges, desk, from, frames, gate)
    }

    /// Sends the packet held, or takes the next step once as many merges are made as were waited for.
    fn go<D: Desk<Scene>, S: SendEnd<Packet>, T: TakeEnd<Packet>, O: Sink, G: Gate>(
        &mut self,
        merges: u32,
        desk: &mut D,
        to: &mut S,
        from: &mut T,
        frames: &mut O,
        gate: &G,
    ) -> Result<Did, StageError>
        requires going { self.old.ended ≡ false }
        requires whole { self.old.flight.fault ≡ None }
        requires merges { merges ≡ merges_in (D.seen desk.old) }
        requires few { self.old.flight.frames ≤ self.old.script.at }
        ensures polled { Polled (D.number desk.old) result (work_of self.old) (work_of self.new)
            (around (D.seen desk.old) (D.told desk.old) (record {
              taken = T.taken from.old;
              sent = S.sent to.old;
              told_sent = T.told_sent from.old;
              told_taken = S.told_taken to.old;
              room = S.room to.old;
              sink = record { bytes = O.written frames.old; faults = O.faults frames.old; at_fault = O.at_fault frames.old };
            }))
            (around (D.seen desk.new) (D.told desk.new) (record {
              taken = T.taken from.new;
              sent = S.sent to.new;
              told_sent = T.told_sent from.old;
              told_taken = S.told_taken to.old;
              room = S.room to.old;
              sink = record { bytes = O.written frames.new; faults = O.faults frames.new; at_fault = O.at_fault frames.new };
            })) }
        ensures on { is_over result ≡ false }
        ensures desk { desk_place (D.number desk.new) (D.stands desk.new) ≡ desk_place (D.number desk.old) (D.stands desk.old) }
        ensures from { end_place (T.take_at from.new) (T.take_room from.new) (T.told_sent from.new)
            ≡ end_place (T.take_at from.old) (T.take_room from.old) (T.told_sent from.old) }
        ensures to { end_place (S.send_at to.new) (S.room to.new) (S.told_taken to.new)
            ≡ end_place (S.send_at to.old) (S.room to.old) (S.told_taken to.old) }
    {
        match self.held.take() {
            Some(packet) => Ok(Did::of(self.send(packet, to))),
            None => self.go_on(merges, desk, from, frames, gate),
        }
    }

    /// Whether it has closed: the End is held or was sent.
    pub(crate) fn has_closed(&self) -> bool
        ensures { result ≡ (work_of self.now).state.closed }
    {
        self.ended || self.held.as_ref().is_some_and(is_end)
    }

    /// Whether it is over: the End was sent, or a fault cut a picture short.
    fn is_done(&self) -> bool
        ensures value { result ≡ is_done (work_of self.now).state }
        ensures going { result ≡ false → self.now.ended ≡ false }
        ensures whole { result ≡ false → self.now.flight.fault ≡ None }
    {
        if self.ended {
            return true;
        }
        self.flight.is_cut()
    }

    /// Whether a packet may be taken back: none is held to send, and it is not over.
    pub(crate) fn can_take_back(&self) -> bool
        ensures bare { result ≡ true → self.now.held ≡ None }
        ensures going { result ≡ true → is_done (work_of self.now).state ≡ false }
        ensures whole { result ≡ true → self.now.flight.fault ≡ None }
        ensures none { result ≡ false → is_done (work_of self.now).state ≡ false → self.now.held ≡ None → ⊥ }
    {
        if self.is_done() {
            return false;
        }
        self.held.is_none()
    }

    /// Whether only a line more, or the close, is left to do: no line is left, no packet is held, and it is not over.
    pub(crate) fn wants_line(&self) -> bool
        ensures bare { result ≡ true → self.now.held ≡ None }
        ensures going { result ≡ true → is_done (work_of self.now).state ≡ false }
        ensures all { result ≡ true → self.now.script.rest ≡ [] }
        ensures none { result ≡ false → is_done (work_of self.now).state ≡ false → self.now.held ≡ None
            → 0 < length self.now.script.rest }
    {
        if self.can_take_back() {
            return self.script.is_empty();
        }
        false
    }

    /// Puts a line behind those of its section.
    pub(crate) fn give(&mut self, line: AppLine) -> Result<(), NoMemory>
        requires room { self.old.script.at + length self.old.script.rest < most_lines }
        ensures given { OnOk result (self.new ≡ record self.old {
          script = record self.old.script { rest = self.old.script.rest ++ line ∷ [] };
        }) }
        ensures same { OnErr result (self.new ≡ self.old) }
    {
        self.script.give(line)
    }

    /// Takes a packet back, where a frame is away and one came, and writes its picture, wherever in its section it stands.
    pub(crate) fn take_back<D: Desk<Scene>, T: TakeEnd<Packet>, O: Sink>(
        &mut self,
        desk: &mut D,
        from: &mut T,
        frames: &mut O,
    ) -> Result<Did, StageError>
        requires whole { self.old.flight.fault ≡ None }
        ensures back { (ends : Ends) → TakesOnly (D.number desk.old) result (work_of self.old) (work_of self.new)
            (around (D.seen desk.old) (D.told desk.old) (with_back (T.taken from.old) (T.told_sent from.old)
            (record { bytes = O.written frames.old; faults = O.faults frames.old; at_fault = O.at_fault frames.old }) ends))
            (around (D.seen desk.new) (D.told desk.new) (with_back (T.taken from.new) (T.told_sent from.old)
            (record { bytes = O.written frames.new; faults = O.faults frames.new; at_fault = O.at_fault frames.new }) ends)) }
        ensures desk { desk_place (D.number desk.new) (D.stands desk.new) ≡ desk_place (D.number desk.old) (D.stands desk.old) }
        ensures from { end_place (T.take_at from.new) (T.take_room from.new) (T.told_sent from.new)
            ≡ end_place (T.take_at from.old) (T.take_room from.old) (T.told_sent from.old) }
    {
        match self.flight.bring_back(from, frames) {
            Brought::Nothing => Ok(Did::NotYet),
            Brought::Whole => Ok(Did::Did),
            Brought::Short => {
                stop(desk);
                Err(StageError::FrameFault)
            }
        }
    }

    /// One step, after a look at the scene.
    pub(crate) fn poll<D: Desk<Scene>, S: SendEnd<Packet>, T: TakeEnd<Packet>, O: Sink, G: Gate>(
        &mut self,
        desk: &mut D,
        to: &mut S,
        from: &mut T,
        frames: &mut O,
        gate: &G,
    ) -> Result<Did, StageError>
        requires few { self.old.flight.frames ≤ self.old.script.at }
        ensures polled { Polled (D.number desk.old) result (work_of self.old) (work_of self.new)
            (around (D.seen desk.old) (D.told desk.old) (record {
              taken = T.taken from.old;
              sent = S.sent to.old;
              told_sent = T.told_sent from.old;
              told_taken = S.told_taken to.old;
              room = S.room to.old;
              sink = record { bytes = O.written frames.old; faults = O.faults frames.old; at_fault = O.at_fault frames.old };
            }))
            (around (D.seen desk.new) (D.told desk.new) (record {
              taken = T.taken from.new;
              sent = S.sent to.new;
              told_sent = T.told_sent from.old;
              told_taken = S.told_taken to.old;
              room = S.room to.old;
              sink = record { bytes = O.written frames.new; faults = O.faults frames.new; at_fault = O.at_fault frames.new };
            })) }
        ensures done { is_done (work_of self.old).state ≡ true → result ≡ Ok did.Over }
        ensures looked { is_done (work_of self.old).state ≡ false → FoundMark (D.number desk.old) (D.seen desk.old) (D.told desk.old)
            (is_over result) }
        ensures desk { desk_place (D.number desk.new) (D.stands desk.new) ≡ desk_place (D.number desk.old) (D.stands desk.old) }
        ensures from { end_place (T.take_at from.new) (T.take_room from.new) (T.told_sent from.new)
            ≡ end_place (T.take_at from.old) (T.take_room from.old) (T.told_sent from.old) }
        ensures to { end_place (S.send_at to.new) (S.room to.new) (S.told_taken to.new)
            ≡ end_place (S.send_at to.old) (S.room to.old) (S.told_taken to.old) }
    {
        if self.is_done() {
            return Ok(Did::Over);
        }
        let sight = look(desk);
        if sight.stopped {
            return Ok(Did::Over);
        }
        self.go(sight.merges, desk, to, from, frames, gate)
    }
}
