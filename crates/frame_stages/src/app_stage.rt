//! The application.
ghost use Rattle.std.specs.Prelude.{◌≡◌, ◌+◌, ◌≤◌, ◌<◌, true, false, ℕ, List, [], ◌∷◌, ◌++◌, length, drop, None, Some, Ok, IfOk, OnOk, OnErr};
ghost use Rattle.stage_parts.specs.declared.answers.Did.TheVariants as did;
ghost use Rattle.stage_parts.specs.Answers.{is_over};
ghost use Rattle.stage_parts.specs.Loads.{Each};
ghost use Rattle.frame_stages.specs.Flights.{IsFitFor, TellsNext};
ghost use Rattle.frame_stages.specs.Scripts.{most_lines};
ghost use Rattle.pf_history.specs.Logs.{Log};
ghost use Rattle.stage_parts.specs.declared.packets.Packet.{Packet};
ghost use Rattle.stage_parts.specs.States.{Setup};
ghost use Rattle.stage_parts.specs.Parts.{AppKeeps};
ghost use Rattle.stage_parts.specs.Grows.{with_lines};
ghost use Rattle.frame_stages.specs.AppWorks.{opening_work, more_work, IsGiven, is_done};
ghost use Rattle.frame_stages.specs.Looks.{FoundMark};
ghost use Rattle.frame_stages.specs.AppAnswers.{Ends, around, with_back, Polled};
ghost use Rattle.frame_stages.specs.AppBacks.{TakesOnly};
ghost use Rattle.frame_stages.specs.Stays.{desk_place, end_place};

use crate::application::Application;
use crate::script::Script;
use crate::taking_back::Flight;
use draw_list::Stats;
use frame_link::{SendEnd, TakeEnd};
use fx_math::Lens;
use pf_io::{Gate, NoMemory, Sink};
use pf_model::AppLine;
use pf_scene::Scene;
use seat_lock::Desk;
use stage_parts::{Did, Packet, StageError};
use std::alloc::Global;
use std::marker::Model;

/// The application: it goes through its section of the play, begins the frames, takes them back from the draw, and
/// writes their pictures.
///
/// Contracts see the lines that are left, what else it is given, and its state.
pub struct AppStage {
    parts: Application,
}

/// Written out, so that to drop one is a single call.
impl Drop for AppStage {
    fn drop(self) {
        let Self { parts: _ } = self;
    }
}

impl Model for AppStage {
    ghost use Rattle.frame_stages.specs.AppWorks.{AppWork, PassesEnough, work_of};

    ghost Value = { AppWork };

    ghost view = { λ a. work_of a.parts };

    ghost invariant = { λ a. PassesEnough (work_of a.parts).state };
}

impl AppStage {
    /// Returns the application of the section `app` of a play with `merges` merges, which has not begun. The section
    /// has at most 2,147,483,648 lines, the background is red, green and blue, and `ahead` frames may be in flight.
    ///
    /// Returns `Err(NoMemory)` if memory runs out.
    pub fn new(
        alloc: Global,
        app: Vec<AppLine>,
        merges: u32,
        lens: Lens,
        back: [u8; 3],
        ahead: u8,
        channels: u8,
    ) -> Result<AppStage, NoMemory>
        requires few { length app.items ≤ most_lines }
        ensures opens { IfOk result (λ a. a ≡ opening_work (record {
          lines = app.items;
          merges = merges;
          lens = lens;
          back = back;
          ahead = ahead;
          channels = channels;
        }) a.state.spare) }
        ensures loads { IfOk result (λ a. length a.state.spare ≡ ahead) }
        ensures fit { IfOk result (λ a. Each (IsFitFor lens channels) a.state.spare) }
    {
        let flight = Flight::new(alloc, &lens, ahead, channels)?;
        Ok(AppStage {
            parts: Application {
                script: Script::new(app),
                flight,
                synced: false,
                ended: false,
                held: None,
                merges,
                lens,
                back,
                channels,
            },
        })
    }

    /// The numbers of the frames that came back and were not told, in order. Where none were told, these are all.
    ///
    /// Beside these, memory holds the numbers of at most as many frames that were told. Room once made for numbers
    /// stays.
    pub fn stats(&self) -> &[Stats]
        ensures { result.now ≡ drop self.now.told self.now.state.stats }
    {
        self.parts.flight.stats()
    }

    /// The number of frames that came back, whether their numbers were told or not. It is kept, and not counted anew.
    pub fn frames_back(&self) -> usize
        ensures { result ≡ length self.now.state.stats }
    {
        self.parts.flight.frames_back()
    }

    /// Tells the numbers of the oldest frame that came back and was not told: hands them out. Returns None where all
    /// were told.
    ///
    /// Numbers that were told leave memory once they are more than half of those held. So a call takes constant time on
    /// average.
    pub fn take_stats(&mut self) -> Option<Stats>
        ensures tells { TellsNext self.old.state.stats self.old.told self.new.told result }
        ensures same { self.new ≡ record self.old { told = self.new.told } }
    {
        self.parts.flight.take_stats()
    }

    /// The numbers of the frames that came back and were not told, in order, for who is done with the stage. Where none
    /// were told, these are all.
    pub fn into_stats(self) -> Vec<Stats>
        ensures untold { result.items ≡ drop self.told self.state.stats }
    {
        let Self { parts } = self;
        parts.flight.into_stats()
    }

    /// Whether it has closed: the closing Sync was made, and nothing more is asked of it but to send the End.
    pub fn has_closed(&self) -> bool
        ensures { result ≡ self.now.state.closed }
    {
        self.parts.has_closed()
    }

    /// Whether it has ended: the End was sent.
    pub fn has_ended(&self) -> bool
        ensures { result ≡ self.now.state.ended }
    {
        self.parts.ended
    }

    /// How many merges it waits for before it closes.
    pub fn merges(&self) -> u32
        ensures { result ≡ self.now.merges }
    {
        self.parts.merges
    }

    /// Whether one line more may be given.
    pub fn has_room(&self) -> bool
        ensures yes { result ≡ true → self.now.state.at + length self.now.rest < most_lines }
        ensures no { result ≡ false → most_lines ≤ self.now.state.at + length self.now.rest }
    {
        self.parts.script.has_room()
    }

    /// Whether a packet may be taken back: none is held to send, and it is not over.
    pub fn can_take_back(&self) -> bool
        ensures bare { result ≡ true → self.now.state.held ≡ None }
        ensures going { result ≡ true → is_done self.now.state ≡ false }
        ensures whole { result ≡ true → self.now.state.fault ≡ None }
        ensures none { result ≡ false → is_done self.now.state ≡ false → self.now.state.held ≡ None → ⊥ }
    {
        self.parts.can_take_back()
    }

    /// Whether only a line more, or the close, is left to do: no line is left, no packet is held, and it is not over. A poll
    /// would then take a packet back or close.
    pub fn wants_line(&self) -> bool
        ensures bare { result ≡ true → self.now.state.held ≡ None }
        ensures going { result ≡ true → is_done self.now.state ≡ false }
        ensures all { result ≡ true → self.now.rest ≡ [] }
        ensures none { result ≡ false → is_done self.now.state ≡ false → self.now.state.held ≡ None
            → 0 < length self.now.rest }
    {
        self.parts.wants_line()
    }

    /// Puts a line behind those of its section, until it closes. Returns an error, and keeps its lines, where there is no
    /// memory.
    pub fn give(&mut self, line: AppLine) -> Result<(), NoMemory>
        requires room { self.old.state.at + length self.old.rest < most_lines }
        requires going { self.old.state.closed ≡ false }
        ensures state { OnOk result (self.new ≡ more_work (line ∷ []) self.old.merges self.old) }

        // It was given the longer section, of which it keeps its part.
        ensures given { OnOk result ((g : Setup) → IsGiven g self.old → IsGiven (with_lines g (line ∷ []) g.merges) self.new) }
        ensures part { OnOk result ((g : Setup) (seat : ℕ) (log : Log) (taken sent : List Packet) (stream : List ℕ)
            → IsGiven g self.old → AppKeeps g seat self.old.state log taken sent stream
            → AppKeeps (with_lines g (line ∷ []) g.merges) seat self.new.state log taken sent stream) }
        ensures unchanged { OnErr result (self.new ≡ self.old) }
    {
        self.parts.give(line)
    }

    /// Notes how many merges the play has, where lines were given to the database process, before it closes.
    pub fn note_merges(&mut self, merges: u32)
        requires going { self.old.state.closed ≡ false }
        ensures state { self.new ≡ record self.old { merges = merges } }

        // It was given a play of so many merges, of which it keeps its part.
        ensures given { (g : Setup) → IsGiven g self.old → IsGiven (record g { merges = merges }) self.new }
        ensures part { (g : Setup) (seat : ℕ) (log : Log) (taken sent : List Packet) (stream : List ℕ)
            → IsGiven g self.old → AppKeeps g seat self.old.state log taken sent stream
            → AppKeeps (record g { merges = merges }) seat self.new.state log taken sent stream }
    {
        self.parts.merges = merges;
    }

    /// Takes a packet back, if a frame is away and one came, and writes its picture, wherever in its section it stands.
    /// Returns `Did` if it took one, and else `NotYet`.
    ///
    /// Returns `Err(StageError::FrameFault)` if a fault of the sink cut the picture short, and no other error. Then the
    /// packet is taken, and the stop mark is set.
    pub fn take_back<D: Desk<Scene>, T: TakeEnd<Packet>, O: Sink>(
        &mut self,
        desk: &mut D,
        from_draw: &mut T,
        frames: &mut O,
    ) -> Result<Did, StageError>
        requires whole { self.old.state.fault ≡ None }
        // It keeps its part, makes no turn but to set the stop mark at a fault, and this is what its answer says.
        ensures back { (ends : Ends) → TakesOnly (D.number desk.old) result self.old self.new
            (around (D.seen desk.old) (D.told desk.old) (with_back (T.taken from_draw.old) (T.told_sent from_draw.old)
            (record { bytes = O.written frames.old; faults = O.faults frames.old; at_fault = O.at_fault frames.old }) ends))
            (around (D.seen desk.new) (D.told desk.new) (with_back (T.taken from_draw.new) (T.told_sent from_draw.old)
            (record { bytes = O.written frames.new; faults = O.faults frames.new; at_fault = O.at_fault frames.new }) ends)) }

        // It leaves all else of the desk and the link.
        ensures desk { desk_place (D.number desk.new) (D.stands desk.new) ≡ desk_place (D.number desk.old) (D.stands desk.old) }
        ensures from_draw { end_place (T.take_at from_draw.new) (T.take_room from_draw.new) (T.told_sent from_draw.new)
            ≡ end_place (T.take_at from_draw.old) (T.take_room from_draw.old) (T.told_sent from_draw.old) }
    {
        self.parts.take_back(desk, from_draw, frames)
    }

    /// One step: sends the packet that it holds, or takes the next step of its section. It takes a packet back and
    /// writes its picture before a Sync. Returns `Did` if it did something, `NotYet` if it has to wait, and `Over` if
    /// it is over or finds the stop mark.
    ///
    /// Returns `Err(StageError::FrameFault)` if a fault of the sink cut a picture short; the packet is then taken.
    /// Returns `Err(StageError::NoMemory)` if memory runs out for its next step, which is then left. At either it makes
    /// no entry, and sets the stop mark.
    pub fn poll<D: Desk<Scene>, S: SendEnd<Packet>, T: TakeEnd<Packet>, O: Sink, G: Gate>(
        &mut self,
        desk: &mut D,
        to_cull: &mut S,
        from_draw: &mut T,
        frames: &mut O,
        gate: &G,
    ) -> Result<Did, StageError>
        // It keeps its part, adds at most one entry, which is its own, and this is what its answer says.
        ensures polled { Polled (D.number desk.old) result self.old self.new
            (around (D.seen desk.old) (D.told desk.old) (record {
              taken = T.taken from_draw.old;
              sent = S.sent to_cull.old;
              told_sent = T.told_sent from_draw.old;
              told_taken = S.told_taken to_cull.old;
              room = S.room to_cull.old;
              sink = record { bytes = O.written frames.old; faults = O.faults frames.old; at_fault = O.at_fault frames.old };
            }))
            (around (D.seen desk.new) (D.told desk.new) (record {
              taken = T.taken from_draw.new;
              sent = S.sent to_cull.new;
              told_sent = T.told_sent from_draw.old;
              told_taken = S.told_taken to_cull.old;
              room = S.room to_cull.old;
              sink = record { bytes = O.written frames.new; faults = O.faults frames.new; at_fault = O.at_fault frames.new };
            })) }

        // It is over exactly where it was done, or this look found the stop mark.
        ensures done { is_done self.old.state ≡ true → result ≡ Ok did.Over }
        ensures looked { is_done self.old.state ≡ false → FoundMark (D.number desk.old) (D.seen desk.old) (D.told desk.old)
            (is_over result) }

        // It leaves all else of the desk and the links.
        ensures desk { desk_place (D.number desk.new) (D.stands desk.new) ≡ desk_place (D.number desk.old) (D.stands desk.old) }
        ensures from_draw { end_place (T.take_at from_draw.new) (T.take_room from_draw.new) (T.told_sent from_draw.new)
            ≡ end_place (T.take_at from_draw.old) (T.take_room from_draw.old) (T.told_sent from_draw.old) }
        ensures to_cull { end_place (S.send_at to_cull.new) (S.room to_cull.new) (S.told_taken to_cull.new)
            ≡ end_place (S.send_at to_cull.old) (S.room to_cull.old) (S.told_taken to_cull.old) }
    {
        self.parts.poll(desk, to_cull, from_draw, frames, gate)
    }
}
