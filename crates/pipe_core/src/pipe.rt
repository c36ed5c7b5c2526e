//! The pipe on one thread.
ghost use Rattle.std.specs.Prelude.{◌≡◌, ℕ, ◌+◌, ◌<◌, ◌≤◌, true, false, [], ◌∷◌, length, drop, None, Some, Err, IfOk, OnOk, OnErr, IfErr};
ghost use Rattle.std.specs.List.{list_all};
ghost use Rattle.pf_io.specs.Causes.{Rose, Calm};
ghost use Rattle.play_format.specs.Plays.{Script, base_fits, open_after};
ghost use Rattle.pf_scene.specs.Scenes.{IsSmall, TellsOne};
ghost use Rattle.stage_parts.specs.declared.answers.StageError.TheVariants as error;
ghost use Rattle.pipe_plays.specs.Plays.{CanRun};
ghost use Rattle.pipe_plays.specs.Played.{StaysWhole, Blames};
ghost use Rattle.pipe_core.specs.Runs.{Ran};
ghost use Rattle.pipe_core.specs.Pipes.{core_of, PipeKeeps, Lifted, IsWritten, AppLifted, FailsAt, link_work, opening_link, opening_scene};
ghost use Rattle.pipe_core.specs.declared.events.Event.TheVariants as polled;
ghost use Rattle.pipe_core.specs.Settling.{NoneIsBack, TurnsGo};
ghost use Rattle.pipe_core.specs.LiveRuns.{takes_line, takes_block};
ghost use Rattle.pipe_core.specs.Makes.{with_app, with_dbase, given_line, IsGivenBlock};
ghost use Rattle.frame_stages.specs.AppWorks.{is_done};
ghost use Rattle.frame_stages.specs.Flights.{TellsNext};
ghost use Rattle.frame_stages.specs.Scripts.{most_lines};

use crate::events::Event;
use crate::legal::LegalGlance;
use crate::live::has_done;
use crate::parts::all_made;
use draw_list::Stats;
use frame_link::ListLink;
use frame_stages::{AppStage, CullStage, DbaseStage, Did, DrawStage, Packet, StageError};
use pf_history::{Entry, History};
use pf_io::{FreeGate, Gate, NoMemory, Sink};
use pf_model::{AppLine, BaseLine};
use pf_scene::{Scene, TellAct};
use pipe_plays::count_merges;
use play_format::Play;
use seat_lock::{Desk, PlainDesk};
use std::alloc::Global;
use std::marker::Model;
use std::thread::Threads;

/// The four stages over links and a scene of one thread. An event is one whole poll of one of them.
///
/// Contracts see the stages, the scene and the links.
pub struct Pipe {
    app: AppStage,
    cull: CullStage,
    draw: DrawStage,
    dbase: DbaseStage,
    desk: PlainDesk<Scene>,
    to_cull: ListLink<Packet>,
    to_draw: ListLink<Packet>,
    back: ListLink<Packet>,
}

/// Written out, so that to drop one is a single call.
impl Drop for Pipe {
    fn drop(self) {
        let Self {
            app: _,
            cull: _,
            draw: _,
            dbase: _,
            desk: _,
            to_cull: _,
            to_draw: _,
            back: _,
        } = self;
    }
}

impl Model for Pipe {
    ghost use Rattle.pipe_core.specs.Pipes.{PipeWork, link_work};

    ghost Value = { PipeWork };

    ghost view = { λ p. record {
      app = p.app;
      cull = p.cull;
      draw = p.draw;
      dbase = p.dbase;
      scene = p.desk;
      a = link_work p.to_cull;
      b = link_work p.to_draw;
      c = link_work p.back;
    } };
}

/// A link, through which nothing went, with room for one packet more than so many frames.
fn new_link(alloc: Global, ahead: u8) -> Result<ListLink<Packet>, NoMemory>
    ensures { IfOk result (λ l. link_work l ≡ opening_link ahead) }
{
    let room = usize::from(ahead) + 1;
    ListLink::new(alloc, room)
}

/// The scene before the first command, at the desk of one thread.
fn new_desk(alloc: Global, ahead: u8, channels: u8) -> Result<PlainDesk<Scene>, NoMemory>
    requires ahead { IsSmall ahead }
    requires channels { IsSmall channels }
    ensures { IfOk result (λ scene. scene ≡ opening_scene ahead channels) }
{
    let scene = Scene::new(alloc, ahead, channels)?;
    Ok(PlainDesk::new(scene))
}

/// Tells the oldest entry that was not told.
fn take_oldest(desk: &mut PlainDesk<Scene>) -> Option<(u32, Entry)>
    ensures { TellsOne desk.old desk.new result }
{
    let told = desk.value().told();
    desk.turn(TellAct { told })
}

impl Pipe {
    /// Returns the pipe of a play before its first event, where `ahead` frames may be in flight, 1 to 4. The stop mark
    /// is not set. Returns `Err(NoMemory)` if memory runs out.
    pub fn new(alloc: Global, play: Play, ahead: u8) -> Result<Pipe, NoMemory>
        requires ahead { IsSmall ahead }
        ensures keeps { IfOk result (λ p. PipeKeeps play ahead p) }
        ensures unset { IfOk result (λ p. (core_of play p).stopped ≡ false) }
        ensures log { IfOk result (λ p. p.scene.shared.log ≡ []) }
        ensures uncut { IfOk result (λ p. p.app.state.fault ≡ None) }
        ensures untold { IfOk result (λ p. p.app.told ≡ 0) }
    {
        let lens = play.lens();
        let back = play.back();
        let channels = play.channels();
        let merges = count_merges(play.dbase());
        let (app_lines, dbase_lines) = play.into_lists();
        let parts = all_made(
            AppStage::new(alloc, app_lines, merges, lens, back, ahead, channels),
            CullStage::new(alloc, lens),
            DrawStage::new(alloc, lens, back),
            DbaseStage::new(alloc, dbase_lines),
            new_desk(alloc, ahead, channels),
            new_link(alloc, ahead),
            new_link(alloc, ahead),
            new_link(alloc, ahead),
        )?;
        Ok(Pipe {
            app: parts.app,
            cull: parts.cull,
            draw: parts.draw,
            dbase: parts.dbase,
            desk: parts.desk,
            to_cull: parts.to_cull,
            to_draw: parts.to_draw,
            back: parts.back,
        })
    }

    /// Whether a line may be given: the application has not closed, and its section has room.
    pub fn takes_line(&self) -> bool
        ensures value { result ≡ takes_line self.now }
        ensures room { result ≡ true → self.now.app.state.at + length self.now.app.rest < most_lines }
        ensures going { result ≡ true → self.now.app.state.closed ≡ false }
        ensures none { result ≡ false → self.now.app.state.closed ≡ false
            → most_lines ≤ self.now.app.state.at + length self.now.app.rest }
    {
        if self.app.has_closed() {
            return false;
        }
        self.app.has_room()
    }

    /// Whether a block of so many lines may be given: the application has not closed, and DBASE's section has room.
    pub fn takes_block(&self, lines: usize) -> bool
        ensures value { result ≡ takes_block self.now lines }
        ensures room { result ≡ true → self.now.dbase.at + (length self.now.dbase.rest + lines) ≤ most_lines }
        ensures going { result ≡ true → self.now.app.state.closed ≡ false }
        ensures none { result ≡ false → self.now.app.state.closed ≡ false
            → most_lines < self.now.dbase.at + (length self.now.dbase.rest + lines) }
    {
        if self.app.has_closed() {
            return false;
        }
        self.dbase.has_room(lines)
    }

    /// Gives the application one line more of its section. Returns an error, and leaves the pipe as it was, where there is no
    /// memory.
    pub fn give(&mut self, line: AppLine) -> Result<(), NoMemory>
        requires room { self.old.app.state.at + length self.old.app.rest < most_lines }
        requires going { self.old.app.state.closed ≡ false }
        ensures state { OnOk result (self.new ≡ given_line line self.old) }

        // A pipe of a play is then a pipe of the longer play.
        ensures keeps { OnOk result ((play : Script) (ahead : ℕ) → PipeKeeps play ahead self.old
            → PipeKeeps (with_app play (line ∷ [])) ahead self.new) }
        ensures unchanged { OnErr result (self.new ≡ self.old) }
    {
        self.app.give(line)
    }

    /// Gives the database process a block: whole buffers, with awaits before, between and behind them. Returns an error, and
    /// leaves the pipe as it was, where there is no memory.
    pub fn give_base(&mut self, block: Vec<BaseLine>) -> Result<(), NoMemory>
        requires short { length block.items ≤ 262144 }
        requires few { self.old.dbase.at + (length self.old.dbase.rest + length block.items) ≤ most_lines }
        requires fit { list_all (λ l. base_fits l.step) block.items ≡ true }
        requires order { open_after false block.items ≡ Some false }
        requires going { self.old.app.state.closed ≡ false }
        ensures state { OnOk result (IsGivenBlock self.old self.new) }

        // A pipe of a play is then a pipe of the longer play.
        ensures keeps { OnOk result ((play : Script) (ahead : ℕ) → CanRun (with_dbase play block.items) ahead
            → PipeKeeps play ahead self.old → PipeKeeps (with_dbase play block.items) ahead self.new) }
        ensures unchanged { OnErr result (self.new ≡ self.old) }
    {
        let merges = self.app.merges().saturating_add(count_merges(&block));
        match self.dbase.give(block) {
            Ok(()) => {
                self.app.note_merges(merges);
                Ok(())
            }
            Err(NoMemory) => Err(NoMemory),
        }
    }

    /// Whether only a line more, or the close, is left to do for the application.
    pub fn wants_line(&self) -> bool
        ensures bare { result ≡ true → self.now.app.state.held ≡ None }
        ensures all { result ≡ true → self.now.app.rest ≡ [] }
        ensures none { result ≡ false → is_done self.now.app.state ≡ false → self.now.app.state.held ≡ None
            → 0 < length self.now.app.rest }
    {
        self.app.wants_line()
    }

    /// Takes a picture back and writes it, if the application holds no packet and one returned. It may come wherever in
    /// its section the application stands. Returns whether it took one.
    ///
    /// Returns `Err(StageError::FrameFault)` if the sink reports a fault. The stop mark is then set.
    pub fn take_back<O: Sink>(&mut self, frames: &mut O) -> Result<bool, StageError>
        ensures goes { (play : Script) (ahead : ℕ) → PipeKeeps play ahead self.old
            → TurnsGo play ahead NoneIsBack result self.old self.new (O.written frames.old) (O.written frames.new) }
        ensures blames { Blames result (O.faults frames.old) (O.faults frames.new) (O.at_fault frames.new) (O.written frames.new) }
    {
        if !self.app.can_take_back() {
            return Ok(false);
        }
        let came = self.app.take_back(&mut self.desk, &mut self.back, frames);
        has_done(came)
    }

    /// The number of channels, 1 to 4.
    pub(crate) fn channels(&self) -> u8
        ensures { result ≡ self.now.scene.shared.channels }
    {
        self.desk.value().channels()
    }

    /// The greatest number of copies that a geode's cycle has had, and 0 before the first cycle was made.
    pub fn copies(&self) -> u32
        ensures value { result ≡ self.now.scene.copies }

        // In a play with so many frames in flight no geode's cycle has more copies than these and one more.
        ensures bound { (play : Script) (ahead : ℕ) → PipeKeeps play ahead self.now → result ≤ ahead + 1 }
    {
        self.desk.value().copies()
    }

    /// A poll of the application.
    pub(crate) fn app_event<O: Sink, G: Gate>(
        &mut self,
        frames: &mut O,
        gate: &G,
    ) -> Result<Did, StageError>
        ensures lifted { (play : Script) (ahead : ℕ) → 1 ≤ ahead → PipeKeeps play ahead self.old
            → AppLifted play ahead result self.old self.new (O.written frames.old) (O.written frames.new) }
        ensures uncut { StaysWhole result self.old.app.state.fault self.new.app.state.fault }
        ensures fault { result ≡ Err error.FrameFault → Rose (O.faults frames.old) (O.faults frames.new) }
        ensures last { result ≡ Err error.FrameFault → O.at_fault frames.new ≡ O.written frames.new }
        ensures calm { (result ≡ Err error.FrameFault → ⊥) → Calm (O.faults frames.old) (O.faults frames.new) }
    {
        let result = self.app.poll(
            &mut self.desk,
            &mut self.to_cull,
            &mut self.back,
            frames,
            gate,
        );
        self.desk.look(LegalGlance);
        result
    }

    /// A poll of the cull.
    fn cull_event<G: Gate>(&mut self, gate: &G) -> Result<Did, StageError>
        ensures lifted { (play : Script) (ahead : ℕ) → PipeKeeps play ahead self.old
            → Lifted play ahead polled.Cull result self.old self.new }
        ensures stream { (play : Script) → (core_of play self.new).pipe.stream ≡ (core_of play self.old).pipe.stream }
        ensures app { self.new.app ≡ self.old.app }
        ensures uncut { self.new.app.state.fault ≡ self.old.app.state.fault }
        ensures whole { result ≡ Err error.FrameFault → ⊥ }
    {
        self.cull
            .poll(&mut self.desk, &mut self.to_cull, &mut self.to_draw, gate)
    }

    /// A poll of the draw.
    fn draw_event<R: Threads + Sync, G: Gate>(
        &mut self,
        rt: &R,
        gate: &G,
    ) -> Result<Did, StageError>
        ensures lifted { (play : Script) (ahead : ℕ) → PipeKeeps play ahead self.old
            → Lifted play ahead polled.Draw result self.old self.new }
        ensures stream { (play : Script) → (core_of play self.new).pipe.stream ≡ (core_of play self.old).pipe.stream }
        ensures app { self.new.app ≡ self.old.app }
        ensures uncut { self.new.app.state.fault ≡ self.old.app.state.fault }
        ensures whole { result ≡ Err error.FrameFault → ⊥ }
    {
        self.draw.poll(rt, &mut self.desk, &mut self.to_draw, &mut self.back, gate)
    }

    /// A poll of the database process.
    fn dbase_event<G: Gate>(&mut self, gate: &G) -> Result<Did, StageError>
        ensures lifted { (play : Script) (ahead : ℕ) → PipeKeeps play ahead self.old
            → Lifted play ahead polled.Dbase result self.old self.new }
        ensures stream { (play : Script) → (core_of play self.new).pipe.stream ≡ (core_of play self.old).pipe.stream }
        ensures app { self.new.app ≡ self.old.app }
        ensures uncut { self.new.app.state.fault ≡ self.old.app.state.fault }
        ensures whole { result ≡ Err error.FrameFault → ⊥ }
    {
        let result = self.dbase.poll(&mut self.desk, gate);
        self.desk.look(LegalGlance);
        result
    }

    /// A poll of the stage that the event names, through this gate.
    pub(crate) fn poll_with<R: Threads + Sync, O: Sink, G: Gate>(
        &mut self,
        rt: &R,
        event: Event,
        frames: &mut O,
        gate: &G,
    ) -> Result<Did, StageError>
        ensures lifted { (play : Script) (ahead : ℕ) → CanRun play ahead → PipeKeeps play ahead self.old
            → Lifted play ahead event result self.old self.new }
        ensures wrote { (play : Script) (ahead : ℕ) → CanRun play ahead → PipeKeeps play ahead self.old
            → IsWritten (O.written frames.old) (O.written frames.new) (core_of play self.old) (core_of play self.new) }
        ensures app { (event ≡ polled.App → ⊥) → self.new.app ≡ self.old.app }
        ensures uncut { StaysWhole result self.old.app.state.fault self.new.app.state.fault }
        ensures fault { result ≡ Err error.FrameFault → Rose (O.faults frames.old) (O.faults frames.new) }
        ensures last { result ≡ Err error.FrameFault → O.at_fault frames.new ≡ O.written frames.new }
        ensures calm { (result ≡ Err error.FrameFault → ⊥) → Calm (O.faults frames.old) (O.faults frames.new) }
    {
        match event {
            Event::App => self.app_event(frames, gate),
            Event::Cull => self.cull_event(gate),
            Event::Draw => self.draw_event(rt, gate),
            Event::Dbase => self.dbase_event(gate),
        }
    }

    /// One event: one whole poll of the stage that it names. The frame sink is given the pictures that returned.
    /// Returns `Did` if the stage did something, `NotYet` if it has to wait, and `Over` if it is over.
    ///
    /// Returns `Err(StageError::FrameFault)` if the sink reports a fault, which comes only from the application.
    /// Returns `Err(StageError::NoMemory)` if memory runs out for the application or the database process. Either adds
    /// no entry, and sets the stop mark.
    pub fn step<R: Threads + Sync, O: Sink>(
        &mut self,
        rt: &R,
        event: Event,
        frames: &mut O,
    ) -> Result<Did, StageError>
        // It keeps what the pipe of a play keeps, adds at most one entry, and this is what its answer says.
        ensures lifted { (play : Script) (ahead : ℕ) → CanRun play ahead → PipeKeeps play ahead self.old
            → Lifted play ahead event result self.old self.new }

        // What the sink is given stands at the end of the stream.
        ensures wrote { (play : Script) (ahead : ℕ) → CanRun play ahead → PipeKeeps play ahead self.old
            → IsWritten (O.written frames.old) (O.written frames.new) (core_of play self.old) (core_of play self.new) }
        ensures fault { result ≡ Err error.FrameFault → Rose (O.faults frames.old) (O.faults frames.new) }
        ensures last { result ≡ Err error.FrameFault → O.at_fault frames.new ≡ O.written frames.new }
        ensures calm { (result ≡ Err error.FrameFault → ⊥) → Calm (O.faults frames.old) (O.faults frames.new) }
    {
        self.poll_with(rt, event, frames, &FreeGate)
    }

    /// Events in order, up to the first error.
    ///
    /// Returns `Err(StageError::FrameFault)` if the sink reports a fault, and `Err(StageError::NoMemory)` if memory
    /// runs out. At either the events before it were made, none behind it was, and the stop mark is set.
    pub fn run_events<R: Threads + Sync, O: Sink>(
        &mut self,
        rt: &R,
        events: &[Event],
        frames: &mut O,
    ) -> Result<(), StageError>
        ensures keeps { (play : Script) (ahead : ℕ) → CanRun play ahead → PipeKeeps play ahead self.old
            → PipeKeeps play ahead self.new }

        // Ok: none of them answered an error. Else those before the one that did.
        ensures ran { (play : Script) (ahead : ℕ) → CanRun play ahead → PipeKeeps play ahead self.old
            → OnOk result (Ran play ahead events.now (core_of play self.old) (core_of play self.new)) }
        ensures failed { (play : Script) (ahead : ℕ) → CanRun play ahead → PipeKeeps play ahead self.old
            → IfErr result (λ error. FailsAt play ahead events.now error (core_of play self.old) (core_of play self.new)) }

        // What the sink is given stands at the end of the stream.
        ensures wrote { (play : Script) (ahead : ℕ) → CanRun play ahead → PipeKeeps play ahead self.old
            → IsWritten (O.written frames.old) (O.written frames.new) (core_of play self.old) (core_of play self.new) }
        ensures fault { result ≡ Err error.FrameFault → Rose (O.faults frames.old) (O.faults frames.new) }
        ensures last { result ≡ Err error.FrameFault → O.at_fault frames.new ≡ O.written frames.new }
        ensures calm { (result ≡ Err error.FrameFault → ⊥) → Calm (O.faults frames.old) (O.faults frames.new) }
    {
        for event in events {
            self.step(rt, *event, frames)?;
        }
        Ok(())
    }
    /// Tells the oldest entry of the history that was not told: hands it out, beside the number of its seat, and forgets
    /// it, so that it leaves memory. Returns None where all were told. Nothing else changes.
    pub fn take_entry(&mut self) -> Option<(u32, Entry)>
        ensures tells { TellsOne self.old.scene self.new.scene result }
        ensures scene_alone { self.new ≡ record self.old { scene = self.new.scene } }
        ensures keeps { (play : Script) (ahead : ℕ) → PipeKeeps play ahead self.old → PipeKeeps play ahead self.new }
    {
        take_oldest(&mut self.desk)
    }

    /// Tells the numbers of the oldest frame whose picture came back and was not told: hands them out, and forgets them.
    /// Returns None where all were told. Nothing else changes.
    pub fn take_stats(&mut self) -> Option<Stats>
        ensures tells { TellsNext self.old.app.state.stats self.old.app.told self.new.app.told result }
        ensures count_alone { self.new ≡ record self.old { app = record self.old.app { told = self.new.app.told } } }
        ensures keeps { (play : Script) (ahead : ℕ) → PipeKeeps play ahead self.old → PipeKeeps play ahead self.new }
    {
        self.app.take_stats()
    }

    /// The history, and the numbers of the frames that came back and were not told.
    pub(crate) fn into_parts(self) -> (History, Vec<Stats>)
        ensures history { result.0.entries ≡ self.scene.shared.log }
        ensures stats { result.1.items ≡ drop self.app.told self.app.state.stats }
    {
        let Self {
            app,
            cull: _,
            draw: _,
            dbase: _,
            desk,
            to_cull: _,
            to_draw: _,
            back: _,
        } = self;
        (desk.into_value().into_history(), app.into_stats())
    }
}
