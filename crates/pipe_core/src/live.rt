//! A pipe whose play grows while it is played: settling, and commands that come one by one.
ghost use Rattle.std.specs.Prelude.{◌≡◌, ℕ, ◌+◌, ◌<◌, ◌≤◌, true, false, [], ◌∷◌, ◌++◌, length, Some, OnOk, OnErr};
ghost use Rattle.std.specs.List.{list_all};
ghost use Rattle.play_format.specs.Plays.{Script, base_fits, open_after};
ghost use Rattle.play_check.specs.Stuck.{IsStuck};
ghost use Rattle.frame_stages.specs.Scripts.{most_lines};
ghost use Rattle.pipe_plays.specs.Orders.{line_commands, merges_behind};
ghost use Rattle.pipe_core.specs.Makes.{with_app, with_dbase, IsReady, HasMade, HasFailed};
ghost use Rattle.pipe_plays.specs.Plays.{CanRun};
ghost use Rattle.pipe_plays.specs.Played.{Blames};
ghost use Rattle.pipe_core.specs.declared.events.Event.TheVariants as polled;
ghost use Rattle.pipe_core.specs.declared.live.LiveTurn.TheVariants as turn;
ghost use Rattle.pipe_core.specs.Waits.{IsIdleEvent};
ghost use Rattle.pipe_core.specs.Pipes.{PipeKeeps};
ghost use Rattle.pipe_core.specs.Settling.{done_of, IsIdleTurn, AreIdle, round_turns, TurnsGo, Settles};

use crate::events::Event;
use crate::pipe::Pipe;
use frame_stages::{Did, StageError};
use pf_io::{FreeGate, NoMemory, Sink};
use pf_model::{AppLine, BaseLine};
use pipe_plays::laws::{a_pipe_catches_up, later_commands_come_later};
use std::thread::Threads;

/// One turn of a round of a pipe whose play may still grow.
#[derive(Clone, Copy, Debug, PartialEq, Eq)]
pub(crate) enum LiveTurn {
    /// A poll of the application, unless only the close is left of the lines read so far.
    App,
    /// A picture is taken back and written, where one came.
    Back,
    /// A poll of the cull.
    Cull,
    /// A poll of the draw.
    Draw,
    /// A poll of the database process.
    Dbase,
}

/// Whether a poll did something.
pub(crate) fn has_done(came: Result<Did, StageError>) -> Result<bool, StageError>
    ensures { result ≡ done_of came }
{
    match came {
        Ok(Did::Did) => Ok(true),
        Ok(Did::NotYet) => Ok(false),
        Ok(Did::Over) => Ok(false),
        Err(error) => Err(error),
    }
}

impl Pipe {
    /// A poll of the application, unless only the close is left of the lines read so far.
    fn app_turn<O: Sink>(&mut self, frames: &mut O) -> Result<bool, StageError>
        ensures goes { (play : Script) (ahead : ℕ) → CanRun play ahead → PipeKeeps play ahead self.old
            → TurnsGo play ahead (IsIdleTurn play ahead turn.App) result self.old self.new (O.written frames.old) (O.written frames.new) }
        ensures blames { Blames result (O.faults frames.old) (O.faults frames.new) (O.at_fault frames.new) (O.written frames.new) }
    {
        if self.wants_line() {
            return Ok(false);
        }
        has_done(self.app_event(frames, &FreeGate))
    }

    /// A poll of another stage than the application.
    fn other_turn<R: Threads + Sync, O: Sink>(
        &mut self,
        rt: &R,
        event: Event,
        frames: &mut O,
    ) -> Result<bool, StageError>
        requires other { event ≡ polled.App → ⊥ }
        ensures goes { (play : Script) (ahead : ℕ) → CanRun play ahead → PipeKeeps play ahead self.old
            → TurnsGo play ahead (IsIdleEvent play ahead event) result self.old self.new (O.written frames.old) (O.written frames.new) }
        ensures blames { Blames result (O.faults frames.old) (O.faults frames.new) (O.at_fault frames.new) (O.written frames.new) }
    {
        has_done(self.poll_with(rt, event, frames, &FreeGate))
    }

    /// One turn.
    fn live_turn<R: Threads + Sync, O: Sink>(
        &mut self,
        rt: &R,
        turn: LiveTurn,
        frames: &mut O,
    ) -> Result<bool, StageError>
        ensures goes { (play : Script) (ahead : ℕ) → CanRun play ahead → PipeKeeps play ahead self.old
            → TurnsGo play ahead (IsIdleTurn play ahead turn) result self.old self.new (O.written frames.old) (O.written frames.new) }
        ensures blames { Blames result (O.faults frames.old) (O.faults frames.new) (O.at_fault frames.new) (O.written frames.new) }
    {
        match turn {
            LiveTurn::App => self.app_turn(frames),
            LiveTurn::Back => self.take_back(frames),
            LiveTurn::Cull => self.other_turn(rt, Event::Cull, frames),
            LiveTurn::Draw => self.other_turn(rt, Event::Draw, frames),
            LiveTurn::Dbase => self.other_turn(rt, Event::Dbase, frames),
        }
    }

    /// Turns in order, up to the first error: whether any of them did something.
    fn live_turns<R: Threads + Sync, O: Sink>(
        &mut self,
        rt: &R,
        turns: &[LiveTurn],
        frames: &mut O,
    ) -> Result<bool, StageError>
        ensures goes { (play : Script) (ahead : ℕ) → CanRun play ahead → PipeKeeps play ahead self.old
            → TurnsGo play ahead (AreIdle play ahead turns.now) result self.old self.new (O.written frames.old) (O.written frames.new) }
        ensures blames { Blames result (O.faults frames.old) (O.faults frames.new) (O.at_fault frames.new) (O.written frames.new) }
    {
        let mut some = false;
        for turn in turns {
            let one = self.live_turn(rt, *turn, frames)?;
            some |= one;
        }
        Ok(some)
    }

    /// A round: one turn of each kind, up to the first error. It tells whether any of them did something.
    fn live_round<R: Threads + Sync, O: Sink>(
        &mut self,
        rt: &R,
        frames: &mut O,
    ) -> Result<bool, StageError>
        ensures goes { (play : Script) (ahead : ℕ) → CanRun play ahead → PipeKeeps play ahead self.old
            → TurnsGo play ahead (AreIdle play ahead round_turns) result self.old self.new (O.written frames.old) (O.written frames.new) }
        ensures blames { Blames result (O.faults frames.old) (O.faults frames.new) (O.at_fault frames.new) (O.written frames.new) }
    {
        self.live_turns(
            rt,
            &[
                LiveTurn::App,
                LiveTurn::Back,
                LiveTurn::Cull,
                LiveTurn::Draw,
                LiveTurn::Dbase,
            ],
            frames,
        )
    }

    /// Goes on until nothing can go on before more lines are given. Each line given so far is then passed, or stands at
    /// a wait or an await that they do not meet. Each picture of a frame that was begun is wholly written, and the
    /// application has not closed. This is so if the application had not closed before and the stop mark was not set.
    /// The sink is not flushed.
    ///
    /// Returns `Err(StageError::FrameFault)` if the sink reports a fault, and `Err(StageError::NoMemory)` if memory
    /// runs out. Either ends it, and sets the stop mark.
    pub fn settle<R: Threads + Sync, O: Sink>(
        &mut self,
        rt: &R,
        frames: &mut O,
    ) -> Result<(), StageError>
        ensures settles { (play : Script) (ahead : ℕ) → CanRun play ahead → PipeKeeps play ahead self.old
            → Settles play ahead result self.old self.new (O.written frames.old) (O.written frames.new) }
        ensures blames { Blames result (O.faults frames.old) (O.faults frames.new) (O.at_fault frames.new) (O.written frames.new) }
    {
        for _made in 0..u64::MAX {
            let some = self.live_round(rt, frames)?;
            if !some {
                return Ok(());
            }
        }
        Ok(())
    }

    /// Makes a command: gives the line, and settles. Without an error it was made behind all others, and its picture,
    /// if it has one, is wholly written.
    ///
    /// Returns `Err(StageError::FrameFault)` if the sink reports a fault, and `Err(StageError::NoMemory)` if memory
    /// runs out. Either leaves the pipe as it was, or the line was given and the stop mark is set.
    pub fn make<R: Threads + Sync, O: Sink>(
        &mut self,
        rt: &R,
        line: AppLine,
        frames: &mut O,
    ) -> Result<(), StageError>
        requires room { self.old.app.state.at + length self.old.app.rest < most_lines }
        requires going { self.old.app.state.closed ≡ false }
        ensures made { (play : Script) (ahead : ℕ) → CanRun (with_app play (line ∷ [])) ahead
            → (IsStuck (play.app ++ line ∷ []) play.dbase → ⊥) → IsReady play ahead self.old
            → OnOk result (HasMade play (with_app play (line ∷ [])) ahead (line_commands (line ∷ [])) self.old self.new
            (O.written frames.old) (O.written frames.new)) }
        ensures failed { (play : Script) (ahead : ℕ) → CanRun (with_app play (line ∷ [])) ahead → PipeKeeps play ahead self.old
            → OnErr result (HasFailed play (with_app play (line ∷ [])) ahead self.old self.new
            (O.written frames.old) (O.written frames.new)) }
        ensures blames { Blames result (O.faults frames.old) (O.faults frames.new) (O.at_fault frames.new) (O.written frames.new) }
    {
        a_pipe_catches_up();
        later_commands_come_later();
        match self.give(line) {
            Ok(()) => self.settle(rt, frames),
            Err(NoMemory) => Err(StageError::NoMemory),
        }
    }

    /// Makes the merges of a block of at most 262,144 lines: gives it, and settles. Without an error they were made
    /// behind all other commands.
    ///
    /// Returns `Err(StageError::FrameFault)` if the sink reports a fault, and `Err(StageError::NoMemory)` if memory
    /// runs out. Either leaves the pipe as it was, or the block was given and the stop mark is set.
    pub fn make_block<R: Threads + Sync, O: Sink>(
        &mut self,
        rt: &R,
        block: Vec<BaseLine>,
        frames: &mut O,
    ) -> Result<(), StageError>
        requires short { length block.items ≤ 262144 }
        requires few { self.old.dbase.at + (length self.old.dbase.rest + length block.items) ≤ most_lines }
        requires fit { list_all (λ l. base_fits l.step) block.items ≡ true }
        requires order { open_after false block.items ≡ Some false }
        requires going { self.old.app.state.closed ≡ false }
        ensures made { (play : Script) (ahead : ℕ) → CanRun (with_dbase play block.items) ahead
            → (IsStuck play.app (play.dbase ++ block.items) → ⊥) → IsReady play ahead self.old
            → OnOk result (HasMade play (with_dbase play block.items) ahead (merges_behind play.dbase block.items) self.old self.new
            (O.written frames.old) (O.written frames.new)) }
        ensures failed { (play : Script) (ahead : ℕ) → CanRun (with_dbase play block.items) ahead → PipeKeeps play ahead self.old
            → OnErr result (HasFailed play (with_dbase play block.items) ahead self.old self.new
            (O.written frames.old) (O.written frames.new)) }
        ensures blames { Blames result (O.faults frames.old) (O.faults frames.new) (O.at_fault frames.new) (O.written frames.new) }
    {
        a_pipe_catches_up();
        later_commands_come_later();
        match self.give_base(block) {
            Ok(()) => self.settle(rt, frames),
            Err(NoMemory) => Err(StageError::NoMemory),
        }
    }
}
