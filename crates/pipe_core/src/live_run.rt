//! Runs of commands of a pipe whose play grows while it is played.
ghost use Rattle.std.specs.Prelude.{◌≡◌, ℕ, length};
ghost use Rattle.play_format.specs.Plays.{Script};
ghost use Rattle.pipe_core.specs.declared.commands.PipeCommand.TheVariants as command;
ghost use Rattle.pipe_core.specs.Makes.{IsReady};
ghost use Rattle.pipe_core.specs.LiveRuns.{line_refusal, block_refusal, CanMake, CanMakeAll, Comes, RunComes, CommandBlames, RunBlames};

use crate::commands::{
    BaseBlock, LiveCause, LiveError, PipeCommand, Refusal, all_fit, answer_of, app_step_fits,
    are_whole, is_short,
};
use crate::pipe::Pipe;
use pf_io::Sink;
use pf_model::{AppLine, AppStep, BaseLine};
use std::collections::VecDeque;
use std::thread::Threads;

/// The number of commands.
fn count_of(commands: &[PipeCommand]) -> usize
    ensures { result ≡ length commands.now }
{
    commands.len()
}

/// The commands, to be taken from the front.
fn queue_of(commands: Vec<PipeCommand>) -> VecDeque<PipeCommand>
    ensures { result.items ≡ commands.items }
{
    VecDeque::from(commands)
}

impl Pipe {
    /// Why a line with this step may not be given, if it may not.
    fn line_refusal(&self, step: &AppStep) -> Option<Refusal>
        ensures { result ≡ line_refusal self.now step.now }
    {
        if !self.takes_line() {
            return Some(Refusal::NoRoom);
        }
        if !app_step_fits(step, self.channels()) {
            return Some(Refusal::OutOfRange);
        }
        None
    }

    /// Why a block of these lines may not be given, if it may not.
    fn block_refusal(&self, lines: &[BaseLine]) -> Option<Refusal>
        ensures { result ≡ block_refusal self.now lines.now }
    {
        if !self.takes_block(lines.len()) {
            return Some(Refusal::NoRoom);
        }
        if !is_short(lines) {
            return Some(Refusal::NoRoom);
        }
        if !all_fit(lines) {
            return Some(Refusal::OutOfRange);
        }
        if !are_whole(lines) {
            return Some(Refusal::NotWhole);
        }
        None
    }

    /// Makes a command of a line, where it may be given.
    fn make_line<R: Threads + Sync, O: Sink>(
        &mut self,
        rt: &R,
        line: AppLine,
        frames: &mut O,
    ) -> Result<(), LiveCause>
        ensures comes { (play : Script) (ahead : ℕ) → CanMake play ahead (command.Line line) → IsReady play ahead self.old
            → Comes play ahead (command.Line line) result self.old self.new (O.written frames.old) (O.written frames.new) }
        ensures blames { CommandBlames result (O.faults frames.old) (O.faults frames.new) (O.at_fault frames.new) (O.written frames.new) }
    {
        match self.line_refusal(&line.step) {
            Some(refusal) => Err(LiveCause::Refused(refusal)),
            None => answer_of(self.make(rt, line, frames)),
        }
    }

    /// Makes the merges of a block, where it may be given.
    fn make_merges<R: Threads + Sync, O: Sink>(
        &mut self,
        rt: &R,
        block: BaseBlock,
        frames: &mut O,
    ) -> Result<(), LiveCause>
        ensures comes { (play : Script) (ahead : ℕ) → CanMake play ahead (command.Block block) → IsReady play ahead self.old
            → Comes play ahead (command.Block block) result self.old self.new (O.written frames.old) (O.written frames.new) }
        ensures blames { CommandBlames result (O.faults frames.old) (O.faults frames.new) (O.at_fault frames.new) (O.written frames.new) }
    {
        match self.block_refusal(block.as_slice()) {
            Some(refusal) => Err(LiveCause::Refused(refusal)),
            None => answer_of(self.make_block(rt, block.into_lines(), frames)),
        }
    }

    /// Makes a command, where it may be given.
    fn make_command<R: Threads + Sync, O: Sink>(
        &mut self,
        rt: &R,
        command: PipeCommand,
        frames: &mut O,
    ) -> Result<(), LiveCause>
        ensures comes { (play : Script) (ahead : ℕ) → CanMake play ahead command → IsReady play ahead self.old
            → Comes play ahead command result self.old self.new (O.written frames.old) (O.written frames.new) }
        ensures blames { CommandBlames result (O.faults frames.old) (O.faults frames.new) (O.at_fault frames.new) (O.written frames.new) }
    {
        match command {
            PipeCommand::Line(line) => self.make_line(rt, line, frames),
            PipeCommand::Block(block) => self.make_merges(rt, block, frames),
        }
    }

    /// Makes commands one by one, each once all before it are made and all their pictures are wholly written. Returns Ok where
    /// all were made; the sink is not flushed. Returns an error at the first command that is refused, which leaves what the
    /// commands before it made, or where a stage fails, as `make` and `make_block` say.
    pub fn play_live<R: Threads + Sync, O: Sink>(
        &mut self,
        rt: &R,
        commands: Vec<PipeCommand>,
        frames: &mut O,
    ) -> Result<(), LiveError>
        // Of a pipe that is ready for the next command of a play.
        ensures comes { (play : Script) (ahead : ℕ) → CanMakeAll play ahead commands.items → IsReady play ahead self.old
            → RunComes play ahead commands.items result self.old self.new (O.written frames.old) (O.written frames.new) }
        ensures blames { RunBlames result (O.faults frames.old) (O.faults frames.new) (O.at_fault frames.new) (O.written frames.new) }
    {
        let count = count_of(commands.as_slice());
        let mut left = queue_of(commands);
        for at in 0..count {
            match left.pop_front() {
                Some(command) => match self.make_command(rt, command, frames) {
                    Ok(()) => {}
                    Err(cause) => return Err(LiveError { command: at, cause }),
                },
                None => return Ok(()),
            }
        }
        Ok(())
    }
}
