//! A pipe that is driven while it runs, by commands that are values.
ghost use Rattle.std.specs.Prelude.{◌≡◌, ℕ, ◌+◌, ◌<◌, ◌≤◌, true, false, List, [], ◌∷◌, length, Option, Some, IfOk, IfSome, OnOk, OnErr};
ghost use Rattle.std.specs.List.{list_all};
ghost use Rattle.nearest_hit.specs.declared.segment.Segment.{Segment};
ghost use Rattle.play_format.specs.Plays.{Script, app_fits, base_fits, open_after};
ghost use Rattle.live_text.specs.LiveCommands.{first_number};
ghost use Rattle.frame_stages.specs.Scripts.{most_lines};
ghost use Rattle.pipe_plays.specs.Plays.{CanRun};
ghost use Rattle.pipe_plays.specs.Played.{Blames};
ghost use Rattle.pipe_plays.specs.declared.played.PlayEnd.TheVariants as ends;
ghost use Rattle.mode_hosts.specs.Plays.{EndBlames};
ghost use Rattle.mode_hosts.specs.Lives.{with_app, with_dbase, seen_of, stats_of, numbers_told, LiveBlames, LiveRests, LiveLeaves};
ghost use Rattle.live_run.specs.Driven.{bare_play, with_block, told_log, told_stats, IsDriven, IsGivenSettled, IsDrivenSome};
ghost use Rattle.live_run.specs.Telling.{Tells, TellsFront, StaysLive};

use crate::telling::{Closed, tell_entries, tell_frames};
use fx_math::Lens;
use mode_hosts::{LivePipe, Setup};
use pf_io::{Gate, NoMemory, Sink};
use pf_model::{AppLine, AppStep, BaseLine};
use play_format::Play;
use stage_parts::StageError;
use std::alloc::Global;
use std::marker::Model;
use std::sync::Wait;
use std::thread::Threads;

/// So many steps both sections may have together.
const MOST_STEPS: u32 = 536_870_912;

/// So many lines a block may have.
const MOST_BLOCK: usize = 262_144;

/// A pipe that is driven while it runs: it is given commands that are values, in one order of its own. Each is made before a
/// block behind it is given to the database process, and the commands behind a block wait for its merge.
///
/// Each call that takes a frame sink is to be given the same one. Where settling came to an error, the pipe can only be told
/// and closed.
#[derive(Drop)]
pub struct Live<R: Drop, G> {
    pipe: LivePipe<R, G>,
    steps: u32,
    blocks: u32,
    frames: usize,
}

impl<R: Drop, G> Model for Live<R, G> {
    ghost use Rattle.live_run.specs.Driven.{Driven, IsSound};

    ghost Value = { Driven R G };

    ghost view = { λ l. record { pipe = l.pipe; steps = l.steps; blocks = l.blocks; frames = l.frames } };

    ghost invariant = { λ l. IsSound (record { pipe = l.pipe; steps = l.steps; blocks = l.blocks; frames = l.frames }) };
}

/// The number of the first of these lines, or 0 where there is none.
fn first_number(lines: &[BaseLine]) -> u32
    ensures { result ≡ first_number lines.now }
{
    match lines.first() {
        Some(line) => line.line,
        None => 0,
    }
}

/// Whether a pipe has told no entry and no frame yet.
fn is_untold<
    R: Threads + Wait + Copy + Drop + Send + Sync + 'static,
    G: Gate + Send + Drop + 'static,
>(pipe: &mut LivePipe<R, G>) -> bool
    ensures stays { StaysLive pipe.old pipe.new }
    ensures entries { result ≡ true → pipe.new.told ≡ 0 }
    ensures numbers { result ≡ true → numbers_told pipe.new ≡ 0 }
{
    if pipe.frames_back() > 0 {
        return false;
    }
    match pipe.take_stats() {
        Some(_) => false,
        None => pipe.entries_told() == 0,
    }
}

impl<R: Threads + Wait + Copy + Drop + Send + Sync + 'static, G: Gate + Send + Drop + 'static> Live<
    R,
    G,
> {
    /// Opens a pipe through this lens, before this background and with so many channels, as the setup asks for it, and
    /// starts its hosts. Returns an error where there is no memory for it.
    pub fn open(
        alloc: Global,
        rt: &R,
        lens: Lens,
        back: [u8; 3],
        channels: u8,
        setup: &Setup,
        gate: G,
    ) -> Result<Live<R, G>, NoMemory>
        requires some_channel { 1 ≤ channels }
        requires most_channels { channels ≤ 4 }
        requires at_least_one { 1 ≤ setup.now.ahead }
        requires at_most_four { setup.now.ahead ≤ 4 }
        requires stream { IfSome setup.now.stream (λ n. (1 ≤ n) × (n ≤ 4096)) }
        requires here { setup.now.dbase ≡ false }
        ensures driven { IfOk result (λ l. (bytes : Option (List ℕ))
            → IsDriven (bare_play lens back channels) setup.now.ahead setup.now.probe bytes bytes l) }
        ensures log { IfOk result (λ l. told_log l.pipe ≡ []) }
        ensures stats { IfOk result (λ l. told_stats l.pipe ≡ []) }
        ensures frames { IfOk result (λ l. l.frames ≡ 0) }
        ensures blocks { IfOk result (λ l. l.blocks ≡ 0) }
        ensures blamed { IfOk result (λ l. (now : ℕ) (at_fault bytes : Option (List ℕ))
            → LiveBlames l.pipe now now at_fault bytes) }
    {
        let play = Play::without_steps(alloc, lens, back, channels);
        let mut pipe = LivePipe::new(alloc, rt, play, setup, gate)?;
        if !is_untold(&mut pipe) {
            return Err(NoMemory);
        }
        Ok(Live {
            pipe,
            steps: 0,
            blocks: 0,
            frames: 0,
        })
    }

    /// Gives the application a line. Returns an error, and leaves the pipe as it was, where there is no memory, or no room in
    /// the count of steps.
    pub fn line(&mut self, line: AppLine) -> Result<(), NoMemory>
        ensures driven { OnOk result ((play : Script) (ahead : ℕ) (asked : Option Segment) (bytes bytes' : Option (List ℕ))
            → app_fits play.channels line.step ≡ true → IsDriven play ahead asked bytes bytes' self.old
            → IsDriven (with_app play (line ∷ [])) ahead asked bytes bytes' self.new) }
        ensures steps { OnOk result (self.new.steps ≡ self.old.steps + 1) }
        ensures log { told_log self.new.pipe ≡ told_log self.old.pipe }
        ensures stats { told_stats self.new.pipe ≡ told_stats self.old.pipe }
        ensures frames { self.new.frames ≡ self.old.frames }
        ensures blocks { self.new.blocks ≡ self.old.blocks }
        ensures same_log { seen_of self.new.pipe ≡ seen_of self.old.pipe }
        ensures same_stats { stats_of self.new.pipe ≡ stats_of self.old.pipe }
        ensures blamed { (before now : ℕ) (at_fault bytes : Option (List ℕ)) → LiveBlames self.old.pipe before now at_fault bytes
            → LiveBlames self.new.pipe before now at_fault bytes }
        ensures unchanged { OnErr result (self.new ≡ self.old) }
    {
        if self.steps >= MOST_STEPS {
            return Err(NoMemory);
        }
        if !self.pipe.takes_line() {
            return Err(NoMemory);
        }
        self.pipe.give(line)?;
        self.steps += 1;
        Ok(())
    }

    /// Gives the database process the lines of a block. Returns an error, and leaves the pipe as it was, where there is no
    /// memory, or no room in the count of steps.
    fn give_base(&mut self, block: Vec<BaseLine>) -> Result<(), NoMemory>
        requires fit { list_all (λ l. base_fits l.step) block.items ≡ true }
        requires order { open_after false block.items ≡ Some false }
        ensures driven { OnOk result ((play : Script) (ahead : ℕ) (asked : Option Segment) (bytes bytes' : Option (List ℕ))
            → IsDriven play ahead asked bytes bytes' self.old
            → IsDriven (with_dbase play block.items) ahead asked bytes bytes' self.new) }
        ensures log { told_log self.new.pipe ≡ told_log self.old.pipe }
        ensures frames { self.new.frames ≡ self.old.frames }
        ensures blocks { self.new.blocks ≡ self.old.blocks }
        ensures same_log { seen_of self.new.pipe ≡ seen_of self.old.pipe }
        ensures same_stats { stats_of self.new.pipe ≡ stats_of self.old.pipe }
        ensures blamed { (before now : ℕ) (at_fault bytes : Option (List ℕ)) → LiveBlames self.old.pipe before now at_fault bytes
            → LiveBlames self.new.pipe before now at_fault bytes }
        ensures unchanged { OnErr result (self.new ≡ self.old) }
    {
        let lines = block.len();
        if lines > MOST_BLOCK {
            return Err(NoMemory);
        }
        let steps = self.steps + lines as u32;
        if steps > MOST_STEPS {
            return Err(NoMemory);
        }
        if !self.pipe.takes_block(lines) {
            return Err(NoMemory);
        }
        self.pipe.give_block(block)?;
        self.steps = steps;
        Ok(())
    }

    /// Gives the database process a block, and the application the line at which it waits for the block's merge.
    fn give_block(&mut self, block: Vec<BaseLine>) -> Result<(), NoMemory>
        requires fit { list_all (λ l. base_fits l.step) block.items ≡ true }
        requires order { open_after false block.items ≡ Some false }
        ensures driven { OnOk result ((play : Script) (ahead : ℕ) (asked : Option Segment) (bytes bytes' : Option (List ℕ))
            → IsDriven play ahead asked bytes bytes' self.old
            → IsDriven (with_block play block.items self.new.blocks) ahead asked bytes bytes' self.new) }
        ensures failed { OnErr result ((play : Script) (ahead : ℕ) (asked : Option Segment) (bytes bytes' : Option (List ℕ))
            → IsDriven play ahead asked bytes bytes' self.old
            → IsDrivenSome play block.items ahead asked bytes bytes' self.new) }
        ensures log { told_log self.new.pipe ≡ told_log self.old.pipe }
        ensures frames { self.new.frames ≡ self.old.frames }
        ensures blocks { OnOk result (self.new.blocks ≡ self.old.blocks + 1) }
        ensures same_log { seen_of self.new.pipe ≡ seen_of self.old.pipe }
        ensures same_stats { stats_of self.new.pipe ≡ stats_of self.old.pipe }
        ensures blamed { (before now : ℕ) (at_fault bytes : Option (List ℕ)) → LiveBlames self.old.pipe before now at_fault bytes
            → LiveBlames self.new.pipe before now at_fault bytes }
    {
        let line = first_number(&block);
        self.give_base(block)?;
        let step = AppStep::Wait(self.blocks + 1);
        self.line(AppLine { line, step })?;
        self.blocks += 1;
        Ok(())
    }

    /// Gives a block: whole buffers. All commands before it are made first, and the application waits behind it for its
    /// merge.
    ///
    /// Returns an error where settling comes to one, where there is no memory, or no room in the count of steps. Then the
    /// block was not given, or the application does not wait for its merge.
    pub fn block<O: Sink>(
        &mut self,
        rt: &R,
        block: Vec<BaseLine>,
        frames: &mut O,
    ) -> Result<(), StageError>
        requires fit { list_all (λ l. base_fits l.step) block.items ≡ true }
        requires order { open_after false block.items ≡ Some false }
        ensures driven { OnOk result ((play : Script) (ahead : ℕ) (asked : Option Segment) (bytes : Option (List ℕ))
            → IsDriven play ahead asked bytes (O.written frames.old) self.old
            → IsDriven (with_block play block.items self.new.blocks) ahead asked bytes (O.written frames.new) self.new) }

        // Nothing was left to do of the play before the block, when it was given.
        ensures settled { OnOk result ((play : Script) (ahead : ℕ) (asked : Option Segment) (bytes : Option (List ℕ))
            → IsDriven play ahead asked bytes (O.written frames.old) self.old
            → IsGivenSettled play ahead asked bytes (O.written frames.new) self.new) }
        ensures failed { OnErr result ((play : Script) (ahead : ℕ) (asked : Option Segment) (bytes : Option (List ℕ))
            → IsDriven play ahead asked bytes (O.written frames.old) self.old
            → IsDrivenSome play block.items ahead asked bytes (O.written frames.new) self.new) }
        ensures log { told_log self.new.pipe ≡ told_log self.old.pipe }
        ensures frames { self.new.frames ≡ self.old.frames }
        ensures blocks { OnOk result (self.new.blocks ≡ self.old.blocks + 1) }
        ensures flushed { OnOk result (O.flushed frames.new ≡ true) }
        ensures blamed { (before : ℕ)
            → LiveBlames self.old.pipe before (O.faults frames.old) (O.at_fault frames.old) (O.written frames.old)
            → LiveBlames self.new.pipe before (O.faults frames.new) (O.at_fault frames.new) (O.written frames.new) }
        ensures blames { Blames result (O.faults frames.old) (O.faults frames.new) (O.at_fault frames.new) (O.written frames.new) }
    {
        self.settle(rt, frames)?;
        let given = self.give_block(block);
        match given {
            Ok(()) => Ok(()),
            Err(NoMemory) => Err(StageError::NoMemory),
        }
    }

    /// Goes on until nothing is left to do of the commands given so far, and flushes the frame sink: each line is passed,
    /// each frame has its picture wholly written, and the database process has passed its lines or has to wait.
    ///
    /// Returns an error where the frame sink reported a fault, or memory ran out, now or before.
    pub fn settle<O: Sink>(&mut self, rt: &R, frames: &mut O) -> Result<(), StageError>
        ensures driven { (play : Script) (ahead : ℕ) (asked : Option Segment) (bytes : Option (List ℕ))
            → IsDriven play ahead asked bytes (O.written frames.old) self.old
            → IsDriven play ahead asked bytes (O.written frames.new) self.new }
        ensures rests { OnOk result (LiveRests self.new.pipe) }
        ensures flushed { OnOk result (O.flushed frames.new ≡ true) }
        ensures log { told_log self.new.pipe ≡ told_log self.old.pipe }
        ensures frames { self.new.frames ≡ self.old.frames }
        ensures blocks { self.new.blocks ≡ self.old.blocks }
        ensures blamed { (before : ℕ)
            → LiveBlames self.old.pipe before (O.faults frames.old) (O.at_fault frames.old) (O.written frames.old)
            → LiveBlames self.new.pipe before (O.faults frames.new) (O.at_fault frames.new) (O.written frames.new) }
        ensures blames { Blames result (O.faults frames.old) (O.faults frames.new) (O.at_fault frames.new) (O.written frames.new) }
    {
        if self.pipe.has_failed() {
            return Err(StageError::NoMemory);
        }
        self.pipe.settle(rt, frames)
    }

    /// Appends the lines of what was made since the last call: the entries, and then the frames that came back. Each is told
    /// once.
    ///
    /// Returns an error where there is no memory. The text has then the lines of a front of what was told, and the rest is
    /// lost.
    pub fn tell(&mut self, alloc: Global, text: &mut Vec<u8>) -> Result<(), NoMemory>
        ensures told { OnOk result
            (Tells self.old.frames self.new.frames self.old.pipe self.new.pipe text.old.items text.new.items) }
        ensures front { OnErr result
            (TellsFront self.old.frames self.old.pipe self.new.pipe text.old.items text.new.items) }
        ensures all { OnOk result (self.new.frames ≡ length (stats_of self.new.pipe)) }
        ensures driven { (play : Script) (ahead : ℕ) (asked : Option Segment) (bytes bytes' : Option (List ℕ))
            → IsDriven play ahead asked bytes bytes' self.old → IsDriven play ahead asked bytes bytes' self.new }
        ensures rests { LiveRests self.old.pipe → LiveRests self.new.pipe }
        ensures blocks { self.new.blocks ≡ self.old.blocks }
        ensures blamed { (before now : ℕ) (at_fault bytes : Option (List ℕ)) → LiveBlames self.old.pipe before now at_fault bytes
            → LiveBlames self.new.pipe before now at_fault bytes }
    {
        tell_entries(alloc, &mut self.pipe, text)?;
        tell_frames(alloc, &mut self.pipe, &mut self.frames, text)
    }

    /// Returns how many pictures came back.
    pub fn frames_shown(&self) -> u64
        ensures { result ≡ length (stats_of self.now.pipe) }
    {
        self.pipe.frames_back()
    }

    /// Closes the pipe: no command comes any more. Unless settling came to an error, what is left to do is done, with a
    /// closing Sync, and the sink is flushed. Waits for the hosts.
    pub fn close<O: Sink>(self, rt: &R, alloc: Global, frames: &mut O) -> Closed
        ensures left { (play : Script) (ahead : ℕ) (asked : Option Segment) (bytes : Option (List ℕ))
            → IsDriven play ahead asked bytes (O.written frames.old) self
            → LiveLeaves play ahead asked self.pipe bytes (O.written frames.new) result.played }
        ensures told { result.told ≡ self.pipe.told }
        ensures frames { result.frames ≡ self.frames }
        ensures flushed { result.played.end ≡ ends.Done → O.flushed frames.new ≡ true }
        ensures blames { (before : ℕ)
            → LiveBlames self.pipe before (O.faults frames.old) (O.at_fault frames.old) (O.written frames.old)
            → EndBlames result.played.end before (O.faults frames.new) (O.at_fault frames.new) (O.written frames.new) }
    {
        let Live {
            pipe,
            steps: _,
            blocks: _,
            frames: shown,
        } = self;
        let told = pipe.entries_told();
        let played = pipe.close(rt, alloc, frames);
        Closed {
            played,
            told,
            frames: shown,
        }
    }
}
