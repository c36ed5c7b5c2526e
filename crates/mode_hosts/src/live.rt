//! A live pipe: a pipe on threads whose play grows while it is played.
ghost use Rattle.std.specs.Prelude.{◌≡◌, ℕ, ◌+◌, ◌-◌, ◌^◌, ◌<◌, ◌≤◌, false, true, List, [], ◌∷◌, length, Option, None, Some, IfOk, IfSome, OnOk, OnErr};
ghost use Rattle.std.specs.List.{list_all};
ghost use mathlib.Core.List.{IsPrefix};
ghost use Rattle.play_format.specs.Plays.{Script, IsPlay, base_fits, open_after};
ghost use Rattle.play_check.specs.Lines.{app_given, given_by};
ghost use Rattle.nearest_hit.specs.declared.segment.Segment.{Segment};
ghost use Rattle.pf_scene.specs.Acts.{free_in};
ghost use Rattle.frame_stages.specs.Flights.{TellsNext};
ghost use Rattle.frame_stages.specs.Scripts.{most_lines};
ghost use Rattle.pipe_plays.specs.Plays.{CanRun};
ghost use Rattle.pipe_plays.specs.Played.{Blames, StaysWhole};
ghost use Rattle.pipe_plays.specs.declared.played.PlayEnd.TheVariants as ends;
ghost use Rattle.mode_hosts.specs.declared.modes.Crews.{Crews};
ghost use Rattle.mode_hosts.specs.Sites.{AppGoes};
ghost use Rattle.mode_hosts.specs.Seats.{app_site};
ghost use Rattle.mode_hosts.specs.Posts.{ArePosts};
ghost use Rattle.mode_hosts.specs.Plays.{EndBlames};
ghost use Rattle.mode_hosts.specs.Lives.{with_app, with_dbase, app_of, base_of, seen_of, stats_of, numbers_told, IsFine, LiveBlames, IsLive, LiveKeeps, LiveRests, TellsEntries, LiveLeaves};

use crate::awaits::{await_less, await_more};
use crate::caller::{run_here, seats_of};
use crate::hosts::Common;
use crate::leaving::leave;
use crate::modes::{Apart, Setup, crews_of, take_dbase};
use crate::opening::Opened;
use crate::playing::{Ready, get_ready};
use crate::posts::{Posts, posts_of};
use crate::seats::{AllSeats, AppSeat, DbaseSeat};
use crate::settling::settle_here;
use draw_list::Stats;
use frame_stages::StageError;
use pf_io::{Gate, NoMemory, Sink};
use pf_model::{AppLine, AppStep, BaseLine};
use pf_scene::{Scene, Told};
use pipe_plays::laws::a_play_leaves_its_history;
use pipe_plays::{Played, count_merges};
use play_format::Play;
use seat_lock::SeatLock;
use std::alloc::Global;
use std::sync::{Arc, Wait};
use std::thread::Threads;

/// A pipe on threads whose play grows while it is played. Its caller gives lines and settles, as often as it likes, and
/// closes it at the end. The application and the database process stay with the caller's thread, which alone calls the
/// frame sink. The cull, the draw and the probe have hosts, as the setup divides them.
///
/// While it is open it tells the entries of its history and the numbers of the frames whose pictures came back, each once
/// and in order. What was told leaves memory.
///
/// Each call that takes a frame sink is to be given the same one.
#[derive(Drop)]
pub struct LivePipe<R: Drop, G> {
    lock: Arc<SeatLock<Scene>, Global>,
    common: Arc<Common<G>, Global>,
    app: AppSeat<R>,
    dbase: DbaseSeat<R>,
    posts: Posts<R>,
    frames: u64,
    told: u64,
    came: Result<(), StageError>,
}

/// The number of frames that a step begins.
fn frames_of(step: &AppStep) -> u64
    ensures { result ≡ given_by (app_given step.now) }
{
    match step {
        AppStep::Frame => 1,
        AppStep::Edit(_) | AppStep::View(_, _) | AppStep::Sync | AppStep::Wait(_) => 0,
    }
}

/// Whether so many entries and those that a block has room for can be counted together.
fn can_count(told: u64, block: &Told) -> bool
    ensures { result ≡ true → told + free_in block.now < 2 ^ 64 }
{
    let free = block.entries.capacity() - block.entries.len();
    told.checked_add(free as u64).is_some()
}

/// Polls to the end, unless the polls so far came to an error.
fn run_unless<R: Threads + Wait + Sync + Drop, O: Sink, G: Gate>(
    rt: &R,
    common: &Common<G>,
    app: &mut AppSeat<R>,
    posts: &mut Posts<R>,
    frames: &mut O,
    came: Result<(), StageError>,
) -> Result<(), StageError>
    ensures goes { AppGoes (app_site app.old) (app_site app.new) (O.written frames.old) (O.written frames.new) }
    ensures posts { (crews : Crews R) → ArePosts crews posts.old → ArePosts crews posts.new }
    ensures uncut { StaysWhole came None (app_site app.old).work.state.fault
        → StaysWhole result None (app_site app.new).work.state.fault }
    ensures blames { (before : ℕ)
        → Blames came before (O.faults frames.old) (O.at_fault frames.old) (O.written frames.old)
        → Blames result before (O.faults frames.new) (O.at_fault frames.new) (O.written frames.new) }
{
    match came {
        Ok(()) => run_here(rt, common, app, posts, frames),
        Err(error) => Err(error),
    }
}

impl<
    R: Threads + Wait + Copy + Drop + Send + Sync + 'static,
    G: Gate + Send + Drop + 'static,
> LivePipe<R, G> {
    /// Opens a play that has no lines of its application yet, as the setup asks for it, and starts its hosts. Returns an
    /// error where there is no memory for it.
    pub fn new(
        alloc: Global,
        rt: &R,
        play: Play,
        setup: &Setup,
        gate: G,
    ) -> Result<LivePipe<R, G>, NoMemory>
        requires at_least_one { 1 ≤ setup.now.ahead }
        requires at_most_four { setup.now.ahead ≤ 4 }
        requires stream { IfSome setup.now.stream (λ n. (1 ≤ n) × (n ≤ 4096)) }
        requires here { setup.now.dbase ≡ false }
        requires bare { play.app ≡ [] }
        ensures play { IsPlay play }

        // It keeps what a live pipe of the play keeps, has not closed and met no error.
        ensures keeps { IfOk result (λ p. (bytes : Option (List ℕ))
            → LiveKeeps play setup.now.ahead setup.now.probe bytes bytes p) }
        ensures live { IfOk result IsLive }
        ensures going { IfOk result (λ p. (app_of p).state.closed ≡ false) }
        ensures whole { IfOk result IsFine }
    {
        let ready = get_ready(alloc, rt, play, setup, gate)?;
        let Ready { opened, common } = ready;
        let Opened { lock, seats } = opened;
        let AllSeats {
            mut app,
            cull,
            draw,
            dbase,
            probe,
        } = seats;
        let _merges = await_more(&mut app.stage, 1);
        let all = crews_of(setup, cull, draw, dbase, probe);
        let taken = take_dbase(all);
        let Apart { dbase, crews } = taken;
        let posts = posts_of(rt, alloc, &common, crews);
        Ok(LivePipe {
            lock,
            common,
            app,
            dbase,
            posts,
            frames: 0,
            told: 0,
            came: Ok(()),
        })
    }

    /// Whether a line may be given: the application has not closed, and its section has room.
    pub fn takes_line(&self) -> bool
        ensures room { result ≡ true → (app_of self.now).state.at + length (app_of self.now).rest < most_lines }
        ensures going { result ≡ true → (app_of self.now).state.closed ≡ false }
        ensures full { result ≡ false → (app_of self.now).state.closed ≡ false
            → most_lines ≤ (app_of self.now).state.at + length (app_of self.now).rest }
    {
        if self.app.stage.has_closed() {
            return false;
        }
        self.app.stage.has_room()
    }

    /// Whether a block of so many lines may be given: the application has not closed, and DBASE's section has room.
    pub fn takes_block(&self, lines: usize) -> bool
        ensures room { result ≡ true
            → (base_of self.now).at + (length (base_of self.now).rest + lines) ≤ most_lines }
        ensures going { result ≡ true → (app_of self.now).state.closed ≡ false }
        ensures full { result ≡ false → (app_of self.now).state.closed ≡ false
            → most_lines < (base_of self.now).at + (length (base_of self.now).rest + lines) }
    {
        if self.app.stage.has_closed() {
            return false;
        }
        self.dbase.stage.has_room(lines)
    }

    /// Returns whether settling came to an error, after which the pipe can only be closed.
    pub fn has_failed(&self) -> bool
        ensures { result ≡ false → IsFine self.now }
    {
        self.came.is_err()
    }

    /// Returns how many entries of the history were told.
    pub fn entries_told(&self) -> u64
        ensures { result ≡ self.now.told }
    {
        self.told
    }

    /// Returns how many pictures came back.
    pub fn frames_back(&self) -> u64
        ensures { result ≡ length (stats_of self.now) }
    {
        self.app.stage.frames_back() as u64
    }

    /// Gives the application one line more of its section. Returns an error, and leaves the pipe as it was, where there is no
    /// memory.
    pub fn give(&mut self, line: AppLine) -> Result<(), NoMemory>
        requires room { (app_of self.old).state.at + length (app_of self.old).rest < most_lines }
        requires going { (app_of self.old).state.closed ≡ false }

        // What it keeps of a play, it keeps of the longer play.
        ensures keeps { OnOk result ((play : Script) (ahead : ℕ) (asked : Option Segment) (bytes bytes' : Option (List ℕ))
            → LiveKeeps play ahead asked bytes bytes' self.old
            → LiveKeeps (with_app play (line ∷ [])) ahead asked bytes bytes' self.new) }
        ensures live { IsLive self.old → IsLive self.new }
        ensures told { self.new.told ≡ self.old.told }
        ensures seen { seen_of self.new ≡ seen_of self.old }
        ensures told_numbers { numbers_told self.new ≡ numbers_told self.old }
        ensures stats { stats_of self.new ≡ stats_of self.old }
        ensures going { (app_of self.new).state.closed ≡ false }
        ensures fine { IsFine self.old → IsFine self.new }
        ensures blamed { (before now : ℕ) (at_fault bytes : Option (List ℕ)) → LiveBlames self.old before now at_fault bytes
            → LiveBlames self.new before now at_fault bytes }
        ensures unchanged { OnErr result (self.new ≡ self.old) }
    {
        let begins = frames_of(&line.step);
        match self.app.stage.give(line) {
            Ok(()) => {
                self.frames = self.frames.saturating_add(begins);
                Ok(())
            }
            Err(NoMemory) => Err(NoMemory),
        }
    }

    /// Gives the database process a block: whole buffers, with awaits before, between and behind them. Returns an error, and
    /// leaves the pipe as it was, where there is no memory.
    pub fn give_block(&mut self, block: Vec<BaseLine>) -> Result<(), NoMemory>
        requires short { length block.items ≤ 262144 }
        requires room { (base_of self.old).at + (length (base_of self.old).rest + length block.items) ≤ most_lines }
        requires fit { list_all (λ l. base_fits l.step) block.items ≡ true }
        requires order { open_after false block.items ≡ Some false }
        requires going { (app_of self.old).state.closed ≡ false }

        // What it keeps of a play, it keeps of the longer play.
        ensures keeps { OnOk result ((play : Script) (ahead : ℕ) (asked : Option Segment) (bytes bytes' : Option (List ℕ))
            → CanRun (with_dbase play block.items) ahead → LiveKeeps play ahead asked bytes bytes' self.old
            → LiveKeeps (with_dbase play block.items) ahead asked bytes bytes' self.new) }
        ensures live { IsLive self.old → IsLive self.new }
        ensures told { self.new.told ≡ self.old.told }
        ensures seen { seen_of self.new ≡ seen_of self.old }
        ensures told_numbers { numbers_told self.new ≡ numbers_told self.old }
        ensures stats { stats_of self.new ≡ stats_of self.old }
        ensures going { (app_of self.new).state.closed ≡ false }
        ensures fine { IsFine self.old → IsFine self.new }
        ensures blamed { (before now : ℕ) (at_fault bytes : Option (List ℕ)) → LiveBlames self.old before now at_fault bytes
            → LiveBlames self.new before now at_fault bytes }
        ensures unchanged { OnErr result (self.new ≡ self.old) }
    {
        let merges = count_merges(&block);
        match self.dbase.stage.give(block) {
            Ok(()) => {
                let _merges = await_more(&mut self.app.stage, merges);
                Ok(())
            }
            Err(NoMemory) => Err(NoMemory),
        }
    }

    /// Goes on until nothing is left to do of the lines given so far: each is passed, each frame that they begin has its
    /// picture wholly written, and the database process has passed its lines or has to wait. The sink is flushed. Returns
    /// an error where the frame sink reported a fault or memory ran out; then the pipe can only be closed.
    pub fn settle<O: Sink>(&mut self, rt: &R, frames: &mut O) -> Result<(), StageError>
        requires { IsFine self.old }
        ensures keeps { (play : Script) (ahead : ℕ) (asked : Option Segment) (bytes : Option (List ℕ))
            → LiveKeeps play ahead asked bytes (O.written frames.old) self.old
            → LiveKeeps play ahead asked bytes (O.written frames.new) self.new }
        ensures live { IsLive self.old → IsLive self.new }

        // It tells nothing, and the history goes on.
        ensures told { self.new.told ≡ self.old.told }
        ensures front { IsPrefix (seen_of self.old) (seen_of self.new) }
        ensures told_numbers { numbers_told self.new ≡ numbers_told self.old }
        ensures rests { OnOk result (LiveRests self.new) }
        ensures flushed { OnOk result (O.flushed frames.new ≡ true) }
        ensures fine { OnOk result (IsFine self.new) }
        ensures blamed { (before : ℕ) → LiveBlames self.old before (O.faults frames.old) (O.at_fault frames.old) (O.written frames.old)
            → LiveBlames self.new before (O.faults frames.new) (O.at_fault frames.new) (O.written frames.new) }
        ensures blames { Blames result (O.faults frames.old) (O.faults frames.new) (O.at_fault frames.new) (O.written frames.new) }
    {
        self.came = settle_here(
            rt,
            &self.common,
            &mut self.app,
            &mut self.dbase,
            &mut self.posts,
            frames,
            self.frames,
        );
        self.came
    }

    /// Tells entries of the history, behind those told before, as many as the block has room for, and puts them behind those
    /// in it, each beside the number of its seat. They leave memory. The entries are those that the application's desk finds in
    /// a turn of its own.
    pub fn tell_entries(&mut self, block: Told) -> Told
        ensures tells { IsLive self.old → TellsEntries block self.old self.new result }
        ensures app { app_of self.new ≡ app_of self.old }
        ensures keeps { (play : Script) (ahead : ℕ) (asked : Option Segment) (bytes bytes' : Option (List ℕ))
            → LiveKeeps play ahead asked bytes bytes' self.old → LiveKeeps play ahead asked bytes bytes' self.new }
        ensures live { IsLive self.old → IsLive self.new }
        ensures rests { LiveRests self.old → LiveRests self.new }
        ensures fine { IsFine self.old → IsFine self.new }
        ensures blamed { (before now : ℕ) (at_fault bytes : Option (List ℕ)) → LiveBlames self.old before now at_fault bytes
            → LiveBlames self.new before now at_fault bytes }
    {
        if !can_count(self.told, &block) {
            return block;
        }
        let before = block.entries.len();
        let block = self.app.tell(self.told, block);
        let gained = block.entries.len().saturating_sub(before) as u64;
        self.told = self.told.saturating_add(gained);
        block
    }

    /// Tells the numbers of the oldest frame that came back and was not told: hands them out, and they leave memory. Returns
    /// None where all were told.
    pub fn take_stats(&mut self) -> Option<Stats>
        ensures tells { TellsNext (stats_of self.old) (numbers_told self.old) (numbers_told self.new) result }
        ensures count_alone { self.new ≡ record self.old {
          app = record self.old.app { stage = record (app_of self.old) { told = numbers_told self.new } };
        } }
        ensures keeps { (play : Script) (ahead : ℕ) (asked : Option Segment) (bytes bytes' : Option (List ℕ))
            → LiveKeeps play ahead asked bytes bytes' self.old → LiveKeeps play ahead asked bytes bytes' self.new }
        ensures live { IsLive self.old → IsLive self.new }
        ensures rests { LiveRests self.old → LiveRests self.new }
        ensures fine { IsFine self.old → IsFine self.new }
        ensures blamed { (before now : ℕ) (at_fault bytes : Option (List ℕ)) → LiveBlames self.old before now at_fault bytes
            → LiveBlames self.new before now at_fault bytes }
    {
        self.app.stage.take_stats()
    }

    /// Closes the pipe: no line comes any more. Unless settling came to an error, it plays to the end, with a closing Sync, and
    /// flushes the sink. Waits for the hosts.
    ///
    /// Returns how the play of all lines given ended, its history, the numbers of the returned frames that were not told, and
    /// the results of the probe. The end is `FrameFault` only if the frame sink reported a fault, `NoMemory` if memory ran out, and else
    /// `Done`.
    pub fn close<O: Sink>(self, rt: &R, alloc: Global, frames: &mut O) -> Played
        requires { IsLive self }
        ensures left { (play : Script) (ahead : ℕ) (asked : Option Segment) (bytes : Option (List ℕ)) → CanRun play ahead
            → LiveKeeps play ahead asked bytes (O.written frames.old) self
            → LiveLeaves play ahead asked self bytes (O.written frames.new) result }
        ensures flushed { result.end ≡ ends.Done → O.flushed frames.new ≡ true }
        ensures blames { (before : ℕ)
            → LiveBlames self before (O.faults frames.old) (O.at_fault frames.old) (O.written frames.old)
            → EndBlames result.end before (O.faults frames.new) (O.at_fault frames.new) (O.written frames.new) }
    {
        a_play_leaves_its_history();
        let LivePipe {
            lock,
            common,
            mut app,
            dbase,
            posts,
            frames: _,
            told: _,
            came,
        } = self;
        let _merges = await_less(&mut app.stage);
        let mut posts = posts.with_dbase(dbase);
        let came = run_unless(rt, &common, &mut app, &mut posts, frames, came);
        let crews = posts.back(rt);
        let seats = seats_of(app, crews);
        leave(rt, alloc, &lock, seats, came, frames)
    }
}
