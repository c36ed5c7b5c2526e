//! A live run from its first read to its last: what is read is given to the pipe, and settled before the next read.
ghost use Rattle.std.specs.Prelude.{◌≡◌, ◌≢◌, ◌⊎◌, ℕ, ◌≤◌, true, false, List, [], ◌∷◌, ◌++◌, length, Option, Some, Ok, Err, None, IfOk, IfErr, IfSome, OnOk, OnErr};
ghost use Rattle.nearest_hit.specs.declared.segment.Segment.{Segment};
ghost use Rattle.play_format.specs.Plays.{Script};
ghost use Rattle.live_text.specs.LiveCommands.{LiveCommand, LiveHeader};
ghost use Rattle.live_feed.specs.Feeds.{Fed, HasNoFeed, IsGood, FeedState};
ghost use Rattle.mode_hosts.specs.Lives.{stats_of, LiveBlames, LiveRests};
ghost use Rattle.live_run.specs.declared.halt.Halt.{Halt};
ghost use Rattle.live_run.specs.declared.halt.Halt.TheVariants as halt;
ghost use Rattle.live_run.specs.Driven.{IsDriven, told_log};
ghost use Rattle.live_run.specs.LiveRuns.{Takes};
ghost use Rattle.live_run.specs.Runs.{Start, NotYet, ReadBlames, BeginsNot, Plays, PlaysSome, HasTold, ToldAt, MadeAt, Opens, RunsOn, GivesTo, TurnsTo, HasHeader, with_given};

use crate::halt::Halt;
use crate::live::Live;
use crate::reading::Reading;
use crate::source::{LiveSource, Settled};
use live_feed::{one_command_more, what_is_fed_is_spelled};
use live_text::Given;
use mode_hosts::Setup;
use pf_io::{Failed, Gate, NoMemory, Sink};
use program_ends::write_out;
use std::alloc::Global;
use std::sync::Wait;
use std::thread::Threads;

/// Opens the pipe, as the header says.
fn open<R: Threads + Wait + Copy + Drop + Send + Sync + 'static, G: Gate + Send + Drop + 'static>(
    alloc: Global,
    rt: &R,
    setup: &Setup,
    gate: G,
    given: Given,
) -> Result<Live<R, G>, Halt>
    requires at_least_one { 1 ≤ setup.now.ahead }
    requires at_most_four { setup.now.ahead ≤ 4 }
    requires stream { IfSome setup.now.stream (λ n. (1 ≤ n) × (n ≤ 4096)) }
    requires here { setup.now.dbase ≡ false }
    requires header { IsGood None given }
    ensures opened { IfOk result (λ l. (text : List ℕ) (f : FeedState) → Fed text (given ∷ []) f
        → (frames report : Option (List ℕ)) (faults : ℕ) → Opens text f setup.now frames report faults l) }
    ensures blamed { IfOk result (λ l. (now : ℕ) (at_fault bytes : Option (List ℕ)) → LiveBlames l.pipe now now at_fault bytes) }
    ensures halts { IfErr result (λ h. h ≡ halt.Broken) }
{
    match given {
        Given::Header {
            lens,
            back,
            channels,
        } => Ok(Live::open(alloc, rt, lens, back, channels, setup, gate)?),
        Given::Line(_) => unreachable!(),
        Given::Block(_) => unreachable!(),
    }
}

/// Reads on before the header has come.
fn read_on<S: LiveSource>(reading: &mut Reading, source: &mut S) -> Result<(), Halt>
    requires { (text : List ℕ) × Fed text [] reading.old × HasNoFeed reading.old.rest }
    ensures on { OnOk result ((left : Option (List ℕ)) → NotYet left (S.left source.old) reading.old
        → NotYet left (S.left source.new) reading.new) }
    ensures halts { IfErr result (λ h. (left : Option (List ℕ)) → NotYet left (S.left source.old) reading.old
        → BeginsNot left (S.left source.new) h) }
    ensures blames { ReadBlames result (S.faults source.old) (S.faults source.new) }
{
    let settled = Settled::nothing(reading);
    let more = reading.more(source, settled)?;
    if !more {
        reading.end()?;
        unreachable!();
    }
    Ok(())
}

/// Reads the header, and opens the pipe.
pub(crate) fn begin<
    R: Threads + Wait + Copy + Drop + Send + Sync + 'static,
    S: LiveSource,
    G: Gate + Send + Drop + 'static,
>(
    alloc: Global,
    rt: &R,
    setup: &Setup,
    gate: G,
    reading: &mut Reading,
    source: &mut S,
) -> Result<Live<R, G>, Halt>
    requires at_least_one { 1 ≤ setup.now.ahead }
    requires at_most_four { setup.now.ahead ≤ 4 }
    requires stream { IfSome setup.now.stream (λ n. (1 ≤ n) × (n ≤ 4096)) }
    requires here { setup.now.dbase ≡ false }
    requires fresh { Fed [] [] reading.old }
    ensures begun { IfOk result (λ l. (frames report : Option (List ℕ)) (faults : ℕ)
        → RunsOn (record { setup = setup.now; left = S.left source.old; frames = frames; report = report; faults = faults })
        (S.left source.new) frames report faults reading.new l) }
    ensures header { OnOk result (HasHeader reading.new) }
    ensures blamed { IfOk result (λ l. (now : ℕ) (at_fault bytes : Option (List ℕ)) → LiveBlames l.pipe now now at_fault bytes) }
    ensures halts { IfErr result (λ h. BeginsNot (S.left source.old) (S.left source.new) h) }
    ensures blames { ReadBlames result (S.faults source.old) (S.faults source.new) }
{
    for _ in rt.forever() {
        match reading.next_given()? {
            Some(given) => return open(alloc, rt, setup, gate, given),
            None => read_on(reading, source)?,
        }
    }
    unreachable!()
}

/// Gives a command to the pipe.
fn give<
    R: Threads + Wait + Copy + Drop + Send + Sync + 'static,
    O: Sink,
    G: Gate + Send + Drop + 'static,
>(rt: &R, live: &mut Live<R, G>, given: Given, frames: &mut O) -> Result<(), Halt>
    requires { (h : LiveHeader) × IsGood (Some h) given }
    ensures plays { OnOk result ((h : LiveHeader) (cs : List LiveCommand) (ahead : ℕ) (asked : Option Segment) (bytes : Option (List ℕ))
        → IsGood (Some h) given → Plays h cs ahead asked bytes (O.written frames.old) live.old
        → Plays h (with_given cs given) ahead asked bytes (O.written frames.new) live.new) }
    ensures failed { OnErr result ((h : LiveHeader) (cs : List LiveCommand) (ahead : ℕ) (asked : Option Segment) (bytes : Option (List ℕ))
        → IsGood (Some h) given → Plays h cs ahead asked bytes (O.written frames.old) live.old
        → PlaysSome h cs ahead asked bytes (O.written frames.new) live.new) }
    ensures halts { IfErr result (λ h. h ≡ halt.Broken) }
    ensures log { told_log live.new.pipe ≡ told_log live.old.pipe }
    ensures frames { live.new.frames ≡ live.old.frames }
    ensures blamed { (before : ℕ)
        → LiveBlames live.old.pipe before (O.faults frames.old) (O.at_fault frames.old) (O.written frames.old)
        → LiveBlames live.new.pipe before (O.faults frames.new) (O.at_fault frames.new) (O.written frames.new) }
{
    one_command_more();
    match given {
        Given::Header { .. } => unreachable!(),
        Given::Line(line) => Ok(live.line(line)?),
        Given::Block(block) => Ok(live.block(rt, block, frames)?),
    }
}

/// Gives the pipe all commands that are whole.
fn give_all<
    R: Threads + Wait + Copy + Drop + Send + Sync + 'static,
    O: Sink,
    G: Gate + Send + Drop + 'static,
>(rt: &R, live: &mut Live<R, G>, reading: &mut Reading, frames: &mut O) -> Result<(), Halt>
    requires { HasHeader reading.old }
    ensures header { HasHeader reading.new }
    ensures halts { IfErr result (λ h. h ≢ halt.ReadFault) }
    ensures gives { (s : Start) (left report : Option (List ℕ)) (faults : ℕ)
        → RunsOn s left (O.written frames.old) report faults reading.old live.old
        → GivesTo s left (O.written frames.new) report faults reading.new result live.new }
    ensures frames { live.new.frames ≡ live.old.frames }
    ensures blamed { (before : ℕ)
        → LiveBlames live.old.pipe before (O.faults frames.old) (O.at_fault frames.old) (O.written frames.old)
        → LiveBlames live.new.pipe before (O.faults frames.new) (O.at_fault frames.new) (O.written frames.new) }
{
    what_is_fed_is_spelled();
    for _ in rt.forever() {
        match reading.next_given()? {
            Some(given) => give(rt, live, given, frames)?,
            None => return Ok(()),
        }
    }
    unreachable!()
}

/// Tells what was made since the last time, on the report sink.
fn tell<
    R: Threads + Wait + Copy + Drop + Send + Sync + 'static,
    P: Sink,
    G: Gate + Send + Drop + 'static,
>(alloc: Global, live: &mut Live<R, G>, report: &mut P) -> Result<(), Halt>
    ensures told { (before : Option (List ℕ)) (faults : ℕ) → HasTold before (P.written report.old) faults (P.faults report.old) live.old
        → ToldAt result before (P.written report.new) faults (P.faults report.new) live.new }
    ensures all { OnOk result (live.new.frames ≡ length (stats_of live.new.pipe)) }
    ensures flushed { OnOk result (P.flushed report.new ≡ true) }
    ensures halts { IfErr result (λ h. (h ≡ halt.Untold) ⊎ (h ≡ halt.ReportFault)) }
    ensures driven { (play : Script) (ahead : ℕ) (asked : Option Segment) (bytes bytes' : Option (List ℕ))
        → IsDriven play ahead asked bytes bytes' live.old → IsDriven play ahead asked bytes bytes' live.new }
    ensures rests { LiveRests live.old.pipe → LiveRests live.new.pipe }
    ensures blocks { live.new.blocks ≡ live.old.blocks }
    ensures blamed { (before now : ℕ) (at_fault bytes : Option (List ℕ)) → LiveBlames live.old.pipe before now at_fault bytes
        → LiveBlames live.new.pipe before now at_fault bytes }
{
    let mut text = Vec::new(alloc);
    match live.tell(alloc, &mut text) {
        Err(NoMemory) => Err(Halt::Untold),
        Ok(()) => match write_out(report, text.as_slice()) {
            Ok(()) => Ok(()),
            Err(Failed) => Err(Halt::ReportFault),
        },
    }
}

/// Settles what was given, and tells what came of it.
fn settle<
    R: Threads + Wait + Copy + Drop + Send + Sync + 'static,
    O: Sink,
    P: Sink,
    G: Gate + Send + Drop + 'static,
>(
    alloc: Global,
    rt: &R,
    live: &mut Live<R, G>,
    frames: &mut O,
    report: &mut P,
) -> Result<Settled, Halt>
    ensures told { (before : Option (List ℕ)) (faults : ℕ) → HasTold before (P.written report.old) faults (P.faults report.old) live.old
        → ToldAt result before (P.written report.new) faults (P.faults report.new) live.new }
    ensures halts { IfErr result (λ h. (h ≡ halt.Broken) ⊎ (h ≡ halt.Untold) ⊎ (h ≡ halt.ReportFault)) }
    ensures driven { (play : Script) (ahead : ℕ) (asked : Option Segment) (bytes : Option (List ℕ))
        → IsDriven play ahead asked bytes (O.written frames.old) live.old
        → IsDriven play ahead asked bytes (O.written frames.new) live.new }
    ensures blocks { live.new.blocks ≡ live.old.blocks }
    ensures blamed { (before : ℕ)
        → LiveBlames live.old.pipe before (O.faults frames.old) (O.at_fault frames.old) (O.written frames.old)
        → LiveBlames live.new.pipe before (O.faults frames.new) (O.at_fault frames.new) (O.written frames.new) }
{
    live.settle(rt, frames)?;
    tell(alloc, live, report)?;
    Ok(Settled::after(live, frames, report))
}

/// Gives the pipe all commands that are whole, and settles them. What stands before a wrong line is settled too.
fn turn<
    R: Threads + Wait + Copy + Drop + Send + Sync + 'static,
    O: Sink,
    P: Sink,
    G: Gate + Send + Drop + 'static,
>(
    alloc: Global,
    rt: &R,
    live: &mut Live<R, G>,
    reading: &mut Reading,
    frames: &mut O,
    report: &mut P,
) -> Result<Settled, Halt>
    requires { HasHeader reading.old }
    ensures header { HasHeader reading.new }
    ensures turns { (s : Start) (left : Option (List ℕ))
        → RunsOn s left (O.written frames.old) (P.written report.old) (P.faults report.old) reading.old live.old
        → TurnsTo s left (O.written frames.new) (P.written report.new) (P.faults report.new) reading.new result live.new }
    ensures halts { IfErr result (λ h. h ≢ halt.ReadFault) }
    ensures blamed { (before : ℕ)
        → LiveBlames live.old.pipe before (O.faults frames.old) (O.at_fault frames.old) (O.written frames.old)
        → LiveBlames live.new.pipe before (O.faults frames.new) (O.at_fault frames.new) (O.written frames.new) }
{
    what_is_fed_is_spelled();
    let given = give_all(rt, live, reading, frames);
    let settled = settle(alloc, rt, live, frames, report)?;
    given?;
    Ok(settled)
}

/// Gives, settles and reads on until the input has ended, or up to what ends the run before.
pub(crate) fn drive<
    R: Threads + Wait + Copy + Drop + Send + Sync + 'static,
    S: LiveSource,
    O: Sink,
    P: Sink,
    G: Gate + Send + Drop + 'static,
>(
    alloc: Global,
    rt: &R,
    live: &mut Live<R, G>,
    reading: &mut Reading,
    source: &mut S,
    frames: &mut O,
    report: &mut P,
) -> Result<(), Halt>
    requires { HasHeader reading.old }
    ensures made { (s : Start) → RunsOn s (S.left source.old) (O.written frames.old) (P.written report.old) (P.faults report.old) reading.old live.old
        → MadeAt result s (S.left source.new) (O.written frames.new) live.new }
    ensures told { (s : Start) → RunsOn s (S.left source.old) (O.written frames.old) (P.written report.old) (P.faults report.old) reading.old live.old
        → ToldAt result s.report (P.written report.new) s.faults (P.faults report.new) live.new }
    ensures blamed { (before : ℕ)
        → LiveBlames live.old.pipe before (O.faults frames.old) (O.at_fault frames.old) (O.written frames.old)
        → LiveBlames live.new.pipe before (O.faults frames.new) (O.at_fault frames.new) (O.written frames.new) }
    ensures blames { ReadBlames result (S.faults source.old) (S.faults source.new) }
{
    what_is_fed_is_spelled();
    for _ in rt.forever() {
        let settled = turn(alloc, rt, live, reading, frames, report)?;
        let more = reading.more(source, settled)?;
        if !more {
            return reading.end();
        }
    }
    unreachable!()
}
