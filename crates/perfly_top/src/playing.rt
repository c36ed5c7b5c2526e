//! A play that is played by hosts, and the report of a play.
ghost use Rattle.std.specs.Prelude.{◌≡◌, ◌≤◌, ◌++◌, true, false, Some, IfOk, OnOk, IsSome, IfSome};
ghost use Rattle.play_check.specs.Stuck.{IsStuck};
ghost use Rattle.pipe_plays.specs.Laws.{IsLeft};
ghost use Rattle.program_ends.specs.Played.{stream_of};
ghost use Rattle.perfly_top.specs.Program.{account, told, IsSummed};
ghost use Rattle.perfly_top.specs.Sums.{sum_of_bytes};
ghost use Rattle.perfly_top.specs.Runs.{EndsByFault, HasNumbers, HasAnswers};
ghost use Rattle.perfly_top.specs.Setups.{is_on_one_thread, players_of};
ghost use Rattle.play_format.specs.Plays.{Script};
ghost use Rattle.program_words.specs.declared.words.Words.{Words};

use crate::setup::{Players, setup_of};
use crate::summing::{Held, Lent, Start, Summing};
use pf_io::{Gate, NoMemory, Sink};
use pipe_core::{PlayEnd, Played};
use play_format::Play;
use play_report::{append_probes, append_report, append_summary};
use program_words::Words;
use std::alloc::Global;
use std::marker::{Brand, PhantomData};
use std::sync::Wait;
use std::thread::Threads;

/// A play that was played, by whom, and the sum of the bytes of its pictures if that is asked for.
#[derive(Drop)]
pub(crate) struct Run {
    pub(crate) played: Played,
    pub(crate) players: Players,
    pub(crate) sum: u64,
}

/// Plays a play with the stages divided among the hosts that the words ask for. Nothing is added up.
fn play_by<
    R: Threads + Wait + Copy + Drop + Send + Sync + 'static,
    O: Sink,
    G: Gate + Send + Drop + 'static,
>(alloc: Global, rt: &R, play: Play, words: Words, frames: &mut O, gate: G) -> Run
    requires more { is_on_one_thread words ≡ false }
    requires can_end { IsStuck play.app play.dbase → ⊥ }
    requires some { 1 ≤ words.ahead }
    requires few { words.ahead ≤ 4 }
    requires stream { IfSome words.stream (λ n. (1 ≤ n) × (n ≤ 4096)) }
    ensures players { result.players ≡ players_of words }
    ensures run { IsLeft play words.ahead result.played.end result.played.history.entries result.played.stats.items
        (O.written frames.old) (O.written frames.new) }
    ensures answers { result.played.end ≡ PlayEnd.Done
        → HasAnswers words play result.played.probes.items result.played.history.entries }
    ensures cause { EndsByFault result.played.end (O.faults frames.old) (O.faults frames.new)
        (O.at_fault frames.new) (O.written frames.new) }
    ensures flushed { result.played.end ≡ PlayEnd.Done → O.flushed frames.new ≡ true }
{
    let setup = setup_of(words);
    Run {
        played: mode_hosts::play_all(alloc, rt, play, &setup, frames, gate),
        players: Players::Hosts(setup),
        sum: 0,
    }
}

/// Plays a play by hosts into a sink that is held, adds up the bytes of its pictures, and returns the sink.
fn held_run<
    R: Threads + Wait + Copy + Drop + Send + Sync + 'static,
    H: Held,
    G: Gate + Send + Drop + 'static,
    S: Start,
>(alloc: Global, rt: &R, play: Play, words: Words, held: H, gate: G) -> (Run, H)
    requires start { S.start ≡ H.bytes held }
    requires loan { S.loan ≡ Some (H.loan held) }
    requires more { is_on_one_thread words ≡ false }
    requires can_end { IsStuck play.app play.dbase → ⊥ }
    requires some { 1 ≤ words.ahead }
    requires few { words.ahead ≤ 4 }
    requires stream { IfSome words.stream (λ n. (1 ≤ n) × (n ≤ 4096)) }
    ensures same { H.loan result.1 ≡ H.loan held }
    ensures players { result.0.players ≡ players_of words }
    ensures run { IsLeft play words.ahead result.0.played.end result.0.played.history.entries result.0.played.stats.items
        (H.bytes held) (H.bytes result.1) }
    ensures answers { result.0.played.end ≡ PlayEnd.Done
        → HasAnswers words play result.0.played.probes.items result.0.played.history.entries }
    ensures cause { EndsByFault result.0.played.end (H.failed held) (H.failed result.1)
        (H.at_failure result.1) (H.bytes result.1) }
    ensures flushed { result.0.played.end ≡ PlayEnd.Done → H.is_flushed result.1 ≡ true }
    ensures sum { result.0.played.end ≡ PlayEnd.Done → IsSome (H.bytes held)
        → result.0.sum ≡ sum_of_bytes (stream_of play result.0.played.history.entries) }
{
    let mut summing: Summing<H, S> = Summing {
        held,
        sum: 0,
        start: PhantomData,
    };
    let run = play_by(alloc, rt, play, words, &mut summing, gate);
    let Summing {
        held,
        sum,
        start: _,
    } = summing;
    (Run { sum, ..run }, held)
}

/// Plays a play by hosts, and adds up the bytes of its pictures.
fn summed_run<
    R: Threads + Wait + Copy + Drop + Send + Sync + 'static,
    O: Sink,
    G: Gate + Send + Drop + 'static,
>(alloc: Global, rt: &R, play: Play, words: Words, frames: &mut O, gate: G) -> Run
    requires more { is_on_one_thread words ≡ false }
    requires can_end { IsStuck play.app play.dbase → ⊥ }
    requires some { 1 ≤ words.ahead }
    requires few { words.ahead ≤ 4 }
    requires stream { IfSome words.stream (λ n. (1 ≤ n) × (n ≤ 4096)) }
    ensures players { result.players ≡ players_of words }
    ensures run { IsLeft play words.ahead result.played.end result.played.history.entries result.played.stats.items
        (O.written frames.old) (O.written frames.new) }
    ensures answers { result.played.end ≡ PlayEnd.Done
        → HasAnswers words play result.played.probes.items result.played.history.entries }
    ensures cause { EndsByFault result.played.end (O.faults frames.old) (O.faults frames.new)
        (O.at_fault frames.new) (O.written frames.new) }
    ensures flushed { result.played.end ≡ PlayEnd.Done → O.flushed frames.new ≡ true }
    ensures sum { result.played.end ≡ PlayEnd.Done → IsSome (O.written frames.old)
        → result.sum ≡ sum_of_bytes (stream_of play result.played.history.entries) }
{
    let lent = Lent { sink: frames };
    let (run, lent) = held_run::<R, Lent<O>, G, Brand>(alloc, rt, play, words, lent, gate);
    let Lent { sink: _frames } = lent;
    run
}

/// Plays a play by hosts, and adds up the bytes of its pictures if a summary is to be written.
pub(crate) fn run_of<
    R: Threads + Wait + Copy + Drop + Send + Sync + 'static,
    O: Sink,
    G: Gate + Send + Drop + 'static,
>(alloc: Global, rt: &R, play: Play, words: Words, frames: &mut O, gate: G) -> Run
    requires more { is_on_one_thread words ≡ false }
    requires can_end { IsStuck play.app play.dbase → ⊥ }
    requires some { 1 ≤ words.ahead }
    requires few { words.ahead ≤ 4 }
    requires stream { IfSome words.stream (λ n. (1 ≤ n) × (n ≤ 4096)) }
    ensures players { result.players ≡ players_of words }
    ensures run { IsLeft play words.ahead result.played.end result.played.history.entries result.played.stats.items
        (O.written frames.old) (O.written frames.new) }
    ensures answers { result.played.end ≡ PlayEnd.Done
        → HasAnswers words play result.played.probes.items result.played.history.entries }
    ensures cause { EndsByFault result.played.end (O.faults frames.old) (O.faults frames.new)
        (O.at_fault frames.new) (O.written frames.new) }
    ensures flushed { result.played.end ≡ PlayEnd.Done → O.flushed frames.new ≡ true }
    ensures sum { result.played.end ≡ PlayEnd.Done
        → IsSummed words play result.played.history.entries (O.written frames.old) result.sum }
{
    match words.make {
        Some(_) => summed_run(alloc, rt, play, words, frames, gate),
        None => play_by(alloc, rt, play, words, frames, gate),
    }
}

/// Appends the report of a play that came to its end, or the summary of one that was made.
fn append_account(
    alloc: Global,
    text: &mut Vec<u8>,
    make: Option<u16>,
    run: &Run,
) -> Result<(), NoMemory>
    ensures { (play : Script) (words : Words) → words.make ≡ make
        → HasNumbers play run.now.played.stats.items run.now.played.history.entries
        → OnOk result (text.new.items ≡ text.old.items ++ account words play run.now.played.history.entries run.now.sum) }
{
    let stats = run.played.stats.as_slice();
    match make {
        Some(n) => append_summary(
            alloc,
            text,
            u32::from(n),
            &run.played.history,
            stats,
            run.sum,
        ),
        None => append_report(alloc, text, &run.played.history, stats),
    }
}

/// Returns the text of a play that came to its end: its report or its summary, and then the results of its probe.
pub(crate) fn telling(alloc: Global, words: Words, run: &Run) -> Result<Vec<u8>, NoMemory>
    ensures { (play : Script) → HasNumbers play run.now.played.stats.items run.now.played.history.entries
        → HasAnswers words play run.now.played.probes.items run.now.played.history.entries
        → IfOk result (λ text. text.items ≡ told words play run.now.played.history.entries run.now.sum) }
{
    let mut text = Vec::new(alloc);
    append_account(alloc, &mut text, words.make, run)?;
    append_probes(alloc, &mut text, run.played.probes.as_slice())?;
    Ok(text)
}
