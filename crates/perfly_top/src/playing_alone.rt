//! A play that is played on one thread, which waits for nobody.
ghost use Rattle.std.specs.Prelude.{◌≡◌, ◌≤◌, true, Some, IsSome, IfSome};
ghost use Rattle.play_check.specs.Stuck.{IsStuck};
ghost use Rattle.pipe_plays.specs.Laws.{IsLeft};
ghost use Rattle.program_ends.specs.Played.{stream_of};
ghost use Rattle.perfly_top.specs.Program.{IsSummed};
ghost use Rattle.perfly_top.specs.Sums.{sum_of_bytes};
ghost use Rattle.perfly_top.specs.Runs.{EndsByFault, HasAnswers};
ghost use Rattle.perfly_top.specs.Setups.{is_on_one_thread, players_of};

use crate::playing::Run;
use crate::setup::Players;
use crate::summing::{Held, Lent, Start, Summing};
use pf_io::{Gate, Sink};
use pipe_core::PlayEnd;
use play_format::Play;
use program_words::Words;
use std::alloc::Global;
use std::marker::{Brand, PhantomData};
use std::thread::Threads;

/// Plays a play with all stages on one thread. Nothing is added up.
fn play_alone<R: Threads + Sync, O: Sink, G: Gate>(
    alloc: Global,
    rt: &R,
    play: Play,
    words: Words,
    frames: &mut O,
    gate: &G,
) -> Run
    requires alone { is_on_one_thread words ≡ true }
    requires can_end { IsStuck play.app play.dbase → ⊥ }
    requires some { 1 ≤ words.ahead }
    requires few { words.ahead ≤ 4 }
    requires stream { IfSome words.stream (λ n. (1 ≤ n) × (n ≤ 4096)) }
    ensures players { result.players ≡ players_of words }
    ensures run { IsLeft play words.ahead result.played.end result.played.history.entries result.played.stats.items
        (O.written frames.old) (O.written frames.new) }
    ensures answers { result.played.end ≡ PlayEnd.Done
        → HasAnswers words play result.played.probes.items result.played.history.entries }
    ensures cause { EndsByFault result.played.end (O.faults frames.old) (O.faults frames.new)
        (O.at_fault frames.new) (O.written frames.new) }
    ensures flushed { result.played.end ≡ PlayEnd.Done → O.flushed frames.new ≡ true }
{
    Run {
        played: pipe_core::play_all(alloc, rt, play, words.ahead, frames, gate),
        players: Players::Alone(words.ahead),
        sum: 0,
    }
}

/// Plays a play on one thread into a sink that is held, adds up the bytes of its pictures, and returns the sink.
fn held_alone<R: Threads + Sync, H: Held, G: Gate, S: Start>(
    alloc: Global,
    rt: &R,
    play: Play,
    words: Words,
    held: H,
    gate: &G,
) -> (Run, H)
    requires start { S.start ≡ H.bytes held }
    requires loan { S.loan ≡ Some (H.loan held) }
    requires alone { is_on_one_thread words ≡ true }
    requires can_end { IsStuck play.app play.dbase → ⊥ }
    requires some { 1 ≤ words.ahead }
    requires few { words.ahead ≤ 4 }
    requires stream { IfSome words.stream (λ n. (1 ≤ n) × (n ≤ 4096)) }
    ensures same { H.loan result.1 ≡ H.loan held }
    ensures players { result.0.players ≡ players_of words }
    ensures run { IsLeft play words.ahead result.0.played.end result.0.played.history.entries result.0.played.stats.items
        (H.bytes held) (H.bytes result.1) }
    ensures answers { result.0.played.end ≡ PlayEnd.Done
        → HasAnswers words play result.0.played.probes.items result.0.played.history.entries }
    ensures cause { EndsByFault result.0.played.end (H.failed held) (H.failed result.1)
        (H.at_failure result.1) (H.bytes result.1) }
    ensures flushed { result.0.played.end ≡ PlayEnd.Done → H.is_flushed result.1 ≡ true }
    ensures sum { result.0.played.end ≡ PlayEnd.Done → IsSome (H.bytes held)
        → result.0.sum ≡ sum_of_bytes (stream_of play result.0.played.history.entries) }
{
    let mut summing: Summing<H, S> = Summing {
        held,
        sum: 0,
        start: PhantomData,
    };
    let run = play_alone(alloc, rt, play, words, &mut summing, gate);
    let Summing {
        held,
        sum,
        start: _,
    } = summing;
    (Run { sum, ..run }, held)
}

/// Plays a play on one thread, and adds up the bytes of its pictures.
fn summed_alone<R: Threads + Sync, O: Sink, G: Gate>(
    alloc: Global,
    rt: &R,
    play: Play,
    words: Words,
    frames: &mut O,
    gate: &G,
) -> Run
    requires alone { is_on_one_thread words ≡ true }
    requires can_end { IsStuck play.app play.dbase → ⊥ }
    requires some { 1 ≤ words.ahead }
    requires few { words.ahead ≤ 4 }
    requires stream { IfSome words.stream (λ n. (1 ≤ n) × (n ≤ 4096)) }
    ensures players { result.players ≡ players_of words }
    ensures run { IsLeft play words.ahead result.played.end result.played.history.entries result.played.stats.items
        (O.written frames.old) (O.written frames.new) }
    ensures answers { result.played.end ≡ PlayEnd.Done
        → HasAnswers words play result.played.probes.items result.played.history.entries }
    ensures cause { EndsByFault result.played.end (O.faults frames.old) (O.faults frames.new)
        (O.at_fault frames.new) (O.written frames.new) }
    ensures flushed { result.played.end ≡ PlayEnd.Done → O.flushed frames.new ≡ true }
    ensures sum { result.played.end ≡ PlayEnd.Done → IsSome (O.written frames.old)
        → result.sum ≡ sum_of_bytes (stream_of play result.played.history.entries) }
{
    let lent = Lent { sink: frames };
    let (run, lent) = held_alone::<R, Lent<O>, G, Brand>(alloc, rt, play, words, lent, gate);
    let Lent { sink: _frames } = lent;
    run
}

/// Plays a play on one thread, and adds up the bytes of its pictures if a summary is to be written.
pub(crate) fn run_alone<R: Threads + Sync, O: Sink, G: Gate>(
    alloc: Global,
    rt: &R,
    play: Play,
    words: Words,
    frames: &mut O,
    gate: &G,
) -> Run
    requires alone { is_on_one_thread words ≡ true }
    requires can_end { IsStuck play.app play.dbase → ⊥ }
    requires some { 1 ≤ words.ahead }
    requires few { words.ahead ≤ 4 }
    requires stream { IfSome words.stream (λ n. (1 ≤ n) × (n ≤ 4096)) }
    ensures players { result.players ≡ players_of words }
    ensures run { IsLeft play words.ahead result.played.end result.played.history.entries result.played.stats.items
        (O.written frames.old) (O.written frames.new) }
    ensures answers { result.played.end ≡ PlayEnd.Done
        → HasAnswers words play result.played.probes.items result.played.history.entries }
    ensures cause { EndsByFault result.played.end (O.faults frames.old) (O.faults frames.new)
        (O.at_fault frames.new) (O.written frames.new) }
    ensures flushed { result.played.end ≡ PlayEnd.Done → O.flushed frames.new ≡ true }
    ensures sum { result.played.end ≡ PlayEnd.Done
        → IsSummed words play result.played.history.entries (O.written frames.old) result.sum }
{
    match words.make {
        Some(_) => summed_alone(alloc, rt, play, words, frames, gate),
        None => play_alone(alloc, rt, play, words, frames, gate),
    }
}
