//! A whole play on one thread: rounds of events until all stages are over.
ghost use Rattle.std.specs.Prelude.{◌≡◌, ◌≢◌, ◌↔◌, ℕ, ◌+◌, ◌*◌, ◌≤◌, IsTrue, true, false, [], IfOk, OnOk};
ghost use Rattle.std.specs.List.{concat};
ghost use Rattle.std.specs.Io.KnownBytes.{append_known};
ghost use Rattle.pf_io.specs.Causes.{Calm, Rose};
ghost use Rattle.pf_history.specs.Logs.{IsLegal};
ghost use Rattle.pf_history.specs.Fits.{FitsPlay, FitsWholly};
ghost use Rattle.play_format.specs.Plays.{Script, IsPlay};
ghost use Rattle.play_check.specs.Stuck.{IsStuck};
ghost use Rattle.stage_parts.specs.Pictures.{pictures, frame_numbers};
ghost use Rattle.pipe_plays.specs.Plays.{CanRun};
ghost use Rattle.pipe_core.specs.Cores.{one_seat, HaveAllEnded};
ghost use Rattle.pipe_core.specs.Laws.{steps_in};
ghost use Rattle.pipe_core.specs.Pipes.{core_of, PipeKeeps};
ghost use Rattle.pipe_plays.specs.Played.{AddsFront, KeepsNumbers, LeavesPipe, Blames, StaysWhole};
ghost use Rattle.pipe_core.specs.Hosts.{all_events, GoesOn, ArePolled};

use crate::events::Event;
use crate::pipe::Pipe;
use frame_stages::{Did, StageError};
use pf_history::History;
use pf_io::{Gate, NoMemory, Sink};
use pipe_plays::laws::{
    a_pipe_shows_its_history, a_play_leaves_its_history, a_play_not_begun_leaves_nothing,
};
use pipe_plays::{PlayEnd, Played, flush_frames};
use play_format::Play;
use std::alloc::Global;
use std::thread::Threads;

/// Whether the stage was over.
fn is_over(did: Did) -> bool
    ensures { IsTrue result ↔ (did ≡ Did.Over) }
{
    did == Did::Over
}

/// Polls in order, up to the first error: whether each found its stage over.
fn poll_each<R: Threads + Sync, O: Sink, G: Gate>(
    pipe: &mut Pipe,
    rt: &R,
    events: &[Event],
    frames: &mut O,
    gate: &G,
) -> Result<bool, StageError>
    ensures goes { (play : Script) (ahead : ℕ) → CanRun play ahead → PipeKeeps play ahead pipe.old
        → GoesOn play ahead pipe.old pipe.new (O.written frames.old) (O.written frames.new) }
    ensures polled { (play : Script) (ahead : ℕ) → CanRun play ahead → PipeKeeps play ahead pipe.old
        → IfOk result (λ over. ArePolled play ahead events.now over (core_of play pipe.old) (core_of play pipe.new)) }
    ensures uncut { StaysWhole result pipe.old.app.state.fault pipe.new.app.state.fault }
    ensures blames { Blames result (O.faults frames.old) (O.faults frames.new) (O.at_fault frames.new) (O.written frames.new) }
{
    let mut over = true;
    for event in events {
        let did = pipe.poll_with(rt, *event, frames, gate)?;
        over &= is_over(did);
    }
    Ok(over)
}

/// A round: a poll of each stage, up to the first error. It tells whether all of them were over.
fn round<R: Threads + Sync, O: Sink, G: Gate>(
    pipe: &mut Pipe,
    rt: &R,
    frames: &mut O,
    gate: &G,
) -> Result<bool, StageError>
    ensures goes { (play : Script) (ahead : ℕ) → CanRun play ahead → PipeKeeps play ahead pipe.old
        → GoesOn play ahead pipe.old pipe.new (O.written frames.old) (O.written frames.new) }
    ensures polled { (play : Script) (ahead : ℕ) → CanRun play ahead → PipeKeeps play ahead pipe.old
        → IfOk result (λ over. ArePolled play ahead all_events over (core_of play pipe.old) (core_of play pipe.new)) }
    ensures uncut { StaysWhole result pipe.old.app.state.fault pipe.new.app.state.fault }
    ensures blames { Blames result (O.faults frames.old) (O.faults frames.new) (O.at_fault frames.new) (O.written frames.new) }
{
    poll_each(
        pipe,
        rt,
        &[Event::App, Event::Cull, Event::Draw, Event::Dbase],
        frames,
        gate,
    )
}

/// Rounds until all stages are over, up to the first error, and at most so many.
fn rounds<R: Threads + Sync, O: Sink, G: Gate>(
    pipe: &mut Pipe,
    rt: &R,
    most: usize,
    frames: &mut O,
    gate: &G,
) -> Result<(), StageError>
    ensures goes { (play : Script) (ahead : ℕ) → CanRun play ahead → PipeKeeps play ahead pipe.old
        → GoesOn play ahead pipe.old pipe.new (O.written frames.old) (O.written frames.new) }
    ensures ended { (play : Script) (ahead : ℕ) → CanRun play ahead → (IsStuck play.app play.dbase → ⊥)
        → PipeKeeps play ahead pipe.old → (core_of play pipe.old).stopped ≡ false → 16 * (steps_in play + 1) ≤ most
        → OnOk result (HaveAllEnded play (core_of play pipe.new).pipe) }
    ensures uncut { StaysWhole result pipe.old.app.state.fault pipe.new.app.state.fault }
    ensures blames { Blames result (O.faults frames.old) (O.faults frames.new) (O.at_fault frames.new) (O.written frames.new) }
{
    for _made in 0..most {
        let over = round(pipe, rt, frames, gate)?;
        if over {
            return Ok(());
        }
    }
    Ok(())
}

/// Plays to the end, or to the first error; at the end it flushes the sink.
fn run<R: Threads + Sync, O: Sink, G: Gate>(
    pipe: &mut Pipe,
    rt: &R,
    most: usize,
    frames: &mut O,
    gate: &G,
) -> Result<(), StageError>
    ensures goes { (play : Script) (ahead : ℕ) → CanRun play ahead → PipeKeeps play ahead pipe.old
        → GoesOn play ahead pipe.old pipe.new (O.written frames.old) (O.written frames.new) }
    ensures ended { (play : Script) (ahead : ℕ) → CanRun play ahead → (IsStuck play.app play.dbase → ⊥)
        → PipeKeeps play ahead pipe.old → (core_of play pipe.old).stopped ≡ false → 16 * (steps_in play + 1) ≤ most
        → OnOk result (HaveAllEnded play (core_of play pipe.new).pipe) }
    ensures flushed { OnOk result (O.flushed frames.new ≡ true) }
    ensures uncut { StaysWhole result pipe.old.app.state.fault pipe.new.app.state.fault }
    ensures blames { Blames result (O.faults frames.old) (O.faults frames.new) (O.at_fault frames.new) (O.written frames.new) }
{
    rounds(pipe, rt, most, frames, gate)?;
    flush_frames(frames)
}

/// So many rounds end each play that is not stuck.
fn most_rounds(play: &Play) -> usize
    ensures enough { result ≡ 16 * (steps_in play.now + 1) }
    ensures is_play { IsPlay play.now }
{
    16 * (play.app().len() + play.dbase().len() + 1)
}

/// Plays a play that is not stuck, with up to `ahead` frames in flight, 1 to 4, and writes the pictures of its frames to
/// `frames`; at the end it flushes the sink.
pub fn play_all<R: Threads + Sync, O: Sink, G: Gate>(
    alloc: Global,
    rt: &R,
    play: Play,
    ahead: u8,
    frames: &mut O,
    gate: &G,
) -> Played
    requires can_end { IsStuck play.app play.dbase → ⊥ }
    requires some { 1 ≤ ahead }
    requires few { ahead ≤ 4 }

    // Its history is one of the play.
    ensures legal { IsLegal play.channels result.history.entries }
    ensures fits { FitsPlay play.channels ahead play.app play.dbase result.history.entries }
    ensures wholly { result.end ≡ PlayEnd.Done
        → FitsWholly play.channels ahead play.app play.dbase result.history.entries }

    // Some pipe that fits the play, whose stages have one desk, has this history, these numbers and this stream.
    ensures pipe { LeavesPipe play ahead one_seat result.end result.history.entries result.stats.items
        (O.written frames.old) (O.written frames.new) }

    // The stream is whole pictures of the history, and a prefix of the next one only where a fault of the sink cut it short.
    ensures front { AddsFront play result.end result.history.entries (O.written frames.old) (O.written frames.new) }
    ensures whole { result.end ≡ PlayEnd.Done → O.written frames.new ≡ append_known (O.written frames.old)
        (concat (pictures play.channels play.lens play.back result.history.entries)) }
    ensures stats { result.end ≡ PlayEnd.Done
        → result.stats.items ≡ frame_numbers play.channels play.lens result.history.entries }

    // Whatever the end, the numbers are those of the frames that came back: the first of the history's.
    ensures numbers { KeepsNumbers play result.end result.history.entries result.stats.items
        (O.written frames.old) (O.written frames.new) }

    // There is no probe.
    ensures probes { result.probes.items ≡ [] }

    // Where it is done, the last call on the sink was a flush that succeeded.
    ensures flushed { result.end ≡ PlayEnd.Done → O.flushed frames.new ≡ true }

    // Causes.
    ensures fault { result.end ≡ PlayEnd.FrameFault → Rose (O.faults frames.old) (O.faults frames.new) }
    ensures last { result.end ≡ PlayEnd.FrameFault → O.at_fault frames.new ≡ O.written frames.new }
    ensures calm { result.end ≢ PlayEnd.FrameFault → Calm (O.faults frames.old) (O.faults frames.new) }
{
    a_pipe_shows_its_history();
    a_play_leaves_its_history();
    a_play_not_begun_leaves_nothing();
    let most = most_rounds(&play);
    match Pipe::new(alloc, play, ahead) {
        Ok(mut pipe) => {
            let came = run(&mut pipe, rt, most, frames, gate);
            let (history, stats) = pipe.into_parts();
            Played {
                end: PlayEnd::of(came),
                history,
                stats,
                probes: Vec::new(alloc),
            }
        }
        Err(NoMemory) => Played {
            end: PlayEnd::NoMemory,
            history: History::new(alloc),
            stats: Vec::new(alloc),
            probes: Vec::new(alloc),
        },
    }
}
