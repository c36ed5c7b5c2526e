//! Whole plays on hosts.
ghost use Rattle.std.specs.Prelude.{◌≡◌, ◌≢◌, ◌≤◌, ℕ, true, false, List, [], Option, None, IfOk, IfSome, IfNone};
ghost use Rattle.std.specs.Arc.{arc_value};
ghost use Rattle.std.specs.List.{concat};
ghost use Rattle.std.specs.Io.KnownBytes.{append_known};
ghost use Rattle.pf_io.specs.Causes.{Calm, Rose};
ghost use Rattle.seat_lock.specs.Tokens.{lock_id};
ghost use Rattle.pf_history.specs.Logs.{IsLegal};
ghost use Rattle.pf_history.specs.Fits.{FitsPlay, FitsWholly};
ghost use Rattle.play_format.specs.Plays.{IsPlay};
ghost use Rattle.play_check.specs.Stuck.{IsStuck};
ghost use Rattle.stage_parts.specs.Pictures.{pictures, frame_numbers};
ghost use Rattle.pf_scene.specs.Scenes.{IsSmall};
ghost use Rattle.pipe_plays.specs.Plays.{setup_of};
ghost use Rattle.pipe_plays.specs.Played.{AddsFront, KeepsNumbers, LeavesPipe};
ghost use Rattle.isect_stage.specs.Asking.{nearest_hits};
ghost use Rattle.mode_hosts.specs.Works.{limit_of};
ghost use Rattle.mode_hosts.specs.Seats.{app_site, any_cull};
ghost use Rattle.mode_hosts.specs.Gathering.{own_seats};
ghost use Rattle.mode_hosts.specs.Probes.{AreAllTogether, AllKeep};
ghost use Rattle.mode_hosts.specs.Homes.{all_sites};

use crate::bell::Bell;
use crate::caller::{Ended, run_all, seats_of};
use crate::hosts::Common;
use crate::leaving::leave;
use crate::modes::Setup;
use crate::opening::{Opened, open};
use pf_history::History;
use pf_io::{Gate, NoMemory, Sink};
use pipe_plays::laws::{a_play_leaves_its_history, a_play_not_begun_leaves_nothing};
use pipe_plays::{PlayEnd, Played};
use play_format::Play;
use std::alloc::Global;
use std::sync::{Arc, Wait};
use std::thread::Threads;

/// The seats of a play before its first step, and what its hosts share.
#[derive(Drop)]
pub(crate) struct Ready<R, G> {
    pub(crate) opened: Opened<R>,
    pub(crate) common: Arc<Common<G>, Global>,
}

/// Opens a play as the setup asks for it, if there is memory for it.
pub(crate) fn get_ready<R: Wait + Copy + Drop, G: Drop>(
    alloc: Global,
    rt: &R,
    play: Play,
    setup: &Setup,
    gate: G,
) -> Result<Ready<R, G>, NoMemory>
    requires ahead { IsSmall setup.now.ahead }
    requires stream { IfSome setup.now.stream (λ n. (1 ≤ n) × (n ≤ 4096)) }
    ensures play { IsPlay play }
    ensures together { IfOk result (λ r. AreAllTogether (lock_id (arc_value r.opened.lock)) (all_sites r.opened.seats)) }
    ensures limit { IfOk result (λ r. limit_of (any_cull r.opened.seats.cull.stage) ≡ setup.now.stream) }
    ensures uncut { IfOk result (λ r. (app_site r.opened.seats.app).work.state.fault ≡ None) }
    ensures untold { IfOk result (λ r. (app_site r.opened.seats.app).work.told ≡ 0) }
    ensures going { IfOk result (λ r. (app_site r.opened.seats.app).work.state.closed ≡ false) }
    ensures keeps { IfOk result (λ r. (bytes : Option (List ℕ))
        → AllKeep (setup_of play setup.now.ahead) play.dbase setup.now.probe (all_sites r.opened.seats) bytes bytes) }
{
    let opened = open(*rt, alloc, play, setup)?;
    let bell = Bell::new();
    let common = Arc::new(alloc, Common { bell, gate })?;
    Ok(Ready { opened, common })
}

/// Plays a play that is not stuck, its stages divided among hosts by the setup, and writes the pictures of its frames
/// to `frames`, which the caller's thread alone uses. At the end it flushes the sink. A host that gets no thread is
/// polled by the caller. The stages pass the gate before each frame and each merge.
///
/// If the setup has a segment, a probe between the application and the cull, on a thread of its own, finds its nearest
/// hit in each frame. If it has a limit for pieces, the draw lists go from the cull to the draw in pieces.
///
/// Returns how the play ended, its history, the numbers of the returned frames, and the results of the probe. The end
/// is `FrameFault` only if the frame sink reported a fault, `NoMemory` if memory ran out, and else `Done`.
pub fn play_all<
    R: Threads + Wait + Copy + Drop + Send + Sync + 'static,
    O: Sink,
    G: Gate + Send + Drop + 'static,
>(alloc: Global, rt: &R, play: Play, setup: &Setup, frames: &mut O, gate: G) -> Played
    requires can_end { IsStuck play.app play.dbase → ⊥ }
    requires some { 1 ≤ setup.now.ahead }
    requires few { setup.now.ahead ≤ 4 }
    requires stream { IfSome setup.now.stream (λ n. (1 ≤ n) × (n ≤ 4096)) }

    // Its history is one of the play.
    ensures legal { IsLegal play.channels result.history.entries }
    ensures fits { FitsPlay play.channels setup.now.ahead play.app play.dbase result.history.entries }
    ensures wholly { result.end ≡ PlayEnd.Done
        → FitsWholly play.channels setup.now.ahead play.app play.dbase result.history.entries }

    // Some pipe that fits the play, whose stages have desks of their own, has this history, these numbers and this
    // stream.
    ensures pipe { LeavesPipe play setup.now.ahead own_seats result.end result.history.entries result.stats.items
        (O.written frames.old) (O.written frames.new) }

    // The stream is whole pictures of the history, and a prefix of the next one only if a fault of the sink cut it
    // short.
    ensures front { AddsFront play result.end result.history.entries (O.written frames.old) (O.written frames.new) }
    ensures whole { result.end ≡ PlayEnd.Done → O.written frames.new ≡ append_known (O.written frames.old)
        (concat (pictures play.channels play.lens play.back result.history.entries)) }
    ensures stats { result.end ≡ PlayEnd.Done
        → result.stats.items ≡ frame_numbers play.channels play.lens result.history.entries }

    // Whatever the end, the numbers are those of the returned frames: the first of the history's.
    ensures numbers { KeepsNumbers play result.end result.history.entries result.stats.items
        (O.written frames.old) (O.written frames.new) }

    // If it is done, the last call on the sink was a flush that succeeded.
    ensures flushed { result.end ≡ PlayEnd.Done → O.flushed frames.new ≡ true }

    // If it is done, the nearest hit of the segment of the setup in each Frame of the history, in turn. Without a
    // segment, or at another end, there are none.
    ensures probes { result.end ≡ PlayEnd.Done → IfSome setup.now.probe (λ segment.
        result.probes.items ≡ nearest_hits play.channels segment result.history.entries) }
    ensures no_probe { IfNone setup.now.probe (result.probes.items ≡ []) }
    ensures early { result.end ≢ PlayEnd.Done → result.probes.items ≡ [] }

    // Causes.
    ensures fault { result.end ≡ PlayEnd.FrameFault → Rose (O.faults frames.old) (O.faults frames.new) }
    ensures last { result.end ≡ PlayEnd.FrameFault → O.at_fault frames.new ≡ O.written frames.new }
    ensures calm { result.end ≢ PlayEnd.FrameFault → Calm (O.faults frames.old) (O.faults frames.new) }
{
    a_play_leaves_its_history();
    a_play_not_begun_leaves_nothing();
    match get_ready(alloc, rt, play, setup, gate) {
        Ok(ready) => {
            let Ready { opened, common } = ready;
            let Opened { lock, seats } = opened;
            let Ended { app, crews, came } = run_all(rt, alloc, &common, setup, seats, frames);
            let seats = seats_of(app, crews);
            leave(rt, alloc, &lock, seats, came, frames)
        }
        Err(NoMemory) => Played {
            end: PlayEnd::NoMemory,
            history: History::new(alloc),
            stats: Vec::new(alloc),
            probes: Vec::new(alloc),
        },
    }
}
