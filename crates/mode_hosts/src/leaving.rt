//! The end of a play on hosts, and what the play leaves.
ghost use Rattle.std.specs.Prelude.{◌≡◌, ◌≢◌, ℕ, true, false, List, [], drop, Option, None, OnOk};
ghost use Rattle.std.specs.Option.{option_map};
ghost use mathlib.Core.List.{IsPrefix};
ghost use Rattle.seat_lock.specs.Tokens.{lock_id};
ghost use Rattle.play_format.specs.Plays.{Script};
ghost use Rattle.pipe_plays.specs.Plays.{CanRun, setup_of};
ghost use Rattle.pipe_plays.specs.Played.{Blames, StaysWhole, LeavesPipe};
ghost use Rattle.nearest_hit.specs.declared.segment.Segment.{Segment};
ghost use Rattle.mode_hosts.specs.Seats.{app_site, way_site};
ghost use Rattle.mode_hosts.specs.Gathering.{own_seats};
ghost use Rattle.mode_hosts.specs.Probes.{AreAllTogether, AllKeep, has_failed, with_merges};
ghost use Rattle.mode_hosts.specs.Homes.{all_sites};
ghost use Rattle.mode_hosts.specs.Plays.{IsProbed, EndBlames};

use crate::gathering::gather;
use crate::seats::{AllSeats, ProbeWay};
use frame_stages::StageError;
use isect_stage::laws::{answers_follow_the_application, two_links_are_one};
use nearest_hit::Near;
use pf_io::Sink;
use pf_scene::Scene;
use pipe_plays::laws::a_pipe_shows_its_history;
use pipe_plays::{PlayEnd, Played, flush_frames};
use seat_lock::SeatLock;
use std::alloc::Global;
use std::sync::Wait;
use stream_stages::laws::streamed_frames_are_whole_ones;

/// Returns whether memory ran out for the probe.
fn has_failed(way: &Option<ProbeWay>) -> bool
    ensures { result ≡ has_failed (option_map way_site way.now) }
{
    match way {
        Some(way) => way.stage.has_failed(),
        None => false,
    }
}

/// What the application's polls came to is what the play came to, unless memory ran out for one of the two stages that
/// make entries or for the probe. At the end the frame sink is flushed.
fn finish<O: Sink>(
    came: Result<(), StageError>,
    app_ended: bool,
    dbase_ended: bool,
    probe_failed: bool,
    frames: &mut O,
) -> Result<(), StageError>
    ensures app { OnOk result (app_ended ≡ true) }
    ensures dbase { OnOk result (dbase_ended ≡ true) }
    ensures probe { OnOk result (probe_failed ≡ false) }
    ensures bytes { O.written frames.new ≡ O.written frames.old }
    ensures flushed { OnOk result (O.flushed frames.new ≡ true) }
    ensures uncut { (fault : Option ℕ) → StaysWhole came None fault → StaysWhole result None fault }
    ensures blames { (before : ℕ)
        → Blames came before (O.faults frames.old) (O.at_fault frames.old) (O.written frames.old)
        → Blames result before (O.faults frames.new) (O.at_fault frames.new) (O.written frames.new) }
{
    came?;
    if !app_ended {
        return Err(StageError::NoMemory);
    }
    if !dbase_ended {
        return Err(StageError::NoMemory);
    }
    if probe_failed {
        return Err(StageError::NoMemory);
    }
    flush_frames(frames)
}

/// Returns the results of the probe, if the play came to its end; else none.
fn answers_at(alloc: Global, end: PlayEnd, answers: Vec<Option<Near>>) -> Vec<Option<Near>>
    ensures done { end ≡ PlayEnd.Done → result.items ≡ answers.items }
    ensures early { end ≢ PlayEnd.Done → result.items ≡ [] }
{
    if end == PlayEnd::Done {
        answers
    } else {
        Vec::new(alloc)
    }
}

/// Joins the seats and returns what the play leaves. The application's polls came to `came`. What the seats keep may be of
/// an application that waits for another number of merges before it closes: that is over.
pub(crate) fn leave<R: Wait, D: Wait + Drop, O: Sink>(
    rt: &R,
    alloc: Global,
    lock: &SeatLock<Scene>,
    seats: AllSeats<D>,
    came: Result<(), StageError>,
    frames: &mut O,
) -> Played
    requires { AreAllTogether (lock_id lock.now) (all_sites seats) }
    ensures leaves { (play : Script) (ahead merges : ℕ) (probe : Option Segment) (bytes : Option (List ℕ)) → CanRun play ahead
        → AllKeep (setup_of play ahead) play.dbase probe (with_merges merges (all_sites seats)) bytes (O.written frames.old)
        → StaysWhole came None (app_site seats.app).work.state.fault
        → LeavesPipe play ahead own_seats result.end result.history.entries (app_site seats.app).work.state.stats bytes
        (O.written frames.new) }
    ensures stats { result.stats.items ≡ drop (app_site seats.app).work.told (app_site seats.app).work.state.stats }
    ensures front { IsPrefix (app_site seats.app).place.seen result.history.entries }
    ensures probes { (play : Script) (ahead merges : ℕ) (probe : Option Segment) (bytes : Option (List ℕ)) → CanRun play ahead
        → AllKeep (setup_of play ahead) play.dbase probe (with_merges merges (all_sites seats)) bytes (O.written frames.old)
        → IsProbed play.channels probe result.end result.history.entries result.probes.items }
    ensures flushed { result.end ≡ PlayEnd.Done → O.flushed frames.new ≡ true }
    ensures blames { (before : ℕ)
        → Blames came before (O.faults frames.old) (O.at_fault frames.old) (O.written frames.old)
        → EndBlames result.end before (O.faults frames.new) (O.at_fault frames.new) (O.written frames.new) }
{
    a_pipe_shows_its_history();
    answers_follow_the_application();
    two_links_are_one();
    streamed_frames_are_whole_ones();
    let app_ended = seats.app.stage.has_ended();
    let dbase_ended = seats.dbase.stage.has_ended();
    let probe_failed = has_failed(&seats.probe.way);
    let came = finish(came, app_ended, dbase_ended, probe_failed, frames);
    let gathered = gather(rt, alloc, lock, seats);
    let end = PlayEnd::of(came);
    Played {
        end,
        history: gathered.history,
        stats: gathered.stats,
        probes: answers_at(alloc, end, gathered.answers),
    }
}
