//! What the caller's thread does while a play runs: it polls the application, and the crews that no host has.
ghost use Rattle.std.specs.Prelude.{◌≡◌};
ghost use Rattle.pipe_plays.specs.Played.{Blames, StaysWhole};
ghost use Rattle.mode_hosts.specs.declared.modes.Crews.{Crews};
ghost use Rattle.mode_hosts.specs.Sites.{AppGoes};
ghost use Rattle.mode_hosts.specs.Seats.{app_site, cull_site, draw_site, dbase_site, probe_site, crew_state};
ghost use Rattle.mode_hosts.specs.Crews.{full_crew, all_of, divided, HasAll, CrewsGo};
ghost use Rattle.mode_hosts.specs.Posts.{crews_state, ArePosts};

use crate::crew::{Crew, Polled};
use crate::hosts::Common;
use crate::modes::{Crews, Setup, crews_of};
use crate::posts::{Posts, posts_of};
use crate::seats::{AllSeats, AppSeat, CullSeat, DbaseSeat, DrawSeat, ProbeSeat};
use crate::words::Noted;
use frame_stages::{Did, StageError};
use pf_io::{Gate, Sink};
use std::alloc::Global;
use std::sync::{Arc, Wait};
use std::thread::Threads;

/// The most further polls of the application before it rings.
const MORE: u32 = 1_023;

/// A poll of the application. After an error, which has set the stop mark, it rings.
pub(crate) fn poll_app<R: Wait, O: Sink, G: Gate>(
    common: &Common<G>,
    app: &mut AppSeat<R>,
    frames: &mut O,
) -> Result<Did, StageError>
    ensures goes { AppGoes (app_site app.old) (app_site app.new) (O.written frames.old) (O.written frames.new) }
    ensures uncut { StaysWhole result (app_site app.old).work.state.fault (app_site app.new).work.state.fault }
    ensures blames { Blames result (O.faults frames.old) (O.faults frames.new) (O.at_fault frames.new) (O.written frames.new) }
{
    match app.poll(frames, common) {
        Ok(did) => Ok(did),
        Err(error) => {
            common.bell.ring();
            Err(error)
        }
    }
}

/// Polls the application further, `MORE` times at most, for as long as each poll does something and nobody rings. Most
/// are edits, which nobody waits for, and one ring serves them all. A frame rings at its gate, so the stages that are
/// with the caller are polled behind each frame.
fn go_on<R: Wait, O: Sink, G: Gate>(
    common: &Common<G>,
    app: &mut AppSeat<R>,
    frames: &mut O,
    noted: &Noted,
) -> Result<(), StageError>
    ensures goes { AppGoes (app_site app.old) (app_site app.new) (O.written frames.old) (O.written frames.new) }
    ensures uncut { StaysWhole result (app_site app.old).work.state.fault (app_site app.new).work.state.fault }
    ensures blames { Blames result (O.faults frames.old) (O.faults frames.new) (O.at_fault frames.new) (O.written frames.new) }
{
    for poll in 0..MORE {
        if common.bell.has_rung_since(noted) {
            return Ok(());
        }
        let did = poll_app(common, app, frames)?;
        if did != Did::Did {
            return Ok(());
        }
    }
    Ok(())
}

/// Polls the application further, if its last poll did something and no other stage of the caller did.
pub(crate) fn more_where_calm<R: Wait, O: Sink, G: Gate>(
    common: &Common<G>,
    app: &mut AppSeat<R>,
    frames: &mut O,
    noted: &Noted,
    did: Did,
    others: Did,
) -> Result<(), StageError>
    ensures goes { AppGoes (app_site app.old) (app_site app.new) (O.written frames.old) (O.written frames.new) }
    ensures uncut { StaysWhole result (app_site app.old).work.state.fault (app_site app.new).work.state.fault }
    ensures blames { Blames result (O.faults frames.old) (O.faults frames.new) (O.at_fault frames.new) (O.written frames.new) }
{
    if did == Did::Did && others != Did::Did {
        go_on(common, app, frames, noted)
    } else {
        Ok(())
    }
}

/// Polls the application and each stage that is with the caller, after a note of the bell. Returns what the polls came
/// to. If the application did something and no other did, further polls of the application follow.
fn round<'a, R: Threads + Wait + Sync + Drop, O: Sink, G: Gate>(
    rt: &R,
    common: &Common<G>,
    app: &mut AppSeat<R>,
    posts: &mut Posts<R>,
    frames: &mut O,
    noted: &'a Noted,
) -> Result<Polled<'a>, StageError>
    ensures goes { AppGoes (app_site app.old) (app_site app.new) (O.written frames.old) (O.written frames.new) }
    ensures uncut { StaysWhole result (app_site app.old).work.state.fault (app_site app.new).work.state.fault }
    ensures posts { (crews : Crews R) → ArePosts crews posts.old → ArePosts crews posts.new }
    ensures blames { Blames result (O.faults frames.old) (O.faults frames.new) (O.at_fault frames.new) (O.written frames.new) }
{
    let did = poll_app(common, app, frames)?;
    let others = posts.poll(rt, &common.gate, noted);
    more_where_calm(common, app, frames, noted, did, others.did())?;
    Ok(others.and(did))
}

/// Polls in a round, then rings if something was done or all is over, and else waits. Returns whether all is over.
fn turn<R: Threads + Wait + Sync + Drop, O: Sink, G: Gate>(
    rt: &R,
    common: &Common<G>,
    app: &mut AppSeat<R>,
    posts: &mut Posts<R>,
    frames: &mut O,
) -> Result<bool, StageError>
    ensures goes { AppGoes (app_site app.old) (app_site app.new) (O.written frames.old) (O.written frames.new) }
    ensures uncut { StaysWhole result (app_site app.old).work.state.fault (app_site app.new).work.state.fault }
    ensures posts { (crews : Crews R) → ArePosts crews posts.old → ArePosts crews posts.new }
    ensures blames { Blames result (O.faults frames.old) (O.faults frames.new) (O.at_fault frames.new) (O.written frames.new) }
{
    let noted = common.bell.note();
    let polled = round(rt, common, app, posts, frames, &noted)?;
    let did = polled.did();
    common.bell.tell(rt, polled);
    Ok(did == Did::Over)
}

/// Polls the application and the stages that are with the caller until all of them are over, or up to the application's
/// error.
pub(crate) fn run_here<R: Threads + Wait + Sync + Drop, O: Sink, G: Gate>(
    rt: &R,
    common: &Common<G>,
    app: &mut AppSeat<R>,
    posts: &mut Posts<R>,
    frames: &mut O,
) -> Result<(), StageError>
    ensures goes { AppGoes (app_site app.old) (app_site app.new) (O.written frames.old) (O.written frames.new) }
    ensures uncut { StaysWhole result (app_site app.old).work.state.fault (app_site app.new).work.state.fault }
    ensures posts { (crews : Crews R) → ArePosts crews posts.old → ArePosts crews posts.new }
    ensures blames { Blames result (O.faults frames.old) (O.faults frames.new) (O.at_fault frames.new) (O.written frames.new) }
{
    for _ in rt.forever() {
        let over = turn(rt, common, app, posts, frames)?;
        if over {
            return Ok(());
        }
    }
    unreachable!()
}

/// The stages of a crew that has all of them.
#[derive(Drop)]
struct Stages<R> {
    cull: CullSeat<R>,
    draw: DrawSeat<R>,
    dbase: DbaseSeat<R>,
    probe: ProbeSeat<R>,
}

fn stages_of<R>(crew: Crew<R>) -> Stages<R>
    requires { HasAll (crew_state crew) }
    ensures { full_crew (cull_site result.cull) (draw_site result.draw) (dbase_site result.dbase) (probe_site result.probe)
        ≡ crew_state crew }
{
    let Crew {
        cull,
        draw,
        dbase,
        probe,
    } = crew;
    Stages {
        cull: cull.unwrap(),
        draw: draw.unwrap(),
        dbase: dbase.unwrap(),
        probe: probe.unwrap(),
    }
}

/// What is returned of a play: the application's seat, the crews, and what the application's polls came to.
#[derive(Drop)]
pub(crate) struct Ended<R> {
    pub(crate) app: AppSeat<R>,
    pub(crate) crews: Crews<R>,
    pub(crate) came: Result<(), StageError>,
}

/// Returns the seats of a play whose crews have returned.
pub(crate) fn seats_of<R: Drop>(app: AppSeat<R>, crews: Crews<R>) -> AllSeats<R>
    requires { HasAll (all_of (crews_state crews)) }
    ensures app { result.app ≡ app }
    ensures crews { full_crew (cull_site result.cull) (draw_site result.draw) (dbase_site result.dbase) (probe_site result.probe)
        ≡ all_of (crews_state crews) }
{
    let Stages {
        cull,
        draw,
        dbase,
        probe,
    } = stages_of(crews.united());
    AllSeats {
        app,
        cull,
        draw,
        dbase,
        probe,
    }
}

/// Plays with the seats of a play, divided into crews as the setup asks: starts the hosts, polls on the caller's thread
/// what stays there, and waits for the hosts.
pub(crate) fn run_all<
    R: Threads + Wait + Copy + Drop + Send + Sync + 'static,
    O: Sink,
    G: Gate + Send + Drop + 'static,
>(
    rt: &R,
    alloc: Global,
    common: &Arc<Common<G>, Global>,
    setup: &Setup,
    seats: AllSeats<R>,
    frames: &mut O,
) -> Ended<R>
    ensures goes { AppGoes (app_site seats.app) (app_site result.app) (O.written frames.old) (O.written frames.new) }
    ensures divided { CrewsGo (divided setup.now.mode setup.now.dbase (cull_site seats.cull) (draw_site seats.draw)
        (dbase_site seats.dbase) (probe_site seats.probe)) (crews_state result.crews) }
    ensures uncut { StaysWhole result.came (app_site seats.app).work.state.fault (app_site result.app).work.state.fault }
    ensures blames { Blames result.came (O.faults frames.old) (O.faults frames.new) (O.at_fault frames.new) (O.written frames.new) }
{
    let AllSeats {
        mut app,
        cull,
        draw,
        dbase,
        probe,
    } = seats;
    let crews = crews_of(setup, cull, draw, dbase, probe);
    let mut posts = posts_of(rt, alloc, common, crews);
    let came = run_here(rt, common, &mut app, &mut posts, frames);
    let crews = posts.back(rt);
    Ended { app, crews, came }
}
