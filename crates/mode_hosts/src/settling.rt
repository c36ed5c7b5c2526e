//! What the caller's thread does of a live pipe until nothing is left to do of the lines given so far.
ghost use Rattle.std.specs.Prelude.{◌≡◌, ℕ, true, Ok, IfOk, OnOk, length};
ghost use Rattle.stage_parts.specs.declared.answers.Did.TheVariants as did;
ghost use Rattle.pipe_plays.specs.Played.{Blames, StaysWhole};
ghost use Rattle.mode_hosts.specs.declared.modes.Crews.{Crews};
ghost use Rattle.mode_hosts.specs.Sites.{AppGoes, DbaseGoes};
ghost use Rattle.mode_hosts.specs.Seats.{app_site, dbase_site};
ghost use Rattle.mode_hosts.specs.Posts.{ArePosts};
ghost use Rattle.mode_hosts.specs.Lives.{AppRests, DbaseRests, BaseSays};

use crate::caller::{more_where_calm, poll_app};
use crate::crew::Polled;
use crate::hosts::Common;
use crate::posts::Posts;
use crate::seats::{AppSeat, DbaseSeat};
use crate::words::Noted;
use frame_stages::{AppStage, Did, StageError};
use pf_io::{Gate, NoMemory, Sink};
use pipe_plays::flush_frames;
use std::sync::Wait;
use std::thread::Threads;

/// A poll of the application, which has lines to come. It is over only where a former error has set the stop mark, and
/// then this is `NoMemory`.
fn poll_going<R: Wait, O: Sink, G: Gate>(
    common: &Common<G>,
    app: &mut AppSeat<R>,
    frames: &mut O,
) -> Result<Did, StageError>
    ensures goes { AppGoes (app_site app.old) (app_site app.new) (O.written frames.old) (O.written frames.new) }
    ensures uncut { StaysWhole result (app_site app.old).work.state.fault (app_site app.new).work.state.fault }
    ensures blames { Blames result (O.faults frames.old) (O.faults frames.new) (O.at_fault frames.new) (O.written frames.new) }
{
    match poll_app(common, app, frames)? {
        Did::Did => Ok(Did::Did),
        Did::NotYet => Ok(Did::NotYet),
        Did::Over => Err(StageError::NoMemory),
    }
}

/// A poll of the database process. Its error has set the stop mark, and it rings. It is over only once it has passed its
/// lines: where it finds the stop mark, this is an error too.
fn poll_base<R: Wait, G: Gate>(
    common: &Common<G>,
    dbase: &mut DbaseSeat<R>,
) -> Result<Did, NoMemory>
    ensures goes { DbaseGoes (dbase_site dbase.old) (dbase_site dbase.new) }
    ensures says { IfOk result (λ did. BaseSays did (dbase_site dbase.new)) }
{
    match dbase.poll(&common.gate) {
        Ok(Did::Did) => Ok(Did::Did),
        Ok(Did::NotYet) => Ok(Did::NotYet),
        Ok(Did::Over) => ended(dbase),
        Err(_) => {
            common.bell.ring();
            Err(NoMemory)
        }
    }
}

/// Returns that the database process is over, if it has passed its lines.
fn ended<R>(dbase: &DbaseSeat<R>) -> Result<Did, NoMemory>
    ensures { IfOk result (λ did. BaseSays did (dbase_site dbase.now)) }
{
    if dbase.stage.has_ended() {
        Ok(Did::Over)
    } else {
        Err(NoMemory)
    }
}

/// What the polls of a round came to, and that of the database process among them.
#[derive(Drop)]
struct Round<'a> {
    polled: Polled<'a>,
    base: Did,
}

/// Polls the application, each stage that is with the caller, and the database process, after a note of the bell. If the
/// application did something and no other did, further polls of the application follow.
fn live_round<'a, R: Threads + Wait + Sync + Drop, O: Sink, G: Gate>(
    rt: &R,
    common: &Common<G>,
    app: &mut AppSeat<R>,
    dbase: &mut DbaseSeat<R>,
    posts: &mut Posts<R>,
    frames: &mut O,
    noted: &'a Noted,
) -> Result<Round<'a>, StageError>
    ensures goes { AppGoes (app_site app.old) (app_site app.new) (O.written frames.old) (O.written frames.new) }
    ensures uncut { StaysWhole result (app_site app.old).work.state.fault (app_site app.new).work.state.fault }
    ensures dbase { DbaseGoes (dbase_site dbase.old) (dbase_site dbase.new) }
    ensures says { IfOk result (λ r. BaseSays r.base (dbase_site dbase.new)) }
    ensures posts { (crews : Crews R) → ArePosts crews posts.old → ArePosts crews posts.new }
    ensures blames { Blames result (O.faults frames.old) (O.faults frames.new) (O.at_fault frames.new) (O.written frames.new) }
{
    let did = poll_going(common, app, frames)?;
    let Ok(base) = poll_base(common, dbase) else {
        return Err(StageError::NoMemory);
    };
    let others = posts.poll(rt, &common.gate, noted).and(base);
    more_where_calm(common, app, frames, noted, did, others.did())?;
    Ok(Round {
        polled: others.and(did),
        base,
    })
}

/// Whether so many pictures came back.
fn have_come(app: &AppStage, given: u64) -> bool
    ensures { result ≡ true → length app.now.state.stats ≡ given }
{
    app.frames_back() as u64 == given
}

/// Whether the application has passed its lines, and so many pictures came back.
fn has_shown(app: &AppStage, given: u64) -> bool
    ensures { result ≡ true → AppRests given app.now }
{
    if !app.wants_line() {
        return false;
    }
    !app.has_closed() && have_come(app, given)
}

/// Whether no poll of a round did anything.
fn is_calm(round: &Round<'_>) -> bool
    ensures { result ≡ true → round.now.base ≡ did.Did → ⊥ }
{
    round.polled.did() != Did::Did && round.base != Did::Did
}

/// Polls in a round. Returns whether nothing is left to do of the lines given so far, which begin this many frames. Else it
/// rings if something was done, and waits if not.
fn live_turn<R: Threads + Wait + Sync + Drop, O: Sink, G: Gate>(
    rt: &R,
    common: &Common<G>,
    app: &mut AppSeat<R>,
    dbase: &mut DbaseSeat<R>,
    posts: &mut Posts<R>,
    frames: &mut O,
    given: u64,
) -> Result<bool, StageError>
    ensures goes { AppGoes (app_site app.old) (app_site app.new) (O.written frames.old) (O.written frames.new) }
    ensures uncut { StaysWhole result (app_site app.old).work.state.fault (app_site app.new).work.state.fault }
    ensures dbase { DbaseGoes (dbase_site dbase.old) (dbase_site dbase.new) }
    ensures rests { result ≡ Ok true → AppRests given (app_site app.new).work × DbaseRests (dbase_site dbase.new) }
    ensures posts { (crews : Crews R) → ArePosts crews posts.old → ArePosts crews posts.new }
    ensures blames { Blames result (O.faults frames.old) (O.faults frames.new) (O.at_fault frames.new) (O.written frames.new) }
{
    let noted = common.bell.note();
    let round = live_round(rt, common, app, dbase, posts, frames, &noted)?;
    if is_calm(&round) && has_shown(&app.stage, given) {
        return Ok(true);
    }
    common.bell.tell(rt, round.polled);
    Ok(false)
}

/// Polls until nothing is left to do of the lines given so far, which begin this many frames, or up to an error.
fn poll_until_settled<R: Threads + Wait + Sync + Drop, O: Sink, G: Gate>(
    rt: &R,
    common: &Common<G>,
    app: &mut AppSeat<R>,
    dbase: &mut DbaseSeat<R>,
    posts: &mut Posts<R>,
    frames: &mut O,
    given: u64,
) -> Result<(), StageError>
    ensures goes { AppGoes (app_site app.old) (app_site app.new) (O.written frames.old) (O.written frames.new) }
    ensures uncut { StaysWhole result (app_site app.old).work.state.fault (app_site app.new).work.state.fault }
    ensures dbase { DbaseGoes (dbase_site dbase.old) (dbase_site dbase.new) }
    ensures rests { OnOk result (AppRests given (app_site app.new).work × DbaseRests (dbase_site dbase.new)) }
    ensures posts { (crews : Crews R) → ArePosts crews posts.old → ArePosts crews posts.new }
    ensures blames { Blames result (O.faults frames.old) (O.faults frames.new) (O.at_fault frames.new) (O.written frames.new) }
{
    for _ in rt.forever() {
        let settled = live_turn(rt, common, app, dbase, posts, frames, given)?;
        if settled {
            return Ok(());
        }
    }
    unreachable!()
}

/// Polls until nothing is left to do of the lines given so far, which begin this many frames, and flushes the frame sink, or
/// up to an error.
pub(crate) fn settle_here<R: Threads + Wait + Sync + Drop, O: Sink, G: Gate>(
    rt: &R,
    common: &Common<G>,
    app: &mut AppSeat<R>,
    dbase: &mut DbaseSeat<R>,
    posts: &mut Posts<R>,
    frames: &mut O,
    given: u64,
) -> Result<(), StageError>
    ensures goes { AppGoes (app_site app.old) (app_site app.new) (O.written frames.old) (O.written frames.new) }
    ensures uncut { StaysWhole result (app_site app.old).work.state.fault (app_site app.new).work.state.fault }
    ensures dbase { DbaseGoes (dbase_site dbase.old) (dbase_site dbase.new) }
    ensures rests { OnOk result (AppRests given (app_site app.new).work × DbaseRests (dbase_site dbase.new)) }
    ensures posts { (crews : Crews R) → ArePosts crews posts.old → ArePosts crews posts.new }
    ensures blames { Blames result (O.faults frames.old) (O.faults frames.new) (O.at_fault frames.new) (O.written frames.new) }
    ensures flushed { OnOk result (O.flushed frames.new ≡ true) }
{
    poll_until_settled(rt, common, app, dbase, posts, frames, given)?;
    flush_frames(frames)
}
