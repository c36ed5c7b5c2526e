//! The seats of a play, before its first step.
ghost use Rattle.std.specs.Prelude.{◌≡◌, ◌+◌, ◌≤◌, ℕ, false, [], IfOk, IfSome, List, Option, None};
ghost use Rattle.std.specs.Option.{option_map};
ghost use Rattle.std.specs.Arc.{arc_value};
ghost use Rattle.seat_lock.specs.Tokens.{lock_id};
ghost use Rattle.frame_link.specs.Ends.{IsNewRing};
ghost use Rattle.play_format.specs.Plays.{IsPlay};
ghost use Rattle.pf_scene.specs.Scenes.{IsSmall};
ghost use Rattle.pipe_plays.specs.Plays.{setup_of};
ghost use Rattle.nearest_hit.specs.declared.segment.Segment.{Segment};
ghost use Rattle.mode_hosts.specs.Works.{limit_of};
ghost use Rattle.mode_hosts.specs.Seats.{app_site, any_cull, way_site};
ghost use Rattle.mode_hosts.specs.Probes.{AreAllTogether, AllKeep};
ghost use Rattle.mode_hosts.specs.Homes.{all_sites, seats_of};
ghost use Rattle.mode_hosts.specs.Deals.{IsNewWay};

use crate::beginning::{Works, new_works};
use crate::dealing::{Desks, new_desks};
use crate::modes::Setup;
use crate::parts::{Parts, all_made};
use crate::seats::{AllSeats, AppSeat, CullSeat, DbaseSeat, DrawSeat, ProbeSeat, ProbeWay};
use frame_link::{RingSend, RingTake, ring};
use frame_stages::{AppStage, DbaseStage, Packet};
use isect_stage::ProbeStage;
use nearest_hit::Segment;
use pf_io::NoMemory;
use pf_scene::Scene;
use pipe_plays::count_merges;
use play_format::Play;
use seat_lock::SeatLock;
use std::alloc::Global;
use std::sync::{Arc, Wait};

/// The seats of a play, and the lock that their desks stand at.
#[derive(Drop)]
pub(crate) struct Opened<D> {
    pub(crate) lock: Arc<SeatLock<Scene>, Global>,
    pub(crate) seats: AllSeats<D>,
}

/// The two ends of a link.
#[derive(Drop)]
struct Ends {
    send: RingSend<Packet>,
    take: RingTake<Packet>,
}

/// Returns a link, through which nothing went, with room for one packet more than `ahead` frames.
fn new_link(alloc: Global, ahead: u8) -> Result<Ends, NoMemory>
    ensures { IfOk result (λ l. IsNewRing (ahead + 1) l.send l.take) }
{
    let (send, take) = ring(alloc, usize::from(ahead) + 1)?;
    Ok(Ends { send, take })
}

/// The way from the application to the cull: a link, or the probe between two of them.
#[derive(Drop)]
struct Way {
    send: RingSend<Packet>,
    probe: Option<ProbeWay>,
    take: RingTake<Packet>,
}

/// Returns the way from the application to the cull, through which nothing went, with the probe of this segment if
/// there is one.
fn new_way(alloc: Global, ahead: u8, probe: Option<Segment>) -> Result<Way, NoMemory>
    ensures { IfOk result (λ w. IsNewWay probe w.send (option_map way_site w.probe) w.take) }
{
    let Ends { send, take } = new_link(alloc, ahead)?;
    match probe {
        Some(segment) => {
            let stage = ProbeStage::new(alloc, segment)?;
            let further = new_link(alloc, ahead)?;
            Ok(Way {
                send,
                probe: Some(ProbeWay {
                    stage,
                    from: take,
                    to: further.send,
                }),
                take: further.take,
            })
        }
        None => Ok(Way {
            send,
            probe: None,
            take,
        }),
    }
}

/// The links of a play: from the application to the cull, from there to the draw, and back to the application.
#[derive(Drop)]
pub(crate) struct Links {
    to_cull: Way,
    to_draw: Ends,
    back: Ends,
}

/// Returns the links of a play, through which nothing went, with the probe of this segment if there is one.
fn new_links(alloc: Global, ahead: u8, probe: Option<Segment>) -> Result<Links, NoMemory>
    ensures way { IfOk result (λ l. IsNewWay probe l.to_cull.send (option_map way_site l.to_cull.probe) l.to_cull.take) }
    ensures to_draw { IfOk result (λ l. IsNewRing (ahead + 1) l.to_draw.send l.to_draw.take) }
    ensures back { IfOk result (λ l. IsNewRing (ahead + 1) l.back.send l.back.take) }
{
    let to_cull = new_way(alloc, ahead, probe)?;
    let to_draw = new_link(alloc, ahead)?;
    let back = new_link(alloc, ahead)?;
    Ok(Links {
        to_cull,
        to_draw,
        back,
    })
}

/// The parts of a play at their seats.
fn seated<D>(parts: Parts<AppStage, Works, DbaseStage, Desks<D>, Links>) -> Opened<D>
    ensures lock { result.lock ≡ parts.desks.lock }
    ensures seats { result.seats ≡ seats_of parts }
{
    let Parts {
        app,
        works,
        dbase,
        desks,
        links,
    } = parts;
    let Links {
        to_cull,
        to_draw,
        back,
    } = links;
    let seats = AllSeats {
        app: AppSeat {
            stage: app,
            desk: desks.app,
            from: back.take,
            to: to_cull.send,
        },
        cull: CullSeat {
            stage: works.cull,
            desk: desks.cull,
            from: to_cull.take,
            to: to_draw.send,
        },
        draw: DrawSeat {
            stage: works.draw,
            desk: desks.draw,
            from: to_draw.take,
            to: back.send,
        },
        dbase: DbaseSeat {
            stage: dbase,
            desk: desks.dbase,
        },
        probe: ProbeSeat {
            desk: desks.probe,
            way: to_cull.probe,
        },
    };
    Opened {
        lock: desks.lock,
        seats,
    }
}

/// The seats of a play before its first step, as the setup asks for them.
pub(crate) fn open<D: Wait + Copy + Drop>(
    rt: D,
    alloc: Global,
    play: Play,
    setup: &Setup,
) -> Result<Opened<D>, NoMemory>
    requires ahead { IsSmall setup.now.ahead }
    requires stream { IfSome setup.now.stream (λ n. (1 ≤ n) × (n ≤ 4096)) }
    ensures play { IsPlay play }
    ensures together { IfOk result (λ o. AreAllTogether (lock_id (arc_value o.lock)) (all_sites o.seats)) }
    ensures limit { IfOk result (λ o. limit_of (any_cull o.seats.cull.stage) ≡ setup.now.stream) }
    ensures uncut { IfOk result (λ o. (app_site o.seats.app).work.state.fault ≡ None) }
    ensures untold { IfOk result (λ o. (app_site o.seats.app).work.told ≡ 0) }
    ensures going { IfOk result (λ o. (app_site o.seats.app).work.state.closed ≡ false) }
    ensures keeps { IfOk result (λ o. (bytes : Option (List ℕ))
        → AllKeep (setup_of play setup.now.ahead) play.dbase setup.now.probe (all_sites o.seats) bytes bytes) }
{
    let lens = play.lens();
    let back = play.back();
    let channels = play.channels();
    let merges = count_merges(play.dbase());
    let (app_lines, dbase_lines) = play.into_lists();
    let ahead = setup.ahead;
    let parts = all_made(
        AppStage::new(alloc, app_lines, merges, lens, back, ahead, channels),
        new_works(alloc, lens, back, setup.stream),
        DbaseStage::new(alloc, dbase_lines),
        new_desks(rt, alloc, ahead, channels),
        new_links(alloc, ahead, setup.probe),
    )?;
    Ok(seated(parts))
}
