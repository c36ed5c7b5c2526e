//! What the seats leave, once all of them have returned.
ghost use Rattle.std.specs.Prelude.{◌≡◌, ◌<◌, ◌≤◌, ℕ, [], length, take, drop};
ghost use Rattle.std.specs.Option.{option_map};
ghost use Rattle.frame_link.specs.Ends.{ring_sent, ring_send_at, ring_taken, ring_take_at};
ghost use Rattle.seat_lock.specs.Tokens.{lock_id};
ghost use Rattle.stage_parts.specs.Packets.{LinkPart};
ghost use Rattle.mode_hosts.specs.Works.{cull_links, draw_links, gone_over, came_over};
ghost use Rattle.mode_hosts.specs.Seats.{any_cull, any_draw, way_site, probe_site};
ghost use Rattle.mode_hosts.specs.Probes.{AreLinked, AreAllTogether, CameOver, AllCameHome, answers_of};
ghost use Rattle.mode_hosts.specs.Homes.{all_sites};

use crate::closing::all_home;
use crate::seats::{AllSeats, AppSeat, CullSeat, DrawSeat, ProbeWay};
use crate::works::{AnyCull, AnyDraw};
use draw_list::Stats;
use frame_link::{RingSend, RingTake, home};
use frame_stages::Packet;
use nearest_hit::Near;
use pf_history::History;
use pf_scene::Scene;
use seat_lock::SeatLock;
use std::alloc::Global;
use std::sync::Wait;
use stream_stages::Piece;

/// What a play leaves: the history, the numbers of the returned frames that were not told, and the results of the probe.
#[derive(Drop)]
pub(crate) struct Gathered {
    pub(crate) history: History,
    pub(crate) stats: Vec<Stats>,
    pub(crate) answers: Vec<Option<Near>>,
}

/// On a link whose ends are in one thread again, what was received is a prefix of what was sent.
fn link_home(send: &mut RingSend<Packet>, take: &mut RingTake<Packet>)
    requires { ring_take_at take.old ≡ ring_send_at send.old }
    ensures { LinkPart (ring_sent send.old) (ring_taken take.old) }
{
    home(send, take);
}

/// Returns the results of the probe, none if there is no probe. On the way from the application to the cull, through
/// the probe if there is one, what was received is on each link a prefix of what was sent.
fn way_home(
    alloc: Global,
    to_cull: &mut RingSend<Packet>,
    way: Option<ProbeWay>,
    from_app: &mut RingTake<Packet>,
) -> Vec<Option<Near>>
    requires { AreLinked (ring_send_at to_cull.old) (option_map way_site way) (ring_take_at from_app.old) }
    ensures home { CameOver (ring_sent to_cull.old) (option_map way_site way) (ring_taken from_app.old) }
    ensures answers { result.items ≡ answers_of (option_map way_site way) }
{
    match way {
        Some(way) => {
            let ProbeWay {
                stage,
                mut from,
                mut to,
            } = way;
            link_home(to_cull, &mut from);
            link_home(&mut to, from_app);
            stage.into_answers()
        }
        None => {
            link_home(to_cull, from_app);
            Vec::new(alloc)
        }
    }
}

/// On a link of pieces whose ends are in one thread again, what was received is a prefix of what was sent.
fn cuts_home(gone: &mut RingSend<Piece>, came: &mut RingTake<Piece>)
    requires { ring_take_at came.old ≡ ring_send_at gone.old }
    ensures { ring_taken came.old ≡ take (length (ring_taken came.old)) (ring_sent gone.old) }
{
    home(gone, came);
}

/// On the link of the pieces, if there is one, what came to the draw is a prefix of what the cull sent.
fn pieces_home(cull: &mut AnyCull, draw: &mut AnyDraw)
    requires { draw_links (any_draw draw.old) ≡ cull_links (any_cull cull.old) }
    ensures { came_over (any_draw draw.old) ≡ take (length (came_over (any_draw draw.old))) (gone_over (any_cull cull.old)) }
{
    match draw {
        AnyDraw::Whole(_) => {}
        AnyDraw::InPieces(draw) => match cull {
            AnyCull::Whole(_) => unreachable!(),
            AnyCull::InPieces(cull) => cuts_home(&mut cull.pieces, &mut draw.pieces),
        },
    }
}

/// Returns what the seats of a lock leave, once they have returned.
pub(crate) fn gather<R: Wait, D: Wait + Drop>(
    rt: &R,
    alloc: Global,
    lock: &SeatLock<Scene>,
    seats: AllSeats<D>,
) -> Gathered
    requires { AreAllTogether (lock_id lock.now) (all_sites seats) }
    ensures home { AllCameHome (all_sites seats) result.history.entries }
    ensures stats { result.stats.items ≡ drop seats.app.stage.told seats.app.stage.state.stats }
    ensures answers { result.answers.items ≡ answers_of (probe_site seats.probe).way }
{
    let AllSeats {
        app,
        cull,
        draw,
        dbase,
        probe,
    } = seats;
    let AppSeat {
        stage,
        desk: app_desk,
        from: mut from_draw,
        to: mut to_cull,
    } = app;
    let CullSeat {
        stage: mut cull,
        desk: cull_desk,
        from: mut from_app,
        to: mut to_draw,
    } = cull;
    let DrawSeat {
        stage: mut draw,
        desk: draw_desk,
        from: mut from_cull,
        to: mut to_app,
    } = draw;
    let answers = way_home(alloc, &mut to_cull, probe.way, &mut from_app);
    link_home(&mut to_draw, &mut from_cull);
    link_home(&mut to_app, &mut from_draw);
    pieces_home(&mut cull, &mut draw);
    let scene = all_home(
        rt,
        lock,
        app_desk.into_pass(),
        cull_desk.into_pass(),
        draw_desk.into_pass(),
        dbase.desk.into_pass(),
        probe.desk.into_pass(),
    );
    Gathered {
        history: scene.into_history(),
        stats: stage.into_stats(),
        answers,
    }
}
