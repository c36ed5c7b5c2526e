//! How the stages are divided among hosts.
ghost use Rattle.std.specs.Prelude.{◌≡◌, None, Some, IsSome};
ghost use Rattle.std.specs.Option.{option_map};
ghost use Rattle.mode_hosts.specs.Seats.{cull_site, draw_site, dbase_site, probe_site, crew_state};
ghost use Rattle.mode_hosts.specs.Crews.{divided, unless, only_if, all_of, full_crew};
ghost use Rattle.mode_hosts.specs.Posts.{crews_state};

use crate::crew::Crew;
use crate::seats::{CullSeat, DbaseSeat, DrawSeat, ProbeSeat};
use nearest_hit::Segment;

/// Which stages share a thread. A name has a capital letter where a thread begins.
#[derive(Clone, Copy, Debug, PartialEq, Eq)]
pub enum Mode {
    /// One thread for all three.
    Appculldraw,
    /// A thread for the application, and one for the cull and the draw.
    AppCulldraw,
    /// A thread for the application and the cull, and one for the draw.
    AppcullDraw,
    /// A thread for each.
    AppCullDraw,
}

/// How the stages of a play are divided among threads, and what is asked for besides its pictures.
#[derive(Clone, Copy, Debug, PartialEq, Eq)]
pub struct Setup {
    /// Which stages share a thread.
    pub mode: Mode,
    /// Whether the database process has a thread of its own; else it is on the application's.
    pub dbase: bool,
    /// How many frames may be in flight, 1 to 4.
    pub ahead: u8,
    /// The segment whose nearest hit is asked for in each frame, in eye coordinates of the first channel, if one is.
    /// The probe has a thread of its own in every mode.
    pub probe: Option<Segment>,
    /// The most items of a piece, 1 to 4,096: the cull sends the draw lists of a frame in pieces while it still walks.
    /// With `None` each is sent whole with its frame.
    pub stream: Option<u32>,
}

/// The crews of a play: of the caller's thread, and of the hosts of the cull, of the draw, of the database process, and
/// of the probe. A crew may be empty.
#[derive(Drop)]
pub(crate) struct Crews<R> {
    pub(crate) caller: Crew<R>,
    pub(crate) cull: Crew<R>,
    pub(crate) draw: Crew<R>,
    pub(crate) dbase: Crew<R>,
    pub(crate) probe: Crew<R>,
}

impl<R: Drop> Crews<R> {
    /// All crews as one.
    pub(crate) fn united(self) -> Crew<R>
        ensures { crew_state result ≡ all_of (crews_state self) }
    {
        let Crews {
            caller,
            cull,
            draw,
            dbase,
            probe,
        } = self;
        caller.united(cull).united(draw.united(dbase.united(probe)))
    }
}

/// The database process, and the crews without it.
#[derive(Drop)]
pub(crate) struct Apart<R> {
    pub(crate) dbase: DbaseSeat<R>,
    pub(crate) crews: Crews<R>,
}

/// Takes the database process out of the caller's crew, where it is.
pub(crate) fn take_dbase<R: Drop>(crews: Crews<R>) -> Apart<R>
    requires { IsSome (option_map dbase_site crews.caller.dbase) }
    ensures dbase { option_map dbase_site crews.caller.dbase ≡ Some (dbase_site result.dbase) }
    ensures crews { result.crews ≡ record crews { caller = record crews.caller { dbase = None } } }
{
    let Crews {
        caller,
        cull,
        draw,
        dbase,
        probe,
    } = crews;
    let taken = caller.dbase.unwrap();
    Apart {
        dbase: taken,
        crews: Crews {
            caller: Crew {
                cull: caller.cull,
                draw: caller.draw,
                dbase: None,
                probe: caller.probe,
            },
            cull,
            draw,
            dbase,
            probe,
        },
    }
}

/// The database process, with the caller or with a host of its own.
struct Placed<R> {
    caller: Option<DbaseSeat<R>>,
    own: Option<DbaseSeat<R>>,
}

fn place_dbase<R>(own: bool, dbase: DbaseSeat<R>) -> Placed<R>
    ensures caller { option_map dbase_site result.caller ≡ unless own (dbase_site dbase) }
    ensures own { option_map dbase_site result.own ≡ only_if own (dbase_site dbase) }
{
    if own {
        Placed {
            caller: None,
            own: Some(dbase),
        }
    } else {
        Placed {
            caller: Some(dbase),
            own: None,
        }
    }
}

/// A crew of these stages, without the probe.
fn crew_of<R>(
    cull: Option<CullSeat<R>>,
    draw: Option<DrawSeat<R>>,
    dbase: Option<DbaseSeat<R>>,
) -> Crew<R>
    ensures { result ≡ record { cull = cull; draw = draw; dbase = dbase; probe = None } }
{
    Crew {
        cull,
        draw,
        dbase,
        probe: None,
    }
}

/// The crew of the probe.
fn crew_of_probe<R>(probe: ProbeSeat<R>) -> Crew<R>
    ensures { result ≡ record { cull = None; draw = None; dbase = None; probe = Some probe } }
{
    Crew {
        cull: None,
        draw: None,
        dbase: None,
        probe: Some(probe),
    }
}

/// The crews of a mode. Together they have all stages, and the desk of the probe is with a crew of its own.
pub(crate) fn crews_of<R>(
    setup: &Setup,
    cull: CullSeat<R>,
    draw: DrawSeat<R>,
    dbase: DbaseSeat<R>,
    probe: ProbeSeat<R>,
) -> Crews<R>
    ensures divided { crews_state result
        ≡ divided setup.now.mode setup.now.dbase (cull_site cull) (draw_site draw) (dbase_site dbase) (probe_site probe) }
    ensures all { all_of (crews_state result)
        ≡ full_crew (cull_site cull) (draw_site draw) (dbase_site dbase) (probe_site probe) }
{
    let Placed { caller, own } = place_dbase(setup.dbase, dbase);
    let own = crew_of(None, None, own);
    let probe = crew_of_probe(probe);
    match setup.mode {
        Mode::Appculldraw => Crews {
            caller: crew_of(Some(cull), Some(draw), caller),
            cull: crew_of(None, None, None),
            draw: crew_of(None, None, None),
            dbase: own,
            probe,
        },
        Mode::AppCulldraw => Crews {
            caller: crew_of(None, None, caller),
            cull: crew_of(Some(cull), Some(draw), None),
            draw: crew_of(None, None, None),
            dbase: own,
            probe,
        },
        Mode::AppcullDraw => Crews {
            caller: crew_of(Some(cull), None, caller),
            cull: crew_of(None, None, None),
            draw: crew_of(None, Some(draw), None),
            dbase: own,
            probe,
        },
        Mode::AppCullDraw => Crews {
            caller: crew_of(None, None, caller),
            cull: crew_of(Some(cull), None, None),
            draw: crew_of(None, Some(draw), None),
            dbase: own,
            probe,
        },
    }
}
