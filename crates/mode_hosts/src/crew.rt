//! What one host polls.
ghost use Rattle.std.specs.Prelude.{◌≡◌, ◌∷◌, ◌++◌, [], ◌&&◌, not, is_some, IfOk, OnErr};
ghost use Rattle.std.specs.Option.{option_map};
ghost use Rattle.frame_link.specs.Ends.{ring_taken, ring_take_at};
ghost use Rattle.mode_hosts.specs.Sites.{AnyCullGoes, AnyDrawGoes, DbaseGoes, ProbeGoes, CrewGoes, IfThere};
ghost use Rattle.mode_hosts.specs.Seats.{cull_site, draw_site, dbase_site, probe_site, crew_state};
ghost use Rattle.mode_hosts.specs.Crews.{together, first_of, united, has_way};

use crate::seats::{CullSeat, DbaseSeat, DrawSeat, ProbeSeat};
use crate::words::Noted;
use frame_link::{RingTake, TakeEnd};
use frame_stages::{Did, StageError};
use pf_io::Gate;
use std::sync::Wait;
use std::thread::Threads;

/// What one host polls, of the stages that need no frame sink.
#[derive(Drop)]
pub(crate) struct Crew<R> {
    pub(crate) cull: Option<CullSeat<R>>,
    pub(crate) draw: Option<DrawSeat<R>>,
    pub(crate) dbase: Option<DbaseSeat<R>>,
    pub(crate) probe: Option<ProbeSeat<R>>,
}

/// What the polls of two stages came to: one of them did something, or one has to wait, or both are over.
fn together(one: Did, other: Did) -> Did
    ensures { result ≡ together one other }
{
    match one {
        Did::Did => Did::Did,
        Did::NotYet => match other {
            Did::Did => Did::Did,
            Did::NotYet | Did::Over => Did::NotYet,
        },
        Did::Over => other,
    }
}

/// What polls came to that were made after the bell was noted, with that note. It is made by polls alone, which take
/// the note before they begin.
#[derive(Drop)]
pub(crate) struct Polled<'a> {
    noted: &'a Noted,
    did: Did,
}

impl<'a> Polled<'a> {
    /// Of no poll: a crew that polls elsewhere is over here.
    pub(crate) fn nothing(noted: &'a Noted) -> Polled<'a> {
        Polled {
            noted,
            did: Did::Over,
        }
    }

    /// The note before the polls.
    pub(crate) fn noted(&self) -> &'a Noted {
        self.noted
    }

    /// What they came to.
    pub(crate) fn did(&self) -> Did {
        self.did
    }

    /// With a further poll, which came to this.
    pub(crate) fn and(self, did: Did) -> Polled<'a> {
        Polled {
            noted: self.noted,
            did: together(self.did, did),
        }
    }
}

/// What a poll came to. An error has set the stop mark, which other hosts then find.
fn came_to(answer: Result<Did, StageError>) -> Did {
    match answer {
        Ok(did) => did,
        Err(_) => Did::Did,
    }
}

/// A poll of the cull, where it is there.
fn poll_cull<R: Wait, G: Gate>(cull: &mut Option<CullSeat<R>>, gate: &G) -> Did
    ensures { IfThere AnyCullGoes (option_map cull_site cull.old) (option_map cull_site cull.new) }
{
    match cull {
        Some(seat) => came_to(seat.poll(gate)),
        None => Did::Over,
    }
}

/// A poll of the draw, where it is there.
fn poll_draw<R: Threads + Wait + Sync, G: Gate>(
    rt: &R,
    draw: &mut Option<DrawSeat<R>>,
    gate: &G,
) -> Did
    ensures { IfThere AnyDrawGoes (option_map draw_site draw.old) (option_map draw_site draw.new) }
{
    match draw {
        Some(seat) => came_to(seat.poll(rt, gate)),
        None => Did::Over,
    }
}

/// A poll of the database process, where it is there.
fn poll_dbase<R: Wait, G: Gate>(dbase: &mut Option<DbaseSeat<R>>, gate: &G) -> Did
    ensures { IfThere DbaseGoes (option_map dbase_site dbase.old) (option_map dbase_site dbase.new) }
{
    match dbase {
        Some(seat) => came_to(seat.poll(gate)),
        None => Did::Over,
    }
}

/// A poll of the probe, where it is there.
fn poll_probe<R: Wait>(probe: &mut Option<ProbeSeat<R>>) -> Did
    ensures { IfThere ProbeGoes (option_map probe_site probe.old) (option_map probe_site probe.new) }
{
    match probe {
        Some(seat) => came_to(seat.poll()),
        None => Did::Over,
    }
}

impl<R: Threads + Wait + Sync> Crew<R> {
    /// Polls each stage that is there once, after a note of the bell. Returns what the polls came to.
    pub(crate) fn poll<'a, G: Gate>(&mut self, rt: &R, gate: &G, noted: &'a Noted) -> Polled<'a>
        ensures { CrewGoes (crew_state self.old) (crew_state self.new) }
    {
        let cull = poll_cull(&mut self.cull, gate);
        let draw = poll_draw(rt, &mut self.draw, gate);
        let dbase = poll_dbase(&mut self.dbase, gate);
        let probe = poll_probe(&mut self.probe);
        Polled {
            noted,
            did: together(cull, together(draw, together(dbase, probe))),
        }
    }
}

/// Takes the crew that was sent to a host, after a note of the bell. If none has come, the host has to wait.
pub(crate) fn sent_crew<'a, R>(
    take: &mut RingTake<Crew<R>>,
    noted: &'a Noted,
) -> Result<Crew<R>, Polled<'a>>
    ensures crew { IfOk result (λ crew. ring_taken take.new ≡ ring_taken take.old ++ crew ∷ []) }
    ensures none { OnErr result (ring_taken take.new ≡ ring_taken take.old) }
    ensures link { ring_take_at take.new ≡ ring_take_at take.old }
{
    match take.pop() {
        Some(crew) => Ok(crew),
        None => Err(Polled {
            noted,
            did: Did::NotYet,
        }),
    }
}

/// The first that is there.
fn first_of<T: Drop>(one: Option<T>, other: Option<T>) -> Option<T>
    ensures { result ≡ first_of one other }
{
    match one {
        Some(one) => Some(one),
        None => other,
    }
}

/// Whether a probe is there. A desk that only rests is none.
fn has_way<R>(probe: &Option<ProbeSeat<R>>) -> bool
    ensures { result ≡ has_way (option_map probe_site probe.now) }
{
    match probe {
        Some(seat) => seat.way.is_some(),
        None => false,
    }
}

impl<R: Drop> Crew<R> {
    /// Whether no stage is there. A desk that only rests is none.
    pub(crate) fn is_empty(&self) -> bool
        ensures { result ≡ (not (is_some self.now.cull) && (not (is_some self.now.draw)
            && (not (is_some self.now.dbase) && not (has_way (option_map probe_site self.now.probe))))) }
    {
        let none_beside = self.dbase.is_none() && !has_way(&self.probe);
        self.cull.is_none() && (self.draw.is_none() && none_beside)
    }

    /// Two crews as one: each stage of the first, else of the second.
    #[tactic(auto, using(crate::proofs::Crews::map_first))]
    pub(crate) fn united(self, other: Crew<R>) -> Crew<R>
        ensures { crew_state result ≡ united (crew_state self) (crew_state other) }
    {
        let Crew {
            cull,
            draw,
            dbase,
            probe,
        } = self;
        Crew {
            cull: first_of(cull, other.cull),
            draw: first_of(draw, other.draw),
            dbase: first_of(dbase, other.dbase),
            probe: first_of(probe, other.probe),
        }
    }
}
