//! Hosts: threads that poll a crew each, and return it.
ghost use Rattle.std.specs.Prelude.{◌≡◌, IfSome};
ghost use Rattle.frame_link.specs.Ends.{ring_sent, ring_send_at, ring_taken, ring_take_at};
ghost use Rattle.mode_hosts.specs.Sites.{CrewGoes};
ghost use Rattle.mode_hosts.specs.Seats.{crew_state};
ghost use Rattle.mode_hosts.specs.Hosts.{CameBack, IsFresh, WillCome};

use crate::bell::Bell;
use crate::crew::{Crew, sent_crew};
use frame_link::{RingSend, RingTake, SendEnd, home, ring};
use frame_stages::Did;
use pf_io::{Gate, Stage};
use std::alloc::Global;
use std::snapshot::Snapshot;
use std::sync::{Arc, Wait};
use std::thread;
use std::thread::{Promise, PromisedHandle, Threads};

/// What the hosts of a play share besides its lock.
#[derive(Drop)]
pub(crate) struct Common<G> {
    pub(crate) bell: Bell,
    pub(crate) gate: G,
}

/// Whoever comes to the gate rings before it passes: it may be held back there until others come, who may still wait
/// for what it did.
impl<G: Gate> Gate for Common<G> {
    fn pass(&self, stage: Stage, number: u32) {
        self.bell.ring();
        self.gate.pass(stage, number);
    }
}

/// Polls each stage of a crew once, rings if one did something or all are over, and waits if none did. Returns whether
/// all are over.
fn turn<R: Threads + Wait + Sync, G: Gate>(rt: &R, common: &Common<G>, crew: &mut Crew<R>) -> bool
    ensures { CrewGoes (crew_state crew.old) (crew_state crew.new) }
{
    let noted = common.bell.note();
    let polled = crew.poll(rt, &common.gate, &noted);
    let did = polled.did();
    common.bell.tell(rt, polled);
    did == Did::Over
}

/// Polls a crew until all its stages are over.
fn run<R: Threads + Wait + Sync, G: Gate>(rt: &R, common: &Common<G>, mut crew: Crew<R>) -> Crew<R>
    ensures { CrewGoes (crew_state crew) (crew_state result) }
{
    for _ in rt.forever() {
        if turn(rt, common, &mut crew) {
            return crew;
        }
    }
    unreachable!()
}

/// What a host's thread does: waits for the crew, and polls it until all its stages are over.
fn run_there<R: Threads + Wait + Sync, G: Gate>(
    rt: &R,
    common: &Common<G>,
    mut take: RingTake<Crew<R>>,
) -> (RingTake<Crew<R>>, Crew<R>)
    ensures { CameBack take result }
{
    for _ in rt.forever() {
        let noted = common.bell.note();
        match sent_crew(&mut take, &noted) {
            Ok(crew) => return (take, run(rt, common, crew)),
            Err(polled) => common.bell.tell(rt, polled),
        }
    }
    unreachable!()
}

/// The end that a host's thread was started with. The thread promises that the crew that it returns is the one that it
/// took from there, after polls.
#[derive(Drop)]
struct Handed<R>(Snapshot<RingTake<Crew<R>>>);

impl<R> Promise<(RingTake<Crew<R>>, Crew<R>)> for Handed<R> {
    ghost kept_by = { λ p r. CameBack p.0.value r };
}

/// A thread that polls the crew that was sent to it.
#[derive(Drop)]
pub(crate) struct Host<R: Drop> {
    send: RingSend<Crew<R>>,
    thread: PromisedHandle<(RingTake<Crew<R>>, Crew<R>), Handed<R>>,
    ghost linked: { ring_take_at thread.promise.0.value ≡ ring_send_at send },
}

/// Starts a thread that waits for its crew. Returns `None` for lack of memory or of a thread.
pub(crate) fn new_host<
    R: Threads + Wait + Copy + Drop + Send + Sync + 'static,
    G: Gate + Send + Drop + 'static,
>(rt: &R, alloc: Global, common: Arc<Common<G>, Global>) -> Option<Host<R>>
    ensures { IfSome result (λ h. IsFresh h.send h.thread.promise.0.value) }
{
    let Ok((send, take)) = ring(alloc, 1) else {
        return None;
    };
    let handed = Handed(Snapshot::of(&take));
    let there = *rt;
    match thread::spawn_with(rt, handed, move || run_there(&there, &common, take)) {
        Ok(thread) => Some(Host { send, thread }),
        Err(_) => None,
    }
}

/// Sends a new host its crew.
pub(crate) fn give<R: Drop>(host: Host<R>, crew: Crew<R>) -> Host<R>
    requires { IsFresh host.send host.thread.promise.0.value }
    ensures { WillCome crew result.send result.thread.promise.0.value }
{
    let Host { mut send, thread } = host;
    let Ok(()) = send.push(crew) else {
        unreachable!();
    };
    Host { send, thread }
}

/// Waits for a host's end. Returns its crew.
pub(crate) fn back<R: Threads + Wait + Drop>(rt: &R, host: Host<R>) -> Crew<R>
    ensures { (crew : Crew R) → WillCome crew host.send host.thread.promise.0.value
        → CrewGoes (crew_state crew) (crew_state result) }
{
    let Host { mut send, thread } = host;
    let (mut take, crew) = thread.join(rt);
    home(&mut send, &mut take);
    crew
}
