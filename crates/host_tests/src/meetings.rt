//! Where stages are on different hosts, they are in their gates at once: through the whole call, by its words.

use crate::calls::{Asked, play_as};
use crate::played::MODES;
use mode_hosts::Mode;
use perfly_top::DONE;
use pf_io::{Gate, Stage};
use std::alloc::Global;
use std::sync::atomic::{AtomicU64, Ordering};
use std::sync::{Arc, Wait};
use std::test::Fail;
use std::thread;
use std::thread::Threads;

/// Four frames and three merges of nothing.
pub const FRAMES_AND_MERGES: &str = "perfly 1\nsize 2 2\nlens 1 1 1073741823\nback 10 20 30\napp\n\
    frame\nframe\nframe\nframe\n\
    dbase\nbuffer\nmerge\nbuffer\nmerge\nbuffer\nmerge\n";

/// A place where a stage passes its gate.
#[derive(Clone, Copy, Debug, PartialEq, Eq)]
struct Pass {
    stage: Stage,
    number: u32,
}

/// Two passes that may be made at once.
#[derive(Clone, Copy, Debug, PartialEq, Eq)]
struct Pair {
    one: Pass,
    other: Pass,
}

fn pass_of(stage: Stage, number: u32) -> Pass {
    Pass { stage, number }
}

fn pair_of(one: Pass, other: Pass) -> Pair {
    Pair { one, other }
}

/// With three frames ahead each of these can be met.
fn pairs() -> [Pair; 6] {
    [
        pair_of(pass_of(Stage::App, 2), pass_of(Stage::Cull, 1)),
        pair_of(pass_of(Stage::App, 3), pass_of(Stage::Draw, 1)),
        pair_of(pass_of(Stage::Cull, 2), pass_of(Stage::Draw, 1)),
        pair_of(pass_of(Stage::App, 1), pass_of(Stage::Dbase, 1)),
        pair_of(pass_of(Stage::Cull, 1), pass_of(Stage::Dbase, 3)),
        pair_of(pass_of(Stage::Draw, 1), pass_of(Stage::Dbase, 3)),
    ]
}

/// Who is in its gate, and whether both were at once.
#[derive(Drop)]
struct Meeting {
    pair: Pair,
    looks: usize,
    one: AtomicU64,
    other: AtomicU64,
    met: AtomicU64,
}

impl Meeting {
    fn new(pair: Pair, looks: usize) -> Meeting {
        Meeting {
            pair,
            looks,
            one: AtomicU64::new(0),
            other: AtomicU64::new(0),
            met: AtomicU64::new(0),
        }
    }

    /// Waits in a gate, for so many looks, for who is in the other one.
    fn wait(&self, here: &AtomicU64, there: &AtomicU64) {
        here.store(1, Ordering::SeqCst);
        for _look in 0..self.looks {
            if there.load(Ordering::SeqCst) == 1 {
                self.met.store(1, Ordering::SeqCst);
                return;
            }
            thread::yield_now();
        }
        here.store(0, Ordering::SeqCst);
    }
}

/// The gate of a meeting.
#[derive(Drop)]
struct MeetingGate(Arc<Meeting, Global>);

impl Gate for MeetingGate {
    fn pass(&self, stage: Stage, number: u32) {
        let meeting = &*self.0;
        let here = Pass { stage, number };
        if here == meeting.pair.one {
            meeting.wait(&meeting.one, &meeting.other);
        } else if here == meeting.pair.other {
            meeting.wait(&meeting.other, &meeting.one);
        }
    }
}

/// The host of a stage: a number for each.
fn host_of(stage: Stage, asked: Asked) -> u32 {
    match stage {
        Stage::App => 0,
        Stage::Cull => u32::from(matches!(asked.mode, Mode::AppCulldraw | Mode::AppCullDraw)),
        Stage::Draw => match asked.mode {
            Mode::Appculldraw => 0,
            Mode::AppCulldraw => 1,
            Mode::AppcullDraw | Mode::AppCullDraw => 2,
        },
        Stage::Dbase => 3 * u32::from(asked.dbase),
    }
}

/// Whether the two stages of a pair are on different hosts.
fn are_apart(pair: Pair, asked: Asked) -> bool {
    host_of(pair.one.stage, asked) != host_of(pair.other.stage, asked)
}

/// Plays with a gate where a pair may meet: whether it met.
fn meets<R: Threads + Wait + Copy + Drop + Send + Sync + 'static>(
    rt: &R,
    alloc: Global,
    pair: Pair,
    asked: Asked,
) -> Result<bool, Fail> {
    let looks = if are_apart(pair, asked) {
        20_000_000
    } else {
        1000
    };
    let meeting = Arc::new(alloc, Meeting::new(pair, looks))?;
    let gate = MeetingGate(Arc::try_clone(&meeting)?);
    let status = play_as(rt, alloc, FRAMES_AND_MERGES, asked, gate)?;
    if status != DONE {
        return Err(Fail::from("a play that did not come to its end"));
    }
    Ok(meeting.met.load(Ordering::SeqCst) == 1)
}

/// Whether the stages of a pair may miss each other though they are on different hosts. With a probe the host that runs APP
/// and CULL may hold CULL back, and DRAW has no list then.
fn may_miss(pair: Pair, asked: Asked) -> bool {
    let stages = [pair.one.stage, pair.other.stage];
    asked.probe
        && asked.mode == Mode::AppcullDraw
        && stages.contains(&Stage::Draw)
        && !stages.contains(&Stage::Cull)
}

/// Whether each pair meets exactly where its stages are on different hosts.
fn all_meet<R: Threads + Wait + Copy + Drop + Send + Sync + 'static>(
    rt: &R,
    alloc: Global,
    asked: Asked,
) -> Result<bool, Fail> {
    for pair in pairs() {
        let as_due = may_miss(pair, asked)
            || meets(rt, alloc, pair, asked)? == are_apart(pair, asked);
        if !as_due {
            return Ok(false);
        }
    }
    Ok(true)
}

#[test]
fn stages_of_different_hosts_meet(rt: HostRuntime) -> Result<(), Fail> {
    for mode in MODES {
        for dbase in [false, true] {
            let asked = Asked {
                mode,
                dbase,
                ahead: "3",
                probe: false,
                stream: None,
            };
            let all = all_meet(&rt, rt.alloc(), asked)?;
            assert!(rt; all, "{asked:?}");
        }
    }
    Ok(())
}

#[test]
fn stages_meet_beside_a_probe(rt: HostRuntime) -> Result<(), Fail> {
    for mode in MODES {
        for dbase in [false, true] {
            let asked = Asked {
                mode,
                dbase,
                ahead: "3",
                probe: true,
                stream: None,
            };
            let all = all_meet(&rt, rt.alloc(), asked)?;
            assert!(rt; all, "{asked:?}");
        }
    }
    Ok(())
}

#[test]
fn stages_meet_while_lists_come_in_pieces(rt: HostRuntime) -> Result<(), Fail> {
    for mode in MODES {
        for dbase in [false, true] {
            let asked = Asked {
                mode,
                dbase,
                ahead: "3",
                probe: false,
                stream: Some("64"),
            };
            let all = all_meet(&rt, rt.alloc(), asked)?;
            assert!(rt; all, "{asked:?}");
        }
    }
    Ok(())
}
