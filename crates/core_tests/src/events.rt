//! Events of the core, one after another on one thread.
ghost use Rattle.std.specs.Thread.{IsSync};
ghost use Rattle.pf_scene.specs.Scenes.{IsSmall};

use frame_stages::{Did, StageError};
use pf_io::{MemSink, NoMemory, Sink};
use pipe_core::{Event, Pipe};
use play_format::parse;
use std::alloc::Global;
use std::test::Fail;
use std::thread::Threads;

const ROUND: [Event; 4] = [Event::App, Event::Cull, Event::Draw, Event::Dbase];

const OVER: [Did; 4] = [Did::Over; 4];

const EMPTY_SCENE: &str = "perfly 1\nsize 2 2\nlens 1 1 1073741823\nback 10 20 30\napp\nframe\n";

const THREE_FRAMES: &str =
    "perfly 1\nsize 2 2\nlens 1 1 1073741823\nback 10 20 30\napp\nframe\nframe\nframe\n";

const MERGE_BETWEEN_TWO_FRAMES: &str =
    "perfly 1\nsize 2 2\nlens 1 1 1073741823\nback 10 20 30\napp\n\
    group 1\nadd 0 1\nframe\nwait 1\nframe\n\
    dbase\nawait 1\nbuffer\ngeode 10 0 1\n\
    t -40960 4096 -40960 255 0 0 40960 4096 -40960 255 0 0 0 4096 81920 255 0 0\n\
    badd 1 10\nmerge\n";

const VERTICES_REPLACED: &str =
    "perfly 1\nsize 2 2\nlens 1 1 1073741823\nback 10 20 30\napp\ngeode 1 0 1\n\
    t -40960 4096 -40960 255 0 0 40960 4096 -40960 255 0 0 0 4096 81920 255 0 0\n\
    add 0 1\nframe\nverts 1 1\n\
    t -40960 4096 -40960 0 0 255 40960 4096 -40960 0 0 255 0 4096 81920 0 0 255\n\
    frame\n";

const BACKGROUND: &[u8] = b"P6\n2 2\n255\n\x0a\x14\x1e\x0a\x14\x1e\x0a\x14\x1e\x0a\x14\x1e";

const BACKGROUND_CUT: &[u8] =
    b"P6\n2 2\n255\n\x0a\x14\x1e\x0a\x14\x1e\x0a\x14\x1e\x0a\x14\x1eP6\n2 2\n";

const BACKGROUND_AND_RED: &[u8] = b"P6\n2 2\n255\n\x0a\x14\x1e\x0a\x14\x1e\x0a\x14\x1e\x0a\x14\x1e\
    P6\n2 2\n255\n\xff\0\0\xff\0\0\xff\0\0\xff\0\0";

const RED_AND_BLUE: &[u8] = b"P6\n2 2\n255\n\xff\0\0\xff\0\0\xff\0\0\xff\0\0\
    P6\n2 2\n255\n\0\0\xff\0\0\xff\0\0\xff\0\0\xff";

/// A core whose parts nothing is said of, so that what is proved of a test over it is short.
trait Core {
    fn poll<R: Threads + Sync, O: Sink>(
        &mut self,
        rt: &R,
        event: Event,
        frames: &mut O,
    ) -> Result<Did, StageError>
        requires { IsSync R.row };

    fn poll_all<R: Threads + Sync, O: Sink>(
        &mut self,
        rt: &R,
        events: &[Event],
        frames: &mut O,
    ) -> Result<(), StageError>
        requires { IsSync R.row };

    fn most_copies(&self) -> u32;
}

impl Core for Pipe {
    fn poll<R: Threads + Sync, O: Sink>(
        &mut self,
        rt: &R,
        event: Event,
        frames: &mut O,
    ) -> Result<Did, StageError> {
        self.step(rt, event, frames)
    }

    fn poll_all<R: Threads + Sync, O: Sink>(
        &mut self,
        rt: &R,
        events: &[Event],
        frames: &mut O,
    ) -> Result<(), StageError> {
        self.run_events(rt, events, frames)
    }

    fn most_copies(&self) -> u32 {
        self.copies()
    }
}

/// What a core answers and leaves.
#[derive(Drop)]
struct Left {
    /// What the cull, the draw and the database process answer before all else.
    first: Vec<Did>,
    ended: Result<(), StageError>,
    /// What a round answers behind all else.
    last: Vec<Did>,
    stream: Vec<u8>,
    copies: u32,
}

/// What a core answers to these events.
fn answers<R: Threads + Sync, C: Core, O: Sink>(
    alloc: Global,
    rt: &R,
    core: &mut C,
    events: &[Event],
    frames: &mut O,
) -> Result<Vec<Did>, Fail> {
    let mut answers = Vec::new(alloc);
    for event in events {
        answers.push(core.poll(rt, *event, frames)?)?;
    }
    Ok(answers)
}

/// Polls a core: the later stages, then by these events, then by a round. Its sink fails at these places.
fn left_of<R: Threads + Sync, C: Core + Drop>(
    alloc: Global,
    rt: &R,
    made: Result<C, NoMemory>,
    events: &[Event],
    fail_at: &[u64],
) -> Result<Left, Fail> {
    let mut core = made?;
    let mut frames = MemSink::new(alloc, 100, Vec::from_slice(alloc, fail_at)?)?;
    let first = answers(alloc, rt, &mut core, &ROUND[1..], &mut frames)?;
    let ended = core.poll_all(rt, events, &mut frames);
    let last = answers(alloc, rt, &mut core, &ROUND, &mut frames)?;
    Ok(Left {
        first,
        ended,
        last,
        stream: Vec::from_slice(alloc, frames.bytes())?,
        copies: core.most_copies(),
    })
}

/// So many rounds of the events in this order.
fn rounds(alloc: Global, order: &[Event], count: usize) -> Result<Vec<Event>, Fail> {
    let mut events = Vec::new(alloc);
    for _ in 0..count {
        events.extend_from_slice(order)?;
    }
    Ok(events)
}

/// Polls the pipe of a play by so many rounds in this order.
fn run<R: Threads + Sync>(
    alloc: Global,
    rt: &R,
    text: &str,
    ahead: u8,
    events: &[Event],
    fail_at: &[u64],
) -> Result<Left, Fail>
    requires { IsSmall ahead }
{
    let play = parse(alloc, text.as_bytes())?;
    left_of(alloc, rt, Pipe::new(alloc, play, ahead), events, fail_at)
}

/// The events in the order of this number, 0 to 23.
fn order_of(alloc: Global, number: usize) -> Result<Vec<Event>, Fail> {
    let mut order = Vec::new(alloc);
    let mut left = number;
    for event in ROUND {
        let places = order.len() + 1;
        order.insert(left % places, event)?;
        left /= places;
    }
    Ok(order)
}

// No event of a later stage answers an error.
#[test]
fn rounds_of_events(rt: HostRuntime) -> Result<(), Fail> {
    let events = rounds(rt.alloc(), &ROUND, 19)?;
    let left = run(rt.alloc(), &rt, EMPTY_SCENE, 1, &events, &[])?;
    let first = [Did::NotYet, Did::NotYet, Did::Over];
    assert_eq!(rt; left.first.as_slice(), first.as_slice());
    assert_eq!(rt; left.ended, Ok(()));
    assert_eq!(rt; left.last.as_slice(), OVER.as_slice());
    assert_eq!(rt; left.stream.as_slice(), BACKGROUND);
    Ok(())
}

#[test]
fn a_fault_of_the_sink_ends_the_core(rt: HostRuntime) -> Result<(), Fail> {
    let events = rounds(rt.alloc(), &ROUND, 20)?;
    let left = run(rt.alloc(), &rt, THREE_FRAMES, 3, &events, &[30])?;
    assert_eq!(rt; left.ended, Err(StageError::FrameFault));
    assert_eq!(rt; left.last.as_slice(), OVER.as_slice());
    assert_eq!(rt; left.stream.as_slice(), BACKGROUND_CUT);
    Ok(())
}

#[test]
fn all_orders_of_four_events(rt: HostRuntime) -> Result<(), Fail> {
    for number in 0..24 {
        let order = order_of(rt.alloc(), number)?;
        let events = rounds(rt.alloc(), &order, 176)?;
        let left = run(rt.alloc(), &rt, MERGE_BETWEEN_TWO_FRAMES, 1, &events, &[])?;
        assert_eq!(rt; left.last.as_slice(), OVER.as_slice(), "in order {number}");
        assert_eq!(rt;
            left.stream.as_slice(),
            BACKGROUND_AND_RED,
            "in order {number}"
        );
    }
    Ok(())
}

#[test]
fn two_copies_with_ahead_one(rt: HostRuntime) -> Result<(), Fail> {
    let events = rounds(rt.alloc(), &ROUND, 100)?;
    let left = run(rt.alloc(), &rt, VERTICES_REPLACED, 1, &events, &[])?;
    assert_eq!(rt; left.stream.as_slice(), RED_AND_BLUE);
    assert_eq!(rt; left.copies, 2);
    Ok(())
}
