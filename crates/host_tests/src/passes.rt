//! What a gate sees of the stages of one thread, through the whole call: which numbers they pass, and how many turns a frame
//! takes whose draw lists are sent in pieces.

use crate::calls::{Asked, play_as, play_by_words};
use crate::meetings::FRAMES_AND_MERGES;
use mode_hosts::Mode;
use perfly_top::DONE;
use pf_io::{Gate, Stage};
use std::alloc::Global;
use std::sync::atomic::{AtomicU64, Ordering};
use std::sync::{Arc, Wait};
use std::test::Fail;
use std::thread::Threads;

/// How often each stage passed, and whether a stage passed with another number than that of its passes.
#[derive(Drop)]
struct Passes {
    app: AtomicU64,
    cull: AtomicU64,
    draw: AtomicU64,
    dbase: AtomicU64,
    wrong: AtomicU64,
    /// How many merges had passed where the draw came to the first frame, and where the application came to the second.
    at_draw: AtomicU64,
    at_next: AtomicU64,
}

impl Passes {
    fn new() -> Passes {
        Passes {
            app: AtomicU64::new(0),
            cull: AtomicU64::new(0),
            draw: AtomicU64::new(0),
            dbase: AtomicU64::new(0),
            wrong: AtomicU64::new(0),
            at_draw: AtomicU64::new(0),
            at_next: AtomicU64::new(0),
        }
    }

    /// Counts a pass, and notes whether its number is that of the passes by then.
    fn count(&self, passes: &AtomicU64, number: u32) {
        let before = passes.fetch_add(1, Ordering::SeqCst);
        if before.saturating_add(1) != u64::from(number) {
            self.wrong.store(1, Ordering::SeqCst);
        }
    }

    fn merges(&self) -> u64 {
        self.dbase.load(Ordering::SeqCst)
    }

    fn pass(&self, stage: Stage, number: u32) {
        match stage {
            Stage::App => {
                self.count(&self.app, number);
                if number == 2 {
                    self.at_next.store(self.merges(), Ordering::SeqCst);
                }
            }
            Stage::Cull => self.count(&self.cull, number),
            Stage::Draw => {
                self.count(&self.draw, number);
                if number == 1 {
                    self.at_draw.store(self.merges(), Ordering::SeqCst);
                }
            }
            Stage::Dbase => self.count(&self.dbase, number),
        }
    }

    /// How many merges passed while the first frame was drawn.
    fn merges_beside(&self) -> u64 {
        let before = self.at_draw.load(Ordering::SeqCst);
        self.at_next.load(Ordering::SeqCst).saturating_sub(before)
    }
}

/// The gate that counts.
#[derive(Drop)]
struct CountingGate(Arc<Passes, Global>);

impl Gate for CountingGate {
    fn pass(&self, stage: Stage, number: u32) {
        self.0.pass(stage, number);
    }
}

#[test]
fn one_thread_passes_each_number_in_turn(rt: HostRuntime) -> Result<(), Fail> {
    let passes = Arc::new(rt.alloc(), Passes::new())?;
    let gate = CountingGate(Arc::try_clone(&passes)?);
    let status = play_by_words(&rt, rt.alloc(), FRAMES_AND_MERGES, &[], gate)?;
    assert_eq!(rt; status, DONE);
    assert_eq!(rt; passes.app.load(Ordering::SeqCst), 4);
    assert_eq!(rt; passes.cull.load(Ordering::SeqCst), 4);
    assert_eq!(rt; passes.draw.load(Ordering::SeqCst), 4);
    assert_eq!(rt; passes.dbase.load(Ordering::SeqCst), 3);
    assert_eq!(rt; passes.wrong.load(Ordering::SeqCst), 0);
    Ok(())
}

/// Two frames of forty triangles, and behind the first frame a hundred merges of nothing.
fn forty_items(alloc: Global) -> Result<String, Fail> {
    let mut text = String::from_str(
        alloc,
        "perfly 1\nsize 2 2\nlens 1 1 1073741823\nback 10 20 30\napp\n",
    )?;
    for id in 1..=40u32 {
        let lines = format!(in alloc;
            "geode {id} 0 1\n\
            t -40960 4096 -40960 255 0 0 40960 4096 -40960 255 0 0 0 4096 81920 255 0 0\n\
            add 0 {id}\n"
        )?;
        text.push_str(lines.as_str())?;
    }
    text.push_str("frame\nframe\ndbase\nawait 1\n")?;
    for _merge in 0..100 {
        text.push_str("buffer\nmerge\n")?;
    }
    Ok(text)
}

/// How many merges pass while a frame of forty items is drawn, all stages on one thread.
fn merges_beside<R: Threads + Wait + Copy + Drop + Send + Sync + 'static>(
    rt: &R,
    alloc: Global,
    text: &str,
    stream: Option<&'static str>,
) -> Result<u64, Fail> {
    let passes = Arc::new(alloc, Passes::new())?;
    let gate = CountingGate(Arc::try_clone(&passes)?);
    let asked = Asked {
        mode: Mode::Appculldraw,
        dbase: false,
        ahead: "1",
        probe: false,
        stream,
    };
    let status = play_as(rt, alloc, text, asked, gate)?;
    if status != DONE {
        return Err(Fail::from("a play that did not come to its end"));
    }
    Ok(passes.merges_beside())
}

/// Each stage takes one step in turn, and a piece is a step of the draw: so the database process comes to more merges while a
/// frame is drawn in forty pieces than while it is drawn at once.
#[test]
fn pieces_take_turns(rt: HostRuntime) -> Result<(), Fail> {
    let text = forty_items(rt.alloc())?;
    let whole = merges_beside(&rt, rt.alloc(), text.as_str(), None)?;
    let one_piece = merges_beside(&rt, rt.alloc(), text.as_str(), Some("4096"))?;
    let forty = merges_beside(&rt, rt.alloc(), text.as_str(), Some("1"))?;
    assert!(rt; whole < 10, "{whole}");
    assert!(rt; one_piece < 10, "{one_piece}");
    assert!(rt; forty >= 20, "{forty}");
    Ok(())
}
