//! Plays of texts, in every mode.
ghost use Rattle.std.specs.Prelude.{◌≤◌, IfSome};

use mode_hosts::{Mode, PlayEnd, Played, Setup, play_all};
use nearest_hit::Near;
use pf_io::{Gate, MemSink};
use play_check::stuck;
use play_format::parse;
use std::alloc::Global;
use std::sync::Wait;
use std::test::Fail;
use std::thread::Threads;

pub const MODES: [Mode; 4] = [
    Mode::Appculldraw,
    Mode::AppCulldraw,
    Mode::AppcullDraw,
    Mode::AppCullDraw,
];

/// What a play left, and the bytes of its stream.
#[derive(Drop)]
pub struct Streamed {
    pub end: PlayEnd,
    pub entries: usize,
    pub frames: usize,
    pub stream: Vec<u8>,
    pub probes: Vec<Option<Near>>,
}

/// What a play left, with the bytes of its stream.
fn stream_of(alloc: Global, played: Played, stream: &[u8]) -> Result<Streamed, Fail> {
    Ok(Streamed {
        end: played.end,
        entries: played.history.len(),
        frames: played.stats.len(),
        stream: Vec::from_slice(alloc, stream)?,
        probes: played.probes,
    })
}

/// Plays a text.
pub fn play_text<
    R: Threads + Wait + Copy + Drop + Send + Sync + 'static,
    G: Gate + Send + Drop + 'static,
>(rt: &R, alloc: Global, text: &str, setup: Setup, gate: G) -> Result<Streamed, Fail>
    requires some { 1 ≤ setup.ahead }
    requires few { setup.ahead ≤ 4 }
    requires stream { IfSome setup.stream (λ n. (1 ≤ n) × (n ≤ 4096)) }
{
    let play = parse(alloc, text.as_bytes())?;
    if stuck(&play).is_some() {
        return Err(Fail::from("a stuck play"));
    }
    let mut frames = MemSink::new(alloc, 1000, Vec::new(alloc))?;
    let played = play_all(alloc, rt, play, &setup, &mut frames, gate);
    stream_of(alloc, played, frames.bytes())
}
