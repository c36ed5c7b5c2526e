//! Plays of texts through the whole call, as words say.

use mode_hosts::Mode;
use perfly_top::perfly;
use pf_io::{Gate, MemSink, MemSource};
use std::alloc::Global;
use std::sync::Wait;
use std::test::Fail;
use std::thread::Threads;

/// What words ask for.
#[derive(Clone, Copy, Debug, PartialEq, Eq)]
pub struct Asked {
    pub mode: Mode,
    pub dbase: bool,
    pub ahead: &'static str,
    pub probe: bool,
    /// The most items of a piece, where draw lists are to be sent in pieces.
    pub stream: Option<&'static str>,
}

/// The name of a mode.
fn name_of(mode: Mode) -> &'static str {
    match mode {
        Mode::Appculldraw => "appculldraw",
        Mode::AppCulldraw => "app_culldraw",
        Mode::AppcullDraw => "appcull_draw",
        Mode::AppCullDraw => "app_cull_draw",
    }
}

fn push(words: &mut Vec<String>, alloc: Global, word: &str) -> Result<(), Fail> {
    words.push(String::from_str(alloc, word)?)?;
    Ok(())
}

/// The words that ask for this.
fn words_for(alloc: Global, asked: Asked) -> Result<Vec<String>, Fail> {
    let mut words = Vec::new(alloc);
    for word in ["--mode", name_of(asked.mode), "--ahead", asked.ahead] {
        push(&mut words, alloc, word)?;
    }
    if asked.dbase {
        push(&mut words, alloc, "--dbase")?;
    }
    if asked.probe {
        push(&mut words, alloc, "--probe=0,0,0,0,8192,0")?;
    }
    if let Some(limit) = asked.stream {
        push(&mut words, alloc, "--stream")?;
        push(&mut words, alloc, limit)?;
    }
    Ok(words)
}

/// Plays a text by words, and answers the status.
pub fn play_by_words<
    R: Threads + Wait + Copy + Drop + Send + Sync + 'static,
    G: Gate + Send + Drop + 'static,
>(rt: &R, alloc: Global, text: &str, words: &[String], gate: G) -> Result<u8, Fail> {
    let bytes = Vec::from_slice(alloc, text.as_bytes())?;
    let mut input = MemSource::new(bytes, Vec::new(alloc));
    let mut frames = MemSink::new(alloc, 10_000, Vec::new(alloc))?;
    let mut report = MemSink::new(alloc, 100_000, Vec::new(alloc))?;
    let ended = perfly(alloc, rt, words, &mut input, &mut frames, &mut report, gate);
    Ok(ended.status)
}

/// Plays a text as asked, and answers the status.
pub fn play_as<
    R: Threads + Wait + Copy + Drop + Send + Sync + 'static,
    G: Gate + Send + Drop + 'static,
>(rt: &R, alloc: Global, text: &str, asked: Asked, gate: G) -> Result<u8, Fail> {
    let words = words_for(alloc, asked)?;
    play_by_words(rt, alloc, text, words.as_slice(), gate)
}
