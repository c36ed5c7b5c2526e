//! Plays a row, once or with a fault at each of its places.

use crate::row::{Faults, Repeat, Row, Stream};
use anyhow::{Context, Result};
use perfly_top::perfly;
use pf_io::{FreeGate, MemSink, MemSource};
use std::alloc::{AllocError, Global};
use std::fs;
use std::rt::Files;
use std::sync::Wait;
use std::thread::Threads;

/// How the runs of a row went.
#[derive(Drop)]
pub struct Tally {
    pub runs: u64,
    /// How the first run that went wrong differs from the row.
    pub difference: Option<String>,
}

/// A place at which a stream fails.
#[derive(Clone, Copy)]
struct Fault {
    stream: Stream,
    place: u64,
}

/// What a run leaves.
#[derive(Drop)]
struct Left {
    status: u8,
    frames: MemSink,
    report: MemSink,
}

/// Plays a row.
pub fn play_row<R: Files + AllocGlobal + Threads + Wait + Copy + Drop + Send + Sync + 'static>(
    rt: &R,
    row: &Row,
) -> Result<Tally> {
    let text = text_of(rt, row)?;
    match row.faults {
        None => play_once(rt, row, text.as_slice()),
        Some(faults) => play_with_faults(rt, row, text.as_slice(), faults),
    }
}

fn play_once<R: AllocGlobal + Threads + Wait + Copy + Drop + Send + Sync + 'static>(
    rt: &R,
    row: &Row,
    text: &[u8],
) -> Result<Tally> {
    let left = run(rt, row, text, None)?;
    Ok(Tally {
        runs: 1,
        difference: difference(rt.alloc(), row, &left, None)?,
    })
}

fn play_with_faults<R: AllocGlobal + Threads + Wait + Copy + Drop + Send + Sync + 'static>(
    rt: &R,
    row: &Row,
    text: &[u8],
    faults: Faults,
) -> Result<Tally> {
    let mut tally = Tally {
        runs: 0,
        difference: None,
    };
    for place in faults.first..=faults.last {
        let fault = Fault {
            stream: faults.stream,
            place,
        };
        let left = run(rt, row, text, Some(fault))?;
        tally.runs = tally.runs.saturating_add(1);
        if tally.difference.is_none() {
            tally.difference = difference(rt.alloc(), row, &left, Some(fault))?;
        }
    }
    Ok(tally)
}

/// Plays a text once.
fn run<R: AllocGlobal + Threads + Wait + Copy + Drop + Send + Sync + 'static>(
    rt: &R,
    row: &Row,
    text: &[u8],
    fault: Option<Fault>,
) -> Result<Left> {
    let alloc = rt.alloc();
    let text = Vec::from_slice(alloc, text)?;
    let mut input = MemSource::new(text, places_of(alloc, fault, Stream::Source)?);
    let mut frames = sink(
        alloc,
        row.stream.room(),
        places_of(alloc, fault, Stream::Frames)?,
    )?;
    let mut report = sink(
        alloc,
        row.report.room(),
        places_of(alloc, fault, Stream::Report)?,
    )?;
    let ended = perfly(
        alloc,
        rt,
        row.words.as_slice(),
        &mut input,
        &mut frames,
        &mut report,
        FreeGate,
    );
    Ok(Left {
        status: ended.status,
        frames,
        report,
    })
}

fn sink(alloc: Global, room: usize, places: Vec<u64>) -> Result<MemSink> {
    MemSink::new(alloc, room, places).ok().context("no memory")
}

/// The places at which a stream fails.
fn places_of(alloc: Global, fault: Option<Fault>, stream: Stream) -> Result<Vec<u64>, AllocError> {
    let mut places = Vec::new(alloc);
    if let Some(fault) = fault
        && fault.stream == stream
    {
        places.push(fault.place)?;
    }
    Ok(places)
}

/// Where a stream is cut.
fn cut_of(fault: Option<Fault>, stream: Stream) -> Option<usize> {
    let fault = fault?;
    if fault.stream == stream {
        usize::try_from(fault.place).ok()
    } else {
        None
    }
}

/// How a run differs from its row.
fn difference(
    alloc: Global,
    row: &Row,
    left: &Left,
    fault: Option<Fault>,
) -> Result<Option<String>, AllocError> {
    let frames = left.frames.bytes();
    let report = left.report.bytes();
    let what = if left.status != row.status {
        format!(in alloc; "status {}, not {}", left.status, row.status)?
    } else if !row.stream.fits(frames, cut_of(fault, Stream::Frames)) {
        format!(in alloc; "other pictures, in {} bytes", frames.len())?
    } else if !row.report.fits(report, cut_of(fault, Stream::Report)) {
        format!(in alloc; "another report, of {} bytes", report.len())?
    } else {
        return Ok(None);
    };
    match fault {
        None => Ok(Some(what)),
        Some(fault) => Ok(Some(format!(in alloc;
            "with a fault at {}: {}",
            fault.place,
            what.as_str()
        )?)),
    }
}

/// The text that a row plays.
fn text_of<R: Files + AllocGlobal>(rt: &R, row: &Row) -> Result<Vec<u8>> {
    let alloc = rt.alloc();
    let mut text = if row.play.is_empty() {
        Vec::new(alloc)
    } else {
        let file = row.play.as_str();
        fs::read(rt, file).context(format_args!("reading {file}"))?
    };
    text.extend_from_slice(row.lines.as_str().as_bytes())?;
    if let Some(repeat) = row.repeat {
        text = repeated(alloc, text.as_slice(), repeat)?;
    }
    text.extend_from_slice(row.cut.as_str().as_bytes())?;
    Ok(text)
}

/// A text in which some lines stand several times.
fn repeated(alloc: Global, text: &[u8], repeat: Repeat) -> Result<Vec<u8>, AllocError> {
    let mut out = Vec::new(alloc);
    let mut block = Vec::new(alloc);
    let mut number = 0usize;
    for line in text.split_inclusive(|byte| *byte == b'\n') {
        number = number.saturating_add(1);
        if number < repeat.first || number > repeat.last {
            out.extend_from_slice(line)?;
            continue;
        }
        block.extend_from_slice(line)?;
        if number == repeat.last {
            for _ in 0..repeat.times {
                out.extend_from_slice(block.as_slice())?;
            }
        }
    }
    Ok(out)
}
