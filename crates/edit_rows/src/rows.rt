//! Rows: a play, the report of its entries, and the bytes of its frames.
use crate::commands::commands;
use crate::pictures::{Look, draw_frame};
use crate::working::{replies, same_nodes};
use crate::wrong::Wrong;
use one_thread::{Sequential, can_run, run};
use pf_edits::WorkGraph;
use pf_history::{Command, Reply};
use play_format::parse;
use play_report::append_report;
use std::alloc::Global;
use std::rt::Files;
use std::{fmt, fs};

/// What is left when a row is played.
#[derive(Clone, Copy)]
pub struct Told {
    size: u32,
    tris: u32,
    gone: usize,
}

impl fmt::Display for Told {
    fn fmt<W: fmt::Write>(&self, f: &mut fmt::Formatter<W>) -> fmt::Result {
        write!(
            f,
            "size {}, triangles {}, deleted {}",
            self.size, self.tris, self.gone
        )
    }
}

/// Makes a command of a row, which has few.
fn make(object: Sequential, command: &Command) -> Result<(Sequential, Reply), Wrong> {
    if object.graph().next_serial() > 1_000 || object.frames() > 1_000 || object.merges() > 1_000 {
        return Err(Wrong::Long);
    }
    if command.edit_count() > 1_000 || !command.fits() {
        return Err(Wrong::Long);
    }
    Ok(object.make(command)?)
}

/// Makes the commands one by one, on the object and on the graph that the stages share.
fn follow(alloc: Global, look: Look, commands: &[Command], frames: &[u8]) -> Result<Told, Wrong> {
    let mut object = Sequential::new(alloc, look.channels)?;
    let mut graph = WorkGraph::new(alloc)?;
    let mut drawn = Vec::new(alloc);
    for (i, command) in commands.iter().enumerate() {
        if let Command::Frame = command {
            draw_frame(alloc, look, &object, &mut drawn)?;
        }
        let (next, reply) = make(object, command)?;
        object = next;
        if !replies(&mut graph, command, &reply) {
            return Err(Wrong::Working(i));
        }
    }
    if drawn.as_slice() != frames {
        return Err(Wrong::Pictures);
    }
    same_nodes(&graph, object.graph())?;
    Ok(Told {
        size: graph.size(),
        tris: graph.tris(),
        gone: graph.take_gone().len(),
    })
}

/// The run of all commands has this report.
fn reports(alloc: Global, channels: u8, commands: Vec<Command>, report: &str) -> Result<(), Wrong> {
    if !can_run(commands.as_slice()) {
        return Err(Wrong::Long);
    }
    let (_, history) = run(alloc, channels, commands)?;
    let mut text = Vec::new(alloc);
    append_report(alloc, &mut text, &history, &[])?;
    if text.as_slice() == report.as_bytes() {
        Ok(())
    } else {
        Err(Wrong::Report)
    }
}

/// Judges a play by a report of its entries and by its frames.
fn judge(alloc: Global, text: &[u8], report: &str, frames: &[u8]) -> Result<Told, Wrong> {
    let play = parse(alloc, text)?;
    let look = Look {
        lens: play.lens(),
        back: play.back(),
        channels: play.channels(),
    };
    let (app, dbase) = play.into_lists();
    let commands = commands(alloc, app, dbase, report)?;
    let told = follow(alloc, look, commands.as_slice(), frames)?;
    reports(alloc, look.channels, commands, report)?;
    Ok(told)
}

/// Reads and judges the row of a name.
pub fn row<R: Files + AllocGlobal>(rt: &R, name: &str) -> Result<Told, Wrong> {
    let alloc = rt.alloc();
    let play = fs::read(rt, format!(in alloc; "{name}.play")?.as_str())?;
    let report = fs::read_to_string(rt, format!(in alloc; "{name}.report")?.as_str())?;
    let frames = fs::read(rt, format!(in alloc; "{name}.frames")?.as_str())?;
    judge(alloc, play.as_slice(), report.as_str(), frames.as_slice())
}
