//! The commands of a play, in the order of a report.
use crate::wrong::Wrong;
use dbase_buffer::{Buffer, BufferError};
use pf_history::Command;
use pf_model::{AppLine, AppStep, BaseLine, BaseStep, Edit};
use std::alloc::Global;
use std::mem;
use std::vec::IntoIter;

/// The command of a step, where the report does not say it.
fn turn(step: AppStep) -> Option<Command> {
    match step {
        AppStep::Edit(e) => Some(Command::Edit(e)),
        AppStep::View(channel, view) => Some(Command::View(channel, view)),
        AppStep::Sync | AppStep::Frame | AppStep::Wait(_) => None,
    }
}

/// The edits and views of the application's steps, in order.
fn turns(alloc: Global, steps: Vec<AppLine>) -> Result<Vec<Command>, Wrong> {
    let mut turns = Vec::new(alloc);
    for line in steps {
        if let Some(turn) = turn(line.step) {
            turns.push(turn)?;
        }
    }
    Ok(turns)
}

/// Judges an edit in a buffer of few lines.
fn judge(buffer: &mut Buffer, e: Edit) -> Result<(), Wrong> {
    if buffer.next_serial() > 1_000 || buffer.dropped() > 1_000 || !e.fits() {
        return Err(Wrong::Long);
    }
    match buffer.edit(e) {
        Err(BufferError::NoMemory) => Err(Wrong::NoMemory),
        _ => Ok(()),
    }
}

/// Records a link without a test.
fn ask(buffer: &mut Buffer, e: Edit) -> Result<(), Wrong> {
    match e {
        Edit::Add { parent, child } => Ok(buffer.ask_add(parent, child)?),
        Edit::Remove { parent, child } => Ok(buffer.ask_remove(parent, child)?),
        _ => Err(Wrong::Order),
    }
}

/// A value that may be moved to another thread.
fn movable<T: Send>(value: T) -> T {
    value
}

/// An empty buffer.
fn opened(alloc: Global) -> Result<Buffer, Wrong> {
    Ok(movable(Buffer::new(alloc)?))
}

/// The merges of the steps of the database process, in order.
fn merges(alloc: Global, steps: Vec<BaseLine>) -> Result<Vec<Command>, Wrong> {
    let mut merges = Vec::new(alloc);
    let mut buffer = opened(alloc)?;
    for line in steps {
        match line.step {
            BaseStep::Edit(e) => judge(&mut buffer, e)?,
            BaseStep::Ask(e) => ask(&mut buffer, e)?,
            BaseStep::Merge => {
                let full = mem::replace(&mut buffer, opened(alloc)?);
                merges.push(Command::Merge(full.take()))?;
            }
            BaseStep::Buffer | BaseStep::Await(_) => {}
        }
    }
    Ok(merges)
}

/// The Sync of a line of a report, behind the words that all of them begin with.
fn sync(rest: &str) -> Result<Command, Wrong> {
    let number = rest.split(' ').next().ok_or(Wrong::Order)?;
    let retired = number.parse::<u32>().ok().ok_or(Wrong::Order)?;
    Ok(Command::Sync(retired))
}

/// The command of a line of a report.
fn command(
    line: &str,
    turns: &mut IntoIter<Command>,
    merges: &mut IntoIter<Command>,
) -> Result<Command, Wrong> {
    if let Some(rest) = line.strip_prefix("app sync ") {
        return sync(rest);
    }
    if line.starts_with("app frame ") {
        return Ok(Command::Frame);
    }
    let next = if line.starts_with("dbase ") {
        merges.next()
    } else {
        turns.next()
    };
    next.ok_or(Wrong::Order)
}

/// The commands of a play's steps, in the order of the lines of a report.
pub fn commands(
    alloc: Global,
    app: Vec<AppLine>,
    dbase: Vec<BaseLine>,
    report: &str,
) -> Result<Vec<Command>, Wrong> {
    let mut turns = turns(alloc, app)?.into_iter();
    let mut merges = merges(alloc, dbase)?.into_iter();
    let mut commands = Vec::new(alloc);
    for line in report.lines() {
        commands.push(command(line, &mut turns, &mut merges)?)?;
    }
    if turns.next().is_some() || merges.next().is_some() {
        return Err(Wrong::Order);
    }
    Ok(commands)
}
