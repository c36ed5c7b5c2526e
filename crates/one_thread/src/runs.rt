//! Runs of the one-thread object: commands that one thread makes one after the other, and their history.
ghost use Rattle.std.specs.Prelude.{◌≡◌, ◌+◌, ◌-◌, ◌^◌, ◌<◌, ◌↔◌, true, min, [], ◌∷◌, ◌++◌, IsTrue, IfOk, OnOk};
ghost use Rattle.std.specs.List.{list_all, sum_by};
ghost use Rattle.pf_history.specs.Objects.{opening_state, next_state};
ghost use Rattle.pf_history.specs.Logs.{state_of, IsLegal, entry_of};
ghost use Rattle.pf_history.specs.Commands.{command_fits, edit_count};
ghost use Rattle.one_thread.specs.Runs.{CanCount, CanRun, CanMakeEach, entries_from};

use crate::sequential::Sequential;
use pf_history::{Command, Entry, History};
use pf_io::NoMemory;
use std::alloc::Global;

/// Returns the number of edits of commands, or the greatest number of its type if there are more.
fn edits_of(commands: &[Command]) -> usize
    ensures { result ≡ min (sum_by edit_count commands.now) usize.MAX }
{
    let mut edits = 0usize;
    for command in commands {
        edits = edits.saturating_add(command.edit_count());
    }
    edits
}

/// Returns whether the numbers of all edits of commands are in the ranges of a play.
fn fit(commands: &[Command]) -> bool
    ensures { result ≡ list_all command_fits commands.now }
{
    commands.iter().all(|command| command.fits())
}

/// Returns whether one run may make these commands: the numbers of their edits are in the ranges of a play, and there
/// are fewer than 2^32 - 1 edits and fewer than 2^32 - 2 commands.
pub fn can_run(commands: &[Command]) -> bool
    ensures { IsTrue result ↔ CanRun commands.now }
{
    let max = u32::MAX as usize;
    fit(commands) && edits_of(commands) < max && commands.len() < max - 1
}

/// Makes a command, and notes it with its reply as an entry of the seat 0.
fn note(object: Sequential, history: &mut History, command: Command) -> Result<Sequential, NoMemory>
    requires counts { CanCount object command }
    requires fits { command_fits command ≡ true }
    ensures state { IfOk result (λ o. o ≡ next_state object command) }
    ensures entries { OnOk result (history.new.entries ≡ history.old.entries ++ (0, entry_of object command) ∷ []) }
{
    history.reserve(1)?;
    let (object, reply) = object.make(&command)?;
    let entry = Entry {
        caller: command.caller(),
        command,
        reply,
    };
    history.push_reserved(0, entry);
    Ok(object)
}

/// Makes commands one after the other, from the opening state with `channels` channels on. Returns the object that they
/// leave, and their history, in which each is an entry of the seat 0.
///
/// Returns `Err(NoMemory)` if memory runs out; then nothing of the run is left.
pub fn run(
    alloc: Global,
    channels: u8,
    commands: Vec<Command>,
) -> Result<(Sequential, History), NoMemory>
    requires { CanRun commands.items }
    ensures entries { IfOk result (λ run. run.1.entries ≡ entries_from (opening_state channels) commands.items) }
    ensures state { IfOk result (λ run. run.0 ≡ state_of channels run.1.entries) }
    ensures legal { IfOk result (λ run. CanMakeEach (opening_state channels) commands.items
        → IsLegal channels run.1.entries) }
{
    let mut object = Sequential::new(alloc, channels)?;
    let mut history = History::new(alloc);
    for command in commands {
        object = note(object, &mut history, command)?;
    }
    Ok((object, history))
}
