//! Replies, and what an entry holds.
ghost use Rattle.std.specs.Prelude.{◌≡◌, ◌+◌, ◌≤◌, ◌++◌, length, replicate, IfOk};
ghost use Rattle.std.specs.Option.{option_map_or};
ghost use Rattle.pf_model.specs.Angles.{home_view};
ghost use Rattle.pf_history.specs.declared.commands.Reply.TheVariants as reply;
ghost use Rattle.pf_history.specs.Commands.{caller_of};

use pf_history::{Command, Entry, Reply};
use pf_io::NoMemory;
use pf_model::{Fault, Serials, SerialsBuilder, View};
use std::alloc::Global;

/// The entry of a command with this reply.
pub(crate) fn own_entry(command: Command, reply: Reply) -> Entry
    ensures { result ≡ record { caller = caller_of command; command = command; reply = reply } }
{
    Entry {
        caller: command.caller(),
        command,
        reply,
    }
}

/// The reply to an edit.
pub(crate) fn of_edit(fault: Option<Fault>) -> Reply
    ensures { result ≡ option_map_or reply.Refused fault reply.Done }
{
    match fault {
        Some(fault) => Reply::Refused(fault),
        None => Reply::Done,
    }
}

/// The reply to a merge.
pub(crate) fn of_merge(fault: Option<(u32, Fault)>) -> Reply
    ensures { result ≡ option_map_or (λ f. reply.RefusedAt f.0 f.1) fault reply.Done }
{
    match fault {
        Some((place, fault)) => Reply::RefusedAt(place, fault),
        None => Reply::Done,
    }
}

/// Appends the same serials once more.
pub(crate) fn tell_again(serials: &[u32], out: &mut SerialsBuilder)
    requires { length serials.now ≤ out.old.spare }
    ensures items { out.new.items ≡ out.old.items ++ serials.now }
    ensures spare { out.new.spare + length serials.now ≡ out.old.spare }
{
    for serial in serials {
        out.push(*serial);
    }
}

/// The list of serials, of which none is missing.
pub(crate) fn whole(serials: SerialsBuilder) -> Serials
    requires { serials.spare ≡ 0 }
    ensures { result ≡ serials.items }
{
    match serials.finish() {
        Ok(serials) => serials,
        Err(_) => unreachable!(),
    }
}

/// The view of each of so many channels before any is set.
#[tactic(auto, using(crate::proofs::Filling::filled))]
pub(crate) fn home_views(alloc: Global, channels: u8) -> Result<Vec<View>, NoMemory>
    ensures { IfOk result (λ views. views.items ≡ replicate channels home_view) }
{
    let mut views = Vec::new(alloc);
    views.resize(channels as usize, View::home())?;
    Ok(views)
}
