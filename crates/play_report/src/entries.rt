//! The lines of entries.
ghost use Rattle.std.specs.Prelude.{◌≡◌, ◌++◌, OnOk, codes, decimal};
ghost use Rattle.play_format.specs.Spelling.{line_of, view_entry, view_numbers};
ghost use Rattle.play_format.specs.Texts.{numbers_text};
ghost use Rattle.play_report.specs.Entries.{caller_text, began_text, command_text, fault_text};
ghost use Rattle.play_report.specs.Entries.{serials_text, reply_text, entry_text, entry_texts};

use crate::numbers::{append_labelled, append_numbers};
use pf_history::{Caller, Command, Entry, Reply};
use pf_io::NoMemory;
use pf_model::{Fault, View};
use play_format::append_edit;
use std::alloc::Global;

fn caller_text(caller: Caller) -> &'static [u8]
    ensures { result.now ≡ caller_text caller }
{
    match caller {
        Caller::App => b"app",
        Caller::Dbase => b"dbase",
    }
}

/// Appends where the eye of a view stands, and its angles, each behind a space.
fn append_pose(out: &mut Vec<u8>, view: &View) -> Result<(), NoMemory>
    ensures { OnOk result (out.new.items ≡ out.old.items ++ numbers_text (view_numbers view.now)) }
{
    let eye = view.eye;
    append_numbers(out, &[eye.x, eye.y, eye.z, view.h, view.p, view.r])
}

#[tactic(auto, using(crate::proofs::Views::as_view, crate::proofs::Views::as_channel_view))]
fn append_view(out: &mut Vec<u8>, channel: u8, view: &View) -> Result<(), NoMemory>
    ensures { OnOk result (out.new.items ≡ out.old.items ++ line_of (view_entry channel view.now)) }
{
    if channel == 0 {
        out.extend_from_slice(b"view")?;
        append_pose(out, view)?;
        Ok(())
    } else {
        append_labelled(out, b"cview ", channel)?;
        append_pose(out, view)?;
        Ok(())
    }
}

/// Appends the number of the frame that was begun, behind a space, where the reply tells one.
fn append_began(out: &mut Vec<u8>, reply: &Reply) -> Result<(), NoMemory>
    ensures { OnOk result (out.new.items ≡ out.old.items ++ began_text reply.now) }
{
    match reply {
        Reply::Began(frame) => append_labelled(out, b" ", *frame),
        _ => Ok(()),
    }
}

fn append_command(
    alloc: Global,
    out: &mut Vec<u8>,
    command: &Command,
    reply: &Reply,
) -> Result<(), NoMemory>
    ensures { OnOk result (out.new.items ≡ out.old.items ++ command_text command.now reply.now) }
{
    match command {
        Command::Edit(edit) => append_edit(alloc, out, edit),
        Command::Merge(merge) => {
            append_labelled(out, b"merge ", merge.edits.len())?;
            append_labelled(out, b" ", merge.dropped)
        }
        Command::View(channel, view) => append_view(out, *channel, view),
        Command::Sync(retired) => append_labelled(out, b"sync ", *retired),
        Command::Frame => {
            out.extend_from_slice(b"frame")?;
            append_began(out, reply)
        }
    }
}

/// Appends a label and two numbers.
fn append_pair(out: &mut Vec<u8>, label: &[u8], first: u16, second: u16) -> Result<(), NoMemory>
    ensures { OnOk result (out.new.items
        ≡ out.old.items ++ (label.now ++ decimal first ++ codes " " ++ decimal second)) }
{
    append_labelled(out, label, first)?;
    append_labelled(out, b" ", second)
}

fn append_fault(out: &mut Vec<u8>, fault: Fault) -> Result<(), NoMemory>
    ensures { OnOk result (out.new.items ≡ out.old.items ++ fault_text fault) }
{
    match fault {
        Fault::Absent(id) => append_labelled(out, b"Absent ", id),
        Fault::Taken(id) => append_labelled(out, b"Taken ", id),
        Fault::Kind(id) => append_labelled(out, b"Kind ", id),
        Fault::Place(place) => append_labelled(out, b"Place ", place),
        Fault::NotChild(parent, child) => append_pair(out, b"NotChild ", parent, child),
        Fault::Cycle(parent, child) => append_pair(out, b"Cycle ", parent, child),
        Fault::Many(count) => append_labelled(out, b"Many ", count),
        Fault::Deep(count) => append_labelled(out, b"Deep ", count),
        Fault::Large => Ok(out.extend_from_slice(b"Large")?),
        Fault::InUse(id) => append_labelled(out, b"InUse ", id),
    }
}

/// Appends serials, each behind a space.
fn append_serials(out: &mut Vec<u8>, serials: &[u32]) -> Result<(), NoMemory>
    ensures { OnOk result (out.new.items ≡ out.old.items ++ serials_text serials.now) }
{
    for serial in serials {
        append_labelled(out, b" ", *serial)?;
    }
    Ok(())
}

fn append_reply(out: &mut Vec<u8>, reply: &Reply) -> Result<(), NoMemory>
    ensures { OnOk result (out.new.items ≡ out.old.items ++ reply_text reply.now) }
{
    match reply {
        Reply::Done | Reply::Began(_) => Ok(out.extend_from_slice(b"ok")?),
        Reply::Refused(fault) => {
            out.extend_from_slice(b"fault ")?;
            append_fault(out, *fault)
        }
        Reply::RefusedAt(place, fault) => {
            append_labelled(out, b"at ", *place)?;
            out.extend_from_slice(b" fault ")?;
            append_fault(out, *fault)
        }
        Reply::Freed(serials) => {
            append_labelled(out, b"freed ", serials.len())?;
            append_serials(out, serials.as_slice())
        }
    }
}

/// Appends the line of an entry.
fn append_entry(alloc: Global, out: &mut Vec<u8>, entry: &Entry) -> Result<(), NoMemory>
    ensures { OnOk result (out.new.items ≡ out.old.items ++ entry_text entry.now) }
{
    out.extend_from_slice(caller_text(entry.caller))?;
    out.push(b' ')?;
    append_command(alloc, out, &entry.command, &entry.reply)?;
    out.extend_from_slice(b" : ")?;
    append_reply(out, &entry.reply)?;
    out.push(b'\n')?;
    Ok(())
}

/// Appends the lines of entries, each of which stands beside the number of its seat.
pub(crate) fn append_each(
    alloc: Global,
    out: &mut Vec<u8>,
    entries: &[(u32, Entry)],
) -> Result<(), NoMemory>
    ensures { OnOk result (out.new.items ≡ out.old.items ++ entry_texts entries.now) }
{
    for numbered in entries {
        append_entry(alloc, out, &numbered.1)?;
    }
    Ok(())
}

/// Appends the lines of entries that stand in two slices.
#[tactic(auto, using(crate::proofs::Halves::texts_of_both))]
pub(crate) fn append_both(
    alloc: Global,
    out: &mut Vec<u8>,
    first: &[(u32, Entry)],
    rest: &[(u32, Entry)],
) -> Result<(), NoMemory>
    ensures { OnOk result (out.new.items ≡ out.old.items ++ entry_texts (first.now ++ rest.now)) }
{
    append_each(alloc, out, first)?;
    append_each(alloc, out, rest)
}
