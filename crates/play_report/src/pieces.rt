//! A report in pieces, for a run that tells its lines while it goes on.
ghost use Rattle.std.specs.Prelude.{◌≡◌, ◌++◌, OnOk, OnErr};
ghost use Rattle.play_report.specs.Entries.{entry_texts};
ghost use Rattle.play_report.specs.Frames.{frame_text};
ghost use Rattle.play_report.specs.Probes.{probe_line};

use crate::entries::append_each;
use crate::{frames, probes};
use draw_list::Stats;
use nearest_hit::Near;
use pf_history::Entry;
use pf_io::NoMemory;
use std::alloc::Global;

/// Appends the lines of entries in turn, each of which stands beside the number of its seat.
///
/// Returns `Err(NoMemory)` if memory runs out, and leaves the text of `out` as it was.
pub fn append_entries(
    alloc: Global,
    out: &mut Vec<u8>,
    entries: &[(u32, Entry)],
) -> Result<(), NoMemory>
    ensures text { OnOk result (out.new.items ≡ out.old.items ++ entry_texts entries.now) }
    ensures kept { OnErr result (out.new.items ≡ out.old.items) }
{
    let mut text = Vec::new(alloc);
    append_each(alloc, &mut text, entries)?;
    out.extend_from_slice(text.as_slice())?;
    Ok(())
}

/// Appends the line of the frame of this number, counted from 1, with its numbers, summed over the channels.
///
/// Returns `Err(NoMemory)` if memory runs out, and leaves the text of `out` as it was.
pub fn append_frame(
    alloc: Global,
    out: &mut Vec<u8>,
    frame: usize,
    stats: Stats,
) -> Result<(), NoMemory>
    ensures text { OnOk result (out.new.items ≡ out.old.items ++ frame_text frame stats) }
    ensures kept { OnErr result (out.new.items ≡ out.old.items) }
{
    let mut text = Vec::new(alloc);
    frames::append_line(&mut text, frame, stats)?;
    out.extend_from_slice(text.as_slice())?;
    Ok(())
}

/// Appends the line of the result of a probe for the frame of this number, counted from 1.
///
/// Returns `Err(NoMemory)` if memory runs out, and leaves the text of `out` as it was.
pub fn append_probe(
    alloc: Global,
    out: &mut Vec<u8>,
    frame: usize,
    answer: Option<Near>,
) -> Result<(), NoMemory>
    ensures text { OnOk result (out.new.items ≡ out.old.items ++ probe_line frame answer) }
    ensures kept { OnErr result (out.new.items ≡ out.old.items) }
{
    let mut text = Vec::new(alloc);
    probes::append_line(&mut text, frame, answer)?;
    out.extend_from_slice(text.as_slice())?;
    Ok(())
}
