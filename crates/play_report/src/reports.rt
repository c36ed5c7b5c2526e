//! Reports and summaries.
ghost use Rattle.std.specs.Prelude.{◌≡◌, ℕ, ◌≤◌, ◌++◌, length, OnOk, OnErr};
ghost use Rattle.fx_math.specs.declared.lenses.Lens.{Lens};
ghost use Rattle.pf_history.specs.Commands.{is_frame, is_merge};
ghost use Rattle.pf_history.specs.Logs.{how_many};
ghost use Rattle.play_report.specs.Frames.{frame_texts, stats_of_frames};
ghost use Rattle.play_report.specs.Reports.{report_text, report, summary_text, summary};

use crate::entries::append_both;
use crate::frames::{append_frames, sum_of};
use crate::numbers::append_labelled;
use draw_list::Stats;
use pf_history::{Command, Entry, History};
use pf_io::NoMemory;
use std::alloc::Global;

/// Appends the report of a history: a line for each entry, and then a line for each frame, whose numbers are handed in
/// in turn, summed over the channels.
///
/// Returns `Err(NoMemory)` if memory runs out, or if an entry was told and left memory. The text of `out` is then as it
/// was.
pub fn append_report(
    alloc: Global,
    out: &mut Vec<u8>,
    history: &History,
    stats: &[Stats],
) -> Result<(), NoMemory>
    ensures text { OnOk result (out.new.items
        ≡ out.old.items ++ report_text history.now.entries stats.now) }
    ensures report { (lens : Lens) (channels : ℕ)
        → stats.now ≡ stats_of_frames lens channels history.now.entries
        → OnOk result (out.new.items ≡ out.old.items ++ report lens channels history.now.entries) }
    ensures kept { OnErr result (out.new.items ≡ out.old.items) }
{
    let (first, rest) = history.whole()?;
    let mut text = Vec::new(alloc);
    append_both(alloc, &mut text, first, rest)?;
    append_frames(&mut text, stats)?;
    out.extend_from_slice(text.as_slice())?;
    Ok(())
}

/// Appends the lines of the frames alone, whose numbers are handed in in turn, summed over the channels.
///
/// Returns `Err(NoMemory)` if memory runs out, and leaves the text of `out` as it was.
pub fn append_stats(alloc: Global, out: &mut Vec<u8>, stats: &[Stats]) -> Result<(), NoMemory>
    ensures text { OnOk result (out.new.items ≡ out.old.items ++ frame_texts 1 stats.now) }
    ensures kept { OnErr result (out.new.items ≡ out.old.items) }
{
    let mut text = Vec::new(alloc);
    append_frames(&mut text, stats)?;
    out.extend_from_slice(text.as_slice())?;
    Ok(())
}

/// Whether an entry, beside the number of its seat, is a Frame.
fn is_frame(numbered: &(u32, Entry)) -> bool
    ensures { result ≡ is_frame numbered.now.1.command }
{
    matches!(numbered.1.command, Command::Frame)
}

/// Whether it is a merge.
fn is_merge(numbered: &(u32, Entry)) -> bool
    ensures { result ≡ is_merge numbered.now.1.command }
{
    matches!(numbered.1.command, Command::Merge(_))
}

/// How many Frames are among entries.
#[tactic(auto, using(crate::proofs::Counts::one_more))]
fn frames_in(entries: &[(u32, Entry)]) -> usize
    ensures value { result ≡ how_many is_frame entries.now }
    ensures few { result ≤ length entries.now }
{
    let mut frames = 0;
    for numbered in entries {
        if is_frame(numbered) {
            frames += 1;
        }
    }
    frames
}

/// How many merges are among entries.
#[tactic(auto, using(crate::proofs::Counts::one_more))]
fn merges_in(entries: &[(u32, Entry)]) -> usize
    ensures value { result ≡ how_many is_merge entries.now }
    ensures few { result ≤ length entries.now }
{
    let mut merges = 0;
    for numbered in entries {
        if is_merge(numbered) {
            merges += 1;
        }
    }
    merges
}

/// How many Frames are among entries that stand in two slices.
#[tactic(auto, using(crate::proofs::Halves::many_of_both))]
fn frames_of(first: &[(u32, Entry)], rest: &[(u32, Entry)]) -> usize
    ensures { result ≡ how_many is_frame (first.now ++ rest.now) }
{
    frames_in(first) + frames_in(rest)
}

/// How many merges are among them.
#[tactic(auto, using(crate::proofs::Halves::many_of_both))]
fn merges_of(first: &[(u32, Entry)], rest: &[(u32, Entry)]) -> usize
    ensures { result ≡ how_many is_merge (first.now ++ rest.now) }
{
    merges_in(first) + merges_in(rest)
}

/// Appends the summary of the history of a play that was made from the number `n`, in one line: how many Frames and
/// merges it has, the numbers of all frames summed, and `sum`.
///
/// Returns `Err(NoMemory)` if memory runs out, or if an entry was told and left memory. The text of `out` is then as it
/// was.
pub fn append_summary(
    alloc: Global,
    out: &mut Vec<u8>,
    n: u32,
    history: &History,
    stats: &[Stats],
    sum: u64,
) -> Result<(), NoMemory>
    ensures text { OnOk result (out.new.items
        ≡ out.old.items ++ summary_text n history.now.entries stats.now sum) }
    ensures summary { (lens : Lens) (channels : ℕ)
        → stats.now ≡ stats_of_frames lens channels history.now.entries
        → OnOk result (out.new.items
        ≡ out.old.items ++ summary lens channels n history.now.entries sum) }
    ensures kept { OnErr result (out.new.items ≡ out.old.items) }
{
    let (first, rest) = history.whole()?;
    let totals = sum_of(stats);
    let mut text = Vec::new(alloc);
    append_labelled(&mut text, b"made ", n)?;
    append_labelled(&mut text, b" frames ", frames_of(first, rest))?;
    append_labelled(&mut text, b" merges ", merges_of(first, rest))?;
    append_labelled(&mut text, b" shown ", totals.shown)?;
    append_labelled(&mut text, b" states ", totals.states)?;
    append_labelled(&mut text, b" visited ", totals.visited)?;
    append_labelled(&mut text, b" sum ", sum)?;
    text.push(b'\n')?;
    out.extend_from_slice(text.as_slice())?;
    Ok(())
}
