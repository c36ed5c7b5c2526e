//! What a pipe made since it last told is appended to a text: the lines of entries, and then those of frames.
ghost use Rattle.std.specs.Prelude.{◌≡◌, ℕ, ◌+◌, ◌++◌, false, drop, length, Ok, OnOk, OnErr};
ghost use Rattle.mode_hosts.specs.Lives.{stats_of, numbers_told, IsLive};
ghost use Rattle.play_report.specs.Entries.{entry_texts};
ghost use Rattle.play_report.specs.Frames.{frame_texts};
ghost use Rattle.live_run.specs.Telling.{Lists, Tells, TellsFront, StaysLive};

use draw_list::Stats;
use mode_hosts::{LivePipe, Played};
use pf_history::History;
use pf_io::{Gate, NoMemory};
use pf_scene::Told;
use play_report::{append_entries, append_frame};
use std::alloc::Global;
use std::sync::Wait;
use std::thread::Threads;

/// So many entries are told at a time.
const BLOCK: usize = 64;

/// Tells the next entries, as many as a block has room for, and appends their lines. Returns whether the block was full, so
/// that more may be left.
fn tell_block<
    R: Threads + Wait + Copy + Drop + Send + Sync + 'static,
    G: Gate + Send + Drop + 'static,
>(alloc: Global, pipe: &mut LivePipe<R, G>, text: &mut Vec<u8>) -> Result<bool, NoMemory>
    requires { IsLive pipe.old }
    ensures stays { StaysLive pipe.old pipe.new }
    ensures numbers { numbers_told pipe.new ≡ numbers_told pipe.old }
    ensures told { OnOk result ((n : ℕ) → Tells n n pipe.old pipe.new text.old.items text.new.items) }
    ensures front { OnErr result ((n : ℕ) → TellsFront n pipe.old pipe.new text.old.items text.new.items) }
{
    let block = Told {
        entries: Vec::with_capacity(alloc, BLOCK)?,
        before: 0,
    };
    let block = pipe.tell_entries(block);
    append_entries(alloc, text, block.entries.as_slice())?;
    Ok(block.entries.len() >= BLOCK)
}

/// Tells the entries that were made since the last one was told, and appends their lines.
pub(crate) fn tell_entries<
    R: Threads + Wait + Copy + Drop + Send + Sync + 'static,
    G: Gate + Send + Drop + 'static,
>(alloc: Global, pipe: &mut LivePipe<R, G>, text: &mut Vec<u8>) -> Result<(), NoMemory>
    requires { IsLive pipe.old }
    ensures stays { StaysLive pipe.old pipe.new }
    ensures numbers { numbers_told pipe.new ≡ numbers_told pipe.old }
    ensures told { OnOk result ((n : ℕ) → Tells n n pipe.old pipe.new text.old.items text.new.items) }
    ensures front { OnErr result ((n : ℕ) → TellsFront n pipe.old pipe.new text.old.items text.new.items) }
{
    for _ in 0..u64::MAX {
        if !tell_block(alloc, pipe, text)? {
            break;
        }
    }
    Ok(())
}

/// Tells the numbers of the oldest frame that came back and was not told, and appends its line. The count of the frames told
/// goes along. Returns whether there was one.
fn tell_frame<
    R: Threads + Wait + Copy + Drop + Send + Sync + 'static,
    G: Gate + Send + Drop + 'static,
>(
    alloc: Global,
    pipe: &mut LivePipe<R, G>,
    frames: &mut usize,
    text: &mut Vec<u8>,
) -> Result<bool, NoMemory>
    requires { frames.old ≡ numbers_told pipe.old }
    ensures count { frames.new ≡ numbers_told pipe.new }
    ensures stays { StaysLive pipe.old pipe.new }
    ensures told { OnOk result (Tells frames.old frames.new pipe.old pipe.new text.old.items text.new.items) }
    ensures front { OnErr result (TellsFront frames.old pipe.old pipe.new text.old.items text.new.items) }
    ensures all { result ≡ Ok false → numbers_told pipe.new ≡ length (stats_of pipe.new) }
{
    let _back = pipe.frames_back();
    let Some(stats) = pipe.take_stats() else {
        return Ok(false);
    };
    *frames += 1;
    append_frame(alloc, text, *frames, stats)?;
    Ok(true)
}

/// Tells the numbers of all frames that came back since the last one was told, and appends their lines.
pub(crate) fn tell_frames<
    R: Threads + Wait + Copy + Drop + Send + Sync + 'static,
    G: Gate + Send + Drop + 'static,
>(
    alloc: Global,
    pipe: &mut LivePipe<R, G>,
    frames: &mut usize,
    text: &mut Vec<u8>,
) -> Result<(), NoMemory>
    requires { frames.old ≡ numbers_told pipe.old }
    ensures count { frames.new ≡ numbers_told pipe.new }
    ensures stays { StaysLive pipe.old pipe.new }
    ensures told { OnOk result (Tells frames.old frames.new pipe.old pipe.new text.old.items text.new.items) }
    ensures front { OnErr result (TellsFront frames.old pipe.old pipe.new text.old.items text.new.items) }
    ensures all { OnOk result (numbers_told pipe.new ≡ length (stats_of pipe.new)) }
{
    for _ in 0..u64::MAX {
        if !tell_frame(alloc, pipe, frames, text)? {
            return Ok(());
        }
    }
    Err(NoMemory)
}

/// Appends the lines of the entries of a history that were not told.
fn append_untold(alloc: Global, text: &mut Vec<u8>, history: &History) -> Result<(), NoMemory>
    ensures { OnOk result (text.new.items
        ≡ text.old.items ++ entry_texts (drop history.now.told history.now.entries)) }
{
    let (first, rest) = history.untold();
    append_entries(alloc, text, first)?;
    append_entries(alloc, text, rest)
}

/// Appends the lines of frames, behind so many before them.
fn append_frames(
    alloc: Global,
    text: &mut Vec<u8>,
    before: usize,
    stats: &[Stats],
) -> Result<(), NoMemory>
    ensures { OnOk result (text.new.items ≡ text.old.items ++ frame_texts (before + 1) stats.now) }
{
    let mut frame = before;
    for numbers in stats {
        frame = frame.checked_add(1).ok_or(NoMemory)?;
        append_frame(alloc, text, frame, *numbers)?;
    }
    Ok(())
}

/// What a pipe left that was closed, and how much of it was told before.
#[derive(Drop)]
pub struct Closed {
    /// What was played.
    pub played: Played,
    /// How many entries of the history were told.
    pub told: u64,
    /// How many frames were told.
    pub frames: usize,
}

impl Closed {
    /// Appends the lines of what was not told while the pipe was open: the entries, and then the frames, numbered from
    /// behind those that were told.
    ///
    /// Returns `Err(NoMemory)` if memory runs out, or if the history has told another number of entries. The text is then as
    /// it was.
    pub fn append_rest(&self, alloc: Global, text: &mut Vec<u8>) -> Result<(), NoMemory>
        ensures rest { OnOk result (Lists self.now.frames (drop self.now.told self.now.played.history.entries)
            self.now.played.stats.items text.old.items text.new.items) }
        ensures kept { OnErr result (text.new.items ≡ text.old.items) }
    {
        if self.played.history.told() as u64 != self.told {
            return Err(NoMemory);
        }
        let mut rest = Vec::new(alloc);
        append_untold(alloc, &mut rest, &self.played.history)?;
        append_frames(alloc, &mut rest, self.frames, self.played.stats.as_slice())?;
        text.extend_from_slice(rest.as_slice())?;
        Ok(())
    }
}
