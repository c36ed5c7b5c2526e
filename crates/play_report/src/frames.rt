//! The lines of frames, and sums of their numbers.
ghost use Rattle.std.specs.Prelude.{◌≡◌, ◌+◌, ◌^◌, ◌<◌, ◌++◌, OnOk};
ghost use Rattle.stage_parts.specs.Pictures.{sums};
ghost use Rattle.play_report.specs.Frames.{frame_text, frame_texts};

use crate::numbers::append_labelled;
use draw_list::Stats;
use pf_io::NoMemory;

/// Appends the line of the frame of this number.
pub(crate) fn append_line(out: &mut Vec<u8>, frame: usize, stats: Stats) -> Result<(), NoMemory>
    ensures { OnOk result (out.new.items ≡ out.old.items ++ frame_text frame stats) }
{
    append_labelled(out, b"frame ", frame)?;
    append_labelled(out, b" shown ", stats.shown)?;
    append_labelled(out, b" states ", stats.states)?;
    append_labelled(out, b" visited ", stats.visited)?;
    out.push(b'\n')?;
    Ok(())
}

/// Appends a line for each frame, counted from 1.
pub(crate) fn append_frames(out: &mut Vec<u8>, stats: &[Stats]) -> Result<(), NoMemory>
    ensures { OnOk result (out.new.items ≡ out.old.items ++ frame_texts 1 stats.now) }
{
    for (i, numbers) in stats.iter().enumerate() {
        append_line(out, i + 1, *numbers)?;
    }
    Ok(())
}

/// The numbers of several frames, summed.
#[derive(Clone, Copy)]
pub(crate) struct Totals {
    pub(crate) shown: u128,
    pub(crate) states: u128,
    pub(crate) visited: u128,
}

impl Totals {
    /// The sums with the numbers of one more frame.
    fn plus(self, stats: Stats) -> Totals
        requires few_shown { self.shown < 2 ^ 127 }
        requires few_states { self.states < 2 ^ 127 }
        requires few_visited { self.visited < 2 ^ 127 }
        ensures shown { result.shown ≡ self.shown + stats.shown }
        ensures states { result.states ≡ self.states + stats.states }
        ensures visited { result.visited ≡ self.visited + stats.visited }
        ensures bound { (stats.shown < 2 ^ 32) × (stats.states < 2 ^ 32)
            × (stats.visited < 2 ^ 32) }
    {
        Totals {
            shown: self.shown + u128::from(stats.shown),
            states: self.states + u128::from(stats.states),
            visited: self.visited + u128::from(stats.visited),
        }
    }
}

/// Sums the numbers of frames.
pub(crate) fn sum_of(stats: &[Stats]) -> Totals
    ensures shown { result.shown ≡ (sums stats.now).shown }
    ensures states { result.states ≡ (sums stats.now).states }
    ensures visited { result.visited ≡ (sums stats.now).visited }
{
    let mut totals = Totals {
        shown: 0,
        states: 0,
        visited: 0,
    };
    for numbers in stats {
        totals = totals.plus(*numbers);
    }
    totals
}
