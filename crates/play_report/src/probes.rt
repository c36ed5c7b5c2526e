//! The lines of a probe's answers.
ghost use Rattle.std.specs.Prelude.{◌≡◌, ◌++◌, OnOk, OnErr};
ghost use Rattle.play_report.specs.Probes.{answer_text, probe_line, probe_lines, probe_text};

use crate::numbers::append_labelled;
use nearest_hit::Near;
use pf_io::NoMemory;
use std::alloc::Global;

/// Appends an answer.
fn append_answer(out: &mut Vec<u8>, answer: Option<Near>) -> Result<(), NoMemory>
    ensures { OnOk result (out.new.items ≡ out.old.items ++ answer_text answer) }
{
    match answer {
        None => Ok(out.extend_from_slice(b"none")?),
        Some(hit) => {
            append_labelled(out, b"", hit.t)?;
            append_labelled(out, b" ", hit.place)?;
            append_labelled(out, b" ", hit.tri)?;
            append_labelled(out, b" ", hit.id)
        }
    }
}

/// Appends the line of the answer for the frame of this number.
pub(crate) fn append_line(
    out: &mut Vec<u8>,
    frame: usize,
    answer: Option<Near>,
) -> Result<(), NoMemory>
    ensures { OnOk result (out.new.items ≡ out.old.items ++ probe_line frame answer) }
{
    append_labelled(out, b"probe ", frame)?;
    out.push(b' ')?;
    append_answer(out, answer)?;
    out.push(b'\n')?;
    Ok(())
}

/// Appends a line for each answer, counted from 1.
fn append_lines(out: &mut Vec<u8>, probes: &[Option<Near>]) -> Result<(), NoMemory>
    ensures { OnOk result (out.new.items ≡ out.old.items ++ probe_lines 1 probes.now) }
{
    for (i, answer) in probes.iter().enumerate() {
        append_line(out, i + 1, *answer)?;
    }
    Ok(())
}

/// Appends a line for each result of a probe, one for each frame in turn: `probe k none` if frame k has no hit, and
/// else `probe k t place tri id` with the numbers of its nearest hit.
///
/// Returns `Err(NoMemory)` if memory runs out, and leaves the text of `out` as it was.
pub fn append_probes(
    alloc: Global,
    out: &mut Vec<u8>,
    probes: &[Option<Near>],
) -> Result<(), NoMemory>
    ensures text { OnOk result (out.new.items ≡ out.old.items ++ probe_text probes.now) }
    ensures kept { OnErr result (out.new.items ≡ out.old.items) }
{
    let mut text = Vec::new(alloc);
    append_lines(&mut text, probes)?;
    out.extend_from_slice(text.as_slice())?;
    Ok(())
}
