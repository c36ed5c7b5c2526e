//! What the next line is to the database process.
ghost use Rattle.std.specs.Prelude.{◌≡◌};
ghost use Rattle.frame_stages.specs.DbaseLines.{kind_of, next_line, merges_next};

use pf_model::{BaseLine, BaseStep};
use std::collections::VecDeque;

/// What the next line is to the database process.
#[derive(Clone, Copy, Debug, PartialEq, Eq)]
pub enum NextLine {
    /// No line is left.
    End,
    /// It goes on when this many frames stand in the history.
    Await(u32),
    /// It opens a buffer, or is one of its lines.
    Fill,
    /// It merges the buffer.
    Merge,
}

fn kind_of(step: &BaseStep) -> NextLine
    ensures { result ≡ kind_of step.now }
{
    match step {
        BaseStep::Await(frames) => NextLine::Await(*frames),
        BaseStep::Merge => NextLine::Merge,
        _ => NextLine::Fill,
    }
}

/// What the first of the lines is, or the end.
pub(crate) fn next_line(lines: &VecDeque<BaseLine>) -> NextLine
    ensures { result ≡ next_line lines.now.items }
{
    match lines.front() {
        None => NextLine::End,
        Some(line) => kind_of(&line.step),
    }
}

/// Whether the first of the lines merges a buffer.
pub(crate) fn merges_next(lines: &VecDeque<BaseLine>) -> bool
    ensures { result ≡ merges_next lines.now.items }
{
    matches!(next_line(lines), NextLine::Merge)
}
