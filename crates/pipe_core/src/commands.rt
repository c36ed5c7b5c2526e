//! The commands of a live run, and why one may not be given.
ghost use Rattle.std.specs.Prelude.{◌≡◌, false, Some, None, if◌then◌else◌};
ghost use Rattle.std.specs.List.{list_all};
ghost use Rattle.pipe_core.specs.LiveRuns.{are_whole, is_short, answer_of};
ghost use Rattle.play_format.specs.Plays.{app_fits, base_fits, is_link, opened, open_after};

use frame_stages::StageError;
use pf_model::{AppLine, AppStep, BaseLine, BaseStep, Edit};
use std::marker::Model;

/// So many lines a block may have.
const MOST_BLOCK: usize = 262_144;

/// Lines of the database process that are given at once. Contracts see the lines.
pub struct BaseBlock {
    lines: Vec<BaseLine>,
}

/// Written out, so that to drop one is a single call.
impl Drop for BaseBlock {
    fn drop(self) {
        let Self { lines: _ } = self;
    }
}

impl Model for BaseBlock {
    ghost use Rattle.std.specs.Prelude.{List};
    ghost use Rattle.pf_model.specs.declared.lines.BaseLine.{BaseLine};

    ghost Value = { List BaseLine };

    ghost view = { λ b. b.lines.items };
}

impl BaseBlock {
    /// The block of these lines.
    pub fn new(lines: Vec<BaseLine>) -> BaseBlock
        ensures { result ≡ lines.items }
    {
        BaseBlock { lines }
    }

    /// The lines.
    pub fn as_slice(&self) -> &[BaseLine]
        ensures { result.now ≡ self.now }
    {
        self.lines.as_slice()
    }

    /// The lines, as a list.
    pub fn into_lines(self) -> Vec<BaseLine>
        ensures { result.items ≡ self }
    {
        let Self { lines } = self;
        lines
    }
}

/// A command of a live run.
#[derive(Drop)]
pub enum PipeCommand {
    /// A line of the application.
    Line(AppLine),
    /// A block of the database process: whole buffers, with awaits before, between and behind them.
    Block(BaseBlock),
}

/// Why a command is refused.
#[derive(Clone, Copy, Debug, PartialEq, Eq)]
pub enum Refusal {
    /// The pipe takes no such command any more: the application has closed, or there is no room for so many lines.
    NoRoom,
    /// A number of the command is out of its range, its view's channel is not there, or an ask is no Add and no Remove.
    OutOfRange,
    /// The block is no whole buffers.
    NotWhole,
}

/// Why a live run ended before its last command.
#[derive(Clone, Copy, Debug, PartialEq, Eq)]
pub enum LiveCause {
    /// The command was refused, and nothing was given.
    Refused(Refusal),
    /// A stage failed.
    Failed(StageError),
}

/// A live run that ended before its last command.
#[derive(Clone, Copy, Debug, PartialEq, Eq)]
pub struct LiveError {
    /// The number of the command at which it ended, from 0: so many were made before.
    pub command: usize,
    /// Why that one was not made.
    pub cause: LiveCause,
}

/// The answer of a command that was given.
pub(crate) fn answer_of(came: Result<(), StageError>) -> Result<(), LiveCause>
    ensures { result ≡ answer_of came }
{
    match came {
        Ok(()) => Ok(()),
        Err(error) => Err(LiveCause::Failed(error)),
    }
}

/// Whether an edit is in its ranges, and a view's channel is there.
pub(crate) fn app_step_fits(step: &AppStep, channels: u8) -> bool
    ensures { result ≡ app_fits channels step.now }
{
    match step {
        AppStep::Edit(e) => e.fits(),
        AppStep::View(channel, _) => *channel < channels,
        _ => true,
    }
}

/// Whether an edit is an Add or a Remove.
fn is_link(e: &Edit) -> bool
    ensures { result ≡ is_link e.now }
{
    matches!(e, Edit::Add { .. } | Edit::Remove { .. })
}

/// Whether an edit is in its ranges, and what is asked for is an Add or a Remove.
fn base_line_fits(line: &BaseLine) -> bool
    ensures { result ≡ base_fits line.now.step }
{
    match &line.step {
        BaseStep::Edit(e) => e.fits(),
        BaseStep::Ask(e) => is_link(e),
        _ => true,
    }
}

/// Whether this is so of all lines.
pub(crate) fn all_fit(lines: &[BaseLine]) -> bool
    ensures { result ≡ list_all (λ l. base_fits l.step) lines.now }
{
    lines.iter().all(|l| base_line_fits(l))
}

/// Whether a buffer is open behind a step, from whether one is open before it; None where the step may not stand there.
fn opened(inside: bool, step: &BaseStep) -> Option<bool>
    ensures { result ≡ opened inside step.now }
{
    match step {
        BaseStep::Await(_) => when(!inside, false),
        BaseStep::Buffer => when(!inside, true),
        BaseStep::Edit(_) => when(inside, true),
        BaseStep::Ask(_) => when(inside, true),
        BaseStep::Merge => when(inside, false),
    }
}

/// An answer, where it may be given.
fn when(may: bool, answer: bool) -> Option<bool>
    ensures { result ≡ (if may then Some answer else None) }
{
    if may { Some(answer) } else { None }
}

/// Whether lines are whole buffers.
pub(crate) fn are_whole(lines: &[BaseLine]) -> bool
    ensures { result ≡ are_whole lines.now }
{
    matches!(open_behind(lines), Some(false))
}

/// Whether a block has at most as many lines as the sections of a play.
pub(crate) fn is_short(lines: &[BaseLine]) -> bool
    ensures { result ≡ is_short lines.now }
{
    lines.len() <= MOST_BLOCK
}

/// Whether a buffer is open behind lines, from none open before them; None where a step may not stand where it does.
fn open_behind(lines: &[BaseLine]) -> Option<bool>
    ensures { result ≡ open_after false lines.now }
{
    let mut inside = false;
    for line in lines {
        match opened(inside, &line.step) {
            Some(now_inside) => inside = now_inside,
            None => return None,
        }
    }
    Some(inside)
}
