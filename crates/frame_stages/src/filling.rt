//! The lines of a buffer: what each makes of what is in hand.
ghost use Rattle.std.specs.Prelude.{◌≡◌, ℕ, true, IfOk};
ghost use Rattle.pf_model.specs.Merges.{judged, recorded};
ghost use Rattle.pf_model.specs.Fits.{fits};
ghost use Rattle.play_format.specs.Plays.{is_link};
ghost use Rattle.frame_stages.specs.DbaseWorks.{HoldsBuffer};
ghost use Rattle.frame_stages.specs.DbaseLines.{CountsOneMore, IsFilled, IsRanged, is_whole, is_open, CanFill, Fills};

use crate::in_hand::InHand;
use dbase_buffer::{Buffer, BufferError};
use pf_io::NoMemory;
use pf_model::{BaseStep, Edit};
use std::alloc::Global;

/// The buffer after an edit was judged in it.
fn judge(mut buffer: Buffer, e: Edit) -> Result<Buffer, NoMemory>
    requires room { CountsOneMore buffer }
    requires fits { fits e ≡ true }
    ensures { IfOk result (λ b. b ≡ judged buffer e) }
{
    match buffer.edit(e) {
        Err(BufferError::NoMemory) => Err(NoMemory),
        _ => Ok(buffer),
    }
}

/// The buffer after a link was asked for in it.
fn ask(mut buffer: Buffer, e: Edit) -> Result<Buffer, NoMemory>
    requires { is_link e ≡ true }
    ensures { IfOk result (λ b. b ≡ recorded buffer e) }
{
    match e {
        Edit::Add { parent, child } => buffer.ask_add(parent, child)?,
        Edit::Remove { parent, child } => buffer.ask_remove(parent, child)?,
        _ => unreachable!(),
    }
    Ok(buffer)
}

/// The buffer that a line makes of what is in hand.
pub(crate) fn fill(alloc: Global, hand: InHand, step: BaseStep) -> Result<Buffer, NoMemory>
    requires { CanFill step hand }
    ensures { IfOk result (λ b. Fills step hand b) }
{
    match (step, hand) {
        (BaseStep::Buffer, _) => Buffer::new(alloc),
        (BaseStep::Edit(e), InHand::Buffer(buffer)) => judge(buffer, e),
        (BaseStep::Ask(e), InHand::Buffer(buffer)) => ask(buffer, e),
        _ => unreachable!(),
    }
}

/// What is then in hand: the buffer, or its merge where this is next.
pub(crate) fn hand_of(buffer: Buffer, merges: bool) -> InHand
    ensures holds { HoldsBuffer result buffer }
    ensures open_after { is_open result ≡ true }
    ensures whole { is_whole result ≡ merges }
    ensures ranged { (lines : ℕ) → IsFilled lines buffer → IsRanged lines result }
{
    if merges {
        InHand::Merge(buffer.take())
    } else {
        InHand::Buffer(buffer)
    }
}
