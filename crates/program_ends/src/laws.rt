//! Laws of what is left of a play, each the contract of a call that does nothing.
ghost use Rattle.program_ends.specs.Laws.{LeftLaw, PipeLeftLaw};

use pipe_plays::laws::a_play_leaves_its_history;

/// What is left of a play is part of what it asks for, whatever its end. If it came to its end, and is not stuck, it was
/// played.
pub fn what_is_left_is_part()
    ensures { LeftLaw }
{}

/// The same of a play that can run, if what is left is that of a pipe that fits it.
pub fn what_a_pipe_leaves_is_part()
    ensures { PipeLeftLaw }
{
    a_play_leaves_its_history();
}
