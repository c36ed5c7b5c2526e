//! Laws of a pipe that fits its play, whatever its seats, each the contract of a call that does nothing.
ghost use Rattle.pipe_plays.specs.Laws.{ShownLaw, FreedLaw, LeavesLaw, NothingLaw};
ghost use Rattle.pipe_plays.specs.Orders.{OrderLaw};
ghost use Rattle.pipe_plays.specs.CaughtUp.{CaughtUpLaw};

use cull_walk::laws::culling_keeps_the_picture;

/// The history of a pipe that fits its play is legal and fits the play, the stream is a front of its pictures, and the
/// numbers kept are those of the frames that came back; where APP and DBASE have ended, the history fits the play wholly,
/// the stream is all its pictures, and the numbers are those of all its Frames.
pub fn a_pipe_shows_its_history()
    ensures { ShownLaw }
{
    culling_keeps_the_picture();
}

/// What a play leaves whose pipe fits it and whose frame sink was given the stream.
pub fn a_play_leaves_its_history()
    ensures { LeavesLaw }
{
    culling_keeps_the_picture();
}

/// What a play leaves that was never begun.
pub fn a_play_not_begun_leaves_nothing()
    ensures { NothingLaw }
{}

/// A serial that a Sync freed stands in no frame but those that it retired, whose pictures were wholly written.
pub fn freed_serials_are_written()
    ensures { FreedLaw }
{}

/// Where all that was read of a play has been made, and then more of its application's lines, or whole blocks of its
/// database process, are read and made, the history has their commands behind all others, in order. Syncs are left out.
pub fn later_commands_come_later()
    ensures { OrderLaw }
{}

/// A pipe that has passed all lines read so far, and in which no packet is under way, has caught up: all that they ask for
/// was made but the closing Sync, the stream is all pictures of the history, and the numbers are those of all its Frames.
pub fn a_pipe_catches_up()
    ensures { CaughtUpLaw }
{
    culling_keeps_the_picture();
}
