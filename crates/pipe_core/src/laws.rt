//! Laws of the core, each the contract of a call that does nothing.
ghost use Rattle.pipe_core.specs.Laws.{ProgressLaw, BoundLaw, RunLaw, CuttingLaw, PartsLaw, ShownLaw, FreedInPipeLaw};
ghost use Rattle.pipe_core.specs.Lives.{LiveLaw};
ghost use Rattle.pipe_core.specs.LiveRuns.{NoWaitLaw};
ghost use Rattle.pipe_core.specs.Makes.{LiveRunsLaw};

use pipe_plays::laws::{a_pipe_catches_up, a_pipe_shows_its_history, freed_serials_are_written};

/// The core makes progress: where no event has set the stop mark and each of the four changes nothing, all stages have
/// ended, or the play is stuck.
pub fn the_core_makes_progress()
    ensures { ProgressLaw }
{}

/// A core that fits its play moves at most nine times for each step of the play, and five times besides.
pub fn moves_are_bounded()
    ensures { BoundLaw }
{}

/// Events that answer no error move a core of a play that is not stuck at least once in each part that holds all four,
/// until all stages have ended; sixteen such parts for each step, and sixteen besides, end them.
pub fn enough_rounds_end_the_play()
    ensures { RunLaw }
{}

/// No way of cutting events into parts that hold all four gives more parts than `rounds` counts.
pub fn rounds_are_most()
    ensures { CuttingLaw }
{}

/// Events of which none answers an error end a play that is not stuck, where they can be cut into parts that each hold all
/// four, 16 for each step of the play and 16 besides: all stages have ended, the history fits the play wholly, and the
/// stream is all its pictures.
pub fn events_in_enough_parts_end_the_play()
    ensures { PartsLaw }
{
    a_pipe_shows_its_history();
}

/// The history of a core that fits its play is legal and fits the play, and the stream is a front of its pictures; where
/// all stages have ended, the history fits the play wholly, and the stream is all its pictures.
pub fn the_stream_shows_the_history()
    ensures { ShownLaw }
{
    a_pipe_shows_its_history();
}

/// A serial that a Sync freed stands in no frame but those that it retired, whose pictures were wholly written.
pub fn freed_serials_are_delivered()
    ensures { FreedInPipeLaw }
{
    freed_serials_are_written();
}

/// A core whose play may still grow is settled where nothing can go on: no packet is under way, each frame that was begun is
/// wholly written, and all lines read so far were passed, or they are stuck.
pub fn an_idle_core_is_settled()
    ensures { LiveLaw }
{}

/// Commands made one by one leave the history of all of them, in order, with Syncs left out, and the frame sink gets what the
/// stream grew by, which is all their pictures; a new pipe of a play without lines is ready for the first one.
pub fn a_live_run_tells_its_commands()
    ensures { LiveRunsLaw }
{
    a_pipe_catches_up();
}

/// Where neither a play nor the commands behind it have a wait or an await, the play is stuck behind none of them.
pub fn commands_without_waits_are_never_stuck()
    ensures { NoWaitLaw }
{}
