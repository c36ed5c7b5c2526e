//! What a play leaves.
ghost use Rattle.std.specs.Prelude.{◌≡◌};
ghost use Rattle.pipe_plays.specs.Played.{end_of};

use draw_list::Stats;
use nearest_hit::Near;
use pf_history::History;
use stage_parts::StageError;

/// How a play ended.
#[derive(Clone, Copy, Debug, PartialEq, Eq)]
pub enum PlayEnd {
    /// It was played to its end.
    Done,
    /// The frame sink reported a fault.
    FrameFault,
    /// Memory ran out.
    NoMemory,
}

impl PlayEnd {
    /// The end of a play that came to this.
    pub fn of(came: Result<(), StageError>) -> PlayEnd
        ensures { result ≡ end_of came }
    {
        match came {
            Ok(()) => PlayEnd::Done,
            Err(StageError::FrameFault) => PlayEnd::FrameFault,
            Err(StageError::NoMemory) => PlayEnd::NoMemory,
        }
    }
}

/// What was played.
#[derive(Drop)]
pub struct Played {
    pub end: PlayEnd,
    /// The entries of the play, as they were made.
    pub history: History,
    /// The numbers of each frame that came back, summed over its channels.
    pub stats: Vec<Stats>,
    /// What a probe found in each frame, in turn. It is empty where there is no probe.
    pub probes: Vec<Option<Near>>,
}
