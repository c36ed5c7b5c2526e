//! Why a live run reads no further.
ghost use Rattle.std.specs.Prelude.{◌≡◌};
ghost use Rattle.live_run.specs.Halts.{stop_of};

use live_feed::FeedError;
use pf_io::NoMemory;
use play_format::Refusal;
use program_ends::Stop;
use stage_parts::StageError;

/// Why a live run reads no further, before its input has ended.
#[derive(Clone, Copy, Debug, PartialEq, Eq)]
pub(crate) enum Halt {
    /// A line is wrong.
    Refused(Refusal),
    /// The source reported a fault.
    ReadFault,
    /// The report sink reported a fault.
    ReportFault,
    /// Memory ran out while lines were told, of which some are lost.
    Untold,
    /// Memory ran out elsewhere, or the pipe met an error, of which its end tells more.
    Broken,
}

impl From<NoMemory> for Halt {
    ghost use Rattle.live_run.specs.declared.halt.Halt.TheVariants as halt;

    ghost from_gives = { λ _ h. h ≡ halt.Broken };

    fn from(_error: NoMemory) -> Halt {
        Halt::Broken
    }
}

impl From<StageError> for Halt {
    ghost use Rattle.live_run.specs.declared.halt.Halt.TheVariants as halt;

    ghost from_gives = { λ _ h. h ≡ halt.Broken };

    fn from(_error: StageError) -> Halt {
        Halt::Broken
    }
}

impl From<FeedError> for Halt {
    ghost use Rattle.live_run.specs.Halts.{halt_of_feed};

    ghost from_gives = { λ error h. h ≡ halt_of_feed error };

    fn from(error: FeedError) -> Halt {
        match error {
            FeedError::Refused(refusal) => Halt::Refused(refusal),
            FeedError::NoMemory => Halt::Broken,
        }
    }
}

/// Returns why a call stops that comes to this before its pipe was opened.
pub(crate) fn stop_of(halt: Halt) -> Stop
    ensures { result ≡ stop_of halt }
{
    match halt {
        Halt::Refused(refusal) => Stop::Refused(refusal),
        Halt::ReadFault => Stop::ReadFault,
        Halt::ReportFault | Halt::Untold | Halt::Broken => Stop::NoMemory,
    }
}
