//! Why a call ends before its report is written.
ghost use Rattle.std.specs.Prelude.{◌≡◌};

use pf_io::{NoMemory, ReadError};
use play_format::{ParseError, Refusal};
use program_words::WordsError;
use std::io::{self, ErrorKind};

/// Why a call ends before its report is written.
#[derive(Clone, Copy, Debug, PartialEq, Eq)]
pub enum Stop {
    /// The arguments have no meaning.
    Words,
    /// What was read is no play.
    Refused(Refusal),
    /// The play could never end: the lines of the `wait` and of the `await` that cannot be passed.
    Stuck(u32, u32),
    /// The source reported a fault.
    ReadFault,
    /// The frame sink reported a fault.
    FrameFault,
    /// Memory ran out.
    NoMemory,
}

impl From<WordsError> for Stop {
    ghost use Rattle.program_ends.specs.Stops.{stop_of_words};

    ghost from_gives = { λ error s. s ≡ stop_of_words error };

    fn from(error: WordsError) -> Stop {
        match error {
            WordsError::Wrong => Stop::Words,
            WordsError::NoMemory => Stop::NoMemory,
        }
    }
}

impl From<NoMemory> for Stop {
    ghost use Rattle.program_ends.specs.declared.stop.Stop.TheVariants as stop;

    ghost from_gives = { λ _ s. s ≡ stop.NoMemory };

    fn from(_error: NoMemory) -> Stop {
        Stop::NoMemory
    }
}

impl From<ReadError> for Stop {
    ghost use Rattle.program_ends.specs.Stops.{stop_of_read};

    ghost from_gives = { λ error s. s ≡ stop_of_read error };

    fn from(error: ReadError) -> Stop {
        match error {
            ReadError::Failed => Stop::ReadFault,
            ReadError::NoMemory => Stop::NoMemory,
        }
    }
}

impl From<ParseError> for Stop {
    ghost use Rattle.program_ends.specs.Stops.{stop_of_parse};

    ghost from_gives = { λ error s. s ≡ stop_of_parse error };

    fn from(error: ParseError) -> Stop {
        match error {
            ParseError::Refused(refusal) => Stop::Refused(refusal),
            ParseError::NoMemory => Stop::NoMemory,
        }
    }
}

impl From<io::Error> for Stop {
    ghost use Rattle.std.specs.IoError.{error_kind};
    ghost use Rattle.program_ends.specs.Stops.{stop_of_arguments};

    ghost from_gives = { λ error s. s ≡ stop_of_arguments (error_kind error) };

    /// Why a call ends whose arguments cannot be read.
    fn from(error: io::Error) -> Stop {
        match error.kind() {
            ErrorKind::OutOfMemory => Stop::NoMemory,
            _ => Stop::Words,
        }
    }
}
