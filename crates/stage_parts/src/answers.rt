//! What a poll answers.
ghost use Rattle.std.specs.Prelude.{◌≡◌, Some, codes};
ghost use Rattle.stage_parts.specs.Answers.{did_of};

use std::error::Error;
use std::fmt;

/// What a poll did.
#[derive(Clone, Copy, Debug, PartialEq, Eq)]
pub enum Did {
    /// It made an entry, moved a packet, wrote a picture, or passed a line.
    Did,
    /// It found that its stage has to wait, and changed nothing.
    NotYet,
    /// Its stage has ended, or the stop mark is set.
    Over,
}

impl Did {
    /// The answer of a stage that is not over.
    pub fn of(moved: bool) -> Did
        ensures { result ≡ did_of moved }
    {
        if moved { Did::Did } else { Did::NotYet }
    }
}

/// What ends a stage before its end.
#[derive(Clone, Copy, Debug, PartialEq, Eq)]
pub enum StageError {
    /// The frame sink reported a fault.
    FrameFault,
    /// Memory ran out.
    NoMemory,
}

impl fmt::Display for StageError {
    ghost use Rattle.stage_parts.specs.Texts.{error_text};

    ghost output = { λ error. Some (error_text error) };

    fn fmt<W: fmt::Write>(&self, f: &mut fmt::Formatter<W>) -> fmt::Result {
        match self {
            StageError::FrameFault => write!(f, "the frame sink reported a fault"),
            StageError::NoMemory => write!(f, "out of memory"),
        }
    }
}

impl Error for StageError {}
