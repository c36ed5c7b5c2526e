//! Why a text is no play.

ghost use Rattle.std.specs.Prelude.{◌≡◌};
ghost use Rattle.play_format.specs.Outcomes.{located};
ghost use Rattle.play_format.specs.declared.refusal.ParseError.TheVariants.{NoMemory as ParseNoMemory};

use pf_io::NoMemory;
use std::alloc::{AllocError, AllocFailed};
use std::error::Error;
use std::fmt;

/// What is wrong with a line. In a line the causes are tried in the order Count (too many lines), Length, Version,
/// Command, Fields, Number or Range of each word, Count (too many triangles).
#[derive(Clone, Copy, Debug, PartialEq, Eq)]
pub enum Why {
    /// The first line names no version of the format.
    Version,
    /// The first word may not stand at this place.
    Command,
    /// The line has another number of words than its form.
    Fields,
    /// A word is no number.
    Number,
    /// A number is outside its range.
    Range,
    /// There are too many lines or triangles, or the input ends too early.
    Count,
    /// A line has more than 1,024 bytes or no line feed, or the input has more than 16,777,216 bytes.
    Length,
}

impl fmt::Display for Why {
    ghost use Rattle.std.specs.Prelude.{Some};
    ghost use Rattle.play_format.specs.Messages.{cause_text};

    ghost output = { λ why. Some (cause_text why) };

    fn fmt<W: fmt::Write>(&self, f: &mut fmt::Formatter<W>) -> fmt::Result {
        match self {
            Why::Version => write!(f, "Version"),
            Why::Command => write!(f, "Command"),
            Why::Fields => write!(f, "Fields"),
            Why::Number => write!(f, "Number"),
            Why::Range => write!(f, "Range"),
            Why::Count => write!(f, "Count"),
            Why::Length => write!(f, "Length"),
        }
    }
}

impl Error for Why {}

/// The first wrong line of a text, counted from 1, and what is wrong with it. Line 0 stands for the whole input.
#[derive(Clone, Copy, Debug, PartialEq, Eq)]
pub struct Refusal {
    pub line: u32,
    pub why: Why,
}

impl fmt::Display for Refusal {
    ghost use Rattle.std.specs.Prelude.{Some};
    ghost use Rattle.play_format.specs.Messages.{refusal_text};

    ghost output = { λ refusal. Some (refusal_text refusal) };

    fn fmt<W: fmt::Write>(&self, f: &mut fmt::Formatter<W>) -> fmt::Result {
        write!(f, "line {}: {}", self.line, self.why)
    }
}

impl Error for Refusal {}

/// Why `parse` gives no play.
#[derive(Debug, Drop)]
pub enum ParseError {
    /// The text is no play.
    Refused(Refusal),
    /// Memory ran out.
    NoMemory,
}

impl fmt::Display for ParseError {
    ghost use Rattle.std.specs.Prelude.{Some};
    ghost use Rattle.play_format.specs.Messages.{parse_error_text};

    ghost output = { λ error. Some (parse_error_text error) };

    fn fmt<W: fmt::Write>(&self, f: &mut fmt::Formatter<W>) -> fmt::Result {
        match self {
            ParseError::Refused(refusal) => write!(f, "{refusal}"),
            ParseError::NoMemory => write!(f, "{NoMemory}"),
        }
    }
}

impl Error for ParseError {}

impl From<AllocError> for ParseError {
    ghost from_gives = { λ _ e. e ≡ ParseNoMemory };

    fn from(_e: AllocError) -> ParseError {
        ParseError::NoMemory
    }
}

impl<T: Drop> From<AllocFailed<T>> for ParseError {
    ghost from_gives = { λ _ e. e ≡ ParseNoMemory };

    fn from(_e: AllocFailed<T>) -> ParseError {
        ParseError::NoMemory
    }
}

impl From<NoMemory> for ParseError {
    ghost from_gives = { λ _ e. e ≡ ParseNoMemory };

    fn from(_e: NoMemory) -> ParseError {
        ParseError::NoMemory
    }
}

/// Why a line gives no command.
#[derive(Debug, Drop)]
pub enum LineError {
    /// The first cause against the line.
    Wrong(Why),
    /// Memory ran out.
    NoMemory,
}

impl From<Why> for LineError {
    ghost use Rattle.play_format.specs.declared.refusal.LineError.TheVariants.{Wrong};

    ghost from_gives = { λ why e. e ≡ Wrong why };

    fn from(why: Why) -> LineError {
        LineError::Wrong(why)
    }
}

impl From<AllocError> for LineError {
    ghost use Rattle.play_format.specs.declared.refusal.LineError.TheVariants as line_error;

    ghost from_gives = { λ _ e. e ≡ line_error.NoMemory };

    fn from(_e: AllocError) -> LineError {
        LineError::NoMemory
    }
}

impl<T: Drop> From<AllocFailed<T>> for LineError {
    ghost use Rattle.play_format.specs.declared.refusal.LineError.TheVariants as line_error;

    ghost from_gives = { λ _ e. e ≡ line_error.NoMemory };

    fn from(_e: AllocFailed<T>) -> LineError {
        LineError::NoMemory
    }
}

impl LineError {
    /// The same, said of the line of a number.
    pub fn at(self, line: u32) -> ParseError
        ensures { result ≡ located line self }
    {
        match self {
            LineError::Wrong(why) => ParseError::Refused(Refusal { line, why }),
            LineError::NoMemory => ParseError::NoMemory,
        }
    }
}
