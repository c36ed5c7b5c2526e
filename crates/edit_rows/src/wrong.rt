//! Why a row is wrong.
use pf_io::NoMemory;
use play_format::ParseError;
use std::alloc::{AllocError, AllocFailed};
use std::{fmt, io};

/// Why a row is wrong.
#[derive(Debug, Drop)]
pub enum Wrong {
    /// A file of the row cannot be read.
    File,
    /// Its text is no play.
    Play,
    /// The play has not the commands of the report.
    Order,
    /// More edits or frames than a row has.
    Long,
    /// The one-thread object has another report.
    Report,
    /// The graph that the stages share answers something else to this command, counted from 1.
    Working(usize),
    /// The two graphs differ in the node of this id.
    Node(u16),
    /// The slow renderer draws other pictures.
    Pictures,
    /// Memory ran out.
    NoMemory,
}

impl fmt::Display for Wrong {
    fn fmt<W: fmt::Write>(&self, f: &mut fmt::Formatter<W>) -> fmt::Result {
        match self {
            Wrong::File => write!(f, "no file"),
            Wrong::Play => write!(f, "no play"),
            Wrong::Order => write!(f, "other commands than the report's"),
            Wrong::Long => write!(f, "too long"),
            Wrong::Report => write!(f, "another report"),
            Wrong::Working(place) => write!(f, "another reply to command {place}"),
            Wrong::Node(id) => write!(f, "another node {id}"),
            Wrong::Pictures => write!(f, "other pictures"),
            Wrong::NoMemory => write!(f, "out of memory"),
        }
    }
}

impl From<NoMemory> for Wrong {
    fn from(_e: NoMemory) -> Wrong {
        Wrong::NoMemory
    }
}

impl From<AllocError> for Wrong {
    fn from(_e: AllocError) -> Wrong {
        Wrong::NoMemory
    }
}

impl<T: Drop> From<AllocFailed<T>> for Wrong {
    fn from(_e: AllocFailed<T>) -> Wrong {
        Wrong::NoMemory
    }
}

impl From<ParseError> for Wrong {
    fn from(_e: ParseError) -> Wrong {
        Wrong::Play
    }
}

impl From<io::Error> for Wrong {
    fn from(_e: io::Error) -> Wrong {
        Wrong::File
    }
}
