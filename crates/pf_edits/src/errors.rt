//! Why a merge is refused.
ghost use Rattle.std.specs.Prelude.{◌≡◌};
ghost use Rattle.pf_edits.specs.Refusals.{placed};

use pf_model::{EditError, Fault};
use std::alloc::AllocError;

/// Why a graph refused a list of edits; it then stays as it was.
#[derive(Clone, Copy, Debug, PartialEq, Eq)]
pub enum EditsError {
    /// The edit at this place, counted from 1, has this fault.
    Fault { place: u32, fault: Fault },
    /// There was no memory.
    NoMemory,
}

impl From<AllocError> for EditsError {
    ghost use Rattle.pf_edits.specs.declared.errors.EditsError.TheVariants as error;

    ghost from_gives = { λ _ e. e ≡ error.NoMemory };

    fn from(_error: AllocError) -> Self {
        EditsError::NoMemory
    }
}

impl EditsError {
    /// The refusal of a list for that of its edit at a place.
    pub(crate) fn at(place: u32, error: EditError) -> EditsError
        ensures { result ≡ placed place error }
    {
        match error {
            EditError::Fault(fault) => EditsError::Fault { place, fault },
            EditError::NoMemory => EditsError::NoMemory,
        }
    }
}
