//! Why a buffer does not record an edit.
ghost use Rattle.std.specs.Prelude.{◌≡◌};

use pf_io::NoMemory;
use pf_model::Fault;

/// Why a buffer did not record an edit.
#[derive(Clone, Copy, Debug, PartialEq, Eq)]
pub enum BufferError {
    /// The edit has this fault in the buffer's own graph; it is counted as dropped.
    Fault(Fault),
    /// There was no memory; the buffer is as it was.
    NoMemory,
}

impl From<NoMemory> for BufferError {
    ghost use Rattle.dbase_buffer.specs.declared.errors.BufferError.TheVariants as error;

    ghost from_gives = { λ _ e. e ≡ error.NoMemory };

    fn from(_error: NoMemory) -> Self {
        BufferError::NoMemory
    }
}
