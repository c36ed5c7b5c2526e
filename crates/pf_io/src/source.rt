//! Where bytes come from.
ghost use Rattle.std.specs.Prelude.{◌≡◌, ◌==◌, ℕ, ◌+◌, ◌<◌, ◌≤◌, ◌⊎◌, if◌then◌else◌, List, Option, length, vec_len, IfOk, OnOk, OnErr, IsErrOf};
ghost use Rattle.std.specs.Io.KnownBytes.{prepend_known, IsAtEnd};
ghost use Rattle.pf_io.specs.Causes.{Rose, Calm, HasCause, counted};
ghost use Rattle.pf_io.specs.Streams.{Reads, TakesFront, ends_after};

use crate::{Failed, NoMemory};
use std::alloc::{AllocError, Global};
use std::error::Error;
use std::fmt;

/// A source of bytes.
pub trait Source {
    // The bytes that it has left, where it tells them.
    ghost left: { Self → Option (List ℕ) };

    // How many faults it has reported, up to the last value of the count.
    ghost faults: { Self → ℕ };

    // How many reads have found the end, up to the last value of the count.
    ghost ends: { Self → ℕ };

    /// Reads the next bytes into the front of `into`, which isn't empty, and answers their number; 0 is the end of
    /// input.
    fn read(&mut self, into: &mut [u8]) -> Result<usize, Failed>
        requires { 0 < length into.old }
        ensures bound { IfOk result (λ n. n ≤ length into.new) }
        ensures bytes { Reads (left self.old) (left self.new) result into.new }
        ensures cause { HasCause (faults self.old) (faults self.new) result }
        ensures ends { ends self.new ≡ ends_after (ends self.old) result };
}

/// Notes a read that answered a number of bytes: it found the end where there were none.
pub(crate) fn note_end(ends: &mut u64, count: usize)
    ensures { ends.new ≡ (if count == 0 then counted ends.old else ends.old) }
{
    if count == 0 {
        *ends = ends.saturating_add(1);
    }
}

/// The most bytes that a play has.
pub const MAX_PLAY_BYTES: usize = 16_777_216;

/// The most bytes that [`read_all`] takes: one more than the greatest play, so that a longer one is told from it.
pub const READ_LIMIT: usize = MAX_PLAY_BYTES + 1;

const PIECE: usize = 8192;

/// Why a source wasn't read to its end.
#[derive(Clone, Copy, Debug, PartialEq, Eq)]
pub enum ReadError {
    /// The source reported a fault.
    Failed,
    /// Memory ran out.
    NoMemory,
}

impl fmt::Display for ReadError {
    ghost use Rattle.std.specs.Prelude.{Some};
    ghost use Rattle.pf_io.specs.Words.{read_error_text};

    ghost output = { λ error. Some (read_error_text error) };

    fn fmt<W: fmt::Write>(&self, f: &mut fmt::Formatter<W>) -> fmt::Result {
        match self {
            ReadError::Failed => write!(f, "{Failed}"),
            ReadError::NoMemory => write!(f, "{NoMemory}"),
        }
    }
}

impl Error for ReadError {}

impl From<Failed> for ReadError {
    ghost use Rattle.pf_io.specs.declared.source.ReadError.TheVariants.{Failed as ReadFailed};

    ghost from_gives = { λ _ error. error ≡ ReadFailed };

    fn from(_failed: Failed) -> ReadError {
        ReadError::Failed
    }
}

impl From<AllocError> for ReadError {
    ghost use Rattle.pf_io.specs.declared.source.ReadError.TheVariants.{NoMemory as WithoutMemory};

    ghost from_gives = { λ _ error. error ≡ WithoutMemory };

    fn from(_error: AllocError) -> ReadError {
        ReadError::NoMemory
    }
}

/// Reads a source to its end, or to [`READ_LIMIT`] bytes, whichever is first. Every read but the last takes at least
/// one byte, and none comes after the one that found the end.
pub fn read_all<S: Source>(alloc: Global, source: &mut S) -> Result<Vec<u8>, ReadError>
    ensures taken { IfOk result (λ v. S.left source.old ≡ prepend_known v.items (S.left source.new)) }
    ensures whole { IfOk result (λ v. (vec_len v ≡ READ_LIMIT)
        ⊎ ((vec_len v < READ_LIMIT) × IsAtEnd (S.left source.new))) }
    ensures later { S.faults source.old ≤ S.faults source.new }
    ensures calm { OnOk result (Calm (S.faults source.old) (S.faults source.new)) }
    ensures failed { IsErrOf result ReadError.Failed → Rose (S.faults source.old) (S.faults source.new) }
    ensures front { OnErr result (TakesFront (S.left source.old) (S.left source.new)) }
    ensures no_memory { IsErrOf result ReadError.NoMemory → Calm (S.faults source.old) (S.faults source.new) }

    // One read finds the end, where the bytes are all; else none does.
    ensures one_end { IfOk result (λ v. vec_len v < READ_LIMIT → S.ends source.new ≡ counted (S.ends source.old)) }
    ensures limit { IfOk result (λ v. vec_len v ≡ READ_LIMIT → S.ends source.new ≡ S.ends source.old) }
    ensures no_end { OnErr result (S.ends source.new ≡ S.ends source.old) }
{
    let mut bytes = Vec::new(alloc);
    let mut piece = [0; PIECE];
    while bytes.len() < READ_LIMIT {
        let most = (READ_LIMIT - bytes.len()).min(PIECE);
        let taken = source.read(&mut piece[..most])?;
        if taken == 0 {
            return Ok(bytes);
        }
        bytes.extend_from_slice(&piece[..taken])?;
    }
    Ok(bytes)
}
