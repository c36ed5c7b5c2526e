//! How a play ends.
ghost use Rattle.std.specs.Prelude.{◌≡◌, true, OnOk};
ghost use Rattle.pipe_plays.specs.Played.{Blames};

use pf_io::{Failed, Sink};
use stage_parts::StageError;

/// Flushes the frame sink, as the last call of a play that came to its end.
///
/// Returns `Err(StageError::FrameFault)` if the sink reports a fault. The bytes written stay as they were.
pub fn flush_frames<O: Sink>(frames: &mut O) -> Result<(), StageError>
    ensures bytes { O.written frames.new ≡ O.written frames.old }
    ensures flushed { OnOk result (O.flushed frames.new ≡ true) }
    ensures blames { Blames result (O.faults frames.old) (O.faults frames.new) (O.at_fault frames.new) (O.written frames.new) }
{
    match frames.flush() {
        Ok(()) => Ok(()),
        Err(Failed) => Err(StageError::FrameFault),
    }
}
