//! The play of a generated text.
ghost use Rattle.std.specs.Prelude.{◌≤◌, IfOk};
ghost use Rattle.play_format.specs.Reads.{Reads};
ghost use Rattle.play_gen.specs.Lines.{generated_text};

use crate::texts::generated_text;
use pf_io::NoMemory;
use play_format::{ParseError, Play, parse};
use std::alloc::Global;

/// Returns generated play `n`, 1 to 256. The application makes a group and begins n + 1 frames, and waits behind each
/// but the last for one merge more. Behind each of these frames the database process merges a geode of sixteen
/// triangles.
///
/// Returns `Err(NoMemory)` if memory runs out.
pub fn make_play(alloc: Global, n: u32) -> Result<Play, NoMemory>
    requires some { 1 ≤ n }
    requires most { n ≤ 256 }
    // The play is the one that the text spells.
    ensures read { IfOk result (λ p. Reads (generated_text n) p) }
{
    let text = generated_text(alloc, n)?;
    match parse(alloc, text.as_slice()) {
        Ok(play) => Ok(play),
        Err(ParseError::NoMemory) => Err(NoMemory),
        Err(ParseError::Refused(_)) => unreachable!(),
    }
}
