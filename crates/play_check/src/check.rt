//! The check of a whole play.
ghost use Rattle.std.specs.Prelude.{◌↔◌, IsSome, IfSome};
ghost use Rattle.play_check.specs.Stuck.{IsStuck, AreStuckLines};

use crate::greedy::stuck_lines_of;
use play_format::Play;

/// Finds out whether a play could never end: whether some `wait n` or `await k` of it can be passed by no order of its
/// calls, since no order has n merges, or k frames.
///
/// Returns the lines of the first `wait` and of the first `await` that cannot be passed, each 0 if there is none, or
/// `None` if the play is not stuck. It takes time in proportion to the number of steps, and no memory.
pub fn stuck(play: &Play) -> Option<(u32, u32)>
    ensures stuck { IsSome result ↔ IsStuck play.now.app play.now.dbase }
    ensures lines { IfSome result (λ lines. AreStuckLines play.now.app play.now.dbase lines.0 lines.1) }
{
    stuck_lines_of(play.app(), play.dbase())
}
