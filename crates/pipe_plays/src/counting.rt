//! What the stages are told of a play.
ghost use Rattle.std.specs.Prelude.{◌≡◌, ◌≤◌, length};
ghost use Rattle.pf_history.specs.Asks.{asked_dbase};

use pf_model::{BaseLine, BaseStep};

/// The number of merges that a section asks for.
pub fn count_merges(dbase: &[BaseLine]) -> u32
    requires steps { length dbase.now ≤ 262144 }
    ensures { result ≡ length (asked_dbase dbase.now) }
{
    let mut merges = 0;
    for line in dbase {
        if let BaseStep::Merge = &line.step {
            merges += 1;
        }
    }
    merges
}
