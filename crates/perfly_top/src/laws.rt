//! Laws of runs, each the contract of a call that does nothing.
ghost use Rattle.perfly_top.specs.Pairs.{FencedRunsLaw};

use play_fences::laws::fenced_plays_determine_pictures;
use play_format::one_reading;

/// Take two runs that come to their ends, over one text that spells a fenced play, whatever else their words say. They
/// add the same stream to their frame sinks. Their histories have the same pictures, the same numbers of their frames
/// and, except for Syncs, the same commands with the same replies.
pub fn runs_of_a_fenced_play_show_the_same()
    ensures { FencedRunsLaw }
{
    one_reading();
    fenced_plays_determine_pictures();
}
