//! Laws of what a play determines, each the contract of a call that does nothing.
ghost use Rattle.play_fences.specs.Laws.{PlacesLaw, FencedLaw, NoMergesLaw, OnePlaceLaw, FreeLaw, FreedOnceLaw};

/// Take two whole legal histories of one play, however many frames may be in flight in each, in which each merge comes
/// behind the same number of the application's own commands: edits, views and frames. They have the same pictures, the
/// same numbers of their frames and, except for Syncs, the same commands with the same replies. All their Syncs
/// together free the same nodes.
pub fn merge_places_determine_pictures()
    ensures { PlacesLaw }
{}

/// All whole legal histories of a fenced play have the same pictures, the same numbers of their frames and, except for
/// Syncs, the same commands with the same replies.
pub fn fenced_plays_determine_pictures()
    ensures { FencedLaw }
{}

/// So have all those of a play that asks for no merges.
pub fn plays_without_merges_determine_pictures()
    ensures { NoMergesLaw }
{}

/// In all whole legal histories of a fenced play each merge is at the same place among the application's own commands.
pub fn fenced_merges_have_one_place()
    ensures { OnePlaceLaw }
{}

/// Wherever the first free merge of a play is in a whole legal history, the play has another one in which it is at
/// another place.
pub fn free_merges_have_another_place()
    ensures { FreeLaw }
{}

/// A legal history frees each node at most once.
pub fn nodes_are_freed_once()
    ensures { FreedOnceLaw }
{}
