//! Laws of histories, each the contract of a call that does nothing.
ghost use Rattle.pf_history.specs.Laws.{OwnEntryLaw, LegalEntryLaw, PreparationLaw, CountsLaw, NeverFallLaw, GravesLaw, LimitsLaw, ChannelsLaw};
ghost use Rattle.pf_history.specs.FitLaws.{FitLaw, SeatLaw, FramesLaw};
ghost use Rattle.pf_history.specs.CutLaws.{CopyLaw, CutsLaw, CutsStayLaw, FreedLaw};
ghost use Rattle.pf_history.specs.Away.{AwayLaw};

/// Adding the one-thread object's own entry keeps a legal history legal, and moves its state by one step.
pub fn own_entries_are_legal()
    ensures { OwnEntryLaw }
{}

/// The entry at each place of a legal history is the one-thread object's own in the state that those before it leave.
pub fn legal_entries_are_own()
    ensures { LegalEntryLaw }
{}

/// In every state that a history reaches, the number of the frame in preparation is the number of frames begun plus
/// one.
pub fn preparation_follows_frames()
    ensures { PreparationLaw }
{}

/// The counts of frames and merges in a state are those of the history that reaches it.
pub fn counts_are_of_the_log()
    ensures { CountsLaw }
{}

/// While a history grows, the numbers of frames, of merges and, where it is legal, of retired frames never fall.
pub fn counts_never_fall()
    ensures { NeverFallLaw }
{}

/// In every state that a history reaches, the last frame of a grave was begun.
pub fn graves_name_begun_frames()
    ensures { GravesLaw }
{}

/// Where the edits of a history have their numbers in range, the graph of every state that it reaches is within the
/// limits.
pub fn graphs_reached_are_within_limits()
    ensures { LimitsLaw }
{}

/// A history that is legal for one number of channels is legal for every other, since no reply reads a view.
pub fn legal_for_any_channels()
    ensures { ChannelsLaw }
{}

/// What the stages keep of turns and asks says that a history fits its play, and wholly where nothing is still asked.
pub fn following_is_fitting()
    ensures { FitLaw }
{}

/// The turns of a seat for a caller are the caller's where each of its entries has that seat, and entries of other
/// seats add none.
pub fn turns_of_a_seat_are_the_callers()
    ensures { SeatLaw }
{}

/// The Frames of a legal history are those among the application's turns.
pub fn frames_are_turns_of_the_application()
    ensures { FramesLaw }
{}

/// The copy that the first update lists keep has the nodes of the graph that the last of their Frames found.
pub fn copies_are_graphs()
    ensures { CopyLaw }
{}

/// There is one update list for each Frame, with rising ids, and what an entry adds to the Frames, to what they found
/// and to their update lists follows from the state before it.
pub fn cuts_grow_with_the_log()
    ensures { CutsLaw }
{}

/// What a Frame found and cut, and the copies that the update lists keep, stay while the history grows.
pub fn cuts_stay()
    ensures { CutsStayLaw }
{}

/// A node is freed only when no undelivered frame names it: a serial that a Sync replies stands in no frame but those
/// that the Sync retires.
pub fn freed_serials_stand_in_no_later_frame()
    ensures { FreedLaw }
{}

/// What is away of a geode's triangles, in the copy that the retired frames left and in the update lists of the frames
/// that are not retired. A Frame adds what its update list holds, and a Sync takes off what comes back of the lists of
/// the frames that it retires, in place of each list what it replaced. An update list and a copy hold the triangles at
/// most once each, so in a legal history they are away at most once more than frames are not retired.
pub fn arrays_are_away_at_most_once_a_frame()
    ensures { AwayLaw }
{}
