//! The laws of the stage, each the contract of a function that does nothing.
ghost use Rattle.std.specs.Prelude.{◌≡◌, ℕ, List, length, take};
ghost use Rattle.pf_history.specs.Logs.{Log};
ghost use Rattle.isect_stage.specs.Asking.{HasEditsInRange, Question, IsectWork, IsectKeeps, questions, nearest_hits};
ghost use Rattle.isect_stage.specs.Laws.{NearestHitsLaw, ApplicationLaw, LinksLaw};

/// If the stage was asked the first questions of the Frames of a history whose edits have their numbers in range, its
/// results are the nearest hits of these Frames, each in the state that it found.
pub fn answers_are_those_of_a_history()
    ensures { (channels : ℕ) → (log : Log) → (w : IsectWork) → (asked : List Question) → HasEditsInRange log
        → asked ≡ take (length asked) (questions channels log) → IsectKeeps w asked
        → w.answers ≡ take (length asked) (nearest_hits channels w.segment log) }
{}

/// Let the stage at its links have taken the cuts of all Frames of a history, all made at one seat, whose edits have
/// their numbers in range. If memory did not run out, its results are the nearest hits of these Frames, each in the
/// state that it found.
pub fn answers_are_the_nearest_hits()
    ensures { NearestHitsLaw }
{}

/// If the stage at its links takes what the application sends, its results are the nearest hits of the first Frames of
/// the history, and of all of them once it has taken the End.
pub fn answers_follow_the_application()
    ensures { ApplicationLaw }
{}

/// What comes over the link behind the stage is a prefix of what was sent over the link before it.
pub fn two_links_are_one()
    ensures { LinksLaw }
{}
