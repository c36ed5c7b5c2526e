//! The turns of the database process at its desk.
ghost use Rattle.std.specs.Prelude.{◌≡◌};
ghost use Rattle.seat_lock.specs.Log.{Found};
ghost use Rattle.frame_stages.specs.Copies.{HoldsCopies};
ghost use Rattle.frame_stages.specs.DbaseAnswers.{SetsMark, Entered};

use pf_history::{Merge, Reply};
use pf_scene::{MergeAct, Outcome, Scene, StopAct};
use seat_lock::Desk;

/// Enters a merge in the scene that is found, where it may be made there.
pub(crate) fn enter<D: Desk<Scene>>(desk: &mut D, merge: Merge) -> Outcome<Reply, Merge>
    ensures counted { HoldsCopies (D.told desk.old) → HoldsCopies (D.told desk.new) }
    ensures entered { Entered (D.number desk.old) merge result
        (record { seen = D.seen desk.old; told = D.told desk.old })
        (record { seen = D.seen desk.new; told = D.told desk.new }) }
    ensures number { D.number desk.new ≡ D.number desk.old }
    ensures stands { D.stands desk.new ≡ D.stands desk.old }
{
    desk.turn(MergeAct { merge })
}

/// Sets the stop mark of the scene that is found.
pub(crate) fn set_mark<D: Desk<Scene>>(desk: &mut D)
    ensures counted { HoldsCopies (D.told desk.old) → HoldsCopies (D.told desk.new) }
    ensures marks { SetsMark (D.told desk.old) (D.told desk.new) }
    ensures found { Found (D.number desk.old) (D.seen desk.old) (D.seen desk.new) }
    ensures number { D.number desk.new ≡ D.number desk.old }
    ensures stands { D.stands desk.new ≡ D.stands desk.old }
{
    desk.turn(StopAct)
}
