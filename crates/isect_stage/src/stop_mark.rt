//! The stop mark of the shared scene, which is found and set at a desk.
ghost use Rattle.std.specs.Prelude.{◌≡◌};
ghost use Rattle.std.specs.Option.{option_map};
ghost use Rattle.seat_lock.specs.Log.{Found};
ghost use Rattle.isect_stage.specs.Marks.{SawMark, marked};

use pf_scene::{Scene, SightGlance, StopAct};
use seat_lock::Desk;

/// Returns whether the scene that is found has the stop mark.
pub(crate) fn is_stopped<D: Desk<Scene>>(desk: &mut D) -> bool
    ensures saw { SawMark (D.number desk.old) (D.seen desk.old) (D.told desk.old) result (D.seen desk.new) }
    ensures number { D.number desk.new ≡ D.number desk.old }
    ensures stands { D.stands desk.new ≡ D.stands desk.old }
    ensures told { D.told desk.new ≡ D.told desk.old }
    ensures found { Found (D.number desk.old) (D.seen desk.old) (D.seen desk.new) }
{
    desk.look(SightGlance).stopped
}

/// Sets the stop mark of the scene that is found. It adds no entry.
#[tactic(auto, using(crate::proofs::Marking::told_marked))]
pub(crate) fn set_mark<D: Desk<Scene>>(desk: &mut D)
    ensures marks { D.told desk.new ≡ option_map marked (D.told desk.old) }
    ensures found { Found (D.number desk.old) (D.seen desk.old) (D.seen desk.new) }
    ensures number { D.number desk.new ≡ D.number desk.old }
    ensures stands { D.stands desk.new ≡ D.stands desk.old }
{
    desk.turn(StopAct)
}
