//! What the stages see of the shared scene at a look.
ghost use Rattle.std.specs.Prelude.{◌≡◌};
ghost use Rattle.seat_lock.specs.Log.{Found};
ghost use Rattle.frame_stages.specs.Looks.{Saw, SawMark};

use pf_scene::{Scene, Sight, SightGlance};
use seat_lock::Desk;

/// What is to be seen of the scene that is found.
pub(crate) fn sight<D: Desk<Scene>>(desk: &mut D) -> Sight
    ensures saw { Saw (D.number desk.old) (D.seen desk.old) (D.told desk.old) result (D.seen desk.new) }
    ensures number { D.number desk.new ≡ D.number desk.old }
    ensures stands { D.stands desk.new ≡ D.stands desk.old }
    ensures told { D.told desk.new ≡ D.told desk.old }
    ensures found { Found (D.number desk.old) (D.seen desk.old) (D.seen desk.new) }
{
    desk.look(SightGlance)
}

/// Whether the scene that is found has the stop mark.
pub(crate) fn is_stopped<D: Desk<Scene>>(desk: &mut D) -> bool
    ensures saw { SawMark (D.number desk.old) (D.seen desk.old) (D.told desk.old) result (D.seen desk.new) }
    ensures number { D.number desk.new ≡ D.number desk.old }
    ensures stands { D.stands desk.new ≡ D.stands desk.old }
    ensures told { D.told desk.new ≡ D.told desk.old }
    ensures found { Found (D.number desk.old) (D.seen desk.old) (D.seen desk.new) }
{
    sight(desk).stopped
}
