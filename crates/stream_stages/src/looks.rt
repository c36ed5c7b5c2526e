//! What the stages see of the shared scene at a look.
ghost use Rattle.std.specs.Prelude.{◌≡◌};
ghost use Rattle.seat_lock.specs.Log.{Found};
ghost use Rattle.stream_stages.specs.Links.{SawMark};

use pf_scene::{Scene, SightGlance};
use seat_lock::Desk;

/// Returns whether the scene that is found has the stop mark.
pub(crate) fn is_stopped<D: Desk<Scene>>(desk: &mut D) -> bool
    ensures saw { SawMark (D.number desk.old) (D.seen desk.old) (D.told desk.old) result (D.seen desk.new) }
    ensures number { D.number desk.new ≡ D.number desk.old }
    ensures stands { D.stands desk.new ≡ D.stands desk.old }
    ensures told { D.told desk.new ≡ D.told desk.old }
    ensures found { Found (D.number desk.old) (D.seen desk.old) (D.seen desk.new) }
{
    let sight = desk.look(SightGlance);
    sight.stopped
}
