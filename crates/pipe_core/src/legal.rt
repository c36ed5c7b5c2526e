//! What the type of a scene keeps of its history.
use pf_scene::Scene;
use seat_lock::Glance;

/// Shows that the history is legal.
#[derive(Clone, Copy, Debug, PartialEq, Eq)]
pub(crate) struct LegalGlance;

impl Glance<Scene> for LegalGlance {
    ghost use Rattle.pf_history.specs.Logs.{IsLegal};

    type Out = ();

    ghost shows = { λ _ scene out. IsLegal scene.shared.channels scene.shared.log };

    fn glance(self, value: &Scene) {
        value.keeps();
    }
}
