//! The test of a box against a frustum, at a step each.
ghost use Rattle.std.specs.Prelude.{◌≡◌, ◌+◌};
ghost use Rattle.fx_math.specs.Views.{bounds_of};
ghost use Rattle.fx_math.specs.declared.lenses.Lens.{Lens};
ghost use Rattle.pf_bounds.specs.Outside.{is_outside};

use fx_math::{Box3, Lens};
use pf_bounds::outside;
use pf_model::Steps;
use std::sync::ledger::Ledger;

/// A frustum by which boxes are tested, each test counting a step of the ledger. Contracts alone see its lens, so who
/// culls through any frustum learns of a box only by a counted step.
pub trait Frustum<L: Ledger> {
    /// The lens whose frustum it is.
    ghost lens: { Self → Lens };

    /// Counts a step, and returns whether a box in eye coordinates is outside the frustum.
    fn is_outside(&self, around: &Box3, steps: &mut Steps<L>) -> bool
        ensures answer { result ≡ is_outside (lens self.now) (bounds_of around.now) }
        ensures step { steps.new ≡ steps.old + 1 };
}

impl<L: Ledger> Frustum<L> for Lens {
    ghost lens = { λ l. l };

    fn is_outside(&self, around: &Box3, steps: &mut Steps<L>) -> bool {
        steps.tick();
        outside(around, self)
    }
}
