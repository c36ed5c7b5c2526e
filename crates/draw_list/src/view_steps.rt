//! The steps of a view, without the turns that move no point.
ghost use Rattle.std.specs.Prelude.{◌≡◌, neg_ℤ};
ghost use Rattle.fx_math.specs.Within.{IsCoordinate};
ghost use Rattle.fx_math.specs.Plain.{point};
ghost use Rattle.fx_math.specs.Views.{point_of};

use crate::part_steps::{pitched, pitched_box, rolled, rolled_box, turned, turned_box};
use crate::steps::{shifted, shifted_box};
use crate::turns::Turn;
use fx_math::{Box3, Vec3};
use pf_model::View;

/// Translation, heading, pitch and roll, applied in this order, each the opposite of the view's.
#[derive(Clone, Copy, Debug, PartialEq, Eq)]
pub(crate) struct ViewSteps {
    shift: Vec3,
    heading: Option<Turn>,
    pitch: Option<Turn>,
    roll: Option<Turn>,
}

impl ViewSteps {
    ghost use Rattle.std.specs.Prelude.{◌≡◌};
    ghost use Rattle.fx_math.specs.Views.{point_of, bounds_of};
    ghost use Rattle.fx_math.specs.Fixed.{carry, carry_box};
    ghost use Rattle.pf_model.specs.Walks.{steps_of_view};
    ghost use Rattle.draw_list.specs.Steps.{view_matrices};

    /// The steps of a view.
    pub(crate) fn of(view: &View) -> ViewSteps
        ensures { view_matrices result ≡ steps_of_view view.now }
    {
        ViewSteps {
            shift: opposite(view.eye),
            heading: Turn::back(view.h),
            pitch: Turn::back(view.p),
            roll: Turn::back(view.r),
        }
    }

    /// A point after the steps.
    pub(crate) fn carry(&self, v: Vec3) -> Vec3
        ensures { point_of result ≡ carry (view_matrices self.now) (point_of v) }
    {
        let turned = turned(&self.heading, shifted(v, self.shift));
        rolled(&self.roll, pitched(&self.pitch, turned))
    }

    /// A box after the steps.
    pub(crate) fn carry_box(&self, b: &Box3) -> Box3
        ensures { bounds_of result ≡ carry_box (view_matrices self.now) (bounds_of b.now) }
    {
        let shifted = shifted_box(b, self.shift);
        let turned = turned_box(&self.heading, &shifted);
        let pitched = pitched_box(&self.pitch, &turned);
        rolled_box(&self.roll, &pitched)
    }
}

/// The opposite of a point.
fn opposite(v: Vec3) -> Vec3
    ensures { point_of result ≡ point (neg_ℤ v.x) (neg_ℤ v.y) (neg_ℤ v.z) }
{
    Vec3 {
        x: negated(v.x),
        y: negated(v.y),
        z: negated(v.z),
    }
}

fn negated(z: i32) -> i32
    requires { IsCoordinate z }
    ensures value { result ≡ neg_ℤ z }
    ensures bound { IsCoordinate result }
{
    -z
}
