//! The way from a node up to the eye.
ghost use Rattle.std.specs.Prelude.{◌≡◌, ◌++◌, map};
ghost use Rattle.std.specs.Option.{option_map};
ghost use Rattle.fx_math.specs.Views.{point_of, matrix_of, bounds_of};
ghost use Rattle.fx_math.specs.Fixed.{carry, carry_box};
ghost use Rattle.pf_model.specs.Kinds.{own_steps};
ghost use Rattle.pf_model.specs.Walks.{steps_of_view};
ghost use Rattle.nearest_hit.specs.Ways.{matrices, steps_along};

use fx_math::{Affine, Box3, Vec3};
use pf_model::{Kind, Pose, View, carried_box, carried_point};

/// The steps that a node puts between its children and what is above it.
#[derive(Clone, Copy)]
pub(crate) enum OwnSteps {
    Nothing,
    One([Affine; 1]),
    Euler([Affine; 5]),
}

impl OwnSteps {
    fn of(kind: &Kind) -> OwnSteps
        ensures { matrices result ≡ own_steps kind.now }
    {
        match kind {
            Kind::Scs(matrix) => OwnSteps::One([*matrix]),
            Kind::Dcs(Pose::Matrix(matrix)) => OwnSteps::One([*matrix]),
            Kind::Dcs(Pose::Euler(euler)) => OwnSteps::Euler(euler.steps()),
            _ => OwnSteps::Nothing,
        }
    }

    fn as_slice(&self) -> &[Affine]
        ensures { map matrix_of result.now ≡ matrices self.now }
    {
        match self {
            OwnSteps::Nothing => &[],
            OwnSteps::One(steps) => steps,
            OwnSteps::Euler(steps) => steps,
        }
    }
}

/// The way up: the steps of each node above, and at its end those of the view.
#[derive(Drop)]
pub(crate) enum Way<'a> {
    View([Affine; 4]),
    Below(OwnSteps, &'a Way<'a>),
}

impl Way<'_> {
    /// The way of the scene, which stands right below the view.
    pub(crate) fn of_view(view: &View) -> Way<'_>
        ensures { steps_along result ≡ steps_of_view view.now }
    {
        Way::View(view.steps())
    }

    /// A point in eye coordinates.
    pub(crate) fn eye(&self, v: Vec3) -> Vec3
        ensures { point_of result ≡ carry (steps_along self.now) (point_of v) }
    {
        match self {
            Way::View(steps) => carried_point(v, steps),
            Way::Below(own, above) => {
                let steps = own.as_slice();
                let point = carried_point(v, steps);
                above.eye(point)
            }
        }
    }

    /// A box in eye coordinates.
    pub(crate) fn eye_box(&self, b: &Box3) -> Box3
        ensures { bounds_of result ≡ carry_box (steps_along self.now) (bounds_of b.now) }
    {
        match self {
            Way::View(steps) => carried_box(b, steps),
            Way::Below(own, above) => {
                let steps = own.as_slice();
                let around = carried_box(b, steps);
                above.eye_box(&around)
            }
        }
    }
}

/// The way of the children of a node of this kind.
pub(crate) fn below<'a>(kind: &Kind, above: &'a Way<'a>) -> Way<'a>
    ensures { steps_along result ≡ own_steps kind.now ++ steps_along above.now }
{
    Way::Below(OwnSteps::of(kind), above)
}
