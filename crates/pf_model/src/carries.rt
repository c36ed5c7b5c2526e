//! Points and boxes carried through lists of steps, and through the steps of poses, kinds and views.
ghost use Rattle.std.specs.Prelude.{◌≡◌, map};
ghost use Rattle.fx_math.specs.Views.{point_of, matrix_of, bounds_of};
ghost use Rattle.fx_math.specs.Fixed.{carry, carry_box};
ghost use Rattle.pf_model.specs.Kinds.{pose_steps, own_steps};
ghost use Rattle.pf_model.specs.Walks.{steps_of_view};

use crate::nodes::Kind;
use crate::poses::{Pose, View};
use fx_math::{Affine, Box3, Vec3, apply, apply_box};

/// A point after a list of steps, one after the other.
pub fn carried_point(v: Vec3, steps: &[Affine]) -> Vec3
    ensures { point_of result ≡ carry (map matrix_of steps.now) (point_of v) }
{
    let mut carried = v;
    for step in steps {
        carried = apply(step, carried);
    }
    carried
}

/// A box after a list of steps, one after the other.
pub fn carried_box(b: &Box3, steps: &[Affine]) -> Box3
    ensures { bounds_of result ≡ carry_box (map matrix_of steps.now) (bounds_of b.now) }
{
    let mut carried = *b;
    for step in steps {
        carried = apply_box(step, &carried);
    }
    carried
}

impl Pose {
    /// A point of the children's coordinates in the coordinates above.
    pub fn carry(&self, v: Vec3) -> Vec3
        ensures { point_of result ≡ carry (pose_steps self.now) (point_of v) }
    {
        match self {
            Pose::Matrix(matrix) => apply(matrix, v),
            Pose::Euler(euler) => carried_point(v, &euler.steps()),
        }
    }

    /// A box of the children's coordinates in the coordinates above.
    pub fn carry_box(&self, b: &Box3) -> Box3
        ensures { bounds_of result ≡ carry_box (pose_steps self.now) (bounds_of b.now) }
    {
        match self {
            Pose::Matrix(matrix) => apply_box(matrix, b),
            Pose::Euler(euler) => carried_box(b, &euler.steps()),
        }
    }
}

impl Kind {
    /// A point of the children's coordinates in the coordinates above.
    pub fn carry(&self, v: Vec3) -> Vec3
        ensures { point_of result ≡ carry (own_steps self.now) (point_of v) }
    {
        match self {
            Kind::Scs(matrix) => apply(matrix, v),
            Kind::Dcs(pose) => pose.carry(v),
            _ => v,
        }
    }

    /// A box of the children's coordinates in the coordinates above.
    pub fn carry_box(&self, b: &Box3) -> Box3
        ensures { bounds_of result ≡ carry_box (own_steps self.now) (bounds_of b.now) }
    {
        match self {
            Kind::Scs(matrix) => apply_box(matrix, b),
            Kind::Dcs(pose) => pose.carry_box(b),
            _ => *b,
        }
    }
}

impl View {
    /// A point of the scene in eye coordinates.
    pub fn carry(&self, v: Vec3) -> Vec3
        ensures { point_of result ≡ carry (steps_of_view self.now) (point_of v) }
    {
        carried_point(v, &self.steps())
    }

    /// A box of the scene in eye coordinates.
    pub fn carry_box(&self, b: &Box3) -> Box3
        ensures { bounds_of result ≡ carry_box (steps_of_view self.now) (bounds_of b.now) }
    {
        carried_box(b, &self.steps())
    }
}
