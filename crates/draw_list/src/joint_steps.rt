//! The steps of a joint toward the joint that it leads to.
ghost use Rattle.std.specs.Prelude.{◌≡◌};
ghost use Rattle.fx_math.specs.Views.{point_of, bounds_of};
ghost use Rattle.fx_math.specs.Fixed.{carry, carry_box};
ghost use Rattle.pf_model.specs.Kinds.{pose_steps};
ghost use Rattle.draw_list.specs.Steps.{joint_matrices};

use crate::euler_steps::EulerSteps;
use crate::steps::Step;
use fx_math::{Box3, Vec3};
use pf_model::Pose;

/// The steps of one pose.
#[derive(Clone, Copy, Debug, PartialEq, Eq)]
pub(crate) enum JointSteps {
    One(Step),
    Euler(EulerSteps),
}

impl JointSteps {
    /// The steps of a pose.
    pub(crate) fn of(pose: &Pose) -> JointSteps
        ensures { joint_matrices result ≡ pose_steps pose.now }
    {
        match pose {
            Pose::Matrix(matrix) => JointSteps::One(Step::of(matrix)),
            Pose::Euler(euler) => JointSteps::Euler(EulerSteps::of(euler)),
        }
    }

    /// A point after the steps.
    pub(crate) fn carry(&self, v: Vec3) -> Vec3
        ensures { point_of result ≡ carry (joint_matrices self.now) (point_of v) }
    {
        match self {
            JointSteps::One(step) => step.carry(v),
            JointSteps::Euler(steps) => steps.carry(v),
        }
    }

    /// A box after the steps.
    pub(crate) fn carry_box(&self, b: &Box3) -> Box3
        ensures { bounds_of result ≡ carry_box (joint_matrices self.now) (bounds_of b.now) }
    {
        match self {
            JointSteps::One(step) => step.carry_box(b),
            JointSteps::Euler(steps) => steps.carry_box(b),
        }
    }
}
