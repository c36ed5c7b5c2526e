//! The steps of a pose by angles, with their sines and cosines, and without those that move no point.
ghost use Rattle.std.specs.Prelude.{◌≡◌, pos, IsTrue};
ghost use Rattle.fx_math.specs.Within.{IsEntry};

use crate::part_steps::{pitched, pitched_box, rolled, rolled_box, turned, turned_box};
use crate::steps::{shifted, shifted_box};
use crate::sums::multiplied;
use crate::turns::Turn;
use fx_math::{Box3, UNIT, Vec3, apply_box, scaling};
use pf_model::{Euler, Pose};

/// A scale, in 1/65536.
#[derive(Clone, Copy, Debug, PartialEq, Eq)]
pub(crate) struct Factor {
    size: i32,
    ghost is_entry: { IsEntry size },
}

impl Factor {
    ghost use Rattle.std.specs.Prelude.{◌≡◌};
    ghost use Rattle.fx_math.specs.Within.{IsEntry};
    ghost use Rattle.fx_math.specs.Views.{point_of};
    ghost use Rattle.fx_math.specs.Fixed.{apply};
    ghost use Rattle.fx_math.specs.Steps.{scaling};
    ghost use Rattle.draw_list.specs.Steps.{scale_matrix};

    /// The factor of a scaling, none where it moves no point.
    fn of(size: i32) -> Option<Factor>
        requires { IsEntry size }
        ensures { scale_matrix result ≡ scaling size }
    {
        if is_unit(size) {
            None
        } else {
            Some(Factor { size })
        }
    }

    /// A point after the scaling.
    fn scaled(&self, v: Vec3) -> Vec3
        ensures { point_of result ≡ apply (scaling self.now.size) (point_of v) }
    {
        Vec3 {
            x: multiplied(v.x, self.size),
            y: multiplied(v.y, self.size),
            z: multiplied(v.z, self.size),
        }
    }
}

fn is_unit(size: i32) -> bool
    ensures { IsTrue result → size ≡ pos 65536 }
{
    size == UNIT
}

/// Scale, roll, pitch, heading and translation, applied in this order.
#[derive(Clone, Copy, Debug, PartialEq, Eq)]
pub(crate) struct EulerSteps {
    scale: Option<Factor>,
    roll: Option<Turn>,
    pitch: Option<Turn>,
    heading: Option<Turn>,
    shift: Vec3,
}

impl EulerSteps {
    ghost use Rattle.std.specs.Prelude.{◌≡◌};
    ghost use Rattle.fx_math.specs.Views.{point_of, matrix_of, bounds_of};
    ghost use Rattle.fx_math.specs.Fixed.{apply, apply_box, carry, carry_box};
    ghost use Rattle.pf_model.specs.Kinds.{pose_steps};
    ghost use Rattle.draw_list.specs.Steps.{scale_matrix, roll_matrix, pitch_matrix, heading_matrix, euler_matrices};

    /// The steps of a pose.
    pub(crate) fn of(e: &Euler) -> EulerSteps
        ensures { euler_matrices result ≡ pose_steps (Pose.Euler e.now) }
    {
        EulerSteps {
            scale: Factor::of(e.scale),
            roll: Turn::of(e.r),
            pitch: Turn::of(e.p),
            heading: Turn::of(e.h),
            shift: e.t,
        }
    }

    /// A point after the steps.
    pub(crate) fn carry(&self, v: Vec3) -> Vec3
        ensures { point_of result ≡ carry (euler_matrices self.now) (point_of v) }
    {
        let rolled = rolled(&self.roll, self.scaled(v));
        let turned = turned(&self.heading, pitched(&self.pitch, rolled));
        shifted(turned, self.shift)
    }

    fn scaled(&self, v: Vec3) -> Vec3
        ensures { point_of result ≡ apply (scale_matrix self.now.scale) (point_of v) }
    {
        match &self.scale {
            Some(factor) => factor.scaled(v),
            None => v,
        }
    }

    /// A box after the steps.
    pub(crate) fn carry_box(&self, b: &Box3) -> Box3
        ensures { bounds_of result ≡ carry_box (euler_matrices self.now) (bounds_of b.now) }
    {
        let scaled = self.scaled_box(b);
        let rolled = rolled_box(&self.roll, &scaled);
        let pitched = pitched_box(&self.pitch, &rolled);
        let turned = turned_box(&self.heading, &pitched);
        shifted_box(&turned, self.shift)
    }

    fn scaled_box(&self, b: &Box3) -> Box3
        ensures { bounds_of result ≡ apply_box (scale_matrix self.now.scale) (bounds_of b.now) }
    {
        match &self.scale {
            Some(factor) => apply_box(&scaling(factor.size), b),
            None => *b,
        }
    }
}
