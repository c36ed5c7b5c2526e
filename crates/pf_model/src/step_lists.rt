//! The steps of poses, kinds and views, as lists.
ghost use Rattle.std.specs.Prelude.{◌≡◌, ℕ, map, neg_ℤ, IfOk};
ghost use Rattle.fx_math.specs.Within.{IsWithin, IsCoordinate};
ghost use Rattle.fx_math.specs.Plain.{point};
ghost use Rattle.fx_math.specs.Views.{point_of, matrix_of};
ghost use Rattle.pf_model.specs.Kinds.{pose_steps, own_steps};
ghost use Rattle.pf_model.specs.Walks.{steps_of_view};

use crate::nodes::Kind;
use crate::poses::{Euler, Pose, View};
use fx_math::{Affine, Vec3, heading, pitch, roll, scaling, shift};
use pf_io::NoMemory;
use std::alloc::Global;

impl Euler {
    /// The steps from the children's coordinates to those above: scale, roll, pitch, heading, translation.
    pub fn steps(&self) -> [Affine; 5]
        ensures { map matrix_of result ≡ pose_steps (Pose.Euler self.now) }
    {
        [
            scaling(self.scale),
            roll(self.r),
            pitch(self.p),
            heading(self.h),
            shift(self.t),
        ]
    }
}

impl Pose {
    /// The steps from the children's coordinates to those above, nearest to the children first.
    pub fn steps(&self, alloc: Global) -> Result<Vec<Affine>, NoMemory>
        ensures { IfOk result (λ steps. map matrix_of steps.items ≡ pose_steps self.now) }
    {
        match self {
            Pose::Matrix(matrix) => copied(alloc, &[*matrix]),
            Pose::Euler(euler) => copied(alloc, &euler.steps()),
        }
    }
}

impl Kind {
    /// The steps that a node of this kind puts between its children and what is above it, nearest to the children
    /// first; none for most kinds.
    pub fn steps(&self, alloc: Global) -> Result<Vec<Affine>, NoMemory>
        ensures { IfOk result (λ steps. map matrix_of steps.items ≡ own_steps self.now) }
    {
        match self {
            Kind::Scs(matrix) => copied(alloc, &[*matrix]),
            Kind::Dcs(pose) => pose.steps(alloc),
            _ => Ok(Vec::new(alloc)),
        }
    }
}

fn copied(alloc: Global, steps: &[Affine]) -> Result<Vec<Affine>, NoMemory>
    ensures { IfOk result (λ copy. copy.items ≡ steps.now) }
{
    let mut copy = Vec::new(alloc);
    copy.extend_from_slice(steps)?;
    Ok(copy)
}

impl View {
    /// The steps from the scene to the eye: the opposite translation, heading, pitch and roll.
    pub fn steps(&self) -> [Affine; 4]
        ensures { map matrix_of result ≡ steps_of_view self.now }
    {
        [
            shift(opposite_of(self.eye)),
            heading(opposite(self.h)),
            pitch(opposite(self.p)),
            roll(opposite(self.r)),
        ]
    }
}

/// The opposite of a point.
fn opposite_of(v: Vec3) -> Vec3
    ensures { point_of result ≡ point (neg_ℤ v.x) (neg_ℤ v.y) (neg_ℤ v.z) }
{
    Vec3 {
        x: opposite(v.x),
        y: opposite(v.y),
        z: opposite(v.z),
    }
}

/// The opposite of a coordinate or an angle.
fn opposite(z: i32) -> i32
    requires { IsCoordinate z }
    ensures value { result ≡ neg_ℤ z }
    ensures bound { (m : ℕ) → IsWithin m z → IsWithin m result }
{
    -z
}
