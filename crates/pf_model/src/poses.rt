//! Poses of dynamic coordinate systems, and views.
ghost use Rattle.std.specs.Prelude.{◌≡◌};
ghost use Rattle.pf_model.specs.Angles.{EulerPose, Viewpoint, IsEulerPose, AreAngles, home_view};

use fx_math::{Affine, Vec3};
use std::marker::Model;

/// The pose of a dynamic coordinate system (pfDCS).
#[derive(Clone, Copy, Debug, PartialEq, Eq)]
pub enum Pose {
    /// One matrix.
    Matrix(Affine),
    /// A scale, three angles and a translation, applied in the order scale, roll, pitch, heading, translation.
    Euler(Euler),
}

/// A pose by a scale, in 1/65536 and of a magnitude of at most 1,048,576, by heading, pitch and roll, in tenths of
/// a degree and of a magnitude of at most 3,600, and by a translation.
#[derive(Clone, Copy, Debug, PartialEq, Eq)]
pub struct Euler {
    pub scale: i32,
    pub h: i32,
    pub p: i32,
    pub r: i32,
    pub t: Vec3,
}

impl Model for Euler {
    ghost Value = { EulerPose };

    ghost view = { λ e. record { scale = e.scale; h = e.h; p = e.p; r = e.r; t = e.t } };

    ghost invariant = { λ e. IsEulerPose e.scale e.h e.p e.r };

    ghost inverse = { λ e. record { scale = e.scale; h = e.h; p = e.p; r = e.r; t = e.t } };
}

/// A view: where the eye stands, and its heading, pitch and roll, in tenths of a degree and of a magnitude of at
/// most 3,600.
#[derive(Clone, Copy, Debug, PartialEq, Eq)]
pub struct View {
    pub eye: Vec3,
    pub h: i32,
    pub p: i32,
    pub r: i32,
}

impl Model for View {
    ghost Value = { Viewpoint };

    ghost view = { λ v. record { eye = v.eye; h = v.h; p = v.p; r = v.r } };

    ghost invariant = { λ v. AreAngles v.h v.p v.r };

    ghost inverse = { λ v. record { eye = v.eye; h = v.h; p = v.p; r = v.r } };
}

impl View {
    /// The view from the origin along Y, with angles of 0.
    pub fn home() -> View
        ensures { result ≡ home_view }
    {
        View {
            eye: Vec3::ORIGIN,
            h: 0,
            p: 0,
            r: 0,
        }
    }
}
