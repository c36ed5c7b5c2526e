//! The steps of a pose and of a view, as affine matrices.
ghost use Rattle.std.specs.Prelude.{◌≡◌};
ghost use Rattle.fx_math.specs.Limits.{whole_turn};
ghost use Rattle.fx_math.specs.Within.{IsWithin, IsEntry};
ghost use Rattle.fx_math.specs.Views.{point_of, matrix_of};
ghost use Rattle.fx_math.specs.Steps.{scaling, roll, pitch, heading, shift};

use crate::angles::{cosine, sine};
use crate::matrices::{Affine, UNIT};
use crate::vectors::Vec3;

/// The scaling by `s / 65536`.
#[tactic(auto, unfolding(crate::specs::Steps::scaling))]
pub fn scaling(s: i32) -> Affine
    requires { IsEntry s }
    ensures { matrix_of result ≡ scaling s }
{
    Affine {
        a: [[s, 0, 0], [0, s, 0], [0, 0, s]],
        t: Vec3::ORIGIN,
    }
}

/// The roll by `x` tenths of a degree, about Y.
#[tactic(auto, unfolding(crate::specs::Steps::roll))]
pub fn roll(x: i32) -> Affine
    requires { IsWithin whole_turn x }
    ensures value { matrix_of result ≡ roll x }
{
    let s = sine(x);
    let c = cosine(x);
    Affine {
        a: [[c, 0, -s], [0, UNIT, 0], [s, 0, c]],
        t: Vec3::ORIGIN,
    }
}

/// The pitch by `x` tenths of a degree, about X.
#[tactic(auto, unfolding(crate::specs::Steps::pitch))]
pub fn pitch(x: i32) -> Affine
    requires { IsWithin whole_turn x }
    ensures value { matrix_of result ≡ pitch x }
{
    let s = sine(x);
    let c = cosine(x);
    Affine {
        a: [[UNIT, 0, 0], [0, c, s], [0, -s, c]],
        t: Vec3::ORIGIN,
    }
}

/// The turn by a heading of `x` tenths of a degree, about Z.
#[tactic(auto, unfolding(crate::specs::Steps::heading))]
pub fn heading(x: i32) -> Affine
    requires { IsWithin whole_turn x }
    ensures value { matrix_of result ≡ heading x }
{
    let s = sine(x);
    let c = cosine(x);
    Affine {
        a: [[c, s, 0], [-s, c, 0], [0, 0, UNIT]],
        t: Vec3::ORIGIN,
    }
}

/// The translation by `t`.
#[tactic(auto, unfolding(crate::specs::Steps::shift))]
pub fn shift(t: Vec3) -> Affine
    ensures value { matrix_of result ≡ shift (point_of t) }
{
    Affine {
        a: [[UNIT, 0, 0], [0, UNIT, 0], [0, 0, UNIT]],
        t,
    }
}
