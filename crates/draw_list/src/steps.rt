//! Single steps, in the form that costs least at each point.
ghost use Rattle.std.specs.Prelude.{◌≡◌, ◌+ℤ◌, IsTrue};
ghost use Rattle.fx_math.specs.Within.{IsCoordinate};
ghost use Rattle.fx_math.specs.Plain.{point};
ghost use Rattle.fx_math.specs.Views.{point_of, matrix_of, bounds_of};
ghost use Rattle.fx_math.specs.Fixed.{apply, apply_box, clamp};
ghost use Rattle.fx_math.specs.Steps.{shift};
ghost use Rattle.draw_list.specs.Steps.{step_matrix, unit_rows};

use fx_math::{Affine, Box3, MAX_COORDINATE, UNIT, Vec3, apply, apply_box};

const UNIT_ROWS: [[i32; 3]; 3] = [[UNIT, 0, 0], [0, UNIT, 0], [0, 0, UNIT]];

/// A step.
#[derive(Clone, Copy, Debug, PartialEq, Eq)]
pub(crate) enum Step {
    /// It moves no point.
    Still,
    /// It only shifts.
    Shift(Vec3),
    /// Any step.
    Linear(Affine),
}

impl Step {
    /// The step of a matrix.
    pub(crate) fn of(m: &Affine) -> Step
        ensures { step_matrix result ≡ matrix_of m.now }
    {
        if !is_unit(&m.a) {
            Step::Linear(*m)
        } else if m.t == Vec3::ORIGIN {
            Step::Still
        } else {
            Step::Shift(m.t)
        }
    }

    /// A point after the step.
    pub(crate) fn carry(&self, v: Vec3) -> Vec3
        ensures { point_of result ≡ apply (step_matrix self.now) (point_of v) }
    {
        match self {
            Step::Still => v,
            Step::Shift(t) => shifted(v, *t),
            Step::Linear(m) => apply(m, v),
        }
    }

    /// A box after the step.
    pub(crate) fn carry_box(&self, b: &Box3) -> Box3
        ensures { bounds_of result ≡ apply_box (step_matrix self.now) (bounds_of b.now) }
    {
        match self {
            Step::Still => *b,
            Step::Shift(t) => shifted_box(b, *t),
            Step::Linear(m) => apply_box(m, b),
        }
    }
}

fn is_unit(rows: &[[i32; 3]; 3]) -> bool
    ensures { IsTrue result → rows.now ≡ unit_rows }
{
    *rows == UNIT_ROWS
}

/// A point after a step that only shifts: three additions.
pub(crate) fn shifted(v: Vec3, t: Vec3) -> Vec3
    ensures { point_of result ≡ apply (shift (point_of t)) (point_of v) }
{
    sums(v, t)
}

/// A box after a step that only shifts: six additions.
pub(crate) fn shifted_box(b: &Box3, t: Vec3) -> Box3
    ensures { bounds_of result ≡ apply_box (shift (point_of t)) (bounds_of b.now) }
{
    let lo = sums(b.lo, t);
    let hi = sums(b.hi, t);
    Box3 { lo, hi }
}

fn sums(v: Vec3, t: Vec3) -> Vec3
    ensures { point_of result ≡ point (clamp (v.x +ℤ t.x)) (clamp (v.y +ℤ t.y)) (clamp (v.z +ℤ t.z)) }
{
    Vec3 {
        x: sum(v.x, t.x),
        y: sum(v.y, t.y),
        z: sum(v.z, t.z),
    }
}

#[tactic(auto, unfolding(fx_math::specs::Fixed::clamp))]
fn sum(z: i32, t: i32) -> i32
    requires z { IsCoordinate z }
    requires t { IsCoordinate t }
    ensures value { result ≡ clamp (z +ℤ t) }
    ensures bound { IsCoordinate result }
{
    (z + t).clamp(-MAX_COORDINATE, MAX_COORDINATE)
}
