//! The turns of a pose or of a view, which are left out where they move no point.
ghost use Rattle.std.specs.Prelude.{◌≡◌};
ghost use Rattle.fx_math.specs.Views.{point_of, bounds_of};
ghost use Rattle.fx_math.specs.Fixed.{apply, apply_box};
ghost use Rattle.draw_list.specs.Steps.{roll_matrix, pitch_matrix, heading_matrix};

use crate::turns::Turn;
use fx_math::{Box3, Vec3};

/// A point after a roll.
pub(crate) fn rolled(roll: &Option<Turn>, v: Vec3) -> Vec3
    ensures { point_of result ≡ apply (roll_matrix roll.now) (point_of v) }
{
    match roll {
        Some(turn) => turn.about_y(v),
        None => v,
    }
}

/// A point after a pitch.
pub(crate) fn pitched(pitch: &Option<Turn>, v: Vec3) -> Vec3
    ensures { point_of result ≡ apply (pitch_matrix pitch.now) (point_of v) }
{
    match pitch {
        Some(turn) => turn.about_x(v),
        None => v,
    }
}

/// A point after a heading.
pub(crate) fn turned(heading: &Option<Turn>, v: Vec3) -> Vec3
    ensures { point_of result ≡ apply (heading_matrix heading.now) (point_of v) }
{
    match heading {
        Some(turn) => turn.about_z(v),
        None => v,
    }
}

/// A box after a roll.
pub(crate) fn rolled_box(roll: &Option<Turn>, b: &Box3) -> Box3
    ensures { bounds_of result ≡ apply_box (roll_matrix roll.now) (bounds_of b.now) }
{
    match roll {
        Some(turn) => turn.box_about_y(b),
        None => *b,
    }
}

/// A box after a pitch.
pub(crate) fn pitched_box(pitch: &Option<Turn>, b: &Box3) -> Box3
    ensures { bounds_of result ≡ apply_box (pitch_matrix pitch.now) (bounds_of b.now) }
{
    match pitch {
        Some(turn) => turn.box_about_x(b),
        None => *b,
    }
}

/// A box after a heading.
pub(crate) fn turned_box(heading: &Option<Turn>, b: &Box3) -> Box3
    ensures { bounds_of result ≡ apply_box (heading_matrix heading.now) (bounds_of b.now) }
{
    match heading {
        Some(turn) => turn.box_about_z(b),
        None => *b,
    }
}
