//! Turns by an angle, about each axis: four products a point, and eight a box.
ghost use Rattle.std.specs.Prelude.{◌≡◌, pos, IsTrue};
ghost use Rattle.fx_math.specs.Within.{IsEntry};

use crate::extents::{Extent, blended_ends, corner};
use crate::sums::blended;
use fx_math::{Box3, UNIT, Vec3, cosine, sine};

/// The sine and the cosine of an angle, in 1/65536.
#[derive(Clone, Copy, Debug, PartialEq, Eq)]
pub(crate) struct Turn {
    sine: i32,
    cosine: i32,
    ghost sine_is_entry: { IsEntry sine },
    ghost cosine_is_entry: { IsEntry cosine },
}

impl Turn {
    ghost use Rattle.std.specs.Prelude.{◌≡◌, neg_ℤ};
    ghost use Rattle.fx_math.specs.Limits.{whole_turn};
    ghost use Rattle.fx_math.specs.Within.{IsWithin, IsEntry};
    ghost use Rattle.fx_math.specs.Views.{point_of, bounds_of};
    ghost use Rattle.fx_math.specs.Fixed.{apply, apply_box};
    ghost use Rattle.fx_math.specs.Steps.{sine, cosine, roll, pitch, heading};
    ghost use Rattle.draw_list.specs.Steps.{rolled, pitched, turned, roll_matrix, pitch_matrix, heading_matrix};

    /// The turn by an angle, none where it moves no point.
    pub(crate) fn of(x: i32) -> Option<Turn>
        requires { IsWithin whole_turn x }
        ensures rolls { roll_matrix result ≡ roll x }
        ensures pitches { pitch_matrix result ≡ pitch x }
        ensures turns { heading_matrix result ≡ heading x }
    {
        let turn = Turn::new(x);
        if turn.is_still() { None } else { Some(turn) }
    }

    /// The turn back by an angle, none where it moves no point.
    pub(crate) fn back(x: i32) -> Option<Turn>
        requires { IsWithin whole_turn x }
        ensures rolls { roll_matrix result ≡ roll (neg_ℤ x) }
        ensures pitches { pitch_matrix result ≡ pitch (neg_ℤ x) }
        ensures turns { heading_matrix result ≡ heading (neg_ℤ x) }
    {
        Turn::of(-x)
    }

    fn new(x: i32) -> Turn
        requires { IsWithin whole_turn x }
        ensures sine { result.sine ≡ sine x }
        ensures cosine { result.cosine ≡ cosine x }
    {
        Turn {
            sine: sine(x),
            cosine: cosine(x),
        }
    }

    /// Whether the turn moves no point.
    fn is_still(&self) -> bool
        ensures sine { IsTrue result → self.now.sine ≡ pos 0 }
        ensures cosine { IsTrue result → self.now.cosine ≡ pos 65536 }
    {
        self.sine == 0 && self.cosine == UNIT
    }

    /// A point after the roll.
    pub(crate) fn about_y(&self, v: Vec3) -> Vec3
        ensures { point_of result ≡ apply (rolled self.now.sine self.now.cosine) (point_of v) }
    {
        let (s, c) = (self.sine, self.cosine);
        Vec3 {
            x: blended(v.x, c, v.z, s),
            y: v.y,
            z: blended(v.x, -s, v.z, c),
        }
    }

    /// A point after the pitch.
    pub(crate) fn about_x(&self, v: Vec3) -> Vec3
        ensures { point_of result ≡ apply (pitched self.now.sine self.now.cosine) (point_of v) }
    {
        let (s, c) = (self.sine, self.cosine);
        Vec3 {
            x: v.x,
            y: blended(v.y, c, v.z, -s),
            z: blended(v.y, s, v.z, c),
        }
    }

    /// A point after the heading.
    pub(crate) fn about_z(&self, v: Vec3) -> Vec3
        ensures { point_of result ≡ apply (turned self.now.sine self.now.cosine) (point_of v) }
    {
        let (s, c) = (self.sine, self.cosine);
        Vec3 {
            x: blended(v.x, c, v.y, -s),
            y: blended(v.x, s, v.y, c),
            z: v.z,
        }
    }

    /// The opposite of the sine.
    fn opposite(&self) -> i32
        ensures value { result ≡ neg_ℤ self.now.sine }
        ensures bound { IsEntry result }
    {
        -self.sine
    }

    /// A box after the roll.
    pub(crate) fn box_about_y(&self, b: &Box3) -> Box3
        ensures { bounds_of result ≡ apply_box (rolled self.now.sine self.now.cosine) (bounds_of b.now) }
    {
        let (s, back, c) = (self.sine, self.opposite(), self.cosine);
        let x = blended_ends(Extent::x(b), c, Extent::z(b), s);
        let z = blended_ends(Extent::x(b), back, Extent::z(b), c);
        let lo = corner(x.least, b.lo.y, z.least);
        let hi = corner(x.greatest, b.hi.y, z.greatest);
        Box3 { lo, hi }
    }

    /// A box after the pitch.
    pub(crate) fn box_about_x(&self, b: &Box3) -> Box3
        ensures { bounds_of result ≡ apply_box (pitched self.now.sine self.now.cosine) (bounds_of b.now) }
    {
        let (s, back, c) = (self.sine, self.opposite(), self.cosine);
        let y = blended_ends(Extent::y(b), c, Extent::z(b), back);
        let z = blended_ends(Extent::y(b), s, Extent::z(b), c);
        let lo = corner(b.lo.x, y.least, z.least);
        let hi = corner(b.hi.x, y.greatest, z.greatest);
        Box3 { lo, hi }
    }

    /// A box after the heading.
    pub(crate) fn box_about_z(&self, b: &Box3) -> Box3
        ensures { bounds_of result ≡ apply_box (turned self.now.sine self.now.cosine) (bounds_of b.now) }
    {
        let (s, back, c) = (self.sine, self.opposite(), self.cosine);
        let x = blended_ends(Extent::x(b), c, Extent::y(b), back);
        let y = blended_ends(Extent::x(b), s, Extent::y(b), c);
        let lo = corner(x.least, y.least, b.lo.z);
        let hi = corner(x.greatest, y.greatest, b.hi.z);
        Box3 { lo, hi }
    }
}
