//! The hits of a triangle along a row of pixels.
ghost use Rattle.std.specs.Prelude.{◌≡◌, ◌+◌, ◌<◌, []};
ghost use Rattle.fx_math.specs.Within.{AreSmall};
ghost use Rattle.tri_cover.specs.Stepping.{AreAtPixel};
ghost use Rattle.tri_cover.specs.Hits.{hit};

use crate::edges::EdgeValues;
use crate::hit::Hit;
use crate::judge::judge;
use crate::ray::{ray, row};
use fx_math::{Lens, det};
use pf_model::Tri;

/// A triangle in eye coordinates at one pixel of a row, ready for the pixel on its right: a step costs three additions,
/// where `cover` takes four determinants.
#[derive(Clone, Copy)]
pub struct Stepper {
    pub lens: Lens,
    pub tri: Tri,
    pub px: u16,
    pub py: u16,
    volume: i128,
    here: EdgeValues,
    step: EdgeValues,
    ghost at_pixel: { AreAtPixel lens tri px py volume here step },
}

impl Stepper {
    /// At the first pixel of the row `py`.
    pub fn start(tri: &Tri, py: u16, lens: &Lens) -> Stepper
        requires { py < lens.now.h }
        ensures lens { result.lens ≡ lens.now }
        ensures tri { result.tri ≡ tri.now }
        ensures px { result.px ≡ 0 }
        ensures py { result.py ≡ py }
    {
        let [u, v, w] = tri.v;
        let (u, v, w) = (row(u), row(v), row(w));
        Stepper {
            lens: *lens,
            tri: *tri,
            px: 0,
            py,
            volume: det(u, v, w),
            here: EdgeValues::new(ray(lens, 0, py), u, v, w),
            step: EdgeValues::new([2, 0, 0], u, v, w),
        }
    }

    /// The hit at this pixel, as `cover` answers it.
    pub fn here(&self) -> Option<Hit>
        ensures { result ≡ hit self.now.lens self.now.px self.now.py [] self.now.tri }
    {
        judge(&self.lens, self.volume, &self.here, self.tri.c)
    }

    /// Goes to the pixel on the right.
    pub fn right(&mut self)
        requires { self.old.px + 1 < self.old.lens.w }
        ensures lens { self.new.lens ≡ self.old.lens }
        ensures tri { self.new.tri ≡ self.old.tri }
        ensures px { self.new.px ≡ self.old.px + 1 }
        ensures py { self.new.py ≡ self.old.py }
    {
        let here = self.here.plus(&self.step);
        self.px += 1;
        self.here = here;
    }
}
