//! The rays of pixels, and points as rows of numbers.
ghost use Rattle.std.specs.Prelude.{◌≡◌, ◌+◌, ◌*◌, ◌<◌, pos};
ghost use Rattle.fx_math.specs.Within.{AreSmall};
ghost use Rattle.fx_math.specs.Plain.{vector};
ghost use Rattle.fx_math.specs.Views.{point_of};
ghost use Rattle.fx_math.specs.Hit.{ray};

use fx_math::{Lens, Vec3};

/// The direction of the ray through the middle of a pixel.
pub(crate) fn ray(lens: &Lens, px: u16, py: u16) -> [i64; 3]
    requires x { px < lens.now.w }
    requires y { py < lens.now.h }
    ensures value { vector result ≡ ray lens.now px py }
    ensures small { AreSmall result }
{
    let x = middle(px) - i64::from(lens.w);
    let z = i64::from(lens.h) - middle(py);
    [x, 2 * i64::from(lens.f), z]
}

/// Twice the place of a pixel's middle, in pixels.
fn middle(place: u16) -> i64
    ensures { result ≡ pos (2 * place + 1) }
{
    2 * i64::from(place) + 1
}

/// The coordinates of a point.
pub(crate) fn row(v: Vec3) -> [i64; 3]
    ensures value { vector result ≡ point_of v }
    ensures small { AreSmall result }
{
    [i64::from(v.x), i64::from(v.y), i64::from(v.z)]
}
