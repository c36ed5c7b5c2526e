//! The channels of a face's vertices, each weighed by its edge value.
ghost use Rattle.std.specs.Prelude.{◌<◌, ◌^◌};
ghost use Rattle.fx_math.specs.Limits.{size_limit};
ghost use Rattle.fx_math.specs.Within.{IsWithin};
ghost use Rattle.depth_raster.specs.Mixing.{AreColours};

use span_shading::wide_mix;
use tri_cover::Face;

/// The weighed sums of a face's channels: at a pixel, or by how much they change from a pixel to the next one of its row.
#[derive(Clone, Copy)]
pub(crate) struct Sums {
    pub(crate) red: i128,
    pub(crate) green: i128,
    pub(crate) blue: i128,
    ghost red_small: { IsWithin (2 ^ 92) red },
    ghost green_small: { IsWithin (2 ^ 92) green },
    ghost blue_small: { IsWithin (2 ^ 92) blue },
}

impl Sums {
    ghost use Rattle.depth_raster.specs.Sums.{AreSumsAt, AreStepsOf, AreMixed};

    /// Those of a face at a pixel.
    #[inline(always)]
    pub(crate) fn at(face: &Face, px: u16, py: u16) -> Sums
        requires x { px < size_limit }
        requires y { py < size_limit }
        ensures sums { AreSumsAt face.now px py result }
        ensures bytes { AreColours face.now.colours }
    {
        let first = face.edges.e0.at(px, py);
        let second = face.edges.e1.at(px, py);
        let third = face.edges.e2.at(px, py);
        Sums::mixed(&face.colours, first, second, third)
    }

    /// By how much those of a face change from a pixel to the next one of its row.
    #[inline(always)]
    pub(crate) fn steps(face: &Face) -> Sums
        ensures { AreStepsOf face.now result }
    {
        let first = face.edges.e0.step();
        let second = face.edges.e1.step();
        let third = face.edges.e2.step();
        Sums::mixed(&face.colours, first, second, third)
    }

    /// The channels of vertices, weighed by three numbers.
    #[inline(always)]
    fn mixed(colours: &[[u8; 3]; 3], first: i128, second: i128, third: i128) -> Sums
        requires first { IsWithin (2 ^ 82) first }
        requires second { IsWithin (2 ^ 82) second }
        requires third { IsWithin (2 ^ 82) third }
        ensures sums { AreMixed colours.now first second third result }
        ensures bytes { AreColours colours.now }
    {
        let [x, y, z] = *colours;
        Sums {
            red: wide_mix(x[0], y[0], z[0], first, second, third),
            green: wide_mix(x[1], y[1], z[1], first, second, third),
            blue: wide_mix(x[2], y[2], z[2], first, second, third),
        }
    }
}
