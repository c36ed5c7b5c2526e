//! The colours of small faces along a row, in 64 bits.
ghost use Rattle.std.specs.Prelude.{◌<◌};
ghost use Rattle.fx_math.specs.Limits.{size_limit};
ghost use Rattle.span_shading.specs.Sums.{IsSumOf};
ghost use Rattle.span_shading.specs.Mixing.{AreBytes};
ghost use Rattle.depth_raster.specs.Mixing.{AreColours};
ghost use Rattle.depth_raster.specs.Shading.{IsLineAt, IsSpanAt, AreMixes};
ghost use Rattle.depth_raster.specs.Small.{IsSmallLinear, IsSmallFace};

use crate::edges::{step, value};
use span_shading::{Line, Span, Sum, Weight};
use tri_cover::{Face, Linear};

/// The span of a small face at a pixel.
#[inline(always)]
pub(crate) fn span_at(face: &Face, px: u16, py: u16) -> Span
    requires small { IsSmallFace face.now }
    requires x { px < size_limit }
    requires y { py < size_limit }
    ensures span { IsSpanAt face.now px py result }
    ensures bytes { AreColours face.now.colours }
{
    let first = line_at(&face.edges.e0, px, py);
    let second = line_at(&face.edges.e1, px, py);
    let third = line_at(&face.edges.e2, px, py);
    mixed(&face.colours, &first, &second, &third)
}

/// A small edge value at a pixel.
#[inline(always)]
fn line_at(edge: &Linear, px: u16, py: u16) -> Line
    requires small { IsSmallLinear edge.now }
    requires x { px < size_limit }
    requires y { py < size_limit }
    ensures { IsLineAt edge.now px py result }
{
    Line {
        here: value(edge, px, py),
        step: step(edge),
    }
}

/// The channels of vertices, weighed by three edge values.
#[inline(always)]
fn mixed(colours: &[[u8; 3]; 3], first: &Line, second: &Line, third: &Line) -> Span
    ensures span { AreMixes colours.now first.now second.now third.now result }
    ensures bytes { AreColours colours.now }
{
    let [x, y, z] = *colours;
    Span::new(
        mix(x[0], y[0], z[0], first, second, third),
        mix(x[1], y[1], z[1], first, second, third),
        mix(x[2], y[2], z[2], first, second, third),
        Weight::of(first, second, third),
    )
}

/// A channel of vertices, weighed by three edge values.
#[inline(always)]
fn mix(x: u8, y: u8, z: u8, first: &Line, second: &Line, third: &Line) -> Sum
    ensures sum { IsSumOf x y z first.now second.now third.now result }
    ensures bytes { AreBytes x y z }
{
    Sum::of(x, y, z, first, second, third)
}
