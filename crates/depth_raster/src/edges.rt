//! The edge values of a face at a pixel, and by how much they change from a pixel to the next one of its row.
ghost use Rattle.std.specs.Prelude.{◌≡◌, ◌<◌, ◌*◌, ◌^◌};
ghost use Rattle.fx_math.specs.Limits.{size_limit};
ghost use Rattle.fx_math.specs.Within.{IsWithin};
ghost use Rattle.tri_cover.specs.Linears.{value_at, step_of};
ghost use Rattle.edge_values.specs.Small.{AreWithin};
ghost use Rattle.depth_raster.specs.Edges.{AreValuesAt, AreSlopesOf};
ghost use Rattle.edge_values.specs.Narrow.{DoFit, IsSumOf};
ghost use Rattle.depth_raster.specs.Narrow.{AreNarrowAt, AreNarrowSlopes, AreNarrowFalls, IsLineAt, fall_of};
ghost use Rattle.depth_raster.specs.Small.{IsSmallFace, IsSmallLinear};

use edge_values::{EdgeValues, NarrowLine, NarrowValues, small_step, small_value};
use tri_cover::{Face, Linear};

/// The edge values of a face at a pixel.
pub(crate) fn values_at(face: &Face, px: u16, py: u16) -> EdgeValues
    requires x { px < size_limit }
    requires y { py < size_limit }
    ensures { AreValuesAt face.now px py result }
{
    EdgeValues {
        first: face.edges.e0.at(px, py),
        second: face.edges.e1.at(px, py),
        third: face.edges.e2.at(px, py),
    }
}

/// By how much the edge values of a face change from a pixel to the next one of its row.
pub(crate) fn steps_of(face: &Face) -> EdgeValues
    ensures { AreSlopesOf face.now result }
{
    EdgeValues {
        first: face.edges.e0.step(),
        second: face.edges.e1.step(),
        third: face.edges.e2.step(),
    }
}

/// The edge values of a face that are small, from a pixel to another of its row.
pub(crate) fn small_line(face: &Face, px: u16, end: u16, py: u16) -> NarrowLine
    requires x { px < size_limit }
    requires end { end < size_limit }
    requires y { py < size_limit }
    requires small { IsSmallFace face.now }
    ensures { IsLineAt face.now px end py result }
{
    NarrowLine {
        start: small_values_at(face, px, py),
        last: small_values_at(face, end, py),
        steps: small_steps_of(face),
    }
}

/// Small edge values of a face at a pixel.
fn small_values_at(face: &Face, px: u16, py: u16) -> NarrowValues
    requires x { px < size_limit }
    requires y { py < size_limit }
    requires small { IsSmallFace face.now }
    ensures values { AreNarrowAt face.now px py result }
    ensures bound { AreWithin (3 * 2 ^ 50) result.first result.second result.third }
{
    NarrowValues {
        first: value(&face.edges.e0, px, py),
        second: value(&face.edges.e1, px, py),
        third: value(&face.edges.e2, px, py),
    }
}

/// By how much small edge values of a face change from a pixel to the next one of its row.
fn small_steps_of(face: &Face) -> NarrowValues
    requires small { IsSmallFace face.now }
    ensures slopes { AreNarrowSlopes face.now result }
    ensures bound { AreWithin (2 ^ 40) result.first result.second result.third }
{
    NarrowValues {
        first: step(&face.edges.e0),
        second: step(&face.edges.e1),
        third: step(&face.edges.e2),
    }
}

/// By how much small edge values of a face change from a pixel to the one below it.
pub(crate) fn small_falls_of(face: &Face) -> NarrowValues
    requires small { IsSmallFace face.now }
    ensures falls { AreNarrowFalls face.now result }
    ensures bound { AreWithin (2 ^ 40) result.first result.second result.third }
{
    NarrowValues {
        first: fall(&face.edges.e0),
        second: fall(&face.edges.e1),
        third: fall(&face.edges.e2),
    }
}

/// The same part of the row below, after its edge values have changed by so much.
#[inline(always)]
pub(crate) fn line_below(line: &NarrowLine, falls: &NarrowValues) -> NarrowLine
    requires start { DoFit line.now.start falls.now }
    requires last { DoFit line.now.last falls.now }
    ensures start { IsSumOf line.now.start falls.now result.start }
    ensures last { IsSumOf line.now.last falls.now result.last }
    ensures steps { result.steps ≡ line.now.steps }
{
    NarrowLine {
        start: line.start.plus(falls),
        last: line.last.plus(falls),
        steps: line.steps,
    }
}

/// The value of a small linear function at a pixel of a picture.
#[inline(always)]
pub(crate) fn value(linear: &Linear, px: u16, py: u16) -> i64
    requires px { px < size_limit }
    requires py { py < size_limit }
    requires small { IsSmallLinear linear.now }
    ensures value { result ≡ value_at linear.now px py }
    ensures bound { IsWithin (3 * 2 ^ 50) result }
{
    small_value(linear.a, linear.b, linear.c, px, py)
}

/// By how much such a value changes from a pixel to the next one of its row.
#[inline(always)]
pub(crate) fn step(linear: &Linear) -> i64
    requires { IsSmallLinear linear.now }
    ensures value { result ≡ step_of linear.now }
    ensures bound { IsWithin (2 ^ 40) result }
{
    small_step(linear.a)
}

/// By how much it changes from a pixel to the one below it.
#[inline(always)]
fn fall(linear: &Linear) -> i64
    requires { IsSmallLinear linear.now }
    ensures value { result ≡ fall_of linear.now }
    ensures bound { IsWithin (2 ^ 40) result }
{
    small_step(linear.b)
}
