//! Faces that change nothing in a block of pixels.
ghost use Rattle.std.specs.Prelude.{◌≡◌, ℕ, ◌+◌, ◌<◌, ◌≤◌, ◌^◌, pos, ◌*ℤ◌, ◌≤ℤ◌, IsTrue};
ghost use Rattle.fx_math.specs.Limits.{size_limit};
ghost use Rattle.fx_math.specs.Within.{IsWithin};
ghost use Rattle.tri_cover.specs.Linears.{value_at};
ghost use Rattle.depth_raster.specs.Looks.{IsHidden, IsBelow};

use crate::blocks::Block;
use edge_values::product;
use tri_cover::{Face, Linear};

/// Whether the edge values at the corners of a block tell that a face is hit nowhere in it before a depth. Their sum is asked
/// first: of faces that are drawn by depth, most are behind what is drawn.
#[inline(always)]
pub(crate) fn is_hidden(face: &Face, block: &Block, limit: u64) -> bool
    requires columns { block.now.left + block.now.width ≤ size_limit }
    requires rows { block.now.first + block.now.rows ≤ size_limit }
    requires limit { limit < 2 ^ 40 }
    ensures { IsTrue result → IsHidden face.now block.now limit }
{
    if block.width == 0 {
        return true;
    }
    if block.rows == 0 {
        return true;
    }
    if is_far(face, block, limit) {
        return true;
    }
    if is_below(&face.edges.e0, block) {
        return true;
    }
    if is_below(&face.edges.e1, block) {
        return true;
    }
    if is_below(&face.edges.e2, block) {
        return true;
    }
    false
}

/// Whether the sum of the edge values of a face alone tells that it is hit nowhere in a block before a depth.
pub(crate) fn is_beyond(face: &Face, block: &Block, limit: u64) -> bool
    requires columns { block.now.left + block.now.width ≤ size_limit }
    requires rows { block.now.first + block.now.rows ≤ size_limit }
    requires limit { limit < 2 ^ 40 }
    ensures { IsTrue result → IsHidden face.now block.now limit }
{
    block.width > 0 && block.rows > 0 && is_far(face, block, limit)
}

/// Whether a linear function is below 0 in a block.
fn is_below(linear: &Linear, block: &Block) -> bool
    requires wide { 0 < block.now.width }
    requires high { 0 < block.now.rows }
    requires columns { block.now.left + block.now.width ≤ size_limit }
    requires rows { block.now.first + block.now.rows ≤ size_limit }
    ensures { IsTrue result → IsBelow linear.now block.now }
{
    greatest(linear, block) < 0
}

/// Whether the greatest sum of the edge values of a face in a block tells that it is hit there behind a depth alone.
fn is_far(face: &Face, block: &Block, limit: u64) -> bool
    requires wide { 0 < block.now.width }
    requires high { 0 < block.now.rows }
    requires columns { block.now.left + block.now.width ≤ size_limit }
    requires rows { block.now.first + block.now.rows ≤ size_limit }
    requires limit { limit < 2 ^ 40 }
    ensures { IsTrue result → IsHidden face.now block.now limit }
{
    let sum = greatest(&face.edges.sum, block);
    if product(limit, positive(sum)) <= face.dividend {
        return true;
    }
    false
}

/// A number, or 0 in place of one below it.
fn positive(number: i128) -> u128
    requires { IsWithin (2 ^ 82) number }
    ensures value { number ≤ℤ pos result }
    ensures bound { result < 2 ^ 84 }
{
    if number < 0 { 0 } else { number.unsigned_abs() }
}

/// The greatest value of a linear function in a block: that at one of its corners.
fn greatest(linear: &Linear, block: &Block) -> i128
    requires wide { 0 < block.now.width }
    requires high { 0 < block.now.rows }
    requires columns { block.now.left + block.now.width ≤ size_limit }
    requires rows { block.now.first + block.now.rows ≤ size_limit }
    ensures greatest { (q r : ℕ) → q < block.now.width → r < block.now.rows
        → value_at linear.now (block.now.left + q) (block.now.first + r) ≤ℤ result }
    ensures bound { IsWithin (2 ^ 82) result }
{
    let px = corner(linear.a, block.left, block.width);
    let py = corner(linear.b, block.first, block.rows);
    linear.at(px, py)
}

/// Of some places in a row, the one at which a slope has its greatest product.
fn corner(slope: i64, first: u16, count: u16) -> u16
    requires some { 0 < count }
    requires fits { first + count ≤ size_limit }
    ensures greatest { (x : ℕ) → x < count → ((pos 2 *ℤ slope) *ℤ pos (first + x)) ≤ℤ ((pos 2 *ℤ slope) *ℤ pos result) }
    ensures bound { result < size_limit }
{
    if slope > 0 {
        first + (count - 1)
    } else {
        first
    }
}
