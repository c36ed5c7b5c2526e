//! Pieces that cover all of a block.
ghost use Rattle.std.specs.Prelude.{◌≡◌, ℕ, ◌+◌, ◌<◌, ◌≤◌, pos, ◌*ℤ◌, ◌≤ℤ◌, IsTrue, IfSome};
ghost use Rattle.fx_math.specs.Limits.{size_limit};
ghost use Rattle.fx_math.specs.declared.lenses.Lens.{Lens};
ghost use Rattle.depth_raster.specs.Blocks.{IsBlockOf};
ghost use Rattle.depth_raster.specs.Covers.{HasBlock, IsFrom, IsInsideOf, IsSeenTo};
ghost use Rattle.depth_raster.specs.Owed.{IsCoveredTo};
ghost use Rattle.depth_raster.specs.Pieces.{IsPieceOf, HasFace};

use crate::blocks::Block;
use crate::extents::Extent;
use crate::marks::NOTHING;
use crate::pieces::Piece;
use tri_cover::{Face, Linear};

/// Where a piece of a face covers all of a block, all nearer than nothing: a depth that none of its marks there exceeds.
pub(crate) fn covering_top(piece: &Piece, face: &Face, block: &Block) -> Option<u32>
    requires columns { block.now.left + block.now.width ≤ size_limit }
    requires rows { block.now.first + block.now.rows ≤ size_limit }
    requires face { HasFace piece.now face.now }
    ensures { IfSome result (λ top. (lens : Lens) → IsPieceOf lens piece.now → IsBlockOf lens block.now
        → IsCoveredTo lens piece.now.face block.now top) }
{
    if !has_block(&piece.extent, block) || !is_inside(face, block) {
        return None;
    }
    let depth = greatest_depth(face, block)?;
    let top = depth.saturating_sub(piece.face.shift);
    if top < NOTHING { Some(top) } else { None }
}

/// Whether an extent has some block, and all of it.
fn has_block(extent: &Extent, block: &Block) -> bool
    requires columns { block.now.left + block.now.width ≤ size_limit }
    requires rows { block.now.first + block.now.rows ≤ size_limit }
    ensures { IsTrue result → HasBlock extent.now block.now }
{
    block.width > 0
        && block.rows > 0
        && extent.left <= block.left
        && block.left + block.width <= extent.right
        && extent.top <= block.first
        && block.first + block.rows <= extent.bottom
}

/// Whether no edge value of a face is below 0 in a block.
fn is_inside(face: &Face, block: &Block) -> bool
    requires wide { 0 < block.now.width }
    requires high { 0 < block.now.rows }
    requires columns { block.now.left + block.now.width ≤ size_limit }
    requires rows { block.now.first + block.now.rows ≤ size_limit }
    ensures { IsTrue result → IsInsideOf face.now block.now }
{
    if !is_from_0(&face.edges.e0, block) {
        return false;
    }
    if !is_from_0(&face.edges.e1, block) {
        return false;
    }
    is_from_0(&face.edges.e2, block)
}

/// Whether a linear function is nowhere in a block below 0.
fn is_from_0(linear: &Linear, block: &Block) -> bool
    requires wide { 0 < block.now.width }
    requires high { 0 < block.now.rows }
    requires columns { block.now.left + block.now.width ≤ size_limit }
    requires rows { block.now.first + block.now.rows ≤ size_limit }
    ensures { IsTrue result → IsFrom linear.now block.now (pos 0) }
{
    least(linear, block) >= 0
}

/// A depth that a face which covers a block does not exceed there, where it is seen at all depths up to it.
fn greatest_depth(face: &Face, block: &Block) -> Option<u32>
    requires wide { 0 < block.now.width }
    requires high { 0 < block.now.rows }
    requires columns { block.now.left + block.now.width ≤ size_limit }
    requires rows { block.now.first + block.now.rows ≤ size_limit }
    ensures { IfSome result (λ depth. (face.now.extent.near ≡ 0) × (depth ≤ face.now.extent.far)
        × IsSeenTo face.now block.now depth) }
{
    if face.extent.near != 0 {
        return None;
    }
    let sum = least_sum(&face.edges.sum, block);
    if sum == 0 {
        return None;
    }
    up_to(face.dividend / sum, face.extent.far)
}

/// A depth, where it is none beyond the greatest at which anything is seen.
fn up_to(depth: u128, far: u32) -> Option<u32>
    ensures { IfSome result (λ d. (d ≡ depth) × (d ≤ far)) }
{
    if u128::from(far) < depth {
        None
    } else {
        Some(depth as u32)
    }
}

/// The least value of a linear function in a block, or 0 in place of one below it.
fn least_sum(linear: &Linear, block: &Block) -> u128
    requires wide { 0 < block.now.width }
    requires high { 0 < block.now.rows }
    requires columns { block.now.left + block.now.width ≤ size_limit }
    requires rows { block.now.first + block.now.rows ≤ size_limit }
    ensures { 0 < result → IsFrom linear.now block.now (pos result) }
{
    let sum = least(linear, block);
    if sum < 0 { 0 } else { sum.unsigned_abs() }
}

/// The least value of a linear function in a block: that at one of its corners.
fn least(linear: &Linear, block: &Block) -> i128
    requires wide { 0 < block.now.width }
    requires high { 0 < block.now.rows }
    requires columns { block.now.left + block.now.width ≤ size_limit }
    requires rows { block.now.first + block.now.rows ≤ size_limit }
    ensures { IsFrom linear.now block.now result }
{
    let px = least_corner(linear.a, block.left, block.width);
    let py = least_corner(linear.b, block.first, block.rows);
    linear.at(px, py)
}

/// Of some places in a row, the one at which a slope has its least product.
fn least_corner(slope: i64, first: u16, count: u16) -> u16
    requires some { 0 < count }
    requires fits { first + count ≤ size_limit }
    ensures least { (x : ℕ) → x < count → ((pos 2 *ℤ slope) *ℤ pos result) ≤ℤ ((pos 2 *ℤ slope) *ℤ pos (first + x)) }
    ensures bound { result < size_limit }
{
    if slope > 0 {
        first
    } else {
        first + (count - 1)
    }
}
