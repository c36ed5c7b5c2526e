//! Blocks of pixels.
ghost use Rattle.std.specs.Prelude.{◌≡◌, ◌+◌, ◌-◌, ◌≤◌, min};
ghost use Rattle.fx_math.specs.Limits.{size_limit};
ghost use Rattle.depth_raster.specs.Blocks.{place_in};

use crate::extents::Extent;

/// Some columns and rows of a picture: the first of each, and how many they are.
#[derive(Clone, Copy)]
pub(crate) struct Block {
    pub(crate) left: u16,
    pub(crate) first: u16,
    pub(crate) width: u16,
    pub(crate) rows: u16,
}

impl Block {
    ghost use Rattle.depth_raster.specs.Parts.{IsPartIn};

    /// Where the pixel in the block's column `q` and row `r` lies among its pixels, row after row.
    pub(crate) fn place(&self, q: u16, r: u16) -> usize
        ensures { result ≡ place_in self.now q r }
    {
        r as usize * self.width as usize + q as usize
    }

    /// The first of the block's columns that lies in the column `left` of the picture or to the right of it.
    pub(crate) fn columns_from(&self, left: u16) -> u16
        ensures { result ≡ left - self.now.left }
    {
        left.saturating_sub(self.left)
    }

    /// The number of the block's columns that lie to the left of the column `right` of the picture.
    pub(crate) fn columns_to(&self, right: u16) -> u16
        ensures { result ≡ min self.now.width (right - self.now.left) }
    {
        self.width.min(right.saturating_sub(self.left))
    }

    /// The first of the block's rows that lies in the row `top` of the picture or below it.
    pub(crate) fn rows_from(&self, top: u16) -> u16
        ensures { result ≡ top - self.now.first }
    {
        top.saturating_sub(self.first)
    }

    /// The number of the block's rows that lie above the row `bottom` of the picture.
    pub(crate) fn rows_to(&self, bottom: u16) -> u16
        ensures { result ≡ min self.now.rows (bottom - self.now.first) }
    {
        self.rows.min(bottom.saturating_sub(self.first))
    }

    /// The part of the block that lies in the columns and rows of an extent, which may be empty.
    #[inline(always)]
    pub(crate) fn part_in(&self, extent: &Extent) -> Block
        requires columns { self.now.left + self.now.width ≤ size_limit }
        requires rows { self.now.first + self.now.rows ≤ size_limit }
        ensures { IsPartIn extent.now self.now result }
    {
        let start = self.width.min(self.columns_from(extent.left));
        let top = self.rows.min(self.rows_from(extent.top));
        Block {
            left: self.left + start,
            first: self.first + top,
            width: self.columns_to(extent.right).saturating_sub(start),
            rows: self.rows_to(extent.bottom).saturating_sub(top),
        }
    }
}
