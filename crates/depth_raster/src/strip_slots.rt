//! The slots of a strip, in the order in which it draws their pieces.
ghost use Rattle.std.specs.Prelude.{◌≡◌, List, length};
ghost use Rattle.std.specs.List.Sorted.{IsNonDecreasingBy};
ghost use Rattle.std.specs.Vec.{vec_capacity};
ghost use Rattle.fx_math.specs.declared.lenses.Lens.{Lens};
ghost use Rattle.depth_raster.specs.Shares.{AreSlotsFor};
ghost use Rattle.depth_raster.specs.declared.blocks.Block.{Block};
ghost use Rattle.depth_raster.specs.declared.pieces.Piece.{Piece};

use crate::across::{tile_of, tiles_before};
use crate::slots::Slot;

/// What a strip has of a slot that reaches its rows: the place of the piece among those that are drawn together, the tiles of the
/// strip that it can reach, and the least depth that a mark of it can have. It has eight bytes, since it is sorted: std's sort takes
/// nearly twice as long for slots of sixteen.
#[derive(Clone, Copy)]
pub(crate) struct StripSlot {
    pub(crate) least: u32,
    pub(crate) index: u16,
    /// The first tile, or 255 where it is a later one.
    pub(crate) start: u8,
    /// The end of the tiles, or 255 where it is a later one.
    pub(crate) end: u8,
}

impl StripSlot {
    ghost use Rattle.depth_raster.specs.StripSlots.{in_strip};

    /// What a strip has of a slot.
    #[inline(always)]
    pub(crate) fn of(slot: &Slot) -> StripSlot
        ensures { result ≡ in_strip slot.now }
    {
        StripSlot {
            least: slot.least,
            index: slot.index,
            start: 255.min(tile_of(slot.left)) as u8,
            end: 255.min(tiles_before(slot.right)) as u8,
        }
    }
}

/// Sorts the slots of a strip by the least depths of their pieces' marks, which changes nothing of what they draw. It takes little
/// where they are sorted already.
pub(crate) fn sort_strip(slots: &mut Vec<StripSlot>)
    ensures capacity { vec_capacity slots.new ≡ vec_capacity slots.old }
    ensures count { length slots.new.items ≡ length slots.old.items }
    ensures rising { IsNonDecreasingBy (λ s. s.least) slots.new.items }
    ensures same { (lens : Lens) (ps : List Piece) (b : Block) → AreSlotsFor lens ps b slots.old.items
        → AreSlotsFor lens ps b slots.new.items }
{
    slots.sort_unstable_by_key(|slot| slot.least);
}
