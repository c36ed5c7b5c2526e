//! The order in which pieces are drawn.
ghost use Rattle.std.specs.Prelude.{◌≡◌, ℕ, ◌≤◌, List, All, length, take};
ghost use Rattle.std.specs.List.Sorted.{IsNonDecreasingBy};
ghost use Rattle.std.specs.Vec.{vec_capacity};
ghost use Rattle.fx_math.specs.declared.lenses.Lens.{Lens};
ghost use Rattle.depth_raster.specs.Pieces.{IsLeast};
ghost use Rattle.depth_raster.specs.Slots.{AreNumbered, AreSlotsOf, AreSlotted};
ghost use Rattle.depth_raster.specs.declared.pieces.Piece.{Piece};

use crate::pieces::Piece;
use crate::strips::ROWS;

/// A piece by its place among those that are drawn together, with the columns and rows that it can reach and the least depth
/// that a mark of it can have.
#[derive(Clone, Copy)]
pub(crate) struct Slot {
    pub(crate) least: u32,
    pub(crate) left: u16,
    pub(crate) right: u16,
    pub(crate) top: u16,
    pub(crate) bottom: u16,
    pub(crate) index: u16,
}

impl Slot {
    ghost use Rattle.depth_raster.specs.Slots.{IsTaken};

    /// The slot of a place, which has still to take its piece.
    fn waiting(index: u16) -> Slot
        ensures { result.index ≡ index }
    {
        Slot {
            least: 0,
            left: 0,
            right: 0,
            top: 0,
            bottom: 0,
            index,
        }
    }

    /// Takes the piece of its place.
    pub(crate) fn take(&mut self, piece: &Piece)
        requires { IsLeast piece.now.face piece.now.least }
        ensures { IsTaken piece.now self.old self.new }
    {
        let extent = piece.extent;
        self.least = piece.least;
        self.left = extent.left;
        self.right = extent.right;
        self.top = extent.top;
        self.bottom = extent.bottom;
    }
}

/// Sees to it that there are just so many slots. Those that it appends have still to take their pieces.
pub(crate) fn wait(slots: &mut Vec<Slot>, count: usize)
    requires few { count ≤ 16384 }
    requires room { 16384 ≤ vec_capacity slots.old }
    requires numbered { AreNumbered slots.old.items }
    ensures room { 16384 ≤ vec_capacity slots.new }
    ensures count { length slots.new.items ≡ count }
    ensures numbered { AreNumbered slots.new.items }
    ensures first { (n : ℕ) → n ≤ length slots.old.items → n ≤ count → take n slots.new.items ≡ take n slots.old.items }
{
    slots.truncate(count);
    for index in slots.len()..count {
        slots.push_reserved(Slot::waiting(index as u16));
    }
}

/// Gives slots to those of the pieces that have none.
pub(crate) fn complete(slots: &mut Vec<Slot>, pieces: &[Piece])
    requires few { length pieces.now ≤ 16384 }
    requires room { 16384 ≤ vec_capacity slots.old }
    requires least { All (λ p. IsLeast p.face p.least) pieces.now }
    requires slotted { AreSlotted pieces.now slots.old.items }
    ensures room { 16384 ≤ vec_capacity slots.new }
    ensures count { length slots.new.items ≡ length pieces.now }
    ensures slotted { AreSlotted pieces.now slots.new.items }
{
    for index in slots.len()..pieces.len() {
        let mut slot = Slot::waiting(index as u16);
        slot.take(&pieces[index]);
        slots.push_reserved(slot);
    }
}

/// Whether slots reach the rows of more strips than there are slots. Rows are counted, so that this is rough.
pub(crate) fn reach_many_strips(slots: &[Slot]) -> bool {
    let mut rows: u64 = 0;
    for slot in slots {
        rows = rows.wrapping_add(u64::from(slot.bottom.saturating_sub(slot.top)));
    }
    rows / u64::from(ROWS) > slots.len() as u64
}

/// Sorts the slots of pieces by the least depths of their marks, which changes nothing of what they draw. It takes little where
/// they are sorted already.
pub(crate) fn sort(slots: &mut Vec<Slot>)
    ensures capacity { vec_capacity slots.new ≡ vec_capacity slots.old }
    ensures count { length slots.new.items ≡ length slots.old.items }
    ensures rising { IsNonDecreasingBy (λ s. s.least) slots.new.items }
    ensures all { (lens : Lens) (ps : List Piece) → AreSlotsOf lens ps slots.old.items → AreSlotsOf lens ps slots.new.items }
{
    slots.sort_unstable_by_key(|slot| slot.least);
}
