//! The slots of pieces, shared out to the strips whose rows they reach.
ghost use Rattle.std.specs.Prelude.{◌≡◌, ℕ, ◌/◌, ◌<◌, ◌≤◌, [], ◌∷◌, ◌++◌, length, slice_index_or};
ghost use Rattle.std.specs.Int.{div_ceil};
ghost use Rattle.depth_raster.specs.Shares.{meets, HasSlots, Gains, EachGains, HasShare, AreShared, AreStacked};
ghost use Rattle.depth_raster.specs.StripSlots.{in_strip};
ghost use Rattle.depth_raster.specs.declared.strip.Strip.{Strip};

use crate::blocks::Block;
use crate::slots::Slot;
use crate::strip::Strip;
use crate::strip_slots::StripSlot;
use crate::strips::ROWS;

/// Gives each strip of a picture those slots that reach its rows, in their order, in place of those that it has.
pub(crate) fn share_out(strips: &mut [Strip], slots: &[Slot])
    requires few { length slots.now ≤ 16384 }
    requires stacked { AreStacked strips.old }
    ensures { AreShared slots.now strips.old strips.new }
{
    clear(strips);
    for slot in slots {
        give(strips, *slot);
    }
}

/// Gives a strip those of the slots that reach its rows, in their order, in place of those that it has.
pub(crate) fn take_share(strip: &mut Strip, slots: &[Slot])
    requires { length slots.now ≤ 16384 }
    ensures { HasShare slots.now strip.old strip.new }
{
    empty(strip);
    for slot in slots {
        take_if_met(strip, *slot);
    }
}

/// Gives a slot to a strip if it reaches its rows.
#[inline(always)]
fn take_if_met(strip: &mut Strip, slot: Slot)
    requires { length strip.old.slots.items < 16384 }
    ensures { Gains slot strip.old strip.new }
{
    if is_met(&strip.band, &slot) {
        take(strip, slot);
    }
}

/// Whether a slot reaches rows of the band of a strip.
#[inline(always)]
fn is_met(band: &Block, slot: &Slot) -> bool
    ensures { result ≡ meets band.now slot.now }
{
    u32::from(slot.top) < u32::from(band.first) + u32::from(ROWS) && band.first < slot.bottom
}

/// Takes all slots from strips.
fn clear(strips: &mut [Strip])
    ensures { AreShared [] strips.old strips.new }
{
    for i in 0..strips.len() {
        empty(&mut strips[i]);
    }
}

fn empty(strip: &mut Strip)
    ensures { HasSlots [] strip.old strip.new }
{
    strip.slots.clear();
}

/// Gives a slot to each strip whose rows it reaches.
fn give(strips: &mut [Strip], slot: Slot)
    requires stacked { AreStacked strips.old }
    requires room { (i : ℕ) (d : Strip) → i < length strips.old → length (slice_index_or strips.old i d).slots.items < 16384 }
    ensures { EachGains slot strips.old strips.new }
{
    let start = strip_of(slot.top);
    let end = strips.len().min(strips_before(slot.bottom));
    for i in start..end {
        take(&mut strips[i], slot);
    }
}

/// The number of the strip in which a row lies.
fn strip_of(row: u16) -> usize
    ensures { result ≡ row / 16 }
{
    (row / ROWS) as usize
}

/// How many strips have rows before this one.
fn strips_before(row: u16) -> usize
    ensures { result ≡ div_ceil row 16 }
{
    row.div_ceil(ROWS) as usize
}

/// Gives a slot to a strip.
fn take(strip: &mut Strip, slot: Slot)
    requires { length strip.old.slots.items < 16384 }
    ensures { HasSlots (strip.old.slots.items ++ in_strip slot ∷ []) strip.old strip.new }
{
    strip.slots.push_reserved(StripSlot::of(&slot));
}
