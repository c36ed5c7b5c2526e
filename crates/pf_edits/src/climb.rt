//! Going up from a node, and extents reckoned anew along the way.
ghost use Rattle.std.specs.Prelude.{◌≡◌, ◌+◌, ◌-◌, ◌*◌, ◌^◌, ◌≤◌, ◌<◌, ◌==◌, ◌||◌, ◌∷◌, [], length, slice_set, ℕ, true, false, if◌then◌else◌, reverse, map, max, Some, None, is_some, OnSome};
ghost use Rattle.std.specs.List.{fold, sum_by};
ghost use Rattle.std.specs.Option.{option_copied, option_map};
ghost use Rattle.pf_model.specs.Graphs.{children_of, greatest, is_below};
ghost use Rattle.pf_model.specs.Limits.{has_child};
ghost use Rattle.pf_model.specs.Laws.{AreLow};
ghost use Rattle.pf_edits.specs.Tables.{record_at};
ghost use Rattle.pf_edits.specs.Ways.{is_in, LeadUp};
ghost use Rattle.pf_edits.specs.Extents.{look_of, parents_of, extent_at, before_at, counted_at, with_extent, joined, reckoned, MeetBut, IsSound};

use crate::extents::{Extent, LEAF};
use crate::records::Records;
use crate::way::Way;

/// Whether an id is among these.
pub(crate) fn is_in(id: u16, ids: &[u16]) -> bool
    ensures { result ≡ is_in id ids.now }
{
    ids.iter().any(|other| *other == id)
}

/// Whether a node has a child.
pub(crate) fn has_child(records: &Records, parent: u16, child: u16) -> bool
    ensures { result ≡ has_child (look_of records.now.slots) parent child }
{
    match records.find(parent) {
        Some(record) => is_in(child, record.node.children.as_slice()),
        None => false,
    }
}

/// Notes the nodes above a node and then the node itself, each after all that are above it.
pub(crate) fn climb(records: &Records, way: &mut Way, id: u16)
    requires sound { IsSound records.now.slots }
    requires low { AreLow (look_of records.now.slots) }
    requires leads { LeadUp (look_of records.now.slots) way.old }
    ensures leads { LeadUp (look_of records.now.slots) way.new }
    ensures member { is_in id way.new ≡ true }
    ensures kept { (b : ℕ) → is_in b way.old ≡ true → is_in b way.new ≡ true }
    ensures above { (b : ℕ) → is_in b way.new ≡ true
        → (is_in b way.old || (b == id || is_below (look_of records.now.slots) b id)) ≡ true }
{
    if let Some(record) = records.find(id) {
        for parent in record.parents.as_slice() {
            if !way.contains(*parent) && has_child(records, *parent, id) {
                climb(records, way, *parent);
            }
        }
    }
    way.add(id);
}

/// The extent of an id, that of a leaf where it has no node.
pub(crate) fn extent_at(records: &Records, id: u16) -> Extent
    ensures { result ≡ extent_at records.now.slots id }
{
    match records.find(id) {
        Some(record) => record.extent,
        None => LEAF,
    }
}

/// The extent that an id had until it was last set, that of a leaf where it has no node.
fn before_at(records: &Records, id: u16) -> Extent
    ensures { result ≡ before_at records.now.slots id }
{
    match records.find(id) {
        Some(record) => record.before,
        None => LEAF,
    }
}

/// An extent with more children.
fn over_more(records: &Records, start: Extent, children: &[u16]) -> Extent
    ensures { result ≡ fold (λ e c. joined e (extent_at records.now.slots c)) start children.now }
{
    let mut extent = start;
    for child in children {
        extent = extent.over(extent_at(records, *child));
    }
    extent
}

/// The height of a node with these children, of which it is known that it is not above `most`. It ends at the first child
/// with which `most` is met.
fn height_within(records: &Records, most: u32, children: &[u16]) -> u32
    requires { (reckoned (extent_at records.now.slots) children.now).height ≤ most }
    ensures { result ≡ (reckoned (extent_at records.now.slots) children.now).height }
{
    let mut extent = LEAF;
    for child in children {
        extent = extent.over(extent_at(records, *child));
        if extent.height >= most {
            return extent.height;
        }
    }
    extent.height
}

/// The extent of a parent with one more child.
pub(crate) fn lengthened_extent(records: &Records, parent: u16, child: u16) -> Extent
    ensures { result ≡ joined (extent_at records.now.slots parent) (extent_at records.now.slots child) }
{
    extent_at(records, parent).over(extent_at(records, child))
}

/// The extent of a parent without a child, from that of before; these children are left.
pub(crate) fn shortened_extent(records: &Records, parent: u16, child: u16, left: &[u16]) -> Extent
    requires before { extent_at records.now.slots parent
        ≡ joined (reckoned (extent_at records.now.slots) left.now) (extent_at records.now.slots child) }
    requires small { (extent_at records.now.slots parent).size ≤ 131072 }
    ensures { result ≡ reckoned (extent_at records.now.slots) left.now }
{
    let before = extent_at(records, parent);
    let height = height_within(records, before.height, left);
    let size = before.size - extent_at(records, child).size;
    Extent { height, size }
}

/// The extent of a node with these children.
pub(crate) fn over_children(records: &Records, children: &[u16]) -> Extent
    ensures { result ≡ reckoned (extent_at records.now.slots) children.now }
{
    over_more(records, LEAF, children)
}

/// The extent of a node with children of which one is another.
pub(crate) fn over_swapped(records: &Records, children: &[u16], place: usize, by: u16) -> Extent
    requires { place < length children.now }
    ensures { result ≡ reckoned (extent_at records.now.slots) (slice_set children.now place by) }
{
    let front = over_children(records, &children[..place]);
    let middle = front.over(extent_at(records, by));
    over_more(records, middle, &children[place + 1..])
}

/// The extent of a node from those of its children.
fn reckoned(records: &Records, id: u16) -> Extent
    ensures { result ≡ reckoned (extent_at records.now.slots) (children_of (look_of records.now.slots) id) }
{
    match records.find(id) {
        Some(record) => over_children(records, record.node.children.as_slice()),
        None => LEAF,
    }
}

/// Reckons the extent of a node anew.
pub(crate) fn reckon(records: &mut Records, id: u16)
    ensures nodes { (b : ℕ) → look_of records.new.slots b ≡ look_of records.old.slots b }
    ensures parents { (b : ℕ) → parents_of records.new.slots b ≡ parents_of records.old.slots b }
    ensures extents { (b : ℕ) → extent_at records.new.slots b
        ≡ (if b == id then reckoned (extent_at records.old.slots) (children_of (look_of records.old.slots) id)
        else extent_at records.old.slots b) }
{
    let extent = reckoned(records, id);
    records.set_extent(id, extent);
}

/// What the sizes of children on a way add up to now and did before, and whether all their heights are as before.
#[derive(Clone, Copy)]
struct Change {
    gain: u64,
    loss: u64,
    level: bool,
}

impl Change {
    /// Whether all heights are as before, also that of one more child.
    fn stays_level(self, before: Extent, now: Extent) -> bool
        ensures level { result ≡ true → self.level ≡ true }
        ensures height { result ≡ true → before.height ≡ now.height }
    {
        self.level && before.height == now.height
    }
}

/// A change with that of one more child, if it is on a way.
fn changed_by(records: &Records, way: &Way, child: u16, change: Change) -> Change
    requires gain { change.gain ≤ 2 ^ 42 }
    requires loss { change.loss ≤ 2 ^ 42 }
    ensures gain { result.gain
        ≡ change.gain + (if is_in child way.now then (extent_at records.now.slots child).size else 0) }
    ensures loss { result.loss
        ≡ change.loss + (if is_in child way.now then (before_at records.now.slots child).size else 0) }
    ensures level { result.level ≡ true
        → (counted_at records.now.slots way.now child).height ≡ (extent_at records.now.slots child).height }
    ensures before { result.level ≡ true → change.level ≡ true }
    ensures gain_bound { result.gain ≤ change.gain + 2 ^ 32 }
    ensures loss_bound { result.loss ≤ change.loss + 2 ^ 32 }
{
    if !way.contains(child) {
        return change;
    }
    let now = extent_at(records, child);
    let before = before_at(records, child);
    Change {
        gain: change.gain + u64::from(now.size),
        loss: change.loss + u64::from(before.size),
        level: change.stays_level(before, now),
    }
}

/// What changed of the extents of these children along a way.
fn change_along(records: &Records, way: &Way, children: &[u16]) -> Change
    requires { length children.now ≤ 256 }
    ensures gain { result.gain
        ≡ sum_by (λ c. if is_in c way.now then (extent_at records.now.slots c).size else 0) children.now }
    ensures loss { result.loss
        ≡ sum_by (λ c. if is_in c way.now then (before_at records.now.slots c).size else 0) children.now }
    ensures level { result.level ≡ true → (c : ℕ) → is_in c children.now ≡ true
        → (counted_at records.now.slots way.now c).height ≡ (extent_at records.now.slots c).height }
    ensures bound { result.gain ≤ 2 ^ 40 }
{
    let mut change = Change {
        gain: 0,
        loss: 0,
        level: true,
    };
    for child in children {
        change = changed_by(records, way, *child, change);
    }
    change
}

/// The extent of a node with these children, from the one that it had before those of them on a way changed. Sizes on
/// the way are added and taken off. All children are gone through only where that does not tell the extent: if a height
/// changed, or if the size of before stands at its cap.
fn changed_extent(records: &Records, way: &Way, before: Extent, children: &[u16]) -> Extent
    requires bound { length children.now ≤ 256 }
    requires before { before ≡ reckoned (counted_at records.now.slots way.now) children.now }
    ensures { result ≡ reckoned (extent_at records.now.slots) children.now }
{
    let change = change_along(records, way, children);
    if change.level && before.size <= 131_072 {
        before.resized(change.gain, change.loss)
    } else {
        over_children(records, children)
    }
}

/// The extent of a node whose children on a way have changed since it was computed.
fn extent_along(records: &Records, way: &Way, id: u16) -> Extent
    requires { extent_at records.now.slots id
        ≡ reckoned (counted_at records.now.slots way.now) (children_of (look_of records.now.slots) id) }
    ensures { result ≡ reckoned (extent_at records.now.slots) (children_of (look_of records.now.slots) id) }
{
    match records.find(id) {
        Some(record) => changed_extent(
            records,
            way,
            record.extent,
            record.node.children.as_slice(),
        ),
        None => LEAF,
    }
}

/// Brings the extent of a node up to date, whose children on a way have changed since it was computed.
fn update_along(records: &mut Records, way: &Way, id: u16)
    requires { extent_at records.old.slots id
        ≡ reckoned (counted_at records.old.slots way.now) (children_of (look_of records.old.slots) id) }
    ensures nodes { (b : ℕ) → look_of records.new.slots b ≡ look_of records.old.slots b }
    ensures parents { (b : ℕ) → parents_of records.new.slots b ≡ parents_of records.old.slots b }
    ensures extents { (b : ℕ) → extent_at records.new.slots b
        ≡ (if b == id then reckoned (extent_at records.old.slots) (children_of (look_of records.old.slots) id)
        else extent_at records.old.slots b) }
    ensures before { (b : ℕ) → before_at records.new.slots b
        ≡ (if b == id then extent_at records.old.slots id else before_at records.old.slots b) }
{
    let extent = extent_along(records, way, id);
    records.set_extent(id, extent);
}

/// Brings the extent of a node up to date along a way, but for one node.
fn update_other(records: &mut Records, way: &Way, at: u16, id: u16)
    requires { (at == id) ≡ false → extent_at records.old.slots at
        ≡ reckoned (counted_at records.old.slots way.now) (children_of (look_of records.old.slots) at) }
    ensures nodes { (b : ℕ) → look_of records.new.slots b ≡ look_of records.old.slots b }
    ensures parents { (b : ℕ) → parents_of records.new.slots b ≡ parents_of records.old.slots b }
    ensures same { (at == id) ≡ true → records.new ≡ records.old }
    ensures extents { (at == id) ≡ false → (b : ℕ) → extent_at records.new.slots b
        ≡ (if b == at then reckoned (extent_at records.old.slots) (children_of (look_of records.old.slots) at)
        else extent_at records.old.slots b) }
    ensures before { (at == id) ≡ false → (b : ℕ) → before_at records.new.slots b
        ≡ (if b == at then extent_at records.old.slots at else before_at records.old.slots b) }
{
    if at != id {
        update_along(records, way, at);
    }
}

/// Brings extents up to date along a way, from its end to its start, but for one node, whose extent was set before.
pub(crate) fn update_others(records: &mut Records, way: &Way, id: u16)
    requires leads { LeadUp (look_of records.old.slots) way.now }
    requires member { is_in id way.now ≡ true }
    requires meets { MeetBut (look_of records.old.slots) (λ b. if b == id then before_at records.old.slots b
        else extent_at records.old.slots b) (id ∷ []) }
    ensures meets { MeetBut (look_of records.new.slots) (extent_at records.new.slots) (id ∷ []) }
    ensures nodes { (b : ℕ) → look_of records.new.slots b ≡ look_of records.old.slots b }
    ensures parents { (b : ℕ) → parents_of records.new.slots b ≡ parents_of records.old.slots b }
    ensures others { (b : ℕ) → is_in b way.now ≡ false → extent_at records.new.slots b ≡ extent_at records.old.slots b }
    ensures kept { extent_at records.new.slots id ≡ extent_at records.old.slots id }
{
    let ids = way.as_slice();
    let mut left = ids.len();
    while left > 0 {
        left -= 1;
        update_other(records, way, ids[left], id);
    }
}

/// Sets the extent of a node on a way, and brings those of the other nodes along it up to date, from its end to its
/// start.
pub(crate) fn set_along(records: &mut Records, way: &Way, id: u16, extent: Extent)
    requires there { is_some (look_of records.old.slots id) ≡ true }
    requires leads { LeadUp (look_of records.old.slots) way.now }
    requires member { is_in id way.now ≡ true }
    requires meets { MeetBut (look_of records.old.slots) (extent_at records.old.slots) (id ∷ []) }
    ensures meets { MeetBut (look_of records.new.slots) (extent_at records.new.slots) (id ∷ []) }
    ensures extent { extent_at records.new.slots id ≡ extent }
    ensures nodes { (b : ℕ) → look_of records.new.slots b ≡ look_of records.old.slots b }
    ensures parents { (b : ℕ) → parents_of records.new.slots b ≡ parents_of records.old.slots b }
    ensures others { (b : ℕ) → is_in b way.now ≡ false → extent_at records.new.slots b ≡ extent_at records.old.slots b }
{
    records.set_extent(id, extent);
    update_others(records, way, id);
}

/// The greatest height and the greatest size along a way.
pub(crate) fn greatest_along(records: &Records, way: &[u16]) -> Extent
    ensures height { result.height ≡ greatest (map (λ b. (extent_at records.now.slots b).height) way.now) }
    ensures size { result.size ≡ greatest (map (λ b. (extent_at records.now.slots b).size) way.now) }
{
    let mut extent = Extent { height: 0, size: 0 };
    for id in way {
        extent = extent.or(extent_at(records, *id));
    }
    extent
}

/// Whether it is sure that no limit is passed on a way on which the extent of one node changes: heights grow by no more
/// than that node's own, and sizes by no greater factor.
pub(crate) fn has_room(records: &Records, way: &[u16], before: Extent, after: Extent) -> bool
    ensures low { result ≡ true → greatest (map (λ b. (extent_at records.now.slots b).height) way.now)
        + (after.height - before.height) ≤ 32 }
    ensures small { result ≡ true → greatest (map (λ b. (extent_at records.now.slots b).size) way.now)
        * max before.size after.size ≤ 131072 * before.size }
{
    let greatest = greatest_along(records, way);
    let height = u64::from(greatest.height) + u64::from(after.height.saturating_sub(before.height));
    let most = before.or(after).size;
    height <= 32 && u64::from(greatest.size) * u64::from(most) <= 131_072 * u64::from(before.size)
}
