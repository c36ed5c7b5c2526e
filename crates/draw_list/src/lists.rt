//! Draw lists.
ghost use Rattle.std.specs.Prelude.{◌≡◌, ℕ, ◌+◌, ◌^◌, ◌<◌, ◌≤◌, [], ◌∷◌, None, if◌then◌else◌, ◌==◌, nat_lt, max, length, slice_get, is_ok, IfErr, IfSome, OnOk};
ghost use Rattle.std.specs.Option.{option_copied};
ghost use Rattle.std.specs.List.Sorted.{IsPermutation, IsSortedBy};
ghost use Rattle.fx_math.specs.Views.{point_of, bounds_of};
ghost use Rattle.fx_math.specs.Fixed.{carry, carry_box};
ghost use Rattle.pf_model.specs.Angles.{home_view};
ghost use Rattle.pf_model.specs.Kinds.{pose_steps};
ghost use Rattle.pf_model.specs.Walks.{steps_of_view};
ghost use Rattle.draw_list.specs.Order.{draw_order, state_count};
ghost use Rattle.draw_list.specs.Joints.{steps_at, with_joint};
ghost use Rattle.draw_list.specs.Items.{with_item, tris_at};
ghost use Rattle.draw_list.specs.Kept.{span_at, kept_span, with_kept};
ghost use Rattle.draw_list.specs.Lists.{instances_in};

use crate::item_list::Items;
use crate::items::{Item, Span};
use crate::joints::Joints;
use crate::kept::Kept;
use fx_math::{Box3, Vec3};
use pf_io::NoMemory;
use pf_model::{Geom, Pose, Tri, View};
use std::alloc::Global;
use std::marker::Model;

/// What a channel draws: items, the joints that carry them to the eye, and their triangles, which are kept once per geode.
/// A joint is one pose above another joint; the joint 0 is the view. Only `reserve` takes memory.
#[derive(Debug)]
pub struct DrawList {
    joints: Joints,
    items: Items,
    kept: Kept,
}

/// Written out, so that to drop one is a single call.
impl Drop for DrawList {
    fn drop(self) {
        let Self {
            joints: _,
            items: _,
            kept: _,
        } = self;
    }
}

impl Model for DrawList {
    ghost use Rattle.draw_list.specs.Lists.{Drawables, HaveJoints};

    ghost Value = { Drawables };

    ghost view = { λ d. record { joints = d.joints; items = d.items; kept = d.kept } };

    ghost invariant = { λ d. HaveJoints d.joints d.items.items };
}

impl DrawList {
    /// A list with no items, no triangles and the joint 0 alone, the view of zeros; there is no room.
    pub fn new(alloc: Global) -> DrawList
        ensures joints { result.joints ≡ record { lists = steps_of_view home_view ∷ []; spare = 0 } }
        ensures items { result.items ≡ record { items = []; spare = 0 } }
        ensures kept { result.kept ≡ record { tris = []; spans = []; spare = 0 } }
    {
        DrawList {
            joints: Joints::new(alloc),
            items: Items::new(alloc),
            kept: Kept::new(alloc),
        }
    }

    /// How many more items have room.
    pub fn spare(&self) -> usize
        ensures { result ≡ self.now.items.spare }
    {
        self.items.spare()
    }

    /// How many more joints have room.
    pub fn spare_joints(&self) -> usize
        ensures { result ≡ self.now.joints.spare }
    {
        self.joints.spare()
    }

    /// How many more triangles have room.
    pub fn spare_tris(&self) -> usize
        ensures { result ≡ self.now.kept.spare }
    {
        self.kept.spare()
    }

    /// Makes room for `n` more items, for `n` more joints and for `t` more triangles, and for no more than these where it
    /// was missing. The list stays.
    pub fn reserve(&mut self, n: usize, t: usize) -> Result<(), NoMemory>
        ensures items { OnOk result (n ≤ self.new.items.spare) }
        ensures joints { OnOk result (n ≤ self.new.joints.spare) }
        ensures tris { OnOk result (t ≤ self.new.kept.spare) }
        ensures more_items { self.old.items.spare ≤ self.new.items.spare }
        ensures more_joints { self.old.joints.spare ≤ self.new.joints.spare }
        ensures more_tris { self.old.kept.spare ≤ self.new.kept.spare }
        ensures few_items { self.new.items.spare ≤ max self.old.items.spare n }
        ensures few_joints { self.new.joints.spare ≤ max self.old.joints.spare n }
        ensures few_tris { self.new.kept.spare ≤ max self.old.kept.spare t }
        ensures same_items { self.new.items.items ≡ self.old.items.items }
        ensures same_joints { self.new.joints.lists ≡ self.old.joints.lists }
        ensures same_tris { self.new.kept.tris ≡ self.old.kept.tris }
        ensures same_spans { (id : ℕ) → span_at self.new.kept id ≡ span_at self.old.kept id }
    {
        self.joints.reserve(n)?;
        self.items.reserve(n)?;
        self.kept.reserve(t)?;
        Ok(())
    }

    /// Leaves no items, no triangles and the joint 0 alone, with the steps of this view. The room stays.
    pub fn clear(&mut self, view: &View)
        ensures joints { self.new.joints.lists ≡ steps_of_view view.now ∷ [] }
        ensures items { self.new.items.items ≡ [] }
        ensures tris { self.new.kept.tris ≡ [] }
        ensures spans { (id : ℕ) → span_at self.new.kept id ≡ None }
        ensures places { 0 < self.new.kept.spare → length self.new.kept.spans ≡ 65536 }
        ensures span_count { length self.new.kept.spans ≡ length self.old.kept.spans }
        ensures joint_room { self.new.joints.spare + 1 ≡ self.old.joints.spare + length self.old.joints.lists }
        ensures item_room { self.new.items.spare ≡ self.old.items.spare + length self.old.items.items }
        ensures tri_room { self.new.kept.spare ≡ self.old.kept.spare + length self.old.kept.tris }
    {
        self.items.clear();
        self.joints.clear(view);
        self.kept.clear();
    }

    /// Appends a joint of this pose above the joint `up`, and answers its number. Where no room is left, it answers the
    /// pose and changes nothing.
    pub fn push_joint(&mut self, up: u32, pose: Pose) -> Result<u32, Pose>
        requires { up < length self.old.joints.lists }
        ensures answer { result ≡ (if self.old.joints.spare == 0 then Err pose else Ok (length self.old.joints.lists)) }
        ensures list { self.new ≡ record self.old { joints = with_joint up (pose_steps pose) self.old.joints } }
    {
        self.joints.push(up, pose)
    }

    /// Appends an item. Where no room is left, it answers the item and changes nothing.
    pub fn push_reserved(&mut self, item: Item) -> Result<(), Item>
        requires { item.joint < length self.old.joints.lists }
        ensures room { is_ok result ≡ nat_lt 0 self.old.items.spare }
        ensures back { IfErr result (λ back. back ≡ item) }
        ensures list { self.new ≡ record self.old { items = with_item item self.old.items } }
    {
        self.items.push(item)
    }

    /// Keeps the triangles of a geode, once per id since `clear`, and answers where they stand. None where they are not
    /// kept yet and have no room; nothing is changed then.
    pub fn keep(&mut self, id: u16, geom: &Geom) -> Option<Span>
        ensures span { result ≡ kept_span id geom.now self.old.kept }
        ensures list { self.new ≡ record self.old { kept = with_kept id geom.now self.old.kept } }
    {
        self.kept.keep(id, geom)
    }

    /// The triangle of a number in a span; None past the span's end, and where the span goes past the triangles kept.
    pub fn tri(&self, s: Span, i: u32) -> Option<Tri>
        ensures { result ≡ slice_get (tris_at self.now.kept.tris s) i }
    {
        self.kept.tri(s, i)
    }

    /// Sorts the items in the order in which they are drawn: opaque ones by rising state and place, and then glass by
    /// falling distance and rising place. It answers the number of states.
    pub fn order(&mut self) -> u32
        ensures states { result ≡ state_count (instances_in self.old) }
        ensures sorted { IsSortedBy draw_order (instances_in self.new) }
        ensures permutation { IsPermutation (instances_in self.old) (instances_in self.new) }
        ensures items { IsPermutation self.old.items.items self.new.items.items }
        ensures room { self.new.items.spare ≡ self.old.items.spare }
        ensures joints { self.new.joints ≡ self.old.joints }
        ensures kept { self.new.kept ≡ self.old.kept }
    {
        let states = self.items.states();
        self.items.order();
        states
    }

    /// The number of different states of the opaque items; they are counted as they are appended.
    pub fn states(&self) -> u32
        ensures { result ≡ state_count (instances_in self.now) }
    {
        self.items.states()
    }

    /// The number of items.
    pub fn len(&self) -> usize
        ensures value { result ≡ length self.now.items.items }
        ensures bound { result < 2 ^ 32 }
    {
        self.items.len()
    }

    /// The item at a place, or none past the end.
    pub fn item(&self, i: usize) -> Option<&Item>
        ensures value { option_copied result ≡ slice_get self.now.items.items i }
        ensures joint { IfSome result (λ item. item.now.joint < length self.now.joints.lists) }
    {
        self.items.get(i)
    }

    /// A point of a joint's coordinates in eye coordinates: after the steps of the joint, and of those above it.
    pub fn eye(&self, joint: u32, v: Vec3) -> Vec3
        requires { joint < length self.now.joints.lists }
        ensures { point_of result ≡ carry (steps_at self.now.joints.lists joint) (point_of v) }
    {
        self.joints.eye(joint, v)
    }

    /// A box of a joint's coordinates in eye coordinates.
    pub fn eye_box(&self, joint: u32, b: &Box3) -> Box3
        requires { joint < length self.now.joints.lists }
        ensures { bounds_of result ≡ carry_box (steps_at self.now.joints.lists joint) (bounds_of b.now) }
    {
        self.joints.eye_box(joint, b)
    }
}
