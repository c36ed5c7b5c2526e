//! Laws of hits: functions that do nothing, whose contracts are the laws.
ghost use Rattle.std.specs.Prelude.{◌≡◌, ◌↔◌, ℕ, [], filter, true, false, IsSome};
ghost use Rattle.fx_math.specs.Plain.{Point, Bounds, IsBox, Holds};
ghost use Rattle.pf_model.specs.Angles.{Viewpoint};
ghost use Rattle.pf_model.specs.Graphs.{Look};
ghost use Rattle.pf_model.specs.Walks.{Instance, instances};
ghost use Rattle.nearest_hit.specs.declared.segment.Segment.{Segment};
ghost use Rattle.nearest_hit.specs.Segments.{box_around, crossing_time};
ghost use Rattle.nearest_hit.specs.Touch.{touch, HaveCommonPoint};
ghost use Rattle.nearest_hit.specs.Nearest.{hits_of, nearest_of, nearest, is_instance_near};

/// Boxes touch exactly where they have a common point.
pub fn boxes_that_touch_have_a_common_point()
    ensures { (b c : Bounds) → IsBox b → IsBox c → (touch b c ≡ true) ↔ HaveCommonPoint b c }
{}

/// Where a segment crosses a triangle, each box that holds the triangle's vertices has a point in common with the box
/// around the segment.
pub fn hits_lie_in_both_boxes()
    ensures { (s : Segment) → (u v w : Point) → (b : Bounds) → Holds b u → Holds b v → Holds b w
        → IsSome (crossing_time s u v w) → touch (box_around s) b ≡ true }
{}

/// An instance whose eye box is not near the segment, or that has none, has no hit; so the nearest hit is the same where
/// such instances are passed by.
pub fn instances_not_near_may_be_passed_by()
    ensures none { (s : Segment) → (x : Instance) → is_instance_near s x ≡ false → hits_of s x ≡ [] }
    ensures nearest { (look : Look) → (time : ℕ) → (v : Viewpoint) → (s : Segment)
        → nearest_of s (filter (is_instance_near s) (instances look time v)) ≡ nearest look time v s }
{}
