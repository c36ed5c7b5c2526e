//! Laws of culling: functions that do nothing, whose contracts are the laws.
ghost use Rattle.std.specs.Prelude.{◌≡◌, ℕ, ◌<◌, true, List, filter};
ghost use Rattle.std.specs.List.Sorted.{IsPermutation, IsSortedBy};
ghost use Rattle.fx_math.specs.declared.lenses.Lens.{Lens};
ghost use Rattle.pf_model.specs.Angles.{Viewpoint};
ghost use Rattle.pf_model.specs.Graphs.{Look};
ghost use Rattle.pf_model.specs.Walks.{Instance, instance_box, instances};
ghost use Rattle.draw_list.specs.Order.{draw_order, in_draw_order};
ghost use Rattle.draw_list.specs.Shown.{is_off, shown, draw_list};
ghost use Rattle.tri_cover.specs.Labels.{PlacesRise, renumbered};
ghost use Rattle.tri_cover.specs.LeftOut.{IsMissed};
ghost use Rattle.cull_walk.specs.Culling.{is_instance_in_sight, HaveOnePictureThrough};

/// No pixel is hit by an instance whose own eye box is outside the frustum, or that has no box.
pub fn instances_outside_hit_nothing()
    ensures { (lens : Lens) → (x : Instance) → is_off lens (instance_box x) ≡ true
        → (px py : ℕ) → px < lens.w → py < lens.h → IsMissed lens px py x }
{}

/// What is shown are the instances of the whole walk that are in sight, numbered anew; their places rise.
pub fn shown_instances_are_those_in_sight()
    ensures are { (look : Look) → (time : ℕ) → (v : Viewpoint) → (lens : Lens)
        → shown look time v lens ≡ renumbered (filter (is_instance_in_sight lens) (instances look time v)) }
    ensures rise { (look : Look) → (time : ℕ) → (v : Viewpoint) → (lens : Lens) → PlacesRise (shown look time v lens) }
{}

/// The picture of the draw list is the picture of the whole walk, of what is opaque and of glass; and so is that of
/// what is shown in any other order.
pub fn culling_keeps_the_picture()
    ensures list { (look : Look) → (time : ℕ) → (v : Viewpoint) → (lens : Lens)
        → HaveOnePictureThrough lens (instances look time v) (draw_list look time v lens) }
    ensures any_order { (look : Look) → (time : ℕ) → (v : Viewpoint) → (lens : Lens) → (ys : List Instance)
        → IsPermutation (shown look time v lens) ys → HaveOnePictureThrough lens (instances look time v) ys }
{}

/// Instances whose places rise have one order in which they are drawn.
pub fn draw_order_is_one()
    ensures { (xs ys : List Instance) → PlacesRise xs → IsPermutation xs ys → IsSortedBy draw_order ys
        → ys ≡ in_draw_order xs }
{}
