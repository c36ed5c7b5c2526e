//! Laws of pictures that the renderers above rest on: functions that do nothing, whose contracts are the laws.
ghost use Rattle.std.specs.Prelude.{◌≡◌, ℕ, List, filter, Bool, Option, Some, None};
ghost use Rattle.std.specs.List.{AllZip};
ghost use Rattle.std.specs.List.Sorted.{IsPermutation};
ghost use Rattle.fx_math.specs.declared.lenses.Lens.{Lens};
ghost use Rattle.pf_model.specs.Walks.{Instance};
ghost use Rattle.tri_cover.specs.Parts.{opaque_parts, fragment_standing, IsFirstHit};
ghost use Rattle.tri_cover.specs.Picture.{Fragment, opaque_fragments, nearest_opaque};
ghost use Rattle.tri_cover.specs.Orders.{PlacesDiffer, KeysDiffer, AreDrawnAlike, HaveOneColour, HaveOnePicture};
ghost use Rattle.tri_cover.specs.Leasts.{IsLeast, IsNearest};
ghost use Rattle.tri_cover.specs.Labels.{IsRelabelled, IsSeenAlike, PlacesAgree, PlacesRise, renumbered};
ghost use Rattle.tri_cover.specs.LeftOut.{IsMissed, HasNoHit, LeavesOutNoHit};

/// Where no place stands twice in a list of instances, no two hits at a pixel have the same key, and the list has the
/// same opaque fragments, the same order of glass and so the same picture in whatever order it stands.
pub fn order_of_instances()
    ensures keys { (xs : List Instance) → PlacesDiffer xs → KeysDiffer xs }
    ensures order { (xs ys : List Instance) → PlacesDiffer xs → IsPermutation xs ys → AreDrawnAlike xs ys }
    ensures differ { (xs : List Instance) → PlacesRise xs → PlacesDiffer xs }
{}

/// The opaque fragment that is drawn at a pixel is the first, as the list stands, of those of least key, and it is the
/// only one; this holds of every list, also where keys are equal. Where no place stands twice, the least key has one
/// fragment, so that any fragment of the list of which none is less is the one that is drawn. Triangles may be looked at
/// one by one and in any order, where each is known by the place at which it stands among those of all instances.
pub fn opaque_fragment_drawn()
    ensures first { (lens : Lens) (px py : ℕ) (xs : List Instance)
        → IsNearest (opaque_fragments lens px py xs) (nearest_opaque lens px py xs) }
    ensures only { (lens : Lens) (px py : ℕ) (xs : List Instance) (o : Option Fragment)
        → IsNearest (opaque_fragments lens px py xs) o → o ≡ nearest_opaque lens px py xs }
    ensures least { (lens : Lens) (px py : ℕ) (xs : List Instance) (f : Fragment) → PlacesDiffer xs
        → IsLeast (opaque_fragments lens px py xs) f → nearest_opaque lens px py xs ≡ Some f }
    ensures by_triangle { (lens : Lens) (px py : ℕ) (xs : List Instance) (i : ℕ) (f : Fragment)
        → IsFirstHit lens px py (opaque_parts xs) i f → nearest_opaque lens px py xs ≡ Some f }
    ensures none { (lens : Lens) (px py : ℕ) (xs : List Instance)
        → ((i : ℕ) → fragment_standing lens px py (opaque_parts xs) i ≡ None) → nearest_opaque lens px py xs ≡ None }
{}

/// A picture depends on the order of the places of its instances, and neither on their numbers nor on ids and states;
/// of triangles and steps it sees no more than the hits. So lists whose instances look alike one by one at a pixel, and
/// whose places are in the same order, have one colour there.
pub fn labels_of_instances()
    ensures seen { (lens : Lens) (px py : ℕ) (xs ys : List Instance)
        → AllZip (IsSeenAlike lens px py) xs ys → PlacesAgree xs ys → HaveOneColour lens px py xs ys }
    ensures agree { (xs ys : List Instance) → AllZip IsRelabelled xs ys → PlacesAgree xs ys → HaveOnePicture xs ys }
    ensures rise { (xs ys : List Instance) → AllZip IsRelabelled xs ys → PlacesRise xs → PlacesRise ys
        → HaveOnePicture xs ys }
{}

/// Where each instance that a test leaves out of a list hits nothing at a pixel, the pixel has the same colour without
/// them. The places of the instances that stay are what they were, and the background is any.
pub fn instances_left_out()
    ensures pixel { (lens : Lens) (px py : ℕ) (keep : Instance → Bool) (xs : List Instance)
        → LeavesOutNoHit lens px py keep xs → HaveOneColour lens px py xs (filter keep xs) }
    ensures missed { (lens : Lens) (px py : ℕ) (x : Instance) → IsMissed lens px py x → HasNoHit lens px py x }
{}

/// A list whose places rise may be cut of instances that hit nothing at a pixel, numbered anew, and put in any order:
/// the pixel has the same colour. What is drawn in place of the instances that stay may be any instances that look like
/// them there, with places that rise, as the same triangles carried to the eye.
pub fn culled_in_any_order()
    ensures numbered { (lens : Lens) (px py : ℕ) (keep : Instance → Bool) (xs ys : List Instance)
        → PlacesRise xs → LeavesOutNoHit lens px py keep xs → IsPermutation (renumbered (filter keep xs)) ys
        → HaveOneColour lens px py xs ys }
    ensures alike { (lens : Lens) (px py : ℕ) (keep : Instance → Bool) (xs zs ys : List Instance)
        → PlacesRise xs → LeavesOutNoHit lens px py keep xs
        → AllZip (IsSeenAlike lens px py) (filter keep xs) zs → PlacesRise zs → IsPermutation zs ys
        → HaveOneColour lens px py xs ys }
{}
