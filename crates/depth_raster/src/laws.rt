//! Laws of the pieces of a draw list: a function that does nothing, whose contract is the laws.
ghost use Rattle.std.specs.Prelude.{◌≡◌, true, List, [], ◌∷◌, ◌++◌, filter};
ghost use Rattle.std.specs.List.{list_any};
ghost use Rattle.pf_model.specs.Walks.{Instance};
ghost use Rattle.tri_cover.specs.Glass.{is_opaque, is_glass, is_drawn_before};
ghost use Rattle.tri_cover.specs.Sorting.{sorted};
ghost use Rattle.depth_raster.specs.InPieces.{joined, glass_in_turn, IsGlassInOrder, IsGlassLast};

/// A piece more adds its instances, and its glass in its order. Where the glass of all pieces stands in the order in which it
/// is drawn, the glass of each piece in its order, piece after piece, is that of all in theirs. Where no opaque instance stands
/// after glass, none is in the pieces after the first glass.
pub fn pieces_of_a_list()
    ensures more { (pieces : List (List Instance)) (xs : List Instance)
        → joined (pieces ++ xs ∷ []) ≡ joined pieces ++ xs }
    ensures glass_more { (pieces : List (List Instance)) (xs : List Instance)
        → glass_in_turn (pieces ++ xs ∷ []) ≡ glass_in_turn pieces ++ sorted is_drawn_before (filter is_glass xs) }
    ensures adds_up { (pieces : List (List Instance)) → IsGlassInOrder (joined pieces)
        → glass_in_turn pieces ≡ sorted is_drawn_before (filter is_glass (joined pieces)) }
    ensures glass_last { (xs ys : List Instance) → IsGlassLast (xs ++ ys) → list_any is_glass xs ≡ true
        → filter is_opaque ys ≡ [] }
{}
