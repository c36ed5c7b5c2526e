//! Laws of graphs, walks and boxes that the crates above rest on: functions that do nothing, whose contracts are the laws.
ghost use Rattle.std.specs.Prelude.{◌≡◌, ◌+◌, ◌==◌, ◌<◌, ◌↔◌, ℕ, true, false, min, map, sum, length, List, Option};
ghost use Rattle.std.specs.List.{AllByRecursion, list_all, range_with_len};
ghost use Rattle.fx_math.specs.Plain.{Bounds};
ghost use Rattle.pf_model.specs.declared.edits.Edit.{Edit};
ghost use Rattle.pf_model.specs.Graphs.{Look, Nodes, SceneGraph, node_at, empty_scene, height_of, size_of, is_below};
ghost use Rattle.pf_model.specs.Limits.{IsRising, IsGraphWithinLimits};
ghost use Rattle.pf_model.specs.Edits.{after, effect};
ghost use Rattle.pf_model.specs.Merges.{after_all};
ghost use Rattle.pf_model.specs.Fits.{fits};
ghost use Rattle.pf_model.specs.Copies.{named_by};
ghost use Rattle.pf_model.specs.Boxes.{AreBoxes, box_of};
ghost use Rattle.pf_model.specs.Walks.{Occurrence, instances_of};
ghost use Rattle.pf_model.specs.Laws.{AreLow, IsAcyclic, LevelsSuffice, BoxesNest, LooksAgree};
ghost use Rattle.pf_model.specs.Laws.{AreHeights, AreSizes, AgreeBut, AgreeAt, HasChildAbove, HasParentBelow};
ghost use Rattle.pf_model.specs.Laws.{IsEdited, HasNodeBox};
ghost use Rattle.pf_model.specs.Totals.{triangles_of, triangle_count};

/// Where no chain has more than 32 nodes, no node is below itself.
pub fn low_graphs_have_no_cycle()
    ensures { (look : Look) → AreLow look → IsAcyclic look }
{}

/// Where no chain has more than 32 nodes, more levels change nothing.
pub fn levels_suffice()
    ensures { (look : Look) → AreLow look → LevelsSuffice look }
{}

/// Where no chain has more than 32 nodes, the box of a node contains the boxes of its children, carried through its
/// steps.
pub fn boxes_nest()
    ensures { (look : Look) → AreLow look → BoxesNest look }
{}

/// Look-ups that find the same nodes give the same heights, sizes, nodes below, boxes, walks and instances.
pub fn equal_looks_agree()
    ensures { (f : Look) → (g : Look) → ((id : ℕ) → f id ≡ g id) → LooksAgree f g }
{}

/// The empty scene is within the limits; an edit that fits, a merge of such edits and the next frame keep a graph there.
pub fn graphs_stay_within_limits()
    ensures empty { IsGraphWithinLimits empty_scene }
    ensures edit { (g : SceneGraph) → (e : Edit) → IsGraphWithinLimits g → fits e ≡ true
        → IsGraphWithinLimits (after g e) }
    ensures merge { (g : SceneGraph) → (es : List Edit) → IsGraphWithinLimits g → list_all fits es ≡ true
        → IsGraphWithinLimits (after_all g es) }
    ensures frame { (g : SceneGraph) → IsGraphWithinLimits g
        → IsGraphWithinLimits (record g { time = g.time + 1 }) }
{}

/// An edit changes the node that it names and no other, and keeps the ids in rising order.
pub fn edits_change_what_they_name()
    ensures others { (g : SceneGraph) → (e : Edit) → (b : ℕ) → IsRising (map (λ x. x.0) g.nodes)
        → (b == named_by e) ≡ false → node_at (effect g e).nodes b ≡ node_at g.nodes b }
    ensures order { (g : SceneGraph) → (e : Edit) → IsRising (map (λ x. x.0) g.nodes)
        → IsRising (map (λ x. x.0) (effect g e).nodes) }
{}

/// Nodes in rising order of their ids are equal where the same are found under each id.
pub fn equal_looks_are_equal_nodes()
    ensures { (xs : Nodes) → (ys : Nodes) → IsRising (map (λ x. x.0) xs) → IsRising (map (λ x. x.0) ys)
        → ((b : ℕ) → node_at xs b ≡ node_at ys b) → xs ≡ ys }
{}

/// Where no chain has more than 32 nodes, heights, sizes and boxes meet their recursions, and nothing else does.
/// Heights that meet theirs in any graph are those of the definition up to 4,097.
pub fn recursions_have_one_solution()
    ensures meet { (look : Look) → AreLow look
        → AreHeights look (height_of look) × AreSizes look (size_of look) × AreBoxes look (box_of look) }
    ensures heights { (look : Look) → (heights : ℕ → ℕ) → AreLow look → AreHeights look heights
        → (id : ℕ) → heights id ≡ height_of look id }
    ensures sizes { (look : Look) → (sizes : ℕ → ℕ) → AreLow look → AreSizes look sizes
        → (id : ℕ) → sizes id ≡ size_of look id }
    ensures boxes { (look : Look) → (boxes : ℕ → Option Bounds) → AreLow look → AreBoxes look boxes
        → (id : ℕ) → boxes id ≡ box_of look id }
    ensures bounded { (look : Look) → (heights : ℕ → ℕ) → AreHeights look heights
        → (id : ℕ) → height_of look id ≡ min 4097 (heights id) }
{}

/// Look-ups that find the same but under one id agree at each node that is neither this one nor above it.
pub fn a_change_is_seen_above_it_alone()
    ensures { (f : Look) → (g : Look) → (b : ℕ) → AgreeBut b f g → (id : ℕ) → (id == b) ≡ false
        → is_below f id b ≡ false → AgreeAt f g id }
{}

/// What is below a node are its children and what is below them; what is above a node are its parents and what is above
/// them.
pub fn below_goes_by_children_and_by_parents()
    ensures children { (look : Look) → AreLow look → (a : ℕ) → (b : ℕ)
        → (is_below look a b ≡ true) ↔ HasChildAbove look a b }
    ensures parents { (look : Look) → AreLow look → (a : ℕ) → (b : ℕ)
        → (is_below look a b ≡ true) ↔ HasParentBelow look a b }
    ensures through { (look : Look) → AreLow look → (a : ℕ) → (b : ℕ) → (c : ℕ)
        → is_below look a b ≡ true → is_below look b c ≡ true → is_below look a c ≡ true }
{}

/// An edit makes a node, deletes one, or changes one that keeps its serial and its birth.
pub fn edits_make_delete_or_change()
    ensures { (g : SceneGraph) → (e : Edit) → IsEdited g e (effect g e) }
{}

/// The instances of a walk stand at the places 0, 1, 2 and so on.
pub fn places_count_the_instances()
    ensures count { (look : Look) → (os : List Occurrence)
        → map (λ x. x.place) (instances_of look os) ≡ range_with_len 0 (length (instances_of look os)) }
    ensures rise { (look : Look) → (os : List Occurrence) → IsRising (map (λ x. x.place) (instances_of look os)) }
{}

/// The box of an instance of a walk is the box of its node, carried to the eye.
pub fn instances_have_the_boxes_of_their_nodes()
    ensures scratch { (look : Look) → (os : List Occurrence)
        → AllByRecursion (HasNodeBox (box_of look)) (instances_of look os) }
    ensures recursion { (look : Look) → (boxes : ℕ → Option Bounds) → (os : List Occurrence) → AreBoxes look boxes
        → AllByRecursion (HasNodeBox boxes) (instances_of look os) }
{}

/// The number of triangles of nodes in rising order of ids below 65,536 is the sum over them.
pub fn triangles_count_node_by_node()
    ensures { (nodes : Nodes) → IsRising (map (λ e. e.0) nodes) → AllByRecursion (λ e. e.0 < 65536) nodes
        → triangle_count (node_at nodes) ≡ sum (map (λ e. triangles_of e.1.kind) nodes) }
{}
