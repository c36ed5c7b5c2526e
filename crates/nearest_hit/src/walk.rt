//! The walk that looks for the nearest hit.
ghost use Rattle.std.specs.Prelude.{◌≡◌, ◌+◌, ◌<◌, length, fold};
ghost use Rattle.std.specs.Option.{option_map, option_map_or};
ghost use Rattle.pf_model.specs.Boxes.{eye_box};
ghost use Rattle.pf_model.specs.Kinds.{surface_of};
ghost use Rattle.pf_model.specs.Surfaces.{surface_as_plain};
ghost use Rattle.nearest_hit.specs.Ways.{steps_along};
ghost use Rattle.nearest_hit.specs.Nearest.{time_in, hits_of, closer, nearest, is_near, triangles_near, CanBeProbed};
ghost use Rattle.nearest_hit.specs.Working.{Sight, Findings, bare, with_own, probed, searched};

use crate::found::{Near, closer};
use crate::segment::Segment;
use crate::times::crossing_time;
use crate::touch::touch;
use crate::way::{Way, below};
use pf_model::{Kind, SceneView, Steps, Surface, Tri, View, chosen_children};
use std::sync::ledger::Ledger;

/// What the walk has found so far: the number of the instances, and the closest hit.
#[derive(Clone, Copy)]
pub(crate) struct Search {
    place: u32,
    best: Option<Near>,
}

/// The nearest hit of a segment, given in eye coordinates, in what a scene shows at a time from a view: of all hits of
/// triangles the one that lies first along the segment; of several there that of the instance first in the walk, and in
/// it that of the least number. Glass is hit as what is opaque. None where nothing is hit.
///
/// The walk goes through all nodes, since the place of an instance is its number in the whole walk; an instance whose eye
/// box has no point in common with the box around the segment is passed by without a test. Each test of a triangle is a
/// step of `steps`. On every scene the walk goes no deeper than 32 nodes, and the place stands still at 2^32 - 1. It takes
/// no memory.
pub fn probe<V: SceneView, L: Ledger>(
    scene: &V,
    time: u32,
    view: &View,
    segment: &Segment,
    steps: &mut Steps<L>,
) -> Option<Near>
    ensures best { let sight : Sight
        = record { look = V.look scene.now; boxes = V.boxes scene.now; time = time; segment = segment.now } in
        result ≡ (searched sight view.now steps.old).best }
    ensures counted { let sight : Sight
        = record { look = V.look scene.now; boxes = V.boxes scene.now; time = time; segment = segment.now } in
        steps.new ≡ (searched sight view.now steps.old).tests }
    ensures nearest { CanBeProbed (V.look scene.now) (V.boxes scene.now) time
        → result ≡ nearest (V.look scene.now) time view.now segment.now }
    ensures tests { CanBeProbed (V.look scene.now) (V.boxes scene.now) time
        → steps.new ≡ steps.old + triangles_near (V.look scene.now) time view.now segment.now }
{
    let mut found = Search {
        place: 0,
        best: None,
    };
    let way = Way::of_view(view);
    probe_from(scene, time, segment, 32, 0, &way, &mut found, steps);
    found.best
}

/// Looks for hits at a node and at the chosen children below it, with at most so many levels. `way` is that of the
/// coordinates above the node.
pub(crate) fn probe_from<V: SceneView, L: Ledger>(
    scene: &V,
    time: u32,
    segment: &Segment,
    levels: u32,
    id: u16,
    way: &Way,
    found: &mut Search,
    steps: &mut Steps<L>,
)
    ensures { let there : Findings = record { place = found.new.place; best = found.new.best; tests = steps.new } in
        let before : Findings = record { place = found.old.place; best = found.old.best; tests = steps.old } in
        let sight : Sight
        = record { look = V.look scene.now; boxes = V.boxes scene.now; time = time; segment = segment.now } in
        there ≡ probed levels sight before id (steps_along way.now) }
{
    if levels == 0 {
        return;
    }
    let Some(node) = scene.node(id) else {
        return;
    };
    look_at(scene, segment, id, &node.kind, way, found, steps);
    let centre = way.eye(node.kind.centre());
    let chosen = chosen_children(node, centre, time);
    let children = node.children.as_slice();
    let shown = chosen.shown_places(children.len());
    let (from, to) = (shown.start, shown.end);
    let lower = below(&node.kind, &*way);
    for place in from..to {
        probe_from(
            scene,
            time,
            segment,
            levels - 1,
            children[place],
            &lower,
            found,
            steps,
        );
    }
}

/// Counts a geode, and tests its triangles where its eye box is near the segment.
fn look_at<V: SceneView, L: Ledger>(
    scene: &V,
    segment: &Segment,
    id: u16,
    kind: &Kind,
    way: &Way,
    found: &mut Search,
    steps: &mut Steps<L>,
)
    ensures { let there : Findings = record { place = found.new.place; best = found.new.best; tests = steps.new } in
        let before : Findings = record { place = found.old.place; best = found.old.best; tests = steps.old } in
        there ≡ with_own segment.now (eye_box (V.boxes scene.now) id (steps_along way.now)) id (steps_along way.now) before
        (surface_of kind.now) }
{
    let Some(surface) = kind.surface() else {
        return;
    };
    if is_near(scene, segment, id, way) {
        found.best = closest(segment, id, &surface, way, found.place, found.best, steps);
    }
    found.place = found.place.saturating_add(1);
}

/// Whether the eye box of a node has a point in common with the box around the segment.
fn is_near<V: SceneView>(scene: &V, segment: &Segment, id: u16, way: &Way) -> bool
    ensures { result ≡ is_near segment.now (eye_box (V.boxes scene.now) id (steps_along way.now)) }
{
    match scene.box_of(id) {
        Some(b) => touch(&segment.around(), &way.eye_box(&b)),
        None => false,
    }
}

/// The closest of a hit so far and the hits of the triangles of a geode, each of which is tested.
fn closest<L: Ledger>(
    segment: &Segment,
    id: u16,
    surface: &Surface,
    way: &Way,
    place: u32,
    best: Option<Near>,
    steps: &mut Steps<L>,
) -> Option<Near>
    ensures best { result ≡ fold closer best
        (hits_of segment.now (bare id (steps_along way.now) place (surface_as_plain surface.now))) }
    ensures tests { steps.new ≡ steps.old + length surface.now.geom.now }
{
    let mut closest = best;
    let tris = surface.geom.as_slice();
    for (number, tri) in tris.iter().enumerate() {
        steps.tick();
        closest = with_tri(closest, segment, id, way, place, number, tri);
    }
    closest
}

/// The closer of a hit so far and that of the triangle of a number, where there is one.
fn with_tri(
    best: Option<Near>,
    segment: &Segment,
    id: u16,
    way: &Way,
    place: u32,
    number: usize,
    tri: &Tri,
) -> Option<Near>
    requires { number < 4096 }
    ensures { result ≡ option_map_or (closer best)
        (option_map (λ t. record { t = t; place = place; tri = number; id = id })
        (time_in segment.now (steps_along way.now) tri.now)) best }
{
    match time_in(segment, way, tri) {
        Some(t) => {
            let tri = number as u32;
            closer(best, Near { t, place, tri, id })
        }
        None => best,
    }
}

/// The time at which the segment crosses a triangle under a way.
fn time_in(segment: &Segment, way: &Way, tri: &Tri) -> Option<u32>
    ensures { result ≡ time_in segment.now (steps_along way.now) tri.now }
{
    let [u, v, w] = tri.v;
    crossing_time(segment, [way.eye(u), way.eye(v), way.eye(w)])
}
