//! The state of a walk of a scene.
ghost use Rattle.std.specs.Prelude.{◌≡◌, ℕ, ◌+◌, ◌<◌, ◌≤◌, false, length};
ghost use Rattle.std.specs.Option.{option_map};
ghost use Rattle.std.specs.Vec.{vec_len, vec_capacity};
ghost use Rattle.fx_math.specs.Views.{bounds_of};
ghost use Rattle.pf_model.specs.Kinds.{surface_of};
ghost use Rattle.pf_model.specs.Boxes.{eye_box};
ghost use Rattle.draw_list.specs.Joints.{steps_at};
ghost use Rattle.pf_model.specs.Surfaces.{surface_as_plain};
ghost use Rattle.cull_walk.specs.Working.{Scene, At, in_frustum, tint_at};
ghost use Rattle.stream_stages.specs.declared.routes.Sight.{Sight};
ghost use Rattle.stream_stages.specs.Underway.{IsRoute, walking_of, sight_of};
ghost use Rattle.stream_stages.specs.Going.{Stepped, with_glass, found_in, entered_in, visited_in, stepped};

use crate::joints::lower;
use crate::levels::{Level, next_child, shown_range};
use crate::sightings::{Sighting, ids_on};
use draw_list::{DrawList, Item, Span, Tint};
use fx_math::{Box3, Lens};
use pf_bounds::outside;
use pf_model::{Node, SceneView, Steps, Surface, View, chosen_children, squared_distance};
use std::sync::ledger::Ledger;

/// The most levels on the way.
const DEEPEST: usize = 31;

/// The most glass that waits.
pub(crate) const GLASS: usize = 131_072;

/// What a walk is of: the time, the view and the lens.
#[derive(Drop)]
pub(crate) struct Sight {
    pub(crate) time: u32,
    pub(crate) view: View,
    pub(crate) lens: Lens,
}

/// How far a walk is: whether the scene itself is still to be visited, the levels on the way, what was seen (joints,
/// and items without triangles), and how many nodes were visited. Also the opaque instance that waits for room, the
/// glass that waits, and how much of it was sent once it is in the order in which it is drawn.
#[derive(Drop)]
pub(crate) struct Route {
    pub(crate) fresh: bool,
    pub(crate) way: Vec<Level>,
    pub(crate) seen: DrawList,
    pub(crate) visited: u32,
    pub(crate) held: Option<Sighting>,
    pub(crate) glass: Vec<Sighting>,
    pub(crate) sent: Option<usize>,
}

/// Where a node is: its id, the joint of the coordinates above it, and how much nearer it is drawn.
#[derive(Clone, Copy)]
pub(crate) struct Spot {
    pub(crate) id: u16,
    pub(crate) joint: u32,
    pub(crate) shift: u32,
}

/// Visits a node. If it is in sight, a geode waits to be sent, and of any other node the children are visited next.
pub(crate) fn visit<V: SceneView, L: Ledger>(
    scene: &V,
    sight: &Sight,
    spot: Spot,
    route: &mut Route,
    steps: &mut Steps<L>,
)
    requires sound { IsRoute route.old }
    requires begun { route.old.fresh ≡ false }
    requires joint { spot.joint < length route.old.seen.joints.lists }
    ensures sound { IsRoute route.new }
    ensures tests { steps.new ≡ steps.old + 1 }
    ensures walk { let at : At = record { id = spot.id; joint = spot.joint; shift = spot.shift } in
        let s : Scene = sight_of (V.look scene.now) (V.boxes scene.now) sight.now in
        walking_of sight.now route.new ≡ visited_in s (walking_of sight.now route.old) at }
{
    steps.tick();
    route.visited = route.visited.saturating_add(1);
    let Some(around) = box_in_sight(scene, &sight.lens, spot, &route.seen) else {
        return;
    };
    let Some(node) = scene.node(spot.id) else {
        return;
    };
    match node.kind.surface() {
        Some(surface) => find(spot, &around, &surface, route),
        None => enter(sight, spot, node, route),
    }
}

/// Returns the box of a node in eye coordinates, if it has one that is not outside.
fn box_in_sight<V: SceneView>(scene: &V, lens: &Lens, spot: Spot, seen: &DrawList) -> Option<Box3>
    requires { spot.joint < length seen.now.joints.lists }
    ensures { option_map bounds_of result
        ≡ in_frustum lens.now (eye_box (V.boxes scene.now) spot.id (steps_at seen.now.joints.lists spot.joint)) }
{
    let b = scene.box_of(spot.id)?;
    let around = seen.eye_box(spot.joint, &b);
    if outside(&around, lens) {
        None
    } else {
        Some(around)
    }
}

/// Numbers a geode in sight; it waits to be sent. If it finds no room it is left out.
fn find(spot: Spot, around: &Box3, surface: &Surface<'_>, route: &mut Route)
    requires sound { IsRoute route.old }
    requires joint { spot.joint < length route.old.seen.joints.lists }
    ensures sound { IsRoute route.new }
    ensures walk { (sight : Sight) → let at : At = record { id = spot.id; joint = spot.joint; shift = spot.shift } in
        walking_of sight route.new ≡ found_in (walking_of sight route.old) at (bounds_of around.now) (surface_as_plain surface.now) }
{
    let item = Item {
        state: surface.state,
        place: route.seen.len() as u32,
        shift: spot.shift,
        joint: spot.joint,
        geom: Span { from: 0, len: 0 },
        tint: tint(surface.tint, around),
    };
    if route.seen.push_reserved(item).is_err() {
        return;
    }
    let found = Sighting {
        id: spot.id,
        state: item.state,
        tint: item.tint,
        shift: item.shift,
        place: item.place,
        above: ids_on(route.way.as_slice()),
        depth: route.way.len() as u32,
    };
    if found.tint.is_some() {
        keep_glass(&mut route.glass, found);
    } else {
        route.held = Some(found);
    }
}

/// Appends glass if it has room.
fn keep_glass(glass: &mut Vec<Sighting>, found: Sighting)
    requires few { vec_len glass.old ≤ 131072 }
    requires room { 131072 ≤ vec_capacity glass.old }
    ensures items { glass.new.items ≡ with_glass found glass.old.items }
    ensures few { vec_len glass.new ≤ 131072 }
    ensures room { vec_capacity glass.new ≡ vec_capacity glass.old }
    ensures more { vec_len glass.old ≤ vec_len glass.new }
{
    if glass.len() < GLASS {
        glass.push_reserved(found);
    }
}

/// The tint of glass of an alpha with this eye box.
fn tint(alpha: Option<u8>, around: &Box3) -> Option<Tint>
    ensures { result ≡ option_map (tint_at (bounds_of around.now)) alpha }
{
    match alpha {
        Some(alpha) => Some(Tint {
            alpha,
            far: squared_distance(around),
        }),
        None => None,
    }
}

/// Puts a node in sight on the way, so that its children are visited next; not if there are 31 levels already, or its
/// joint finds no room.
fn enter(sight: &Sight, spot: Spot, node: &Node, route: &mut Route)
    requires sound { IsRoute route.old }
    requires begun { route.old.fresh ≡ false }
    requires joint { spot.joint < length route.old.seen.joints.lists }
    ensures sound { IsRoute route.new }
    ensures walk { (s : Scene) → s.time ≡ sight.now.time → let at : At = record { id = spot.id; joint = spot.joint; shift = spot.shift } in
        walking_of sight.now route.new ≡ entered_in s (walking_of sight.now route.old) at node.now }
{
    if route.way.len() >= DEEPEST {
        return;
    }
    let centre = route.seen.eye(spot.joint, node.kind.centre());
    let Some(joint) = lower(&node.kind, spot.joint, &mut route.seen) else {
        return;
    };
    let chosen = chosen_children(node, centre, sight.time);
    let (from, to) = shown_range(chosen, node.children.len());
    route.way.push_reserved(Level {
        id: spot.id,
        joint,
        shift: spot.shift,
        from,
        to,
    });
}

/// Goes on: to the next node, or out of a level that is done. Returns false once nothing is left to visit.
pub(crate) fn step<V: SceneView, L: Ledger>(
    scene: &V,
    sight: &Sight,
    route: &mut Route,
    steps: &mut Steps<L>,
) -> bool
    requires sound { IsRoute route.old }
    ensures sound { IsRoute route.new }
    ensures walk { let s : Scene = sight_of (V.look scene.now) (V.boxes scene.now) sight.now in
        let there : Stepped = record { going = result; walk = walking_of sight.now route.new; tests = steps.new } in
        there ≡ stepped s (walking_of sight.now route.old) steps.old }
{
    if route.fresh {
        route.fresh = false;
        let root = Spot {
            id: 0,
            joint: 0,
            shift: 0,
        };
        visit(scene, sight, root, route, steps);
        return true;
    }
    let Some(level) = route.way.pop() else {
        return false;
    };
    let Some((id, shift)) = next_child(scene, &level) else {
        return true;
    };
    route.way.push_reserved(Level {
        from: level.from + 1,
        ..level
    });
    let spot = Spot {
        id,
        joint: level.joint,
        shift,
    };
    visit(scene, sight, spot, route, steps);
    true
}
