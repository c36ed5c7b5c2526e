//! The walk through what is in sight.
ghost use Rattle.std.specs.Prelude.{◌≡◌, ◌+◌, ◌*◌, ◌^◌, ◌<◌, ◌≤◌, length, map};
ghost use Rattle.std.specs.Option.{option_map};
ghost use Rattle.fx_math.specs.Views.{bounds_of};
ghost use Rattle.pf_model.specs.Kinds.{surface_of};
ghost use Rattle.pf_model.specs.Boxes.{eye_box};
ghost use Rattle.pf_model.specs.Walks.{steps_of_view};
ghost use Rattle.draw_list.specs.Joints.{steps_at};
ghost use Rattle.draw_list.specs.Lists.{instances_in};
ghost use Rattle.draw_list.specs.Order.{state_count};
ghost use Rattle.draw_list.specs.Shown.{shown, visited, stats_of};
ghost use Rattle.cull_walk.specs.Premises.{CanBeExact, unnamed};
ghost use Rattle.cull_walk.specs.Working.{Work, At, Scene, counted, in_frustum, with_drawn, own_pose, joint_below, with_below, tint_at, culled, walked};

use crate::frustum::Frustum;
use draw_list::{DrawList, Item, Stats, Tint};
use fx_math::{Box3, Lens};
use pf_model::{Kind, NodeView, Pose, SceneView, Steps, View, chosen_children, squared_distance};
use std::sync::ledger::Ledger;

/// Clears a list and fills it with what a scene shows in frame `time`, for a view and through a lens, in the order of
/// the walk. A node outside the frustum is left out with all below it, and so costs one test. Each test of a node is a
/// step of `steps`.
///
/// Returns how many instances are shown, how many states the opaque ones have, and how many nodes were visited.
///
/// On every scene it goes no deeper than 32 nodes, and leaves out what finds no room: an item or triangles alone, and
/// with a joint all below it. The list keeps its room, and its joint 0 is the view. It takes no memory.
pub fn cull<V: SceneView, L: Ledger>(
    scene: &V,
    time: u32,
    view: &View,
    lens: &Lens,
    out: &mut DrawList,
    steps: &mut Steps<L>,
) -> Stats
    ensures walk { let sight : Scene = record { look = V.look scene.now; boxes = V.boxes scene.now; lens = lens.now; time = time } in
        let there : Work = record { list = out.new; tests = steps.new; visited = result.visited } in
        there ≡ walked sight view.now out.old steps.old }
    ensures items { result.shown ≡ length out.new.items.items }
    ensures states { result.states ≡ state_count (instances_in out.new) }
    ensures joint_zero { steps_at out.new.joints.lists 0 ≡ steps_of_view view.now }
    ensures item_room { out.new.items.spare + length out.new.items.items ≡ out.old.items.spare + length out.old.items.items }
    ensures joint_room { out.new.joints.spare + length out.new.joints.lists
        ≡ out.old.joints.spare + length out.old.joints.lists }
    ensures tri_room { out.new.kept.spare + length out.new.kept.tris ≡ out.old.kept.spare + length out.old.kept.tris }
    ensures list { CanBeExact (V.look scene.now) (V.boxes scene.now) time out.old
        → instances_in out.new ≡ map unnamed (shown (V.look scene.now) time view.now lens.now) }
    ensures numbers { CanBeExact (V.look scene.now) (V.boxes scene.now) time out.old
        → result ≡ stats_of (V.look scene.now) time view.now lens.now }
    ensures tests { CanBeExact (V.look scene.now) (V.boxes scene.now) time out.old
        → steps.new ≡ steps.old + visited (V.look scene.now) time view.now lens.now }
{
    cull_through(scene, time, view, lens, out, steps)
}

/// Clears a list and fills it with what a scene shows in frame `time`, for a view and through a frustum, in the order
/// of the walk. A node outside is left out with all below it, and so costs one test. It learns of a box only by asking
/// the frustum, a step of `steps` each time; a node without a box is a step too.
///
/// Returns how many instances are shown, how many states the opaque ones have, and how many nodes were visited.
///
/// On every scene it goes no deeper than 32 nodes, and leaves out what finds no room: an item or triangles alone, and
/// with a joint all below it. The list keeps its room, and its joint 0 is the view. It takes no memory.
pub fn cull_through<V: SceneView, F: Frustum<L>, L: Ledger>(
    scene: &V,
    time: u32,
    view: &View,
    frustum: &F,
    out: &mut DrawList,
    steps: &mut Steps<L>,
) -> Stats
    ensures walk { let sight : Scene =
        record { look = V.look scene.now; boxes = V.boxes scene.now; lens = F.lens frustum.now; time = time } in
        let there : Work = record { list = out.new; tests = steps.new; visited = result.visited } in
        there ≡ walked sight view.now out.old steps.old }
    ensures items { result.shown ≡ length out.new.items.items }
    ensures states { result.states ≡ state_count (instances_in out.new) }
    ensures joint_zero { steps_at out.new.joints.lists 0 ≡ steps_of_view view.now }
    ensures item_room { out.new.items.spare + length out.new.items.items ≡ out.old.items.spare + length out.old.items.items }
    ensures joint_room { out.new.joints.spare + length out.new.joints.lists
        ≡ out.old.joints.spare + length out.old.joints.lists }
    ensures tri_room { out.new.kept.spare + length out.new.kept.tris ≡ out.old.kept.spare + length out.old.kept.tris }
    ensures list { CanBeExact (V.look scene.now) (V.boxes scene.now) time out.old
        → instances_in out.new ≡ map unnamed (shown (V.look scene.now) time view.now (F.lens frustum.now)) }
    ensures numbers { CanBeExact (V.look scene.now) (V.boxes scene.now) time out.old
        → result ≡ stats_of (V.look scene.now) time view.now (F.lens frustum.now) }
    ensures tests { CanBeExact (V.look scene.now) (V.boxes scene.now) time out.old
        → steps.new ≡ steps.old + visited (V.look scene.now) time view.now (F.lens frustum.now) }
{
    out.clear(view);
    let mut visited = 0;
    cull_from(scene, time, frustum, 32, 0, 0, 0, out, steps, &mut visited);
    Stats {
        shown: out.len() as u32,
        states: out.states(),
        visited,
    }
}

/// Walks through a node and the chosen children below it, at most `levels` levels, and appends what is in sight to a
/// list. A node that is outside is left out with all below it. `joint` is that of the coordinates above the node.
pub(crate) fn cull_from<V: SceneView, F: Frustum<L>, L: Ledger>(
    scene: &V,
    time: u32,
    frustum: &F,
    levels: u32,
    id: u16,
    joint: u32,
    shift: u32,
    out: &mut DrawList,
    steps: &mut Steps<L>,
    visited: &mut u32,
)
    requires joint { joint < length out.old.joints.lists }
    requires small { shift + 4096 * levels < 2 ^ 32 }
    ensures work { let there : Work = record { list = out.new; tests = steps.new; visited = visited.new } in
        let before : Work = record { list = out.old; tests = steps.old; visited = visited.old } in
        let sight : Scene = record { look = V.look scene.now; boxes = V.boxes scene.now; lens = F.lens frustum.now; time = time } in
        let at : At = record { id = id; joint = joint; shift = shift } in
        there ≡ culled levels sight before at }
    ensures grows { length out.old.joints.lists ≤ length out.new.joints.lists }
{
    if levels == 0 {
        return;
    }
    *visited = visited.saturating_add(1);
    let Some(around) = box_in_sight(scene, frustum, id, joint, out, steps) else {
        return;
    };
    let Some(node) = scene.node(id) else {
        return;
    };
    let centre = out.eye(joint, node.kind.centre());
    show(&node.kind, id, joint, shift, &around, out);
    let Some(below) = lower(&node.kind, joint, out) else {
        return;
    };
    let chosen = chosen_children(node, centre, time);
    let children = node.children.as_slice();
    let shown = chosen.shown_places(children.len());
    let (from, to) = (shown.start, shown.end);
    for place in from..to {
        let nearer = shift + node.kind.decal() * place as u32;
        cull_from(
            scene,
            time,
            frustum,
            levels - 1,
            children[place],
            below,
            nearer,
            out,
            steps,
            visited,
        );
    }
}

/// Returns the box of a node in eye coordinates, if it has one that is not outside. It is one step in any case.
fn box_in_sight<V: SceneView, F: Frustum<L>, L: Ledger>(
    scene: &V,
    frustum: &F,
    id: u16,
    joint: u32,
    out: &DrawList,
    steps: &mut Steps<L>,
) -> Option<Box3>
    requires { joint < length out.now.joints.lists }
    ensures sight { option_map bounds_of result
        ≡ in_frustum (F.lens frustum.now) (eye_box (V.boxes scene.now) id (steps_at out.now.joints.lists joint)) }
    ensures step { steps.new ≡ steps.old + 1 }
{
    let Some(b) = scene.box_of(id) else {
        steps.tick();
        return None;
    };
    let around = out.eye_box(joint, &b);
    if frustum.is_outside(&around, steps) {
        None
    } else {
        Some(around)
    }
}

/// Appends what a node itself draws, if there is room.
fn show(kind: &Kind, id: u16, joint: u32, shift: u32, around: &Box3, out: &mut DrawList)
    requires { joint < length out.old.joints.lists }
    ensures { out.new ≡ with_drawn (record { id = id; joint = joint; shift = shift }) (bounds_of around.now) out.old (surface_of kind.now) }
{
    let Some(surface) = kind.surface() else {
        return;
    };
    let place = out.len() as u32;
    let Some(geom) = out.keep(id, surface.geom) else {
        return;
    };
    let item = Item {
        state: surface.state,
        place,
        shift,
        joint,
        geom,
        tint: tint(surface.tint, around),
    };
    match out.push_reserved(item) {
        Ok(()) => {}
        Err(_) => {}
    }
}

/// Returns the tint of glass of an alpha with this eye box.
fn tint(alpha: Option<u8>, around: &Box3) -> Option<Tint>
    ensures { result ≡ option_map (tint_at (bounds_of around.now)) alpha }
{
    match alpha {
        Some(alpha) => Some(Tint {
            alpha,
            far: squared_distance(around),
        }),
        None => None,
    }
}

/// Returns the joint of a node's children, which a coordinate system appends, or `None` if there is no room for it.
fn lower(kind: &Kind, joint: u32, out: &mut DrawList) -> Option<u32>
    requires { joint < length out.old.joints.lists }
    ensures joint { result ≡ joint_below joint out.old (own_pose kind.now) }
    ensures list { out.new ≡ with_below joint out.old (own_pose kind.now) }
{
    match pose_of(kind) {
        Some(pose) => match out.push_joint(joint, pose) {
            Ok(number) => Some(number),
            Err(_) => None,
        },
        None => Some(joint),
    }
}

/// Returns the pose of a coordinate system.
fn pose_of(kind: &Kind) -> Option<Pose>
    ensures { result ≡ own_pose kind.now }
{
    match kind {
        Kind::Scs(matrix) => Some(Pose::Matrix(*matrix)),
        Kind::Dcs(pose) => Some(*pose),
        _ => None,
    }
}
