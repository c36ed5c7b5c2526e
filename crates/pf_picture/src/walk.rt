//! The walk of a scene through its shown children.
ghost use Rattle.std.specs.Prelude.{◌≡◌, ◌+◌, ◌*◌, ◌^◌, ◌<◌, ◌++◌, map, OnOk, IfOk};
ghost use Rattle.fx_math.specs.Views.{matrix_of};
ghost use Rattle.pf_model.specs.Kinds.{own_steps};
ghost use Rattle.pf_picture.specs.Walking.{instance_of_leaf, own_drawn, drawn_in};

use crate::distances::distance;
use crate::leaves::Leaf;
use fx_math::Affine;
use pf_io::NoMemory;
use pf_model::{Kind, Node, NodeView, carried_point, chosen_children};
use std::alloc::Global;

/// Appends the geodes at and below a node, in order and depth first, at most `levels` levels. `steps` lead from the
/// coordinates above the node to the eye.
pub(crate) fn walk<'a, V: NodeView>(
    alloc: Global,
    scene: &'a V,
    time: u32,
    levels: u32,
    id: u16,
    steps: &[Affine],
    shift: u32,
    leaves: &mut Vec<Leaf<'a>>,
) -> Result<(), NoMemory>
    requires { shift + 4096 * levels < 2 ^ 32 }
    ensures { OnOk result (map instance_of_leaf leaves.new.items ≡ map instance_of_leaf leaves.old.items
        ++ drawn_in levels (V.look scene.now) time id (map matrix_of steps.now) shift) }
{
    if levels == 0 {
        return Ok(());
    }
    let Some(node) = scene.node(id) else {
        return Ok(());
    };
    push_surface(alloc, node, id, steps, shift, leaves)?;
    let below = steps_below(alloc, &node.kind, steps)?;
    let centre = carried_point(node.kind.centre(), steps);
    let chosen = chosen_children(node, centre, time);
    let children = node.children.as_slice();
    let shown = chosen.shown_places(children.len());
    let (from, to) = (shown.start, shown.end);
    for place in from..to {
        let nearer = shift + node.kind.decal() * place as u32;
        walk(
            alloc,
            scene,
            time,
            levels - 1,
            children[place],
            &below,
            nearer,
            leaves,
        )?;
    }
    Ok(())
}

/// Appends what a node itself draws.
fn push_surface<'a>(
    alloc: Global,
    node: &'a Node,
    id: u16,
    steps: &[Affine],
    shift: u32,
    leaves: &mut Vec<Leaf<'a>>,
) -> Result<(), NoMemory>
    ensures { OnOk result (map instance_of_leaf leaves.new.items ≡ map instance_of_leaf leaves.old.items
        ++ own_drawn id (map matrix_of steps.now) shift node.now) }
{
    let Some(surface) = node.kind.surface() else {
        return Ok(());
    };
    let tris = surface.geom.as_slice();
    leaves.push(Leaf {
        id,
        state: surface.state,
        tint: surface.tint,
        shift,
        steps: copied(alloc, steps)?,
        tris,
        far: distance(surface.tint, steps, tris),
    })?;
    Ok(())
}

/// The steps from a node's children to the eye, where `above` are those from the node's own coordinates.
fn steps_below(alloc: Global, kind: &Kind, above: &[Affine]) -> Result<Vec<Affine>, NoMemory>
    ensures { IfOk result (λ s. map matrix_of s.items ≡ own_steps kind.now ++ map matrix_of above.now) }
{
    let mut steps = kind.steps(alloc)?;
    steps.extend_from_slice(above)?;
    Ok(steps)
}

fn copied(alloc: Global, steps: &[Affine]) -> Result<Vec<Affine>, NoMemory>
    ensures { IfOk result (λ v. v.items ≡ steps.now) }
{
    let mut copy = Vec::new(alloc);
    copy.extend_from_slice(steps)?;
    Ok(copy)
}
