//! The geodes that a walk met, numbered.
ghost use Rattle.std.specs.Prelude.{◌≡◌, ◌<◌, ◌^◌, length, map, IfOk};
ghost use Rattle.pf_picture.specs.Instances.{instance_of};
ghost use Rattle.tri_cover.specs.Labels.{placed, renumbered};
ghost use Rattle.pf_picture.specs.Walking.{instance_of_leaf};

use crate::instances::Instance;
use crate::leaves::Leaf;
use pf_io::NoMemory;
use std::alloc::Global;

/// The instances of leaves, each with its number as its place.
pub(crate) fn numbered<'a>(
    alloc: Global,
    leaves: &'a [Leaf<'a>],
) -> Result<Vec<Instance<'a>>, NoMemory>
    requires { length leaves.now < 2 ^ 32 }
    ensures { IfOk result (λ xs. map instance_of xs.items ≡ renumbered (map instance_of_leaf leaves.now)) }
{
    let mut instances = Vec::new(alloc);
    for (place, leaf) in leaves.iter().enumerate() {
        instances.push(instance_at(place as u32, leaf))?;
    }
    Ok(instances)
}

fn instance_at<'a>(place: u32, leaf: &'a Leaf<'a>) -> Instance<'a>
    ensures { instance_of result ≡ placed (place, instance_of_leaf leaf.entry.now) }
{
    Instance {
        place,
        id: leaf.id,
        state: leaf.state,
        tint: leaf.tint,
        shift: leaf.shift,
        steps: &leaf.steps,
        tris: leaf.tris,
        far: leaf.far,
    }
}
