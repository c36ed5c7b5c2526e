//! The opaque instances, and those of glass from far to near.
ghost use Rattle.std.specs.Prelude.{◌≡◌, map, filter, IfOk, OnOk, is_none, is_some};
ghost use Rattle.tri_cover.specs.Glass.{is_glass, is_drawn_before};
ghost use Rattle.tri_cover.specs.Sorting.{sorted};
ghost use Rattle.pf_picture.specs.Instances.{instance_of, is_before};

use crate::instances::Instance;
use pf_io::NoMemory;
use std::alloc::Global;
use std::cmp::Reverse;

/// The opaque instances.
pub(crate) fn opaque<'a>(
    alloc: Global,
    instances: &[Instance<'a>],
) -> Result<Vec<Instance<'a>>, NoMemory>
    ensures { IfOk result (λ xs. xs.items ≡ filter (λ x. is_none x.tint) instances.now) }
{
    Ok(
        instances
            .iter()
            .filter(|x| x.tint.is_none())
            .copied()
            .collect(alloc)?,
    )
}

/// The glass instances, from far to near, at one distance by rising place and then as they stand.
pub(crate) fn far_to_near<'a>(
    alloc: Global,
    instances: &[Instance<'a>],
) -> Result<Vec<Instance<'a>>, NoMemory>
    ensures { IfOk result (λ xs. map instance_of xs.items
        ≡ sorted is_drawn_before (filter is_glass (map instance_of instances.now))) }
{
    let mut glass = glass(alloc, instances)?;
    sort(&mut glass)?;
    Ok(glass)
}

fn glass<'a>(alloc: Global, instances: &[Instance<'a>]) -> Result<Vec<Instance<'a>>, NoMemory>
    ensures { IfOk result (λ xs. xs.items ≡ filter (λ x. is_some x.tint) instances.now) }
{
    Ok(
        instances
            .iter()
            .filter(|x| x.tint.is_some())
            .copied()
            .collect(alloc)?,
    )
}

fn sort(glass: &mut Vec<Instance>) -> Result<(), NoMemory>
    ensures { OnOk result (glass.new.items ≡ sorted is_before glass.old.items) }
{
    glass.sort_by_key(|x| (Reverse(x.far), x.place))?;
    Ok(())
}
