//! Room in the draw lists of a frame.
ghost use Rattle.std.specs.Prelude.{◌≡◌, map, OnOk};
ghost use Rattle.std.specs.List.{All};
ghost use Rattle.pf_scene.specs.Frames.{HasRoom, drawn};

use draw_list::DrawList;
use pf_io::NoMemory;

/// Makes room in a draw list for so many items, joints and triangles more. The list stays.
fn reserve(list: &mut DrawList, n: usize, t: usize) -> Result<(), NoMemory>
    ensures room { OnOk result (HasRoom n t list.new) }
    ensures same { drawn list.new ≡ drawn list.old }
{
    list.reserve(n, t)
}

/// Makes room in each draw list for so many items, joints and triangles more. The lists stay.
pub(crate) fn make_room(lists: &mut [DrawList], n: usize, t: usize) -> Result<(), NoMemory>
    ensures room { OnOk result (All (HasRoom n t) lists.new) }
    ensures same { map drawn lists.new ≡ map drawn lists.old }
{
    for i in 0..lists.len() {
        reserve(&mut lists[i], n, t)?;
    }
    Ok(())
}
