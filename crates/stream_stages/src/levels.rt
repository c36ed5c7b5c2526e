//! The nodes on the way whose children are being visited.
ghost use Rattle.std.specs.Prelude.{◌≡◌, ◌<◌, IfSome};
ghost use Rattle.stream_stages.specs.Stops.{nearer};
ghost use Rattle.stream_stages.specs.Routes.{next_child, first_place, last_place};

use pf_model::{Chosen, Kind, NodeView};

/// A node on the way: its id, the joint of its children's coordinates, how much nearer it is drawn, and the places of
/// the children that are still to be visited, from the first to before the last.
#[derive(Clone, Copy, Debug)]
pub(crate) struct Level {
    pub(crate) id: u16,
    pub(crate) joint: u32,
    pub(crate) shift: u32,
    pub(crate) from: usize,
    pub(crate) to: usize,
}

/// Returns the next child of a level, and how much nearer it is drawn, or `None` if the level is done.
pub(crate) fn next_child<V: NodeView>(scene: &V, level: &Level) -> Option<(u16, u32)>
    ensures child { result ≡ next_child (V.look scene.now) level.now }
    ensures more { IfSome result (λ _. level.now.from < level.now.to) }
{
    let node = scene.node(level.id)?;
    if level.from >= level.to {
        return None;
    }
    let child = *node.children.as_slice().get(level.from)?;
    Some((child, nearer(level.shift, &node.kind, level.from)))
}

/// How much nearer the child at a place is drawn.
fn nearer(shift: u32, kind: &Kind, place: usize) -> u32
    requires { place < 65536 }
    ensures { result ≡ nearer shift kind.now place }
{
    shift.saturating_add(kind.decal() * place as u32)
}

/// The place of the first child that is shown, and the one after the last.
pub(crate) fn shown_range(chosen: Chosen, children: usize) -> (usize, usize)
    ensures from { result.0 ≡ first_place chosen }
    ensures to { result.1 ≡ last_place chosen children }
{
    match chosen {
        Chosen::All => (0, children),
        Chosen::Nothing => (0, 0),
        Chosen::One(place) => (usize::from(place), usize::from(place) + 1),
    }
}
