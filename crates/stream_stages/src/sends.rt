//! Sending what waits.
ghost use Rattle.std.specs.Prelude.{◌≡◌, ◌<◌, length};
ghost use Rattle.stream_stages.specs.Sending.{sent_to};

use crate::joints::lay;
use crate::sightings::Sighting;
use draw_list::{DrawList, Item};
use pf_model::NodeView;

/// Appends an instance that waits to the list of a piece, with its triangles and joints. Returns false if the list has
/// items and no room for the triangles; then nothing is changed. Else the instance is done with, also if it is left
/// out.
pub(crate) fn send<V: NodeView>(scene: &V, waiting: &Sighting, out: &mut DrawList) -> bool
    requires { 0 < length out.old.joints.lists }
    ensures done { result ≡ (sent_to (V.look scene.now) waiting.now out.old).done }
    ensures list { out.new ≡ (sent_to (V.look scene.now) waiting.now out.old).list }
{
    let Some(node) = scene.node(waiting.id) else {
        return true;
    };
    let Some(surface) = node.kind.surface() else {
        return true;
    };
    let Some(geom) = out.keep(waiting.id, surface.geom) else {
        return out.len() == 0;
    };
    let Some(joint) = lay(scene, waiting.above(), out) else {
        return true;
    };
    let item = Item {
        state: waiting.state,
        place: waiting.place,
        shift: waiting.shift,
        joint,
        geom,
        tint: waiting.tint,
    };
    match out.push_reserved(item) {
        Ok(()) => true,
        Err(_) => true,
    }
}
