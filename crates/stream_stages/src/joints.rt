//! Joints of coordinate systems.
ghost use Rattle.std.specs.Prelude.{◌≡◌, ◌<◌, length, IfSome};
ghost use Rattle.cull_walk.specs.Working.{own_pose, joint_below, with_below};
ghost use Rattle.stream_stages.specs.Sending.{laid};

use draw_list::DrawList;
use pf_model::{Kind, NodeView, Pose};

/// Returns the joint of a node's children, which a coordinate system appends, or `None` if there is no room for it.
pub(crate) fn lower(kind: &Kind, joint: u32, out: &mut DrawList) -> Option<u32>
    requires { joint < length out.old.joints.lists }
    ensures joint { result ≡ joint_below joint out.old (own_pose kind.now) }
    ensures list { out.new ≡ with_below joint out.old (own_pose kind.now) }
{
    match pose_of(kind) {
        Some(pose) => match out.push_joint(joint, pose) {
            Ok(number) => Some(number),
            Err(_) => None,
        },
        None => Some(joint),
    }
}

/// The pose of a coordinate system.
fn pose_of(kind: &Kind) -> Option<Pose>
    ensures { result ≡ own_pose kind.now }
{
    match kind {
        Kind::Scs(matrix) => Some(Pose::Matrix(*matrix)),
        Kind::Dcs(pose) => Some(*pose),
        _ => None,
    }
}

/// Appends the joints of the coordinate systems among these nodes, the outermost first, above the joint 0. Returns the
/// last one, or `None` if one finds no room or a node is not there.
pub(crate) fn lay<V: NodeView>(scene: &V, ids: &[u16], out: &mut DrawList) -> Option<u32>
    requires { 0 < length out.old.joints.lists }
    ensures joint { result ≡ (laid (V.look scene.now) ids.now 0 out.old).joint }
    ensures list { out.new ≡ (laid (V.look scene.now) ids.now 0 out.old).list }
    ensures there { IfSome result (λ j. j < length out.new.joints.lists) }
{
    let mut joint = 0;
    for id in ids {
        let node = scene.node(*id)?;
        joint = lower(&node.kind, joint, out)?;
    }
    Some(joint)
}
