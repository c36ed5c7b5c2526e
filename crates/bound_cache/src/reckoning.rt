//! The box of one node from those of its children.
ghost use Rattle.std.specs.Prelude.{◌≡◌};
ghost use Rattle.std.specs.Option.{option_map};
ghost use Rattle.fx_math.specs.Views.{bounds_of};
ghost use Rattle.fx_math.specs.Fixed.{carry_box};
ghost use Rattle.pf_model.specs.Kinds.{own_steps};
ghost use Rattle.pf_model.specs.Graphs.{Look};
ghost use Rattle.pf_model.specs.Boxes.{joined};
ghost use Rattle.bound_cache.specs.Tables.{parts};

use fx_math::{Box3, hull};
use pf_model::{Kind, NodeView};

/// The hull of two boxes, of which each may be none.
pub(crate) fn joined(a: Option<Box3>, b: Option<Box3>) -> Option<Box3>
    ensures { option_map bounds_of result ≡ joined (option_map bounds_of a) (option_map bounds_of b) }
{
    match a {
        None => b,
        Some(a) => match b {
            None => Some(a),
            Some(b) => Some(hull(&a, &b)),
        },
    }
}

/// A box of the children's coordinates in the coordinates above a node of this kind.
pub(crate) fn carried(kind: &Kind, around: Option<Box3>) -> Option<Box3>
    ensures { option_map bounds_of result
        ≡ option_map (carry_box (own_steps kind.now)) (option_map bounds_of around) }
{
    match around {
        Some(b) => Some(kind.carry_box(&b)),
        None => None,
    }
}

/// The ids of whose boxes that of a node is made: none of a geode.
pub(crate) fn parts_of<V: NodeView>(scene: &V, id: u16) -> &[u16]
    ensures { result.now ≡ parts (V.look scene.now id) }
{
    match scene.node(id) {
        None => &[],
        Some(node) => {
            if node.kind.is_geode() {
                &[]
            } else {
                node.children.as_slice()
            }
        }
    }
}
