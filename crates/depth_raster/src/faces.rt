//! Triangles of a draw list with what their items say of them, and their way to the eye.
ghost use Rattle.std.specs.Prelude.{◌≡◌, ◌<◌, [], length};
ghost use Rattle.draw_list.specs.Items.{instance_of_item};
ghost use Rattle.draw_list.specs.Joints.{steps_at};
ghost use Rattle.tri_cover.specs.Glass.{alpha_of};
ghost use Rattle.tri_cover.specs.Hits.{HitsAs};
ghost use Rattle.depth_raster.specs.Faces.{face_of_item};
ghost use Rattle.depth_raster.specs.Recent.{AreCarried};

use crate::marks::Mark;
use crate::recent::Recent;
use draw_list::{DrawList, Item};
use pf_model::Tri;

/// A triangle, with what its item says of it: its place, its decal shift, its number in the item and the
/// alpha of glass; and its rank among the faces that are drawn together, from 1.
#[derive(Clone, Copy)]
pub(crate) struct Face {
    pub(crate) tri: Tri,
    pub(crate) place: u32,
    pub(crate) shift: u32,
    pub(crate) number: u32,
    pub(crate) rank: u32,
    pub(crate) alpha: u8,
}

impl Face {
    /// The face of the triangle of a number in an item, of no rank yet.
    pub(crate) fn of(item: &Item, number: u32, tri: Tri) -> Face
        ensures { result ≡ face_of_item item.now number tri }
    {
        Face {
            tri,
            place: item.place,
            shift: item.shift,
            number,
            rank: 0,
            alpha: alpha(item),
        }
    }

    /// The mark at a depth from which the shift is taken.
    pub(crate) fn mark_at(&self, depth: u32) -> Mark
        ensures { result ≡ record {
          depth = depth;
          place = self.now.place;
          number = self.now.number;
          rank = self.now.rank;
        } }
    {
        Mark {
            depth,
            place: self.place,
            number: self.number,
            rank: self.rank,
        }
    }
}

/// The alpha of an item; 0 where it is opaque.
fn alpha(item: &Item) -> u8
    ensures { result ≡ alpha_of (instance_of_item [] [] item.now) }
{
    match item.tint {
        Some(tint) => tint.alpha,
        None => 0,
    }
}

/// A triangle after the steps of a joint: it is hit as the triangle is after the steps.
pub(crate) fn at_eye(list: &DrawList, joint: u32, tri: &Tri, recent: &mut Recent) -> Tri
    requires joint { joint < length list.now.joints.lists }
    requires carried { AreCarried list.now.joints.lists recent.old }
    ensures carried { AreCarried list.now.joints.lists recent.new }
    ensures hits { HitsAs tri.now (steps_at list.now.joints.lists joint) result }
{
    let [u, v, w] = tri.v;
    let c = tri.c;
    let first = recent.eye(list, joint, u);
    let second = recent.eye(list, joint, v);
    let third = recent.eye(list, joint, w);
    Tri {
        v: [first, second, third],
        c,
    }
}
