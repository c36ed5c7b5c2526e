//! The last points of a joint's coordinates that were carried to the eye.
ghost use Rattle.std.specs.Prelude.{◌<◌};

use draw_list::DrawList;
use fx_math::Vec3;

/// How many points are kept: as many as a box has corners.
const ROOM: usize = 8;

/// A point of a joint's coordinates, and the same in eye coordinates.
#[derive(Clone, Copy)]
struct Carried {
    point: Vec3,
    eye: Vec3,
}

/// The last points of a joint's coordinates that were carried to the eye. Neighbouring triangles share vertices, so that most
/// are found among these.
#[derive(Drop)]
pub(crate) struct Recent {
    joint: u32,
    points: [Option<Carried>; 8],
    oldest: usize,
    ghost within: { oldest < 8 },
}

impl Recent {
    ghost use Rattle.std.specs.Prelude.{◌≡◌, ◌<◌, List, length, IfSome};
    ghost use Rattle.fx_math.specs.Fixed.{carry};
    ghost use Rattle.fx_math.specs.Plain.{Matrix};
    ghost use Rattle.fx_math.specs.Views.{point_of};
    ghost use Rattle.draw_list.specs.Joints.{steps_at};
    ghost use Rattle.depth_raster.specs.Recent.{IsCarried, AreCarried};

    /// No points, of a joint.
    pub(crate) fn new(joint: u32) -> Recent
        ensures carried { (lists : List (List Matrix)) → AreCarried lists result }
        ensures joint { result.joint ≡ joint }
    {
        Recent {
            joint,
            points: [None; ROOM],
            oldest: 0,
        }
    }

    /// A point of a joint's coordinates in eye coordinates: carried there, unless it is one of the last ones. Those of another
    /// joint are forgotten.
    pub(crate) fn eye(&mut self, list: &DrawList, joint: u32, v: Vec3) -> Vec3
        requires joint { joint < length list.now.joints.lists }
        requires carried { AreCarried list.now.joints.lists self.old }
        ensures carried { AreCarried list.now.joints.lists self.new }
        ensures eye { point_of result ≡ carry (steps_at list.now.joints.lists joint) (point_of v) }
    {
        if self.joint != joint {
            *self = Recent::new(joint);
        }
        match self.find(v) {
            Some(eye) => eye,
            None => {
                let eye = list.eye(joint, v);
                self.keep(Carried { point: v, eye });
                eye
            }
        }
    }

    /// Where a point is in eye coordinates, if it is one of the last ones.
    fn find(&self, v: Vec3) -> Option<Vec3>
        ensures { (lists : List (List Matrix)) → AreCarried lists self.now
            → IfSome result (λ eye. point_of eye ≡ carry (steps_at lists self.now.joint) (point_of v)) }
    {
        for carried in &self.points {
            if let Some(carried) = carried {
                if carried.point == v {
                    return Some(carried.eye);
                }
            }
        }
        None
    }

    /// Keeps a point in place of the oldest one.
    fn keep(&mut self, carried: Carried)
        ensures { (lists : List (List Matrix)) → AreCarried lists self.old → IsCarried (steps_at lists self.old.joint) carried
            → AreCarried lists self.new }
    {
        self.points[self.oldest] = Some(carried);
        self.oldest = (self.oldest + 1) % ROOM;
    }
}
