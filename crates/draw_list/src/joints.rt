//! Joints: steps to the eye, each above another joint.
ghost use Rattle.std.specs.Prelude.{◌≡◌, ◌+◌, ◌<◌, ◌≤◌, [], ◌∷◌, if◌then◌else◌, ◌==◌, max, length, OnOk};
ghost use Rattle.fx_math.specs.Views.{point_of, bounds_of};
ghost use Rattle.fx_math.specs.Fixed.{carry, carry_box};
ghost use Rattle.pf_model.specs.Angles.{home_view};
ghost use Rattle.pf_model.specs.Kinds.{pose_steps};
ghost use Rattle.pf_model.specs.Walks.{steps_of_view};
ghost use Rattle.draw_list.specs.Joints.{steps_at, with_joint};

use crate::joint_steps::JointSteps;
use crate::tables::grown;
use crate::view_steps::ViewSteps;
use fx_math::{Box3, Vec3};
use pf_io::NoMemory;
use pf_model::{Pose, View};
use std::alloc::Global;
use std::marker::Model;

/// The most joints that have a number, but for the joint 0.
const MOST: usize = 4_294_967_294;

/// Steps, and the number of the joint that they lead to.
#[derive(Clone, Copy, Debug)]
pub(crate) struct Joint {
    up: u32,
    steps: JointSteps,
}

/// The view, which is the joint 0, and the joints 1, 2 and so on, with room for more.
#[derive(Debug, Drop)]
pub(crate) struct Joints {
    view: ViewSteps,
    joints: Vec<Joint>,
    room: usize,
}

impl Model for Joints {
    ghost use Rattle.std.specs.Prelude.{◌+◌, ◌-◌, ◌<◌, ◌≤◌, ◌^◌};
    ghost use Rattle.std.specs.Vec.{vec_len, vec_capacity};
    ghost use Rattle.draw_list.specs.Steps.{view_matrices};
    ghost use Rattle.draw_list.specs.Joints.{JointList, step_lists, AreBefore};

    ghost Value = { JointList };

    ghost view = { λ d. record { lists = step_lists (view_matrices d.view) d.joints.items; spare = d.room - vec_len d.joints } };

    ghost invariant = { λ d. AreBefore 1 d.joints.items × (vec_len d.joints ≤ d.room)
        × (d.room ≤ vec_capacity d.joints) × (d.room + 1 < 2 ^ 32) };
}

impl Joints {
    /// The view of zeros, with no room.
    pub(crate) fn new(alloc: Global) -> Joints
        ensures { result ≡ record { lists = steps_of_view home_view ∷ []; spare = 0 } }
    {
        Joints {
            view: ViewSteps::of(&View::home()),
            joints: Vec::new(alloc),
            room: 0,
        }
    }

    /// How many more joints have room.
    pub(crate) fn spare(&self) -> usize
        ensures { result ≡ self.now.spare }
    {
        self.room - self.joints.len()
    }

    /// Makes room for this many more joints.
    pub(crate) fn reserve(&mut self, n: usize) -> Result<(), NoMemory>
        ensures lists { self.new.lists ≡ self.old.lists }
        ensures more { self.old.spare ≤ self.new.spare }
        ensures few { self.new.spare ≤ max self.old.spare n }
        ensures room { OnOk result (n ≤ self.new.spare) }
    {
        self.room = grown(&mut self.joints, self.room, n, MOST)?;
        Ok(())
    }

    /// Leaves the joint 0 alone, with the steps of a view.
    pub(crate) fn clear(&mut self, view: &View)
        ensures lists { self.new.lists ≡ steps_of_view view.now ∷ [] }
        ensures room { self.new.spare + length self.new.lists ≡ self.old.spare + length self.old.lists }
    {
        self.view = ViewSteps::of(view);
        self.joints.clear();
    }

    /// Appends a joint of this pose above a joint, and answers its number; where no room is left, it answers the pose.
    pub(crate) fn push(&mut self, up: u32, pose: Pose) -> Result<u32, Pose>
        requires { up < length self.old.lists }
        ensures answer { result ≡ (if self.old.spare == 0 then Err pose else Ok (length self.old.lists)) }
        ensures list { self.new ≡ with_joint up (pose_steps pose) self.old }
    {
        let len = self.joints.len();
        if len == self.room {
            return Err(pose);
        }
        let steps = JointSteps::of(&pose);
        match self.joints.push(Joint { up, steps }) {
            Ok(()) => Ok(len as u32 + 1),
            Err(_) => unreachable!(),
        }
    }

    /// A point of a joint's coordinates in eye coordinates.
    pub(crate) fn eye(&self, joint: u32, v: Vec3) -> Vec3
        requires { joint < length self.now.lists }
        ensures { point_of result ≡ carry (steps_at self.now.lists joint) (point_of v) }
    {
        let mut at = joint as usize;
        let mut point = v;
        while at > 0 {
            let next = &self.joints[at - 1];
            point = next.steps.carry(point);
            at = next.up as usize;
        }
        self.view.carry(point)
    }

    /// A box of a joint's coordinates in eye coordinates.
    pub(crate) fn eye_box(&self, joint: u32, b: &Box3) -> Box3
        requires { joint < length self.now.lists }
        ensures { bounds_of result ≡ carry_box (steps_at self.now.lists joint) (bounds_of b.now) }
    {
        let mut at = joint as usize;
        let mut around = *b;
        while at > 0 {
            let next = &self.joints[at - 1];
            around = next.steps.carry_box(&around);
            at = next.up as usize;
        }
        self.view.carry_box(&around)
    }
}
