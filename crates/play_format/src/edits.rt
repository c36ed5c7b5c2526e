//! The edit of a line.
ghost use Rattle.std.specs.Prelude.{◌≡◌, []};
ghost use Rattle.play_format.specs.Places.{number};
ghost use Rattle.play_format.specs.Making.{u8_at, u16_at, u32_at, vector_at, affine_at, edit_of};
ghost use Rattle.pf_model.specs.declared.poses.Pose.TheVariants as pose;
ghost use Rattle.pf_model.specs.declared.nodes.Kind.TheVariants as kind;
ghost use Rattle.pf_model.specs.declared.nodes.Run.TheVariants as run;
ghost use Rattle.pf_model.specs.declared.edits.Edit.TheVariants as edit;
ghost use Rattle.play_format.specs.Written.{new_pose};
ghost use Rattle.fx_math.specs.Constants.{origin_vector};

use crate::commands::Form;
use crate::making::{affine_at, u8_at, u16_at, u32_at, vector_at};
use crate::places::number;
use fx_math::{UNIT, Vec3};
use pf_model::{Edit, Euler, Geom, Kind, Pick, Pose, Ranges, Run, Times};
use std::alloc::Global;

/// The pose of a new dynamic coordinate system.
fn new_pose() -> Pose
    ensures { result ≡ pose.Euler new_pose }
{
    Pose::Euler(Euler {
        scale: UNIT,
        h: 0,
        p: 0,
        r: 0,
        t: Vec3::ORIGIN,
    })
}

fn new_lod(alloc: Global) -> Kind
    ensures { result ≡ kind.Lod origin_vector [] }
{
    Kind::Lod {
        centre: Vec3::ORIGIN,
        ranges: Ranges::new(alloc),
    }
}

fn new_seq(alloc: Global) -> Kind
    ensures { result ≡ kind.Seq [] (run.Held 0) }
{
    Kind::Seq {
        times: Times::new(alloc),
        run: Run::Held(0),
    }
}

/// A new geode of the triangles behind its line.
fn new_geode(numbers: &[i32], geom: Geom) -> Kind
    ensures { result ≡ kind.Geode (u16_at numbers.now 1) geom }
{
    Kind::Geode {
        state: u16_at(numbers, 1),
        geom,
    }
}

/// New glass of the triangles behind its line.
fn new_glass(numbers: &[i32], geom: Geom) -> Kind
    ensures { result ≡ kind.Glass (u16_at numbers.now 1) (u8_at numbers.now 2) geom }
{
    Kind::Glass {
        state: u16_at(numbers, 1),
        alpha: u8_at(numbers, 2),
        geom,
    }
}

fn make(id: u16, kind: Kind) -> Edit
    ensures { result ≡ edit.Make id kind }
{
    Edit::Make { id, kind }
}

/// The link of two nodes.
pub fn add(numbers: &[i32]) -> Edit
    ensures { result ≡ edit.Add (u16_at numbers.now 0) (u16_at numbers.now 1) }
{
    Edit::Add {
        parent: u16_at(numbers, 0),
        child: u16_at(numbers, 1),
    }
}

/// The end of a link of two nodes.
pub fn remove(numbers: &[i32]) -> Edit
    ensures { result ≡ edit.Remove (u16_at numbers.now 0) (u16_at numbers.now 1) }
{
    Edit::Remove {
        parent: u16_at(numbers, 0),
        child: u16_at(numbers, 1),
    }
}

fn insert(numbers: &[i32]) -> Edit
    ensures { result ≡ edit.Insert (u16_at numbers.now 0) (u16_at numbers.now 1) (u16_at numbers.now 2) }
{
    Edit::Insert {
        parent: u16_at(numbers, 0),
        place: u16_at(numbers, 1),
        child: u16_at(numbers, 2),
    }
}

fn replace(numbers: &[i32]) -> Edit
    ensures { result ≡ edit.Replace (u16_at numbers.now 0) (u16_at numbers.now 1) (u16_at numbers.now 2) }
{
    Edit::Replace {
        parent: u16_at(numbers, 0),
        child: u16_at(numbers, 1),
        by: u16_at(numbers, 2),
    }
}

fn set_switch(id: u16, pick: Pick) -> Edit
    ensures { result ≡ edit.Pick id pick }
{
    Edit::Pick { id, pick }
}

fn set_matrix(numbers: &[i32]) -> Edit
    ensures { result ≡ edit.Mat (u16_at numbers.now 0) (affine_at numbers.now 1) }
{
    Edit::Mat {
        id: u16_at(numbers, 0),
        mat: affine_at(numbers, 1),
    }
}

fn set_translation(numbers: &[i32]) -> Edit
    ensures { result ≡ edit.Trans (u16_at numbers.now 0) (vector_at numbers.now 1) }
{
    Edit::Trans {
        id: u16_at(numbers, 0),
        t: vector_at(numbers, 1),
    }
}

fn set_angles(numbers: &[i32]) -> Edit
    ensures { result
        ≡ edit.Rot (u16_at numbers.now 0) (number numbers.now 1) (number numbers.now 2) (number numbers.now 3) }
{
    Edit::Rot {
        id: u16_at(numbers, 0),
        h: number(numbers, 1),
        p: number(numbers, 2),
        r: number(numbers, 3),
    }
}

fn set_scale(numbers: &[i32]) -> Edit
    ensures { result ≡ edit.Scale (u16_at numbers.now 0) (number numbers.now 1) }
{
    Edit::Scale {
        id: u16_at(numbers, 0),
        s: number(numbers, 1),
    }
}

fn set_centre(numbers: &[i32]) -> Edit
    ensures { result ≡ edit.Centre (u16_at numbers.now 0) (vector_at numbers.now 1) }
{
    Edit::Centre {
        id: u16_at(numbers, 0),
        at: vector_at(numbers, 1),
    }
}

fn set_range(numbers: &[i32]) -> Edit
    ensures { result ≡ edit.Range (u16_at numbers.now 0) (u16_at numbers.now 1) (u32_at numbers.now 2) }
{
    Edit::Range {
        id: u16_at(numbers, 0),
        place: u16_at(numbers, 1),
        value: u32_at(numbers, 2),
    }
}

fn set_time(numbers: &[i32]) -> Edit
    ensures { result ≡ edit.Times (u16_at numbers.now 0) (u16_at numbers.now 1) (u16_at numbers.now 2) }
{
    Edit::Times {
        id: u16_at(numbers, 0),
        place: u16_at(numbers, 1),
        frames: u16_at(numbers, 2),
    }
}

/// The edit of a line, and of the triangles behind it.
pub fn edit_of(alloc: Global, form: Form, numbers: &[i32], geom: Geom) -> Edit
    ensures { result ≡ edit_of form numbers.now geom }
{
    let id = u16_at(numbers, 0);
    match form {
        Form::Group => make(id, Kind::Group),
        Form::Switch => make(id, Kind::Switch(Pick::Off)),
        Form::Dcs => make(id, Kind::Dcs(new_pose())),
        Form::Lod => make(id, new_lod(alloc)),
        Form::Seq => make(id, new_seq(alloc)),
        Form::Layer => make(id, Kind::Layer),
        Form::Scs => make(id, Kind::Scs(affine_at(numbers, 1))),
        Form::Geode => make(id, new_geode(numbers, geom)),
        Form::Glass => make(id, new_glass(numbers, geom)),
        Form::Verts => Edit::Verts { id, geom },
        Form::Add => add(numbers),
        Form::Remove => remove(numbers),
        Form::Insert => insert(numbers),
        Form::Replace => replace(numbers),
        Form::Delete => Edit::Delete { id },
        Form::Run => Edit::Run { id },
        Form::Stop => Edit::Stop { id },
        Form::SwitchTo => set_switch(id, Pick::One(u16_at(numbers, 1))),
        Form::SwitchOn => set_switch(id, Pick::On),
        Form::SwitchOff => set_switch(id, Pick::Off),
        Form::Mat => set_matrix(numbers),
        Form::Trans => set_translation(numbers),
        Form::Centre => set_centre(numbers),
        Form::Rot => set_angles(numbers),
        Form::Scale => set_scale(numbers),
        Form::Range => set_range(numbers),
        Form::Times => set_time(numbers),
    }
}
