//! Commands that the scene has to refuse for now, graves, and the copies of changed triangles.
use draw_list::DrawList;
use fx_math::Vec3;
use pf_history::Reply;
use pf_io::NoMemory;
use pf_model::{Edit, Geom, Kind, Tri, View};
use pf_scene::{
    Channels, EditAct, FrameAct, Home, Outcome, Scene, SightGlance, StopAct, SyncAct, ViewAct,
};
use seat_lock::{Act, Glance, Logged};
use std::alloc::Global;
use std::process::Abort;
use std::test::Fail;
use update_lists::{Cut, Updates};

/// A command of the application, which has the seat 0, or a question.
#[derive(Clone, Copy)]
enum Step {
    /// Makes a geode of one red triangle.
    Geode(u16),
    Add(u16, u16),
    Delete(u16),
    Scale(u16, i32),
    View(u8),
    Frame,
    Sync(u32),
    Stop,
    /// Asks for the number of graves.
    Graves,
    /// Asks for the number of entries.
    Entries,
}

/// What the scene tells of a command.
#[derive(Clone, Copy, Debug, PartialEq, Eq)]
pub(crate) enum Told {
    Done,
    /// The first of the serials that were freed, and their number.
    Freed(Option<u32>, usize),
    /// The number of the frame, how many ids changed before it, the unfolded size, and the number of triangles.
    Began(u32, usize, u32, u32),
    Count(usize),
    NotNow,
    Other,
}

/// The geometry of one triangle of this colour at the origin.
fn geom(alloc: Global, colour: [u8; 3]) -> Result<Geom, NoMemory> {
    let tri = Tri {
        v: [Vec3::ORIGIN; 3],
        c: [colour; 3],
    };
    Geom::new(vec![in alloc; tri]?)
}

fn of_reply(reply: &Reply) -> Told {
    match reply {
        Reply::Done => Told::Done,
        Reply::Freed(serials) => Told::Freed(serials.at(0), serials.len()),
        _ => Told::Other,
    }
}

fn of_outcome<B: Drop>(outcome: Outcome<Reply, B>) -> Told {
    match outcome {
        Outcome::Entered(reply) => of_reply(&reply),
        Outcome::NotNow(_) => Told::NotNow,
        Outcome::NoMemory(_) => Told::Other,
    }
}

/// Makes an edit, and tells of it.
pub(crate) fn edit(scene: &mut Scene, edit: Edit) -> Told {
    of_outcome((EditAct { edit }).act(scene, 0))
}

fn view(scene: &mut Scene, channel: u8) -> Told {
    let view = View::home();
    of_outcome((ViewAct { channel, view }).act(scene, 0))
}

/// A Sync that brings these lists home.
fn sync(scene: &mut Scene, retired: u32, lists: Vec<Updates>) -> Told {
    let home = Home { lists };
    match (SyncAct { retired, home }).act(scene, 0) {
        Outcome::Entered(synced) => of_reply(&synced.reply),
        Outcome::NotNow(_) => Told::NotNow,
        Outcome::NoMemory(_) => Told::Other,
    }
}

/// The cut of a frame, or none where it may not be begun.
pub(crate) fn frame(alloc: Global, scene: &mut Scene) -> Result<Option<Cut>, NoMemory> {
    let mut lists = Vec::new(alloc);
    for _ in 0..scene.channels() {
        lists.push(DrawList::new(alloc))?;
    }
    let channels = Channels { lists };
    let ahead = scene.ahead();
    match (FrameAct { ahead, channels }).act(scene, 0) {
        Outcome::Entered(framed) => Ok(Some(framed.cut)),
        Outcome::NotNow(_) => Ok(None),
        Outcome::NoMemory(_) => Err(NoMemory),
    }
}

/// What a cut and a copy of its list tell.
fn of_frame(cut: Option<Cut>) -> Result<Told, NoMemory> {
    match cut {
        Some(cut) => {
            let changed = cut.updates.copy()?.len();
            Ok(Told::Began(cut.frame, changed, cut.size, cut.tris))
        }
        None => Ok(Told::NotNow),
    }
}

/// Sets the stop mark, and tells it.
fn stop(scene: &mut Scene) -> Told {
    StopAct.act(scene, 0);
    if SightGlance.glance(scene).stopped {
        Told::Done
    } else {
        Told::NotNow
    }
}

/// What the scene tells of a command.
fn take(alloc: Global, scene: &mut Scene, step: Step) -> Result<Told, NoMemory> {
    Ok(match step {
        Step::Geode(id) => {
            let geom = geom(alloc, [255, 0, 0])?;
            let kind = Kind::Geode { state: 0, geom };
            edit(scene, Edit::Make { id, kind })
        }
        Step::Add(parent, child) => edit(scene, Edit::Add { parent, child }),
        Step::Delete(id) => edit(scene, Edit::Delete { id }),
        Step::Scale(id, s) => edit(scene, Edit::Scale { id, s }),
        Step::View(channel) => view(scene, channel),
        Step::Frame => of_frame(frame(alloc, scene)?)?,
        Step::Sync(retired) => sync(scene, retired, Vec::new(alloc)),
        Step::Stop => stop(scene),
        Step::Graves => Told::Count(scene.graves()),
        Step::Entries => Told::Count(scene.entries() as usize),
    })
}

/// The scene takes commands, each of which has to tell what stands beside it.
fn play(
    rt: &impl Abort,
    alloc: Global,
    scene: &mut Scene,
    steps: &[(Step, Told)],
) -> Result<(), NoMemory> {
    for i in 0..steps.len() {
        let (step, told) = steps[i];
        assert_eq!(rt; take(alloc, scene, step)?, told, "at {i}");
    }
    Ok(())
}

/// Two channels, two frames ahead: what may not be done now is refused and leaves no entry.
#[test]
fn acts_test_their_conditions(rt: HostRuntime) -> Result<(), Fail> {
    let mut scene = Scene::new(rt.alloc(), 2, 2)?;
    let steps = [
        (Step::View(1), Told::Done),
        (Step::View(2), Told::NotNow),
        (Step::Scale(1, 2_000_000), Told::NotNow),
        (Step::Sync(1), Told::NotNow),
        (Step::Geode(1), Told::Done),
        (Step::Geode(2), Told::Done),
        (Step::Frame, Told::Began(1, 2, 1, 2)),
        (Step::Delete(1), Told::Done),
        (Step::Frame, Told::Began(2, 1, 1, 1)),
        (Step::Delete(2), Told::Done),
        (Step::Frame, Told::NotNow),
        (Step::Sync(0), Told::Freed(None, 0)),
        (Step::Graves, Told::Count(2)),
        (Step::Sync(1), Told::Freed(Some(1), 1)),
        (Step::Sync(2), Told::Freed(Some(2), 1)),
        (Step::Sync(3), Told::NotNow),
        (Step::Graves, Told::Count(0)),
        (Step::Stop, Told::Done),
        (Step::Entries, Told::Count(10)),
    ];
    play(&rt, rt.alloc(), &mut scene, &steps)?;
    assert_eq!(rt; scene.into_history().len(), 10);
    Ok(())
}

/// The scene of a geode under the id 5 that one frame shows.
fn shown_geode(alloc: Global) -> Result<Scene, NoMemory> {
    let mut scene = Scene::new(alloc, 1, 1)?;
    take(alloc, &mut scene, Step::Geode(5))?;
    take(alloc, &mut scene, Step::Add(0, 5))?;
    take(alloc, &mut scene, Step::Frame)?;
    Ok(scene)
}

/// Writes a colour to the geode of the id 5, retires a frame, brings lists home, and begins the next frame, whose list is
/// then away.
fn coloured(
    alloc: Global,
    scene: &mut Scene,
    retired: u32,
    home: Vec<Updates>,
) -> Result<Vec<Updates>, NoMemory> {
    let geom = geom(alloc, [0, 0, 255])?;
    edit(scene, Edit::Verts { id: 5, geom });
    sync(scene, retired, home);
    let mut away = Vec::new(alloc);
    if let Some(cut) = frame(alloc, scene)? {
        away.push(cut.updates)?;
    }
    Ok(away)
}

/// The number of copies after so many frames, each with a new colour, where the lists of all that change come home with the
/// next frame or stay away.
fn copies_after(alloc: Global, frames: u32, come_home: bool) -> Result<u32, NoMemory> {
    let mut scene = shown_geode(alloc)?;
    let mut home = Vec::new(alloc);
    for retired in 1..frames {
        let away = coloured(alloc, &mut scene, retired, home)?;
        home = if come_home { away } else { Vec::new(alloc) };
    }
    Ok(scene.copies())
}

/// Lists that come home bring their copies, and those that stay away are made anew.
#[test]
fn copies_of_changed_triangles(rt: HostRuntime) -> Result<(), Fail> {
    for (frames, come_home, want) in [
        (2, true, 2),
        (6, true, 2),
        (2, false, 2),
        (3, false, 3),
        (4, false, 4),
    ] {
        let copies = copies_after(rt.alloc(), frames, come_home)?;
        assert_eq!(rt; copies, want, "{frames} {come_home}");
    }
    Ok(())
}
