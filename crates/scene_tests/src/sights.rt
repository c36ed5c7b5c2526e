//! What is seen of small scenes: the nearest hit of a segment, and a draw list that is sent in pieces.
ghost use Rattle.std.specs.Prelude.{◌≡◌, ◌<◌};

use crate::plays::{edit, frame};
use fx_math::{Box3, Lens, MAX_COORDINATE, Vec3};
use isect_stage::IsectStage;
use multibuffer::StageCopy;
use nearest_hit::{Near, Segment, crossing_time, probe};
use pf_model::{Edit, Geom, Kind, Steps, Tri, View};
use pf_scene::Scene;
use std::alloc::Global;
use std::marker::Brand;
use std::sync::ledger::{Blank, Ledger};
use std::test::Fail;
use stream_stages::{Piece, Stats, StreamWalk};
use update_lists::Updates;

/// A coordinate that is none.
const BEYOND: &str = "a coordinate out of range";

/// The corners of a triangle that faces the eye at a depth and covers the whole picture.
fn corners(depth: i32) -> Option<[Vec3; 3]> {
    Some([
        Vec3::new(-40_960, depth, -40_960)?,
        Vec3::new(40_960, depth, -40_960)?,
        Vec3::new(0, depth, 81_920)?,
    ])
}

/// Such a triangle.
fn facing(alloc: Global, depth: i32) -> Result<Geom, Fail> {
    let tri = Tri {
        v: corners(depth).ok_or(BEYOND)?,
        c: [[255, 0, 0]; 3],
    };
    Ok(Geom::new(vec![in alloc; tri]?)?)
}

/// Puts a node of this kind below the scene.
fn put(scene: &mut Scene, id: u16, kind: Kind) {
    edit(scene, Edit::Make { id, kind });
    let (parent, child) = (0, id);
    edit(scene, Edit::Add { parent, child });
}

/// The update list of the first frame of a scene with these nodes under the ids 1 and 2, or with the first alone.
fn updates_of(alloc: Global, first: Kind, second: Option<Kind>) -> Result<Updates, Fail> {
    let mut scene = Scene::new(alloc, 1, 1)?;
    put(&mut scene, 1, first);
    if let Some(kind) = second {
        put(&mut scene, 2, kind);
    }
    let cut = frame(alloc, &mut scene)?.ok_or("no frame")?;
    Ok(cut.updates)
}

/// A stage's copy of what an update list brings.
fn copy_of(alloc: Global, updates: Updates) -> Result<StageCopy, Fail> {
    let mut copy = StageCopy::new(alloc)?;
    copy.take(updates);
    Ok(copy)
}

/// The segment of this length straight ahead of the eye.
fn ahead(length: i32) -> Option<Segment> {
    let to = Vec3::new(0, length, 0)?;
    let from = Vec3::ORIGIN;
    Some(Segment { from, to })
}

/// The nearest hit in what an update list brings, as the stage finds it.
fn asked(alloc: Global, segment: Segment, updates: &Updates) -> Result<Option<Near>, Fail> {
    let mut stage = IsectStage::new(alloc, segment)?;
    stage.frame(1, &View::home(), updates)?;
    let answer = stage.answers().first().ok_or("no answer")?;
    Ok(*answer)
}

/// The nearest hit in a copy at the first frame.
fn probed<L: Ledger>(blank: Blank, copy: &StageCopy, segment: &Segment) -> Option<Near>
    requires name { blank.name ≡ L.name }
    requires parts { blank.parts ≡ L.parts }
    requires some { 0 < L.parts }
{
    probe(copy, 1, &View::home(), segment, &mut Steps::<L>::new(blank))
}

#[test]
fn box_around_a_segment(rt: HostRuntime) -> Result<(), Fail> {
    let point = |x, y, z| Vec3::new(x, y, z).ok_or(BEYOND);
    let segment = Segment {
        from: point(-1, 2, 9)?,
        to: point(3, -5, 7)?,
    };
    let (lo, hi) = (point(-1, -5, 7)?, point(3, 2, 9)?);
    assert_eq!(rt; segment.around(), Box3 { lo, hi });
    Ok(())
}

/// A triangle one unit away, and segments of two units, of one, and of a little less.
#[test]
fn hits_at_three_lengths(rt: HostRuntime) -> Result<(), Fail> {
    let corners = corners(4_096).ok_or(BEYOND)?;
    let geom = facing(rt.alloc(), 4_096)?;
    let updates = updates_of(rt.alloc(), Kind::Geode { state: 0, geom }, None)?;
    let copy = copy_of(rt.alloc(), updates.copy()?)?;
    for (length, time) in [(8_192, Some(32_768)), (4_096, Some(65_536)), (4_095, None)] {
        let segment = ahead(length).ok_or(BEYOND)?;
        let (place, tri, id) = (0, 0, 1);
        let want = time.map(|t| Near { t, place, tri, id });
        assert_eq!(rt; crossing_time(&segment, corners), time, "{length}");
        assert_eq!(rt; asked(rt.alloc(), segment, &updates)?, want, "{length}");
        assert_eq!(rt;
            probed::<Brand>(Blank::new(1), &copy, &segment),
            want,
            "{length}"
        );
    }
    Ok(())
}

/// Fills a piece with what a walk sends next.
fn fill<L: Ledger>(blank: Blank, walk: &mut StreamWalk, copy: &StageCopy, piece: &mut Piece)
    requires name { blank.name ≡ L.name }
    requires parts { blank.parts ≡ L.parts }
    requires some { 0 < L.parts }
{
    walk.fill(copy, piece, &mut Steps::<L>::new(blank));
}

/// The places of what is sent of a copy in pieces of one item, four of them at most, and the numbers of the last piece.
fn sent(alloc: Global, copy: &StageCopy) -> Result<([Option<u32>; 4], Option<Stats>), Fail> {
    let lens = Lens::new(2, 2, 1, 1, MAX_COORDINATE).ok_or("a lens out of range")?;
    let mut walk = StreamWalk::new(alloc)?;
    let mut piece = Piece::new(alloc, 1)?;
    let mut places = [None; 4];
    walk.start(1, &View::home(), &lens);
    for number in 0..4 {
        if !piece.is_last() {
            fill::<Brand>(Blank::new(1), &mut walk, copy, &mut piece);
            places[number] = piece.list().item(0).map(|item| item.place);
        }
    }
    let numbers = piece.is_last().then_some(piece.stats());
    Ok((places, numbers))
}

/// Opaque instances are sent as they are found.
#[test]
fn opaque_in_pieces(rt: HostRuntime) -> Result<(), Fail> {
    let (state, geom) = (5, facing(rt.alloc(), 4_096)?);
    let first = Kind::Geode { state, geom };
    let (state, geom) = (1, facing(rt.alloc(), 4_096)?);
    let second = Kind::Geode { state, geom };
    let updates = updates_of(rt.alloc(), first, Some(second))?;
    let (places, numbers) = sent(rt.alloc(), &copy_of(rt.alloc(), updates)?)?;
    let (shown, states, visited) = (2, 2, 3);
    assert_eq!(rt; places, [Some(0), Some(1), None, None]);
    assert_eq!(rt;
        numbers,
        Some(Stats {
            shown,
            states,
            visited
        })
    );
    Ok(())
}

/// A pane at a depth.
fn pane(alloc: Global, depth: i32) -> Result<Kind, Fail> {
    let (state, alpha, geom) = (0, 128, facing(alloc, depth)?);
    Ok(Kind::Glass { state, alpha, geom })
}

/// Of two panes the one behind is sent first.
#[test]
fn glass_in_pieces(rt: HostRuntime) -> Result<(), Fail> {
    let (near, far) = (pane(rt.alloc(), 2_048)?, pane(rt.alloc(), 8_192)?);
    let updates = updates_of(rt.alloc(), near, Some(far))?;
    let (places, numbers) = sent(rt.alloc(), &copy_of(rt.alloc(), updates)?)?;
    let (shown, states, visited) = (2, 0, 3);
    assert_eq!(rt; places, [Some(1), Some(0), None, None]);
    assert_eq!(rt;
        numbers,
        Some(Stats {
            shown,
            states,
            visited
        })
    );
    Ok(())
}
