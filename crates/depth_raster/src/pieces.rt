//! Faces made ready to be drawn.
ghost use Rattle.std.specs.Prelude.{◌≡◌, ◌+◌, ◌*◌, ◌<◌, ◌≤◌, All, length};
ghost use Rattle.std.specs.Thread.{IsSync};
ghost use Rattle.tri_cover.specs.Readiness.{IsReady};
ghost use Rattle.depth_raster.specs.Around.{IsAround, IsBoxOf};
ghost use Rattle.depth_raster.specs.Pieces.{IsMadeReady, AreMadeReady, IsThere, AreThere, IsPrepared, ArePrepared};
ghost use Rattle.depth_raster.specs.Slots.{AreTaken};
ghost use Rattle.depth_raster.specs.Recent.{AreCarried};

use crate::extents::Extent;
use crate::faces::{Face, at_eye};
use crate::idle::Idle;
use crate::leasts::least_mark;
use crate::recent::Recent;
use crate::slots::Slot;
use crate::small::is_small;
use crate::waiting::Waiting;
use crate::work::{FEW_PIECES, is_more_to_prepare, next_pieces};
use draw_list::DrawList;
use edge_values::about;
use fx_math::{Lens, Vec3};
use pf_model::Tri;
use std::thread::{Threads, for_each_mut, join_mut};
use tri_cover::face_of;

/// A labelled face whose triangle has come to the eye, and of the triangle what is reckoned once it is made ready: the face by which
/// it is looked at, where it can be hit at all, whether its edge values are small, a float that is about the dividend of its
/// depths, from which they are guessed, a depth before which no mark of it lies, and the columns and rows in which it can be hit.
#[derive(Clone, Copy)]
pub(crate) struct Piece {
    pub(crate) face: Face,
    pub(crate) ready: Option<tri_cover::Face>,
    pub(crate) small: bool,
    pub(crate) about: f64,
    pub(crate) least: u32,
    pub(crate) extent: Extent,
}

impl Piece {
    /// A piece of no triangle: of one that is the point 0.
    pub(crate) fn blank() -> Piece {
        Piece::bare(Face {
            tri: Tri {
                v: [Vec3::ORIGIN; 3],
                c: [[0; 3]; 3],
            },
            place: 0,
            shift: 0,
            number: 0,
            rank: 0,
            alpha: 0,
        })
    }

    /// A face of which nothing is reckoned yet.
    pub(crate) fn bare(face: Face) -> Piece
        ensures { result.face ≡ face }
    {
        Piece {
            face,
            ready: None,
            small: false,
            about: 0.0,
            least: 0,
            extent: Extent {
                left: 0,
                right: 0,
                top: 0,
                bottom: 0,
            },
        }
    }

    /// Becomes the piece of a triangle that waits: brings it to the eye, and makes it ready for a lens.
    fn prepare(&mut self, waiting: &Waiting, list: &DrawList, lens: &Lens, recent: &mut Recent)
        requires there { IsThere list.now waiting.now.item waiting.now.number }
        requires carried { AreCarried list.now.joints.lists recent.old }
        ensures carried { AreCarried list.now.joints.lists recent.new }
        ensures prepared { IsPrepared list.now lens.now waiting.now self.new }
    {
        let Some(item) = list.item(waiting.item) else {
            return;
        };
        let Some(tri) = list.tri(item.geom, waiting.number) else {
            return;
        };
        let carried = at_eye(list, item.joint, &tri, recent);
        self.face = Face {
            rank: waiting.rank,
            ..Face::of(item, waiting.number, carried)
        };
        self.make_ready(lens);
    }

    /// Makes the face, whose triangle has come to the eye, ready for a lens.
    fn make_ready(&mut self, lens: &Lens)
        ensures { IsMadeReady lens.now self.old self.new }
    {
        let ready = face_of(&self.face.tri, lens);
        self.extent = extent_of(&self.face.tri, &ready, lens);
        self.small = is_small(&ready);
        self.about = about_dividend(&ready);
        self.least = least_mark(&self.face);
        self.ready = ready;
    }
}

/// A float that is about the dividend of a face; 0 where there is none.
fn about_dividend(ready: &Option<tri_cover::Face>) -> f64 {
    match ready {
        Some(face) => about(face.dividend),
        None => 0.0,
    }
}

/// Prepares the pieces of triangles of a list that wait, and their slots. So many other processors that have nothing to do get their
/// shares first. The rest is prepared a few after the others; who has nothing to do meanwhile gets its share of those that are left.
/// It goes so many levels deep at most, one for each few pieces.
#[cycle(preparing)]
pub(crate) fn prepare<R: Threads + Sync>(
    rt: &R,
    idle: &Idle,
    levels: usize,
    others: u64,
    waiting: &[Waiting],
    pieces: &mut [Piece],
    slots: &mut [Slot],
    list: &DrawList,
    lens: &Lens,
)
    requires levels { length waiting.now ≤ 256 * (levels + 1) }
    requires count { length waiting.now ≡ length pieces.old }
    requires slots { length waiting.now ≡ length slots.old }
    requires listed { AreThere list.now waiting.now }
    ensures pieces { ArePrepared list.now lens.now waiting.now pieces.new }
    ensures slots { AreTaken pieces.new slots.old slots.new }
{
    if waiting.len() <= FEW_PIECES {
        prepare_in_turn(waiting, pieces, slots, list, lens);
        idle.give();
        return;
    }
    let others = if others == 0 && is_more_to_prepare(waiting.len()) {
        idle.take_all()
    } else {
        others
    };
    let count = next_pieces(waiting.len(), others);
    let (first, later) = waiting.split_at(count);
    let (front, rest) = pieces.split_at_mut(count);
    let (front_slots, rest_slots) = slots.split_at_mut(count);
    prepare_both(
        rt,
        idle,
        levels - 1,
        others,
        first,
        later,
        front,
        rest,
        front_slots,
        rest_slots,
        list,
        lens,
    );
}

/// Prepares some pieces and their slots, and those that come later: the first ones in a thread for one of so many other processors,
/// or before the later ones where there are none.
#[cycle(preparing)]
fn prepare_both<R: Threads + Sync>(
    rt: &R,
    idle: &Idle,
    levels: usize,
    others: u64,
    first: &[Waiting],
    later: &[Waiting],
    front: &mut [Piece],
    rest: &mut [Piece],
    front_slots: &mut [Slot],
    rest_slots: &mut [Slot],
    list: &DrawList,
    lens: &Lens,
)
    requires first_levels { length first.now ≤ 256 * (levels + 1) }
    requires later_levels { length later.now ≤ 256 * (levels + 1) }
    requires front_count { length first.now ≡ length front.old }
    requires rest_count { length later.now ≡ length rest.old }
    requires front_slots { length first.now ≡ length front_slots.old }
    requires rest_slots { length later.now ≡ length rest_slots.old }
    requires front { AreThere list.now first.now }
    requires rest { AreThere list.now later.now }
    ensures front { ArePrepared list.now lens.now first.now front.new }
    ensures rest { ArePrepared list.now lens.now later.now rest.new }
    ensures front_slots { AreTaken front.new front_slots.old front_slots.new }
    ensures rest_slots { AreTaken rest.new rest_slots.old rest_slots.new }
{
    if others == 0 {
        prepare_in_turn(first, front, front_slots, list, lens);
        prepare(rt, idle, levels, 0, later, rest, rest_slots, list, lens);
        return;
    }
    let more = others - 1;
    let mut one = ||
        requires { IsSync R.row × AreThere list.now first.now × (length first.now ≤ 256 * (levels + 1))
            × (length first.now ≡ length front.now) × (length first.now ≡ length front_slots.now) }
        ensures { ArePrepared list.entry.now lens.entry.now first.entry.now front.exit.now
            × AreTaken front.exit.now front_slots.entry.now front_slots.exit.now }
    { prepare(rt, idle, levels, 0, first, front, front_slots, list, lens) };
    let mut all = ||
        requires { IsSync R.row × AreThere list.now later.now × (length later.now ≤ 256 * (levels + 1))
            × (length later.now ≡ length rest.now) × (length later.now ≡ length rest_slots.now) }
        ensures { ArePrepared list.entry.now lens.entry.now later.entry.now rest.exit.now
            × AreTaken rest.exit.now rest_slots.entry.now rest_slots.exit.now }
    { prepare(rt, idle, levels, more, later, rest, rest_slots, list, lens) };
    join_mut(rt, &mut one, &mut all);
}

/// Prepares the piece of one triangle after the other, and its slot.
fn prepare_in_turn(
    waiting: &[Waiting],
    pieces: &mut [Piece],
    slots: &mut [Slot],
    list: &DrawList,
    lens: &Lens,
)
    requires count { length waiting.now ≡ length pieces.old }
    requires slots { length waiting.now ≡ length slots.old }
    requires listed { AreThere list.now waiting.now }
    ensures pieces { ArePrepared list.now lens.now waiting.now pieces.new }
    ensures slots { AreTaken pieces.new slots.old slots.new }
{
    let mut recent = Recent::new(0);
    for i in 0..waiting.len() {
        let piece = &mut pieces[i];
        piece.prepare(&waiting[i], list, lens, &mut recent);
        slots[i].take(piece);
    }
}

/// Makes pieces ready for a lens, in so many parts side by side.
pub(crate) fn make_ready<R: Threads + Sync>(rt: &R, parts: usize, pieces: &mut [Piece], lens: &Lens)
    ensures { AreMadeReady lens.now pieces.old pieces.new }
{
    if parts < 2 {
        make_ready_in_turn(pieces, lens);
    } else {
        make_ready_beside(rt, parts, pieces, lens);
    }
}

/// Makes pieces ready for a lens, in so many threads.
fn make_ready_beside<R: Threads + Sync>(rt: &R, parts: usize, pieces: &mut [Piece], lens: &Lens)
    requires { 0 < parts }
    ensures { AreMadeReady lens.now pieces.old pieces.new }
{
    for_each_mut(
        rt,
        pieces,
        parts,
        &|_i: usize, piece: &mut Piece|
            ensures { IsMadeReady lens.entry.now piece.entry.now piece.exit.now }
        { piece.make_ready(lens) },
    );
}

/// Makes one piece after the other ready for a lens.
fn make_ready_in_turn(pieces: &mut [Piece], lens: &Lens)
    ensures { AreMadeReady lens.now pieces.old pieces.new }
{
    for i in 0..pieces.len() {
        pieces[i].make_ready(lens);
    }
}

/// The columns and rows in which a triangle can be hit: those of its face, or none.
fn extent_of(tri: &Tri, ready: &Option<tri_cover::Face>, lens: &Lens) -> Extent
    requires { IsReady lens.now tri.now ready.now }
    ensures around { IsAround lens.now tri.now result }
    ensures exact { IsBoxOf ready.now result }
{
    match ready {
        Some(face) => Extent {
            left: face.extent.columns.first,
            right: face.extent.columns.last + 1,
            top: face.extent.rows.first,
            bottom: face.extent.rows.last + 1,
        },
        None => Extent {
            left: 0,
            right: 0,
            top: 0,
            bottom: 0,
        },
    }
}
