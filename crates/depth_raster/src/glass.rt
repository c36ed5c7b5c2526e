//! Glass over a picture, batch by batch.
ghost use Rattle.std.specs.Prelude.{◌≡◌, ◌<◌, [], filter, length};
ghost use Rattle.std.specs.Option.{option_to_list};
ghost use Rattle.std.specs.List.{slice_get};
ghost use Rattle.draw_list.specs.Items.{instance_of_item};
ghost use Rattle.draw_list.specs.Lists.{instances_in};
ghost use Rattle.tri_cover.specs.Glass.{is_glass, is_drawn_before};
ghost use Rattle.tri_cover.specs.Sorting.{sorted};
ghost use Rattle.depth_raster.specs.Canvas.{Glazes, face_glazed, instance_glazed, glass_glazed};
ghost use Rattle.depth_raster.specs.Strips.{AreStrips};

use crate::batch::Batch;
use crate::faces::{Face, at_eye};
use crate::glass_strips::glaze_strips;
use crate::panes::{are_in_order, next_pane};
use crate::recent::Recent;
use crate::strip::Strip;
use crate::work::{processors_for, work_of_pieces};
use draw_list::{DrawList, Item};
use fx_math::Lens;
use std::thread::Threads;

/// Draws the glass of a list, from far to near.
pub(crate) fn draw_glass<R: Threads + Sync>(
    rt: &R,
    strips: &mut Vec<Strip>,
    batch: &mut Batch,
    lens: &Lens,
    list: &DrawList,
)
    requires sound { AreStrips lens.now strips.old.items }
    ensures sound { AreStrips lens.now strips.new.items }
    ensures glass { Glazes lens.now strips.old.items batch.old.pieces strips.new.items batch.new.pieces
        (glass_glazed lens.now (sorted is_drawn_before (filter is_glass (instances_in list.now)))) }
{
    let in_order = are_in_order(list);
    let mut last = None;
    for count in 0..list.len() {
        let pane = match next_pane(list, in_order, last) {
            Some(pane) => pane,
            None => return,
        };
        draw_pane(rt, strips, batch, lens, list, pane.number);
        last = Some(pane);
    }
}

/// Draws the item of a number, which is glass.
fn draw_pane<R: Threads + Sync>(
    rt: &R,
    strips: &mut Vec<Strip>,
    batch: &mut Batch,
    lens: &Lens,
    list: &DrawList,
    number: usize,
)
    requires sound { AreStrips lens.now strips.old.items }
    ensures sound { AreStrips lens.now strips.new.items }
    ensures glass { Glazes lens.now strips.old.items batch.old.pieces strips.new.items batch.new.pieces
        (glass_glazed lens.now (option_to_list (slice_get (instances_in list.now) number))) }
{
    match list.item(number) {
        Some(item) => draw_item(rt, strips, batch, lens, list, item),
        None => {}
    }
}

/// Draws the triangles of an item of glass.
fn draw_item<R: Threads + Sync>(
    rt: &R,
    strips: &mut Vec<Strip>,
    batch: &mut Batch,
    lens: &Lens,
    list: &DrawList,
    item: &Item,
)
    requires sound { AreStrips lens.now strips.old.items }
    requires joint { item.now.joint < length list.now.joints.lists }
    ensures sound { AreStrips lens.now strips.new.items }
    ensures glass { Glazes lens.now strips.old.items batch.old.pieces strips.new.items batch.new.pieces
        (instance_glazed lens.now (instance_of_item list.now.joints.lists list.now.kept.tris item.now)) }
{
    let mut recent = Recent::new(item.joint);
    for number in 0..item.geom.len {
        let tri = match list.tri(item.geom, number) {
            Some(tri) => tri,
            None => return,
        };
        let carried = at_eye(list, item.joint, &tri, &mut recent);
        let face = Face::of(item, number, carried);
        draw_face(rt, strips, batch, lens, face);
    }
}

/// Draws a face of glass: it becomes one of those that are drawn together; where these have no more room, they are drawn
/// before.
fn draw_face<R: Threads + Sync>(
    rt: &R,
    strips: &mut Vec<Strip>,
    batch: &mut Batch,
    lens: &Lens,
    face: Face,
)
    requires sound { AreStrips lens.now strips.old.items }
    ensures sound { AreStrips lens.now strips.new.items }
    ensures glass { Glazes lens.now strips.old.items batch.old.pieces strips.new.items batch.new.pieces
        (face_glazed lens.now face) }
{
    make_room(rt, strips, batch, lens);
    batch.push(face);
}

/// Draws a full batch.
fn make_room<R: Threads + Sync>(rt: &R, strips: &mut Vec<Strip>, batch: &mut Batch, lens: &Lens)
    requires sound { AreStrips lens.now strips.old.items }
    ensures sound { AreStrips lens.now strips.new.items }
    ensures room { length batch.new.pieces < 16384 }
    ensures glass { Glazes lens.now strips.old.items batch.old.pieces strips.new.items batch.new.pieces
        (λ behind px py under. under) }
{
    if batch.is_full() {
        flush(rt, strips, batch, lens);
    }
}

/// Draws the pieces of glass of a batch, which has none then.
pub(crate) fn flush<R: Threads + Sync>(
    rt: &R,
    strips: &mut Vec<Strip>,
    batch: &mut Batch,
    lens: &Lens,
)
    requires sound { AreStrips lens.now strips.old.items }
    ensures sound { AreStrips lens.now strips.new.items }
    ensures empty { batch.new.pieces ≡ [] }
    ensures glass { Glazes lens.now strips.old.items batch.old.pieces strips.new.items []
        (λ behind px py under. under) }
{
    if batch.pieces.len() == 0 {
        return;
    }
    batch.make_ready(rt, lens);
    let work = work_of_pieces(batch.pieces.as_slice());
    let processors = processors_for(rt, &mut batch.processors, work);
    glaze_strips(rt, processors, lens, batch.pieces.as_slice(), strips);
    batch.clear();
}
