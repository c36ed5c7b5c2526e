//! The renderer.
ghost use Rattle.std.specs.Prelude.{◌≡◌, ◌*◌, ◌<◌, ◌≤◌, [], IfOk};
ghost use Rattle.std.specs.Int.{div_ceil};
ghost use Rattle.ppm_out.specs.Pixmap.{Shows};
ghost use Rattle.tri_cover.specs.Picture.{picture};
ghost use Rattle.draw_list.specs.Lists.{instances_in};
ghost use Rattle.depth_raster.specs.Strips.{band_at, IsToBe, AreToBe};

use crate::across::COLUMNS;
use crate::batch::Batch;
use crate::blocks::Block;
use crate::making::make_strips;
use crate::piece_buffer::ROOM;
use crate::piece_raster::{add_ground, end_picture};
use crate::strip::Strip;
use crate::strips::ROWS;
use draw_list::DrawList;
use fx_math::Lens;
use pf_io::NoMemory;
use ppm_out::Image;
use std::alloc::Global;
use std::marker::Model;
use std::thread::Threads;

/// A renderer with a depth buffer for the pictures of one lens, which it is seen as. Its tiles are made for the first picture, before
/// anything of it is drawn: those of a large one in several threads, which claim its strips for that. Until then their memory was
/// not touched.
pub struct Raster {
    lens: Lens,
    strips: Vec<Strip>,
    batch: Batch,
}

/// Written out, so that to drop one is a single call.
impl Drop for Raster {
    fn drop(self) {
        let Self {
            lens: _,
            strips: _,
            batch: _,
        } = self;
    }
}

impl Model for Raster {
    ghost use Rattle.std.specs.Prelude.{◌≡◌, []};
    ghost use Rattle.fx_math.specs.declared.lenses.Lens.{Lens};
    ghost use Rattle.depth_raster.specs.Strips.{AreToBe};

    ghost Value = { Lens };

    ghost view = { λ r. r.lens };

    ghost invariant = { λ r. AreToBe r.lens r.strips.items × (r.batch.pieces ≡ []) };
}

impl Raster {
    /// The renderer of a lens, with all the memory that its pictures need.
    pub fn new(alloc: Global, lens: &Lens) -> Result<Raster, NoMemory>
        ensures { IfOk result (λ raster. raster ≡ lens.now) }
    {
        let strips = new_strips(alloc, lens)?;
        let batch = Batch::new(alloc)?;
        Ok(Raster {
            lens: *lens,
            strips,
            batch,
        })
    }

    /// Draws the picture of a draw list before a background into an image of the lens's size: at each pixel the nearest
    /// triangle of the opaque items, under the glass in its order, from far to near. Any list will do, also one that is
    /// not in order. Where several processors draw, the claims of strips take three small blocks of memory; the picture is the
    /// same with threads and without, and whether there is that memory or not.
    pub fn draw<R: Threads + Sync>(
        &mut self,
        rt: &R,
        list: &DrawList,
        back: [u8; 3],
        image: &mut Image,
    )
        requires width { image.old.width ≡ self.old.w }
        requires height { image.old.height ≡ self.old.h }
        ensures lens { self.new ≡ self.old }
        ensures width { image.new.width ≡ image.old.width }
        ensures height { image.new.height ≡ image.old.height }
        ensures pixels { Shows image.new (picture self.old back (instances_in list.now)) }
    {
        draw_all(
            rt,
            &mut self.strips,
            &mut self.batch,
            &self.lens,
            list,
            back,
            image,
        );
    }
}

/// Draws the picture of a list, as a picture in one piece, and puts it into an image.
fn draw_all<R: Threads + Sync>(
    rt: &R,
    strips: &mut Vec<Strip>,
    batch: &mut Batch,
    lens: &Lens,
    list: &DrawList,
    back: [u8; 3],
    image: &mut Image,
)
    requires strips { AreToBe lens.now strips.old.items }
    requires empty { batch.old.pieces ≡ [] }
    requires width { image.old.width ≡ lens.now.w }
    requires height { image.old.height ≡ lens.now.h }
    ensures strips { AreToBe lens.now strips.new.items }
    ensures empty { batch.new.pieces ≡ [] }
    ensures width { image.new.width ≡ image.old.width }
    ensures height { image.new.height ≡ image.old.height }
    ensures pixels { Shows image.new (picture lens.now back (instances_in list.now)) }
{
    make_strips(rt, &mut batch.processors, strips, lens);
    batch.begin();
    let glazing = add_ground(rt, strips, batch, lens, back, list);
    end_picture(rt, glazing, strips, batch, lens, back, image);
}

/// The strips of a lens's picture, from the top, whose tiles are still to be made.
pub(crate) fn new_strips(alloc: Global, lens: &Lens) -> Result<Vec<Strip>, NoMemory>
    ensures { IfOk result (λ strips. AreToBe lens.now strips.items) }
{
    let count = lens.h.div_ceil(ROWS);
    let mut strips = Vec::with_capacity(alloc, count as usize)?;
    for i in 0..count {
        strips.push(new_strip(alloc, band_at(lens, i))?)?;
    }
    Ok(strips)
}

/// The band of a number in a lens's picture.
fn band_at(lens: &Lens, i: u16) -> Block
    requires { 16 * i < lens.now.h }
    ensures { result ≡ band_at lens.now i }
{
    let first = ROWS * i;
    Block {
        left: 0,
        first,
        width: lens.w,
        rows: ROWS.min(lens.h - first),
    }
}

/// A strip whose tiles are still to be made, with room for them.
fn new_strip(alloc: Global, band: Block) -> Result<Strip, NoMemory>
    requires { band.rows ≤ 16 }
    ensures { IfOk result (λ s. (s.band ≡ band) × IsToBe s) }
{
    let tiles = Vec::with_capacity(alloc, band.width.div_ceil(COLUMNS) as usize)?;
    let mut slots = Vec::new(alloc);
    slots.reserve(ROOM)?;
    let rows = vec![in alloc; 0; 3 * (band.rows as usize * band.width as usize)]?;
    Ok(Strip {
        band,
        tiles,
        slots,
        rows,
    })
}
