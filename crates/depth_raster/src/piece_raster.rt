//! The renderer of draw lists that come in pieces.
ghost use Rattle.std.specs.Prelude.{◌≡◌, ℕ, ◌<◌, true, false, List, [], ◌∷◌, ◌++◌, All, filter, IfOk};
ghost use Rattle.std.specs.List.{list_any, slice_get};
ghost use Rattle.std.specs.Option.{option_to_list};
ghost use Rattle.ppm_out.specs.Pixmap.{Shows};
ghost use Rattle.pf_model.specs.Walks.{Instance};
ghost use Rattle.tri_cover.specs.Glass.{is_opaque, is_glass, is_drawn_before};
ghost use Rattle.tri_cover.specs.Picture.{picture};
ghost use Rattle.tri_cover.specs.Sorting.{sorted};
ghost use Rattle.draw_list.specs.Lists.{instances_in};
ghost use Rattle.depth_raster.specs.InPieces.{HasDrawn, held, joined, glass_in_turn, IsGlassInOrder};
ghost use Rattle.depth_raster.specs.Pieces.{IsPieceOf};
ghost use Rattle.depth_raster.specs.Strips.{AreStrips};

use crate::batch::Batch;
use crate::making::make_in_turn;
use crate::raster::new_strips;
use crate::shown::show;
use crate::strip::Strip;
use crate::work::processors_to_show;
use crate::{glass, opaque};
use draw_list::DrawList;
use fx_math::Lens;
use pf_io::NoMemory;
use ppm_out::Image;
use std::alloc::Global;
use std::marker::Model;
use std::thread::Threads;

/// A renderer with a depth buffer for the pictures of one lens, whose draw lists come in pieces: `begin`, `add` for each
/// piece and `finish` make one picture. Triangles gather over the pieces, so many small pieces cost no more drawing than one list.
/// Memory is as with `Raster`.
pub struct PieceRaster {
    lens: Lens,
    back: [u8; 3],
    glazing: bool,
    strips: Vec<Strip>,
    batch: Batch,
}

/// Written out, so that to drop one is a single call.
impl Drop for PieceRaster {
    fn drop(self) {
        let Self {
            lens: _,
            back: _,
            glazing: _,
            strips: _,
            batch: _,
        } = self;
    }
}

impl Model for PieceRaster {
    ghost use Rattle.std.specs.Prelude.{◌≡◌, false, All};
    ghost use Rattle.depth_raster.specs.InPieces.{PieceWork, held};
    ghost use Rattle.depth_raster.specs.Pieces.{IsPieceOf};
    ghost use Rattle.depth_raster.specs.Strips.{AreStrips};

    ghost Value = { PieceWork };

    ghost view = { λ r. held r.lens r.back r.glazing r.batch.is_first r.strips.items r.batch.pieces };

    ghost invariant = { λ r. AreStrips r.lens r.strips.items
        × (r.glazing ≡ false → All (IsPieceOf r.lens) r.batch.pieces) };
}

impl PieceRaster {
    /// The renderer of a lens, with all the memory that its pictures need. It has begun a picture before black.
    pub fn new(alloc: Global, lens: &Lens) -> Result<PieceRaster, NoMemory>
        ensures lens { IfOk result (λ raster. raster.lens ≡ lens.now) }
        ensures back { IfOk result (λ raster. raster.back ≡ 0 ∷ 0 ∷ 0 ∷ []) }
        ensures drawn { IfOk result (λ raster. HasDrawn raster [] []) }
    {
        let mut strips = new_strips(alloc, lens)?;
        make_in_turn(strips.as_mut_slice(), lens);
        let mut batch = Batch::new(alloc)?;
        batch.begin();
        Ok(PieceRaster {
            lens: *lens,
            back: [0; 3],
            glazing: false,
            strips,
            batch,
        })
    }

    /// Begins a picture before a background; what was added since the last `finish` is let go.
    pub fn begin(&mut self, back: [u8; 3])
        ensures lens { self.new.lens ≡ self.old.lens }
        ensures back { self.new.back ≡ back }
        ensures drawn { HasDrawn self.new [] [] }
    {
        self.back = back;
        self.glazing = false;
        self.batch.clear();
        self.batch.begin();
    }

    /// Draws a piece of the draw list: its opaque items, and then its glass in its order. Once glass has come, opaque items
    /// of later pieces are left out.
    pub fn add<R: Threads + Sync>(&mut self, rt: &R, list: &DrawList)
        ensures lens { self.new.lens ≡ self.old.lens }
        ensures back { self.new.back ≡ self.old.back }
        ensures drawn { (xs ys : List Instance) → HasDrawn self.old xs ys
            → (self.old.glazing ≡ true → filter is_opaque (instances_in list.now) ≡ [])
            → HasDrawn self.new (xs ++ instances_in list.now)
            (ys ++ sorted is_drawn_before (filter is_glass (instances_in list.now))) }
        ensures late { (xs ys : List Instance) → HasDrawn self.old xs ys → self.old.glazing ≡ true
            → HasDrawn self.new (xs ++ filter is_glass (instances_in list.now))
            (ys ++ sorted is_drawn_before (filter is_glass (instances_in list.now))) }
    {
        self.glazing = add_piece(
            rt,
            self.glazing,
            &mut self.strips,
            &mut self.batch,
            &self.lens,
            self.back,
            list,
        );
    }

    /// Puts the picture of all that was added since `begin` into an image of the lens's size, and begins the next one before
    /// the same background.
    pub fn finish<R: Threads + Sync>(&mut self, rt: &R, image: &mut Image)
        requires width { image.old.width ≡ self.old.lens.w }
        requires height { image.old.height ≡ self.old.lens.h }
        ensures lens { self.new.lens ≡ self.old.lens }
        ensures back { self.new.back ≡ self.old.back }
        ensures drawn { HasDrawn self.new [] [] }
        ensures width { image.new.width ≡ image.old.width }
        ensures height { image.new.height ≡ image.old.height }
        ensures pixels { (xs : List Instance) → HasDrawn self.old xs (sorted is_drawn_before (filter is_glass xs))
            → Shows image.new (picture self.old.lens self.old.back xs) }
        ensures pieces { (pieces : List (List Instance)) → HasDrawn self.old (joined pieces) (glass_in_turn pieces)
            → IsGlassInOrder (joined pieces) → Shows image.new (picture self.old.lens self.old.back (joined pieces)) }
    {
        end_picture(
            rt,
            self.glazing,
            &mut self.strips,
            &mut self.batch,
            &self.lens,
            self.back,
            image,
        );
        self.glazing = false;
    }
}

/// Draws a piece of a draw list, and answers whether glass has come.
fn add_piece<R: Threads + Sync>(
    rt: &R,
    glazing: bool,
    strips: &mut Vec<Strip>,
    batch: &mut Batch,
    lens: &Lens,
    back: [u8; 3],
    list: &DrawList,
) -> bool
    requires sound { AreStrips lens.now strips.old.items }
    requires ready { glazing ≡ false → All (IsPieceOf lens.now) batch.old.pieces }
    ensures sound { AreStrips lens.now strips.new.items }
    ensures ready { result ≡ false → All (IsPieceOf lens.now) batch.new.pieces }
    ensures drawn { (xs ys : List Instance)
        → HasDrawn (held lens.now back glazing batch.old.is_first strips.old.items batch.old.pieces) xs ys
        → (glazing ≡ true → filter is_opaque (instances_in list.now) ≡ [])
        → HasDrawn (held lens.now back result batch.new.is_first strips.new.items batch.new.pieces)
        (xs ++ instances_in list.now) (ys ++ sorted is_drawn_before (filter is_glass (instances_in list.now))) }
    ensures late { (xs ys : List Instance)
        → HasDrawn (held lens.now back glazing batch.old.is_first strips.old.items batch.old.pieces) xs ys
        → glazing ≡ true
        → HasDrawn (held lens.now back result batch.new.is_first strips.new.items batch.new.pieces)
        (xs ++ filter is_glass (instances_in list.now))
        (ys ++ sorted is_drawn_before (filter is_glass (instances_in list.now))) }
{
    if glazing {
        glass::draw_glass(rt, strips, batch, lens, list);
        true
    } else {
        add_ground(rt, strips, batch, lens, back, list)
    }
}

/// Draws a piece of a draw list before which no glass has come, and answers whether glass has come.
pub(crate) fn add_ground<R: Threads + Sync>(
    rt: &R,
    strips: &mut Vec<Strip>,
    batch: &mut Batch,
    lens: &Lens,
    back: [u8; 3],
    list: &DrawList,
) -> bool
    requires sound { AreStrips lens.now strips.old.items }
    requires ready { All (IsPieceOf lens.now) batch.old.pieces }
    ensures sound { AreStrips lens.now strips.new.items }
    ensures ready { result ≡ false → All (IsPieceOf lens.now) batch.new.pieces }
    ensures drawn { (xs ys : List Instance)
        → HasDrawn (held lens.now back false batch.old.is_first strips.old.items batch.old.pieces) xs ys
        → HasDrawn (held lens.now back result batch.new.is_first strips.new.items batch.new.pieces)
        (xs ++ instances_in list.now) (ys ++ sorted is_drawn_before (filter is_glass (instances_in list.now))) }
{
    opaque::draw_opaque(rt, strips, batch, lens, back, list);
    if has_glass(list) {
        opaque::flush(rt, strips, batch, lens, back);
        glass::draw_glass(rt, strips, batch, lens, list);
        true
    } else {
        false
    }
}

/// Whether some item of a list is glass.
fn has_glass(list: &DrawList) -> bool
    ensures { result ≡ list_any is_glass (instances_in list.now) }
{
    for number in 0..list.len() {
        if is_glass(list, number) {
            return true;
        }
    }
    false
}

/// Whether the item of a number is there and glass.
fn is_glass(list: &DrawList, number: usize) -> bool
    ensures { result ≡ list_any is_glass (option_to_list (slice_get (instances_in list.now) number)) }
{
    match list.item(number) {
        Some(item) => item.tint.is_some(),
        None => false,
    }
}

/// Draws what is left of a picture, puts it into an image, and begins the next one.
pub(crate) fn end_picture<R: Threads + Sync>(
    rt: &R,
    glazing: bool,
    strips: &mut Vec<Strip>,
    batch: &mut Batch,
    lens: &Lens,
    back: [u8; 3],
    image: &mut Image,
)
    requires sound { AreStrips lens.now strips.old.items }
    requires ready { glazing ≡ false → All (IsPieceOf lens.now) batch.old.pieces }
    requires width { image.old.width ≡ lens.now.w }
    requires height { image.old.height ≡ lens.now.h }
    ensures strips { AreStrips lens.now strips.new.items }
    ensures first { batch.new.is_first ≡ true }
    ensures empty { batch.new.pieces ≡ [] }
    ensures width { image.new.width ≡ image.old.width }
    ensures height { image.new.height ≡ image.old.height }
    ensures pixels { (xs : List Instance)
        → HasDrawn (held lens.now back glazing batch.old.is_first strips.old.items batch.old.pieces) xs
        (sorted is_drawn_before (filter is_glass xs))
        → Shows image.new (picture lens.now back xs) }
{
    draw_rest(rt, glazing, strips, batch, lens, back, image);
    batch.begin();
}

/// Draws what is left of a picture, and puts it into an image.
fn draw_rest<R: Threads + Sync>(
    rt: &R,
    glazing: bool,
    strips: &mut Vec<Strip>,
    batch: &mut Batch,
    lens: &Lens,
    back: [u8; 3],
    image: &mut Image,
)
    requires sound { AreStrips lens.now strips.old.items }
    requires ready { glazing ≡ false → All (IsPieceOf lens.now) batch.old.pieces }
    requires width { image.old.width ≡ lens.now.w }
    requires height { image.old.height ≡ lens.now.h }
    ensures strips { AreStrips lens.now strips.new.items }
    ensures empty { batch.new.pieces ≡ [] }
    ensures width { image.new.width ≡ image.old.width }
    ensures height { image.new.height ≡ image.old.height }
    ensures pixels { (xs : List Instance)
        → HasDrawn (held lens.now back glazing batch.old.is_first strips.old.items batch.old.pieces) xs
        (sorted is_drawn_before (filter is_glass xs))
        → Shows image.new (picture lens.now back xs) }
{
    if glazing {
        glass::flush(rt, strips, batch, lens);
        let processors = processors_to_show(rt, &mut batch.processors, lens);
        show(rt, processors, image, strips, lens);
    } else {
        opaque::finish(rt, strips, batch, lens, back, image);
    }
}
