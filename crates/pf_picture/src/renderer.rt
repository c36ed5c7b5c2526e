//! Pictures of lists of instances.
ghost use Rattle.std.specs.Prelude.{◌≡◌, ◌<◌, map, IfOk};
ghost use Rattle.ppm_out.specs.Pixmap.{Shows};
ghost use Rattle.pf_model.specs.Limits.{KeepsLimits};
ghost use Rattle.pf_model.specs.Walks.{instances};
ghost use Rattle.tri_cover.specs.Picture.{picture};
ghost use Rattle.pf_picture.specs.Instances.{instance_of};
ghost use Rattle.pf_picture.specs.Rows.{DrawsRow, colour_in};

use crate::drawings::Drawing;
use crate::instances::Instance;
use crate::numbers::numbered;
use crate::walk::walk;
use fx_math::Lens;
use pf_io::NoMemory;
use pf_model::{NodeView, View};
use ppm_out::Image;
use std::alloc::Global;

/// The nodes on the longest chain of a scene within the limits.
const LEVELS: u32 = 32;

/// Returns the picture of a list of instances before a background of red, green and blue, as large as the lens says.
/// Each pixel has the nearest triangle of the opaque instances under those of glass, which are drawn by falling `far`,
/// then by rising `place`.
///
/// Returns `Err(NoMemory)` if memory runs out.
pub fn draw_instances(
    alloc: Global,
    instances: &[Instance],
    lens: &Lens,
    back: [u8; 3],
) -> Result<Image, NoMemory>
    ensures width { IfOk result (λ image. image.width ≡ lens.now.w) }
    ensures height { IfOk result (λ image. image.height ≡ lens.now.h) }
    ensures pixels { IfOk result (λ image. Shows image (picture lens.now back (map instance_of instances.now))) }
{
    let drawing = Drawing::new(alloc, instances)?;
    let mut image = Image::new(alloc, lens.w, lens.h)?;
    draw(&mut image, &drawing, lens, back);
    Ok(image)
}

/// Returns the picture of a scene in frame `time`, for a view and before a background of red, green and blue: that of
/// the whole walk, every triangle at every pixel. The scene is within the limits, the starts of its sequences aside.
///
/// Returns `Err(NoMemory)` if memory runs out.
pub fn draw_plain<V: NodeView>(
    alloc: Global,
    scene: &V,
    time: u32,
    view: &View,
    lens: &Lens,
    back: [u8; 3],
) -> Result<Image, NoMemory>
    requires { KeepsLimits (V.look scene.now) }
    ensures width { IfOk result (λ image. image.width ≡ lens.now.w) }
    ensures height { IfOk result (λ image. image.height ≡ lens.now.h) }
    ensures pixels { IfOk result (λ image.
        Shows image (picture lens.now back (instances (V.look scene.now) time view.now))) }
{
    let mut leaves = Vec::new(alloc);
    walk(alloc, scene, time, LEVELS, 0, &view.steps(), 0, &mut leaves)?;
    let instances = numbered(alloc, &leaves)?;
    let image = draw_instances(alloc, &instances, lens, back)?;
    Ok(image)
}

fn draw(image: &mut Image, drawing: &Drawing, lens: &Lens, back: [u8; 3])
    requires width { image.old.width ≡ lens.now.w }
    requires height { image.old.height ≡ lens.now.h }
    ensures width { image.new.width ≡ image.old.width }
    ensures height { image.new.height ≡ image.old.height }
    ensures pixels { Shows image.new (colour_in lens.now back drawing.now) }
{
    for py in 0..lens.h {
        draw_row(image, drawing, lens, back, py);
    }
}

fn draw_row(image: &mut Image, drawing: &Drawing, lens: &Lens, back: [u8; 3], py: u16)
    requires width { image.old.width ≡ lens.now.w }
    requires height { image.old.height ≡ lens.now.h }
    requires row { py < lens.now.h }
    ensures { DrawsRow image.old image.new (colour_in lens.now back drawing.now) py }
{
    for px in 0..lens.w {
        image.set(px, py, drawing.colour(lens, back, px, py));
    }
}
