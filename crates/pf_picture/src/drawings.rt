//! All that is drawn, in eye coordinates, and its colour at a pixel.
ghost use Rattle.std.specs.Prelude.{◌≡◌, ◌<◌, map, IfOk, option_map};
ghost use Rattle.tri_cover.specs.Picture.{colour_under};
ghost use Rattle.pf_picture.specs.Drawings.{IsDrawingOf, AreShapes, nearest_in, colour_of};
ghost use Rattle.pf_picture.specs.Fragments.{fragment_of};
ghost use Rattle.pf_picture.specs.Instances.{instance_of};

use crate::fragments::Fragment;
use crate::instances::Instance;
use crate::panes::{far_to_near, opaque};
use crate::shapes::Shape;
use fx_math::Lens;
use pf_io::NoMemory;
use std::alloc::Global;

/// The shapes of a list of instances: the opaque ones as they stand, and those of glass from far to near.
#[derive(Drop)]
pub(crate) struct Drawing {
    opaque: Vec<Shape>,
    glass: Vec<Shape>,
}

impl Drawing {
    pub(crate) fn new(alloc: Global, instances: &[Instance]) -> Result<Drawing, NoMemory>
        ensures { IfOk result (IsDrawingOf (map instance_of instances.now)) }
    {
        let opaque = opaque(alloc, instances)?;
        let glass = far_to_near(alloc, instances)?;
        let opaque = shapes(alloc, &opaque)?;
        let glass = shapes(alloc, &glass)?;
        Ok(Drawing { opaque, glass })
    }

    /// The nearest fragment of an opaque shape.
    fn nearest(&self, lens: &Lens, px: u16, py: u16) -> Option<Fragment>
        requires x { px < lens.now.w }
        requires y { py < lens.now.h }
        ensures { option_map fragment_of result ≡ nearest_in lens.now px py self.now.opaque.items }
    {
        let mut nearest = None;
        for shape in &self.opaque {
            nearest = shape.nearest(nearest, lens, px, py);
        }
        nearest
    }

    /// Returns the colour at a pixel: that of the nearest opaque fragment, or of the background if there is none, under
    /// the glass.
    pub(crate) fn colour(&self, lens: &Lens, back: [u8; 3], px: u16, py: u16) -> [u8; 3]
        requires x { px < lens.now.w }
        requires y { py < lens.now.h }
        ensures { result ≡ colour_of lens.now back px py self.now.opaque.items self.now.glass.items }
    {
        let behind = self.nearest(lens, px, py);
        let mut colour = colour_under(&behind, back);
        for shape in &self.glass {
            let glazed = shape.glazed(&behind, colour, lens, px, py);
            colour = glazed;
        }
        colour
    }
}

fn colour_under(behind: &Option<Fragment>, back: [u8; 3]) -> [u8; 3]
    ensures { result ≡ colour_under back (option_map fragment_of behind.now) }
{
    match behind {
        Some(fragment) => fragment.colour,
        None => back,
    }
}

fn shapes(alloc: Global, instances: &[Instance]) -> Result<Vec<Shape>, NoMemory>
    ensures { IfOk result (λ shapes. AreShapes (map instance_of instances.now) shapes.items) }
{
    let mut shapes = Vec::new(alloc);
    for instance in instances {
        shapes.push(Shape::new(alloc, instance)?)?;
    }
    Ok(shapes)
}
