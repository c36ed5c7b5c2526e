//! Instances whose triangles are in eye coordinates.
ghost use Rattle.std.specs.Prelude.{◌≡◌, ◌<◌, IfOk, option_map, map};
ghost use Rattle.std.specs.Option.{option_map_or};
ghost use Rattle.fx_math.specs.Views.{matrix_of};
ghost use Rattle.tri_cover.specs.Picture as pictures;
ghost use Rattle.pf_picture.specs.Fragments.{fragment_of};
ghost use Rattle.pf_picture.specs.Instances.{instance_of};
ghost use Rattle.pf_picture.specs.Shapes.{AreCarried, IsShapeOf, fragment_at, nearest_of, glazed_by};

use crate::fragments::{Fragment, Key};
use crate::instances::Instance;
use fx_math::Lens;
use pf_io::NoMemory;
use pf_model::Tri;
use std::alloc::Global;
use tri_cover::{carried, cover};

/// An instance with its triangles in eye coordinates. The alpha is 0 where it is opaque.
#[derive(Drop)]
pub(crate) struct Shape {
    pub(crate) place: u32,
    pub(crate) shift: u32,
    pub(crate) alpha: u8,
    pub(crate) tris: Vec<Tri>,
}

impl Shape {
    /// The shape of an instance.
    pub(crate) fn new(alloc: Global, x: &Instance) -> Result<Shape, NoMemory>
        ensures { IfOk result (IsShapeOf (instance_of x.now)) }
    {
        let tris = carried_all(alloc, x)?;
        Ok(Shape {
            place: x.place,
            shift: x.shift,
            alpha: x.tint.unwrap_or(0),
            tris,
        })
    }

    /// The fragment of the triangle of a number at a pixel, where it hits.
    fn fragment_at(
        &self,
        number: usize,
        tri: &Tri,
        lens: &Lens,
        px: u16,
        py: u16,
    ) -> Option<Fragment>
        requires x { px < lens.now.w }
        requires y { py < lens.now.h }
        ensures { option_map fragment_of result ≡ fragment_at lens.now px py self.now (number, tri.now) }
    {
        let hit = cover(tri, px, py, lens)?;
        let depth = hit.depth.saturating_sub(self.shift);
        let colour = hit.colour;
        Some(Fragment {
            key: Key {
                depth,
                place: self.place,
                number,
            },
            colour,
        })
    }

    /// The nearer of the best so far and the triangle of a number.
    fn nearer(
        &self,
        best: Option<Fragment>,
        number: usize,
        tri: &Tri,
        lens: &Lens,
        px: u16,
        py: u16,
    ) -> Option<Fragment>
        requires x { px < lens.now.w }
        requires y { py < lens.now.h }
        ensures { option_map fragment_of result ≡ option_map_or (pictures.nearer (option_map fragment_of best))
            (fragment_at lens.now px py self.now (number, tri.now)) (option_map fragment_of best) }
    {
        match self.fragment_at(number, tri, lens, px, py) {
            Some(fragment) => Fragment::nearer(best, fragment),
            None => best,
        }
    }

    /// The nearest of the best so far and the triangles of this shape.
    pub(crate) fn nearest(
        &self,
        best: Option<Fragment>,
        lens: &Lens,
        px: u16,
        py: u16,
    ) -> Option<Fragment>
        requires x { px < lens.now.w }
        requires y { py < lens.now.h }
        ensures { option_map fragment_of result ≡ nearest_of lens.now px py (option_map fragment_of best) self.now }
    {
        let mut nearest = best;
        for (number, tri) in self.tris.iter().enumerate() {
            nearest = self.nearer(nearest, number, tri, lens, px, py);
        }
        nearest
    }

    /// What the triangle of a number, of glass, leaves of the colour under it.
    fn glazed_by(
        &self,
        behind: &Option<Fragment>,
        under: [u8; 3],
        number: usize,
        tri: &Tri,
        lens: &Lens,
        px: u16,
        py: u16,
    ) -> [u8; 3]
        requires x { px < lens.now.w }
        requires y { py < lens.now.h }
        ensures { result ≡ option_map_or (pictures.glazed (option_map fragment_of behind.now) self.now.alpha under)
            (fragment_at lens.now px py self.now (number, tri.now)) under }
    {
        match self.fragment_at(number, tri, lens, px, py) {
            Some(fragment) => fragment.glazed(behind, self.alpha, under),
            None => under,
        }
    }

    /// What this shape, of glass, leaves of the colour under it.
    pub(crate) fn glazed(
        &self,
        behind: &Option<Fragment>,
        under: [u8; 3],
        lens: &Lens,
        px: u16,
        py: u16,
    ) -> [u8; 3]
        requires x { px < lens.now.w }
        requires y { py < lens.now.h }
        ensures { result ≡ glazed_by lens.now px py (option_map fragment_of behind.now) under self.now }
    {
        let mut colour = under;
        for (number, tri) in self.tris.iter().enumerate() {
            let glazed = self.glazed_by(behind, colour, number, tri, lens, px, py);
            colour = glazed;
        }
        colour
    }
}

fn carried_all(alloc: Global, x: &Instance) -> Result<Vec<Tri>, NoMemory>
    ensures { IfOk result (λ tris. AreCarried (map matrix_of x.now.steps.now) x.now.tris.now tris.items) }
{
    let mut tris = Vec::new(alloc);
    for tri in x.tris {
        tris.push(carried(tri, x.steps))?;
    }
    Ok(tris)
}
