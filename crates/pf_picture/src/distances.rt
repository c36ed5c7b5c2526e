//! How far an instance is from the eye.
ghost use Rattle.std.specs.Prelude.{◌≡◌, map, option_map};
ghost use Rattle.fx_math.specs.Views.{matrix_of, bounds_of};
ghost use Rattle.std.specs.Option.{option_map_or};
ghost use Rattle.pf_model.specs.Boxes.{carried_tris_box, squared_distance};
ghost use Rattle.pf_model.specs.Walks.{distance_of};

use fx_math::{Affine, Box3};
use pf_model::{Tri, box_of_tris, carried_box, squared_distance};

/// The squared distance of glass; 0 of what is opaque, and of what has no triangles.
pub(crate) fn distance(tint: Option<u8>, steps: &[Affine], tris: &[Tri]) -> u64
    ensures { result ≡ distance_of tint (map matrix_of steps.now) tris.now }
{
    match tint {
        Some(_alpha) => distance_of_box(eye_box(steps, tris)),
        None => 0,
    }
}

fn distance_of_box(around: Option<Box3>) -> u64
    ensures { result ≡ option_map_or squared_distance (option_map bounds_of around) 0 }
{
    match around {
        Some(b) => squared_distance(&b),
        None => 0,
    }
}

/// The box of the triangles, carried to the eye.
fn eye_box(steps: &[Affine], tris: &[Tri]) -> Option<Box3>
    ensures { option_map bounds_of result ≡ carried_tris_box (map matrix_of steps.now) tris.now }
{
    let around = box_of_tris(tris)?;
    Some(carried_box(&around, steps))
}
