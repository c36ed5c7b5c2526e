//! What a node draws itself, and what places its children.
ghost use Rattle.std.specs.Prelude.{◌≡◌, ◌≤◌};
ghost use Rattle.std.specs.Option.{option_map};
ghost use Rattle.fx_math.specs.Views.{point_of};
ghost use Rattle.pf_model.specs.Kinds.{surface_of, centre_of, decal};
ghost use Rattle.pf_model.specs.Surfaces.{surface_as_plain};

use crate::geometry::Geom;
use crate::nodes::Kind;
use fx_math::Vec3;

/// What a geode draws: its state, its alpha where it is glass, and its triangles.
#[derive(Clone, Copy)]
pub struct Surface<'a> {
    pub state: u16,
    pub tint: Option<u8>,
    pub geom: &'a Geom,
}

impl Kind {
    /// What a node of this kind draws itself, none where it is no geode.
    pub fn surface(&self) -> Option<Surface<'_>>
        ensures { option_map surface_as_plain result ≡ surface_of self.now }
    {
        match self {
            Kind::Geode { state, geom } => Some(Surface {
                state: *state,
                tint: None,
                geom,
            }),
            Kind::Glass { state, alpha, geom } => Some(Surface {
                state: *state,
                tint: Some(*alpha),
                geom,
            }),
            _ => None,
        }
    }

    /// The centre of a level of detail, the origin for other kinds.
    pub fn centre(&self) -> Vec3
        ensures { point_of result ≡ centre_of self.now }
    {
        match self {
            Kind::Lod { centre, .. } => *centre,
            _ => Vec3::ORIGIN,
        }
    }

    /// How much nearer each place of a node of this kind is drawn than the place before it.
    pub fn decal(&self) -> u32
        ensures value { result ≡ decal self.now }
        ensures bound { result ≤ 16 }
    {
        match self {
            Kind::Layer => 16,
            _ => 0,
        }
    }
}
