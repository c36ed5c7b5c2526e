//! What a picture is drawn of.
use fx_math::Affine;
use pf_model::Tri;

/// An occurrence of a geode in a walk.
#[derive(Clone, Copy)]
pub struct Instance<'a> {
    /// Its number among the geodes of the walk, from 0.
    pub place: u32,
    /// The id of its node.
    pub id: u16,
    /// The state of its node.
    pub state: u16,
    /// The alpha of glass; none for an opaque geode.
    pub tint: Option<u8>,
    /// What the layers above it take from its depths, in 1/4,096 of a unit.
    pub shift: u32,
    /// The transformations that carry its triangles to the eye, the nearest first.
    pub steps: &'a [Affine],
    /// Its triangles, in its own coordinates.
    pub tris: &'a [Tri],
    /// The squared distance by which glass is sorted: glass with a greater one is drawn first.
    pub far: u64,
}
