//! The geodes that a walk meets.
use fx_math::Affine;
use pf_model::Tri;

/// A geode that a walk meets, with its steps to the eye.
#[derive(Drop)]
pub(crate) struct Leaf<'a> {
    pub(crate) id: u16,
    pub(crate) state: u16,
    pub(crate) tint: Option<u8>,
    pub(crate) shift: u32,
    pub(crate) steps: Vec<Affine>,
    pub(crate) tris: &'a [Tri],
    pub(crate) far: u64,
}
