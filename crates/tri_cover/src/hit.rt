//! What a triangle shows at a pixel.

/// The hit of a triangle at a pixel: the depth there, in whole numbers of 1/4096 unit, and the red, green and blue.
#[derive(Clone, Copy, Debug, PartialEq, Eq)]
pub struct Hit {
    pub depth: u32,
    pub colour: [u8; 3],
}
