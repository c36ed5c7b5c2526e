//! Triangles made ready for many pixels.
//!
//! The hits of a triangle at its pixels share all but four values: the edge values, which are linear in the pixel, and their
//! sum. A face holds these by their coefficients, with a box of pixels.
ghost use Rattle.std.specs.Prelude.{◌<◌, ◌^◌};

use crate::edge_functions::EdgeFunctions;
use crate::extent::Extent;

/// A triangle of which all is reckoned that no pixel changes. `face_hit` of specs/Faces.antt is its hit at a pixel.
#[derive(Clone, Copy, Debug, PartialEq, Eq)]
pub struct Face {
    pub edges: EdgeFunctions,
    /// The depth at a pixel times the sum of the edge values there, before it is rounded: twice the focal length times the
    /// magnitude of the vertices' determinant.
    pub dividend: u128,
    pub extent: Extent,
    /// The red, green and blue of the vertices.
    pub colours: [[u8; 3]; 3],
    pub ghost small: { dividend < 2 ^ 110 },
}
