//! The edge values of a triangle as functions of the pixel.
ghost use Rattle.tri_cover.specs.Linears.{IsNarrow, IsTotal};

use crate::linear::Linear;
use crate::plane::Plane;
use fx_math::Lens;

/// The edge values of a triangle at the pixels, with the sign that makes them at least 0 inside, and their sum.
#[derive(Clone, Copy, Debug, PartialEq, Eq)]
pub struct EdgeFunctions {
    pub e0: Linear,
    pub e1: Linear,
    pub e2: Linear,
    pub sum: Linear,
    pub ghost e0_narrow: { IsNarrow e0 },
    pub ghost e1_narrow: { IsNarrow e1 },
    pub ghost e2_narrow: { IsNarrow e2 },
    pub ghost total: { IsTotal e0 e1 e2 sum },
}

impl EdgeFunctions {
    ghost use Rattle.tri_cover.specs.Planes.{normal_of, AreEdgesOf};

    /// The edge values of a triangle whose vertices have this determinant, from the planes through its sides.
    pub(crate) fn new(
        first: Plane,
        second: Plane,
        third: Plane,
        volume: i128,
        lens: &Lens,
    ) -> EdgeFunctions
        ensures { AreEdgesOf lens.now volume (normal_of first) (normal_of second) (normal_of third) result }
    {
        let e0 = first.facing(volume).linear(lens);
        let e1 = second.facing(volume).linear(lens);
        let e2 = third.facing(volume).linear(lens);
        EdgeFunctions {
            e0,
            e1,
            e2,
            sum: Linear::total(e0, e1, e2),
        }
    }
}
