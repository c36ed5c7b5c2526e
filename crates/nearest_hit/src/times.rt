//! The time at which a segment crosses a triangle.
ghost use Rattle.std.specs.Prelude.{◌≡◌, ◌≤◌, IfSome};
ghost use Rattle.nearest_hit.specs.Segments.{crossing_time, vertex};

use crate::crossing::Crossing;
use crate::segment::Segment;
use fx_math::Vec3;

/// The time at which a segment crosses the triangle of these vertices, in eye coordinates: how far along the segment the
/// crossing lies, in 1/65536 of its length, rounded down, from 0 to 65,536. None where it does not cross the triangle, or
/// lies in its plane. Both sides of a triangle and its border count.
pub fn crossing_time(segment: &Segment, vertices: [Vec3; 3]) -> Option<u32>
    ensures value { result ≡ crossing_time segment.now (vertex vertices 0) (vertex vertices 1) (vertex vertices 2) }
    ensures bound { IfSome result (λ t. t ≤ 65536) }
{
    let [u, v, w] = vertices;
    Crossing::of(segment, u, v, w).judge()
}
