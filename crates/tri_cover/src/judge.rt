//! The hit, from a triangle's determinant and its edge values at a pixel.
ghost use Rattle.std.specs.Prelude.{◌≡◌, ◌≢◌, ◌*◌, pos, ◌*ℤ◌, IsTrue};
ghost use Rattle.fx_math.specs.Within.{IsWithin};
ghost use Rattle.fx_math.specs.Fixed.{floor_div};
ghost use Rattle.fx_math.specs.Hit.{sum_of, is_inside, is_in_depth, depth_of};
ghost use Rattle.tri_cover.specs.EdgeValues.{IsDeterminant};
ghost use Rattle.tri_cover.specs.Edges.{edges_of};
ghost use Rattle.tri_cover.specs.Hits.{judged};

use crate::edges::EdgeValues;
use crate::hit::Hit;
use fx_math::{Lens, floor_div};

/// The hit of a triangle of these colours, whose vertices have this determinant.
#[tactic(auto, unfolding(crate::specs::Hits::judged))]
pub(crate) fn judge(
    lens: &Lens,
    volume: i128,
    edges: &EdgeValues,
    colours: [[u8; 3]; 3],
) -> Option<Hit>
    requires volume { IsDeterminant volume }
    requires divides { IsTrue (is_inside volume (edges_of edges.now)) → sum_of (edges_of edges.now) ≢ pos 0 }
    ensures { result ≡ judged lens.now volume (edges_of edges.now) colours }
{
    if !edges.is_inside(volume) {
        return None;
    }
    let sum = edges.sum();
    let depth = depth(lens, volume, sum);
    if !is_in_depth(lens, depth) {
        return None;
    }
    Some(Hit {
        depth: depth as u32,
        colour: edges.colour(sum, colours),
    })
}

/// The depth at which a ray meets a triangle's plane, where `sum` is that of its edge values.
fn depth(lens: &Lens, volume: i128, sum: i128) -> i128
    requires volume { IsDeterminant volume }
    requires some { sum ≢ pos 0 }
    ensures { result ≡ floor_div (pos (2 * lens.now.f) *ℤ volume) sum }
{
    floor_div(scaled(lens.f, volume), sum)
}

fn scaled(f: u16, volume: i128) -> i128
    requires { IsDeterminant volume }
    ensures value { result ≡ pos (2 * f) *ℤ volume }
    ensures bound { IsWithin 7788326445558470046289354177904640 result }
{
    2 * i128::from(f) * volume
}

fn is_in_depth(lens: &Lens, depth: i128) -> bool
    ensures { result ≡ is_in_depth lens.now depth }
{
    let near = i128::from(lens.near);
    let far = i128::from(lens.far);
    near <= depth && depth <= far
}
