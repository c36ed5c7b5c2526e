//! Laws of steps, boxes and edge values, and what the constants are: functions whose contracts are the laws.
ghost use Rattle.std.specs.Prelude.{◌≡◌, ◌≢◌, ℕ, List, pos, true};
ghost use Rattle.fx_math.specs.Plain.{Point, Matrix, Bounds, IsBox, IsInside, Holds};
ghost use Rattle.fx_math.specs.Views.{point_of, matrix_of};
ghost use Rattle.fx_math.specs.Constants.{origin_vector, identity_step};
ghost use Rattle.fx_math.specs.Fixed.{apply, carry, carry_box};
ghost use Rattle.fx_math.specs.Steps.{origin, identity, view_steps};
ghost use Rattle.fx_math.specs.Hit.{det3, ray, edges, sum_of, is_inside};
ghost use Rattle.fx_math.specs.Laws.{side, weighed, scaled};
ghost use Rattle.fx_math.specs.declared.vectors.Vec3.{Vec3};
ghost use Rattle.fx_math.specs.declared.lenses.Lens.{Lens};

use crate::matrices::Affine;
use crate::vectors::Vec3;

/// `Vec3::ORIGIN` is the point 0.
pub fn origin() -> Vec3
    ensures value { result ≡ origin_vector }
    ensures zero { point_of result ≡ origin }
{
    Vec3::ORIGIN
}

/// `Affine::IDENTITY` is the step of the unit matrix and no translation, and leaves each point as it is.
pub fn identity() -> Affine
    ensures value { result ≡ identity_step }
    ensures unit { matrix_of result ≡ identity }
    ensures still { (v : Vec3) → apply (matrix_of result) (point_of v) ≡ point_of v }
{
    Affine::IDENTITY
}

/// The steps of a view of zeros leave each point as it is.
pub fn view_of_zeros()
    ensures { (v : Vec3) → carry (view_steps origin (pos 0) (pos 0) (pos 0)) (point_of v) ≡ point_of v }
{}

/// A point of a box stays in the box, and a part of a box inside the box, along any list of steps.
pub fn steps_keep_boxes()
    ensures points { (ms : List Matrix) → (b : Bounds) → (p : Point) → Holds b p → Holds (carry_box ms b) (carry ms p) }
    ensures parts { (ms : List Matrix) → (part whole : Bounds) → IsBox part → IsInside part whole
        → IsInside (carry_box ms part) (carry_box ms whole) }
{}

/// Cramer's rule: the vertices, each times its edge value, add up to the direction times the determinant of the vertices.
/// The sum of the edge values is the determinant of the direction and two sides, which is 0 where the direction is parallel
/// to the triangle's plane. Where a pixel is inside the triangle, the sum is not 0, so that the depth has a divisor.
pub fn edge_values_weigh_vertices()
    ensures cramer { (d u v w : Point) → weighed (edges d u v w) u v w ≡ scaled (det3 u v w) d }
    ensures parallel { (d u v w : Point) → sum_of (edges d u v w) ≡ det3 d (side u v) (side u w) }
    ensures inside { (lens : Lens) → (px py : ℕ) → (u v w : Point)
        → is_inside (det3 u v w) (edges (ray lens px py) u v w) ≡ true → sum_of (edges (ray lens px py) u v w) ≢ pos 0 }
{}
