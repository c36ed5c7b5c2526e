//! Points in fixed point.
ghost use Rattle.std.specs.Prelude.{◌≡◌, ◌↔◌, IsSome, IfSome, IsTrue};
ghost use Rattle.fx_math.specs.Within.{AreCoordinates, IsCoordinate};

/// The greatest magnitude of a coordinate.
pub const MAX_COORDINATE: i32 = 1_073_741_823;

/// A point or a vector, in whole numbers of 1/4096 unit. X is right, Y forward and Z up.
#[derive(Clone, Copy, Debug, PartialEq, Eq)]
pub struct Vec3 {
    pub x: i32,
    pub y: i32,
    pub z: i32,
    pub ghost in_range: { AreCoordinates x y z },
}

impl Vec3 {
    ghost use Rattle.fx_math.specs.Plain.{point};
    ghost use Rattle.fx_math.specs.Views.{point_of};

    /// The point 0.
    pub const ORIGIN: Vec3 = Vec3 { x: 0, y: 0, z: 0 };

    /// The point of these coordinates; None exactly where one has a magnitude above `MAX_COORDINATE`.
    pub fn new(x: i32, y: i32, z: i32) -> Option<Vec3>
        ensures in_range { IsSome result ↔ AreCoordinates x y z }
        ensures value { IfSome result (λ v. point_of v ≡ point x y z) }
    {
        if is_coordinate(x) && is_coordinate(y) && is_coordinate(z) {
            Some(Vec3 { x, y, z })
        } else {
            None
        }
    }
}

fn is_coordinate(z: i32) -> bool
    ensures { IsTrue result ↔ IsCoordinate z }
{
    -MAX_COORDINATE <= z && z <= MAX_COORDINATE
}
