//! Affine steps in fixed point.
ghost use Rattle.std.specs.Prelude.{◌≡◌, ◌↔◌, IsSome, IfSome, IsTrue};
ghost use Rattle.fx_math.specs.Within.{AreEntries, IsRow, IsEntry};

use crate::vectors::Vec3;

/// The greatest magnitude of an entry of a linear matrix.
pub const MAX_ENTRY: i32 = 1_048_576;

/// The entry 1.
pub const UNIT: i32 = 65_536;

/// An affine step on row vectors: the rows of its linear matrix, in whole numbers of 1/65536, and its translation.
#[derive(Clone, Copy, Debug, PartialEq, Eq)]
pub struct Affine {
    pub a: [[i32; 3]; 3],
    pub t: Vec3,
    pub ghost entries: { AreEntries a },
}

impl Affine {
    ghost use Rattle.fx_math.specs.Plain.{matrix};
    ghost use Rattle.fx_math.specs.Views.{matrix_of, point_of};

    /// The step that leaves each point as it is.
    pub const IDENTITY: Affine = Affine {
        a: [[UNIT, 0, 0], [0, UNIT, 0], [0, 0, UNIT]],
        t: Vec3::ORIGIN,
    };

    /// The step of these rows and this translation; None exactly where an entry has a magnitude above `MAX_ENTRY`.
    pub fn new(a: [[i32; 3]; 3], t: Vec3) -> Option<Affine>
        ensures in_range { IsSome result ↔ AreEntries a }
        ensures value { IfSome result (λ m. matrix_of m ≡ matrix a (point_of t)) }
    {
        let [x, y, z] = a;
        if is_row(x) && is_row(y) && is_row(z) {
            Some(Affine { a, t })
        } else {
            None
        }
    }
}

fn is_row(row: [i32; 3]) -> bool
    ensures { IsTrue result ↔ IsRow row }
{
    let [x, y, z] = row;
    is_entry(x) && is_entry(y) && is_entry(z)
}

fn is_entry(z: i32) -> bool
    ensures { IsTrue result ↔ IsEntry z }
{
    -MAX_ENTRY <= z && z <= MAX_ENTRY
}
