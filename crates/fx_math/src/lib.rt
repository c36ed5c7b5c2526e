//! Numbers, points, affine steps and boxes in fixed point.
//!
//! A coordinate is a whole number of 1/4096 unit, an entry of a linear matrix one of 1/65536, and an angle one of a
//! tenth of a degree. Points are row vectors; X is right, Y forward and Z up.
#![tactic(auto)]

mod angles;
mod boxes;
mod exact;
mod hulls;
pub mod laws;
mod lenses;
mod matrices;
mod moves;
mod steps;
mod vectors;

pub use angles::{cosine, sine};
pub use boxes::Box3;
pub use exact::{det, floor_div};
pub use hulls::{hull, hull_of};
pub use lenses::{Lens, MAX_SIZE};
pub use matrices::{Affine, MAX_ENTRY, UNIT};
pub use moves::{apply, apply_box};
pub use steps::{heading, pitch, roll, scaling, shift};
pub use vectors::{MAX_COORDINATE, Vec3};
