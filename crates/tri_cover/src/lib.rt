//! Which pixels a triangle covers, and what a picture of triangles is.
#![tactic(auto)]

mod carries;
mod coverage;
mod edge_functions;
mod edges;
mod extent;
mod face;
mod hit;
mod judge;
pub mod laws;
mod linear;
mod plane;
mod ray;
mod ready;
mod seen;
mod stepper;

pub use carries::carried;
pub use coverage::cover;
pub use edge_functions::EdgeFunctions;
pub use extent::{Extent, Span};
pub use face::Face;
pub use hit::Hit;
pub use linear::Linear;
pub use ready::face_of;
pub use stepper::Stepper;
