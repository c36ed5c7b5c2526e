//! The nearest hit of a segment in a scene.
#![tactic(auto)]

pub(crate) mod crossing;
pub(crate) mod found;
pub mod laws;
pub(crate) mod segment;
pub(crate) mod times;
pub(crate) mod touch;
pub(crate) mod walk;
pub(crate) mod way;

pub use found::Near;
pub use segment::Segment;
pub use times::crossing_time;
pub use walk::probe;
