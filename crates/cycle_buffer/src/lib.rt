//! Cycle buffers (pfCycleBuffer): the triangles of a geode, written by one stage while others still read earlier ones.
#![tactic(auto)]

mod cycle;
mod cycles;

pub use cycle::Cycle;
pub use cycles::Cycles;
pub use pf_model::Geom as Array;
