//! The stage that finds the nearest hit of one segment in each frame, alone and at its links.
#![tactic(auto)]

pub mod laws;
pub(crate) mod probe_stage;
pub(crate) mod stage;
pub(crate) mod stop_mark;

pub use probe_stage::ProbeStage;
pub use stage::IsectStage;
