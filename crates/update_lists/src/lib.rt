//! Update lists: the nodes that changed between two frames, each with its latest state or none.
#![tactic(auto)]

mod cuts;
mod dirty;
mod marks;
mod taking;
mod updates;

pub use cuts::{Cut, Views};
pub use dirty::Dirty;
pub use updates::Updates;
