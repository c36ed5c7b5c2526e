//! A stage's own copy of the scene, kept by update lists, with the boxes of its nodes.
#![tactic(auto)]

mod node_table;
mod stage_copy;

pub use stage_copy::StageCopy;
