//! The plain scene graph: a list of ids and nodes within the limits, and its edits.
#![tactic(auto)]

pub(crate) mod attributes;
pub mod graph;
pub(crate) mod links;
pub(crate) mod survey;

pub use graph::Graph;
