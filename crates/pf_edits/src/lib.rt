//! The working graph: the scene graph that a running scene edits, on records of a slab.
#![tactic(auto)]

pub(crate) mod climb;
pub mod errors;
pub(crate) mod extents;
pub(crate) mod faults;
pub mod graph;
pub(crate) mod judge;
pub(crate) mod keys;
pub(crate) mod links;
pub(crate) mod nodes;
pub(crate) mod parents;
pub(crate) mod records;
pub(crate) mod rollback;
pub(crate) mod settle;
pub(crate) mod undo;
pub(crate) mod way;
pub(crate) mod work;

pub use errors::EditsError;
pub use graph::WorkGraph;
