//! The bounding boxes of all nodes of a scene, kept while it changes: one pass reckons the boxes of the changed nodes and
//! of those above them anew, each once, and leaves the others.
#![tactic(auto)]

mod cache;
mod marks;
mod reckoning;
mod table;

pub use cache::BoxCache;
