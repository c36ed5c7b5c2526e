//! Deferred deletion (pfAsyncDelete): a deleted node stays in its grave until no frame in flight may name it.
#![tactic(auto)]

mod graves;

pub use graves::Graves;
