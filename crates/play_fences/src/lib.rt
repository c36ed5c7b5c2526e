//! Fences of a play: which of its merges may stand at more than one place among the application's commands, and what of
//! a history the play determines.
#![tactic(auto)]

mod fences;
pub mod laws;

pub use fences::{first_free_merge, is_fenced};
