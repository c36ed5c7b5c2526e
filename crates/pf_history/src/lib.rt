//! The history of a play: commands and replies, the one-thread object that they are judged by, what a play asks for,
//! and the update lists that the frames of a history cut.
#![tactic(auto)]

mod commands;
mod history;
pub mod laws;

pub use commands::{Caller, Command, Entry, Merge, Reply};
pub use history::History;
pub use pf_model::{EditList, Serials};
