//! Packets and loads, what a poll answers, the parts of the pipe invariant, the pictures of a history, and their laws.
#![tactic(auto)]

mod answers;
pub mod laws;
mod loads;
mod packets;

pub use answers::{Did, StageError};
pub use loads::Load;
pub use packets::Packet;
