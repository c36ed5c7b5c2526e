//! Generated plays: for each number n from 1 to 256 a play of n merges.
#![tactic(auto)]

mod draws;
mod laws;
mod lines;
mod making;
mod texts;

pub use laws::{each_play_can_end, each_text_has_a_reading};
pub use making::make_play;
