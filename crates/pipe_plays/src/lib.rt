//! The pipe of a play, whatever its seats: what it is given, what it shows, and what a play leaves.
#![tactic(auto)]

mod counting;
mod ending;
pub mod laws;
mod played;

pub use counting::count_merges;
pub use ending::flush_frames;
pub use played::{PlayEnd, Played};
