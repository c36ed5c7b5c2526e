//! Live texts that come in pieces of any size: they are cut into lines, and read.
#![tactic(auto)]

mod error;
mod feed;
mod laws;

pub use error::FeedError;
pub use feed::LiveFeed;
pub use laws::{one_command_more, what_is_fed_is_spelled};
