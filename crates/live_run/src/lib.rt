//! A pipe that a program drives while it runs: it gives commands, settles, sees the pictures, and tells what was made. And the
//! program that reads the commands from a live text.
#![tactic(auto)]

mod driving;
mod ending;
mod exit;
mod halt;
mod live;
mod reading;
mod setup;
mod source;
mod telling;
mod top;

pub use ending::LiveEnded;
pub use exit::run;
pub use live::Live;
pub use source::{LiveSource, Settled, Streamed};
pub use telling::Closed;
pub use top::perfly_live;
