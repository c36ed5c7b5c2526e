//! Plays on threads: the stages of the pipe divided among hosts.
#![tactic(auto)]

mod awaits;
mod beginning;
mod bell;
mod caller;
mod closing;
mod crew;
mod dealing;
mod gathering;
mod hosts;
pub mod laws;
mod leaving;
mod live;
mod modes;
mod opening;
mod parts;
mod playing;
mod post;
mod posts;
mod seats;
mod settling;
mod words;
mod works;

pub use live::LivePipe;
pub use modes::{Mode, Setup};
pub use pipe_plays::{PlayEnd, Played};
pub use playing::play_all;
