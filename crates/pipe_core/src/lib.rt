//! The pipe on one thread: what its events answer, the laws of its progress, of its end and of what it shows, and whole
//! plays.
#![tactic(auto)]

mod commands;
mod events;
mod host;
pub mod laws;
mod legal;
mod live;
mod live_run;
mod parts;
mod pipe;

pub use commands::{BaseBlock, LiveCause, LiveError, PipeCommand, Refusal};
pub use events::Event;
pub use host::play_all;
pub use pipe::Pipe;
pub use pipe_plays::{PlayEnd, Played};
