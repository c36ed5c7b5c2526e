//! The whole of perfly behind one call: `run`, from the arguments to the status, over `perfly`.
#![tactic(auto)]

mod alone;
mod ending;
mod exit;
mod hosted;
pub mod laws;
mod loading;
mod playing;
mod playing_alone;
mod preparing;
mod setup;
mod summing;
mod top;

pub use alone::perfly_alone;
pub use ending::Ended;
pub use exit::run;
pub use program_ends::{
    DONE, FRAME_FAULT, NO_MEMORY, READ_FAULT, REFUSED, REPORT_FAULT, STUCK, WORDS,
};
pub use setup::AloneWords;
pub use top::perfly;
