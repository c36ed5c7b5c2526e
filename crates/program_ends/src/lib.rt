//! How a program over plays ends, whichever program it is: its status, its message, and what its run leaves.
#![tactic(auto)]

mod ending;
pub mod laws;
mod messages;
mod stop;

pub use ending::{
    DONE, FRAME_FAULT, NO_MEMORY, READ_FAULT, REFUSED, REPORT_FAULT, STUCK, WORDS, deliver,
    refusal_of, status_of, stuck_of, write_out,
};
pub use messages::say_why;
pub use stop::Stop;
