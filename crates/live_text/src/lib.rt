//! The reader of live texts: a driver's commands, line by line.
#![tactic(auto)]

mod given;
mod head;
mod laws;
mod lines;
mod opened;
mod reader;
mod state;

pub use given::Given;
pub use laws::{
    live_reading_by_lines, live_text_makes_play, live_text_makes_sections, one_live_reading,
    what_is_given_is_spelled,
};
pub use reader::LiveReader;
