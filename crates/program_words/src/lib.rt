//! The arguments behind the program's name, read with clap.
#![tactic(auto)]

mod command;
mod probe;
mod reading;
mod values;
mod words;

pub use reading::read_words;
pub use words::{Mode, Words, WordsError};
