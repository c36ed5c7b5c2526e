//! The report of a play: a line for each entry of its history and for each frame; its summary in
//! one line; and the lines of a probe's answers.
#![tactic(auto)]

mod entries;
mod frames;
mod numbers;
mod pieces;
mod probes;
mod reports;

pub use pieces::{append_entries, append_frame, append_probe};
pub use probes::append_probes;
pub use reports::{append_report, append_stats, append_summary};
