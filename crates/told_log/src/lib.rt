//! A log that can forget what was told of it. Its list of entries only grows; memory holds those that were not told yet.
//!
//! An entry is told when [`ToldLog::take`] hands it out, oldest first. Contracts go on to speak of all entries, told or
//! not: the list of all is a meaning that no memory holds.
#![tactic(auto)]

mod log;
mod past;

pub use log::ToldLog;
pub use past::Past;

#[cfg(test)]
mod tests;
