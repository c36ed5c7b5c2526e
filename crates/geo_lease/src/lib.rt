//! Leased geometry: a frame finds the geometry that its lease names, while newer geometry is stored.
//!
//! The contents of geodes lie in slots that two threads share. A [`Keeper`] stores contents, grants a [`Lease`] for a
//! frame, which names geodes with what they contain at that moment, and takes back what no frame needs any more. A
//! [`Turn`] takes the leases in the order of their grants, fetches each content by a move, puts it back, and ends the
//! lease. Nobody waits: each step is one atomic step on a word.
#![tactic(auto)]

mod keeper;
mod lease;
mod leases;
mod rule;
mod view;

pub use keeper::{GrantError, Keeper, NoMemory};
pub use lease::{Lease, Turn};
pub use leases::Leases;
pub use view::{Place, Plan, Role, View};

#[cfg(test)]
mod tests;
#[cfg(test)]
mod thread_tests;
