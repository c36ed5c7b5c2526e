//! The one-thread object as a program, and runs of it: what the definitions are tried by, and what a crate above can be
//! compared with.
#![tactic(auto)]

mod runs;
mod sequential;

pub use runs::{can_run, run};
pub use sequential::Sequential;
