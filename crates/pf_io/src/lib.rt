//! The edge of the pipeline: where plays come from, where pictures and reports go to, the gates that stages pass, and
//! the two answers for what a caller can't foresee.
#![tactic(auto)]

mod answers;
mod faults;
mod gate;
mod memory;
mod sink;
mod source;
mod standard;

pub use answers::{Failed, NoMemory};
pub use gate::{FreeGate, Gate, Stage};
pub use memory::{MemSink, MemSource};
pub use sink::{Sink, WriteError, write_all};
pub use source::{MAX_PLAY_BYTES, READ_LIMIT, ReadError, Source, read_all};
pub use standard::{StdSink, StdSource};
