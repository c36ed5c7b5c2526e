//! DBASE's buffer (pfBuffer): edits that the database process makes by itself, for one merge.
#![tactic(auto)]

mod buffer;
mod errors;
pub mod laws;

pub use buffer::Buffer;
pub use errors::BufferError;
