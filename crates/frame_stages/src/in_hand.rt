//! What the database process has in hand of its open buffer.

use dbase_buffer::Buffer;
use pf_history::Merge;

/// What is in hand of a buffer.
#[derive(Debug, Drop)]
pub enum InHand {
    /// No buffer is open.
    Nothing,
    /// The open buffer.
    Buffer(Buffer),
    /// The merge of the open buffer: only this merge is left of the buffer's lines.
    Merge(Merge),
}
