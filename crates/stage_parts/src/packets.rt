//! What goes over a link between two stages.
use crate::loads::Load;

/// A packet: a frame with all that its stages need, or the end.
#[derive(Drop)]
pub enum Packet {
    Frame(Load),
    End,
}
