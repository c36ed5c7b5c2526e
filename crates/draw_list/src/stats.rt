//! The numbers of a frame.

/// The numbers of a channel of a frame.
#[derive(Clone, Copy, Debug, PartialEq, Eq)]
pub struct Stats {
    /// How many instances are shown.
    pub shown: u32,
    /// How many different states the opaque ones among them have.
    pub states: u32,
    /// How many occurrences of nodes have none above them that is outside the frustum.
    pub visited: u32,
}
