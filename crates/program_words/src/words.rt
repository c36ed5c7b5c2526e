//! What arguments mean, and why they may mean nothing.

use nearest_hit::Segment;

/// Which stages share a thread. A name has a capital letter where a thread begins.
#[derive(Clone, Copy, Debug, PartialEq, Eq)]
pub enum Mode {
    /// One thread for all three.
    Appculldraw,
    /// A thread for the application, and one for the cull and the draw.
    AppCulldraw,
    /// A thread for the application and the cull, and one for the draw.
    AppcullDraw,
    /// A thread for each.
    AppCullDraw,
}

/// What right arguments mean.
#[derive(Clone, Copy, Debug, PartialEq, Eq)]
pub struct Words {
    /// Which stages share a thread.
    pub mode: Mode,
    /// Whether the database process has a thread of its own; else it is on the application's.
    pub dbase: bool,
    /// How many frames may be in flight, 1 to 4.
    pub ahead: u8,
    /// The number of the generated play, 1 to 256, if one is to be played in place of the source's.
    pub make: Option<u16>,
    /// The segment whose nearest hit is asked for in each frame, if one is, in eye coordinates of the first channel.
    pub probe: Option<Segment>,
    /// How many items a piece of a draw list has at most, 1 to 4,096, if draw lists are sent in pieces.
    pub stream: Option<u32>,
}

/// Why arguments were not read.
#[derive(Clone, Copy, Debug, PartialEq, Eq)]
pub enum WordsError {
    /// They have no meaning.
    Wrong,
    /// Memory ran out.
    NoMemory,
}
