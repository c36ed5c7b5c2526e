//! What acts and glances answer.
use draw_list::DrawList;
use pf_history::{Entry, Reply};
use update_lists::{Cut, Updates};

/// What an act came to.
#[derive(Debug, Drop)]
pub enum Outcome<R, B> {
    /// The command was entered.
    Entered(R),
    /// The scene that was found did not meet the command's condition. Nothing changed.
    NotNow(B),
    /// There was no memory. No entry was added.
    NoMemory(B),
}

/// The lists that came home after a Sync.
#[derive(Debug, Drop)]
pub struct Home {
    pub lists: Vec<Updates>,
}

/// What a Sync answers: the reply, and what is left of the lists that came home, none.
#[derive(Debug, Drop)]
pub struct Synced {
    pub reply: Reply,
    pub home: Home,
}

/// The draw lists of a frame, one for each channel.
#[derive(Debug, Drop)]
pub struct Channels {
    pub lists: Vec<DrawList>,
}

/// What a Frame answers: its cut, and the draw lists, which have room for it.
#[derive(Debug, Drop)]
pub struct Framed {
    pub cut: Cut,
    pub channels: Channels,
}

/// A block of entries that were told, oldest first, each beside the number of its seat.
#[derive(Debug, Drop)]
pub struct Told {
    pub entries: Vec<(u32, Entry)>,
    /// How many entries of the history had been told when the last of these were asked for.
    pub before: u64,
}

/// What a glance shows: whether the stop mark is set, and the counts.
#[derive(Clone, Copy, Debug, PartialEq, Eq)]
pub struct Sight {
    pub stopped: bool,
    pub frames: u32,
    pub retired: u32,
    pub merges: u32,
    pub graves: usize,
    pub weight: u32,
    pub copies: u32,
}
