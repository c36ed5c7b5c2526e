//! What puts a graph back before an edit.

use crate::records::Record;
use pf_model::{Ids, Kind};

/// What an edit changed of its node.
#[derive(Debug, Drop)]
pub(crate) enum Older {
    /// There was no node.
    Made,
    /// The node stood there, with the nodes noted that had it as a child.
    Deleted(Record),
    /// It had these children.
    Children(Ids),
    /// It was of this kind.
    Kind(Kind),
}

/// The node that an edit named, and what it changed of it.
#[derive(Debug, Drop)]
pub(crate) struct Undo {
    pub(crate) id: u16,
    pub(crate) older: Older,
}
