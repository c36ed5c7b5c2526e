//! Triangles of a list that are still to be prepared.

/// A triangle that is still to become a piece, by the number of its item in the list and by its own in the item, and the rank that
/// the piece will have.
#[derive(Clone, Copy)]
pub(crate) struct Waiting {
    pub(crate) item: usize,
    pub(crate) number: u32,
    pub(crate) rank: u32,
}
