//! The columns and rows that a triangle can reach.

/// Columns and rows of a picture, from the first to before the last.
#[derive(Clone, Copy)]
pub(crate) struct Extent {
    pub(crate) left: u16,
    pub(crate) right: u16,
    pub(crate) top: u16,
    pub(crate) bottom: u16,
}
