//! Runs of pixels.

/// The pixels of a row of a block, from the column `start` to before the column `end`.
#[derive(Clone, Copy)]
pub(crate) struct Run {
    pub(crate) r: u16,
    pub(crate) start: u16,
    pub(crate) end: u16,
}
