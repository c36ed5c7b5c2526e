//! What is drawn in one go.
use crate::pieces::Piece;
use crate::slots::Slot;
use fx_math::Lens;

/// Opaque pieces that are drawn in one go before a background, ready for a lens, and their slots. The first go of a picture is drawn
/// over strips that are cleared. With the last one the picture is whole, so each strip is put into the image once it is drawn.
#[derive(Drop)]
pub(crate) struct Go<'a> {
    pub(crate) is_first: bool,
    pub(crate) is_last: bool,
    pub(crate) lens: &'a Lens,
    pub(crate) back: [u8; 3],
    pub(crate) pieces: &'a [Piece],
    pub(crate) slots: &'a [Slot],
}
