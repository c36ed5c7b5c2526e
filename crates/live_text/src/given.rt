//! What a live text gives.
use fx_math::Lens;
use pf_model::{AppLine, BaseLine};

/// What a line of a live text makes whole.
#[derive(Debug, Drop)]
pub enum Given {
    /// The header, at the line `app`: the lens, the red, green and blue of the background, and the number of channels.
    Header {
        lens: Lens,
        back: [u8; 3],
        channels: u8,
    },
    /// A line of the application, with its triangles.
    Line(AppLine),
    /// The steps from `buffer` to `merge`.
    Block(Vec<BaseLine>),
}
