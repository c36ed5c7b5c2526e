//! Images, and the bytes of an image as a raw portable pixmap (Netpbm's `P6`).
#![tactic(auto)]

mod bands;
mod image;
mod ppm;
mod writing;

pub use bands::BAND_ROWS;
pub use image::Image;
pub use ppm::{append_ppm, append_ppm_reserved, ppm_len};
pub use writing::write_ppm;
