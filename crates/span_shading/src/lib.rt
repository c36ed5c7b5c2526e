//! The colours of a triangle along a span of pixels in a row: whole spans in 64 bits, and single means in 128 bits.
#![tactic(auto)]

mod lines;
mod quotients;
mod spans;
mod wide;
mod wide_means;
mod wide_quotients;

pub use lines::{Line, Sum, Weight};
pub use spans::{Shade, Span};
pub use wide::{WideWeight, wide_mix};
pub use wide_means::Mean;
