//! The arithmetic of a triangle's edge values along a row of pixels, and of the depths that their sums give.
#![tactic(auto)]

mod depths;
mod narrow;
mod quotients;
mod small;
mod values;

pub use depths::Depths;
pub use narrow::{NarrowLine, NarrowValues};
pub use quotients::{about, product};
pub use small::{are_small, small_step, small_value};
pub use values::EdgeValues;
