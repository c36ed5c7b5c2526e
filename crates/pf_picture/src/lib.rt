//! The slow renderer: every triangle at every pixel.
#![tactic(auto)]

mod distances;
mod drawings;
mod fragments;
mod instances;
mod leaves;
mod numbers;
mod panes;
mod renderer;
mod shapes;
mod walk;

pub use instances::Instance;
pub use renderer::{draw_instances, draw_plain};
