//! The walk that fills a draw list with what is in sight, and the laws by which it keeps the picture.
#![tactic(auto)]

pub(crate) mod frustum;
pub mod laws;
pub(crate) mod walk;

pub use draw_list::Stats;
pub use frustum::Frustum;
pub use walk::{cull, cull_through};
