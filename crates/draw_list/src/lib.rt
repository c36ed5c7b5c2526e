//! The draw list of a channel: joints, items and kept triangles, and the order in which it is drawn; and what is shown of
//! a scene, as definitions.
#![tactic(auto)]

pub(crate) mod counting;
pub(crate) mod euler_steps;
pub(crate) mod extents;
pub(crate) mod item_list;
pub(crate) mod items;
pub(crate) mod joint_steps;
pub(crate) mod joints;
pub(crate) mod kept;
pub(crate) mod lists;
pub(crate) mod part_steps;
pub(crate) mod spans;
pub(crate) mod states;
pub(crate) mod stats;
pub(crate) mod steps;
pub(crate) mod sums;
pub(crate) mod tables;
pub(crate) mod turns;
pub(crate) mod view_steps;

pub use items::{Item, Span, Tint};
pub use lists::DrawList;
pub use stats::Stats;
