//! The streamed draw list: the walk that sends what is in sight in pieces, and the law by which right pieces keep the
//! picture. Its stages, each one poll at a time, are the cull, which sends the pieces, and the draw, which draws them.
#![tactic(auto)]

mod cull_stage;
mod draw_stage;
mod drawing;
pub(crate) mod glasses;
pub(crate) mod joints;
pub mod laws;
pub(crate) mod levels;
mod looks;
pub(crate) mod pieces;
pub(crate) mod routes;
mod sending;
pub(crate) mod sends;
pub(crate) mod sightings;
pub(crate) mod streams;

pub use cull_stage::StreamCullStage;
pub use draw_list::Stats;
pub use draw_stage::StreamDrawStage;
pub use pieces::Piece;
pub use streams::StreamWalk;
