//! The four stages of the frame pipeline, each one poll at a time: the application, the cull, the draw, and the
//! asynchronous database process.
#![tactic(auto)]

mod app_stage;
mod app_turns;
mod application;
mod cull_stage;
mod culling;
pub mod dbase_laws;
mod dbase_stage;
mod dbase_turns;
mod draw_stage;
mod filling;
mod in_hand;
mod looks;
mod next_line;
mod painting;
mod script;
mod taking_back;
mod told_stats;

pub use app_stage::AppStage;
pub use cull_stage::CullStage;
pub use dbase_stage::DbaseStage;
pub use draw_stage::DrawStage;
pub use stage_parts::{Did, Load, Packet, StageError};
