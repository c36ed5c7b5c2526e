//! The scene that all stages share: the graph, the views, the frames and the history, kept as one value under the lock.
#![tactic(auto)]

pub mod acts;
pub(crate) mod burial;
pub(crate) mod copies;
pub(crate) mod entries;
pub(crate) mod lists;
pub mod outcomes;
pub(crate) mod replies;
pub mod scene;
pub(crate) mod stock;
pub(crate) mod world;

pub use acts::{
    EditAct, FrameAct, MergeAct, SightGlance, StopAct, SyncAct, TellAct, TellBlockAct, ViewAct,
};
pub use outcomes::{Channels, Framed, Home, Outcome, Sight, Synced, Told};
pub use scene::Scene;
pub use update_lists::{Cut, Views};
