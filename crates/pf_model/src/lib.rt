//! The scene graph: nodes, edits and their faults, the walk of a frame, bounding boxes.
#![tactic(auto)]

pub(crate) mod attributes;
pub mod boxes;
pub mod carries;
pub mod choices;
pub mod edits;
pub mod fits;
pub mod geometry;
pub mod laws;
pub mod lines;
pub mod lists;
pub mod nodes;
pub mod poses;
pub(crate) mod sequences;
pub mod step_lists;
pub mod steps;
pub mod surfaces;
pub mod tables;
pub mod views;

pub use attributes::{attribute_fault, kind_after};
pub use boxes::{box_of_tris, squared_distance};
pub use carries::{carried_box, carried_point};
pub use choices::chosen_children;
pub use edits::{Edit, EditError, EditList, EditListBuilder, Fault};
pub use geometry::{Geom, Tri};
pub use lines::{AppLine, AppStep, BaseLine, BaseStep};
pub use lists::{Ids, Ranges, Serials, SerialsBuilder, ShortList, Times};
pub use nodes::{Chosen, Gone, Kind, Node, Pick, Run};
pub use poses::{Euler, Pose, View};
pub use steps::Steps;
pub use surfaces::Surface;
pub use tables::write_to;
pub use views::{Arrays, NodeView, SceneView};
