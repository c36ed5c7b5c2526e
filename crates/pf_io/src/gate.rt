//! Where a stage may be held back before it goes on, so that a test can have stages meet.

/// A stage of the frame pipeline.
#[derive(Clone, Copy, Debug, PartialEq, Eq)]
pub enum Stage {
    /// The application's stage.
    App,
    /// The cull traversal.
    Cull,
    /// The drawing of what cull left.
    Draw,
    /// The asynchronous database process.
    Dbase,
}

/// A place that a stage passes before a frame, or before a merge of the database process.
pub trait Gate: Sync {
    /// Lets `stage` on to the frame or the merge `number`, counted from 1. It may hold the call back for a number of
    /// turns of its own; it always returns, and changes nothing.
    fn pass(&self, stage: Stage, number: u32);
}

/// The gate that holds nothing back.
#[derive(Clone, Copy, Debug, PartialEq, Eq)]
pub struct FreeGate;

impl Gate for FreeGate {
    fn pass(&self, _stage: Stage, _number: u32) {}
}
