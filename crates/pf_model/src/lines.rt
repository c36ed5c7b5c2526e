//! The steps that a play asks of the application and of the database process, each with the number of its line.
use crate::edits::Edit;
use crate::poses::View;

/// A step of the application.
#[derive(Debug, Drop)]
pub enum AppStep {
    /// An edit of the scene.
    Edit(Edit),
    /// Sets the view of a channel.
    View(u8, View),
    /// Frees what is due (pfSync).
    Sync,
    /// Begins a frame (pfFrame).
    Frame,
    /// Goes on when this many merges stand in the history.
    Wait(u32),
}

/// A step of the database process.
#[derive(Debug, Drop)]
pub enum BaseStep {
    /// Opens an empty buffer (pfBuffer).
    Buffer,
    /// An edit that is judged in the buffer's own graph.
    Edit(Edit),
    /// A link that is recorded without a test (pfBufferAddChild, pfBufferRemoveChild).
    Ask(Edit),
    /// Merges the buffer into the scene (pfMergeBuffer).
    Merge,
    /// Goes on when this many frames stand in the history.
    Await(u32),
}

/// A step of the application and the number of its line, from 1.
#[derive(Debug, Drop)]
pub struct AppLine {
    pub line: u32,
    pub step: AppStep,
}

/// A step of the database process and the number of its line, from 1.
#[derive(Debug, Drop)]
pub struct BaseLine {
    pub line: u32,
    pub step: BaseStep,
}
