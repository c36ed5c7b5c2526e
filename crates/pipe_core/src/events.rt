//! The events of the core.

/// One poll of one stage.
#[derive(Clone, Copy, Debug, PartialEq, Eq)]
pub enum Event {
    /// A poll of the application.
    App,
    /// A poll of the cull.
    Cull,
    /// A poll of the draw.
    Draw,
    /// A poll of the database process.
    Dbase,
}
