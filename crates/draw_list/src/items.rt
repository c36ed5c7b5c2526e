//! The items of a draw list.

/// Where the triangles of an item stand among those that are kept.
#[derive(Clone, Copy, Debug, PartialEq, Eq)]
pub struct Span {
    pub from: u32,
    pub len: u32,
}

/// The alpha of glass, and its squared distance.
#[derive(Clone, Copy, Debug, PartialEq, Eq)]
pub struct Tint {
    pub alpha: u8,
    pub far: u64,
}

/// An instance in a draw list: its state, its place, how much nearer it is drawn, its joint, its triangles, and its tint
/// where it is glass.
#[derive(Clone, Copy, Debug, PartialEq, Eq)]
pub struct Item {
    pub state: u16,
    pub place: u32,
    pub shift: u32,
    pub joint: u32,
    pub geom: Span,
    pub tint: Option<Tint>,
}
