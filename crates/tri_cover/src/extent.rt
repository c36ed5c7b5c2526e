//! Where a triangle may be seen.
ghost use Rattle.std.specs.Prelude.{◌≤◌};
ghost use Rattle.fx_math.specs.Limits.{coordinate_limit};

/// The pixels from `first` to `last` of a row or of a column: at least one.
#[derive(Clone, Copy, Debug, PartialEq, Eq)]
pub struct Span {
    pub first: u16,
    pub last: u16,
    pub ghost ordered: { first ≤ last },
}

/// The box of pixels outside which a triangle has no hit, and the least and the greatest depth at which it is seen: the
/// lens's, or 0 and `u32::MAX` where all of it lies between these.
#[derive(Clone, Copy, Debug, PartialEq, Eq)]
pub struct Extent {
    pub columns: Span,
    pub rows: Span,
    pub near: u32,
    pub far: u32,
    pub ghost near_small: { near ≤ coordinate_limit },
}
