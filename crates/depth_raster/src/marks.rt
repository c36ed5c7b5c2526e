//! Marks: what is nearest so far at a pixel.
ghost use Rattle.std.specs.Prelude.{◌≡◌, ◌<◌};
ghost use Rattle.std.specs.Option.{unwrap_or};
ghost use Rattle.depth_raster.specs.Marks.{goes_before, lesser};

/// The depth of a pixel at which nothing is drawn: greater than that of each hit.
pub(crate) const NOTHING: u32 = 2_147_483_648;

/// What is nearest so far at a pixel: its depth less the decal shift, the place of its item, the number of the triangle in
/// it, and its rank among the faces that are drawn together; 0 where it was drawn before them.
#[derive(Clone, Copy, Default)]
pub(crate) struct Mark {
    pub(crate) depth: u32,
    pub(crate) place: u32,
    pub(crate) number: u32,
    pub(crate) rank: u32,
}

impl Mark {
    /// The mark where nothing is drawn.
    pub(crate) fn nothing() -> Mark
        ensures { result ≡ record { depth = 2147483648; place = 0; number = 0; rank = 0 } }
    {
        Mark {
            depth: NOTHING,
            place: 0,
            number: 0,
            rank: 0,
        }
    }

    /// Whether this one is nearer than the other; what is left undecided by the depth, the place and the number goes to the
    /// lesser rank.
    pub(crate) fn goes_before(&self, other: &Mark) -> bool
        ensures { result ≡ goes_before self.now other.now }
    {
        if self.depth != other.depth {
            self.depth < other.depth
        } else if self.place != other.place {
            self.place < other.place
        } else if self.number != other.number {
            self.number < other.number
        } else {
            self.rank < other.rank
        }
    }

    /// The other one, where it is the nearer one of the two.
    pub(crate) fn nearer(&self, other: Mark) -> Option<Mark>
        ensures { unwrap_or result self.now ≡ lesser self.now other }
    {
        if other.goes_before(self) {
            Some(other)
        } else {
            None
        }
    }
}
