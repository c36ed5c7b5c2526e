//! Hits, and the closest of them.
ghost use Rattle.std.specs.Prelude.{◌≡◌, map};
ghost use Rattle.nearest_hit.specs.Nearest.{is_before, closer};

/// The hit of a triangle: how far along the segment it lies, in 1/65536 of its length, rounded down; the place of the
/// instance in the walk of the frame, counted from 0; the number of the triangle in the instance, from 0; and the id of
/// the geode.
#[derive(Clone, Copy, Debug, PartialEq, Eq)]
pub struct Near {
    pub t: u32,
    pub place: u32,
    pub tri: u32,
    pub id: u16,
}

impl Near {
    /// Whether the hit is closer: by time, then by place, then by number.
    fn is_before(&self, other: &Near) -> bool
        ensures { result ≡ is_before self.now other.now }
    {
        if self.t != other.t {
            self.t < other.t
        } else if self.place != other.place {
            self.place < other.place
        } else {
            self.tri < other.tri
        }
    }
}

/// The closer of a hit so far, where there is one, and another hit; the hit so far where neither is closer.
pub(crate) fn closer(best: Option<Near>, hit: Near) -> Option<Near>
    ensures { result ≡ closer best hit }
{
    match best {
        Some(so_far) if !hit.is_before(&so_far) => Some(so_far),
        _ => Some(hit),
    }
}
