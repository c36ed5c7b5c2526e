//! Marks: how far a clean has come with an id.
ghost use Rattle.std.specs.Prelude.{◌≡◌};
ghost use Rattle.bound_cache.specs.Tables.{is_done, is_still, is_changed, is_under_way};

/// What a clean knows of an id, and how far it has come with it.
#[derive(Clone, Copy, Debug, PartialEq, Eq)]
pub(crate) enum Mark {
    /// Not touched since the last clean; its box is made of no other, so there is nothing to do.
    Clean,
    /// Not touched since the last clean, and not seen in this one; its box is made of others.
    Noted,
    /// Touched since the last clean, and not seen in this one.
    Touched,
    /// Seen; its box did not have to be reckoned.
    Same,
    /// Seen; its box was reckoned.
    Changed,
}

impl Mark {
    pub(crate) fn is_done(self) -> bool
        ensures { result ≡ is_done self }
    {
        match self {
            Mark::Noted | Mark::Touched => false,
            Mark::Clean | Mark::Same | Mark::Changed => true,
        }
    }

    pub(crate) fn is_still(self) -> bool
        ensures { result ≡ is_still self }
    {
        match self {
            Mark::Clean | Mark::Noted | Mark::Same => true,
            Mark::Touched | Mark::Changed => false,
        }
    }

    pub(crate) fn is_changed(self) -> bool
        ensures { result ≡ is_changed self }
    {
        match self {
            Mark::Clean | Mark::Noted | Mark::Touched | Mark::Same => false,
            Mark::Changed => true,
        }
    }

    /// Whether a clean that ends has to change it.
    pub(crate) fn is_under_way(self) -> bool
        ensures { result ≡ is_under_way self }
    {
        match self {
            Mark::Clean | Mark::Noted => false,
            Mark::Touched | Mark::Same | Mark::Changed => true,
        }
    }
}
