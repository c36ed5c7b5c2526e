//! Why reading stops.
use play_format::Refusal;

/// Why a feed reads no further.
#[derive(Clone, Copy, Debug, PartialEq, Eq)]
pub enum FeedError {
    /// The first wrong line, and the first cause against it.
    Refused(Refusal),
    /// Memory ran out.
    NoMemory,
}

impl From<Refusal> for FeedError {
    ghost use Rattle.std.specs.Prelude.{◌≡◌};
    ghost use Rattle.live_feed.specs.declared.error.FeedError.TheVariants as feed_error;

    ghost from_gives = { λ refusal e. e ≡ feed_error.Refused refusal };

    fn from(refusal: Refusal) -> FeedError {
        FeedError::Refused(refusal)
    }
}
