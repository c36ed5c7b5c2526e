//! The token with which a thread takes turns at a lock.
ghost use Rattle.std.specs.Prelude.{◌≡◌, ◌<◌, ◌+◌, [], length};
ghost use Rattle.seat_lock.specs.declared.view.Phase.TheVariants.{Idle};

use crate::traits::Logged;
use crate::view::View;
use atomic_table::Seat;

pub(crate) type Token<T> = Seat<Option<T>, View<<T as Logged>::Entry>>;

/// A seat at a [`SeatLock`](crate::SeatLock): the right to take turns under its number.
///
/// Contracts see its lock (`pass_of`) and its view (`pass_view`): the number, the numbers that it answers for, the log
/// seen and the entries kept. It answers for its own number, for those that it can still hand out, and for those that
/// came home to it.
#[derive(Drop)]
pub struct Pass<T: Logged> {
    pub(crate) number: u32,
    pub(crate) next: u32,
    pub(crate) end: u32,
    pub(crate) seat: Token<T>,
    ghost numbered: { (seat.me.0.number ≡ number) × (seat.me.0.next ≡ next) × (seat.me.0.end ≡ end) },
    ghost rests: { (seat.me.0.phase ≡ Idle) × (seat.me.1 ≡ []) },
    ghost awake: { 0 < length seat.me.0.answers },
}

impl<T: Logged> Pass<T> {
    ghost use Rattle.std.specs.Prelude.{◌-◌};
    ghost use Rattle.seat_lock.specs.Tokens.{pass_view};

    /// How many numbers the pass can still hand out.
    pub fn spare(&self) -> u32
        ensures { result ≡ (pass_view self.now).end - (pass_view self.now).next }
    {
        self.end.saturating_sub(self.next)
    }
}
