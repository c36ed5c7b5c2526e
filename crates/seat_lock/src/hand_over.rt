//! The hand-over of a lock: the next ticket is served, and only then is it asked who waits.
ghost use Rattle.std.specs.Prelude.{◌≡◌, []};
ghost use Rattle.seat_lock.specs.declared.view.Phase.TheVariants.{Idle};
ghost use Rattle.seat_lock.specs.View.{in_phase};
ghost use Rattle.seat_lock.specs.Steps.{Holds};
ghost use Rattle.seat_lock.specs.Tokens.{lock_id};

use crate::lock::{SERVING, SeatLock, TICKET};
use crate::pass::Token;
use crate::rule::Leave;
use crate::traits::Logged;

/// That a ticket is served. `serve_next` alone makes one, and who waits is asked by it alone: a look before the hand-over
/// would miss who draws the ticket between the two, and sleeps.
#[derive(Drop)]
pub(crate) struct Served {
    ticket: u64,
}

impl<T: Logged> SeatLock<T> {
    // Gives the value up and serves the next ticket.
    pub(crate) fn serve_next(&self, seat: &mut Token<T>) -> Served
        requires lock { seat.old.table_id ≡ lock_id self.now }
        requires holds { Holds T.log seat.old.me }
        ensures lock { seat.new.table_id ≡ seat.old.table_id }
        ensures left { seat.new.me ≡ (in_phase seat.old.me.0 Idle, []) }
    {
        let before = self.table.shared.fetch_add::<Leave>(seat, SERVING, 1);
        Served {
            ticket: before.wrapping_add(1),
        }
    }

    // Wakes those who wait, where somebody has drawn the ticket that is served now. Nobody sleeps otherwise: who draws it
    // from now on finds it served.
    pub(crate) fn wake_waiting(&self, served: Served) {
        if self.table.shared.peek(TICKET) != served.ticket {
            self.table.shared.wake_all(SERVING);
        }
    }
}
