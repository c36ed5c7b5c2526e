//! The rule of the lock's table, and what each step at it tells.
ghost use Rattle.seat_lock.specs.LockRule.{LockRule};
ghost use Rattle.seat_lock.specs.View.{opener, gives_one, given_one, united, spent};
ghost use Rattle.seat_lock.specs.Steps.{Draws, Polls, Notes, Leaves, Recalls};

use crate::traits::Logged;
use crate::view::View;
use atomic_table::{Join, Play, Split, TableRule};

// The rule. Its key is the number of seats.
pub(crate) struct InTurn;

impl<T: Logged> TableRule<Option<T>, View<T::Entry>, u64> for InTurn {
    ghost holds = { λ _. LockRule T.log };

    ghost first = { λ seats. opener seats };
}

// Draws a ticket.
pub(crate) struct Draw;

impl<T: Logged> Play<Option<T>, View<T::Entry>> for Draw {
    ghost then = { Draws };
}

// Looks which ticket is served, and takes the value where it is the seat's own.
pub(crate) struct Poll;

impl<T: Logged> Play<Option<T>, View<T::Entry>> for Poll {
    ghost then = { Polls T.log };
}

// Notes the entry that the value gained.
pub(crate) struct Note;

impl<T: Logged> Play<Option<T>, View<T::Entry>> for Note {
    ghost then = { Notes T.log };
}

// Gives the value up and serves the next ticket.
pub(crate) struct Leave;

impl<T: Logged> Play<Option<T>, View<T::Entry>> for Leave {
    ghost then = { Leaves };
}

// Learns that the seat's own view is sound.
pub(crate) struct Recall;

impl<T: Logged> Play<Option<T>, View<T::Entry>> for Recall {
    ghost then = { Recalls };
}

// Hands out one number to a new seat.
pub(crate) struct HandOut;

impl<E> Split<View<E>> for HandOut {
    ghost left = { gives_one };

    ghost right = { given_one };
}

// Takes in all that another seat answers for.
pub(crate) struct TakeIn;

impl<E> Join<View<E>> for TakeIn {
    ghost both = { united };

    ghost spent = { spent };
}
