//! What is kept under the lock, what may be done to it, and the right to do it.
ghost use Rattle.std.specs.Prelude.{◌≡◌, ℕ, List, Option, length};
ghost use Rattle.seat_lock.specs.Log.{Adds};
ghost use Rattle.seat_lock.specs.Desk.{Stand, Turned, Looked};

/// A value with a log of (seat number, entry) that only grows.
pub trait Logged {
    type Entry;

    ghost log: { Self → List (ℕ × Self.Entry) };

    /// The number of entries of the log.
    fn entries(&self) -> u64
        ensures { result ≡ length (log self.now) };
}

/// One thing to be done to the value in a turn. It owns what it needs, and hands it back in its reply.
pub trait Act<T: Logged> {
    type Reply;

    // Of the act, the number of the seat, the value found, the value left and the reply.
    ghost does: { Self → ℕ → T → T → Self.Reply → Type 0 };

    /// Changes the value and replies. It adds one entry under the seat's number to the log, or none.
    fn act(self, value: &mut T, seat: u32) -> Self::Reply
        ensures does { does self seat value.old value.new result }
        ensures adds { Adds seat (T.log value.old) (T.log value.new) };
}

/// A look at the value.
pub trait Glance<T> {
    type Out;

    // Of the glance, the value and what comes out.
    ghost shows: { Self → T → Self.Out → Type 0 };

    /// Reads the value.
    fn glance(self, value: &T) -> Self::Out
        ensures { shows self value.now result };
}

/// The right to take turns at a value, under one seat number.
///
/// A desk has seen a front of the value's log. Its own entries are those of its number in it. The log that a turn or
/// a look finds goes on from there, and none of the further entries has the desk's number: nobody else writes under it.
pub trait Desk<T: Logged> {
    // The number of the seat.
    ghost number: { Self → ℕ };
    // The log that was seen last.
    ghost seen: { Self → List (ℕ × T.Entry) };
    // What no turn and no look changes: which lock, how many seats, the numbers that the desk answers for, and the
    // entries of all these but its own.
    ghost stands: { Self → Stand T.Entry };
    // The value, where the desk tells it: a desk on one thread does, a desk at a lock does not.
    ghost told: { Self → Option T };

    /// One turn: the act finds the value, changes it and replies.
    fn turn<A: Act<T>>(&mut self, act: A) -> A::Reply
        ensures number { number self.new ≡ number self.old }
        ensures stands { stands self.new ≡ stands self.old }
        ensures turned { Turned T.log (number self.old) (A.does act (number self.old)) (seen self.old) (told self.old)
            result (seen self.new) (told self.new) };

    /// One look at the value, which adds no entry.
    fn look<G: Glance<T>>(&mut self, glance: G) -> G::Out
        ensures number { number self.new ≡ number self.old }
        ensures stands { stands self.new ≡ stands self.old }
        ensures told { told self.new ≡ told self.old }
        ensures looked { Looked T.log (number self.old) (G.shows glance) (seen self.old) (told self.old)
            result (seen self.new) };
}
