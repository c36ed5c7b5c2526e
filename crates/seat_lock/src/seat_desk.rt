//! A desk at a lock, which one thread of many takes its turns at.
ghost use Rattle.std.specs.Prelude.{◌≡◌};
ghost use Rattle.std.specs.Arc.{arc_value};
ghost use Rattle.seat_lock.specs.Log.{of};
ghost use Rattle.seat_lock.specs.View.{IsSound};
ghost use Rattle.seat_lock.specs.Tokens.{lock_id, pass_of, pass_view};

use crate::lock::SeatLock;
use crate::pass::Pass;
use crate::traits::{Act, Desk, Glance, Logged};
use std::alloc::Global;
use std::sync::{Arc, Wait};

/// A pass at a shared lock. A turn and a look wait until they are served.
///
/// Contracts see its lock (`desk_lock`) and the view of its pass (`desk_view`). The entries that the pass keeps of its
/// own number are those of this number in the log seen.
#[derive(Drop)]
pub struct SeatDesk<T: Logged, R> {
    lock: Arc<SeatLock<T>, Global>,
    pass: Pass<T>,
    rt: R,
    ghost fits: { pass_of pass ≡ lock_id (arc_value lock) },
    ghost own: { of (pass_view pass).number (pass_view pass).kept ≡
        of (pass_view pass).number (pass_view pass).seen },
}

impl<T: Logged, R> SeatDesk<T, R> {
    ghost use Rattle.seat_lock.specs.SeatDesk.{desk_lock, desk_view};

    /// A desk at the lock for the holder of the pass.
    pub fn new(rt: R, lock: Arc<SeatLock<T>, Global>, mut pass: Pass<T>) -> SeatDesk<T, R>
        requires { pass_of pass ≡ lock_id (arc_value lock) }
        ensures lock { desk_lock result ≡ pass_of pass }
        ensures view { desk_view result ≡ pass_view pass }
    {
        lock.recall_pass(&mut pass);
        SeatDesk { lock, pass, rt }
    }
}

impl<T: Logged + Drop, R: Drop> SeatDesk<T, R> {
    ghost use Rattle.seat_lock.specs.SeatDesk.{desk_lock, desk_view};

    /// The pass, with all that the turns added to it. Its view is sound: it answers for its own number, and keeps of
    /// each number that it answers for the entries in the log seen.
    pub fn into_pass(self) -> Pass<T>
        ensures lock { pass_of result ≡ desk_lock self }
        ensures view { pass_view result ≡ desk_view self }
        ensures own { of (pass_view result).number (pass_view result).kept ≡
            of (pass_view result).number (pass_view result).seen }
        ensures sound { IsSound (pass_view result) }
    {
        let SeatDesk {
            lock,
            pass: mut returned,
            rt: _,
        } = self;
        lock.recall_pass(&mut returned);
        returned
    }
}

impl<T: Logged, R: Wait> Desk<T> for SeatDesk<T, R> {
    ghost use Rattle.std.specs.Prelude.{None};
    ghost use Rattle.seat_lock.specs.View.{stand_of};
    ghost use Rattle.seat_lock.specs.SeatDesk.{desk_lock, desk_view};

    ghost number = { λ d. (desk_view d).number };

    ghost seen = { λ d. (desk_view d).seen };

    ghost stands = { λ d. stand_of (desk_lock d) (desk_view d) };

    ghost told = { λ d. None };

    fn turn<A: Act<T>>(&mut self, act: A) -> A::Reply {
        self.lock.turn(&self.rt, &mut self.pass, act)
    }

    fn look<G: Glance<T>>(&mut self, glance: G) -> G::Out {
        self.lock.look(&self.rt, &mut self.pass, glance)
    }
}
