//! The ends of a link between two threads: a ring with a fixed number of places.
ghost use Rattle.std.specs.Prelude.{◌+◌, ◌≤◌, length};
ghost use Rattle.rtrb.specs.Ring.{sent, known_free, producer_capacity};

use crate::ends::{SendEnd, TakeEnd};
use rtrb::{Consumer, Producer, PushError};

/// The end of a ring that sends. It can move to another thread.
#[derive(Drop)]
pub struct RingSend<T> {
    pub(crate) end: Producer<T>,
    ghost spare: { producer_capacity end ≤ known_free end + length (sent end) },
}

/// The end of a ring that takes. It can move to another thread.
#[derive(Drop)]
pub struct RingTake<T> {
    pub(crate) end: Consumer<T>,
}

impl<T> SendEnd<T> for RingSend<T> {
    ghost use Rattle.std.specs.Prelude.{◌≡◌, ◌<◌, [], ◌∷◌, ◌++◌, None, IsOk, OnOk, OnErr, IfErr};
    ghost use Rattle.frame_link.specs.Ends.{ring_sent, ring_free, ring_send_at, ring_send_room};

    ghost sent = { ring_sent };

    ghost send_at = { ring_send_at };

    ghost room = { ring_send_room };

    ghost told_taken = { λ _. None };

    fn push(&mut self, item: T) -> Result<(), T>
        ensures ok { OnOk result (ring_sent self.new ≡ ring_sent self.old ++ item ∷ []) }
        ensures err { IfErr result (λ back. (back ≡ item) × (ring_sent self.new ≡ ring_sent self.old)) }
        ensures spare { length (ring_sent self.old) < ring_send_room self.old → IsOk result }
        ensures link { ring_send_at self.new ≡ ring_send_at self.old }
        ensures room { ring_send_room self.new ≡ ring_send_room self.old }

        // A place that is known to be free is used, and only where none is left is the item refused.
        ensures free { 0 < ring_free self.old → IsOk result }
        ensures used { OnOk result (ring_free self.old ≤ ring_free self.new + 1) }
        ensures full { OnErr result (ring_free self.new ≡ 0) }
    {
        match self.end.push(item) {
            Ok(()) => Ok(()),
            Err(PushError::Full(item)) => Err(item),
        }
    }
}

impl<T> TakeEnd<T> for RingTake<T> {
    ghost use Rattle.std.specs.Prelude.{◌≡◌, ◌<◌, [], ◌∷◌, ◌++◌, None, IsSome, IfSome, IfNone};
    ghost use mathlib.Core.List.{IsPrefix};
    ghost use Rattle.frame_link.specs.Ends.{ring_taken, ring_waiting, ring_take_at, ring_take_room};

    ghost taken = { ring_taken };

    ghost take_at = { ring_take_at };

    ghost take_room = { ring_take_room };

    ghost told_sent = { λ _. None };

    fn pop(&mut self) -> Option<T>
        ensures some { IfSome result (λ item. ring_taken self.new ≡ ring_taken self.old ++ item ∷ []) }
        ensures none { IfNone result (ring_taken self.new ≡ ring_taken self.old) }
        ensures link { ring_take_at self.new ≡ ring_take_at self.old }
        ensures room { ring_take_room self.new ≡ ring_take_room self.old }

        // The items that are known to wait come first, and only where none is left is it `None`.
        ensures waits { 0 < length (ring_waiting self.old) → IsSome result }
        ensures known { IfSome result (λ item. IsPrefix (ring_waiting self.old) (item ∷ ring_waiting self.new)) }
        ensures empty { IfNone result (ring_waiting self.new ≡ []) }
    {
        self.end.pop().ok()
    }
}
