//! Making a ring, and bringing its ends together again.
ghost use Rattle.std.specs.Prelude.{◌≡◌, ◌++◌, length, IfOk};
ghost use Rattle.frame_link.specs.Ends.{IsNewRing, ring_sent, ring_send_at, ring_send_room, ring_taken, ring_waiting, ring_take_at, ring_take_room};

use crate::ring_ends::{RingSend, RingTake};
use pf_io::NoMemory;
use rtrb::RingBuffer;
use std::alloc::Global;

/// Makes a ring with room for so many items, and gives its two ends.
pub fn ring<T: Drop>(alloc: Global, room: usize) -> Result<(RingSend<T>, RingTake<T>), NoMemory>
    ensures { IfOk result (λ ends. IsNewRing room ends.0 ends.1) }
{
    let (producer, consumer) = RingBuffer::new(alloc, room)?;
    Ok((RingSend { end: producer }, RingTake { end: consumer }))
}

/// How many items are left in a ring whose two ends are in one thread again. What was received and
/// what is left are together what was sent, and that many next pops give an item.
pub fn home<T>(send: &mut RingSend<T>, take: &mut RingTake<T>) -> usize
    requires { ring_take_at take.old ≡ ring_send_at send.old }
    ensures left { result ≡ length (ring_waiting take.new) }
    ensures all { ring_taken take.new ++ ring_waiting take.new ≡ ring_sent send.new }

    // Nothing is sent or taken.
    ensures sent { ring_sent send.new ≡ ring_sent send.old }
    ensures taken { ring_taken take.new ≡ ring_taken take.old }
    ensures send { (ring_send_at send.new ≡ ring_send_at send.old) × (ring_send_room send.new ≡ ring_send_room send.old) }
    ensures take { (ring_take_at take.new ≡ ring_take_at take.old) × (ring_take_room take.new ≡ ring_take_room take.old) }
{
    take.end.slots_beside(&mut send.end)
}
