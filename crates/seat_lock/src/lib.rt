//! A lock with seats: threads take turns at one value, and the value's log of entries proves what each of them did.
//!
//! The value keeps a log, a list of (seat number, entry). A [`SeatLock`] is made for a fixed number of seats. Who holds
//! a [`Pass`] takes a turn by an [`Act`], which may add one entry, or has a look by a [`Glance`]. The pass keeps what
//! its holder has seen of the log and which entries are its own, in proofs alone. Passes are split for other threads
//! and joined again, and the closed lock gives back a value whose log holds the entries of the passes and no others.
//! A [`Desk`] is the right to take turns, whether over a lock ([`SeatDesk`]) or alone ([`PlainDesk`]).
#![tactic(auto)]

mod hand_over;
mod lock;
mod pass;
mod plain_desk;
mod rule;
mod seat_desk;
mod traits;
mod view;

pub use lock::SeatLock;
pub use pass::Pass;
pub use plain_desk::PlainDesk;
pub use seat_desk::SeatDesk;
pub use traits::{Act, Desk, Glance, Logged};
pub use view::{Phase, View};

#[cfg(test)]
mod tests;
