//! What a seat knows of the lock. It exists in proofs alone.
use std::collections::LinkedList;

/// Where a seat stands in a turn.
pub enum Phase {
    /// It has no ticket.
    Idle,
    /// It has drawn this ticket.
    Waiting(u64),
    /// Its ticket, this one, is served: it holds the value.
    Serving(u64),
}

/// What a seat knows. No value of it is made.
pub struct View<E> {
    /// The seat's number.
    pub number: u64,
    /// The number of seats of the lock.
    pub seats: u64,
    pub phase: Phase,
    /// The numbers that it answers for and does not hand out: its own, and those that came home to it.
    pub answers: LinkedList<u64>,
    /// The numbers that it can still hand out begin here.
    pub next: u64,
    /// They end below this one.
    pub end: u64,
    /// The longest log that it has seen.
    pub seen: LinkedList<(u64, E)>,
    /// The shorter of the two logs that met where another seat last came home to it. It is a front of `seen`.
    pub shorter_seen: LinkedList<(u64, E)>,
    /// The entries of the numbers that it answers for.
    pub kept: LinkedList<(u64, E)>,
}
