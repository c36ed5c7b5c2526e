//! What a seat at the table knows. It exists in proofs alone.
use std::collections::LinkedList;

/// Who has the seat.
pub enum Role {
    /// The first seat, before keeper and turn are two.
    Opens,
    /// The keeper: it stores, grants and reclaims.
    Keeps,
    /// The turn: it fetches under one lease after the other.
    Turns,
    /// A lease.
    Lends,
    /// Nobody: the seat was joined into the turn's.
    Gone,
}

/// What a lease promises of one geode.
pub struct Place<T> {
    pub geode: u64,
    pub slot: u64,
    pub content: T,
}

/// What a lease promises. No value of it is made.
pub struct Plan<T> {
    pub frame: u64,
    pub places: LinkedList<Place<T>>,
}

/// What a seat knows. No value of it is made.
pub struct View<T> {
    pub role: Role,
    /// The keeper: how many leases can be out.
    pub ahead: u64,
    /// The keeper: leases of lower numbers were over when it looked last.
    pub seen: u64,
    /// The keeper: how often it looked.
    pub looks: u64,
    /// The keeper: each frame that was granted is below.
    pub above: u64,
    /// The keeper: all leases, in the order of grants.
    pub leases: LinkedList<Plan<T>>,
    /// The keeper: what it last stored in each slot.
    pub contents: LinkedList<Option<T>>,
    /// The turn: the lease that ends next.
    pub next: u64,
    /// The turn: the slots that are fetched at the moment.
    pub out: LinkedList<u64>,
    /// Keeper and turn: the slot that the seat holds.
    pub held: Option<u64>,
    /// The number of the lease that the seat knows.
    pub number: u64,
    /// What that lease promises.
    pub plan: Option<Plan<T>>,
}
