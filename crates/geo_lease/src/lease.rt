//! The tokens of the other thread: a lease, and the turn that leases are fetched under.
ghost use Rattle.std.specs.Prelude.{◌≡◌, ℕ, [], None, Some};
ghost use Rattle.geo_lease.specs.declared.view.Role.TheVariants.{Lends, Turns};
ghost use Rattle.geo_lease.specs.Plans.{outline};

use crate::rule::Token;

/// The right to fetch under one lease after the other, in the order of their numbers.
///
/// Contracts see its slots (`turn_of`) and its view (`turn_view`): the number of the lease that ends next, and the slots
/// that are fetched at the moment.
#[derive(Drop)]
pub struct Turn<T> {
    pub(crate) seat: Token<T>,
    pub(crate) next: u64,
    ghost rests: { (seat.me.0.role ≡ Turns) × (seat.me.0.held ≡ None) × (seat.me.1 ≡ []) },
    ghost counted: { seat.me.0.next ≡ next },
}

impl<T> Turn<T> {
    ghost use Rattle.geo_lease.specs.Tokens.{turn_view};

    /// The number of the lease that ends next.
    pub fn next(&self) -> u64
        ensures { result ≡ (turn_view self.now).next }
    {
        self.next
    }
}

/// What a frame may fetch: the geodes that it names, with the contents that they had when it was granted.
///
/// Contracts see its slots (`lease_of`), its frame and number, the geodes that it names with their slots
/// (`lease_slots`), and what it promises (`lease_plan`, `content_under`).
#[derive(Drop)]
pub struct Lease<T> {
    pub(crate) frame: u32,
    pub(crate) number: u64,
    pub(crate) places: Vec<(u16, usize)>,
    pub(crate) seat: Token<T>,
    ghost lends: { (seat.me.0.role ≡ Lends) × (seat.me.1 ≡ []) × (seat.me.0.number ≡ number) },
    ghost outlined: { outline seat.me.0.plan ≡ Some (frame, places.items) },
}

impl<T> Lease<T> {
    ghost use Rattle.std.specs.Prelude.{true, length, is_some};
    ghost use Rattle.geo_lease.specs.Plans.{name_at, slot_at};
    ghost use Rattle.geo_lease.specs.Tokens.{lease_slots, frame_of, number_of};

    /// The frame that it was granted for.
    pub fn frame(&self) -> u32
        ensures { result ≡ frame_of self.now }
    {
        self.frame
    }

    /// Its number: leases are numbered from 0 in the order of their grants.
    pub fn number(&self) -> u64
        ensures { result ≡ number_of self.now }
    {
        self.number
    }

    /// How many geodes it names.
    pub fn len(&self) -> usize
        ensures { result ≡ length (lease_slots self.now) }
    {
        self.places.len()
    }

    /// The geode that it names at this place, if there is one.
    pub fn name(&self, index: usize) -> Option<u16>
        ensures { result ≡ name_at (lease_slots self.now) index }
    {
        let place = self.places.get(index)?;
        Some(place.0)
    }

    // The slot of a geode that it names.
    pub(crate) fn slot_of(&self, geode: u16) -> usize
        requires { is_some (slot_at geode (lease_slots self.now)) ≡ true }
        ensures { slot_at geode (lease_slots self.now) ≡ Some result }
    {
        for place in &self.places {
            if place.0 == geode {
                return place.1;
            }
        }
        unreachable!()
    }
}
