//! The rule of the table, and what each step at it tells.
ghost use Rattle.std.specs.Prelude.{ℕ, []};
ghost use Rattle.geo_lease.specs.declared.view.Plan.{Plan};
ghost use Rattle.geo_lease.specs.LeaseRule.{LeaseRule};
ghost use Rattle.geo_lease.specs.Views.{opener, keeping, first_turn, lend, learning, gone};
ghost use Rattle.geo_lease.specs.Steps.{Sees, Takes, Lays, Grants, TakesLeased, LaysOut, LaysBack, Ends};

use crate::view::View;
use atomic_table::{Join, Play, Seat, Split, TableRule};
use std::marker::{Brand, PhantomData};

pub(crate) type Token<T> = Seat<Option<T>, View<T>>;

// The words of the table: how many leases were granted, and how many ended.
pub(crate) const GRANTED: usize = 0;

pub(crate) const ENDED: usize = 1;

// The rule. Its key is how many leases can be out, and the number of slots.
pub struct AsLeased;

impl<T> TableRule<Option<T>, View<T>, (u64, u64)> for AsLeased {
    ghost holds = { λ key. LeaseRule key.0 key.1 };

    ghost first = { λ key. opener key.0 key.1 };
}

// The slot that a step is about. Each call picks it.
pub(crate) trait Slotted {
    ghost slot: { ℕ };
}

impl Slotted for Brand {
    ghost slot = { 0 };
}

// The lease that a step is about. Each call picks it.
pub(crate) trait Planned<T> {
    ghost plan: { Plan T };
}

impl<T> Planned<T> for Brand {
    ghost plan = { record { frame = 0; places = [] } };
}

// Kind 1: looks which leases ended.
pub(crate) struct See;

impl<T> Play<Option<T>, View<T>> for See {
    ghost then = { Sees };
}

// Kind 2: the keeper takes a slot.
pub(crate) struct Take<N>(PhantomData<N>);

impl<T, N: Slotted> Play<Option<T>, View<T>> for Take<N> {
    ghost then = { Takes N.slot };
}

// Kind 3: the keeper lays it back.
pub(crate) struct Lay;

impl<T> Play<Option<T>, View<T>> for Lay {
    ghost then = { Lays };
}

// Kind 4: the keeper grants a lease.
pub(crate) struct Grant<P>(PhantomData<P>);

impl<T, P: Planned<T>> Play<Option<T>, View<T>> for Grant<P> {
    ghost then = { Grants P.plan };
}

// Kind 5: a new seat knows the lease that this one knows.
pub(crate) struct Lend;

impl<T> Split<View<T>> for Lend {
    ghost left = { λ v. v };

    ghost right = { lend };
}

// The first seat becomes the keeper's, and a new one the turn's.
pub(crate) struct Part;

impl<T> Split<View<T>> for Part {
    ghost left = { keeping };

    ghost right = { λ v. first_turn };
}

// Kind 6: the turn learns the lease that the other seat knows.
pub(crate) struct Learn;

impl<T> Join<View<T>> for Learn {
    ghost both = { learning };

    ghost spent = { gone };
}

// Kind 7: the turn takes a slot of its lease.
pub(crate) struct TakeLeased<N>(PhantomData<N>);

impl<T, N: Slotted> Play<Option<T>, View<T>> for TakeLeased<N> {
    ghost then = { TakesLeased N.slot };
}

// Kind 8: the turn lays it back empty.
pub(crate) struct LayOut;

impl<T> Play<Option<T>, View<T>> for LayOut {
    ghost then = { LaysOut };
}

// Kind 8: the turn lays it back with its content.
pub(crate) struct LayBack;

impl<T> Play<Option<T>, View<T>> for LayBack {
    ghost then = { LaysBack };
}

// Kind 9: the turn ends its lease.
pub(crate) struct End;

impl<T> Play<Option<T>, View<T>> for End {
    ghost then = { Ends };
}
