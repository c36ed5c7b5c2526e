//! The keeper's token: which slot each geode's content lies in, and which slots leases name.
ghost use Rattle.std.specs.Prelude.{◌≡◌, ℕ, [], None};
ghost use Rattle.geo_lease.specs.declared.view.Role.TheVariants.{Keeps};
ghost use Rattle.geo_lease.specs.Calls.{Tracks};

use crate::rule::Token;
use std::alloc::{AllocError, AllocFailed, Global};

/// Memory is short.
#[derive(Clone, Copy, Debug, PartialEq, Eq)]
pub struct NoMemory;

impl From<AllocError> for NoMemory {
    fn from(_error: AllocError) -> NoMemory {
        NoMemory
    }
}

/// Why no lease was granted.
#[derive(Clone, Copy, Debug, PartialEq, Eq)]
pub enum GrantError {
    /// As many leases as there can be are out, where this many had ended when the call looked.
    Out(u64),
    /// Memory is short.
    NoMemory,
}

/// The right to store, to grant and to reclaim.
///
/// Contracts see its slots (`keeper_of`), its view (`keeper_view`), the current slot of each geode (`current_slots`)
/// and the content that a geode has now (`content_of`).
#[derive(Drop)]
pub struct Keeper<T> {
    pub(crate) seat: Token<T>,
    pub(crate) ahead: u8,
    // What it saw last of the word ended.
    pub(crate) seen: u64,
    pub(crate) granted: u64,
    pub(crate) current: Vec<Option<usize>>,
    // Of each slot one more than the number of the last lease that names it, or 0.
    pub(crate) last: Vec<u64>,
    ghost rests: { (seat.me.0.role ≡ Keeps) × (seat.me.0.held ≡ None) × (seat.me.1 ≡ []) },
    ghost tracks: { Tracks seat.me.0 ahead seen granted current.items last.items },
}

impl<T> Keeper<T> {
    ghost use Rattle.std.specs.Prelude.{◌+◌, ◌*◌, ◌/◌, ◌<◌, ◌≤◌, ◌↔◌, true, length, get_or, slice_get, is_some, IsTrue, IfOk, OnErr, MatchBool, All};
    ghost use Rattle.geo_lease.specs.Plans.{with_slots};
    ghost use Rattle.geo_lease.specs.Calls.{Chosen, IsIdle};
    ghost use Rattle.geo_lease.specs.Tokens.{keeper_view, current_slots, geodes_of, content_of};

    /// The frame of a lease that waits for memory. No lease ever does: `grant` takes its memory first.
    pub fn waiting(&self) -> Option<u32>
        ensures { result ≡ None }
    {
        None
    }

    // The slot that the geode's next content goes to.
    pub(crate) fn choose(&self, geode: usize) -> usize
        requires { geode < geodes_of self.now }
        ensures { Chosen (keeper_view self.now) (current_slots self.now) geode result }
    {
        if let Some(slot) = self.current[geode] {
            if self.is_free(slot) {
                return slot;
            }
        }
        self.lowest_free(geode)
    }

    // Whether no lease that may be out names the slot.
    pub(crate) fn is_free(&self, slot: usize) -> bool
        requires { slot < length self.now.last.items }
        ensures { MatchBool result (get_or self.now.last.items slot 0 ≤ self.now.seen)
            (self.now.seen < get_or self.now.last.items slot 0) }
    {
        self.last[slot] <= self.seen
    }

    // Whether the slot is no geode's current one.
    pub(crate) fn is_idle(&self, slot: usize) -> bool
        requires { slot < length self.now.last.items }
        ensures { IsTrue result ↔ IsIdle (current_slots self.now) slot }
    {
        let geode = slot / (usize::from(self.ahead) + 1);
        self.current[geode] != Some(slot)
    }

    // The lowest of the geode's slots that no lease that may be out names. There is one, since a lease names one slot of
    // a geode, and a geode has more slots than leases can be out.
    fn lowest_free(&self, geode: usize) -> usize
        requires { geode < geodes_of self.now }
        ensures inside { result < length self.now.last.items }
        ensures of_geode { result / (self.now.ahead + 1) ≡ geode }
        ensures free { get_or self.now.last.items result 0 ≤ self.now.seen }
        ensures lowest { (j : ℕ) → j < result → j / (self.now.ahead + 1) ≡ geode →
            self.now.seen < get_or self.now.last.items j 0 }
    {
        let width = usize::from(self.ahead) + 1;
        let first = geode * width;
        for slot in first..first + width {
            if self.is_free(slot) {
                return slot;
            }
        }
        unreachable!()
    }

    // Each named geode with its current slot.
    pub(crate) fn places_for(
        &self,
        alloc: Global,
        names: &[u16],
    ) -> Result<Vec<(u16, usize)>, AllocError>
        requires { All (λ geode. is_some (content_of self.now geode) ≡ true) names.now }
        ensures places { IfOk result (λ places. places.items ≡ with_slots (current_slots self.now) names.now) }
        ensures asked { OnErr result (0 < length names.now) }
    {
        let mut places = Vec::new(alloc);
        for name in names {
            let Some(slot) = self.current[usize::from(*name)] else {
                unreachable!()
            };
            places.push((*name, slot))?;
        }
        Ok(places)
    }
}
