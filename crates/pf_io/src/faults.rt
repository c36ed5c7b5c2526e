//! Where the ends over memory are to fail.
ghost use Rattle.std.specs.Prelude.{◌≡◌, ◌==◌, ◌↔◌, ◌<◌, ◌≤◌, length, position, Contains, IsTrue, IfSome};
ghost use Rattle.pf_io.specs.Causes.{Rose};
ghost use Rattle.pf_io.specs.Memory.{FaultPlan, fresh_plan, after_fault, reach, without_first};

use crate::Failed;
use std::marker::Model;

/// The places at which calls are still to fail, the number of faults so far, and the place of the last one.
#[derive(Drop)]
pub struct Faults {
    places: Vec<u64>,
    count: u64,
    last: Option<usize>,
}

impl Model for Faults {
    ghost Value = { FaultPlan };

    ghost view = { λ f. record { places = f.places.items; count = f.count; last = f.last } };
}

impl Faults {
    pub fn new(places: Vec<u64>) -> Faults
        ensures { result ≡ fresh_plan places.items }
    {
        Faults {
            places,
            count: 0,
            last: None,
        }
    }

    /// Whether a call that begins at `place` is to fail.
    pub fn is_due(&self, place: usize) -> bool
        ensures { IsTrue result ↔ Contains self.now.places place }
    {
        self.places.contains(&(place as u64))
    }

    /// Notes the fault of a call at `place`, which uses up one entry of that place.
    pub fn strike(&mut self, place: usize) -> Failed
        ensures plan { self.new ≡ after_fault place self.old }
        ensures later { self.old.count ≤ self.new.count }
        ensures rose { Rose self.old.count self.new.count }
    {
        remove_first(&mut self.places, place as u64);
        self.count = self.count.saturating_add(1);
        self.last = Some(place);
        Failed
    }

    /// How many of `most` bytes a call that begins at `place` moves: it stops at the next place that is to fail.
    pub fn reach(&self, place: usize, most: usize) -> usize
        ensures exact { result ≡ reach self.now place most }
        ensures bound { result ≤ most }
        ensures moves { 0 < most → 0 < result }
    {
        self.places
            .iter()
            .map(|p| *p as usize)
            .filter(|p| place < *p)
            .fold(most, |n, p| n.min(p.saturating_sub(place)))
    }
}

fn remove_first(places: &mut Vec<u64>, place: u64)
    ensures { places.new.items ≡ without_first place places.old.items }
{
    if let Some(entry) = first_entry(places, place) {
        places.remove(entry);
    }
}

fn first_entry(places: &[u64], place: u64) -> Option<usize>
    ensures value { result ≡ position (λ p. p == place) places.now }
    ensures bound { IfSome result (λ entry. entry < length places.now) }
{
    places.iter().position(|p| *p == place)
}
