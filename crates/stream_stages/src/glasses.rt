//! The order of the glass that waits.
ghost use Rattle.std.specs.Prelude.{◌≡◌};
ghost use Rattle.std.specs.Vec.{vec_len, vec_capacity};
ghost use Rattle.std.specs.List.Sorted.{IsPermutation, IsSortedBy};
ghost use Rattle.stream_stages.specs.Routes.{glass_key, glass_order};

use crate::sightings::Sighting;
use std::cmp::Reverse;

/// Puts glass that waits in the order in which it is drawn.
pub(crate) fn put_in_order(glass: &mut Vec<Sighting>)
    ensures permutation { IsPermutation glass.old.items glass.new.items }
    ensures sorted { IsSortedBy glass_order glass.new.items }
    ensures len { vec_len glass.new ≡ vec_len glass.old }
    ensures capacity { vec_capacity glass.new ≡ vec_capacity glass.old }
{
    glass.sort_unstable_by_key(|x| glass_key(x));
}

/// What orders glass: from far to near, and at one distance by rising place.
fn glass_key(x: &Sighting) -> (Reverse<u64>, u32)
    ensures { result ≡ glass_key x.now }
{
    match x.tint {
        None => (Reverse(0), x.place),
        Some(tint) => (Reverse(tint.far), x.place),
    }
}
