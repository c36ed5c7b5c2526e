//! Which child a sequence shows.
ghost use Rattle.std.specs.Prelude.{◌≡◌, ◌≤◌, ◌<◌, ◌+◌, sum, slice_index_or};
ghost use Rattle.pf_model.specs.Kinds.{child_times, place_passing, turn_at, sequence_place};

use crate::nodes::Run;

/// The time of the child at a place, in frames: its entry, or 1 where there is none.
fn time_at(times: &[u16], place: usize) -> u32
    ensures value { result ≡ slice_index_or times.now place 1 }
    ensures bound { result ≤ 65535 }
{
    u32::from(times.get(place).copied().unwrap_or(1))
}

/// The sum of the times of so many children.
#[tactic(auto, using(crate::proofs::Turns::total_more))]
fn total_time(times: &[u16], children: usize) -> u32
    requires { children ≤ 256 }
    ensures { result ≡ sum (child_times times.now children) }
{
    let mut total = 0;
    for place in 0..children {
        total += time_at(times, place);
    }
    total
}

/// The first place with which the times add up to more than this many frames, or the number of children.
#[tactic(auto, using(crate::proofs::Turns::passing_here, crate::proofs::Turns::passing_next, crate::proofs::Turns::passing_end))]
fn place_passing(times: &[u16], children: usize, frames: u32) -> usize
    requires { children ≤ 256 }
    ensures value { result ≡ place_passing (child_times times.now children) frames }
    ensures bound { result ≤ 256 }
{
    let mut left = frames;
    for place in 0..children {
        let time = time_at(times, place);
        if left < time {
            return place;
        }
        left -= time;
    }
    children
}

/// The place so many frames after the start, round and round; none where the times add up to 0.
fn turn_at(times: &[u16], children: usize, frames: u32) -> Option<u16>
    requires { children ≤ 256 }
    ensures { result ≡ turn_at (child_times times.now children) frames }
{
    let total = total_time(times, children);
    if total == 0 {
        return None;
    }
    Some(place_passing(times, children, frames % total) as u16)
}

/// The place of a sequence at a time.
pub(crate) fn sequence_place(times: &[u16], run: Run, children: usize, time: u32) -> Option<u16>
    requires { children ≤ 256 }
    ensures { result ≡ sequence_place times.now run children time }
{
    match run {
        Run::Held(place) => Some(place),
        Run::Since(start) => turn_at(times, children, time.saturating_sub(start)),
    }
}
