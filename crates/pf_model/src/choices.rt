//! Which children of a node are shown.
ghost use Rattle.std.specs.Prelude.{◌≡◌, ◌≤◌, ◌<◌, ◌*◌, ◌+◌, ◌^◌, length, unsigned_abs};
ghost use Rattle.fx_math.specs.Views.{point_of};
ghost use Rattle.fx_math.specs.Within.{IsCoordinate};
ghost use Rattle.pf_model.specs.Kinds.{is_between, level_at, squared_length, chosen_at, picked, chosen_of};
ghost use Rattle.pf_model.specs.ShownPlaces.{ArePlaces};

use crate::nodes::{Chosen, Kind, Node, Pick};
use crate::sequences::sequence_place;
use fx_math::Vec3;
use std::ops::Range;

/// The square of a coordinate.
fn squared(x: i32) -> u64
    requires { IsCoordinate x }
    ensures value { result ≡ unsigned_abs x * unsigned_abs x }
    ensures bound { result < 2 ^ 61 }
{
    let size = u64::from(x.unsigned_abs());
    size * size
}

/// The square of the distance of a point from 0.
fn squared_length(v: Vec3) -> u64
    ensures { result ≡ squared_length (point_of v) }
{
    squared(v.x) + squared(v.y) + squared(v.z)
}

/// Whether the distance with this square is at least the first range and below the second.
fn is_between(square: u64, near: u32, far: u32) -> bool
    ensures { result ≡ is_between square (near, far) }
{
    let near = u64::from(near);
    let far = u64::from(far);
    near * near <= square && square < far * far
}

/// The least place of a level of detail with the distance from its range up to the next one.
fn level_at(ranges: &[u32], square: u64) -> Option<usize>
    ensures { result ≡ level_at ranges.now square }
{
    ranges
        .iter()
        .zip(ranges.iter().skip(1))
        .position(|(near, far)| is_between(square, *near, *far))
}

/// The child at a place, none where it is not there.
fn chosen_at(children: usize, place: Option<u16>) -> Chosen
    ensures { result ≡ chosen_at children place }
{
    match place {
        Some(place) if usize::from(place) < children => Chosen::One(place),
        _ => Chosen::Nothing,
    }
}

fn picked(pick: Pick, children: usize) -> Chosen
    ensures { result ≡ picked pick children }
{
    match pick {
        Pick::On => Chosen::All,
        Pick::Off => Chosen::Nothing,
        Pick::One(place) => chosen_at(children, Some(place)),
    }
}

/// The child at a place of a level of detail, none where it is not there.
fn level_chosen(children: usize, level: Option<usize>) -> Chosen
    requires { children ≤ 256 }
    ensures { result ≡ chosen_at children level }
{
    match level {
        Some(place) if place < children => Chosen::One(place as u16),
        _ => Chosen::Nothing,
    }
}

/// Which children of a node are shown at a time. `centre` is the centre of a level of detail in eye coordinates; other
/// kinds do not look at it.
pub fn chosen_children(node: &Node, centre: Vec3, time: u32) -> Chosen
    ensures { result ≡ chosen_of node.now.kind (point_of centre) time (length node.now.children) }
{
    let children = node.children.len();
    match &node.kind {
        Kind::Switch(pick) => picked(*pick, children),
        Kind::Lod { ranges, .. } => {
            let level = level_at(ranges.as_slice(), squared_length(centre));
            level_chosen(children, level)
        }
        Kind::Seq { times, run } => {
            chosen_at(
                children,
                sequence_place(times.as_slice(), *run, children, time),
            )
        }
        Kind::Geode { .. } | Kind::Glass { .. } => Chosen::Nothing,
        Kind::Group | Kind::Scs(_) | Kind::Dcs(_) | Kind::Layer => Chosen::All,
    }
}

impl Chosen {
    /// The places of the chosen ones of so many children.
    pub fn shown_places(self, children: usize) -> Range<usize>
        ensures { ArePlaces self children result.start result.end }
    {
        match self {
            Chosen::All => 0..children,
            Chosen::One(place) if usize::from(place) < children => {
                let place = usize::from(place);
                place..place + 1
            }
            Chosen::One(_) | Chosen::Nothing => 0..0,
        }
    }
}
