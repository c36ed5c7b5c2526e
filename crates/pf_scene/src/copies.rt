//! The greatest number of copies that the cycle of a geode has had.
ghost use Rattle.std.specs.Prelude.{◌≡◌, max, ◌+◌, ◌<◌, if◌then◌else◌, is_some};
ghost use Rattle.std.specs.List.{list_any};
ghost use Rattle.pf_scene.specs.Scenes.{with_cycle, with_grown};
ghost use Rattle.pf_scene.specs.Stock.{makes_geode};

use crate::stock;
use pf_model::{Edit, Fault};

/// The greater of two numbers.
fn most(a: u32, b: u32) -> u32
    ensures { result ≡ max a b }
{
    if a < b { b } else { a }
}

/// The number after a geode was made, where one was.
fn with_cycle(made: bool, ahead: u8, copies: u32) -> u32
    ensures { result ≡ with_cycle made ahead copies }
{
    if made {
        most(copies, u32::from(ahead) + 1)
    } else {
        copies
    }
}

/// The number after a frame, where the cycles had at most so many copies. There is no cycle before the first geode.
pub(crate) fn after_frame(copies: u32, cycles: u32) -> u32
    ensures { result ≡ with_grown cycles copies }
{
    if copies == 0 { 0 } else { most(copies, cycles) }
}

/// The number after an edit.
pub(crate) fn after_edit(copies: u32, ahead: u8, e: &Edit, fault: Option<Fault>) -> u32
    ensures { result ≡ (if is_some fault then copies else with_cycle (makes_geode e.now) ahead copies) }
{
    match fault {
        Some(_) => copies,
        None => with_cycle(stock::makes_geode(e), ahead, copies),
    }
}

/// The number after a merge.
pub(crate) fn after_merge(
    copies: u32,
    ahead: u8,
    edits: &[Edit],
    fault: Option<(u32, Fault)>,
) -> u32
    ensures { result ≡ (if is_some fault then copies else with_cycle (list_any makes_geode edits.now) ahead copies) }
{
    match fault {
        Some(_) => copies,
        None => with_cycle(stock::make_geode(edits), ahead, copies),
    }
}
