//! The nearest hit of a segment in each frame, in every mode.
ghost use Rattle.std.specs.Prelude.{◌≤◌};

use crate::merges::MERGE_BETWEEN_TWO_FRAMES;
use crate::played::{MODES, play_text};
use fx_math::Vec3;
use mode_hosts::{PlayEnd, Setup};
use nearest_hit::{Near, Segment};
use pf_io::FreeGate;
use std::test::Fail;

/// From the eye along the y axis, twice as far as the triangle.
fn ahead_of_the_eye() -> Segment {
    Segment {
        from: Vec3 { x: 0, y: 0, z: 0 },
        to: Vec3 {
            x: 0,
            y: 8192,
            z: 0,
        },
    }
}

#[test]
fn the_probe_finds_what_was_merged(rt: HostRuntime) -> Result<(), Fail> {
    let hit = Near {
        t: 32768,
        place: 0,
        tri: 0,
        id: 10,
    };
    let probes = [None, Some(hit)];
    for mode in MODES {
        for dbase in [false, true] {
            for ahead in [1, 2, 3, 4] {
                let setup = Setup {
                    mode,
                    dbase,
                    ahead,
                    probe: Some(ahead_of_the_eye()),
                    stream: None,
                };
                let left = play_text(&rt, rt.alloc(), MERGE_BETWEEN_TWO_FRAMES, setup, FreeGate)?;
                assert_eq!(rt; left.end, PlayEnd::Done, "{mode:?} {dbase} {ahead}");
                assert_eq!(rt; left.frames, 2, "{mode:?} {dbase} {ahead}");
                assert_eq!(rt;
                    left.probes.as_slice(),
                    probes.as_slice(),
                    "{mode:?} {dbase} {ahead}"
                );
            }
        }
    }
    Ok(())
}
