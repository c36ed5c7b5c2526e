//! Draw lists in pieces, in every mode.
ghost use Rattle.std.specs.Prelude.{◌≤◌};

use crate::merges::{BACKGROUND_AND_RED, MERGE_BETWEEN_TWO_FRAMES};
use crate::played::{MODES, play_text};
use mode_hosts::{PlayEnd, Setup};
use pf_io::FreeGate;
use std::test::Fail;

#[test]
fn pieces_make_the_same_pictures(rt: HostRuntime) -> Result<(), Fail> {
    for mode in MODES {
        for dbase in [false, true] {
            for limit in [1, 4096] {
                let setup = Setup {
                    mode,
                    dbase,
                    ahead: 2,
                    probe: None,
                    stream: Some(limit),
                };
                let left = play_text(&rt, rt.alloc(), MERGE_BETWEEN_TWO_FRAMES, setup, FreeGate)?;
                assert_eq!(rt; left.end, PlayEnd::Done, "{mode:?} {dbase} {limit}");
                assert_eq!(rt; left.frames, 2, "{mode:?} {dbase} {limit}");
                assert_eq!(rt;
                    left.stream.as_slice(),
                    BACKGROUND_AND_RED,
                    "{mode:?} {dbase} {limit}"
                );
            }
        }
    }
    Ok(())
}
