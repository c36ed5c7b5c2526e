//! A merge between two frames, in every mode.
ghost use Rattle.std.specs.Prelude.{◌≤◌};

use crate::played::{MODES, play_text};
use mode_hosts::{PlayEnd, Setup};
use pf_io::FreeGate;
use std::test::Fail;

/// The second frame has a triangle at y = 4096, through whose inside the y axis goes.
pub const MERGE_BETWEEN_TWO_FRAMES: &str =
    "perfly 1\nsize 2 2\nlens 1 1 1073741823\nback 10 20 30\napp\n\
    group 1\nadd 0 1\nframe\nwait 1\nframe\n\
    dbase\nawait 1\nbuffer\ngeode 10 0 1\n\
    t -40960 4096 -40960 255 0 0 40960 4096 -40960 255 0 0 0 4096 81920 255 0 0\n\
    badd 1 10\nmerge\n";

pub const BACKGROUND_AND_RED: &[u8] =
    b"P6\n2 2\n255\n\x0a\x14\x1e\x0a\x14\x1e\x0a\x14\x1e\x0a\x14\x1e\
    P6\n2 2\n255\n\xff\0\0\xff\0\0\xff\0\0\xff\0\0";

#[test]
fn merge_between_two_frames(rt: HostRuntime) -> Result<(), Fail> {
    for mode in MODES {
        for dbase in [false, true] {
            for ahead in [1, 2, 3, 4] {
                let setup = Setup {
                    mode,
                    dbase,
                    ahead,
                    probe: None,
                    stream: None,
                };
                let left = play_text(&rt, rt.alloc(), MERGE_BETWEEN_TWO_FRAMES, setup, FreeGate)?;
                assert_eq!(rt; left.end, PlayEnd::Done, "{mode:?} {dbase} {ahead}");
                assert_eq!(rt; left.entries, 8, "{mode:?} {dbase} {ahead}");
                assert_eq!(rt; left.frames, 2, "{mode:?} {dbase} {ahead}");
                assert_eq!(rt; left.probes.len(), 0, "{mode:?} {dbase} {ahead}");
                assert_eq!(rt;
                    left.stream.as_slice(),
                    BACKGROUND_AND_RED,
                    "{mode:?} {dbase} {ahead}"
                );
            }
        }
    }
    Ok(())
}
