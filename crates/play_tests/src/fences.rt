//! Plays with a free merge and without.
use play_fences::{first_free_merge, is_fenced};
use play_format::parse;
use std::alloc::Global;
use std::test::Fail;

// What the test answers to a text, and its first free merge; none where it is no play.
fn answer(alloc: Global, text: &str) -> Option<(bool, Option<usize>)> {
    match parse(alloc, text.as_bytes()) {
        Ok(play) => Some((is_fenced(&play), first_free_merge(&play))),
        Err(_) => None,
    }
}

// The merge awaits the first frame, and the second frame waits for the merge.
#[test]
fn merge_between_two_frames(rt: HostRuntime) -> Result<(), Fail> {
    let text =
        "perfly 1\nsize 2 2\nlens 1 1 1073741823\nback 10 20 30\napp\nframe\nwait 1\nframe\ndbase\nawait 1\nbuffer\nmerge\n";
    assert_eq!(rt; answer(rt.alloc(), text), Some((true, None)));
    Ok(())
}

// The second merge awaits nothing, and the frame waits for the first alone.
#[test]
fn merge_without_a_wait(rt: HostRuntime) -> Result<(), Fail> {
    let text =
        "perfly 1\nsize 2 2\nlens 1 1 1073741823\nback 10 20 30\napp\nwait 1\nframe\ndbase\nbuffer\nmerge\nbuffer\nmerge\n";
    assert_eq!(rt; answer(rt.alloc(), text), Some((false, Some(2))));
    Ok(())
}
