//! The lines of frames alone, and summaries.
use draw_list::Stats;
use pf_history::{Caller, Command, Entry, History, Merge, Reply};
use pf_io::NoMemory;
use pf_model::{EditList, Fault};
use play_report::{append_stats, append_summary};
use std::alloc::Global;
use std::test::Fail;

fn numbers(shown: u32, states: u32, visited: u32) -> Stats {
    Stats {
        shown,
        states,
        visited,
    }
}

#[test]
fn frame_lines_alone(rt: HostRuntime) -> Result<(), Fail> {
    let mut out = Vec::new(rt.alloc());
    append_stats(rt.alloc(), &mut out, &[numbers(0, 0, 1), numbers(2, 1, 5)])?;
    let text = b"frame 1 shown 0 states 0 visited 1\nframe 2 shown 2 states 1 visited 5\n";
    assert!(rt; out.as_slice() == text.as_slice(), "{out:?}");
    Ok(())
}

/// A history of frames and merges, of which the last is refused.
fn made(alloc: Global) -> Result<History, NoMemory> {
    let mut history = History::new(alloc);
    for number in 1..4u32 {
        history.reserve(2)?;
        let frame = Entry {
            caller: Caller::App,
            command: Command::Frame,
            reply: Reply::Began(number),
        };
        history.push_reserved(0, frame);
        if number < 3 {
            let edits = EditList::new(alloc);
            let merge = Entry {
                caller: Caller::Dbase,
                command: Command::Merge(Merge { edits, dropped: 3 }),
                reply: if number == 1 {
                    Reply::Done
                } else {
                    Reply::RefusedAt(1, Fault::Large)
                },
            };
            history.push_reserved(3, merge);
        }
    }
    Ok(history)
}

// A play made from 2 has three frames and two merges; the numbers may be above those of a word.
#[test]
fn summary_of_a_made_play(rt: HostRuntime) -> Result<(), Fail> {
    let history = made(rt.alloc())?;
    let stats = [
        numbers(1, 2, u32::MAX),
        numbers(4, 3, u32::MAX),
        numbers(0, 0, 1),
    ];
    let mut out = Vec::new(rt.alloc());
    append_summary(rt.alloc(), &mut out, 2, &history, &stats, u64::MAX)?;
    let text =
        b"made 2 frames 3 merges 2 shown 5 states 5 visited 8589934591 sum 18446744073709551615\n";
    assert!(rt; out.as_slice() == text.as_slice(), "{out:?}");
    Ok(())
}
