//! The words after the program's name.
use fx_math::Vec3;
use nearest_hit::Segment;
use program_words::{Mode, Words, WordsError, read_words};
use std::alloc::Global;
use std::test::Fail;

/// What the words of a line mean that stand between single spaces; an empty line has no words.
fn meaning(alloc: Global, line: &str) -> Result<Result<Words, WordsError>, Fail> {
    let mut words = Vec::new(alloc);
    for word in line.split(' ') {
        if !word.is_empty() {
            words.push(String::from_str(alloc, word)?)?;
        }
    }
    Ok(read_words(alloc, &words))
}

fn right(mode: Mode, dbase: bool, ahead: u8, make: Option<u16>) -> Words {
    Words {
        mode,
        dbase,
        ahead,
        make,
        probe: None,
        stream: None,
    }
}

#[test]
fn right_words(rt: HostRuntime) -> Result<(), Fail> {
    let alloc = rt.alloc();
    let from = Vec3::new(-1, 2, -3).ok_or("no point")?;
    let to = Vec3::new(40, -50, 60).ok_or("no point")?;
    let rows = [
        ("", right(Mode::Appculldraw, false, 1, None)),
        (
            "--mode=app_culldraw --ahead=2",
            right(Mode::AppCulldraw, false, 2, None),
        ),
        (
            "--ahead 4 --dbase --mode appcull_draw",
            right(Mode::AppcullDraw, true, 4, None),
        ),
        (
            "--mode app_cull_draw --dbase --ahead 3 --make=256",
            right(Mode::AppCullDraw, true, 3, Some(256)),
        ),
        (
            "--probe=-1,2,-3,40,-50,60 --stream 4096",
            Words {
                probe: Some(Segment { from, to }),
                stream: Some(4096),
                ..right(Mode::Appculldraw, false, 1, None)
            },
        ),
    ];
    for (line, words) in rows.iter() {
        assert_eq!(rt; meaning(alloc, line)?, Ok(*words));
    }
    Ok(())
}
