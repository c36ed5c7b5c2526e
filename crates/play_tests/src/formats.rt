//! Texts that are no plays.
use pf_model::{AppStep, Edit, Kind, Tri};
use play_format::{ParseError, Play, Refusal, Why, parse, parse_beside};
use std::alloc::{AllocError, Global};
use std::process::Abort;
use std::test::Fail;

const FIRST: &str = "perfly 1\nsize 2 2\nlens 1 1 9\nback 1 2 3\napp\n";

const SECOND: &str = "perfly 2\nsize 2 2\nlens 1 1 9\nback 1 2 3\nchannels 2\napp\n";

const GEODE: &str = "perfly 1\nsize 2 2\nlens 1 1 9\nback 1 2 3\napp\ngeode 1 0 1\n";

const DBASE: &str = "perfly 1\nsize 2 2\nlens 1 1 9\nback 1 2 3\napp\ndbase\n";

const BUFFER: &str = "perfly 1\nsize 2 2\nlens 1 1 9\nback 1 2 3\napp\ndbase\nbuffer\n";

static APP_LINES: [&str; 31] = [
    "group 1",
    "switch 1",
    "dcs 1",
    "lod 1",
    "seq 1",
    "layer 1",
    "scs 1 0 0 0 0 0 0 0 0 0 0 0 0",
    "geode 1 0 0",
    "verts 0 0",
    "add 0 1",
    "remove 0 1",
    "insert 0 0 1",
    "replace 0 1 2",
    "delete 1",
    "run 1",
    "stop 1",
    "sw 1 0",
    "sw 1 on",
    "sw 1 off",
    "mat 1 0 0 0 0 0 0 0 0 0 0 0 0",
    "trans 1 0 0 0",
    "centre 1 0 0 0",
    "rot 1 0 0 0",
    "scale 1 0",
    "range 1 0 0",
    "times 1 0 1",
    "view 0 0 0 0 0 0",
    "sync",
    "frame",
    "wait 0",
    "dbase",
];

static NEW_LINES: [&str; 2] = ["glass 1 0 0 0", "cview 1 0 0 0 0 0 0"];

static TRIANGLE_LINES: [&str; 1] = ["t 0 0 0 0 0 0 0 0 0 0 0 0 0 0 0 0 0 0"];

static BASE_LINES: [&str; 2] = ["await 0", "buffer"];

static BUFFER_LINES: [&str; 3] = ["merge", "badd 0 1", "bremove 0 1"];

fn refusal(alloc: Global, text: &[u8]) -> Option<Refusal> {
    match parse(alloc, text) {
        Err(ParseError::Refused(refusal)) => Some(refusal),
        _ => None,
    }
}

/// What is refused of a text in two parts.
fn refused(alloc: Global, opening: &str, rest: &str) -> Result<Option<Refusal>, AllocError> {
    let mut text = Vec::new(alloc);
    text.extend_from_slice(opening.as_bytes())?;
    text.extend_from_slice(rest.as_bytes())?;
    Ok(refusal(alloc, text.as_slice()))
}

/// The line with word `k` replaced.
fn replaced(alloc: Global, line: &str, k: usize, word: &str) -> Result<String, AllocError> {
    let mut text = String::new(alloc);
    for (i, old) in line.split(' ').enumerate() {
        if i > 0 {
            text.push_str(" ")?;
        }
        text.push_str(if i == k { word } else { old })?;
    }
    text.push_str("\n")?;
    Ok(text)
}

/// Each cause that a line can meet by itself, at the line of a number.
fn check(
    rt: &impl Abort,
    alloc: Global,
    opening: &str,
    number: u32,
    line: &str,
) -> Result<(), Fail> {
    let at = |why| Some(Refusal { line: number, why });
    let more = format!(in alloc; "{line} 0\n")?;
    assert_eq!(rt; refused(alloc, opening, line)?, at(Why::Length), "{line}");
    assert_eq!(rt;
        refused(alloc, opening, more.as_str())?,
        at(Why::Fields),
        "{line}"
    );
    for (k, _) in line.split(' ').enumerate() {
        let text = replaced(alloc, line, k, "007")?;
        let why = if k == 0 { Why::Command } else { Why::Number };
        assert_eq!(rt; refused(alloc, opening, text.as_str())?, at(why), "{text}");
        let text = replaced(alloc, line, k, "9999999999")?;
        let why = if k == 0 { Why::Command } else { Why::Range };
        assert_eq!(rt; refused(alloc, opening, text.as_str())?, at(why), "{text}");
    }
    Ok(())
}

/// The lines of a header, each with its number and with what stands before it.
static HEADER_LINES: [(&str, u32, &str); 5] = [
    ("perfly 1\n", 2, "size 2 2"),
    ("perfly 1\nsize 2 2\n", 3, "lens 1 1 9"),
    ("perfly 1\nsize 2 2\nlens 1 1 9\n", 4, "back 1 2 3"),
    ("perfly 1\nsize 2 2\nlens 1 1 9\nback 1 2 3\n", 5, "app"),
    (
        "perfly 2\nsize 2 2\nlens 1 1 9\nback 1 2 3\n",
        5,
        "channels 2",
    ),
];

/// Each cause that each of these lines can meet by itself, at the line of a number.
fn check_all(
    rt: &impl Abort,
    alloc: Global,
    opening: &str,
    number: u32,
    lines: &[&str],
) -> Result<(), Fail> {
    for line in lines {
        check(rt, alloc, opening, number, line)?;
    }
    Ok(())
}

#[test]
fn each_cause_at_each_kind_of_line(rt: HostRuntime) -> Result<(), Fail> {
    let alloc = rt.alloc();
    for (opening, number, line) in &HEADER_LINES {
        check(&rt, alloc, opening, *number, line)?;
    }
    check_all(&rt, alloc, FIRST, 6, &APP_LINES)?;
    check_all(&rt, alloc, SECOND, 7, &NEW_LINES)?;
    check_all(&rt, alloc, GEODE, 7, &TRIANGLE_LINES)?;
    check_all(&rt, alloc, DBASE, 7, &BASE_LINES)?;
    check_all(&rt, alloc, BUFFER, 8, &BUFFER_LINES)
}

/// Texts in two parts, with the refusal that each meets.
static OTHERS: [(&str, &str, u32, Why); 27] = [
    ("", "", 1, Why::Count),
    ("", "perfly 1", 1, Why::Length),
    ("", "perfly 3 x\n", 1, Why::Version),
    ("perfly 1\nsize 2 2\n", "lens 1 5 4\n", 3, Why::Range),
    ("perfly 1\nsize 2 2\n", "", 3, Why::Count),
    (
        "perfly 1\nsize 2 2\nlens 1 1 9\nback 1 2 3\n",
        "channels 2\n",
        5,
        Why::Command,
    ),
    (FIRST, "glass 1 0 0 0\n", 6, Why::Command),
    (FIRST, "cview 1 0 0 0 0 0 0\n", 6, Why::Command),
    (SECOND, "glass 1 0 256 0\n", 7, Why::Range),
    (SECOND, "cview 0 0 0 0 0 0 0\n", 7, Why::Range),
    (SECOND, "cview 2 0 0 0 0 0 0\n", 7, Why::Range),
    (FIRST, "group 007\n", 6, Why::Number),
    (FIRST, "group -0\n", 6, Why::Number),
    (FIRST, "group 1\r\n", 6, Why::Number),
    (FIRST, "group 0\n", 6, Why::Range),
    (FIRST, "add 0  1\n", 6, Why::Fields),
    (FIRST, "insert 0 256 x\n", 6, Why::Range),
    (FIRST, "insert x 256 0\n", 6, Why::Number),
    (FIRST, "\n", 6, Why::Command),
    (FIRST, "merge\n", 6, Why::Command),
    (FIRST, "geode 1 0 1\nframe\n", 7, Why::Command),
    (FIRST, "geode 1 0 1\nt -40960 4096", 7, Why::Length),
    (FIRST, "geode 1 0 4096\n", 7, Why::Count),
    (FIRST, "dbase\nbuffer\n", 8, Why::Count),
    (FIRST, "dbase\ndbase\n", 7, Why::Command),
    (FIRST, "dbase\nframe\n", 7, Why::Command),
    (FIRST, "frame\nfra", 7, Why::Length),
];

#[test]
fn other_refusals(rt: HostRuntime) -> Result<(), Fail> {
    for (opening, rest, line, why) in &OTHERS {
        assert_eq!(rt;
            refused(rt.alloc(), opening, rest)?,
            Some(Refusal {
                line: *line,
                why: *why
            }),
            "{rest}"
        );
    }
    Ok(())
}

/// A play of 180 KB with 4,000 triangles, each of which has its number for its first coordinate. The last word of the last
/// triangle is `colour`.
fn long_text(alloc: Global, colour: &str) -> Result<String, AllocError> {
    let mut text = String::new(alloc);
    text.push_str(FIRST)?;
    text.push_str("geode 1 0 4000\n")?;
    for k in 0..4_000 {
        let last = if k == 3_999 { colour } else { "90" };
        let line = format!(in alloc;
            "t {k} 1000 -1000 10 20 30 2000 3000 4000 40 50 60 5 6 7 70 80 {last}\n"
        )?;
        text.push_str(line.as_str())?;
    }
    Ok(text)
}

/// The triangles that a play makes first.
fn first_triangles(play: &Play) -> &[Tri] {
    match play.app().first() {
        Some(line) => match &line.step {
            AppStep::Edit(
                Edit::Make {
                    kind: Kind::Geode { geom, .. },
                    ..
                },
            ) => geom.as_slice(),
            _ => &[],
        },
        None => &[],
    }
}

#[test]
fn triangles_read_beside_each_other(rt: HostRuntime) -> Result<(), Fail> {
    let alloc = rt.alloc();
    let text = long_text(alloc, "90")?;
    let play = parse_beside(&rt, alloc, text.as_bytes())?;
    let triangles = first_triangles(&play);
    assert_eq!(rt; triangles.len(), 4_000);
    for (k, triangle) in triangles.iter().enumerate() {
        assert_eq!(rt; usize::try_from(triangle.v[0].x).ok(), Some(k));
    }
    let text = long_text(alloc, "256")?;
    let refused = match parse_beside(&rt, alloc, text.as_bytes()) {
        Err(ParseError::Refused(refusal)) => Some(refusal),
        _ => None,
    };
    let last = Refusal {
        line: 4_006,
        why: Why::Range,
    };
    assert_eq!(rt; refused, Some(last));
    Ok(())
}
