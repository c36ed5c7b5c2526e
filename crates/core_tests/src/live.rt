//! A pipe that is told its commands one by one.
ghost use Rattle.std.specs.Prelude.{◌≡◌, ◌≤◌, true, false, length, Some, IfOk};
ghost use Rattle.std.specs.List.{list_all};
ghost use Rattle.std.specs.Thread.{IsSync};
ghost use Rattle.play_format.specs.Plays.{base_fits, open_after};

use frame_stages::StageError;
use pf_io::{MemSink, NoMemory, Sink};
use pf_model::{AppLine, BaseLine};
use pipe_core::{Event, LiveError, Pipe, PipeCommand};
use play_format::{Play, parse};
use std::alloc::Global;
use std::test::Fail;
use std::thread::Threads;

const ROUND: [Event; 4] = [Event::App, Event::Cull, Event::Draw, Event::Dbase];

const NO_LINES: &str = "perfly 1\nsize 2 2\nlens 1 1 1073741823\nback 10 20 30\napp\n";

const A_FRAME_OF_A_GROUP: &str =
    "perfly 1\nsize 2 2\nlens 1 1 1073741823\nback 10 20 30\napp\ngroup 1\nadd 0 1\nframe\n";

const A_GEODE_IN_A_BLOCK: &str = "perfly 1\nsize 2 2\nlens 1 1 1073741823\nback 10 20 30\napp\n\
    dbase\nawait 1\nbuffer\ngeode 10 0 1\n\
    t -40960 4096 -40960 255 0 0 40960 4096 -40960 255 0 0 0 4096 81920 255 0 0\n\
    badd 1 10\nmerge\n";

const A_FRAME: &str = "perfly 1\nsize 2 2\nlens 1 1 1073741823\nback 10 20 30\napp\nframe\n";

const BACKGROUND: &[u8] = b"P6\n2 2\n255\n\x0a\x14\x1e\x0a\x14\x1e\x0a\x14\x1e\x0a\x14\x1e";

const BACKGROUND_AND_RED: &[u8] = b"P6\n2 2\n255\n\x0a\x14\x1e\x0a\x14\x1e\x0a\x14\x1e\x0a\x14\x1e\
    P6\n2 2\n255\n\xff\0\0\xff\0\0\xff\0\0\xff\0\0";

/// At most so many entries are told at once.
const MOST_FORGOTTEN: u32 = 2_000;

/// How many entries, and how many frames' numbers, left the memory of a pipe.
#[derive(Clone, Copy)]
struct Forgotten {
    entries: u32,
    numbers: u32,
}

/// A pipe whose parts nothing is said of, so that what is proved of a test over it is short.
trait Live {
    fn tell<R: Threads + Sync, O: Sink>(
        &mut self,
        rt: &R,
        line: AppLine,
        frames: &mut O,
    ) -> Result<(), StageError>
        requires { IsSync R.row };

    fn tell_block<R: Threads + Sync, O: Sink>(
        &mut self,
        rt: &R,
        block: Vec<BaseLine>,
        frames: &mut O,
    ) -> Result<(), StageError>
        requires sync { IsSync R.row }
        requires short { length block.items ≤ 262144 }
        requires fit { list_all (λ l. base_fits l.step) block.items ≡ true }
        requires order { open_after false block.items ≡ Some false };

    fn tell_all<R: Threads + Sync, O: Sink>(
        &mut self,
        rt: &R,
        commands: Vec<PipeCommand>,
        frames: &mut O,
    ) -> Result<(), LiveError>
        requires { IsSync R.row };

    fn go_round<R: Threads + Sync, O: Sink>(
        &mut self,
        rt: &R,
        frames: &mut O,
    ) -> Result<(), StageError>
        requires { IsSync R.row };

    fn forget(&mut self) -> Forgotten;
}

impl Live for Pipe {
    fn tell<R: Threads + Sync, O: Sink>(
        &mut self,
        rt: &R,
        line: AppLine,
        frames: &mut O,
    ) -> Result<(), StageError> {
        if self.takes_line() {
            self.make(rt, line, frames)
        } else {
            Err(StageError::NoMemory)
        }
    }

    fn tell_block<R: Threads + Sync, O: Sink>(
        &mut self,
        rt: &R,
        block: Vec<BaseLine>,
        frames: &mut O,
    ) -> Result<(), StageError> {
        if self.takes_block(block.len()) {
            self.make_block(rt, block, frames)
        } else {
            Err(StageError::NoMemory)
        }
    }

    fn tell_all<R: Threads + Sync, O: Sink>(
        &mut self,
        rt: &R,
        commands: Vec<PipeCommand>,
        frames: &mut O,
    ) -> Result<(), LiveError> {
        self.play_live(rt, commands, frames)
    }

    fn go_round<R: Threads + Sync, O: Sink>(
        &mut self,
        rt: &R,
        frames: &mut O,
    ) -> Result<(), StageError> {
        self.run_events(rt, &ROUND, frames)
    }

    fn forget(&mut self) -> Forgotten {
        let mut all = Forgotten {
            entries: 0,
            numbers: 0,
        };
        for _ in 0..MOST_FORGOTTEN {
            if self.take_entry().is_some() {
                all.entries = all.entries.saturating_add(1);
            }
            if self.take_stats().is_some() {
                all.numbers = all.numbers.saturating_add(1);
            }
        }
        all
    }
}

/// Tells a pipe the application's lines of a text.
fn tell_lines<R: Threads + Sync, L: Live, O: Sink>(
    alloc: Global,
    rt: &R,
    pipe: &mut L,
    text: &str,
    frames: &mut O,
) -> Result<(), Fail> {
    let (lines, _) = parse(alloc, text.as_bytes())?.into_lists();
    for line in lines {
        pipe.tell(rt, line, frames)?;
    }
    Ok(())
}

/// The lines of the database process in a play.
fn block_of(play: Play) -> Vec<BaseLine>
    ensures short { length result.items ≤ 262144 }
    ensures fit { list_all (λ l. base_fits l.step) result.items ≡ true }
    ensures order { open_after false result.items ≡ Some false }
{
    let (_, block) = play.into_lists();
    block
}

/// What a pipe has written after a frame, after a block behind it, and after one more frame.
#[derive(Drop)]
struct Written {
    frame: Vec<u8>,
    block: Vec<u8>,
    last: Vec<u8>,
}

/// Tells a pipe a frame, a block, and one more frame.
fn written_by<R: Threads + Sync, L: Live + Drop>(
    alloc: Global,
    rt: &R,
    made: Result<L, NoMemory>,
) -> Result<Written, Fail> {
    let mut pipe = made?;
    let mut frames = MemSink::new(alloc, 100, Vec::new(alloc))?;
    tell_lines(alloc, rt, &mut pipe, A_FRAME_OF_A_GROUP, &mut frames)?;
    let frame = Vec::from_slice(alloc, frames.bytes())?;
    let block = block_of(parse(alloc, A_GEODE_IN_A_BLOCK.as_bytes())?);
    pipe.tell_block(rt, block, &mut frames)?;
    let block = Vec::from_slice(alloc, frames.bytes())?;
    tell_lines(alloc, rt, &mut pipe, A_FRAME, &mut frames)?;
    Ok(Written {
        frame,
        block,
        last: Vec::from_slice(alloc, frames.bytes())?,
    })
}

// The same pictures as the play has whose lines are read at once, each as soon as its frame was told.
#[test]
fn a_block_between_two_frames(rt: HostRuntime) -> Result<(), Fail> {
    for ahead in 1..5u8 {
        let play = parse(rt.alloc(), NO_LINES.as_bytes())?;
        let written = written_by(rt.alloc(), &rt, Pipe::new(rt.alloc(), play, ahead))?;
        assert_eq!(rt; written.frame.as_slice(), BACKGROUND, "ahead {ahead}");
        assert_eq!(rt; written.block.as_slice(), BACKGROUND, "ahead {ahead}");
        assert_eq!(rt;
            written.last.as_slice(),
            BACKGROUND_AND_RED,
            "ahead {ahead}"
        );
    }
    Ok(())
}

/// Every tenth of so many commands is a frame, those before it give a geode's triangle another colour.
const COMMANDS: u32 = 2_000;

/// The red, green and blue that the command of this number gives.
fn colour_of(number: u32) -> (u8, u8, u8) {
    (
        (number % 256) as u8,
        (number / 10 % 256) as u8,
        (number / 7 % 256) as u8,
    )
}

/// Appends the command of this number to a text.
fn push_command(alloc: Global, text: &mut String, number: u32) -> Result<(), Fail> {
    if number % 10 == 9 {
        text.push_str("frame\n")?;
        return Ok(());
    }
    let (red, green, blue) = colour_of(number);
    let corner = format!(in alloc; "{red} {green} {blue}")?;
    let line = format!(in alloc;
        "verts 1 1\nt -40960 4096 -40960 {corner} 40960 4096 -40960 {corner} 0 4096 81920 {corner}\n"
    )?;
    text.push_str(line.as_str())?;
    Ok(())
}

/// The lines that make a geode of one triangle, which covers all pixels.
const A_GEODE: &str =
    "geode 1 0 1\nt -40960 4096 -40960 0 0 0 40960 4096 -40960 0 0 0 0 4096 81920 0 0 0\nadd 0 1\n";

/// A play of so many commands behind those that make a geode.
fn long_play(alloc: Global) -> Result<Play, Fail> {
    let mut text = String::new(alloc);
    text.push_str(NO_LINES)?;
    text.push_str(A_GEODE)?;
    for number in 0..COMMANDS {
        push_command(alloc, &mut text, number)?;
    }
    Ok(parse(alloc, text.as_bytes())?)
}

/// The lines of the application in a play, as commands.
fn commands_of(alloc: Global, play: Play) -> Result<Vec<PipeCommand>, Fail> {
    let (lines, _) = play.into_lists();
    let mut commands = Vec::new(alloc);
    for line in lines {
        commands.push(PipeCommand::Line(line))?;
    }
    Ok(commands)
}

/// The pictures of a play whose lines a pipe was given at once, after so many rounds of events.
fn played<R: Threads + Sync, L: Live + Drop>(
    alloc: Global,
    rt: &R,
    made: Result<L, NoMemory>,
    rounds: u32,
) -> Result<Vec<u8>, Fail> {
    let mut pipe = made?;
    let mut frames = MemSink::new(alloc, 10_000, Vec::new(alloc))?;
    for _ in 0..rounds {
        pipe.go_round(rt, &mut frames)?;
    }
    Ok(Vec::from_slice(alloc, frames.bytes())?)
}

/// The pictures of commands that a pipe was told one by one.
fn told<R: Threads + Sync, L: Live + Drop>(
    alloc: Global,
    rt: &R,
    made: Result<L, NoMemory>,
    commands: Vec<PipeCommand>,
) -> Result<Vec<u8>, Fail> {
    let mut pipe = made?;
    let mut frames = MemSink::new(alloc, 10_000, Vec::new(alloc))?;
    pipe.tell_all(rt, commands, &mut frames)?;
    Ok(Vec::from_slice(alloc, frames.bytes())?)
}

// The same pictures, 200 of 23 bytes, as the play has whose lines are read at once.
#[test]
fn two_thousand_commands(rt: HostRuntime) -> Result<(), Fail> {
    let made = Pipe::new(rt.alloc(), long_play(rt.alloc())?, 1);
    let all = played(rt.alloc(), &rt, made, 20 * COMMANDS)?;
    assert_eq!(rt; all.len(), 200 * 23);
    for ahead in 1..5u8 {
        let commands = commands_of(rt.alloc(), long_play(rt.alloc())?)?;
        let play = parse(rt.alloc(), NO_LINES.as_bytes())?;
        let live = told(
            rt.alloc(),
            &rt,
            Pipe::new(rt.alloc(), play, ahead),
            commands,
        )?;
        assert_eq!(rt; live.as_slice(), all.as_slice(), "ahead {ahead}");
    }
    Ok(())
}

/// So many commands are told in one list; a play has room for no more than 65,536 triangles.
const LIST: u32 = 1_000;

/// So many lists are told.
const LISTS: u32 = 100;

/// The commands of a list, from this number on.
fn list_from(alloc: Global, first: u32) -> Result<Vec<PipeCommand>, Fail> {
    let mut text = String::new(alloc);
    text.push_str(NO_LINES)?;
    for number in 0..LIST {
        push_command(alloc, &mut text, first.saturating_add(number))?;
    }
    commands_of(alloc, parse(alloc, text.as_bytes())?)
}

/// The pictures of a list's frames: each shows the colour that the command before its frame gave.
fn pictures_from(alloc: Global, first: u32) -> Result<Vec<u8>, Fail> {
    let mut pictures = Vec::new(alloc);
    for frame in 0..LIST / 10 {
        let (red, green, blue) = colour_of(first.saturating_add(10 * frame + 8));
        pictures.extend_from_slice(b"P6\n2 2\n255\n")?;
        for _ in 0..4u8 {
            pictures.push(red)?;
            pictures.push(green)?;
            pictures.push(blue)?;
        }
    }
    Ok(pictures)
}

/// The pictures of a list of commands that a pipe was told.
fn pictures_of<R: Threads + Sync, L: Live>(
    alloc: Global,
    rt: &R,
    pipe: &mut L,
    commands: Vec<PipeCommand>,
) -> Result<Vec<u8>, Fail> {
    let mut frames = MemSink::new(alloc, 10_000, Vec::new(alloc))?;
    pipe.tell_all(rt, commands, &mut frames)?;
    Ok(Vec::from_slice(alloc, frames.bytes())?)
}

/// Whether a pipe held the entries of one list, with at most two Syncs a frame, and the numbers of its frames.
fn holds_one_list(forgotten: &Forgotten) -> bool {
    let syncs = LIST / 5;
    forgotten.numbers == LIST / 10 && forgotten.entries >= LIST && forgotten.entries <= LIST + syncs
}

/// Tells a pipe a geode, and all lists behind it. Returns the number of lists whose pictures were as they are due, and
/// whose entries and numbers were all that the pipe held behind them.
fn right_lists<R: Threads + Sync, L: Live + Drop>(
    alloc: Global,
    rt: &R,
    made: Result<L, NoMemory>,
) -> Result<u32, Fail> {
    let mut pipe = made?;
    let mut geode = String::new(alloc);
    geode.push_str(NO_LINES)?;
    geode.push_str(A_GEODE)?;
    let commands = commands_of(alloc, parse(alloc, geode.as_bytes())?)?;
    if !pictures_of(alloc, rt, &mut pipe, commands)?.is_empty() {
        return Ok(0);
    }
    let _ = pipe.forget();
    let mut right = 0u32;
    for list in 0..LISTS {
        let first = list * LIST;
        let shown = pictures_of(alloc, rt, &mut pipe, list_from(alloc, first)?)?;
        let due = pictures_from(alloc, first)?;
        let forgotten = pipe.forget();
        if shown.as_slice() == due.as_slice() && holds_one_list(&forgotten) {
            right = right.saturating_add(1);
        }
    }
    Ok(right)
}

// A pipe is told 100,000 commands, shows 10,000 frames, and never holds the entries of more than one list.
#[test]
fn a_hundred_thousand_commands(rt: HostRuntime) -> Result<(), Fail> {
    let play = parse(rt.alloc(), NO_LINES.as_bytes())?;
    let right = right_lists(rt.alloc(), &rt, Pipe::new(rt.alloc(), play, 1))?;
    assert_eq!(rt; right, LISTS);
    Ok(())
}
