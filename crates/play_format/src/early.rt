//! Triangle lines that are read before their turn, in threads beside each other.
ghost use Rattle.std.specs.Prelude.{◌≡◌, ◌<◌, ◌≤◌, IsTrue, length, List, ℕ};
ghost use Rattle.std.specs.List.{All};
ghost use Rattle.play_format.specs.Early.{IsTriangleLine, AreLines, AreEarly, IsEarly, IsEnd};

use crate::commands::Command;
use crate::making::tri_of;
use crate::reader::MAX_LINE_LEN;
use crate::reading::read_numbers;
use crate::words::{cut, first_word};
use pf_io::NoMemory;
use pf_model::Tri;
use self_scheduling::for_each;
use std::alloc::Global;
use std::thread::{Threads, available_parallelism};

/// The fewest bytes that are worth a processor: they are read in some times the time that it takes to make a thread.
const LEN_EACH: usize = 65_536;

/// The processors that read a text at most.
const MOST_PROCESSORS: usize = 64;

/// The parts of a text for each processor.
const PARTS_EACH: usize = 8;

/// The most triangles of a geode, and so of a list of lines that is worth keeping.
const MOST_TRIANGLES: usize = 4_096;

/// Triangle lines, one after the other, that were read before their turn.
#[derive(Debug, Drop)]
pub struct Early {
    /// How many bytes of the text are left at the first line.
    pub at: usize,
    /// How many are left behind the line feed of the last one.
    pub behind: usize,
    /// The triangle of each line.
    pub tris: Vec<Tri>,
}

/// Whether a line is right where a triangle line is due. Its numbers are then what `numbers` holds.
fn is_triangle_line(numbers: &mut Vec<i32>, line: &[u8]) -> bool
    ensures { IsTrue result → IsTriangleLine line.now numbers.new.items }
{
    if line.len() > MAX_LINE_LEN {
        return false;
    }
    let (word, rest) = first_word(line);
    if word != b"t".as_slice() {
        return false;
    }
    match read_numbers(numbers, rest, Command::Triangle.limits(1)) {
        Ok(None) => true,
        _ => false,
    }
}

/// The text from the first line on that begins at a place or behind it.
fn lines_from(text: &[u8], place: usize) -> &[u8]
    requires { place ≤ length text.now }
    ensures { IsEnd text.now result.now }
{
    if place == 0 {
        return text;
    }
    match cut(&text[place - 1..], b'\n') {
        Some((_, rest)) => rest,
        None => &text[text.len()..],
    }
}

/// Reads triangle lines, at most as many as a geode may have, as long as one comes after the other and there is memory for them,
/// in place of what `tris` holds, and answers what is left behind them.
fn lines_in_a_row<'a>(numbers: &mut Vec<i32>, tris: &mut Vec<Tri>, rest: &'a [u8]) -> &'a [u8]
    ensures end { IsEnd rest.now result.now }
    ensures lines { AreLines rest.now result.now tris.new.items }
{
    tris.clear();
    let mut left = rest;
    while let Some((line, behind)) = cut(left, b'\n') {
        if tris.len() >= MOST_TRIANGLES {
            return left;
        }
        if !is_triangle_line(numbers, line) {
            return left;
        }
        match tris.push(tri_of(numbers)) {
            Ok(()) => left = behind,
            Err(_) => return left,
        }
    }
    left
}

/// Keeps triangle lines that stand at a place of a text.
fn keep(
    alloc: Global,
    all: &mut Vec<Early>,
    at: usize,
    behind: usize,
    tris: &[Tri],
) -> Result<(), NoMemory>
    ensures { (text : List ℕ) → AreEarly text at behind tris.now → All (IsEarly text) all.old.items
        → All (IsEarly text) all.new.items }
{
    let tris = Vec::from_slice(alloc, tris)?;
    all.push(Early { at, behind, tris })?;
    Ok(())
}

/// Passes the first line of a text, reads and keeps the triangle lines that follow it, and answers what is left: nothing where memory
/// runs out.
fn pass<'a>(
    alloc: Global,
    numbers: &mut Vec<i32>,
    tris: &mut Vec<Tri>,
    all: &mut Vec<Early>,
    rest: &'a [u8],
) -> &'a [u8]
    requires { 0 < length rest.now }
    ensures end { IsEnd rest.now result.now }
    ensures shorter { length result.now < length rest.now }
    ensures kept { (text : List ℕ) → IsEnd text rest.now → All (IsEarly text) all.old.items
        → All (IsEarly text) all.new.items }
{
    let Some((_, next)) = cut(rest, b'\n') else {
        return &rest[rest.len()..];
    };
    let behind = lines_in_a_row(numbers, tris, next);
    if behind.len() == next.len() {
        return behind;
    }
    match keep(alloc, all, next.len(), behind.len(), tris) {
        Ok(()) => behind,
        Err(NoMemory) => &rest[rest.len()..],
    }
}

/// What is left of a text behind the triangle lines with which it begins, or from the first line on that begins where no more than
/// so many bytes are left.
fn behind_row(text: &[u8], left: usize) -> &[u8]
    ensures { IsEnd text.now result.now }
{
    let mut rest = text;
    while let Some((line, behind)) = cut(rest, b'\n') {
        let (word, _) = first_word(line);
        if rest.len() <= left || word != b"t".as_slice() {
            return rest;
        }
        rest = behind;
    }
    rest
}

/// Reads the triangle lines that follow a line of a part of a text, also those that stand behind the part, up to some for which there
/// is no memory. The last ones come first. Triangle lines with which the part begins follow a line of a part before it, and are read
/// with that one.
fn lines_of_part(alloc: Global, text: &[u8], from: usize, to: usize) -> Vec<Early>
    requires { from ≤ length text.now }
    ensures { All (IsEarly text.now) result.items }
{
    let mut all = Vec::new(alloc);
    let mut numbers = Vec::new(alloc);
    let mut tris = Vec::new(alloc);
    let left = text.len().saturating_sub(to);
    let mut rest = behind_row(lines_from(text, from), left);
    while rest.len() > left {
        rest = pass(alloc, &mut numbers, &mut tris, &mut all, rest);
    }
    all.reverse();
    all
}

/// A part of a text, by the places from which and up to which its lines begin, and those of its triangle lines that were read, the
/// last ones first.
#[derive(Drop)]
struct Part {
    from: usize,
    to: usize,
    lines: Vec<Early>,
}

impl Part {
    /// Reads the triangle lines that follow a line of the part.
    fn read(&mut self, alloc: Global, text: &[u8])
        requires { self.old.from ≤ length text.now }
        ensures from { self.new.from ≡ self.old.from }
        ensures to { self.new.to ≡ self.old.to }
        ensures lines { All (IsEarly text.now) self.new.lines.items }
    {
        self.lines = lines_of_part(alloc, text, self.from, self.to);
    }
}

/// How many processors read the lines of a text. They are counted only where the text is long enough, since the system's files are
/// read for that.
fn processors_for<R: Threads>(rt: &R, len: usize) -> usize
    ensures { result ≤ 64 }
{
    let most = (len / LEN_EACH).min(MOST_PROCESSORS);
    if most < 2 {
        return 1;
    }
    match available_parallelism(rt) {
        Ok(count) => count.get().min(most),
        Err(_) => 1,
    }
}

/// So many parts of a text of a length, one behind the other, still to be read; fewer where there is no memory.
fn parts_of_text(alloc: Global, len: usize, count: usize) -> Vec<Part>
    requires { 0 < count }
    ensures { All (λ part. part.from ≤ len) result.items }
{
    let size = len.div_ceil(count);
    let mut parts = Vec::new(alloc);
    let mut from = 0;
    while from < len {
        let to = from.saturating_add(size).min(len);
        let part = Part {
            from,
            to,
            lines: Vec::new(alloc),
        };
        if parts.push(part).is_err() {
            return parts;
        }
        from = to;
    }
    parts
}

/// The lines of parts, those of the last part first; without those of a part for which there is no memory.
fn joined(alloc: Global, parts: Vec<Part>) -> Vec<Early>
    ensures { (text : List ℕ) → All (λ part. All (IsEarly text) part.lines.items) parts.items
        → All (IsEarly text) result.items }
{
    let mut parts = parts;
    let mut all = Vec::new(alloc);
    while let Some(mut part) = parts.pop() {
        let _ = all.append(&mut part.lines);
    }
    all
}

/// The triangle lines of a text, the last ones first, read by several processors, which claim parts of it one after the other. So
/// a thread that begins late keeps the others from no more than the part that it claims. There are none where the text is short, or
/// where there is one processor alone, and fewer where memory runs out.
pub fn early_lines<R: Threads + Sync>(rt: &R, alloc: Global, text: &[u8]) -> Vec<Early>
    ensures { All (IsEarly text.now) result.items }
{
    let processors = processors_for(rt, text.len());
    if processors < 2 {
        return Vec::new(alloc);
    }
    let parts = parts_of_text(alloc, text.len(), PARTS_EACH * processors);
    // One thread more than other processors, since one may begin late.
    let others = processors as u8;
    let read = for_each(
        rt,
        alloc,
        parts,
        others,
        &|_i: usize, part: &mut Part|
            requires { part.now.from ≤ length text.now }
            ensures { All (IsEarly text.entry.now) part.exit.now.lines.items }
        { part.read(alloc, text) },
    );
    joined(alloc, read)
}
