//! How much work it is to draw pieces, and how it is divided among threads. The picture is the same whatever these answer.
//!
//! A unit of work is a pixel of a piece's box. One processor does some three million of them in a millisecond, in pictures of towns,
//! where most are never looked at.

ghost use Rattle.std.specs.Prelude.{◌≡◌, ◌+◌, ◌-◌, ◌/◌, ◌<◌, ◌≤◌, max, IfSome, Some};
ghost use Rattle.std.specs.Option.{ForSome};

use crate::pieces::Piece;
use crate::slots::Slot;
use fx_math::Lens;
use std::thread::{Threads, available_parallelism};

/// The work, in pixels of boxes, from which on pieces are drawn by several processors: about a millisecond.
const MUCH_WORK: u64 = 2_621_440;

/// The processors by which pieces are drawn at most.
const MOST_PROCESSORS: usize = 4;

/// The work of a piece besides that of its pixels.
const PIECE_WORK: u64 = 128;

/// The work, in pixels of boxes, of a pixel that is put into the image.
const SHOWN_WORK: u64 = 6;

/// The number of pieces from which on it is worth some threads to prepare them: about a millisecond.
const MANY_PIECES: usize = 4096;

/// The pieces that a thread prepares before it looks again whether another one has nothing to do.
pub(crate) const FEW_PIECES: usize = 256;

/// The number of pieces that are left from which on they are shared with one that has nothing to do: about a quarter of a
/// millisecond.
const SOME_PIECES: usize = 1024;

/// The pixels of a picture from which on its tiles are put into the image by several processors: one thread takes almost half a
/// millisecond for so many.
const MANY_PIXELS: u32 = 196_608;

/// How many processors goes are divided among: the caller's and so many others, at most `MOST_PROCESSORS` in all. They are counted once,
/// for the first go that is worth it, since the system's files are read for that, which takes as long as to draw some triangles.
#[derive(Clone, Copy)]
pub(crate) struct Processors {
    others: Option<u8>,
    ghost few: { ForSome others (λ n. n < 4) },
}

impl Processors {
    /// Not counted yet.
    pub(crate) fn uncounted() -> Processors {
        Processors { others: None }
    }

    /// How many there are besides the caller's; the most where it cannot be told.
    fn others<R: Threads>(&mut self, rt: &R) -> u8
        ensures few { result < 4 }
        ensures again { IfSome self.old.others (λ n. result ≡ n) }
        ensures counted { self.new.others ≡ Some result }
    {
        if let Some(others) = self.others {
            return others;
        }
        let others = counted_others(rt);
        self.others = Some(others);
        others
    }

    /// How many there are.
    fn count<R: Threads>(&mut self, rt: &R) -> usize
        ensures few { result ≤ 4 }
        ensures counted { IfSome self.new.others (λ n. result ≡ n + 1) }
    {
        usize::from(self.others(rt)) + 1
    }
}

/// How many processors there are besides the caller's, at most one less than `MOST_PROCESSORS`; so many too where it cannot be told.
fn counted_others<R: Threads>(rt: &R) -> u8
    ensures { result < 4 }
{
    match available_parallelism(rt) {
        Ok(count) => (count.get().min(MOST_PROCESSORS) - 1) as u8,
        Err(_) => (MOST_PROCESSORS - 1) as u8,
    }
}

/// Whether to prepare so many pieces is worth some threads.
fn are_many(count: usize) -> bool {
    MANY_PIECES <= count
}

/// How many other processors prepare pieces too, where there are so many pieces.
pub(crate) fn others_to_prepare<R: Threads>(rt: &R, processors: &mut Processors, count: usize) -> u8
    ensures { result < 4 }
{
    if are_many(count) {
        processors.others(rt)
    } else {
        0
    }
}

/// By how many processors so many pieces are made ready.
pub(crate) fn processors_to_make_ready<R: Threads>(
    rt: &R,
    processors: &mut Processors,
    count: usize,
) -> usize
    ensures { result ≤ 4 }
{
    if are_many(count) {
        processors.count(rt)
    } else {
        1
    }
}

/// Whether so many pieces are worth sharing with a processor that has nothing to do.
pub(crate) fn is_more_to_prepare(count: usize) -> bool {
    SOME_PIECES <= count
}

/// How many of so many pieces are prepared next: the share of one processor of so many others and this one, or a few where there
/// are no others. At least a few come next, and, unless it is just a few, at least a few are left.
pub(crate) fn next_pieces(count: usize, others: u64) -> usize
    requires { 256 < count }
    ensures some { 256 ≤ result }
    ensures rest { result < count }
    ensures share { result ≤ max 256 (count - 256) }
{
    if others == 0 {
        return FEW_PIECES;
    }
    let share = count as u64 / others.saturating_add(1);
    (share as usize).min(count - FEW_PIECES).max(FEW_PIECES)
}

/// How many levels deep the preparation of so many pieces goes at most: one for each few of them.
pub(crate) fn levels_of(count: usize) -> usize
    ensures { result ≡ count / 256 }
{
    count / FEW_PIECES
}

/// By how many processors pieces are drawn: as many as there are, where it is much work, and else one.
pub(crate) fn processors_for<R: Threads>(rt: &R, processors: &mut Processors, work: u64) -> usize
    ensures { result ≤ 4 }
{
    if work < MUCH_WORK {
        1
    } else {
        processors.count(rt)
    }
}

/// How many threads besides the caller's claim strips that so many processors draw: one more than there are other processors, with
/// which large triangles took less time than with just as many; why is not known. None where one processor draws.
pub(crate) fn others_to_claim(processors: usize) -> u8
    ensures { result ≤ processors }
{
    if processors < 2 {
        0
    } else {
        processors.min(255) as u8
    }
}

/// About how much work the pieces of slots are, whatever lies before them; where it is much, no more than that is counted.
pub(crate) fn work_of_slots(slots: &[Slot]) -> u64 {
    let mut work: u64 = 0;
    for slot in slots {
        if MUCH_WORK <= work {
            return work;
        }
        work = work.saturating_add(work_of_box(slot.left, slot.right, slot.top, slot.bottom));
    }
    work
}

/// About how much work pieces of glass are.
pub(crate) fn work_of_pieces(pieces: &[Piece]) -> u64 {
    let mut work: u64 = 0;
    for piece in pieces {
        let extent = piece.extent;
        work = work.saturating_add(work_of_box(
            extent.left,
            extent.right,
            extent.top,
            extent.bottom,
        ));
    }
    work
}

/// About how much work a piece with this box is: its first column and the one past its last, and so its rows.
fn work_of_box(left: u16, right: u16, top: u16, bottom: u16) -> u64 {
    let columns = right.saturating_sub(left);
    let rows = bottom.saturating_sub(top);
    PIECE_WORK + u64::from(columns) * u64::from(rows)
}

/// About how much work it is to put the tiles of a picture so wide and high into the image, in pixels of boxes.
pub(crate) fn work_to_show(width: u16, height: u16) -> u64 {
    SHOWN_WORK * u64::from(width) * u64::from(height)
}

/// By how many processors the tiles of a lens's picture are put into the image: as many as there are, where it is large, and else
/// one.
pub(crate) fn processors_to_show<R: Threads>(
    rt: &R,
    processors: &mut Processors,
    lens: &Lens,
) -> usize
    ensures { result ≤ 4 }
{
    if u32::from(lens.w) * u32::from(lens.h) < MANY_PIXELS {
        1
    } else {
        processors.count(rt)
    }
}
