//! Pieces in memory that is kept.
ghost use Rattle.std.specs.Prelude.{◌≡◌, ℕ, ◌+◌, ◌≤◌, ◌<◌, [], All, length, take, IfOk};
ghost use Rattle.std.specs.Vec.{vec_capacity};
ghost use Rattle.depth_raster.specs.Batches.{IsWithFace};
ghost use Rattle.depth_raster.specs.Pieces.{AreMadeReady, AreThere, AreAppended};
ghost use Rattle.depth_raster.specs.Slots.{AreNumbered, AreSlotted};

use crate::faces::Face;
use crate::idle::Idle;
use crate::pieces::{Piece, make_ready, prepare};
use crate::slots::{Slot, wait};
use crate::waiting::Waiting;
use crate::work::levels_of;
use draw_list::DrawList;
use fx_math::Lens;
use pf_io::NoMemory;
use std::alloc::Global;
use std::marker::Model;
use std::thread::Threads;

/// The most pieces that are drawn together.
pub(crate) const ROOM: usize = 16_384;

/// Pieces, as which it is seen, with room for as many as are drawn together. They are written over those of earlier drawings, so
/// that parts of the memory can be written side by side.
#[derive(Drop)]
pub(crate) struct PieceBuffer {
    written: Vec<Piece>,
    count: usize,
}

impl Model for PieceBuffer {
    ghost use Rattle.std.specs.Prelude.{List, ◌≤◌, length, take};
    ghost use Rattle.std.specs.Vec.{vec_capacity};
    ghost use Rattle.depth_raster.specs.declared.pieces.Piece.{Piece};

    ghost Value = { List Piece };

    ghost view = { λ b. take b.count b.written.items };

    ghost invariant = { λ b. (b.count ≤ length b.written.items) × (16384 ≤ vec_capacity b.written) };
}

impl PieceBuffer {
    /// No pieces.
    pub(crate) fn new(alloc: Global) -> Result<PieceBuffer, NoMemory>
        ensures { IfOk result (λ b. b ≡ []) }
    {
        let mut written = Vec::new(alloc);
        written.reserve(ROOM)?;
        Ok(PieceBuffer { written, count: 0 })
    }

    /// The number of pieces.
    pub(crate) fn len(&self) -> usize
        ensures { result ≡ length self.now }
    {
        self.count
    }

    /// The pieces.
    pub(crate) fn as_slice(&self) -> &[Piece]
        ensures { result.now ≡ self.now }
    {
        &self.written[..self.count]
    }

    /// Leaves no pieces.
    pub(crate) fn clear(&mut self)
        ensures { self.new ≡ [] }
    {
        self.count = 0;
    }

    /// Takes a face, whose triangle has come to the eye, as the last piece, which is still to be made ready.
    pub(crate) fn push(&mut self, face: Face)
        requires { length self.old < 16384 }
        ensures { IsWithFace face self.old self.new }
    {
        write_at(&mut self.written, self.count, face);
        self.count += 1;
    }

    /// Takes the pieces of triangles of a list that wait, prepared for a lens, as the last ones, and sees to it that all pieces have
    /// slots and there are no others. The first slots are those of the earlier pieces. So many other processors prepare pieces too.
    pub(crate) fn prepare<R: Threads + Sync>(
        &mut self,
        rt: &R,
        others: u8,
        waiting: &[Waiting],
        slots: &mut Vec<Slot>,
        list: &DrawList,
        lens: &Lens,
    )
        requires few { length self.old + length waiting.now ≤ 16384 }
        requires listed { AreThere list.now waiting.now }
        requires room { 16384 ≤ vec_capacity slots.old }
        requires count { length self.old ≤ length slots.old.items }
        requires numbered { AreNumbered slots.old.items }
        requires slotted { AreSlotted self.old (take (length self.old) slots.old.items) }
        ensures pieces { AreAppended list.now lens.now waiting.now self.old self.new }
        ensures room { 16384 ≤ vec_capacity slots.new }
        ensures slotted { AreSlotted self.new slots.new.items }
    {
        let count = self.count + waiting.len();
        fill_up(&mut self.written, count);
        wait(slots, count);
        prepare_behind(
            rt,
            others,
            &mut self.written,
            slots,
            self.count,
            waiting,
            list,
            lens,
        );
        self.count = count;
    }

    /// Makes the pieces, whose triangles have come to the eye, ready for a lens, in so many parts side by side.
    pub(crate) fn make_ready<R: Threads + Sync>(&mut self, rt: &R, parts: usize, lens: &Lens)
        ensures count { length self.new ≡ length self.old }
        ensures ready { AreMadeReady lens.now self.old self.new }
    {
        make_ready_first(rt, parts, &mut self.written, self.count, lens);
    }
}

/// Writes a piece behind the first so many.
fn write_at(written: &mut Vec<Piece>, count: usize, face: Face)
    requires count { count ≤ length written.old.items }
    requires room { count < vec_capacity written.old }
    ensures count { count < length written.new.items }
    ensures capacity { vec_capacity written.old ≤ vec_capacity written.new }
    ensures piece { IsWithFace face (take count written.old.items) (take (count + 1) written.new.items) }
{
    if count < written.len() {
        written[count].face = face;
        return;
    }
    written.push_reserved(Piece::bare(face));
}

/// Sees to it that there are so many pieces, whatever those are that it appends.
fn fill_up(written: &mut Vec<Piece>, count: usize)
    requires few { count ≤ 16384 }
    requires room { 16384 ≤ vec_capacity written.old }
    ensures there { count ≤ length written.new.items }
    ensures room { 16384 ≤ vec_capacity written.new }
    ensures first { (n : ℕ) → n ≤ length written.old.items → take n written.new.items ≡ take n written.old.items }
{
    for i in written.len()..count {
        written.push_reserved(Piece::blank());
    }
}

/// Prepares the pieces of triangles of a list behind the first so many, and their slots.
fn prepare_behind<R: Threads + Sync>(
    rt: &R,
    others: u8,
    written: &mut [Piece],
    slots: &mut [Slot],
    count: usize,
    waiting: &[Waiting],
    list: &DrawList,
    lens: &Lens,
)
    requires there { count + length waiting.now ≤ length written.old }
    requires slots { length slots.old ≡ count + length waiting.now }
    requires listed { AreThere list.now waiting.now }
    requires numbered { AreNumbered slots.old }
    requires slotted { AreSlotted (take count written.old) (take count slots.old) }
    ensures pieces { AreAppended list.now lens.now waiting.now (take count written.old)
        (take (count + length waiting.now) written.new) }
    ensures slotted { AreSlotted (take (count + length waiting.now) written.new) slots.new }
{
    let (_, behind) = written.split_at_mut(count);
    let (fresh, _) = behind.split_at_mut(waiting.len());
    let (_, open) = slots.split_at_mut(count);
    prepare(
        rt,
        &Idle::new(),
        levels_of(waiting.len()),
        u64::from(others),
        waiting,
        fresh,
        open,
        list,
        lens,
    );
}

/// Makes the first so many pieces ready for a lens, in so many parts side by side.
fn make_ready_first<R: Threads + Sync>(
    rt: &R,
    parts: usize,
    written: &mut [Piece],
    count: usize,
    lens: &Lens,
)
    requires { count ≤ length written.old }
    ensures { AreMadeReady lens.now (take count written.old) (take count written.new) }
{
    let (pieces, _) = written.split_at_mut(count);
    make_ready(rt, parts, pieces, lens);
}
