//! Pieces that are drawn together.
ghost use Rattle.std.specs.Prelude.{◌≡◌, List, ◌+◌, ◌≤◌, ◌<◌, true, [], ◌∷◌, ◌++◌, All, length, nat_le, take, IfOk};
ghost use Rattle.std.specs.Vec.{vec_capacity};
ghost use Rattle.depth_raster.specs.Pieces.{AreRanked};
ghost use Rattle.depth_raster.specs.Slots.{AreNumbered, AreSlotted};

use crate::faces::Face;
use crate::goes::Go;
use crate::piece_buffer::{PieceBuffer, ROOM};
use crate::slots::{Slot, complete, reach_many_strips, sort};
use crate::waiting::Waiting;
use crate::work::{Processors, others_to_prepare, processors_to_make_ready};
use draw_list::DrawList;
use fx_math::Lens;
use pf_io::NoMemory;
use std::alloc::Global;
use std::thread::Threads;

/// Pieces and their slots, and triangles that wait to become pieces, with room for as many as are drawn together. The first ones
/// of a picture are drawn over nothing. The first `slotted` slots are those of the first pieces, in their order, and the first
/// `numbered` have their places as indices: those of one picture do for the next one.
#[derive(Drop)]
pub(crate) struct Batch {
    pub(crate) is_first: bool,
    pub(crate) pieces: PieceBuffer,
    pub(crate) waiting: Vec<Waiting>,
    pub(crate) slots: Vec<Slot>,
    pub(crate) processors: Processors,
    slotted: usize,
    numbered: usize,
    ghost few: { length pieces ≤ 16384 },
    ghost few_waiting: { length waiting.items ≤ 16384 },
    ghost ranked: { AreRanked pieces },
    ghost waiting_room: { 16384 ≤ vec_capacity waiting },
    ghost slots_room: { 16384 ≤ vec_capacity slots },
    ghost slotted_first: { AreSlotted pieces (take slotted slots.items) },
    ghost numbered_first: { AreNumbered (take numbered slots.items) },
}

impl Batch {
    ghost use Rattle.fx_math.specs.declared.lenses.Lens.{Lens};
    ghost use Rattle.depth_raster.specs.Pieces.{IsPieceOf, IsLeast, AreGathered, AreAppended};
    ghost use Rattle.depth_raster.specs.Goes.{IsReady};
    ghost use Rattle.depth_raster.specs.Slots.{AreSlotsOf};
    ghost use Rattle.depth_raster.specs.declared.pieces.Piece.{Piece};
    ghost use Rattle.depth_raster.specs.Batches.{IsWithFace, faces_of};

    /// No pieces.
    pub(crate) fn new(alloc: Global) -> Result<Batch, NoMemory>
        ensures { IfOk result (λ b. b.pieces ≡ []) }
    {
        let pieces = PieceBuffer::new(alloc)?;
        let mut waiting = Vec::new(alloc);
        waiting.reserve(ROOM)?;
        let mut slots = Vec::new(alloc);
        slots.reserve(ROOM)?;
        Ok(Batch {
            is_first: true,
            pieces,
            waiting,
            slots,
            processors: Processors::uncounted(),
            slotted: 0,
            numbered: 0,
        })
    }

    /// Whether no triangle has room.
    pub(crate) fn is_full(&self) -> bool
        ensures { result ≡ nat_le 16384 (length self.now.pieces + length self.now.waiting.items) }
    {
        ROOM <= self.pieces.len() + self.waiting.len()
    }

    /// Begins a picture: its first pieces are still to be drawn.
    pub(crate) fn begin(&mut self)
        ensures first { self.new.is_first ≡ true }
        ensures pieces { self.new.pieces ≡ self.old.pieces }
    {
        self.is_first = true;
    }

    /// Leaves no pieces, and no triangles that wait.
    pub(crate) fn clear(&mut self)
        ensures pieces { self.new.pieces ≡ [] }
        ensures waiting { self.new.waiting.items ≡ [] }
    {
        self.pieces.clear();
        self.waiting.clear();
        self.slotted = 0;
    }

    /// Leaves no triangles that wait.
    pub(crate) fn clear_waiting(&mut self)
        ensures first { self.new.is_first ≡ self.old.is_first }
        ensures pieces { self.new.pieces ≡ self.old.pieces }
        ensures waiting { self.new.waiting.items ≡ [] }
    {
        self.waiting.clear();
    }

    /// Takes a face, whose triangle has come to the eye, as the last piece, which is still to be made ready.
    pub(crate) fn push(&mut self, face: Face)
        requires { length self.old.pieces < 16384 }
        ensures first { self.new.is_first ≡ self.old.is_first }
        ensures pieces { IsWithFace (record face { rank = length self.old.pieces + 1 }) self.old.pieces self.new.pieces }
    {
        let rank = self.pieces.len() as u32 + 1;
        self.pieces.push(Face { rank, ..face });
    }

    /// Takes the triangle of a number in an item of a number, as the last one that waits.
    pub(crate) fn gather(&mut self, item: usize, number: u32)
        requires { length self.old.pieces + length self.old.waiting.items < 16384 }
        ensures first { self.new.is_first ≡ self.old.is_first }
        ensures pieces { self.new.pieces ≡ self.old.pieces }
        ensures waiting { self.new.waiting.items ≡ self.old.waiting.items ++ record {
          item = item;
          number = number;
          rank = length self.old.pieces + length self.old.waiting.items + 1;
        } ∷ [] }
    {
        let rank = (self.pieces.len() + self.waiting.len()) as u32 + 1;
        self.waiting.push_reserved(Waiting { item, number, rank });
    }

    /// Prepares the triangles of a list that wait, which become the last pieces: they come to the eye, are ready to be drawn for a
    /// lens, and have their slots.
    pub(crate) fn prepare<R: Threads + Sync>(&mut self, rt: &R, list: &DrawList, lens: &Lens)
        requires { AreGathered list.now lens.now self.old.pieces self.old.waiting.items }
        ensures first { self.new.is_first ≡ self.old.is_first }
        ensures none { self.new.waiting.items ≡ [] }
        ensures pieces { AreAppended list.now lens.now self.old.waiting.items self.old.pieces self.new.pieces }
    {
        self.number_slots();
        let others = others_to_prepare(rt, &mut self.processors, self.waiting.len());
        self.pieces
            .prepare(rt, others, &self.waiting, &mut self.slots, list, lens);
        self.slotted = self.slots.len();
        self.numbered = self.slots.len();
        self.waiting.clear();
    }

    /// Makes the pieces ready to be drawn for a lens.
    pub(crate) fn make_ready<R: Threads + Sync>(&mut self, rt: &R, lens: &Lens)
        ensures first { self.new.is_first ≡ self.old.is_first }
        ensures faces { faces_of self.new.pieces ≡ faces_of self.old.pieces }
        ensures ready { All (IsPieceOf lens.now) self.new.pieces }
    {
        self.slotted = 0;
        let parts = processors_to_make_ready(rt, &mut self.processors, self.pieces.len());
        self.pieces.make_ready(rt, parts, lens);
    }

    /// Sees to it that all pieces have slots. Others may wait behind these, whose places are their indices.
    fn number_slots(&mut self)
        requires { All (λ p. IsLeast p.face p.least) self.old.pieces }
        ensures first { self.new.is_first ≡ self.old.is_first }
        ensures pieces { self.new.pieces ≡ self.old.pieces }
        ensures waiting { self.new.waiting.items ≡ self.old.waiting.items }
        ensures count { length self.new.pieces ≤ length self.new.slots.items }
        ensures numbered { AreNumbered self.new.slots.items }
        ensures slotted { AreSlotted self.new.pieces (take (length self.new.pieces) self.new.slots.items) }
    {
        if self.pieces.len() > 0 {
            self.complete_slots();
            return;
        }
        self.slotted = 0;
        self.slots.truncate(self.numbered);
    }

    /// Sees to it that all pieces have slots, and there are no others.
    pub(crate) fn complete_slots(&mut self)
        requires { All (λ p. IsLeast p.face p.least) self.old.pieces }
        ensures first { self.new.is_first ≡ self.old.is_first }
        ensures pieces { self.new.pieces ≡ self.old.pieces }
        ensures waiting { self.new.waiting.items ≡ self.old.waiting.items }
        ensures count { length self.new.slots.items ≡ length self.new.pieces }
        ensures slotted { AreSlotted self.new.pieces self.new.slots.items }
    {
        self.slots.truncate(self.slotted);
        complete(&mut self.slots, self.pieces.as_slice());
        self.slotted = self.slots.len();
        self.numbered = self.slots.len();
    }

    /// Sorts the slots by the least depths of their pieces, where one processor draws the strips and a slot reaches more than one of
    /// them on average. Else the slots of each strip are sorted alone, which costs less where slots reach few strips.
    pub(crate) fn sort_slots(&mut self, processors: usize)
        ensures first { self.new.is_first ≡ self.old.is_first }
        ensures pieces { self.new.pieces ≡ self.old.pieces }
        ensures count { length self.new.slots.items ≡ length self.old.slots.items }
        ensures slots { (lens : Lens) (ps : List Piece) → AreSlotsOf lens ps self.old.slots.items
            → AreSlotsOf lens ps self.new.slots.items }
    {
        if processors < 2 && reach_many_strips(&self.slots) {
            self.slotted = 0;
            self.numbered = 0;
            sort(&mut self.slots);
        }
    }

    /// The pieces, which are ready for a lens and have their slots, as a go before a background, which may be the last one of a
    /// picture.
    pub(crate) fn go<'a>(&'a self, lens: &'a Lens, back: [u8; 3], is_last: bool) -> Go<'a>
        requires ready { All (IsPieceOf lens.now) self.now.pieces }
        requires count { length self.now.slots.items ≡ length self.now.pieces }
        requires slots { AreSlotsOf lens.now self.now.pieces self.now.slots.items }
        ensures ready { IsReady result }
        ensures first { result.is_first ≡ self.now.is_first }
        ensures last { result.is_last ≡ is_last }
        ensures lens { result.lens.now ≡ lens.now }
        ensures back { result.back ≡ back }
        ensures pieces { result.pieces.now ≡ self.now.pieces }
    {
        Go {
            is_first: self.is_first,
            is_last,
            lens,
            back,
            pieces: self.pieces.as_slice(),
            slots: &self.slots,
        }
    }
}
