//! The database process.
ghost use Rattle.std.specs.Prelude.{◌≡◌, ℕ, ◌+◌, ◌<◌, ◌≤◌, ◌↔◌, ◌++◌, IsTrue, true, false, List, [], length, Some, Ok, OnOk, OnErr};
ghost use Rattle.std.specs.List.{list_all};
ghost use Rattle.pf_model.specs.declared.lines.BaseLine.{BaseLine};
ghost use Rattle.pf_model.specs.declared.lines.BaseStep.TheVariants as base;
ghost use Rattle.pf_history.specs.Logs.{Log, state_of};
ghost use Rattle.play_format.specs.Plays.{base_fits, open_after};
ghost use Rattle.stage_parts.specs.Answers.{is_over};
ghost use Rattle.frame_stages.specs.Looks.{FoundMark};
ghost use Rattle.frame_stages.specs.Scripts.{most_lines};
ghost use Rattle.frame_stages.specs.DbaseWorks.{opening_work, more_work, is_ended, has_ended, DbaseHolds};
ghost use Rattle.frame_stages.specs.DbaseLines.{kind_of, next_line};
ghost use Rattle.frame_stages.specs.Copies.{HoldsCopies};
ghost use Rattle.frame_stages.specs.DbaseAnswers.{DbaseAdds, Passes, GivesUp, Tries, IsDbaseAnswer};
ghost use Rattle.stage_parts.specs.declared.answers.Did.TheVariants as did;
ghost use Rattle.frame_stages.specs.declared.next_line.NextLine.TheVariants as next;
ghost use Rattle.frame_stages.specs.Stays.{desk_place};

use crate::dbase_turns::{enter, set_mark};
use crate::filling::{fill, hand_of};
use crate::in_hand::InHand;
use crate::looks::sight;
use crate::next_line::{NextLine, merges_next, next_line};
use crate::script::MOST_LINES;
use pf_io::{Gate, NoMemory, Stage};
use pf_model::BaseLine;
use pf_scene::{Outcome, Scene, Sight};
use seat_lock::Desk;
use stage_parts::{Did, StageError};
use std::alloc::Global;
use std::collections::VecDeque;
use std::marker::Model;
use std::mem;

/// The database process (DBASE): line by line it fills buffers of edits by itself, and hands each over as one merge.
///
/// Contracts see the lines that are left, how many it passed, the greatest await among these, whether it ended for want
/// of memory, and what is in hand of its open buffer.
pub struct DbaseStage {
    alloc: Global,
    rest: VecDeque<BaseLine>,
    at: u32,
    need: u32,
    failed: bool,
    hand: InHand,
}

/// Written out, so that to drop one is a single call.
impl Drop for DbaseStage {
    fn drop(self) {
        let Self {
            alloc: _,
            rest: _,
            at: _,
            need: _,
            failed: _,
            hand: _,
        } = self;
    }
}

impl Model for DbaseStage {
    ghost use Rattle.frame_stages.specs.DbaseWorks.{DbaseWork};
    ghost use Rattle.frame_stages.specs.DbaseLines.{IsInOrder};

    ghost Value = { DbaseWork };

    ghost view = { λ d. record {
      rest = d.rest.items;
      at = d.at;
      need = d.need;
      failed = d.failed;
      hand = d.hand;
    } };

    ghost invariant = { λ d. IsInOrder (record {
      rest = d.rest.items;
      at = d.at;
      need = d.need;
      failed = d.failed;
      hand = d.hand;
    }) };
}

/// Lines as a queue.
fn queue_of(lines: Vec<BaseLine>) -> VecDeque<BaseLine>
    ensures { result.items ≡ lines.items }
{
    VecDeque::from(lines)
}

impl DbaseStage {
    /// Returns the database process before its first line. It takes no memory, and returns no error. The section
    /// `dbase` has at most 2,147,483,648 lines and whole buffers, and its numbers are in the ranges of a play.
    pub fn new(alloc: Global, dbase: Vec<BaseLine>) -> Result<DbaseStage, NoMemory>
        requires few { length dbase.items ≤ most_lines }
        requires fit { list_all (λ l. base_fits l.step) dbase.items ≡ true }
        requires order { open_after false dbase.items ≡ Some false }
        ensures made { result ≡ Ok (opening_work dbase.items) }
        ensures holds { (channels seat : ℕ)
            → DbaseHolds dbase.items channels seat (opening_work dbase.items) [] }
    {
        Ok(DbaseStage {
            alloc,
            rest: VecDeque::from(dbase),
            at: 0,
            need: 0,
            failed: false,
            hand: InHand::Nothing,
        })
    }

    /// Whether so many lines more may be given.
    pub fn has_room(&self, lines: usize) -> bool
        ensures yes { result ≡ true → self.now.at + (length self.now.rest + lines) ≤ most_lines }
        ensures no { result ≡ false → most_lines < self.now.at + (length self.now.rest + lines) }
    {
        lines <= MOST_LINES - self.at as usize - self.rest.len()
    }

    /// Puts whole buffers behind the lines of its section, with the awaits before, between and behind them. Where it ended
    /// for want of memory they are dropped. Returns an error, and keeps its lines, where there is no memory.
    pub fn give(&mut self, more: Vec<BaseLine>) -> Result<(), NoMemory>
        requires few { self.old.at + (length self.old.rest + length more.items) ≤ most_lines }
        requires fit { list_all (λ l. base_fits l.step) more.items ≡ true }
        requires order { open_after false more.items ≡ Some false }
        ensures state { OnOk result (self.new ≡ more_work more.items self.old) }

        // It holds to the longer section.
        ensures holds { OnOk result ((lines : List BaseLine) (channels seat : ℕ) (log : Log)
            → DbaseHolds lines channels seat self.old log → DbaseHolds (lines ++ more.items) channels seat self.new log) }
        ensures unchanged { OnErr result (self.new ≡ self.old) }
    {
        if self.has_failed() {
            return Ok(());
        }
        self.put_behind(more)
    }

    /// Whether it ended for want of memory.
    fn has_failed(&self) -> bool
        ensures { result ≡ self.now.failed }
    {
        self.failed
    }

    /// Puts whole buffers behind the lines that are left.
    fn put_behind(&mut self, more: Vec<BaseLine>) -> Result<(), NoMemory>
        requires few { self.old.at + (length self.old.rest + length more.items) ≤ most_lines }
        requires fit { list_all (λ l. base_fits l.step) more.items ≡ true }
        requires order { open_after false more.items ≡ Some false }
        requires runs { self.old.failed ≡ false }
        ensures state { OnOk result (self.new ≡ record self.old { rest = self.old.rest ++ more.items }) }
        ensures unchanged { OnErr result (self.new ≡ self.old) }
    {
        let mut block = queue_of(more);
        match self.rest.append(&mut block) {
            Ok(()) => Ok(()),
            Err(_) => Err(NoMemory),
        }
    }

    /// Whether it has ended: each line of its section is passed. Where memory ran out it has not.
    pub fn has_ended(&self) -> bool
        ensures { result ≡ has_ended self.now }
    {
        self.is_ended() && !self.failed
    }

    /// Whether no line is left.
    fn is_ended(&self) -> bool
        ensures { result ≡ is_ended self.now.rest }
    {
        self.rest.is_empty()
    }

    /// What the next line is.
    fn next(&self) -> NextLine
        ensures { result ≡ next_line self.now.rest }
    {
        next_line(&self.rest)
    }

    /// Passes an await where so many frames were begun, and answers whether it did.
    fn pass_await(&mut self, wanted: u32, frames: u32) -> bool
        requires next { next_line self.old.rest ≡ next.Await wanted }
        ensures passed { result ≡ true
            → (l : BaseLine) × Passes l self.old self.new × (l.step ≡ base.Await wanted) }
        ensures still { result ≡ false → self.new ≡ self.old }
        ensures frames { IsTrue result ↔ wanted ≤ frames }
    {
        if frames < wanted {
            return false;
        }
        let _ = self.rest.pop_front();
        self.at += 1;
        self.need = self.need.max(wanted);
        true
    }

    /// Passes a line of a buffer.
    fn pass_fill(&mut self) -> Result<(), NoMemory>
        requires next { next_line self.old.rest ≡ next.Fill }
        ensures passed { OnOk result ((l : BaseLine) × Passes l self.old self.new × (kind_of l.step ≡ next.Fill)) }
        ensures gives_up { OnErr result (GivesUp self.old self.new) }
    {
        let Some(line) = self.rest.pop_front() else {
            unreachable!();
        };
        let hand = mem::replace(&mut self.hand, InHand::Nothing);
        match fill(self.alloc, hand, line.step) {
            Ok(buffer) => {
                self.hand = hand_of(buffer, merges_next(&self.rest));
                self.at += 1;
                Ok(())
            }
            Err(NoMemory) => {
                self.rest.clear();
                self.failed = true;
                Err(NoMemory)
            }
        }
    }

    /// Enters the merge in hand, passes its line, and answers whether it did.
    fn pass_merge<D: Desk<Scene>, G: Gate>(
        &mut self,
        desk: &mut D,
        gate: &G,
        merges: u32,
    ) -> Result<bool, NoMemory>
        requires next { next_line self.old.rest ≡ next.Merge }
        ensures counted { HoldsCopies (D.told desk.old) → HoldsCopies (D.told desk.new) }
        ensures tries { Tries (D.number desk.old) result self.old self.new
            (record { seen = D.seen desk.old; told = D.told desk.old })
            (record { seen = D.seen desk.new; told = D.told desk.new }) }
        ensures desk { desk_place (D.number desk.new) (D.stands desk.new) ≡ desk_place (D.number desk.old) (D.stands desk.old) }
    {
        let InHand::Merge(merge) = mem::replace(&mut self.hand, InHand::Nothing) else {
            unreachable!();
        };
        gate.pass(Stage::Dbase, merges.saturating_add(1));
        match enter(desk, merge) {
            Outcome::Entered(_) => {
                let _ = self.rest.pop_front();
                self.at += 1;
                Ok(true)
            }
            Outcome::NotNow(merge) => {
                self.hand = InHand::Merge(merge);
                Ok(false)
            }
            Outcome::NoMemory(_) => {
                self.rest.clear();
                self.failed = true;
                Err(NoMemory)
            }
        }
    }

    /// Passes the next line where that is time, and answers whether it did.
    fn go<D: Desk<Scene>, G: Gate>(
        &mut self,
        desk: &mut D,
        gate: &G,
        sight: Sight,
    ) -> Result<bool, NoMemory>
        requires left { is_ended self.old.rest ≡ false }
        requires frames { (channels : ℕ) → sight.frames ≡ (state_of channels (D.seen desk.old)).frames }
        ensures counted { HoldsCopies (D.told desk.old) → HoldsCopies (D.told desk.new) }
        ensures tries { Tries (D.number desk.old) result self.old self.new
            (record { seen = D.seen desk.old; told = D.told desk.old })
            (record { seen = D.seen desk.new; told = D.told desk.new }) }
        ensures desk { desk_place (D.number desk.new) (D.stands desk.new) ≡ desk_place (D.number desk.old) (D.stands desk.old) }
    {
        match self.next() {
            NextLine::End => unreachable!(),
            NextLine::Await(wanted) => Ok(self.pass_await(wanted, sight.frames)),
            NextLine::Fill => {
                self.pass_fill()?;
                Ok(true)
            }
            NextLine::Merge => self.pass_merge(desk, gate, sight.merges),
        }
    }

    /// One step: passes an await, a line of a buffer, or a merge, which it enters in the scene. Returns `Did` if it
    /// passed a line, `NotYet` if it has to wait, and `Over` if no line is left or it finds the stop mark.
    ///
    /// Returns `Err(StageError::NoMemory)` if memory runs out, and no other error. Then it added no entry, has set the
    /// stop mark, and is over: no line is left.
    pub fn poll<D: Desk<Scene>, G: Gate>(
        &mut self,
        desk: &mut D,
        gate: &G,
    ) -> Result<Did, StageError>
        // It holds to its section, whatever this is and however many channels there are.
        ensures part { (lines : List BaseLine) (channels : ℕ)
            → DbaseHolds lines channels (D.number desk.old) self.old (D.seen desk.old)
            → DbaseHolds lines channels (D.number desk.old) self.new (D.seen desk.new) }

        // It adds at most one entry, which is a merge of its own.
        ensures adds { DbaseAdds (D.number desk.old) (D.seen desk.old) (D.seen desk.new) }

        // The scene's copies stay accounted for.
        ensures counted { HoldsCopies (D.told desk.old) → HoldsCopies (D.told desk.new) }

        // What its answer says. It is over exactly where no line is left or this look found the stop mark.
        ensures answer { IsDbaseAnswer (D.number desk.old) result self.old self.new
            (record { seen = D.seen desk.old; told = D.told desk.old })
            (record { seen = D.seen desk.new; told = D.told desk.new }) }
        ensures ended { is_ended self.old.rest ≡ true → result ≡ Ok did.Over }
        ensures looked { is_ended self.old.rest ≡ false → FoundMark (D.number desk.old) (D.seen desk.old) (D.told desk.old)
            (is_over result) }

        // It leaves all else of the desk.
        ensures desk { desk_place (D.number desk.new) (D.stands desk.new) ≡ desk_place (D.number desk.old) (D.stands desk.old) }
    {
        if self.is_ended() {
            return Ok(Did::Over);
        }
        let sight = sight(desk);
        if sight.stopped {
            return Ok(Did::Over);
        }
        match self.go(desk, gate, sight) {
            Ok(moved) => Ok(Did::of(moved)),
            Err(NoMemory) => {
                set_mark(desk);
                Err(StageError::NoMemory)
            }
        }
    }
}
