//! The text of a live run, read in pieces.
ghost use Rattle.std.specs.Prelude.{◌≡◌, ◌≢◌, ℕ, false, List, [], Option, Ok, IfOk, IfErr};
ghost use Rattle.live_run.specs.declared.halt.Halt.TheVariants as halt;
ghost use Rattle.live_text.specs.declared.given.Given.{Given};
ghost use Rattle.live_feed.specs.Feeds.{Fed, HasNoFeed};
ghost use Rattle.live_run.specs.LiveRuns.{Takes};
ghost use Rattle.live_run.specs.Runs.{ReadBlames, ReadsOn, NextSo, EndsHere};

use crate::halt::Halt;
use crate::source::{LiveSource, Settled};
use live_feed::LiveFeed;
use live_text::Given;
use pf_io::NoMemory;
use std::alloc::Global;
use std::marker::Model;

/// The most bytes that one read takes.
const PIECE: usize = 65_536;

/// What was read of a live text, and room for the next piece.
#[derive(Drop)]
pub(crate) struct Reading {
    feed: LiveFeed,
    piece: Vec<u8>,
}

impl Model for Reading {
    ghost use Rattle.std.specs.Prelude.{◌≡◌, length};
    ghost use Rattle.live_feed.specs.Feeds.{FeedState};

    ghost Value = { FeedState };

    ghost view = { λ r. r.feed };

    ghost invariant = { λ r. length r.piece.items ≡ 65536 };
}

impl Reading {
    /// Nothing was read.
    pub(crate) fn new(alloc: Global) -> Result<Reading, NoMemory>
        ensures { IfOk result (λ r. Fed [] [] r) }
    {
        let mut piece = Vec::new(alloc);
        piece.resize(PIECE, 0)?;
        Ok(Reading {
            feed: LiveFeed::new(alloc),
            piece,
        })
    }

    /// Reads on, once all that was read is settled. Returns whether more came; else the input has ended.
    pub(crate) fn more<S: LiveSource>(
        &mut self,
        source: &mut S,
        settled: Settled,
    ) -> Result<bool, Halt>
        ensures read { (left : Option (List ℕ)) (text : List ℕ) (gs : List Given) → Takes left (S.left source.old) text
            → Fed text gs self.old → ReadsOn left (S.left source.new) text gs self.new result }
        ensures blames { ReadBlames result (S.faults source.old) (S.faults source.new) }
        ensures unchanged { result ≡ Ok false → self.new ≡ self.old }
    {
        let Ok(count) = source.read(self.piece.as_mut_slice(), settled) else {
            return Err(Halt::ReadFault);
        };
        if count == 0 {
            return Ok(false);
        }
        self.feed.add(&self.piece[..count])?;
        Ok(true)
    }

    /// Returns what is whole next, if a whole line is left that makes something whole.
    pub(crate) fn next_given(&mut self) -> Result<Option<Given>, Halt>
        ensures { (text : List ℕ) (gs : List Given) → Fed text gs self.old → NextSo text gs self.new result }
    {
        Ok(self.feed.next()?)
    }

    /// What is wrong if the input ends here.
    pub(crate) fn end(&self) -> Result<(), Halt>
        ensures ends { (text : List ℕ) (gs : List Given) → Fed text gs self.now → HasNoFeed self.now.rest → EndsHere text gs result }
        ensures halts { IfErr result (λ h. h ≢ halt.ReadFault) }
    {
        match self.feed.end() {
            Ok(()) => Ok(()),
            Err(refusal) => Err(Halt::Refused(refusal)),
        }
    }
}
