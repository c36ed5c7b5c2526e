//! A live text in pieces, cut into lines and read.
ghost use Rattle.std.specs.Prelude.{◌≡◌, ℕ, ◌<◌, List, [], ◌++◌, length, MatchOption, MatchResult, OnOk, OnErr};
ghost use Rattle.live_text.specs.declared.given.Given.{Given};
ghost use Rattle.std.specs.Result.{result_err};
ghost use Rattle.live_text.specs.LiveGrammar.{end_refusal};
ghost use Rattle.live_feed.specs.Feeds.{Fed, HasNoFeed, IsLine, LineRead, NextGives, EndsSo};

use crate::error::FeedError;
use live_text::{Given, LiveReader};
use memchr::memchr;
use pf_io::NoMemory;
use play_format::{LineError, MAX_LINE_LEN, Refusal};
use std::alloc::Global;
use std::marker::Model;

/// A live text that comes in pieces of any size. It keeps the bytes that were not read yet, and what its reader keeps.
/// Contracts see where the reader stands, and these bytes.
#[derive(Debug, Drop)]
pub struct LiveFeed {
    reader: LiveReader,
    text: Vec<u8>,
    /// The bytes of `text` that were read: all that stands before the next line.
    at: usize,
}

impl Model for LiveFeed {
    ghost use Rattle.std.specs.Prelude.{◌≤◌, length, drop};
    ghost use Rattle.live_feed.specs.Feeds.{FeedState};

    ghost Value = { FeedState };

    ghost view = { λ f. record { stand = f.reader; rest = drop f.at f.text.items } };

    ghost invariant = { λ f. f.at ≤ length f.text.items };
}

impl LiveFeed {
    /// Nothing has come.
    pub fn new(alloc: Global) -> LiveFeed
        ensures { Fed [] [] result }
    {
        LiveFeed {
            reader: LiveReader::new(alloc),
            text: Vec::new(alloc),
            at: 0,
        }
    }

    /// Takes the next piece of the text. What was read leaves memory first. An error changes nothing.
    pub fn add(&mut self, piece: &[u8]) -> Result<(), NoMemory>
        ensures fed { OnOk result ((text : List ℕ) (gs : List Given) → Fed text gs self.old → Fed (text ++ piece.now) gs self.new) }
        ensures kept { OnErr result (self.new ≡ self.old) }
    {
        self.forget();
        self.text.extend_from_slice(piece)?;
        Ok(())
    }

    /// Reads whole lines until one makes something whole, and returns it; None where no whole line is left. A refusal is that
    /// of the text, whatever comes. What was given stays given, and after `NoMemory` the call may be repeated.
    pub fn next(&mut self) -> Result<Option<Given>, FeedError>
        ensures { (text : List ℕ) (gs : List Given) → Fed text gs self.old → NextGives text gs self.new result }
    {
        while let Some(len) = self.line_len() {
            if let Some(given) = self.read_line(len)? {
                return Ok(Some(given));
            }
        }
        if self.rest().len() > MAX_LINE_LEN {
            self.ending()?;
        }
        Ok(None)
    }

    /// What is wrong if the input ends now.
    pub fn end(&self) -> Result<(), Refusal>
        ensures { (text : List ℕ) (gs : List Given) → Fed text gs self.now → HasNoFeed self.now.rest → EndsSo text gs result }
    {
        self.ending()
    }

    /// What the reader says against the rest as an end. It refuses a rest that is no whole line by the same causes as the
    /// whole line, where the rest is too long.
    fn ending(&self) -> Result<(), Refusal>
        ensures { result_err result ≡ end_refusal self.now.stand.spot self.now.stand.line self.now.rest }
    {
        self.reader.end(&self.text[self.at..])
    }

    /// The bytes that were not read yet.
    fn rest(&self) -> &[u8]
        ensures { result.now ≡ self.now.rest }
    {
        &self.text[self.at..]
    }

    /// The length of the next line; None where no whole line is left.
    fn line_len(&self) -> Option<usize>
        ensures { MatchOption result (HasNoFeed self.now.rest) (λ n. IsLine n self.now.rest) }
    {
        memchr(b'\n', self.rest())
    }

    /// Reads the next line, of so many bytes.
    fn read_line(&mut self, len: usize) -> Result<Option<Given>, FeedError>
        requires { len < length self.old.rest }
        ensures { LineRead self.old len self.new result }
    {
        let start = self.at;
        match self.reader.line(&self.text[start..start + len]) {
            Ok(given) => {
                self.at += len + 1;
                Ok(given)
            }
            Err(LineError::Wrong(why)) => Err(FeedError::Refused(Refusal {
                line: self.reader.line_number(),
                why,
            })),
            Err(LineError::NoMemory) => Err(FeedError::NoMemory),
        }
    }

    /// Lets the bytes go that were read.
    fn forget(&mut self)
        ensures { self.new ≡ self.old }
    {
        if self.at == 0 {
            return;
        }
        let left = self.text.len() - self.at;
        self.text.copy_within(self.at.., 0);
        self.text.truncate(left);
        self.at = 0;
    }
}
