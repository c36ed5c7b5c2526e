//! The reader of a live text.
ghost use Rattle.std.specs.Prelude.{◌≡◌, OnErr, MatchResult};
ghost use Rattle.std.specs.Result.{result_err};
ghost use Rattle.play_format.specs.Outcomes.{Fails};
ghost use Rattle.live_text.specs.LiveGrammar.{end_refusal};
ghost use Rattle.live_text.specs.Stands.{live_start, live_step, LineGives};

use crate::given::Given;
use crate::state::State;
use play_format::{LineError, Refusal};
use std::alloc::Global;
use std::marker::Model;

/// A reader of a live text, line by line. It keeps no text, and of the lines that were read only those of what is not whole
/// yet. Contracts see the number of the next line, the place before it, and these lines.
#[derive(Debug, Drop)]
pub struct LiveReader {
    state: State,
}

impl Model for LiveReader {
    ghost use Rattle.live_text.specs.Stands.{LiveStand};
    ghost use Rattle.live_text.specs.States.{IsHeld, stand_of};

    ghost Value = { LiveStand };

    ghost view = { λ r. stand_of r.state };

    ghost invariant = { λ r. IsHeld r.state };
}

impl LiveReader {
    /// A reader before the first line.
    pub fn new(alloc: Global) -> LiveReader
        ensures { result ≡ live_start }
    {
        LiveReader {
            state: State::new(alloc),
        }
    }

    /// Reads one whole line, without its line feed. Returns what is whole with this line: the header, a command with its
    /// triangles, or a block. `Wrong` is the first cause against the line; an error changes nothing.
    pub fn line(&mut self, line: &[u8]) -> Result<Option<Given>, LineError>
        ensures read { MatchResult result
            (λ found. LineGives self.old line.now self.new found)
            (λ e. Fails e (live_step self.old line.now)) }
        ensures kept { OnErr result (self.new ≡ self.old) }
    {
        self.state.line(line)
    }

    /// What is wrong where the input ends, if anything: `rest` stands behind the last line feed.
    pub fn end(&self, rest: &[u8]) -> Result<(), Refusal>
        ensures { result_err result ≡ end_refusal self.now.spot self.now.line rest.now }
    {
        self.state.end(rest)
    }

    /// The number of the next line, from 1.
    pub fn line_number(&self) -> u32
        ensures { result ≡ self.now.line }
    {
        self.state.line
    }
}
