//! The lines of a play, one after the other.
ghost use Rattle.std.specs.Prelude.{◌≡◌, ◌+◌, ◌<◌, ◌≤◌, ◌^◌, [], ◌∷◌, length, Ok, IfOk, IfSome, IfNone, IsTrue, OnOk, MatchResult, MatchOption};
ghost use Rattle.play_format.specs.Outcomes.{Refuses};
ghost use Rattle.play_format.specs.Places.{may_end, next_spot, Fits};
ghost use Rattle.play_format.specs.Grammar.{entry_at, line_at, end_at};
ghost use Rattle.play_format.specs.Rests.{IsSound, with_front};
ghost use Rattle.play_format.specs.Early.{IsEarly, IsEnd};
ghost use Rattle.std.specs.List.{All};
ghost use Rattle.std.proofs.Props.{props};

use crate::commands::Command;
use crate::early::Early;
use crate::places::Spot;
use crate::reading::read_line;
use crate::refusal::{ParseError, Refusal, Why};
use crate::words::cut;
use pf_model::Tri;

/// The most lines of a play.
const MAX_LINES: u32 = 262_144;

/// The most bytes of a line without its line feed.
pub const MAX_LINE_LEN: usize = 1_024;

/// What is left of a play behind its first line.
#[derive(Debug, Drop)]
pub struct Reader<'a> {
    /// The text that is left.
    pub rest: &'a [u8],
    /// The number of its first line.
    pub line: u32,
    pub spot: Spot,
    /// The whole text.
    pub text: &'a [u8],
    /// The triangle lines that were read before their turn, the last ones first.
    pub early: Vec<Early>,
    ghost sound: { IsSound spot },
    ghost few: { line ≤ 262145 },
    ghost end: { IsEnd text.now rest.now },
    ghost lines: { All (IsEarly text.now) early.items } by { Prim.hlevel props },
}

fn refused<T>(line: u32, why: Why) -> Result<T, ParseError>
    ensures { result ≡ Err (ParseError.Refused (record { line = line; why = why })) }
{
    Err(ParseError::Refused(Refusal { line, why }))
}

impl Reader<'_> {
    ghost use Rattle.play_format.specs.Sections.{unread_by, stand_of, TrianglesRead};

    /// Reads the next line, with its numbers in place of what `numbers` holds; None where the play ends.
    pub fn next(&mut self, numbers: &mut Vec<i32>) -> Result<Option<Command>, ParseError>
        ensures read { MatchResult result
            (λ found. MatchOption found
            (unread_by self.old ≡ Ok [])
            (λ c. unread_by self.old ≡ with_front ((c, numbers.new.items) ∷ []) (unread_by self.new)))
            (λ e. Refuses e (unread_by self.old)) }
        ensures ends { IfOk result (λ found. IfNone found (IsTrue (may_end self.old.spot))) }
        ensures stays { IfOk result (λ found. IfNone found (self.new.line ≡ self.old.line)) }
        ensures fits { IfOk result (λ found. IfSome found (λ c. Fits self.old.spot c numbers.new.items)) }
        ensures spot { IfOk result (λ found. IfSome found (λ c.
            self.new.spot ≡ next_spot self.old.spot c numbers.new.items)) }
        ensures line { IfOk result (λ found. IfSome found (λ c. self.new.line ≡ self.old.line + 1)) }
        ensures shorter { IfOk result (λ found. IfSome found (λ c.
            length self.new.rest.now < length self.old.rest.now)) }
    {
        let Some((line, rest)) = cut(self.rest, b'\n') else {
            return match self.end() {
                Ok(()) => Ok(None),
                Err(e) => Err(e),
            };
        };
        let command = self.command_of(line, numbers)?;
        self.spot = self.spot.next(command, numbers);
        self.rest = rest;
        self.line += 1;
        Ok(Some(command))
    }

    /// The triangles of all lines that are due, where these were read before their turn.
    pub fn early_triangles(&mut self) -> Option<Vec<Tri>>
        requires { 0 < self.old.spot.due }
        ensures { MatchOption result
            (stand_of self.new ≡ stand_of self.old)
            (λ ts. TrianglesRead (stand_of self.old) (stand_of self.new) ts.items) }
    {
        let early = self.next_early()?;
        let count = early.tris.len();
        if count != self.spot.due as usize || count > MAX_LINES.saturating_sub(self.line) as usize {
            return None;
        }
        self.rest = &self.text[self.text.len() - early.behind..];
        self.spot = Spot {
            due: 0,
            ..self.spot
        };
        self.line += count as u32;
        Some(early.tris)
    }

    /// The triangle lines that stand here, where they were read before their turn.
    fn next_early(&mut self) -> Option<Early>
        ensures stays { stand_of self.new ≡ stand_of self.old }
        ensures early { IfSome result (λ e. IsEarly self.new.text.now e) }
        ensures at { IfSome result (λ e. e.at ≡ length self.new.rest.now) }
    {
        while let Some(early) = self.early.pop() {
            if early.at == self.rest.len() {
                return Some(early);
            }
            if early.at < self.rest.len() {
                self.early.push_reserved(early);
                return None;
            }
        }
        None
    }

    /// The command of a line, with its numbers in place of what `numbers` holds.
    fn command_of(&self, line: &[u8], numbers: &mut Vec<i32>) -> Result<Command, ParseError>
        ensures { MatchResult result
            (λ c. line_at self.now.line line.now (entry_at self.now.spot line.now) ≡ Ok (c, numbers.new.items))
            (λ e. Refuses e (line_at self.now.line line.now (entry_at self.now.spot line.now))) }
    {
        if self.line > MAX_LINES {
            return refused(self.line, Why::Count);
        }
        if line.len() > MAX_LINE_LEN {
            return refused(self.line, Why::Length);
        }
        match read_line(numbers, self.spot, line) {
            Ok(command) => Ok(command),
            Err(e) => Err(e.at(self.line)),
        }
    }

    /// Whether the play may end before what is left, in which no line feed stands.
    fn end(&self) -> Result<(), ParseError>
        ensures ends { OnOk result (IsTrue (may_end self.now.spot)) }
        ensures read { MatchResult result
            (λ _. end_at (may_end self.now.spot) self.now.line self.now.rest.now ≡ Ok [])
            (λ e. Refuses e (end_at (may_end self.now.spot) self.now.line self.now.rest.now)) }
    {
        if !self.rest.is_empty() {
            return refused(
                self.line,
                if self.line > MAX_LINES {
                    Why::Count
                } else {
                    Why::Length
                },
            );
        }
        if !self.spot.may_end() {
            return refused(self.line, Why::Count);
        }
        Ok(())
    }
}
