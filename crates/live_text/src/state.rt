//! What a reader of a live text holds, and how a line changes it.
ghost use Rattle.std.specs.Prelude.{◌≡◌, ◌+◌, ◌<◌, ◌≤◌, [], ◌∷◌, ◌++◌, length, true, false, IfOk, OnOk, OnErr};
ghost use Rattle.std.specs.Vec.{vec_len, vec_capacity};
ghost use Rattle.play_format.specs.Sections.{is_buffer};
ghost use Rattle.std.specs.Result.{result_err};
ghost use Rattle.live_text.specs.LiveGrammar.{end_refusal};
ghost use Rattle.live_text.specs.Stands.{live_start};
ghost use Rattle.live_text.specs.States.{IsHeld, IsMoved, Finishes, MakesStep, AddsStep, EntryRead, LineRead, is_header, stand_of};

use crate::given::Given;
use crate::head::Head;
use crate::lines::{is_first_line, next_spot, read_live_line};
use crate::opened::Opened;
use pf_model::BaseLine;
use play_format::{Command, LineError, MAX_LINE_LEN, Place, Refusal, Spot, Version, Why, tri_of};
use std::alloc::Global;
use std::mem;

/// The most lines of a live text.
const MAX_LINES: u32 = 536_870_911;

/// What a reader holds between two lines.
#[derive(Debug, Drop)]
pub struct State {
    pub alloc: Global,
    /// The number of the next line.
    pub line: u32,
    pub spot: Spot,
    pub head: Head,
    /// The command whose triangle lines are due.
    pub opened: Opened,
    /// The steps of the block that is not closed.
    pub block: Vec<BaseLine>,
    /// Room for the numbers of a triangle line.
    pub corners: Vec<i32>,
}

impl State {
    /// Before the first line.
    pub fn new(alloc: Global) -> State
        ensures held { IsHeld result }
        ensures stand { stand_of result ≡ live_start }
    {
        State {
            alloc,
            line: 1,
            spot: Spot::start(Version::Two),
            head: Head::Nothing,
            opened: Opened::new(alloc),
            block: Vec::new(alloc),
            corners: Vec::new(alloc),
        }
    }

    /// Puts the command that was read where it belongs, where no more of its triangle lines are due, and returns what is
    /// whole then.
    fn finish(&mut self) -> Option<Given>
        requires moved { IsMoved self.old }
        requires room { vec_len self.old.block < vec_capacity self.old.block }
        ensures { Finishes self.old self.new result }
    {
        if self.spot.due > 0 {
            return None;
        }
        match self.spot.place {
            Place::Buffer => {
                self.add_step();
                None
            }
            _ => match self.opened.command {
                Command::Merge => {
                    self.add_step();
                    Some(Given::Block(mem::replace(&mut self.block, Vec::new(self.alloc))))
                }
                _ => Some(Given::Line(self.opened.take_app_line(self.alloc))),
            },
        }
    }

    /// Puts the command behind the steps of the block.
    fn add_step(&mut self)
        requires makes { MakesStep self.old }
        requires room { vec_len self.old.block < vec_capacity self.old.block }
        ensures { AddsStep self.old self.new }
    {
        let step = self.opened.take_base_line(self.alloc);
        self.block.push_reserved(step);
    }

    /// Reads a line of the header.
    fn header(&mut self, line: &[u8]) -> Result<Option<Given>, LineError>
        requires held { IsHeld self.old }
        requires few { self.old.line ≤ 536870911 }
        requires settled { self.old.spot.due ≡ 0 }
        requires place { is_header self.old.spot.place ≡ true }
        ensures { EntryRead self.old line.now self.new result }
    {
        let command = read_live_line(&mut self.corners, self.spot, line)?;
        let (head, given) = self.head.after(self.spot, command, &self.corners);
        self.spot = next_spot(self.spot, command, &self.corners);
        self.head = head;
        self.line += 1;
        Ok(given)
    }

    /// Reads a line where a triangle line is due.
    fn triangle(&mut self, line: &[u8]) -> Result<Option<Given>, LineError>
        requires held { IsHeld self.old }
        requires few { self.old.line ≤ 536870911 }
        requires due { 0 < self.old.spot.due }
        ensures { EntryRead self.old line.now self.new result }
    {
        let command = read_live_line(&mut self.corners, self.spot, line)?;
        self.block.reserve(1)?;
        self.opened.tris.push(tri_of(&self.corners))?;
        self.spot = next_spot(self.spot, command, &self.corners);
        self.line += 1;
        Ok(self.finish())
    }

    /// Reads the line of a command.
    fn command(&mut self, line: &[u8]) -> Result<Option<Given>, LineError>
        requires held { IsHeld self.old }
        requires few { self.old.line ≤ 536870911 }
        requires settled { self.old.spot.due ≡ 0 }
        requires place { is_header self.old.spot.place ≡ false }
        ensures { EntryRead self.old line.now self.new result }
    {
        let command = read_live_line(&mut self.opened.numbers, self.spot, line)?;
        self.block.reserve(1)?;
        self.spot = next_spot(self.spot, command, &self.opened.numbers);
        self.opened.line = self.line;
        self.opened.command = command;
        self.line += 1;
        Ok(self.finish())
    }

    /// Reads a line behind the first.
    fn entry(&mut self, line: &[u8]) -> Result<Option<Given>, LineError>
        requires held { IsHeld self.old }
        requires few { self.old.line ≤ 536870911 }
        ensures { EntryRead self.old line.now self.new result }
    {
        if self.spot.due != 0 {
            return self.triangle(line);
        }
        match self.spot.place {
            Place::App | Place::Buffer | Place::Dbase => self.command(line),
            _ => self.header(line),
        }
    }

    /// Reads a line: what it makes whole, where it makes anything whole. An error changes nothing that is held.
    pub fn line(&mut self, line: &[u8]) -> Result<Option<Given>, LineError>
        requires { IsHeld self.old }
        ensures { LineRead self.old line.now self.new result }
    {
        if self.line > MAX_LINES {
            return Err(LineError::Wrong(Why::Count));
        }
        if line.len() > MAX_LINE_LEN {
            return Err(LineError::Wrong(Why::Length));
        }
        if self.line > 1 {
            return self.entry(line);
        }
        if !is_first_line(line) {
            return Err(LineError::Wrong(Why::Version));
        }
        self.line = 2;
        Ok(None)
    }

    /// What is wrong with the end of the input, where `rest` stands behind the last line feed.
    pub fn end(&self, rest: &[u8]) -> Result<(), Refusal>
        ensures { result_err result ≡ end_refusal self.now.spot self.now.line rest.now }
    {
        let why = if rest.is_empty() {
            if self.spot.may_end() {
                return Ok(());
            }
            Why::Count
        } else if self.line > MAX_LINES {
            Why::Count
        } else {
            Why::Length
        };
        Err(Refusal {
            line: self.line,
            why,
        })
    }
}
