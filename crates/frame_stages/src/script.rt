//! The lines of the application's section, and how it goes through them.
ghost use Rattle.std.specs.Prelude.{◌≡◌, ◌+◌, ◌<◌, ◌≤◌, ◌++◌, ◌∷◌, [], max, true, false, length, Some, OnOk, OnErr};
ghost use Rattle.pf_model.specs.declared.lines.AppLine.{AppLine};
ghost use Rattle.frame_stages.specs.Scripts.{next_step, IsNext, passed, Exchanged, most_lines};

use pf_io::NoMemory;
use pf_model::{AppLine, AppStep, View};
use std::collections::VecDeque;
use std::marker::Model;
use std::mem;

/// How many lines a section may have.
pub(crate) const MOST_LINES: usize = 2_147_483_648;

/// What the next line asks for; the edit itself stays with the line.
#[derive(Clone, Copy, Debug, PartialEq, Eq)]
pub(crate) enum Next {
    Edit,
    View(u8, View),
    Sync,
    Frame,
    Wait(u32),
    /// There is no line left.
    Close,
}

/// The lines that are left of the application's section, how many were passed, and the greatest wait among these. Lines that
/// were passed leave memory.
#[derive(Drop)]
pub(crate) struct Script {
    rest: VecDeque<AppLine>,
    at: u32,
    need: u32,
}

impl Model for Script {
    ghost use Rattle.frame_stages.specs.Scripts.{ScriptState, IsScript};

    ghost Value = { ScriptState };

    ghost view = { λ s. record { rest = s.rest.items; at = s.at; need = s.need } };

    ghost invariant = { λ s. IsScript s.rest.items s.at };
}

/// What a line asks for.
fn next_of(line: &AppLine) -> Next
    ensures { IsNext result (Some line.now.step) }
{
    match &line.step {
        AppStep::Edit(_) => Next::Edit,
        AppStep::View(channel, view) => Next::View(*channel, *view),
        AppStep::Sync => Next::Sync,
        AppStep::Frame => Next::Frame,
        AppStep::Wait(merges) => Next::Wait(*merges),
    }
}

/// The greater of two numbers.
fn greater(a: u32, b: u32) -> u32
    ensures { result ≡ max a b }
{
    a.max(b)
}

impl Script {
    /// A section of which no line was passed.
    pub(crate) fn new(lines: Vec<AppLine>) -> Script
        requires few { length lines.items ≤ most_lines }
        ensures { result ≡ record { rest = lines.items; at = 0; need = 0 } }
    {
        Script {
            rest: VecDeque::from(lines),
            at: 0,
            need: 0,
        }
    }

    /// The greatest wait that was passed.
    pub(crate) fn need(&self) -> u32
        ensures { result ≡ self.now.need }
    {
        self.need
    }

    /// What the next line asks for.
    pub(crate) fn next(&self) -> Next
        ensures next { IsNext result (next_step self.now.rest) }
        ensures few { self.now.at + length self.now.rest ≤ most_lines }
    {
        match self.rest.front() {
            Some(line) => next_of(line),
            None => Next::Close,
        }
    }

    /// Passes the next line.
    pub(crate) fn pass(&mut self)
        requires { 0 < length self.old.rest }
        ensures { self.new ≡ passed self.old }
    {
        let _ = self.rest.pop_front();
        self.at += 1;
    }

    /// Passes the next line, which waits for so many merges.
    pub(crate) fn pass_wait(&mut self, merges: u32)
        requires { 0 < length self.old.rest }
        ensures { self.new ≡ record (passed self.old) { need = max self.old.need merges } }
    {
        let _ = self.rest.pop_front();
        self.at += 1;
        self.need = greater(self.need, merges);
    }

    /// Exchanges the step of the next line.
    pub(crate) fn exchange(&mut self, step: AppStep) -> AppStep
        requires { 0 < length self.old.rest }
        ensures exchanged { Exchanged self.old.rest step result self.new.rest }
        ensures same { self.new ≡ record self.old { rest = self.new.rest } }
    {
        match self.rest.front_mut() {
            Some(line) => mem::replace(&mut line.step, step),
            None => unreachable!(),
        }
    }

    /// Whether no line is left.
    pub(crate) fn is_empty(&self) -> bool
        ensures yes { result ≡ true → self.now.rest ≡ [] }
        ensures no { result ≡ false → 0 < length self.now.rest }
    {
        self.rest.is_empty()
    }

    /// Whether the section may have one line more.
    pub(crate) fn has_room(&self) -> bool
        ensures yes { result ≡ true → self.now.at + length self.now.rest < most_lines }
        ensures no { result ≡ false → most_lines ≤ self.now.at + length self.now.rest }
    {
        self.rest.len() < MOST_LINES - self.at as usize
    }

    /// Puts a line behind those that are left.
    pub(crate) fn give(&mut self, line: AppLine) -> Result<(), NoMemory>
        requires { self.old.at + length self.old.rest < most_lines }
        ensures given { OnOk result (self.new ≡ record self.old { rest = self.old.rest ++ line ∷ [] }) }
        ensures same { OnErr result (self.new ≡ self.old) }
    {
        match self.rest.push_back(line) {
            Ok(()) => Ok(()),
            Err(_) => Err(NoMemory),
        }
    }
}
