//! A command, while its triangle lines are read.
ghost use Rattle.std.specs.Prelude.{◌≡◌, ◌≤◌, [], length, Some, IsSome};
ghost use Rattle.play_format.specs.Making.{app_step_of, base_step_of};

use pf_model::{AppLine, BaseLine, Geom, Tri};
use play_format::{Command, app_step_of, base_step_of};
use std::alloc::Global;
use std::mem;

/// A command: the number of its line, its numbers, and the triangles of the lines behind it that were read.
#[derive(Debug, Drop)]
pub struct Opened {
    pub line: u32,
    pub command: Command,
    pub numbers: Vec<i32>,
    pub tris: Vec<Tri>,
}

impl Opened {
    /// Nothing read. `line` and `command` are those of no line.
    pub fn new(alloc: Global) -> Opened
        ensures { result.tris.items ≡ [] }
    {
        Opened {
            line: 0,
            command: Command::App,
            numbers: Vec::new(alloc),
            tris: Vec::new(alloc),
        }
    }

    /// Takes the triangles.
    fn take_geom(&mut self, alloc: Global) -> Geom
        requires { length self.old.tris.items ≤ 4096 }
        ensures value { result ≡ self.old.tris.items }
        ensures left { self.new.tris.items ≡ [] }
        ensures command { self.new.command ≡ self.old.command }
        ensures numbers { self.new.numbers.items ≡ self.old.numbers.items }
        ensures line { self.new.line ≡ self.old.line }
    {
        match Geom::new(mem::replace(&mut self.tris, Vec::new(alloc))) {
            Ok(geom) => geom,
            Err(_) => unreachable!(),
        }
    }

    /// Takes the line of the application that the command and its triangles make.
    pub fn take_app_line(&mut self, alloc: Global) -> AppLine
        requires few { length self.old.tris.items ≤ 4096 }
        requires some { IsSome (app_step_of self.old.command self.old.numbers.items self.old.tris.items) }
        ensures line { result.line ≡ self.old.line }
        ensures step { app_step_of self.old.command self.old.numbers.items self.old.tris.items ≡ Some result.step }
        ensures left { self.new.tris.items ≡ [] }
    {
        let geom = self.take_geom(alloc);
        match app_step_of(alloc, self.command, &self.numbers, geom) {
            Some(step) => AppLine {
                line: self.line,
                step,
            },
            None => unreachable!(),
        }
    }

    /// Takes the step of a block that the command and its triangles make.
    pub fn take_base_line(&mut self, alloc: Global) -> BaseLine
        requires few { length self.old.tris.items ≤ 4096 }
        requires some { IsSome (base_step_of self.old.command self.old.numbers.items self.old.tris.items) }
        ensures line { result.line ≡ self.old.line }
        ensures step { base_step_of self.old.command self.old.numbers.items self.old.tris.items ≡ Some result.step }
        ensures left { self.new.tris.items ≡ [] }
        ensures command { self.new.command ≡ self.old.command }
    {
        let geom = self.take_geom(alloc);
        match base_step_of(alloc, self.command, &self.numbers, geom) {
            Some(step) => BaseLine {
                line: self.line,
                step,
            },
            None => unreachable!(),
        }
    }
}
