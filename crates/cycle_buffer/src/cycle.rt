//! The cycle buffer of one geode.
ghost use Rattle.std.specs.Prelude.{◌≡◌, ◌+◌, ◌-◌, ◌≤◌, ◌<◌, length, IfOk, OnOk, OnErr};
ghost use Rattle.cycle_buffer.specs.Cycles.{fresh, grown, cut, came_home, after_home, rewritten, out_of};

use pf_io::NoMemory;
use pf_model::{Geom, Tri};
use std::alloc::Global;
use std::marker::Model;

/// A cycle buffer: what was last written, and copies of it. A copy goes out with a cut and comes home; until then it is
/// not written to. It holds room for its copies and for no more.
#[derive(Debug, Drop)]
pub struct Cycle {
    written: Geom,
    free: Vec<Geom>,
    copies: u32,
}

impl Model for Cycle {
    ghost use Rattle.std.specs.Vec.{vec_len, vec_capacity};
    ghost use Rattle.cycle_buffer.specs.Cycles.{CycleState, IsCycle};

    ghost Value = { CycleState };

    ghost view = { λ c. record { written = c.written; free = vec_len c.free; copies = c.copies } };

    ghost invariant = { λ c. IsCycle c.written c.free.items c.copies (vec_capacity c.free) };
}

/// The geometry of these triangles.
fn geom_of(alloc: Global, tris: &[Tri]) -> Result<Geom, NoMemory>
    requires { length tris.now ≤ 4096 }
    ensures { IfOk result (λ g. g ≡ tris.now) }
{
    Geom::new(Vec::from_slice(alloc, tris)?)
}

impl Cycle {
    /// A cycle with so many copies of these triangles, all of them free. It takes the memory of all copies.
    pub fn new(alloc: Global, tris: &[Tri], copies: u8) -> Result<Cycle, NoMemory>
        requires { length tris.now ≤ 4096 }
        ensures { IfOk result (λ c. c ≡ fresh tris.now copies) }
    {
        let written = geom_of(alloc, tris)?;
        let mut free = Vec::with_capacity(alloc, copies as usize)?;
        for made in 0..copies {
            free.push_reserved(written.copy()?);
        }
        Ok(Cycle {
            written,
            free,
            copies: u32::from(copies),
        })
    }

    /// Adds one free copy.
    pub fn grow(&mut self) -> Result<(), NoMemory>
        ensures ok { OnOk result (self.new ≡ grown self.old) }
        ensures err { OnErr result (self.new ≡ self.old) }
    {
        let copies = self.copies.checked_add(1).ok_or(NoMemory)?;
        let array = self.written.copy()?;
        self.free.reserve_exact(copies as usize - self.free.len())?;
        self.free.push_reserved(array);
        self.copies = copies;
        Ok(())
    }

    /// Writes as many other triangles. It takes no memory.
    pub fn write(&mut self, tris: &[Tri])
        requires { length tris.now ≡ length self.old.written }
        ensures { self.new ≡ rewritten tris.now self.old }
    {
        self.written.write(tris);
    }

    /// Takes a free copy of what was last written. It takes no memory.
    pub fn cut(&mut self) -> Geom
        requires { 0 < self.old.free }
        ensures array { result ≡ self.old.written }
        ensures cycle { self.new ≡ cut self.old }
        ensures out { out_of self.new ≡ out_of self.old + 1 }
    {
        match self.free.pop() {
            Some(mut array) => {
                array.write(self.written.as_slice());
                array
            }
            None => unreachable!(),
        }
    }

    /// Takes back a copy that is out. It takes no memory.
    pub fn give_back(&mut self, array: Geom)
        requires length { length array ≡ length self.old.written }
        requires out { self.old.free < self.old.copies }
        ensures { self.new ≡ came_home self.old }
    {
        self.free.push_reserved(array);
    }

    /// Takes back a copy, where it is as long as the cycle's triangles and a copy is out; else drops it.
    pub(crate) fn take_home(&mut self, array: Geom)
        ensures { self.new ≡ after_home array self.old }
    {
        if array.len() == self.written().len() && self.free() < self.copies() {
            self.give_back(array);
        }
    }

    /// The triangles last written.
    pub fn written(&self) -> &[Tri]
        ensures { result.now ≡ self.now.written }
    {
        self.written.as_slice()
    }

    /// The number of free copies.
    pub fn free(&self) -> u32
        ensures { result ≡ self.now.free }
    {
        let _copies = self.copies;
        self.free.len() as u32
    }

    /// The number of copies.
    pub fn copies(&self) -> u32
        ensures { result ≡ self.now.copies }
    {
        self.copies
    }
}
