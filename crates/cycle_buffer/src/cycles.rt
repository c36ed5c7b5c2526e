//! The cycle buffers of all geodes, by their serials.
ghost use Rattle.std.specs.Prelude.{◌≡◌, ◌≢◌, ℕ, ◌+◌, ◌-◌, ◌≤◌, ◌<◌, max, true, List, [], length, Option, Some, None, is_some, is_ok, OnOk, OnErr, IfOk};
ghost use Rattle.std.specs.Prelude.{nat_lt};
ghost use Rattle.std.specs.Option.{option_map, option_map_or};
ghost use Rattle.std.specs.Ordering.{nat_cmp};
ghost use Rattle.std.specs.BTreeMap.{get};
ghost use Rattle.pf_model.specs.declared.geometry.Tri.{Tri};
ghost use Rattle.cycle_buffer.specs.Cycles.{cycle_at, written_at, free_at, copies_at, out_at, out_of, most_of};
ghost use Rattle.cycle_buffer.specs.Cycles.{fresh, cut, grown, rewritten, after_home, AreBetween};

use crate::cycle::Cycle;
use pf_io::NoMemory;
use pf_model::{Arrays, Geom, Tri};
use std::alloc::Global;
use std::collections::BTreeMap;
use std::marker::Model;

/// Cycle buffers by the serials of their geodes. A look-up takes time in the logarithm of their number.
#[derive(Debug)]
pub struct Cycles {
    alloc: Global,
    cycles: BTreeMap<u32, Cycle>,
    copies: u8,
    most: u32,
}

/// Written out, so that to drop one is a single call.
impl Drop for Cycles {
    fn drop(self) {
        let Self {
            alloc: _,
            cycles: _,
            copies: _,
            most: _,
        } = self;
    }
}

impl Model for Cycles {
    ghost use Rattle.cycle_buffer.specs.Cycles.{CyclesState, AreBetween};

    ghost Value = { CyclesState };

    ghost view = { λ c. record { cycles = c.cycles.entries; copies = c.copies; most = c.most } };

    ghost invariant = { λ c. AreBetween (record { cycles = c.cycles.entries; copies = c.copies; most = c.most }) };
}

impl Cycles {
    /// No cycles; each that is added gets so many copies.
    pub fn new(alloc: Global, copies: u8) -> Cycles
        ensures { result ≡ record { cycles = []; copies = copies; most = 0 } }
    {
        Cycles {
            alloc,
            cycles: BTreeMap::new(alloc),
            copies,
            most: 0,
        }
    }

    /// Adds a cycle of these triangles under a serial that has none, with all its copies free.
    pub fn add(&mut self, serial: u32, tris: &[Tri]) -> Result<(), NoMemory>
        requires absent { cycle_at self.old serial ≡ None }
        requires few { length tris.now ≤ 4096 }
        ensures added { OnOk result (cycle_at self.new serial ≡ Some (fresh tris.now self.old.copies)) }
        ensures most { OnOk result (self.new.most ≡ max self.old.most self.old.copies) }
        ensures others { (s : ℕ) → s ≢ serial → cycle_at self.new s ≡ cycle_at self.old s }
        ensures out { (s : ℕ) → out_at self.new s ≡ out_at self.old s }
        ensures copies { self.new.copies ≡ self.old.copies }
        ensures unchanged { OnErr result (self.new ≡ self.old) }
    {
        let cycle = Cycle::new(self.alloc, tris, self.copies)?;
        self.cycles.insert(serial, cycle)?;
        note(&mut self.most, u32::from(self.copies));
        Ok(())
    }

    /// Writes as many other triangles under a serial. It takes no memory.
    pub fn write(&mut self, serial: u32, tris: &[Tri])
        requires { option_map length (written_at self.old serial) ≡ Some (length tris.now) }
        ensures written { cycle_at self.new serial ≡ option_map (rewritten tris.now) (cycle_at self.old serial) }
        ensures others { (s : ℕ) → s ≢ serial → cycle_at self.new s ≡ cycle_at self.old s }
        ensures out { (s : ℕ) → out_at self.new s ≡ out_at self.old s }
        ensures counts { (s : ℕ) → copies_at self.new s ≡ copies_at self.old s }
        ensures copies { self.new.copies ≡ self.old.copies }
        ensures most { self.new.most ≡ self.old.most }
    {
        match self.cycles.get_mut(&serial) {
            Some(cycle) => cycle.write(tris),
            None => unreachable!(),
        }
    }

    /// Drops the cycle of a serial with its free copies; where there is none, nothing changes.
    pub fn remove(&mut self, serial: u32)
        ensures removed { cycle_at self.new serial ≡ None }
        ensures others { (s : ℕ) → s ≢ serial → cycle_at self.new s ≡ cycle_at self.old s }
        ensures none_out { out_at self.new serial ≡ 0 }
        ensures others_out { (s : ℕ) → s ≢ serial → out_at self.new s ≡ out_at self.old s }
        ensures copies { self.new.copies ≡ self.old.copies }
        ensures most { self.new.most ≡ self.old.most }
    {
        self.cycles.remove(&serial);
    }

    /// Takes back a copy under a serial, where the serial is there, the length is that of its cycle and a copy is out;
    /// else the copy is dropped. It takes no memory.
    pub fn home(&mut self, serial: u32, array: Geom)
        ensures home { cycle_at self.new serial ≡ option_map (after_home array) (cycle_at self.old serial) }
        ensures others { (s : ℕ) → s ≢ serial → cycle_at self.new s ≡ cycle_at self.old s }
        ensures came { option_map length (written_at self.old serial) ≡ Some (length array)
            → out_at self.new serial ≡ out_at self.old serial - 1 }
        ensures others_out { (s : ℕ) → s ≢ serial → out_at self.new s ≡ out_at self.old s }
        ensures no_more_out { (s : ℕ) → out_at self.new s ≤ out_at self.old s }
        ensures counts { (s : ℕ) → copies_at self.new s ≡ copies_at self.old s }
        ensures copies { self.new.copies ≡ self.old.copies }
        ensures most { self.new.most ≡ self.old.most }
    {
        if let Some(cycle) = self.cycles.get_mut(&serial) {
            cycle.take_home(array);
        }
    }

    /// The greatest number of copies that a cycle has had, and 0 before the first. No cycle has more, nor fewer than a
    /// new one gets.
    pub fn most(&self) -> u32
        ensures value { result ≡ self.now.most }
        ensures between { AreBetween self.now }
    {
        self.most
    }
}

/// Notes that a cycle has had so many copies.
fn note(most: &mut u32, copies: u32)
    ensures { most.new ≡ max most.old copies }
{
    if *most < copies {
        *most = copies;
    }
}

/// Whether the cycle of a serial has a free copy.
fn has_free(cycles: &BTreeMap<u32, Cycle>, serial: u32) -> bool
    requires { is_some (get nat_cmp cycles.now serial) ≡ true }
    ensures { option_map (λ c. nat_lt 0 c.free) (get nat_cmp cycles.now serial) ≡ Some result }
{
    match cycles.get(&serial) {
        Some(cycle) => 0 < cycle.free(),
        None => unreachable!(),
    }
}

/// Adds a free copy to the cycle of a serial, and tells how many it has now.
fn grow(cycles: &mut BTreeMap<u32, Cycle>, serial: u32) -> Result<u32, NoMemory>
    requires { is_some (get nat_cmp cycles.old serial) ≡ true }
    ensures cycle { OnOk result (get nat_cmp cycles.new serial ≡ option_map grown (get nat_cmp cycles.old serial)) }
    ensures copies { IfOk result (λ n. option_map (λ c. c.copies) (get nat_cmp cycles.new serial) ≡ Some n) }
    ensures others { (s : ℕ) → s ≢ serial → get nat_cmp cycles.new s ≡ get nat_cmp cycles.old s }
    ensures unchanged { OnErr result (cycles.new.entries ≡ cycles.old.entries) }
{
    match cycles.get_mut(&serial) {
        Some(cycle) => {
            cycle.grow()?;
            Ok(cycle.copies())
        }
        None => unreachable!(),
    }
}

/// Takes a free copy out of the cycle of a serial.
fn cut(cycles: &mut BTreeMap<u32, Cycle>, serial: u32) -> Geom
    requires { 0 < option_map_or (λ c. c.free) (get nat_cmp cycles.old serial) 0 }
    ensures array { option_map (λ c. c.written) (get nat_cmp cycles.old serial) ≡ Some result }
    ensures cycle { get nat_cmp cycles.new serial ≡ option_map cut (get nat_cmp cycles.old serial) }
    ensures out { option_map_or out_of (get nat_cmp cycles.new serial) 0
        ≡ option_map_or out_of (get nat_cmp cycles.old serial) 0 + 1 }
    ensures others { (s : ℕ) → s ≢ serial → get nat_cmp cycles.new s ≡ get nat_cmp cycles.old s }
{
    match cycles.get_mut(&serial) {
        Some(cycle) => cycle.cut(),
        None => unreachable!(),
    }
}

impl Arrays for Cycles {
    ghost free = { free_at };

    ghost written = { written_at };

    ghost out = { out_at };

    ghost most = { most_of };

    fn ready(&mut self, serial: u32) -> Result<(), NoMemory>
        requires { is_some (written_at self.old serial) ≡ true }
        ensures ready { OnOk result (0 < free_at self.new serial) }
        ensures was_ready { 0 < free_at self.old serial → OnOk result (self.new ≡ self.old) × (is_ok result ≡ true) }
        ensures others { (s : ℕ) → s ≢ serial → free_at self.new s ≡ free_at self.old s }
        ensures written { (s : ℕ) → written_at self.new s ≡ written_at self.old s }
        ensures out { (s : ℕ) → out_at self.new s ≡ out_at self.old s }
        ensures most { most_of self.new ≤ max (most_of self.old) (out_at self.old serial + 1) }
        ensures no_less { self.old.most ≤ self.new.most }
        ensures unchanged { OnErr result (self.new ≡ self.old) }
        ensures grown { free_at self.old serial ≡ 0 → OnOk result (
            (cycle_at self.new serial ≡ option_map grown (cycle_at self.old serial))
            × (self.new.most ≡ max self.old.most (copies_at self.new serial))) }
        ensures other_cycles { (s : ℕ) → s ≢ serial → cycle_at self.new s ≡ cycle_at self.old s }
        ensures copies { self.new.copies ≡ self.old.copies }
    {
        if has_free(&self.cycles, serial) {
            return Ok(());
        }
        let copies = grow(&mut self.cycles, serial)?;
        note(&mut self.most, copies);
        Ok(())
    }

    fn array(&mut self, serial: u32, geom: &Geom) -> Geom
        requires free { 0 < free_at self.old serial }
        requires written { written_at self.old serial ≡ Some geom.now }
        ensures equal { result ≡ geom.now }
        ensures less { free_at self.new serial + 1 ≡ free_at self.old serial }
        ensures others { (s : ℕ) → s ≢ serial → free_at self.new s ≡ free_at self.old s }
        ensures written { (s : ℕ) → written_at self.new s ≡ written_at self.old s }
        ensures out { out_at self.new serial ≡ out_at self.old serial + 1 }
        ensures others_out { (s : ℕ) → s ≢ serial → out_at self.new s ≡ out_at self.old s }
        ensures cycle { cycle_at self.new serial ≡ option_map cut (cycle_at self.old serial) }
        ensures other_cycles { (s : ℕ) → s ≢ serial → cycle_at self.new s ≡ cycle_at self.old s }
        ensures copies { self.new.copies ≡ self.old.copies }
        ensures most { most_of self.new ≡ most_of self.old }
        ensures same_most { self.new.most ≡ self.old.most }
    {
        cut(&mut self.cycles, serial)
    }
}
