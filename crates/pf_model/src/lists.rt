//! Short lists of numbers: the children of a node, the ranges of a level of detail, the times of a sequence.
ghost use Rattle.std.specs.Prelude.{◌≡◌, ℕ, ◌≤◌, ◌<◌, List, [], length, slice_get, slice_set, IfOk, OnOk, OnErr, Some};
ghost use Rattle.std.specs.Prelude.{◌+◌, ◌-◌, ◌∷◌, ◌++◌, ◌==◌, ◌↔◌, IsOk, IfErr};
ghost use Rattle.std.specs.Vec.{vec_len, vec_capacity};
ghost use Rattle.std.specs.List.{insert, remove, position};
ghost use Rattle.pf_model.specs.Children.{replace_first, drop_first};
ghost use Rattle.pf_model.specs.Room.{SerialsSoFar};

use pf_io::NoMemory;
use std::alloc::Global;
use std::marker::Model;

/// A list of at most `LIMIT` items.
#[derive(Debug, Drop)]
pub struct ShortList<T, const LIMIT: usize> {
    items: Vec<T>,
}

impl<T, const LIMIT: usize> Model for ShortList<T, LIMIT> {
    ghost Value = { List T };

    ghost view = { λ a. a.items.items };

    ghost invariant = { λ a. length a.items.items ≤ LIMIT };
}

/// The children of a node, in order; a child may stand several times.
pub type Ids = ShortList<u16, 256>;

/// The ranges of a level of detail, in 1/4096 unit.
pub type Ranges = ShortList<u32, 257>;

/// The times of the children of a sequence, in frames.
pub type Times = ShortList<u16, 256>;

impl<T: Copy, const LIMIT: usize> ShortList<T, LIMIT> {
    /// An empty list.
    pub fn new(alloc: Global) -> Self
        ensures { result ≡ [] }
    {
        ShortList {
            items: Vec::new(alloc),
        }
    }

    /// The number of items.
    pub fn len(&self) -> usize
        ensures value { result ≡ length self.now }
        ensures bound { result ≤ LIMIT }
    {
        self.items.len()
    }

    /// The items.
    pub fn as_slice(&self) -> &[T]
        ensures value { result.now ≡ self.now }
        ensures bound { length self.now ≤ LIMIT }
    {
        self.items.as_slice()
    }

    /// The item at a place, or none past the end.
    pub fn at(&self, i: usize) -> Option<T>
        ensures { result ≡ slice_get self.now i }
    {
        self.items.get(i).copied()
    }

    /// Puts an item before place `i`, or at the end where `i` is the length.
    pub fn insert(&mut self, i: usize, x: T) -> Result<(), NoMemory>
        requires place { i ≤ length self.old }
        requires room { length self.old < LIMIT }
        ensures ok { OnOk result (self.new ≡ insert self.old i x) }
        ensures err { OnErr result (self.new ≡ self.old) }
    {
        self.items.insert(i, x)?;
        Ok(())
    }

    /// Replaces the item at place `i`.
    pub fn set(&mut self, i: usize, x: T)
        requires { i < length self.old }
        ensures { self.new ≡ slice_set self.old i x }
    {
        self.items[i] = x;
    }

    /// Takes out the item at place `i`.
    pub fn remove(&mut self, i: usize) -> T
        requires { i < length self.old }
        ensures item { slice_get self.old i ≡ Some result }
        ensures after { self.new ≡ remove self.old i }
    {
        self.items.remove(i)
    }

    /// An equal list.
    pub fn copy(&self) -> Result<Self, NoMemory>
        ensures { IfOk result (λ c. c ≡ self.now) }
    {
        let mut items = Vec::new(*self.items.allocator());
        items.extend_from_slice(self.items.as_slice())?;
        Ok(ShortList { items })
    }
}

/// The place of the first that is this child.
fn place_in(children: &Ids, child: u16) -> Option<usize>
    ensures { result ≡ position (λ c. c == child) children.now }
{
    children.as_slice().iter().position(|c| *c == child)
}

impl Ids {
    /// The same children with `by` at the first place that holds the child.
    #[tactic(auto, using(crate::proofs::Entries::replace_found, crate::proofs::Entries::replace_none))]
    pub fn with_first_replaced(&self, child: u16, by: u16) -> Result<Ids, NoMemory>
        ensures { IfOk result (λ cs. cs ≡ replace_first child by self.now) }
    {
        let mut copy = self.copy()?;
        if let Some(place) = place_in(self, child) {
            copy.set(place, by);
        }
        Ok(copy)
    }

    /// The same children without the first that is this child.
    #[tactic(auto, using(crate::proofs::Entries::drop_found, crate::proofs::Entries::drop_none))]
    pub fn without_first(&self, child: u16) -> Result<Ids, NoMemory>
        ensures { IfOk result (λ cs. cs ≡ drop_first child self.now) }
    {
        let mut copy = self.copy()?;
        if let Some(place) = place_in(self, child) {
            copy.remove(place);
        }
        Ok(copy)
    }
}

/// The serials of freed nodes, in the order of their burial. Its type keeps that it has room for no more than it holds.
#[derive(Debug, Drop)]
pub struct Serials {
    items: Vec<u32>,
}

impl Model for Serials {
    ghost Value = { List ℕ };

    ghost view = { λ s. s.items.items };

    ghost invariant = { λ s. vec_capacity s.items ≤ vec_len s.items };
}

impl Serials {
    /// Room for just this many serials.
    pub fn with_room(alloc: Global, n: usize) -> Result<SerialsBuilder, NoMemory>
        ensures { IfOk result (λ b. b ≡ record { items = []; spare = n }) }
    {
        Ok(SerialsBuilder {
            items: Vec::with_capacity(alloc, n)?,
        })
    }

    /// The number of serials.
    pub fn len(&self) -> usize
        ensures { result ≡ length self.now }
    {
        self.items.len()
    }

    /// For how many serials the list keeps room: for those that it holds.
    pub fn room(&self) -> usize
        ensures { result ≡ length self.now }
    {
        self.items.capacity()
    }

    /// The serials.
    pub fn as_slice(&self) -> &[u32]
        ensures { result.now ≡ self.now }
    {
        self.items.as_slice()
    }

    /// The serial at a place, or none past the end.
    pub fn at(&self, i: usize) -> Option<u32>
        ensures { result ≡ slice_get self.now i }
    {
        self.items.get(i).copied()
    }
}

/// A list of serials that is being made, with room for those to come.
#[derive(Debug, Drop)]
pub struct SerialsBuilder {
    items: Vec<u32>,
}

impl Model for SerialsBuilder {
    ghost Value = { SerialsSoFar };

    ghost view = { λ b. record { items = b.items.items; spare = vec_capacity b.items - vec_len b.items } };
}

impl SerialsBuilder {
    /// How many more serials have room.
    pub fn spare(&self) -> usize
        ensures { result ≡ self.now.spare }
    {
        self.items.capacity() - self.items.len()
    }

    /// Appends a serial.
    pub fn push(&mut self, s: u32)
        requires { 0 < self.old.spare }
        ensures items { self.new.items ≡ self.old.items ++ s ∷ [] }
        ensures spare { self.new.spare + 1 ≡ self.old.spare }
    {
        self.items.push_reserved(s);
    }

    /// The list, where all room is used; else the builder comes back.
    pub fn finish(self) -> Result<Serials, SerialsBuilder>
        ensures list { IfOk result (λ serials. serials ≡ self.items) }
        ensures full { IsOk result ↔ self.spare ≡ 0 }
        ensures back { IfErr result (λ builder. builder ≡ self) }
    {
        if self.spare() != 0 {
            return Err(self);
        }
        let SerialsBuilder { items } = self;
        Ok(Serials { items })
    }
}
