//! Update lists.
ghost use Rattle.std.specs.Prelude.{◌≡◌, ◌<◌, [], map, length, slice_get, slice_set, Some, IfOk};
ghost use Rattle.std.specs.Option.{option_map};
ghost use Rattle.std.specs.Vec.{vec_len, vec_capacity};
ghost use Rattle.pf_model.specs.Limits.{IsRising};

use pf_io::NoMemory;
use pf_model::Node;
use std::alloc::Global;
use std::marker::Model;
use std::mem;

/// Ids in rising order, each with its node or none. It holds memory for its entries and for no more.
#[derive(Debug)]
pub struct Updates {
    entries: Vec<(u16, Option<Node>)>,
}

/// Written out, so that to drop one is a single call.
impl Drop for Updates {
    fn drop(self) {
        let Self { entries: _ } = self;
    }
}

impl Model for Updates {
    ghost use Rattle.std.specs.Prelude.{◌≡◌, map};
    ghost use Rattle.std.specs.Vec.{vec_len, vec_capacity};
    ghost use Rattle.pf_model.specs.Copies.{UpdateList};
    ghost use Rattle.pf_model.specs.Limits.{IsRising};

    ghost Value = { UpdateList };

    ghost view = { λ u. u.entries.items };

    ghost invariant = { λ u. IsRising (map (λ e. e.0) u.entries.items) × (vec_capacity u.entries ≡ vec_len u.entries) };
}

impl Updates {
    /// The empty list. It takes no memory.
    pub fn new(alloc: Global) -> Updates
        ensures { result ≡ [] }
    {
        Updates {
            entries: Vec::new(alloc),
        }
    }

    /// The list of these entries.
    pub(crate) fn of(entries: Vec<(u16, Option<Node>)>) -> Updates
        requires rising { IsRising (map (λ e. e.0) entries.items) }
        requires room { vec_capacity entries ≡ vec_len entries }
        ensures { result ≡ entries.items }
    {
        Updates { entries }
    }

    /// The number of ids.
    pub fn len(&self) -> usize
        ensures value { result ≡ length self.now }
        ensures rising { IsRising (map (λ e. e.0) self.now) }
    {
        self.entries.len()
    }

    /// The id of an entry, or none past the end.
    pub fn id(&self, i: usize) -> Option<u16>
        ensures { result ≡ option_map (λ e. e.0) (slice_get self.now i) }
    {
        match self.entries.get(i) {
            Some(entry) => Some(entry.0),
            None => None,
        }
    }

    /// Exchanges the node or none of an entry with what `place` holds. It takes no memory.
    pub fn swap(&mut self, i: usize, place: &mut Option<Node>)
        requires { i < length self.old }
        ensures ids { map (λ e. e.0) self.new ≡ map (λ e. e.0) self.old }
        ensures put { map (λ e. e.1) self.new ≡ slice_set (map (λ e. e.1) self.old) i place.old }
        ensures taken { option_map (λ e. e.1) (slice_get self.old i) ≡ Some place.new }
    {
        swap_in(self.entries.as_mut_slice(), i, place);
    }

    /// An equal list.
    pub fn copy(&self) -> Result<Updates, NoMemory>
        ensures { IfOk result (λ u. u ≡ self.now) }
    {
        let entries = copied_entries(*self.entries.allocator(), self.entries.as_slice())?;
        Ok(Updates { entries })
    }
}

/// Exchanges the node of an entry.
fn swap_in(entries: &mut [(u16, Option<Node>)], i: usize, place: &mut Option<Node>)
    requires { i < length entries.old }
    ensures ids { map (λ e. e.0) entries.new ≡ map (λ e. e.0) entries.old }
    ensures put { map (λ e. e.1) entries.new ≡ slice_set (map (λ e. e.1) entries.old) i place.old }
    ensures taken { option_map (λ e. e.1) (slice_get entries.old i) ≡ Some place.new }
{
    mem::swap(&mut entries[i].1, place);
}

/// An equal node, or none.
fn copied_node(node: &Option<Node>) -> Result<Option<Node>, NoMemory>
    ensures { IfOk result (λ n. n ≡ node.now) }
{
    match node {
        Some(node) => Ok(Some(node.copy()?)),
        None => Ok(None),
    }
}

/// Equal entries.
fn copied_entries(
    alloc: Global,
    entries: &[(u16, Option<Node>)],
) -> Result<Vec<(u16, Option<Node>)>, NoMemory>
    ensures entries { IfOk result (λ v. v.items ≡ entries.now) }
    ensures room { IfOk result (λ v. vec_capacity v ≡ vec_len v) }
{
    let mut copied = Vec::with_capacity(alloc, entries.len())?;
    for entry in entries {
        copied.push_reserved((entry.0, copied_node(&entry.1)?));
    }
    Ok(copied)
}
