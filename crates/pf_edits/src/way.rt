//! The way up from a node: the nodes that were met, each after all that are above it. No more marks are written than the
//! ids that were noted ask, so that a new way is quickly made.
ghost use Rattle.std.specs.Prelude.{◌≡◌, ◌<◌, ℕ, false, true, [], ◌∷◌, if◌then◌else◌, reverse, length, slice_index_or, IfOk};
ghost use Rattle.pf_edits.specs.Ways.{is_in, IsEachOnce};

use pf_io::NoMemory;
use pf_model::write_to;
use std::alloc::Global;
use std::marker::Model;

/// The number of ids.
const IDS: usize = 65_536;

/// The nodes of a way, each once, and for each id whether it is among them. It has room for all ids. Contracts see the
/// nodes with the last that was met first.
#[derive(Debug, Drop)]
pub(crate) struct Way {
    /// Under each id whether it is noted. There is memory for the marks of all ids, and as many are written as the
    /// greatest id that was ever noted asks.
    marks: Vec<bool>,
    ids: Vec<u16>,
}

impl Model for Way {
    ghost use Rattle.std.specs.Prelude.{ℕ, List, reverse};
    ghost use Rattle.std.specs.Vec.{vec_capacity};
    ghost use Rattle.pf_edits.specs.Ways.{IsMarked};

    ghost Value = { List ℕ };

    ghost view = { λ w. reverse w.ids.items };

    ghost invariant = { λ w. IsMarked w.marks.items w.ids.items (vec_capacity w.marks) (vec_capacity w.ids) };
}

impl Way {
    /// A way without nodes. It takes the memory of all marks and ids.
    pub(crate) fn new(alloc: Global) -> Result<Way, NoMemory>
        ensures { IfOk result (λ w. w ≡ []) }
    {
        Ok(Way {
            marks: Vec::with_capacity(alloc, IDS)?,
            ids: Vec::with_capacity(alloc, IDS)?,
        })
    }

    /// Whether a node is on the way.
    pub(crate) fn contains(&self, id: u16) -> bool
        ensures { result ≡ is_in id self.now }
    {
        match self.marks.get(usize::from(id)) {
            Some(mark) => *mark,
            None => false,
        }
    }

    /// The nodes as they were met, each once.
    pub(crate) fn as_slice(&self) -> &[u16]
        ensures nodes { reverse result.now ≡ self.now }
        ensures once { IsEachOnce self.now }
    {
        self.ids.as_slice()
    }

    /// Notes a node that is not on the way.
    fn note(&mut self, id: u16)
        requires { is_in id self.old ≡ false }
        ensures { self.new ≡ id ∷ self.old }
    {
        write_to(&mut self.marks, usize::from(id));
        self.marks[usize::from(id)] = true;
        match self.ids.push(id) {
            Ok(()) => {}
            Err(_) => unreachable!(),
        }
    }

    /// Notes a node, once.
    pub(crate) fn add(&mut self, id: u16)
        ensures { self.new ≡ (if is_in id self.old then self.old else id ∷ self.old) }
    {
        if !self.contains(id) {
            self.note(id);
        }
    }

    /// Forgets all nodes.
    pub(crate) fn clear(&mut self)
        ensures { self.new ≡ [] }
    {
        unmark(self.marks.as_mut_slice(), self.ids.as_slice());
        self.ids.clear();
    }
}

/// Takes the marks of these ids away; each of them has one.
fn unmark(marks: &mut [bool], ids: &[u16])
    requires { (b : ℕ) → is_in b ids.now ≡ true → b < length marks.old }
    ensures { ((b : ℕ) → slice_index_or marks.old b false ≡ true → is_in b ids.now ≡ true)
        → (b : ℕ) → slice_index_or marks.new b false ≡ false }
{
    for id in ids {
        marks[usize::from(*id)] = false;
    }
}
