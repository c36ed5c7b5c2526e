//! The nodes that have a node as a child.
ghost use Rattle.std.specs.Prelude.{◌≡◌, ◌==◌, [], ◌∷◌, ◌++◌, ℕ, false, not, OnOk, OnErr};
ghost use Rattle.std.specs.List.{filter};
ghost use Rattle.pf_edits.specs.Ways.{is_in};

use pf_io::NoMemory;
use std::alloc::Global;
use std::marker::Model;

/// The ids of the nodes that have a node as a child.
#[derive(Debug, Drop)]
pub(crate) struct Parents {
    ids: Vec<u16>,
}

impl Model for Parents {
    ghost use Rattle.std.specs.Prelude.{ℕ, List};

    ghost Value = { List ℕ };

    ghost view = { λ p. p.ids.items };
}

impl Parents {
    /// No parents.
    pub(crate) fn new(alloc: Global) -> Parents
        ensures { result ≡ [] }
    {
        Parents {
            ids: Vec::new(alloc),
        }
    }

    /// The parents.
    pub(crate) fn as_slice(&self) -> &[u16]
        ensures { result.now ≡ self.now }
    {
        self.ids.as_slice()
    }

    /// Notes a parent.
    pub(crate) fn push(&mut self, id: u16) -> Result<(), NoMemory>
        ensures ok { OnOk result (self.new ≡ self.old ++ id ∷ []) }
        ensures err { OnErr result (self.new ≡ self.old) }
    {
        self.ids.push(id)?;
        Ok(())
    }

    /// Forgets a parent.
    pub(crate) fn forget(&mut self, id: u16)
        ensures gone { is_in id self.new ≡ false }
        ensures others { (b : ℕ) → (b == id) ≡ false → is_in b self.new ≡ is_in b self.old }
    {
        drop_all(&mut self.ids, id);
    }
}

/// Drops each id that is this one.
fn drop_all(ids: &mut Vec<u16>, id: u16)
    ensures { ids.new.items ≡ filter (λ b. not (b == id)) ids.old.items }
{
    ids.retain(|other| *other != id);
}
