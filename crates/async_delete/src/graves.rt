//! The graves of deleted nodes.
ghost use Rattle.std.specs.Prelude.{◌≡◌, ◌+◌, ◌≤◌, ◌<◌, max, [], ◌∷◌, ◌++◌, length, OnOk, OnErr};
ghost use Rattle.std.specs.List.{count_by};
ghost use Rattle.std.specs.Vec.{vec_len, vec_capacity};
ghost use Rattle.pf_model.specs.Copies.{is_due, freed_by, graves_kept};
ghost use Rattle.async_delete.specs.Burials.{grave};

use pf_io::NoMemory;
use pf_model::{Gone, SerialsBuilder};
use std::alloc::Global;
use std::marker::Model;

/// What is left of a deleted node, and the last frame that may name it.
#[derive(Debug, Drop)]
struct Grave {
    gone: Gone,
    last: u32,
}

impl Model for Grave {
    ghost use Rattle.pf_model.specs.Copies.{GraveState};

    ghost Value = { GraveState };

    ghost view = { λ g. record { serial = g.gone.serial; last = g.last } };
}

impl Grave {
    /// The serial of the node.
    fn serial(&self) -> u32
        ensures { result ≡ self.now.serial }
    {
        self.gone.serial
    }

    /// Whether no frame names the node once so many frames are retired.
    fn is_due(&self, retired: u32) -> bool
        ensures { result ≡ is_due retired self.now }
    {
        self.last <= retired
    }
}

/// How many graves are due once so many frames are retired.
fn count_due(graves: &[Grave], retired: u32) -> usize
    ensures { result ≡ count_by (is_due retired) graves.now }
{
    graves.iter().filter(|grave| grave.is_due(retired)).count()
}

/// Appends the serials of the graves that are due once so many frames are retired, in their order.
fn tell_due(graves: &[Grave], retired: u32, out: &mut SerialsBuilder)
    requires { length (freed_by retired graves.now) ≤ out.old.spare }
    ensures serials { out.new.items ≡ out.old.items ++ freed_by retired graves.now }
    ensures spare { out.new.spare + length (freed_by retired graves.now) ≡ out.old.spare }
{
    for grave in graves {
        if grave.is_due(retired) {
            out.push(grave.serial());
        }
    }
}

/// Deleted nodes in the order of their burial, each with the last frame that may name it. What is left of a node, its
/// triangles among it, is kept until a sweep drops the grave.
#[derive(Debug)]
pub struct Graves {
    graves: Vec<Grave>,
}

/// Written out, so that to drop one is a single call.
impl Drop for Graves {
    fn drop(self) {
        let Self { graves: _ } = self;
    }
}

impl Model for Graves {
    ghost use Rattle.std.specs.Prelude.{◌-◌};
    ghost use Rattle.std.specs.Vec.{vec_len, vec_capacity};
    ghost use Rattle.async_delete.specs.Burials.{GravesSoFar};

    ghost Value = { GravesSoFar };

    ghost view = { λ g. record { graves = g.graves.items; spare = vec_capacity g.graves - vec_len g.graves } };
}

impl Graves {
    /// No graves, and room for none.
    pub fn new(alloc: Global) -> Graves
        ensures { result ≡ record { graves = []; spare = 0 } }
    {
        Graves {
            graves: Vec::new(alloc),
        }
    }

    /// Makes room for this many more graves. Where there is none yet, it makes room beside for as many as there are, so
    /// that room is made seldom.
    pub fn reserve(&mut self, n: usize) -> Result<(), NoMemory>
        ensures room { OnOk result (n ≤ self.new.spare) }
        ensures few { self.new.spare ≤ max self.old.spare (length self.old.graves + n) }
        ensures more { self.old.spare ≤ self.new.spare }
        ensures graves { self.new.graves ≡ self.old.graves }
        ensures unchanged { OnErr result (self.new ≡ self.old) }
    {
        if n <= self.spare() {
            return Ok(());
        }
        let Some(more) = self.graves.len().checked_add(n) else {
            return Err(NoMemory);
        };
        self.graves.reserve_exact(more)?;
        Ok(())
    }

    /// The number of graves.
    pub fn len(&self) -> usize
        ensures { result ≡ length self.now.graves }
    {
        self.graves.len()
    }

    /// How many more graves have room.
    pub fn spare(&self) -> usize
        ensures { result ≡ self.now.spare }
    {
        self.graves.capacity() - self.graves.len()
    }

    /// Buries a deleted node that the frame `last` is the last to name. It takes no memory.
    pub fn bury(&mut self, gone: Gone, last: u32)
        requires { 0 < self.old.spare }
        ensures graves { self.new.graves ≡ self.old.graves ++ grave gone.serial last ∷ [] }
        ensures spare { self.new.spare + 1 ≡ self.old.spare }
    {
        self.graves.push_reserved(Grave { gone, last });
    }

    /// How many graves a sweep drops once so many frames are retired.
    pub fn due(&self, retired: u32) -> usize
        ensures { result ≡ length (freed_by retired self.now.graves) }
    {
        count_due(self.graves.as_slice(), retired)
    }

    /// Drops the graves of the nodes that no frame names once so many frames are retired, and appends their serials in
    /// the order of burial. It takes no memory, and time in proportion to the number of graves.
    pub fn sweep(&mut self, retired: u32, out: &mut SerialsBuilder)
        requires { length (freed_by retired self.old.graves) ≤ out.old.spare }
        ensures freed { out.new.items ≡ out.old.items ++ freed_by retired self.old.graves }
        ensures room { out.new.spare + length (freed_by retired self.old.graves) ≡ out.old.spare }
        ensures kept { self.new.graves ≡ graves_kept retired self.old.graves }
        ensures spare { self.new.spare ≡ self.old.spare + length (freed_by retired self.old.graves) }
    {
        tell_due(self.graves.as_slice(), retired, out);
        drop_due(&mut self.graves, retired);
    }
}

/// Drops the graves that are due once so many frames are retired.
fn drop_due(graves: &mut Vec<Grave>, retired: u32)
    ensures kept { graves.new.items ≡ graves_kept retired graves.old.items }
    ensures dropped { vec_len graves.new + length (freed_by retired graves.old.items) ≡ vec_len graves.old }
    ensures capacity { vec_capacity graves.new ≡ vec_capacity graves.old }
{
    graves.retain(|grave| !grave.is_due(retired));
}
