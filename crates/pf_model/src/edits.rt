//! Edits of a scene graph, their faults, and lists of edits.
ghost use Rattle.std.specs.Prelude.{◌≡◌, List, [], ◌∷◌, ◌++◌, length, IfErr, OnOk, OnErr, slice_get};
ghost use Rattle.std.specs.Option.{option_copied};

use crate::geometry::Geom;
use crate::nodes::{Kind, Pick};
use fx_math::{Affine, Vec3};
use pf_io::NoMemory;
use std::alloc::{AllocError, AllocFailed, Global};
use std::marker::Model;

/// An edit of a scene graph. Ids name nodes, places count from 0.
#[derive(Debug, Drop)]
pub enum Edit {
    /// Makes a node without children.
    Make { id: u16, kind: Kind },
    /// Appends a child.
    Add { parent: u16, child: u16 },
    /// Puts a child before a place.
    Insert { parent: u16, place: u16, child: u16 },
    /// Puts `by` at the first place that holds `child`.
    Replace { parent: u16, child: u16, by: u16 },
    /// Takes out the first place that holds the child.
    Remove { parent: u16, child: u16 },
    /// Takes a node out of the graph; its children stay.
    Delete { id: u16 },
    /// Sets the pick of a switch.
    Pick { id: u16, pick: Pick },
    /// Sets a matrix as the pose of a dynamic coordinate system.
    Mat { id: u16, mat: Affine },
    /// Sets the translation of a dynamic coordinate system.
    Trans { id: u16, t: Vec3 },
    /// Sets heading, pitch and roll of a dynamic coordinate system, in tenths of a degree.
    Rot { id: u16, h: i32, p: i32, r: i32 },
    /// Sets the scale of a dynamic coordinate system, in 1/65536.
    Scale { id: u16, s: i32 },
    /// Sets or appends a range of a level of detail, in 1/4096 unit.
    Range { id: u16, place: u16, value: u32 },
    /// Sets the centre of a level of detail.
    Centre { id: u16, at: Vec3 },
    /// Sets or appends a time of a sequence, in frames.
    Times { id: u16, place: u16, frames: u16 },
    /// Lets a sequence run from the frame in preparation on.
    Run { id: u16 },
    /// Holds a sequence at the child that it shows.
    Stop { id: u16 },
    /// Replaces the triangles of a geode by as many others.
    Verts { id: u16, geom: Geom },
}

impl Edit {
    ghost use Rattle.std.specs.Prelude.{◌≡◌};
    ghost use Rattle.pf_model.specs.Copies.{named_by};

    /// The id of the node that the edit names: its parent where it has one, else its id.
    pub fn named(&self) -> u16
        ensures { result ≡ named_by self.now }
    {
        match self {
            Edit::Add { parent, .. } => *parent,
            Edit::Insert { parent, .. } => *parent,
            Edit::Replace { parent, .. } => *parent,
            Edit::Remove { parent, .. } => *parent,
            Edit::Make { id, .. } => *id,
            Edit::Delete { id } => *id,
            Edit::Pick { id, .. } => *id,
            Edit::Mat { id, .. } => *id,
            Edit::Trans { id, .. } => *id,
            Edit::Rot { id, .. } => *id,
            Edit::Scale { id, .. } => *id,
            Edit::Range { id, .. } => *id,
            Edit::Centre { id, .. } => *id,
            Edit::Times { id, .. } => *id,
            Edit::Run { id } => *id,
            Edit::Stop { id } => *id,
            Edit::Verts { id, .. } => *id,
        }
    }
}

/// Why an edit is refused; the graph then stays as it was.
#[derive(Clone, Copy, Debug, PartialEq, Eq)]
pub enum Fault {
    /// No node has this id.
    Absent(u16),
    /// A node has this id already.
    Taken(u16),
    /// The node of this id is of a kind that the edit does not apply to.
    Kind(u16),
    /// This place is too far.
    Place(u16),
    /// The second is no child of the first.
    NotChild(u16, u16),
    /// The first would stand below itself, by the second.
    Cycle(u16, u16),
    /// There would be this many: nodes, children, or triangles where others are asked.
    Many(u32),
    /// A chain of this many nodes, of more than 32, would hang below a node.
    Deep(u32),
    /// The unfolded size of a node would be above 131,072.
    Large,
    /// This node is some node's child.
    InUse(u16),
}

/// Why a graph refused an edit.
#[derive(Clone, Copy, Debug, PartialEq, Eq)]
pub enum EditError {
    /// The edit has this fault.
    Fault(Fault),
    /// There was no memory.
    NoMemory,
}

impl From<Fault> for EditError {
    ghost use Rattle.pf_model.specs.declared.edits.EditError.TheVariants as error;

    ghost from_gives = { λ f e. e ≡ error.Fault f };

    fn from(fault: Fault) -> Self {
        EditError::Fault(fault)
    }
}

impl From<NoMemory> for EditError {
    ghost use Rattle.pf_model.specs.declared.edits.EditError.TheVariants as error;

    ghost from_gives = { λ _ e. e ≡ error.NoMemory };

    fn from(_error: NoMemory) -> Self {
        EditError::NoMemory
    }
}

impl From<AllocError> for EditError {
    ghost use Rattle.pf_model.specs.declared.edits.EditError.TheVariants as error;

    ghost from_gives = { λ _ e. e ≡ error.NoMemory };

    fn from(_error: AllocError) -> Self {
        EditError::NoMemory
    }
}

impl<T: Drop> From<AllocFailed<T>> for EditError {
    ghost use Rattle.pf_model.specs.declared.edits.EditError.TheVariants as error;

    ghost from_gives = { λ _ e. e ≡ error.NoMemory };

    fn from(_error: AllocFailed<T>) -> Self {
        EditError::NoMemory
    }
}

/// A list of edits.
#[derive(Debug)]
pub struct EditList {
    edits: Vec<Edit>,
}

/// Written out, so that to drop one is a single call.
impl Drop for EditList {
    fn drop(self) {
        let Self { edits: _ } = self;
    }
}

impl Model for EditList {
    ghost use Rattle.std.specs.Prelude.{List};
    ghost use Rattle.pf_model.specs.declared.edits.Edit.{Edit};

    ghost Value = { List Edit };

    ghost view = { λ l. l.edits.items };
}

impl EditList {
    /// An empty list.
    pub fn new(alloc: Global) -> Self
        ensures { result ≡ [] }
    {
        EditList {
            edits: Vec::new(alloc),
        }
    }

    /// Appends an edit, or hands it back where there is no memory.
    pub fn push(&mut self, e: Edit) -> Result<(), Edit>
        ensures ok { OnOk result (self.new ≡ self.old ++ e ∷ []) }
        ensures err { OnErr result (self.new ≡ self.old) }
        ensures back { IfErr result (λ b. b ≡ e) }
    {
        self.edits.push(e).map_err(|failed| failed.value)
    }

    /// The number of edits.
    pub fn len(&self) -> usize
        ensures { result ≡ length self.now }
    {
        self.edits.len()
    }

    /// The edits.
    pub fn as_slice(&self) -> &[Edit]
        ensures { result.now ≡ self.now }
    {
        self.edits.as_slice()
    }

    /// The edit at a place, or none past the end.
    pub fn at(&self, i: usize) -> Option<&Edit>
        ensures { option_copied result ≡ slice_get self.now i }
    {
        self.edits.get(i)
    }
}

/// A list of edits that is being made. Contracts see the edits so far, and how many more have room.
#[derive(Debug)]
pub struct EditListBuilder {
    edits: Vec<Edit>,
}

/// Written out, so that to drop one is a single call.
impl Drop for EditListBuilder {
    fn drop(self) {
        let Self { edits: _ } = self;
    }
}

impl Model for EditListBuilder {
    ghost use Rattle.std.specs.Prelude.{◌-◌};
    ghost use Rattle.std.specs.Vec.{vec_len, vec_capacity};
    ghost use Rattle.pf_model.specs.Recording.{EditsSoFar};

    ghost Value = { EditsSoFar };

    ghost view = { λ b. record { items = b.edits.items; spare = vec_capacity b.edits - vec_len b.edits } };
}

impl EditListBuilder {
    ghost use Rattle.std.specs.Prelude.{◌≡◌, ◌+◌, ◌<◌, ◌≤◌, max, [], ◌∷◌, ◌++◌, length, OnOk, OnErr};

    /// No edits yet, and room for none.
    pub fn new(alloc: Global) -> EditListBuilder
        ensures { result ≡ record { items = []; spare = 0 } }
    {
        EditListBuilder {
            edits: Vec::new(alloc),
        }
    }

    /// Makes room for `n` more edits; the edits stay, and no room is lost. Where that room is missing, it makes room for
    /// as many as there are if these are more, so that room is made seldom. It fails only where that room was missing.
    pub fn reserve(&mut self, n: usize) -> Result<(), NoMemory>
        ensures room { OnOk result (n ≤ self.new.spare) }
        ensures few { self.new.spare ≤ max self.old.spare (max n (length self.old.items)) }
        ensures items { self.new.items ≡ self.old.items }
        ensures spare { self.old.spare ≤ self.new.spare }
        ensures full { OnErr result (self.old.spare < n) }
    {
        let len = self.edits.len();
        if n <= self.edits.capacity() - len {
            return Ok(());
        }
        self.edits.reserve_exact(n.max(len))?;
        Ok(())
    }

    /// Appends an edit where there is room, without memory.
    pub fn push_reserved(&mut self, e: Edit)
        requires { 0 < self.old.spare }
        ensures items { self.new.items ≡ self.old.items ++ e ∷ [] }
        ensures spare { self.old.spare ≡ self.new.spare + 1 }
    {
        self.edits.push_reserved(e);
    }

    /// The number of edits so far.
    pub fn len(&self) -> usize
        ensures { result ≡ length self.now.items }
    {
        self.edits.len()
    }

    /// The edits so far.
    pub fn as_slice(&self) -> &[Edit]
        ensures { result.now ≡ self.now.items }
    {
        self.edits.as_slice()
    }

    /// The list of these edits, without memory.
    pub fn finish(self) -> EditList
        ensures { result ≡ self.items }
    {
        let Self { edits } = self;
        EditList { edits }
    }
}
