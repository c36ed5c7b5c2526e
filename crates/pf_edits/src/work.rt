//! The state of a working graph, and its edits one by one.
ghost use Rattle.std.specs.Prelude.{◌≡◌, ◌+◌, ◌-◌, ◌^◌, ◌<◌, ◌≤◌, ◌==◌, ◌||◌, ◌∷◌, ◌++◌, [], ℕ, true, false, Some, None, is_some, IfOk, IfErr, OnOk, OnErr, length};
ghost use Rattle.std.specs.Vec.{vec_len, vec_capacity};
ghost use Rattle.std.specs.List.{insert};
ghost use Rattle.std.specs.Option.{option_map};
ghost use Rattle.pf_model.specs.Graphs.{node_at, children_of, change, is_below, empty_scene};
ghost use Rattle.pf_model.specs.Limits.{is_there, IsGraphWithinLimits};
ghost use Rattle.pf_model.specs.Children.{replace_first, drop_first};
ghost use Rattle.pf_model.specs.Copies.{named_by};
ghost use Rattle.pf_model.specs.NodeEdits.{with_children, node_after, kind_after, is_attribute};
ghost use Rattle.std.specs.Result.{IsErrOf};
ghost use Rattle.pf_model.specs.Edits.{child_count, with_nodes, remains, fault_of, effect, Refuses};
ghost use Rattle.pf_model.specs.Fits.{fits};
ghost use Rattle.pf_edits.specs.Ways.{is_in};
ghost use Rattle.pf_edits.specs.Extents.{look_of, extent_at, reckoned};
ghost use Rattle.pf_edits.specs.Listed.{nodes_of};
ghost use Rattle.pf_edits.specs.Working.{told, IsWorking};
ghost use Rattle.pf_edits.specs.Undoing.{IsUndo, KeepsParents};
ghost use Rattle.pf_edits.specs.Settling.{asked_link, loses, IsTight, IsTightBut, Grows};

use crate::climb::{lengthened_extent, over_children, shortened_extent};
use crate::extents::Extent;
use crate::faults::{child_count, find_node};
use crate::links::{note_link, relink_freely};
use crate::nodes::{insert, remove, swap_kind};
use crate::parents::Parents;
use crate::records::Records;
use crate::undo::{Older, Undo};
use crate::way::Way;
use pf_io::NoMemory;
use pf_model::{Edit, EditError, Gone, Ids, Kind, Node, kind_after};
use std::alloc::Global;

/// Records with a way that is empty between edits, the number of the frame in preparation, the next serial, and the
/// nodes that were deleted.
#[derive(Debug, Drop)]
pub(crate) struct Work {
    pub(crate) records: Records,
    pub(crate) way: Way,
    pub(crate) time: u32,
    pub(crate) next_serial: u32,
    pub(crate) gone: Vec<Gone>,
}

/// The children of a parent with one more before a place.
fn lengthened(records: &Records, parent: u16, place: usize, child: u16) -> Result<Ids, NoMemory>
    requires there { is_there (node_at (nodes_of records.now.slots)) parent ≡ true }
    requires within { place ≤ child_count (nodes_of records.now.slots) parent }
    requires room { child_count (nodes_of records.now.slots) parent < 256 }
    ensures { IfOk result (λ cs. cs ≡ insert (children_of (node_at (nodes_of records.now.slots)) parent) place child) }
{
    match find_node(records, parent) {
        Some(node) => {
            let mut children = node.children.copy()?;
            children.insert(place, child)?;
            Ok(children)
        }
        None => unreachable!(),
    }
}

/// The children of a parent with another in the place of the first that is this child.
fn replaced(records: &Records, parent: u16, child: u16, by: u16) -> Result<Ids, NoMemory>
    requires { is_there (node_at (nodes_of records.now.slots)) parent ≡ true }
    ensures { IfOk result (λ cs. cs ≡ replace_first child by (children_of (node_at (nodes_of records.now.slots)) parent)) }
{
    match find_node(records, parent) {
        Some(node) => node.children.with_first_replaced(child, by),
        None => unreachable!(),
    }
}

/// The children of a parent without the first that is this child.
fn shortened(records: &Records, parent: u16, child: u16) -> Result<Ids, NoMemory>
    requires { is_there (node_at (nodes_of records.now.slots)) parent ≡ true }
    ensures { IfOk result (λ cs. cs ≡ drop_first child (children_of (node_at (nodes_of records.now.slots)) parent)) }
{
    match find_node(records, parent) {
        Some(node) => node.children.without_first(child),
        None => unreachable!(),
    }
}

/// The kind that an edit of one node's kind gives its node.
fn new_kind(records: &Records, time: u32, e: &Edit) -> Result<Kind, NoMemory>
    requires there { is_there (node_at (nodes_of records.now.slots)) (named_by e.now) ≡ true }
    requires fits { fits e.now ≡ true }
    ensures { IfOk result (λ k. option_map (kind_after time e.now) (node_at (nodes_of records.now.slots) (named_by e.now))
        ≡ Some k) }
{
    match find_node(records, e.named()) {
        Some(node) => kind_after(node, time, e),
        None => unreachable!(),
    }
}

impl Work {
    /// The state of the scene alone, which prepares frame 1.
    pub(crate) fn new(alloc: Global) -> Result<Work, NoMemory>
        ensures working { IfOk result (λ w. IsWorking w) }
        ensures told { IfOk result (λ w. told w ≡ empty_scene) }
        ensures tight { IfOk result (λ w. IsTight w.records.slots) }
    {
        let mut records = Records::new(alloc)?;
        let scene = Node {
            serial: 0,
            born: 0,
            kind: Kind::Group,
            children: Ids::new(alloc),
        };
        insert(&mut records, 0, scene, Parents::new(alloc));
        Ok(Work {
            records,
            way: Way::new(alloc)?,
            time: 1,
            next_serial: 1,
            gone: Vec::new(alloc),
        })
    }

    /// Makes a node without children, born in the frame in preparation.
    fn make(&mut self, id: u16, kind: &Kind) -> Result<Undo, NoMemory>
        requires working { IsWorking self.old }
        requires serials { self.old.next_serial < 2 ^ 32 - 1 }
        requires fits { fits (Edit.Make id kind.now) ≡ true }
        requires none { None ≡ fault_of (told self.old) (Edit.Make id kind.now) }
        ensures working { IsWorking self.new }
        ensures after { OnOk result (told self.new ≡ effect (told self.old) (Edit.Make id kind.now)) }
        ensures unchanged { OnErr result (told self.new ≡ told self.old) }
        ensures undo { IfOk result (λ u. IsUndo u self.old self.new) }
        ensures kept { OnErr result (KeepsParents self.old self.new) }
        ensures grown { OnOk result (Grows (asked_link (Edit.Make id kind.now)) self.old.records.slots self.new.records.slots) }
        ensures fewer { OnErr result (KeepsParents self.new self.old) }
    {
        let kind = kind.copy()?;
        let count = self.records.len();
        prove!(count < 4_097);
        let alloc = *self.gone.allocator();
        let node = Node {
            serial: self.next_serial,
            born: self.time,
            kind,
            children: Ids::new(alloc),
        };
        insert(&mut self.records, id, node, Parents::new(alloc));
        self.next_serial += 1;
        Ok(Undo {
            id,
            older: Older::Made,
        })
    }

    /// Gives a parent other children, of which one may be new, and with which its extent is known.
    fn link(
        &mut self,
        parent: u16,
        child: u16,
        children: Ids,
        extent: Extent,
    ) -> Result<Undo, NoMemory>
        requires working { IsWorking self.old }
        requires there { is_there (node_at (nodes_of self.old.records.slots)) parent ≡ true }
        requires child { is_there (node_at (nodes_of self.old.records.slots)) child ≡ true }
        requires members { (x : ℕ) → is_in x children ≡ true
            → (is_in x (children_of (node_at (nodes_of self.old.records.slots)) parent) || child == x) ≡ true }
        requires apart { (child == parent || is_below (node_at (nodes_of self.old.records.slots)) child parent) ≡ false }
        requires within { IsGraphWithinLimits (with_nodes (change parent (with_children children)) (told self.old)) }
        requires extent { extent ≡ reckoned (extent_at self.old.records.slots) children }
        ensures working { IsWorking self.new }
        ensures after { OnOk result (told self.new ≡ with_nodes (change parent (with_children children)) (told self.old)) }
        ensures unchanged { OnErr result (told self.new ≡ told self.old) }
        ensures undo { IfOk result (λ u. IsUndo u self.old self.new) }
        ensures kept { OnErr result (KeepsParents self.old self.new) }
        ensures grown { OnOk result (Grows (Some (parent, child)) self.old.records.slots self.new.records.slots) }
        ensures fewer { OnErr result (KeepsParents self.new self.old) }
    {
        note_link(&mut self.records, child, parent)?;
        let older = relink_freely(&mut self.records, &mut self.way, parent, children, extent);
        Ok(Undo {
            id: parent,
            older: Older::Children(older),
        })
    }

    /// Appends a child.
    fn add(&mut self, parent: u16, child: u16) -> Result<Undo, NoMemory>
        requires working { IsWorking self.old }
        requires none { None ≡ fault_of (told self.old) (Edit.Add parent child) }
        ensures working { IsWorking self.new }
        ensures after { OnOk result (told self.new ≡ effect (told self.old) (Edit.Add parent child)) }
        ensures unchanged { OnErr result (told self.new ≡ told self.old) }
        ensures undo { IfOk result (λ u. IsUndo u self.old self.new) }
        ensures kept { OnErr result (KeepsParents self.old self.new) }
        ensures grown { OnOk result (Grows (asked_link (Edit.Add parent child)) self.old.records.slots self.new.records.slots) }
        ensures fewer { OnErr result (KeepsParents self.new self.old) }
    {
        let place = child_count(&self.records, parent);
        let children = lengthened(&self.records, parent, place, child)?;
        let extent = lengthened_extent(&self.records, parent, child);
        self.link(parent, child, children, extent)
    }

    /// Puts a child before a place.
    fn insert(&mut self, parent: u16, place: u16, child: u16) -> Result<Undo, NoMemory>
        requires working { IsWorking self.old }
        requires fits { fits (Edit.Insert parent place child) ≡ true }
        requires none { None ≡ fault_of (told self.old) (Edit.Insert parent place child) }
        ensures working { IsWorking self.new }
        ensures after { OnOk result (told self.new ≡ effect (told self.old) (Edit.Insert parent place child)) }
        ensures unchanged { OnErr result (told self.new ≡ told self.old) }
        ensures undo { IfOk result (λ u. IsUndo u self.old self.new) }
        ensures kept { OnErr result (KeepsParents self.old self.new) }
        ensures grown { OnOk result (Grows (asked_link (Edit.Insert parent place child)) self.old.records.slots self.new.records.slots) }
        ensures fewer { OnErr result (KeepsParents self.new self.old) }
    {
        let children = lengthened(&self.records, parent, usize::from(place), child)?;
        let extent = lengthened_extent(&self.records, parent, child);
        self.link(parent, child, children, extent)
    }

    /// Puts `by` at the first place that holds the child.
    fn replace(&mut self, parent: u16, child: u16, by: u16) -> Result<Undo, NoMemory>
        requires working { IsWorking self.old }
        requires none { None ≡ fault_of (told self.old) (Edit.Replace parent child by) }
        ensures working { IsWorking self.new }
        ensures after { OnOk result (told self.new ≡ effect (told self.old) (Edit.Replace parent child by)) }
        ensures unchanged { OnErr result (told self.new ≡ told self.old) }
        ensures undo { IfOk result (λ u. IsUndo u self.old self.new) }
        ensures kept { OnErr result (KeepsParents self.old self.new) }
        ensures grown { OnOk result (Grows (asked_link (Edit.Replace parent child by)) self.old.records.slots self.new.records.slots) }
        ensures fewer { OnErr result (KeepsParents self.new self.old) }
    {
        let children = replaced(&self.records, parent, child, by)?;
        let extent = over_children(&self.records, children.as_slice());
        self.link(parent, by, children, extent)
    }

    /// Takes out the first place that holds the child.
    fn remove(&mut self, parent: u16, child: u16) -> Result<Undo, NoMemory>
        requires working { IsWorking self.old }
        requires none { None ≡ fault_of (told self.old) (Edit.Remove parent child) }
        ensures working { IsWorking self.new }
        ensures after { OnOk result (told self.new ≡ effect (told self.old) (Edit.Remove parent child)) }
        ensures unchanged { OnErr result (told self.new ≡ told self.old) }
        ensures undo { IfOk result (λ u. IsUndo u self.old self.new) }
        ensures kept { OnErr result (KeepsParents self.old self.new) }
        ensures grown { OnOk result (Grows (asked_link (Edit.Remove parent child)) self.old.records.slots self.new.records.slots) }
        ensures fewer { OnErr result (KeepsParents self.new self.old) }
    {
        let children = shortened(&self.records, parent, child)?;
        let extent = shortened_extent(&self.records, parent, child, children.as_slice());
        let older = relink_freely(&mut self.records, &mut self.way, parent, children, extent);
        Ok(Undo {
            id: parent,
            older: Older::Children(older),
        })
    }

    /// Takes a node out of the graph; its children stay.
    fn delete(&mut self, id: u16) -> Result<Undo, NoMemory>
        requires working { IsWorking self.old }
        requires none { None ≡ fault_of (told self.old) (Edit.Delete id) }
        ensures working { IsWorking self.new }
        ensures after { OnOk result (told self.new ≡ effect (told self.old) (Edit.Delete id)) }
        ensures unchanged { OnErr result (told self.new ≡ told self.old) }
        ensures undo { IfOk result (λ u. IsUndo u self.old self.new) }
        ensures kept { OnErr result (KeepsParents self.old self.new) }
        ensures grown { OnOk result (Grows (asked_link (Edit.Delete id)) self.old.records.slots self.new.records.slots) }
        ensures fewer { OnErr result (KeepsParents self.new self.old) }
    {
        let remains = remains_of(&self.records, id)?;
        self.gone.reserve(1)?;
        match remove(&mut self.records, id) {
            Some(record) => {
                bury(&mut self.gone, remains);
                Ok(Undo {
                    id,
                    older: Older::Deleted(record),
                })
            }
            None => unreachable!(),
        }
    }

    /// Changes the kind of one node.
    fn set_attribute(&mut self, edit: &Edit) -> Result<Undo, NoMemory>
        requires working { IsWorking self.old }
        requires attribute { is_attribute edit.now ≡ true }
        requires fits { fits edit.now ≡ true }
        requires none { None ≡ fault_of (told self.old) edit.now }
        ensures working { IsWorking self.new }
        ensures after { OnOk result (told self.new ≡ effect (told self.old) edit.now) }
        ensures unchanged { OnErr result (told self.new ≡ told self.old) }
        ensures undo { IfOk result (λ u. IsUndo u self.old self.new) }
        ensures kept { OnErr result (KeepsParents self.old self.new) }
        ensures grown { OnOk result (Grows (asked_link edit.now) self.old.records.slots self.new.records.slots) }
        ensures fewer { OnErr result (KeepsParents self.new self.old) }
    {
        let id = edit.named();
        let kind = new_kind(&self.records, self.time, edit)?;
        let older = swap_kind(&mut self.records, id, kind);
        Ok(Undo {
            id,
            older: Older::Kind(older),
        })
    }

    /// Makes an edit without fault. Only want of memory can stop it.
    pub(crate) fn apply(&mut self, e: &Edit) -> Result<Undo, NoMemory>
        requires working { IsWorking self.old }
        requires serials { self.old.next_serial < 2 ^ 32 - 1 }
        requires fits { fits e.now ≡ true }
        requires none { None ≡ fault_of (told self.old) e.now }
        ensures working { IsWorking self.new }
        ensures after { OnOk result (told self.new ≡ effect (told self.old) e.now) }
        ensures unchanged { OnErr result (told self.new ≡ told self.old) }
        ensures undo { IfOk result (λ u. IsUndo u self.old self.new) }
        ensures kept { OnErr result (KeepsParents self.old self.new) }
        ensures grown { OnOk result (Grows (asked_link e.now) self.old.records.slots self.new.records.slots) }
        ensures fewer { OnErr result (KeepsParents self.new self.old) }
    {
        match e {
            Edit::Make { id, kind } => self.make(*id, kind),
            Edit::Add { parent, child } => self.add(*parent, *child),
            Edit::Insert {
                parent,
                place,
                child,
            } => self.insert(*parent, *place, *child),
            Edit::Replace { parent, child, by } => self.replace(*parent, *child, *by),
            Edit::Remove { parent, child } => self.remove(*parent, *child),
            Edit::Delete { id } => self.delete(*id),
            Edit::Pick { .. }
            | Edit::Mat { .. }
            | Edit::Trans { .. }
            | Edit::Rot { .. }
            | Edit::Scale { .. }
            | Edit::Range { .. }
            | Edit::Centre { .. }
            | Edit::Times { .. }
            | Edit::Run { .. }
            | Edit::Stop { .. }
            | Edit::Verts { .. } => self.set_attribute(e),
        }
    }

    /// Makes an edit, or refuses it and stays as it was. All its faults are tested before memory is asked.
    pub(crate) fn edit(&mut self, e: &Edit) -> Result<Undo, EditError>
        requires working { IsWorking self.old }
        requires tight { IsTight self.old.records.slots }
        requires serials { self.old.next_serial < 2 ^ 32 - 1 }
        requires fits { fits e.now ≡ true }
        ensures working { IsWorking self.new }
        ensures done { OnOk result (fault_of (told self.old) e.now ≡ None) }
        ensures after { OnOk result (told self.new ≡ effect (told self.old) e.now) }
        ensures fault { IfErr result (λ r. Refuses r (fault_of (told self.old) e.now)) }
        ensures memory { IsErrOf result EditError.NoMemory → fault_of (told self.old) e.now ≡ None }
        ensures unchanged { OnErr result (told self.new ≡ told self.old) }
        ensures lost { IfOk result (λ u. IsTightBut self.new.records.slots (loses e.now u)) }
        ensures tight { OnErr result (IsTight self.new.records.slots) }
    {
        if let Some(fault) = self.judge(e) {
            return Err(EditError::Fault(fault));
        }
        match self.apply(e) {
            Ok(undo) => Ok(undo),
            Err(NoMemory) => Err(EditError::NoMemory),
        }
    }
}

/// What is left of a node that is deleted.
fn remains_of(records: &Records, id: u16) -> Result<Gone, NoMemory>
    requires { is_there (node_at (nodes_of records.now.slots)) id ≡ true }
    ensures { IfOk result (λ r. remains id (node_at (nodes_of records.now.slots) id) ≡ r ∷ []) }
{
    match find_node(records, id) {
        Some(node) => {
            let kind = node.kind.copy()?;
            Ok(Gone {
                id,
                serial: node.serial,
                born: node.born,
                kind,
            })
        }
        None => unreachable!(),
    }
}

/// Notes what is left of a deleted node, where there is room.
fn bury(gone: &mut Vec<Gone>, remains: Gone)
    requires { vec_len gone.old + 1 ≤ vec_capacity gone.old }
    ensures { gone.new.items ≡ gone.old.items ++ remains ∷ [] }
{
    match gone.push(remains) {
        Ok(()) => {}
        Err(_) => unreachable!(),
    }
}
