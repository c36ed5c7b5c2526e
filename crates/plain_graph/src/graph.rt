//! The plain graph: a list of ids and nodes, and its edits.
ghost use Rattle.std.specs.Prelude.{◌≡◌, ◌+◌, ◌-◌, ◌^◌, ◌<◌, ◌≤◌, Option, Some, None, length, IfErr, IfOk, OnOk, OnErr, map, nat_lt, true, [], ◌∷◌};
ghost use Rattle.std.specs.List.{position, position_or_len};
ghost use Rattle.std.specs.Option.{option_copied};
ghost use Rattle.pf_model.specs.Graphs.{SceneGraph, node_at, has_id, put, without, empty_scene};
ghost use Rattle.pf_model.specs.Limits.{IsRising, IsGraphWithinLimits};
ghost use Rattle.pf_model.specs.Edits.{first, make_rules, fault_of, after, Refuses};
ghost use Rattle.pf_model.specs.NodeEdits.{is_attribute};
ghost use Rattle.pf_model.specs.Fits.{fits};

use crate::{attributes, links};
use pf_io::NoMemory;
use pf_model::{Edit, EditError, Fault, Gone, Ids, Kind, Node, NodeView};
use std::alloc::Global;
use std::marker::Model;
use std::mem;

/// The place of a node in the list.
pub(crate) fn place_of(nodes: &[(u16, Node)], id: u16) -> Option<usize>
    ensures { result ≡ position (has_id id) nodes.now }
{
    nodes.iter().position(|entry| entry.0 == id)
}

/// The node of an id.
pub(crate) fn find_node(nodes: &[(u16, Node)], id: u16) -> Option<&Node>
    ensures { option_copied result ≡ node_at nodes.now id }
{
    nodes
        .iter()
        .find(|entry| entry.0 == id)
        .map(|entry| &entry.1)
}

/// The place of the first id above this one.
fn first_above(nodes: &[(u16, Node)], id: u16) -> Option<usize>
    ensures { result ≡ position (λ e. nat_lt id e.0) nodes.now }
{
    nodes.iter().position(|entry| id < entry.0)
}

/// The place of the first id above this one, or the end.
#[tactic(auto, using(pf_model::proofs::Places::place_found, pf_model::proofs::Places::place_end))]
fn place_above(nodes: &[(u16, Node)], id: u16) -> usize
    ensures value { result ≡ position_or_len (λ e. nat_lt id e.0) nodes.now }
    ensures bound { result ≤ length nodes.now }
{
    match first_above(nodes, id) {
        Some(place) => place,
        None => nodes.len(),
    }
}

/// Puts a node under an id that has none, at its place in the order of the ids.
fn put(nodes: &mut Vec<(u16, Node)>, id: u16, node: Node) -> Result<(), NoMemory>
    requires absent { node_at nodes.old.items id ≡ None }
    requires rising { IsRising (map (λ e. e.0) nodes.old.items) }
    ensures ok { OnOk result (nodes.new.items ≡ put id node nodes.old.items) }
    ensures err { OnErr result (nodes.new.items ≡ nodes.old.items) }
    ensures rising { IsRising (map (λ e. e.0) nodes.new.items) }
{
    let place = place_above(nodes.as_slice(), id);
    nodes.insert(place, (id, node))?;
    Ok(())
}

/// Takes out the node of an id.
fn take_out(nodes: &mut Vec<(u16, Node)>, id: u16) -> Option<Node>
    requires { IsRising (map (λ e. e.0) nodes.old.items) }
    ensures node { result ≡ node_at nodes.old.items id }
    ensures after { nodes.new.items ≡ without id nodes.old.items }
    ensures rising { IsRising (map (λ e. e.0) nodes.new.items) }
{
    match place_of(nodes.as_slice(), id) {
        Some(place) => Some(nodes.remove(place).1),
        None => None,
    }
}

/// Equal nodes.
fn copied_nodes(alloc: Global, nodes: &[(u16, Node)]) -> Result<Vec<(u16, Node)>, NoMemory>
    ensures { IfOk result (λ v. v.items ≡ nodes.now) }
{
    let mut copied = Vec::with_capacity(alloc, nodes.len())?;
    for entry in nodes {
        copied.push((entry.0, entry.1.copy()?))?;
    }
    Ok(copied)
}

/// Equal remains.
fn copied_gone(alloc: Global, gone: &[Gone]) -> Result<Vec<Gone>, NoMemory>
    ensures { IfOk result (λ v. v.items ≡ gone.now) }
{
    let mut copied = Vec::with_capacity(alloc, gone.len())?;
    for remains in gone {
        copied.push(remains.copy()?)?;
    }
    Ok(copied)
}

/// The fault of making a node.
fn fault_of_make(nodes: &[(u16, Node)], id: u16) -> Option<Fault>
    ensures { result ≡ first (make_rules nodes.now id) }
{
    if find_node(nodes, id).is_some() {
        return Some(Fault::Taken(id));
    }
    if nodes.len() > 4_096 {
        return Some(Fault::Many(4_097));
    }
    None
}

/// A scene graph within the limits, as a list of ids and nodes, with the number of the frame in preparation, the next
/// serial, and the nodes that were deleted.
#[derive(Debug)]
pub struct Graph {
    nodes: Vec<(u16, Node)>,
    time: u32,
    next_serial: u32,
    gone: Vec<Gone>,
}

/// Written out, so that to drop one is a single call.
impl Drop for Graph {
    fn drop(self) {
        let Self {
            nodes: _,
            time: _,
            next_serial: _,
            gone: _,
        } = self;
    }
}

impl Model for Graph {
    ghost Value = { SceneGraph };

    ghost view = { λ g. record {
      nodes = g.nodes.items;
      time = g.time;
      next_serial = g.next_serial;
      gone = g.gone.items;
    } };

    ghost invariant = { λ g. IsGraphWithinLimits (record {
      nodes = g.nodes.items;
      time = g.time;
      next_serial = g.next_serial;
      gone = g.gone.items;
    }) };
}

impl Graph {
    /// The graph of the scene alone, which prepares frame 1.
    #[tactic(auto, using(pf_model::proofs::Histories::limits_empty))]
    pub fn new(alloc: Global) -> Result<Graph, NoMemory>
        ensures { IfOk result (λ g. g ≡ empty_scene) }
    {
        let mut nodes = Vec::with_capacity(alloc, 1)?;
        let scene = Node {
            serial: 0,
            born: 0,
            kind: Kind::Group,
            children: Ids::new(alloc),
        };
        nodes.push((0, scene))?;
        Ok(Graph {
            nodes,
            time: 1,
            next_serial: 1,
            gone: Vec::new(alloc),
        })
    }

    /// Does nothing: tells that the graph is within the limits.
    pub fn keeps_limits(&self)
        ensures { IsGraphWithinLimits self.now }
    {
        let _ = &self.time;
    }

    /// The number of the frame in preparation.
    pub fn time(&self) -> u32
        ensures { result ≡ self.now.time }
    {
        self.time
    }

    /// The serial that the next node made gets.
    pub fn next_serial(&self) -> u32
        ensures { result ≡ self.now.next_serial }
    {
        self.next_serial
    }

    /// Goes on to the next frame.
    pub fn next_frame(&mut self)
        requires { self.old.time < 2 ^ 32 - 1 }
        ensures { self.new ≡ record self.old { time = self.old.time + 1 } }
    {
        self.time += 1;
    }

    /// An equal graph.
    pub fn copy(&self) -> Result<Graph, NoMemory>
        ensures { IfOk result (λ g. g ≡ self.now) }
    {
        let alloc = *self.nodes.allocator();
        let nodes = copied_nodes(alloc, self.nodes.as_slice())?;
        let gone = copied_gone(alloc, self.gone.as_slice())?;
        Ok(Graph {
            nodes,
            time: self.time,
            next_serial: self.next_serial,
            gone,
        })
    }

    /// Takes out what is left of the deleted nodes, in the order of their deletion.
    pub fn take_gone(&mut self) -> Vec<Gone>
        ensures gone { result.items ≡ self.old.gone }
        ensures after { self.new ≡ record self.old { gone = [] } }
    {
        let alloc = *self.gone.allocator();
        mem::replace(&mut self.gone, Vec::new(alloc))
    }

    /// Makes a node without children, born in the frame in preparation.
    pub fn make(&mut self, id: u16, kind: Kind) -> Result<(), EditError>
        requires serials { self.old.next_serial < 2 ^ 32 - 1 }
        requires fits { fits (Edit.Make id kind) ≡ true }
        ensures done { OnOk result (fault_of self.old (Edit.Make id kind) ≡ None) }
        ensures after { OnOk result (self.new ≡ after self.old (Edit.Make id kind)) }
        ensures fault { IfErr result (λ e. Refuses e (fault_of self.old (Edit.Make id kind))) }
        ensures unchanged { OnErr result (self.new ≡ self.old) }
    {
        if let Some(fault) = fault_of_make(self.nodes.as_slice(), id) {
            return Err(EditError::Fault(fault));
        }
        let node = Node {
            serial: self.next_serial,
            born: self.time,
            kind,
            children: Ids::new(*self.nodes.allocator()),
        };
        put(&mut self.nodes, id, node)?;
        self.next_serial += 1;
        Ok(())
    }

    /// Appends a child.
    pub fn add(&mut self, parent: u16, child: u16) -> Result<(), EditError>
        ensures done { OnOk result (fault_of self.old (Edit.Add parent child) ≡ None) }
        ensures after { OnOk result (self.new ≡ after self.old (Edit.Add parent child)) }
        ensures fault { IfErr result (λ e. Refuses e (fault_of self.old (Edit.Add parent child))) }
        ensures unchanged { OnErr result (self.new ≡ self.old) }
    {
        let alloc = *self.nodes.allocator();
        links::add(alloc, self.nodes.as_mut_slice(), parent, child)
    }

    /// Puts a child before a place.
    fn insert(&mut self, parent: u16, place: u16, child: u16) -> Result<(), EditError>
        ensures done { OnOk result (fault_of self.old (Edit.Insert parent place child) ≡ None) }
        ensures after { OnOk result (self.new ≡ after self.old (Edit.Insert parent place child)) }
        ensures fault { IfErr result (λ e. Refuses e (fault_of self.old (Edit.Insert parent place child))) }
        ensures unchanged { OnErr result (self.new ≡ self.old) }
    {
        let alloc = *self.nodes.allocator();
        links::insert(alloc, self.nodes.as_mut_slice(), parent, place, child)
    }

    /// Puts `by` at the first place that holds the child.
    fn replace(&mut self, parent: u16, child: u16, by: u16) -> Result<(), EditError>
        ensures done { OnOk result (fault_of self.old (Edit.Replace parent child by) ≡ None) }
        ensures after { OnOk result (self.new ≡ after self.old (Edit.Replace parent child by)) }
        ensures fault { IfErr result (λ e. Refuses e (fault_of self.old (Edit.Replace parent child by))) }
        ensures unchanged { OnErr result (self.new ≡ self.old) }
    {
        let alloc = *self.nodes.allocator();
        links::replace(alloc, self.nodes.as_mut_slice(), parent, child, by)
    }

    /// Takes out the first place that holds the child.
    fn remove(&mut self, parent: u16, child: u16) -> Result<(), EditError>
        ensures done { OnOk result (fault_of self.old (Edit.Remove parent child) ≡ None) }
        ensures after { OnOk result (self.new ≡ after self.old (Edit.Remove parent child)) }
        ensures fault { IfErr result (λ e. Refuses e (fault_of self.old (Edit.Remove parent child))) }
        ensures unchanged { OnErr result (self.new ≡ self.old) }
    {
        links::remove(self.nodes.as_mut_slice(), parent, child)
    }

    /// Takes out a node; its children stay.
    fn delete(&mut self, id: u16) -> Result<(), EditError>
        ensures done { OnOk result (fault_of self.old (Edit.Delete id) ≡ None) }
        ensures after { OnOk result (self.new ≡ after self.old (Edit.Delete id)) }
        ensures fault { IfErr result (λ e. Refuses e (fault_of self.old (Edit.Delete id))) }
        ensures unchanged { OnErr result (self.new ≡ self.old) }
    {
        if let Some(fault) = links::fault_of_delete(self.nodes.as_slice(), id) {
            return Err(EditError::Fault(fault));
        }
        self.gone.reserve(1)?;
        match take_out(&mut self.nodes, id) {
            Some(node) => self.gone.push(node.remains(id))?,
            None => {}
        }
        Ok(())
    }

    /// Changes the kind of one node.
    fn set_attribute(&mut self, e: &Edit) -> Result<(), EditError>
        requires attribute { is_attribute e.now ≡ true }
        requires fits { fits e.now ≡ true }
        ensures done { OnOk result (fault_of self.old e.now ≡ None) }
        ensures after { OnOk result (self.new ≡ after self.old e.now) }
        ensures fault { IfErr result (λ r. Refuses r (fault_of self.old e.now)) }
        ensures unchanged { OnErr result (self.new ≡ self.old) }
    {
        attributes::set_attribute(self.nodes.as_mut_slice(), self.time, e)
    }

    /// Applies an edit, or refuses it for its fault or for want of memory and stays as it was. Want of memory may come
    /// before a fault.
    pub fn edit(&mut self, e: &Edit) -> Result<(), EditError>
        requires serials { self.old.next_serial < 2 ^ 32 - 1 }
        requires fits { fits e.now ≡ true }
        ensures done { OnOk result (fault_of self.old e.now ≡ None) }
        ensures after { OnOk result (self.new ≡ after self.old e.now) }
        ensures fault { IfErr result (λ r. Refuses r (fault_of self.old e.now)) }
        ensures unchanged { OnErr result (self.new ≡ self.old) }
    {
        match e {
            Edit::Make { id, kind } => {
                let kind = kind.copy()?;
                self.make(*id, kind)
            }
            Edit::Add { parent, child } => self.add(*parent, *child),
            Edit::Insert {
                parent,
                place,
                child,
            } => self.insert(*parent, *place, *child),
            Edit::Replace { parent, child, by } => self.replace(*parent, *child, *by),
            Edit::Remove { parent, child } => self.remove(*parent, *child),
            Edit::Delete { id } => self.delete(*id),
            Edit::Pick { .. }
            | Edit::Mat { .. }
            | Edit::Trans { .. }
            | Edit::Rot { .. }
            | Edit::Scale { .. }
            | Edit::Range { .. }
            | Edit::Centre { .. }
            | Edit::Times { .. }
            | Edit::Run { .. }
            | Edit::Stop { .. }
            | Edit::Verts { .. } => self.set_attribute(e),
        }
    }
}

impl NodeView for Graph {
    ghost look = { λ g. node_at g.nodes };

    fn node(&self, id: u16) -> Option<&Node> {
        find_node(self.nodes.as_slice(), id)
    }
}
