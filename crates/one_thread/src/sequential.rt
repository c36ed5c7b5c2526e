//! The one-thread object as a program, plain and slow: each command replies and leaves just what the definitions say.
ghost use Rattle.std.specs.Prelude.{◌≡◌, ◌+◌, ◌-◌, ◌^◌, ◌<◌, true, None, ◌++◌, length, map, replicate, slice_get, IfOk, OnOk};
ghost use Rattle.std.specs.List.{filter, fold, list_all, count_by};
ghost use Rattle.std.specs.Option.{option_map_or};
ghost use Rattle.pf_model.specs.Angles.{home_view};
ghost use Rattle.pf_model.specs.Edits.{fault_of, after, effect};
ghost use Rattle.pf_model.specs.Fits.{fits};
ghost use Rattle.pf_model.specs.Merges.{merge_fault, after_all};
ghost use Rattle.pf_model.specs.Copies.{is_due, freed_by, grave_of, graves_kept};
ghost use Rattle.pf_history.specs.declared.commands.Reply.TheVariants as reply;
ghost use Rattle.pf_history.specs.Objects.{opening_state, reply_of, next_state, emptied};
ghost use Rattle.pf_history.specs.Commands.{command_fits};
ghost use Rattle.one_thread.specs.Runs.{CanCount};

use pf_history::{Command, Merge, Reply};
use pf_io::NoMemory;
use pf_model::{Edit, EditError, Fault, Gone, Serials, View};
use plain_graph::Graph;
use std::alloc::Global;
use std::marker::Model;

/// The grave of a deleted node: its serial, and the last frame that may name it.
#[derive(Clone, Copy, Debug, PartialEq, Eq)]
struct Grave {
    serial: u32,
    last: u32,
}

impl Model for Grave {
    ghost use Rattle.pf_model.specs.Copies.{GraveState};

    ghost Value = { GraveState };

    ghost view = { λ g. record { serial = g.serial; last = g.last } };

    ghost inverse = { λ g. record { serial = g.serial; last = g.last } };
}

impl Grave {
    /// Returns the grave of a node that was deleted after `frames` frames were begun. No frame names it if it was made
    /// after the last of them.
    fn of(gone: &Gone, frames: u32) -> Grave
        ensures { result ≡ grave_of frames gone.now }
    {
        let last = if gone.born <= frames { frames } else { 0 };
        Grave {
            serial: gone.serial,
            last,
        }
    }

    /// Returns whether no frame names the node once `retired` frames are retired.
    fn is_due(&self, retired: u32) -> bool
        ensures { result ≡ is_due retired self.now }
    {
        self.last <= retired
    }
}

/// Makes an edit, or returns the fault for which it is refused.
fn edit(graph: &mut Graph, e: &Edit) -> Result<Option<Fault>, NoMemory>
    requires serials { graph.old.next_serial < 2 ^ 32 - 1 }
    requires fits { fits e.now ≡ true }
    ensures fault { IfOk result (λ fault. fault ≡ fault_of graph.old e.now) }
    ensures after { OnOk result (graph.new ≡ after graph.old e.now) }
{
    match graph.edit(e) {
        Ok(()) => Ok(None),
        Err(EditError::Fault(fault)) => Ok(Some(fault)),
        Err(EditError::NoMemory) => Err(NoMemory),
    }
}

/// Returns the first fault of edits that are made one after the other, with its place counted from 1; without a fault
/// all of them are made.
fn edit_all(graph: &mut Graph, edits: &[Edit]) -> Result<Option<(u32, Fault)>, NoMemory>
    requires serials { graph.old.next_serial + length edits.now < 2 ^ 32 }
    requires fits { list_all fits edits.now ≡ true }
    ensures fault { IfOk result (λ f. f ≡ merge_fault graph.old edits.now) }
    ensures made { IfOk result (λ f. f ≡ None → graph.new ≡ fold effect graph.old edits.now) }
{
    let mut place = 0;
    for e in edits {
        place += 1;
        if let Some(fault) = edit(graph, e)? {
            return Ok(Some((place, fault)));
        }
    }
    Ok(None)
}

/// Makes all edits of a merge on a copy of the graph, which is dropped if one of them has a fault.
fn merge_all(graph: Graph, edits: &[Edit]) -> Result<(Graph, Reply), NoMemory>
    requires serials { graph.next_serial + length edits.now < 2 ^ 32 }
    requires fits { list_all fits edits.now ≡ true }
    ensures graph { IfOk result (λ merged. merged.0 ≡ after_all graph edits.now) }
    ensures reply { IfOk result (λ merged. merged.1
        ≡ option_map_or (λ f. reply.RefusedAt f.0 f.1) (merge_fault graph edits.now) reply.Done) }
{
    let mut copy = graph.copy()?;
    match edit_all(&mut copy, edits)? {
        Some((place, fault)) => Ok((graph, Reply::RefusedAt(place, fault))),
        None => Ok((copy, Reply::Done)),
    }
}

/// Returns the graves of nodes that were deleted after `frames` frames were begun, in the order of their deletion.
fn graves_of(alloc: Global, gone: &[Gone], frames: u32) -> Result<Vec<Grave>, NoMemory>
    ensures { IfOk result (λ graves. graves.items ≡ map (grave_of frames) gone.now) }
{
    Ok(
        gone.iter()
            .map(|gone| Grave::of(gone, frames))
            .collect(alloc)?,
    )
}

/// Takes the deleted nodes out of the graph into graves.
fn bury(graph: &mut Graph, frames: u32, graves: &mut Vec<Grave>) -> Result<(), NoMemory>
    ensures graph { OnOk result (graph.new ≡ emptied graph.old) }
    ensures graves { OnOk result (graves.new.items ≡ graves.old.items ++ map (grave_of frames) graph.old.gone) }
{
    let gone = graph.take_gone();
    let buried = graves_of(*graves.allocator(), gone.as_slice(), frames)?;
    graves.extend_from_slice(buried.as_slice())?;
    Ok(())
}

/// Returns the graves that stay once `retired` frames are retired.
fn kept(alloc: Global, graves: &[Grave], retired: u32) -> Result<Vec<Grave>, NoMemory>
    ensures { IfOk result (λ kept. kept.items ≡ graves_kept retired graves.now) }
{
    Ok(
        graves
            .iter()
            .copied()
            .filter(|grave| !grave.is_due(retired))
            .collect(alloc)?,
    )
}

/// Returns the number of graves that are due once `retired` frames are retired.
fn count_due(graves: &[Grave], retired: u32) -> usize
    ensures { result ≡ count_by (is_due retired) graves.now }
{
    graves.iter().filter(|grave| grave.is_due(retired)).count()
}

/// Returns the serials of the graves that are due once `retired` frames are retired, in the order of burial.
fn freed(alloc: Global, graves: &[Grave], retired: u32) -> Result<Serials, NoMemory>
    ensures { IfOk result (λ serials. serials ≡ freed_by retired graves.now) }
{
    let mut serials = Serials::with_room(alloc, count_due(graves, retired))?;
    for grave in graves {
        if grave.is_due(retired) {
            serials.push(grave.serial);
        }
    }
    match serials.finish() {
        Ok(serials) => Ok(serials),
        Err(_) => unreachable!(),
    }
}

/// Returns the view of each of `channels` channels before any is set.
#[tactic(auto, using(crate::proofs::Views::filled))]
fn home_views(alloc: Global, channels: u8) -> Result<Vec<View>, NoMemory>
    ensures { IfOk result (λ views. views.items ≡ replicate channels home_view) }
{
    let mut views = Vec::new(alloc);
    views.resize(channels as usize, View::home())?;
    Ok(views)
}

/// The one-thread object: a scene graph without deleted nodes, the view of each channel, the numbers of frames begun
/// and retired and of merges made, and the graves of the deleted nodes.
#[derive(Debug, Drop)]
pub struct Sequential {
    graph: Graph,
    views: Vec<View>,
    frames: u32,
    retired: u32,
    merges: u32,
    graves: Vec<Grave>,
}

impl Model for Sequential {
    ghost use Rattle.std.specs.Prelude.{◌≡◌, ◌+◌};
    ghost use Rattle.pf_history.specs.Objects.{FrameState};

    ghost Value = { FrameState };

    ghost view = { λ o. record {
      graph = o.graph;
      views = o.views.items;
      frames = o.frames;
      retired = o.retired;
      merges = o.merges;
      graves = o.graves.items;
    } };

    ghost invariant = { λ o. o.graph.time ≡ o.frames + 1 };
}

impl Sequential {
    /// Returns the object before the first command, with `channels` channels. Returns `Err(NoMemory)` if memory runs
    /// out.
    pub fn new(alloc: Global, channels: u8) -> Result<Sequential, NoMemory>
        ensures { IfOk result (λ o. o ≡ opening_state channels) }
    {
        let graph = Graph::new(alloc)?;
        let views = home_views(alloc, channels)?;
        Ok(Sequential {
            graph,
            views,
            frames: 0,
            retired: 0,
            merges: 0,
            graves: Vec::new(alloc),
        })
    }

    /// Returns the scene graph.
    pub fn graph(&self) -> &Graph
        ensures { result.now ≡ self.now.graph }
    {
        &self.graph
    }

    /// Returns the view of a channel, counted from 0, or `None` if there is no such channel.
    pub fn view(&self, channel: u8) -> Option<View>
        ensures { result ≡ slice_get self.now.views channel }
    {
        self.views.get(channel as usize).copied()
    }

    /// Returns the number of frames begun.
    pub fn frames(&self) -> u32
        ensures { result ≡ self.now.frames }
    {
        self.frames
    }

    /// Returns the number of frames retired.
    pub fn retired(&self) -> u32
        ensures { result ≡ self.now.retired }
    {
        self.retired
    }

    /// Returns the number of merges made, the refused ones included.
    pub fn merges(&self) -> u32
        ensures { result ≡ self.now.merges }
    {
        self.merges
    }

    /// Makes a command. Returns the object that it leaves, and the reply.
    ///
    /// Returns `Err(NoMemory)` if memory runs out; then no object is left.
    pub fn make(self, command: &Command) -> Result<(Sequential, Reply), NoMemory>
        requires counts { CanCount self command.now }
        requires fits { command_fits command.now ≡ true }
        ensures state { IfOk result (λ made. made.0 ≡ next_state self command.now) }
        ensures reply { IfOk result (λ made. made.1 ≡ reply_of self command.now) }
    {
        match command {
            Command::Edit(e) => self.edited(e),
            Command::Merge(merge) => self.merged(merge),
            Command::View(channel, view) => Ok(self.viewed(*channel, *view)),
            Command::Sync(retired) => self.synced(*retired),
            Command::Frame => Ok(self.framed()),
        }
    }

    fn edited(mut self, e: &Edit) -> Result<(Sequential, Reply), NoMemory>
        requires counts { CanCount self (Command.Edit e.now) }
        requires fits { fits e.now ≡ true }
        ensures state { IfOk result (λ made. made.0 ≡ next_state self (Command.Edit e.now)) }
        ensures reply { IfOk result (λ made. made.1 ≡ reply_of self (Command.Edit e.now)) }
    {
        let reply = match edit(&mut self.graph, e)? {
            Some(fault) => Reply::Refused(fault),
            None => Reply::Done,
        };
        bury(&mut self.graph, self.frames, &mut self.graves)?;
        Ok((self, reply))
    }

    #[tactic(auto, using(pf_history::proofs::Folds::after_all_time))]
    fn merged(self, merge: &Merge) -> Result<(Sequential, Reply), NoMemory>
        requires counts { CanCount self (Command.Merge merge.now) }
        requires fits { list_all fits merge.now.edits ≡ true }
        ensures state { IfOk result (λ made. made.0 ≡ next_state self (Command.Merge merge.now)) }
        ensures reply { IfOk result (λ made. made.1 ≡ reply_of self (Command.Merge merge.now)) }
    {
        let (mut graph, reply) = merge_all(self.graph, merge.edits.as_slice())?;
        let mut graves = self.graves;
        bury(&mut graph, self.frames, &mut graves)?;
        let merged = Sequential {
            graph,
            graves,
            merges: self.merges + 1,
            views: self.views,
            frames: self.frames,
            retired: self.retired,
        };
        Ok((merged, reply))
    }

    fn viewed(mut self, channel: u8, view: View) -> (Sequential, Reply)
        ensures state { result.0 ≡ next_state self (Command.View channel view) }
        ensures reply { result.1 ≡ reply_of self (Command.View channel view) }
    {
        if let Some(place) = self.views.get_mut(channel as usize) {
            *place = view;
        }
        (self, Reply::Done)
    }

    fn synced(mut self, retired: u32) -> Result<(Sequential, Reply), NoMemory>
        ensures state { IfOk result (λ made. made.0 ≡ next_state self (Command.Sync retired)) }
        ensures reply { IfOk result (λ made. made.1 ≡ reply_of self (Command.Sync retired)) }
    {
        let alloc = *self.graves.allocator();
        let freed = freed(alloc, self.graves.as_slice(), retired)?;
        self.graves = kept(alloc, self.graves.as_slice(), retired)?;
        self.retired = retired;
        Ok((self, Reply::Freed(freed)))
    }

    fn framed(mut self) -> (Sequential, Reply)
        requires { self.frames < 2 ^ 32 - 2 }
        ensures state { result.0 ≡ next_state self Command.Frame }
        ensures reply { result.1 ≡ reply_of self Command.Frame }
    {
        self.graph.next_frame();
        self.frames += 1;
        let begun = self.frames;
        (self, Reply::Began(begun))
    }
}
