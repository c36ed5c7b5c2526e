//! The scene: the graph, the views, the frames, the graves and the history as one value.
ghost use Rattle.std.specs.Prelude.{◌≡◌, ◌⊎◌, ◌+◌, ◌-◌, ◌^◌, ◌<◌, ◌≤◌, true, false, None, length, map, OnOk, OnErr, IfOk, IfErr, [], ◌∷◌, ◌++◌};
ghost use Rattle.std.specs.List.{list_all};
ghost use Rattle.std.specs.Vec.{vec_capacity};
ghost use Rattle.pf_model.specs.Limits.{IsGraphWithinLimits};
ghost use Rattle.pf_model.specs.Fits.{fits};
ghost use Rattle.pf_model.specs.Edits.{fault_of};
ghost use Rattle.pf_history.specs.declared.commands.Command.TheVariants as command;
ghost use Rattle.pf_history.specs.Objects.{reply_of};
ghost use Rattle.pf_history.specs.Logs.{IsLegal};
ghost use Rattle.pf_history.specs.Cuts.{cut_of};
ghost use Rattle.pf_scene.specs.Scenes.{KeepsCopies, AreOfRetired, TakesHome, state_in, entered, weight_in, HasWeight, copies_after, one_more, IsSmall, TellsOne, TellsNext, next_told};
ghost use Rattle.pf_scene.specs.Stock.{first_fault};
ghost use Rattle.pf_scene.specs.Batches.{IsFull};
ghost use Rattle.pf_scene.specs.Frames.{IsCutOf, AllHaveRoom, drawn};

use crate::entries::Entries;
use crate::world::World;
use crate::{copies, lists, replies};
use draw_list::DrawList;
use pf_history::{Command, Entry, History, Merge, Reply};
use pf_io::NoMemory;
use pf_model::{Edit, Serials, View};
use std::alloc::Global;
use std::marker::Model;
use update_lists::{Cut, Updates, Views};

/// The scene that all stages share: the state of the one-thread object, and its history. Each command that is done adds
/// the object's own entry under the number of the seat in charge.
pub struct Scene {
    alloc: Global,
    world: World,
    views: Vec<View>,
    frames: u32,
    retired: u32,
    merges: u32,
    history: Entries,
    weight: u32,
    copies: u32,
    seat: u32,
    ahead: u8,
    channels: u8,
    stopped: bool,
}

/// Written out, so that to drop one is a single call.
impl Drop for Scene {
    fn drop(self) {
        let Self {
            alloc: _,
            world: _,
            views: _,
            frames: _,
            retired: _,
            merges: _,
            history: _,
            weight: _,
            copies: _,
            seat: _,
            ahead: _,
            channels: _,
            stopped: _,
        } = self;
    }
}

impl Model for Scene {
    ghost use Rattle.pf_scene.specs.Scenes.{SceneState, KeepsScene};
    ghost use Rattle.pf_scene.specs.Counts.{are_accounted, outs};

    ghost Value = { SceneState };

    ghost view = { λ s. record {
      shared = record {
        log = s.history.entries;
        seat = s.seat;
        stopped = s.stopped;
        ahead = s.ahead;
        channels = s.channels;
      };
      copies = s.copies;
      out = outs s.world.graph.next_serial s.world.cycles;
      accounted = are_accounted s.ahead s.channels s.history.entries s.world.cycles;
      told = s.history.told;
    } };

    ghost invariant = { λ s. KeepsScene s.ahead s.channels s.history.entries (record {
      graph = s.world.graph;
      views = s.views.items;
      frames = s.frames;
      retired = s.retired;
      merges = s.merges;
      graves = s.world.graves;
    }) s.world.marks s.weight s.copies s.world.cycles };
}

impl Scene {
    /// Returns the scene before the first command, for `ahead` frames ahead of the last retired one and `channels`
    /// channels, each 1 to 4. There is no stop mark, and the seat in charge is 0. Returns `Err(NoMemory)` if memory
    /// runs out.
    pub fn new(alloc: Global, ahead: u8, channels: u8) -> Result<Scene, NoMemory>
        requires ahead { IsSmall ahead }
        requires channels { IsSmall channels }
        ensures { IfOk result (λ s. s ≡ record {
          shared = record { log = []; seat = 0; stopped = false; ahead = ahead; channels = channels };
          copies = 0;
          out = 0 ∷ [];
          accounted = true;
          told = 0;
        }) }
    {
        Ok(Scene {
            alloc,
            world: World::new(alloc, ahead + 1)?,
            views: replies::home_views(alloc, channels)?,
            frames: 0,
            retired: 0,
            merges: 0,
            history: Entries::new(alloc),
            weight: 0,
            copies: 0,
            seat: 0,
            ahead,
            channels,
            stopped: false,
        })
    }

    /// Does nothing: tells that the history is legal, that the graph is within the limits, and that the numbers of
    /// frames ahead and of channels are from 1 to 4.
    pub fn keeps(&self)
        ensures legal { IsLegal self.now.shared.channels self.now.shared.log }
        ensures limits { IsGraphWithinLimits (state_in self.now.shared).graph }
        ensures ahead { IsSmall self.now.shared.ahead }
        ensures channels { IsSmall self.now.shared.channels }
    {
        self.world.keeps_limits();
    }

    /// How many frames may be ahead of the last retired one, from 1 to 4.
    pub fn ahead(&self) -> u8
        ensures { result ≡ self.now.shared.ahead }
    {
        self.ahead
    }

    /// The number of channels, from 1 to 4.
    pub fn channels(&self) -> u8
        ensures { result ≡ self.now.shared.channels }
    {
        self.channels
    }

    /// The number of frames begun.
    pub fn frames(&self) -> u32
        ensures { result ≡ (state_in self.now.shared).frames }
    {
        self.frames
    }

    /// The number of frames retired.
    pub fn retired(&self) -> u32
        ensures value { result ≡ (state_in self.now.shared).retired }
        ensures begun { result ≤ (state_in self.now.shared).frames }
    {
        self.retired
    }

    /// The number of merges made, the refused ones included.
    pub fn merges(&self) -> u32
        ensures { result ≡ (state_in self.now.shared).merges }
    {
        self.merges
    }

    /// The number of deleted nodes that are not freed yet.
    pub fn graves(&self) -> usize
        ensures { result ≡ length (state_in self.now.shared).graves }
    {
        self.world.graves()
    }

    /// Whether the stop mark is set.
    pub fn stopped(&self) -> bool
        ensures { result ≡ self.now.shared.stopped }
    {
        self.stopped
    }

    /// The number of the entries and of the edits of merges.
    pub fn weight(&self) -> u32
        ensures value { result ≡ weight_in self.now.shared.log }
        ensures bound { result < 2 ^ 31 }
    {
        self.weight
    }

    /// The number of entries of the log.
    pub fn entry_count(&self) -> u64
        ensures { result ≡ length self.now.shared.log }
    {
        self.history.len() as u64
    }

    /// The number of frames that were begun and are not retired.
    pub fn in_flight(&self) -> u32
        ensures { result + (state_in self.now.shared).retired ≡ (state_in self.now.shared).frames }
    {
        let retired = self.retired();
        self.frames() - retired
    }

    /// The greatest number of copies that a geode's cycle has had, and 0 before the first cycle was made.
    pub fn copies(&self) -> u32
        ensures { result ≡ self.now.copies }
    {
        self.copies
    }

    /// The entries that follow stand under this seat number. It takes no memory.
    pub fn seat(&mut self, number: u32)
        ensures { self.new ≡ record self.old { shared = record self.old.shared { seat = number } } }
    {
        self.seat = number;
    }

    /// Sets the stop mark.
    pub fn stop(&mut self)
        ensures { self.new ≡ record self.old { shared = record self.old.shared { stopped = true } } }
    {
        self.stopped = true;
    }

    /// Tells the oldest entry that was not told: hands it out, beside the number of its seat, and forgets it, so that it
    /// leaves memory. Returns None where all were told. Nothing else changes.
    pub fn take_told(&mut self) -> Option<(u32, Entry)>
        ensures { TellsOne self.old self.new result }
    {
        self.history.take()
    }

    /// Tells the oldest entries that were not told, in order, as many as there is room for: puts each behind those of `into`,
    /// beside the number of its seat, and forgets it, so that it leaves memory. Nothing else changes.
    pub fn tell_into(&mut self, into: &mut Vec<(u32, Entry)>)
        ensures told { TellsNext (vec_capacity into.old - length into.old.items) self.old self.new }
        ensures entries { into.new.items
            ≡ into.old.items ++ next_told (vec_capacity into.old - length into.old.items) self.old }
        ensures room { vec_capacity into.new ≡ vec_capacity into.old }
    {
        self.history.take_into(into);
    }

    /// The number of entries that were told.
    pub fn told(&self) -> u64
        ensures { result ≡ self.now.told }
    {
        self.history.told() as u64
    }

    /// The history.
    pub fn into_history(self) -> History
        ensures entries { result.entries ≡ self.shared.log }
        ensures told { result.told ≡ self.told }
    {
        let Self {
            alloc: _,
            world: _,
            views: _,
            frames: _,
            retired: _,
            merges: _,
            history,
            weight: _,
            copies: _,
            seat: _,
            ahead: _,
            channels: _,
            stopped: _,
        } = self;
        history.into_history()
    }

    /// Sets the view of a channel, counted from 0. Returns the reply, `Done`.
    ///
    /// Returns `Err(NoMemory)` if memory runs out, and leaves the scene as it was.
    pub fn view(&mut self, channel: u8, view: View) -> Result<Reply, NoMemory>
        requires channel { channel < self.old.shared.channels }
        requires weight { HasWeight self.old.shared (command.View channel view) }
        ensures entered { OnOk result (self.new.shared ≡ entered (command.View channel view) self.old.shared) }
        ensures told { self.new.told ≡ self.old.told }
        ensures reply { IfOk result (λ r. r ≡ reply_of (state_in self.old.shared) (command.View channel view)) }
        ensures copies { self.new.copies ≡ self.old.copies }
        ensures accounted { KeepsCopies self.old → KeepsCopies self.new }
        ensures unchanged { OnErr result (self.new ≡ self.old) }
    {
        self.history.reserve()?;
        self.views[channel as usize] = view;
        let entry = replies::own_entry(Command::View(channel, view), Reply::Done);
        self.history.push_reserved(self.seat, entry);
        self.weight += 1;
        Ok(Reply::Done)
    }

    /// Retires `retired` frames, counted from the first, and frees the deleted nodes that only they name. The triangles
    /// of the lists that returned go back to their cycles, whatever else is in the lists, and no list is left. Returns
    /// the reply, with the serials of the nodes that were freed.
    ///
    /// Returns `Err(NoMemory)` if memory runs out, and leaves the scene and the lists as they were.
    pub fn sync(&mut self, retired: u32, home: &mut Vec<Updates>) -> Result<Reply, NoMemory>
        requires back { (state_in self.old.shared).retired ≤ retired }
        requires begun { retired ≤ (state_in self.old.shared).frames }
        requires weight { HasWeight self.old.shared (command.Sync retired) }
        ensures entered { OnOk result (self.new.shared ≡ entered (command.Sync retired) self.old.shared) }
        ensures told { self.new.told ≡ self.old.told }
        ensures reply { IfOk result (λ r. r ≡ reply_of (state_in self.old.shared) (command.Sync retired)) }
        ensures home { OnOk result (home.new.items ≡ []) }
        ensures taken { OnOk result (TakesHome home.old.items self.old self.new) }
        ensures copies { self.new.copies ≡ self.old.copies }
        ensures accounted { OnOk result (AreOfRetired retired self.old.shared home.old.items
            → KeepsCopies self.old → KeepsCopies self.new) }
        ensures unchanged { OnErr result (self.new ≡ self.old) }
        ensures left { OnErr result (home.new.items ≡ home.old.items) }
        ensures capacity { vec_capacity home.new ≡ vec_capacity home.old }
    {
        self.history.reserve()?;
        self.world.keeps_limits();
        let due = self.world.due(retired);
        let mut freed = Serials::with_room(self.alloc, due)?;
        let mut told = Serials::with_room(self.alloc, due)?;
        self.world.sync(retired, home, &mut freed);
        self.retired = retired;
        let freed = replies::whole(freed);
        replies::tell_again(freed.as_slice(), &mut told);
        let entry = replies::own_entry(Command::Sync(retired), Reply::Freed(freed));
        self.history.push_reserved(self.seat, entry);
        self.weight += 1;
        Ok(Reply::Freed(replies::whole(told)))
    }

    /// Makes an edit, whose numbers are in the ranges of a play. Returns the reply, and a fault is one.
    ///
    /// Returns `Err` with the edit if memory runs out, and leaves the scene as it was. That comes only if the edit has
    /// no fault or the entry finds no room. Room for entries is made for 64 at a time.
    pub fn edit(&mut self, e: Edit) -> Result<Reply, Edit>
        requires fits { fits e ≡ true }
        requires weight { HasWeight self.old.shared (command.Edit e) }
        ensures entered { OnOk result (self.new.shared ≡ entered (command.Edit e) self.old.shared) }
        ensures told { self.new.told ≡ self.old.told }
        ensures reply { IfOk result (λ r. r ≡ reply_of (state_in self.old.shared) (command.Edit e)) }
        ensures copies { OnOk result (self.new.copies
            ≡ copies_after self.old.shared.ahead (state_in self.old.shared) (command.Edit e) self.old.copies) }
        ensures accounted { KeepsCopies self.old → KeepsCopies self.new }
        ensures memory { OnErr result (IsFull self.old.shared.log
            ⊎ (fault_of (state_in self.old.shared).graph e ≡ None)) }
        ensures unchanged { OnErr result (self.new ≡ self.old) }
        ensures back { IfErr result (λ back. back ≡ e) }
    {
        if self.history.reserve().is_err() {
            return Err(e);
        }
        let fault = match self.world.edit(&e, self.frames) {
            Ok(fault) => fault,
            Err(NoMemory) => return Err(e),
        };
        self.copies = copies::after_edit(self.copies, self.ahead, &e, fault);
        let entry = replies::own_entry(Command::Edit(e), replies::of_edit(fault));
        self.history.push_reserved(self.seat, entry);
        self.weight += 1;
        Ok(replies::of_edit(fault))
    }

    /// Makes all edits of a buffer, or none of them if one has a fault. Their numbers are in the ranges of a play.
    /// Returns the reply, and the first fault is one.
    ///
    /// Returns `Err` with the merge if memory runs out, and leaves the scene as it was. That comes only if the first
    /// edit has no fault or the entry finds no room, as in `edit`.
    pub fn merge(&mut self, m: Merge) -> Result<Reply, Merge>
        requires fits { list_all fits m.edits ≡ true }
        requires weight { HasWeight self.old.shared (command.Merge m) }
        ensures entered { OnOk result (self.new.shared ≡ entered (command.Merge m) self.old.shared) }
        ensures told { self.new.told ≡ self.old.told }
        ensures reply { IfOk result (λ r. r ≡ reply_of (state_in self.old.shared) (command.Merge m)) }
        ensures copies { OnOk result (self.new.copies
            ≡ copies_after self.old.shared.ahead (state_in self.old.shared) (command.Merge m) self.old.copies) }
        ensures accounted { KeepsCopies self.old → KeepsCopies self.new }
        ensures memory { OnErr result (IsFull self.old.shared.log
            ⊎ (first_fault (state_in self.old.shared).graph m.edits ≡ None)) }
        ensures unchanged { OnErr result (self.new ≡ self.old) }
        ensures back { IfErr result (λ back. back ≡ m) }
    {
        if self.history.reserve().is_err() {
            return Err(m);
        }
        let fault = match self.world.merge(&m.edits, self.frames) {
            Ok(fault) => fault,
            Err(NoMemory) => return Err(m),
        };
        let edits = m.edits.len() as u32;
        self.copies = copies::after_merge(self.copies, self.ahead, m.edits.as_slice(), fault);
        let entry = replies::own_entry(Command::Merge(m), replies::of_merge(fault));
        self.history.push_reserved(self.seat, entry);
        self.merges += 1;
        self.weight += 1 + edits;
        Ok(replies::of_merge(fault))
    }

    /// Begins the frame in preparation, and makes room for a frame of this size in the draw list of each channel.
    /// `ahead` is that of the scene. Returns the cut of the frame.
    ///
    /// Returns `Err(NoMemory)` if memory runs out. Then there may be more room and more copies of triangles, and
    /// nothing else has changed.
    #[tactic(auto, using(crate::proofs::Counted::no_fewer))]
    pub fn frame(&mut self, ahead: u8, lists: &mut [DrawList]) -> Result<Cut, NoMemory>
        requires ahead { ahead ≡ self.old.shared.ahead }
        requires room { (state_in self.old.shared).frames < (state_in self.old.shared).retired + ahead }
        requires lists { length lists.old ≡ self.old.shared.channels }
        requires weight { HasWeight self.old.shared command.Frame }
        ensures entered { OnOk result (self.new.shared ≡ entered command.Frame self.old.shared) }
        ensures told { self.new.told ≡ self.old.told }
        ensures cut { IfOk result (λ c. IsCutOf c self.old.shared) }
        ensures updates { IfOk result (λ c. c.updates
            ≡ cut_of self.new.shared.channels self.new.shared.log c.frame) }
        ensures room { OnOk result (AllHaveRoom (state_in self.old.shared).graph lists.new) }
        ensures lists { map drawn lists.new ≡ map drawn lists.old }
        ensures copies { self.old.copies ≤ self.new.copies }
        ensures few { self.new.copies ≤ one_more self.old.copies }
        ensures accounted { KeepsCopies self.old → KeepsCopies self.new }
        ensures unchanged { OnErr result (self.new.shared ≡ self.old.shared) }
    {
        let _ = ahead;
        self.world.keeps_limits();
        self.history.reserve()?;
        let (size, tris) = (self.world.size(), self.world.tris());
        lists::make_room(lists, size as usize, tris as usize)?;
        let views = Views::of(self.alloc, self.views.as_slice())?;
        let cut = self.world.cut();
        self.copies = copies::after_frame(self.copies, self.world.most_copies());
        let updates = cut?;
        self.world.next_frame();
        self.frames += 1;
        let frame = self.frames;
        let entry = replies::own_entry(Command::Frame, Reply::Began(frame));
        self.history.push_reserved(self.seat, entry);
        self.weight += 1;
        Ok(Cut {
            frame,
            views,
            size,
            tris,
            updates,
        })
    }
}
