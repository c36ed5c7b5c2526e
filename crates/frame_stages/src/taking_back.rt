//! The frames in flight: the loads in hand, and the packets that come back, whose pictures are written.
ghost use Rattle.std.specs.Prelude.{◌≡◌, ◌+◌, ◌<◌, ◌≤◌, ◌↔◌, ℕ, true, false, List, [], ◌∷◌, ◌++◌, length, drop, IsTrue, None, is_some, IfOk, IfSome, IfNone, IfErr, OnOk, OnErr};
ghost use Rattle.std.specs.Vec.{vec_capacity};
ghost use Rattle.stage_parts.specs.Loads.{Each, AreImages};
ghost use Rattle.stage_parts.specs.Parts.{cut_short};
ghost use Rattle.stage_parts.specs.declared.packets.Packet.TheVariants as packet;
ghost use Rattle.stage_parts.specs.Answers.{IsDry};
ghost use Rattle.frame_stages.specs.AppTurns.{Comes, LeavesHome};
ghost use Rattle.frame_stages.specs.Copies.{HoldsCopies, AreHomeward};
ghost use Rattle.pf_history.specs.declared.commands.Command.TheVariants as command;
ghost use Rattle.pf_scene.specs.Acts.{MaySync};
ghost use Rattle.frame_stages.specs.Flights.{HaveFirst, IsFitFor, begun, most_frames, IsTaken, TellsNext, IsKeptOf, CameBack, CameShort, Brings};

use crate::app_turns::{Came, make_sync};
use crate::told_stats::ToldStats;
use draw_list::{DrawList, Stats};
use frame_link::TakeEnd;
use fx_math::Lens;
use pf_io::{NoMemory, Sink};
use pf_model::View;
use pf_scene::Scene;
use seat_lock::Desk;
use stage_parts::{Load, Packet};
use std::alloc::Global;
use std::marker::Model;
use update_lists::Updates;

/// What came of bringing a packet back.
#[derive(Clone, Copy, Debug, PartialEq, Eq)]
pub(crate) enum Brought {
    /// No frame is away, or no packet came.
    Nothing,
    /// The picture was wholly written.
    Whole,
    /// A fault cut the picture short.
    Short,
}

/// How many frames were begun and how many pictures were wholly written, the loads in hand, the update lists that go home
/// with the next Sync, and the numbers of the frames that came back, of which those that were told leave memory.
#[derive(Drop)]
pub(crate) struct Flight {
    frames: u32,
    written: u32,
    fault: Option<usize>,
    spare: Vec<Load>,
    home: Vec<Updates>,
    stats: ToldStats,
    ahead: u8,
}

impl Model for Flight {
    ghost use Rattle.std.specs.Prelude.{length};
    ghost use Rattle.std.specs.Vec.{vec_capacity};
    ghost use Rattle.frame_stages.specs.Flights.{FlightState, IsInFlight};

    ghost Value = { FlightState };

    ghost view = { λ f. record {
      frames = f.frames;
      written = f.written;
      fault = f.fault;
      spare = f.spare.items;
      home = f.home.items;
      stats = f.stats.entries;
      told = f.stats.told;
      room = f.stats.spare;
      ahead = f.ahead;
    } };

    ghost invariant = { λ f. IsInFlight f.frames f.written f.ahead f.fault f.spare.items (vec_capacity f.spare)
        (vec_capacity f.home) (length f.stats.entries) f.stats.spare };
}

/// Clears a draw list, so that it has a joint, and a frame's room is not asked for behind what was drawn.
fn settle_list(list: &mut DrawList)
    ensures { 0 < length list.new.joints.lists }
{
    list.clear(&View::home());
}

/// Clears draw lists, so that each has a joint.
fn settle_all(lists: &mut [DrawList])
    ensures first { HaveFirst lists.new }
    ensures many { length lists.new ≡ length lists.old }
{
    for i in 0..lists.len() {
        settle_list(&mut lists[i]);
    }
}

/// Clears the draw lists of a load, so that each has a joint.
fn settle(alloc: Global, load: &mut Load)
    ensures first { HaveFirst load.new.lists }
    ensures many { length load.new.lists ≡ length load.old.lists }
    ensures same { load.new ≡ record load.old { lists = load.new.lists } }
{
    let mut lists = Vec::new(alloc);
    load.swap_lists(&mut lists);
    settle_all(lists.as_mut_slice());
    load.swap_lists(&mut lists);
}

/// A load without a frame.
pub(crate) fn new_load(alloc: Global, lens: &Lens, channels: u8) -> Result<Load, NoMemory>
    ensures first { IfOk result (λ l. HaveFirst l.lists) }
    ensures lists { IfOk result (λ l. length l.lists ≡ channels) }
    ensures images { IfOk result (λ l. AreImages lens.now channels l.images) }
{
    let mut load = Load::new(alloc, lens, channels)?;
    settle(alloc, &mut load);
    Ok(load)
}

/// So many loads.
fn new_loads(alloc: Global, lens: &Lens, ahead: u8, channels: u8) -> Result<Vec<Load>, NoMemory>
    ensures many { IfOk result (λ v. length v.items ≡ ahead) }
    ensures room { IfOk result (λ v. ahead ≤ vec_capacity v) }
    ensures first { IfOk result (λ v. Each (λ l. HaveFirst l.lists) v.items) }
    ensures fit { IfOk result (λ v. Each (IsFitFor lens.now channels) v.items) }
{
    let mut loads = Vec::with_capacity(alloc, ahead as usize)?;
    for i in 0..ahead {
        let load = new_load(alloc, lens, channels)?;
        loads.push_reserved(load);
    }
    Ok(loads)
}

/// Keeps an update list that came back, where there is room for it.
fn bring_home(home: &mut Vec<Updates>, updates: Updates)
    ensures kept { length home.old.items < vec_capacity home.old
        → home.new.items ≡ home.old.items ++ updates ∷ [] }
    ensures capacity { vec_capacity home.new ≡ vec_capacity home.old }
{
    if home.len() < home.capacity() {
        home.push_reserved(updates);
    }
}

impl Flight {
    /// No frame in flight yet, and as many loads in hand as frames may be.
    pub(crate) fn new(
        alloc: Global,
        lens: &Lens,
        ahead: u8,
        channels: u8,
    ) -> Result<Flight, NoMemory>
        ensures state { IfOk result (λ f. f ≡ record {
          frames = 0;
          written = 0;
          fault = None;
          spare = f.spare;
          home = [];
          stats = [];
          told = 0;
          room = f.room;
          ahead = ahead;
        }) }
        ensures loads { IfOk result (λ f. length f.spare ≡ ahead) }
        ensures fit { IfOk result (λ f. Each (IsFitFor lens.now channels) f.spare) }
    {
        let spare = new_loads(alloc, lens, ahead, channels)?;
        let home = Vec::with_capacity(alloc, ahead as usize)?;
        Ok(Flight {
            frames: 0,
            written: 0,
            fault: None,
            spare,
            home,
            stats: ToldStats::new(alloc),
            ahead,
        })
    }

    /// Where its memory is from.
    pub(crate) fn allocator(&self) -> Global {
        *self.home.allocator()
    }

    /// How many frames may be in flight.
    pub(crate) fn ahead(&self) -> u8
        ensures { result ≡ self.now.ahead }
    {
        self.ahead
    }

    /// The number of frames that were begun.
    pub(crate) fn frames(&self) -> u32
        ensures { result ≡ self.now.frames }
    {
        self.frames
    }

    /// Whether a frame is away whose picture is not written.
    pub(crate) fn is_away(&self) -> bool
        ensures yes { result ≡ true → self.now.written < self.now.frames }
        ensures no { result ≡ false → self.now.frames ≤ self.now.written }
    {
        self.written < self.frames
    }

    /// Whether one more frame may be in flight.
    pub(crate) fn has_room(&self) -> bool
        ensures yes { result ≡ true → self.now.frames < self.now.written + self.now.ahead }
        ensures no { result ≡ false → self.now.written + self.now.ahead ≤ self.now.frames }
    {
        self.frames - self.written < u32::from(self.ahead)
    }

    /// Whether a fault cut a picture short.
    pub(crate) fn is_cut(&self) -> bool
        ensures { result ≡ is_some self.now.fault }
    {
        self.fault.is_some()
    }

    /// The numbers of the frames that came back and were not told, in order.
    pub(crate) fn stats(&self) -> &[Stats]
        ensures { result.now ≡ drop self.now.told self.now.stats }
    {
        self.stats.untold()
    }

    /// The number of frames that came back.
    pub(crate) fn frames_back(&self) -> usize
        ensures { result ≡ length self.now.stats }
    {
        self.stats.len()
    }

    /// Tells the oldest numbers that were not told: hands them out. Returns None where all were told.
    pub(crate) fn take_stats(&mut self) -> Option<Stats>
        ensures tells { TellsNext self.old.stats self.old.told self.new.told result }
        ensures same { self.new ≡ record self.old { told = self.new.told } }
    {
        self.stats.take()
    }

    /// The numbers of the frames that came back and were not told, in order.
    pub(crate) fn into_stats(self) -> Vec<Stats>
        ensures { result.items ≡ drop self.told self.stats }
    {
        self.stats.into_untold()
    }

    /// Keeps a load that came back, its numbers, and the update list that goes home.
    fn keep(&mut self, mut load: Load)
        requires loads { length self.old.spare + 1 + self.old.frames
            ≤ self.old.ahead + (self.old.written + cut_short self.old.fault) }
        requires stats { length self.old.stats + 1 ≤ self.old.written + cut_short self.old.fault }
        ensures kept { IsKeptOf (packet.Frame load) self.old self.new }
        ensures same { self.new ≡ record self.old {
          spare = self.new.spare;
          home = self.new.home;
          stats = self.new.stats;
          room = self.new.room;
        } }
    {
        self.stats.push_reserved(load.stats());
        bring_home(&mut self.home, load.take_updates());
        load.clear_bytes();
        settle(*self.home.allocator(), &mut load);
        self.spare.push_reserved(load);
    }

    /// Writes the picture of a load that came back, wholly or up to a fault, and answers whether it was written wholly.
    fn write_load<O: Sink>(&mut self, load: Load, sink: &mut O) -> bool
        requires away { self.old.written < self.old.frames }
        requires whole { self.old.fault ≡ None }
        ensures back { result ≡ true → CameBack (packet.Frame load) self.old self.new
            (record { bytes = O.written sink.old; faults = O.faults sink.old; at_fault = O.at_fault sink.old })
            (record { bytes = O.written sink.new; faults = O.faults sink.new; at_fault = O.at_fault sink.new }) }
        ensures short { result ≡ false → CameShort (packet.Frame load) self.old self.new
            (record { bytes = O.written sink.old; faults = O.faults sink.old; at_fault = O.at_fault sink.old })
            (record { bytes = O.written sink.new; faults = O.faults sink.new; at_fault = O.at_fault sink.new }) }
    {
        match load.write_to(sink) {
            Ok(()) => {
                self.written += 1;
                self.keep(load);
                true
            }
            Err(error) => {
                self.fault = Some(error.written);
                self.keep(load);
                false
            }
        }
    }

    /// Writes the picture of a packet that came back. The End has none.
    fn write<O: Sink>(&mut self, packet: Packet, sink: &mut O) -> bool
        requires away { self.old.written < self.old.frames }
        requires whole { self.old.fault ≡ None }
        ensures back { result ≡ true → CameBack packet self.old self.new
            (record { bytes = O.written sink.old; faults = O.faults sink.old; at_fault = O.at_fault sink.old })
            (record { bytes = O.written sink.new; faults = O.faults sink.new; at_fault = O.at_fault sink.new }) }
        ensures short { result ≡ false → CameShort packet self.old self.new
            (record { bytes = O.written sink.old; faults = O.faults sink.old; at_fault = O.at_fault sink.old })
            (record { bytes = O.written sink.new; faults = O.faults sink.new; at_fault = O.at_fault sink.new }) }
    {
        match packet {
            Packet::End => {
                self.written += 1;
                true
            }
            Packet::Frame(load) => self.write_load(load, sink),
        }
    }

    /// Takes a packet back, where a frame is away and one came, and writes its picture.
    pub(crate) fn bring_back<T: TakeEnd<Packet>, O: Sink>(
        &mut self,
        from: &mut T,
        sink: &mut O,
    ) -> Brought
        requires whole { self.old.fault ≡ None }
        ensures brings { Brings result self.old self.new (T.taken from.old) (T.taken from.new) (T.told_sent from.old)
            (record { bytes = O.written sink.old; faults = O.faults sink.old; at_fault = O.at_fault sink.old })
            (record { bytes = O.written sink.new; faults = O.faults sink.new; at_fault = O.at_fault sink.new }) }
        ensures link { T.take_at from.new ≡ T.take_at from.old }
        ensures room { T.take_room from.new ≡ T.take_room from.old }
        ensures other_end { T.told_sent from.new ≡ T.told_sent from.old }
    {
        if !self.is_away() {
            return Brought::Nothing;
        }
        match from.pop() {
            None => Brought::Nothing,
            Some(packet) => {
                if self.write(packet, sink) {
                    Brought::Whole
                } else {
                    Brought::Short
                }
            }
        }
    }

    /// Makes room for the numbers of one frame more. It is refused only where there is none.
    pub(crate) fn make_room(&mut self) -> Result<(), NoMemory>
        requires few { self.old.frames < most_frames }
        ensures room { OnOk result (self.old.frames < length self.new.stats + self.new.room) }
        ensures full { OnErr result (length self.old.stats + self.old.room ≤ self.old.frames) }
        ensures same { self.new ≡ record self.old { room = self.new.room } }
    {
        let away = self.frames as usize - self.stats.len();
        self.stats.reserve(away + 1)
    }

    /// Takes a load out of hand for the next frame, where one is there.
    pub(crate) fn take_load(&mut self) -> Option<Load>
        requires few { self.old.frames < most_frames }
        requires room { self.old.frames < length self.old.stats + self.old.room }
        ensures some { IfSome result (λ l. self.old.spare ≡ self.new.spare ++ l ∷ []) }
        ensures first { IfSome result (λ l. HaveFirst l.lists) }
        ensures taken { IfSome result (λ l. IsTaken self.new) }
        ensures none { IfNone result ((self.old.spare ≡ []) × (self.new ≡ self.old)) }
        ensures same { self.new ≡ record self.old { spare = self.new.spare } }
    {
        self.spare.pop()
    }

    /// Puts a load back into the hand from which it was taken.
    pub(crate) fn put_back(&mut self, load: Load)
        requires taken { IsTaken self.old }
        requires first { HaveFirst load.lists }
        ensures { self.new ≡ record self.old { spare = self.old.spare ++ load ∷ [] } }
    {
        self.spare.push_reserved(load);
    }

    /// Begins a frame with a load that was taken out of hand.
    pub(crate) fn begin(&mut self)
        requires { IsTaken self.old }
        ensures { self.new ≡ begun self.old }
    {
        self.frames += 1;
    }

    /// Retires the frames whose pictures are written, and sends the update lists home that came back.
    pub(crate) fn sync<D: Desk<Scene>>(&mut self, desk: &mut D) -> Came
        ensures same { self.new ≡ record self.old { home = self.new.home } }
        ensures counted { AreHomeward self.old.written (D.told desk.old) self.old.home
            → HoldsCopies (D.told desk.old) → HoldsCopies (D.told desk.new) }
        ensures home { LeavesHome result self.old.home self.new.home }
        ensures came { Comes (D.number desk.old) (command.Sync self.old.written) (λ s. MaySync s self.old.written)
            (D.seen desk.old) (D.told desk.old) result (D.seen desk.new) (D.told desk.new) }
        ensures number { D.number desk.new ≡ D.number desk.old }
        ensures stands { D.stands desk.new ≡ D.stands desk.old }
    {
        let alloc = *self.home.allocator();
        make_sync(alloc, desk, self.written, &mut self.home)
    }
}
