//! What a stage may do to the scene in a turn, and what it may see of it. Each act tests its command's condition on the
//! scene that it finds, so nobody has to know the scene before the turn.
ghost use Rattle.std.specs.Prelude.{◌≡◌, ◌+◌, ◌^◌, ◌<◌, ◌↔◌, IsTrue, length};
ghost use Rattle.std.specs.List.{list_all};
ghost use Rattle.pf_model.specs.Fits.{fits};
ghost use Rattle.pf_scene.specs.Scenes.{weight_in};
ghost use Rattle.pf_scene.specs.Acts.{MayEdit, MayMerge, MayView, MaySync, MayFrame};

use crate::outcomes::{Channels, Framed, Home, Outcome, Sight, Synced, Told};
use crate::scene::Scene;
use pf_history::{Entry, Merge, Reply};
use pf_io::NoMemory;
use pf_model::{Edit, View};
use seat_lock::{Act, Glance, Logged};

/// The weight stays below this.
const WEIGHTS: u32 = 1 << 31;

impl Logged for Scene {
    type Entry = Entry;

    ghost log = { λ s. s.shared.log };

    fn entries(&self) -> u64 {
        self.entry_count()
    }
}

/// Whether so much more weight can be borne.
fn can_bear(scene: &Scene, more: usize) -> bool
    ensures { IsTrue result ↔ weight_in scene.now.shared.log + more < 2 ^ 31 }
{
    more < (WEIGHTS - scene.weight()) as usize
}

/// Whether the numbers of all these edits are in range.
fn all_fit(edits: &[Edit]) -> bool
    ensures { result ≡ list_all fits edits.now }
{
    edits.iter().all(|e| e.fits())
}

/// Whether an edit may be made.
fn may_edit(scene: &Scene, e: &Edit) -> bool
    ensures { IsTrue result ↔ MayEdit scene.now.shared e.now }
{
    if !e.fits() {
        return false;
    }
    can_bear(scene, 1)
}

/// Whether a merge may be made.
fn may_merge(scene: &Scene, m: &Merge) -> bool
    ensures { IsTrue result ↔ MayMerge scene.now.shared m.now }
{
    if !all_fit(m.edits.as_slice()) {
        return false;
    }
    let edits = m.edits.len();
    if edits >= WEIGHTS as usize {
        return false;
    }
    can_bear(scene, edits + 1)
}

/// Whether a view may be set.
fn may_view(scene: &Scene, channel: u8, view: View) -> bool
    ensures { IsTrue result ↔ MayView scene.now.shared channel view }
{
    let _ = view;
    if channel >= scene.channels() {
        return false;
    }
    can_bear(scene, 1)
}

/// Whether so many frames may be retired.
fn may_sync(scene: &Scene, retired: u32) -> bool
    ensures { IsTrue result ↔ MaySync scene.now.shared retired }
{
    if retired < scene.retired() {
        return false;
    }
    if scene.frames() < retired {
        return false;
    }
    can_bear(scene, 1)
}

/// Whether a frame may be begun, with so many draw lists.
fn may_frame(scene: &Scene, ahead: u8, lists: usize) -> bool
    ensures { IsTrue result ↔ MayFrame scene.now.shared ahead lists }
{
    if ahead != scene.ahead() {
        return false;
    }
    if lists != usize::from(scene.channels()) {
        return false;
    }
    if scene.in_flight() >= u32::from(ahead) {
        return false;
    }
    can_bear(scene, 1)
}

/// Makes an edit.
#[derive(Debug, Drop)]
pub struct EditAct {
    pub edit: Edit,
}

impl Act<Scene> for EditAct {
    ghost use Rattle.pf_scene.specs.Acts.{DoesEdit};

    type Reply = Outcome<Reply, Edit>;

    ghost does = { λ act. DoesEdit act.edit };

    fn act(self, value: &mut Scene, seat: u32) -> Outcome<Reply, Edit> {
        if !may_edit(value, &self.edit) {
            return Outcome::NotNow(self.edit);
        }
        value.seat(seat);
        match value.edit(self.edit) {
            Ok(reply) => Outcome::Entered(reply),
            Err(edit) => Outcome::NoMemory(edit),
        }
    }
}

/// Makes a merge.
#[derive(Debug, Drop)]
pub struct MergeAct {
    pub merge: Merge,
}

impl Act<Scene> for MergeAct {
    ghost use Rattle.pf_scene.specs.Acts.{DoesMerge};

    type Reply = Outcome<Reply, Merge>;

    ghost does = { λ act. DoesMerge act.merge };

    fn act(self, value: &mut Scene, seat: u32) -> Outcome<Reply, Merge> {
        if !may_merge(value, &self.merge) {
            return Outcome::NotNow(self.merge);
        }
        value.seat(seat);
        match value.merge(self.merge) {
            Ok(reply) => Outcome::Entered(reply),
            Err(merge) => Outcome::NoMemory(merge),
        }
    }
}

/// Sets the view of a channel.
#[derive(Clone, Copy, Debug, PartialEq, Eq)]
pub struct ViewAct {
    pub channel: u8,
    pub view: View,
}

impl Act<Scene> for ViewAct {
    ghost use Rattle.pf_scene.specs.Acts.{DoesView};

    type Reply = Outcome<Reply, ()>;

    ghost does = { λ act. DoesView act.channel act.view };

    fn act(self, value: &mut Scene, seat: u32) -> Outcome<Reply, ()> {
        if !may_view(value, self.channel, self.view) {
            return Outcome::NotNow(());
        }
        value.seat(seat);
        match value.view(self.channel, self.view) {
            Ok(reply) => Outcome::Entered(reply),
            Err(NoMemory) => Outcome::NoMemory(()),
        }
    }
}

/// Retires so many frames, and brings home the lists of frames that came back.
#[derive(Debug, Drop)]
pub struct SyncAct {
    pub retired: u32,
    pub home: Home,
}

impl Act<Scene> for SyncAct {
    ghost use Rattle.pf_scene.specs.Acts.{DoesSync};

    type Reply = Outcome<Synced, Home>;

    ghost does = { λ act. DoesSync act.retired act.home };

    fn act(self, value: &mut Scene, seat: u32) -> Outcome<Synced, Home> {
        if !may_sync(value, self.retired) {
            return Outcome::NotNow(self.home);
        }
        value.seat(seat);
        let mut home = self.home;
        match value.sync(self.retired, &mut home.lists) {
            Ok(reply) => Outcome::Entered(Synced { reply, home }),
            Err(NoMemory) => Outcome::NoMemory(home),
        }
    }
}

/// Begins the frame in preparation, with a draw list for each channel.
#[derive(Debug, Drop)]
pub struct FrameAct {
    pub ahead: u8,
    pub channels: Channels,
}

impl Act<Scene> for FrameAct {
    ghost use Rattle.pf_scene.specs.Acts.{DoesFrame};

    type Reply = Outcome<Framed, Channels>;

    ghost does = { λ act. DoesFrame act.ahead act.channels };

    fn act(self, value: &mut Scene, seat: u32) -> Outcome<Framed, Channels> {
        if !may_frame(value, self.ahead, self.channels.lists.len()) {
            return Outcome::NotNow(self.channels);
        }
        value.seat(seat);
        let mut channels = self.channels;
        match value.frame(self.ahead, channels.lists.as_mut_slice()) {
            Ok(cut) => Outcome::Entered(Framed { cut, channels }),
            Err(NoMemory) => Outcome::NoMemory(channels),
        }
    }
}

/// Sets the stop mark, which adds no entry.
#[derive(Clone, Copy, Debug, PartialEq, Eq)]
pub struct StopAct;

impl Act<Scene> for StopAct {
    ghost use Rattle.pf_scene.specs.Acts.{DoesStop};

    type Reply = ();

    ghost does = { λ _ seat found left reply. DoesStop found left };

    fn act(self, value: &mut Scene, seat: u32) {
        let _ = seat;
        value.stop();
    }
}

/// Tells the next entry behind so many, and hands it out beside the number of its seat. It adds no entry.
#[derive(Clone, Copy, Debug, PartialEq, Eq)]
pub struct TellAct {
    /// The number of entries that were told before.
    pub told: u64,
}

impl Act<Scene> for TellAct {
    ghost use Rattle.pf_scene.specs.Acts.{DoesTell};

    type Reply = Option<(u32, Entry)>;

    ghost does = { λ act seat found left reply. DoesTell act.told found left reply };

    fn act(self, value: &mut Scene, seat: u32) -> Option<(u32, Entry)> {
        let _ = seat;
        if value.told() != self.told {
            return None;
        }
        value.take_told()
    }
}

/// Tells the next entries behind so many, as many as a block has room for, and puts them behind those in it, each beside the
/// number of its seat. It adds no entry. None is told if another number was told before; the block says which. Where room is
/// left else, all were told.
#[derive(Debug, Drop)]
pub struct TellBlockAct {
    /// The number of entries that were told before.
    pub told: u64,
    pub block: Told,
}

impl Act<Scene> for TellBlockAct {
    ghost use Rattle.pf_scene.specs.Acts.{TellsBlock};

    type Reply = Told;

    ghost does = { λ act seat found left reply. TellsBlock act.told act.block found left reply };

    fn act(self, value: &mut Scene, seat: u32) -> Told {
        let _ = seat;
        let mut block = self.block;
        block.before = value.told();
        if block.before == self.told {
            value.tell_into(&mut block.entries);
        }
        block
    }
}

/// Shows the stop mark and the counts.
#[derive(Clone, Copy, Debug, PartialEq, Eq)]
pub struct SightGlance;

impl Glance<Scene> for SightGlance {
    ghost use Rattle.pf_scene.specs.Acts.{Shows};

    type Out = Sight;

    ghost shows = { λ _ scene sight. Shows scene sight };

    fn glance(self, value: &Scene) -> Sight {
        Sight {
            stopped: value.stopped(),
            frames: value.frames(),
            retired: value.retired(),
            merges: value.merges(),
            graves: value.graves(),
            weight: value.weight(),
            copies: value.copies(),
        }
    }
}
