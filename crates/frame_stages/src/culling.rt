//! The cull of a load.
ghost use Rattle.std.specs.Prelude.{◌≡◌, ℕ, ◌<◌, slice_get, Some};
ghost use Rattle.pf_model.specs.Angles.{Viewpoint};
ghost use Rattle.pf_model.specs.Graphs.{node_at};
ghost use Rattle.draw_list.specs.Lists.{Drawables};
ghost use Rattle.multibuffer.specs.StageCopies.{boxes_of};
ghost use Rattle.cull_walk.specs.Premises.{CanBeExact};
ghost use Rattle.frame_stages.specs.CullBoxes.{IsWalk, sight_of};
ghost use Rattle.frame_stages.specs.Culling.{added, IsChannel, CanCullAll, AreAllCulled};
ghost use Rattle.frame_stages.specs.CullWorks.{CullsLoad};

use cull_walk::cull;
use cull_walk::laws::draw_order_is_one;
use draw_list::{DrawList, Stats};
use fx_math::Lens;
use multibuffer::StageCopy;
use pf_model::{Steps, View};
use stage_parts::Load;
use std::alloc::Global;
use std::marker::Brand;
use std::sync::ledger::{Blank, Ledger};
use update_lists::Views;

/// No numbers yet.
const NO_STATS: Stats = Stats {
    shown: 0,
    states: 0,
    visited: 0,
};

/// The numbers of two channels, added; each stands still at the greatest value of its type.
fn added(a: Stats, b: Stats) -> Stats
    ensures { result ≡ added a b }
{
    Stats {
        shown: a.shown.saturating_add(b.shown),
        states: a.states.saturating_add(b.states),
        visited: a.visited.saturating_add(b.visited),
    }
}

/// Culls a copy for a view, and puts the list in order. The steps are counted by a counter that nobody reads.
fn counted<L: Ledger>(
    blank: Blank,
    copy: &StageCopy,
    time: u32,
    view: &View,
    lens: &Lens,
    list: &mut DrawList,
) -> Stats
    requires name { blank.name ≡ L.name }
    requires parts { blank.parts ≡ L.parts }
    requires some { 0 < L.parts }
    ensures exact { CanBeExact (node_at copy.now.nodes) (boxes_of copy.now) time list.old
        → IsChannel (node_at copy.now.nodes) time view.now lens.now list.new result }
    ensures walk { IsWalk (sight_of copy.now time lens.now) view.now list.old list.new }
{
    draw_order_is_one();
    let mut steps = Steps::<L>::new(blank);
    let stats = cull(copy, time, view, lens, list, &mut steps);
    list.order();
    stats
}

/// Culls a channel over a copy. Where there is no view of the channel, it leaves the list alone.
fn cull_channel(
    copy: &StageCopy,
    time: u32,
    views: &Views,
    channel: usize,
    lens: &Lens,
    list: &mut DrawList,
) -> Stats
    ensures walk { (v : Viewpoint) → slice_get views.now channel ≡ Some v
        → IsWalk (sight_of copy.now time lens.now) v list.old list.new }
    ensures exact { (v : Viewpoint) → slice_get views.now channel ≡ Some v
        → CanBeExact (node_at copy.now.nodes) (boxes_of copy.now) time list.old
        → IsChannel (node_at copy.now.nodes) time v lens.now list.new result }
{
    let Some(view) = views.at(channel) else {
        return NO_STATS;
    };
    counted::<Brand>(Blank::new(1), copy, time, view, lens, list)
}

/// Culls all channels over a copy by its boxes, each into its list, and answers the numbers of the frame.
fn cull_all(
    copy: &StageCopy,
    time: u32,
    views: &Views,
    lens: &Lens,
    lists: &mut [DrawList],
) -> Stats
    ensures walks { (i : ℕ) (v : Viewpoint) (d e : Drawables) → slice_get views.now i ≡ Some v
        → slice_get lists.old i ≡ Some d → slice_get lists.new i ≡ Some e → IsWalk (sight_of copy.now time lens.now) v d e }
    ensures exact { CanCullAll copy.now time views.now lists.old
        → AreAllCulled copy.now time views.now lens.now lists.new result }
{
    let mut stats = NO_STATS;
    for channel in 0..lists.len() {
        let seen = cull_channel(copy, time, views, channel, lens, &mut lists[channel]);
        stats = added(stats, seen);
    }
    stats
}

/// Takes the update list of a load into the copy, which leaves in its place what stood there, and culls all channels of
/// the load.
pub(crate) fn cull_load(alloc: Global, copy: &mut StageCopy, lens: &Lens, load: &mut Load)
    ensures { CullsLoad lens.now copy.old copy.new load.old load.new }
{
    let stood = copy.take(load.take_updates());
    load.set_updates(stood);
    let mut lists = Vec::new(alloc);
    load.swap_lists(&mut lists);
    let cut = load.cut();
    let stats = cull_all(copy, cut.frame, &cut.views, lens, lists.as_mut_slice());
    load.swap_lists(&mut lists);
    load.set_stats(stats);
}
