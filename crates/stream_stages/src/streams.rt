//! The walk of the streamed draw list.
ghost use Rattle.std.specs.Prelude.{◌≡◌, ℕ, ◌+◌, ◌<◌, ◌≤◌, ◌++◌, true, false, [], None, length, map, is_some, slice_get, IfOk, Option};
ghost use Rattle.std.specs.Option.{option_copied};
ghost use Rattle.std.specs.Vec.{vec_len};
ghost use Rattle.fx_math.specs.Plain.{Bounds};
ghost use Rattle.pf_model.specs.Graphs.{Look};
ghost use Rattle.draw_list.specs.Lists.{instances_in};
ghost use Rattle.draw_list.specs.Order.{state_count};
ghost use Rattle.draw_list.specs.Shown.{shown, visited, stats_of};
ghost use Rattle.cull_walk.specs.Premises.{unnamed};
ghost use Rattle.cull_walk.specs.Working.{Scene};
ghost use Rattle.stream_stages.specs.declared.routes.Sight.{Sight};
ghost use Rattle.stream_stages.specs.Pieces.{in_sending_order};
ghost use Rattle.stream_stages.specs.Routes.{to_come, stops_ahead, scene_of};
ghost use Rattle.stream_stages.specs.Underway.{IsRoute, IsStreamable, IsUnderway, numbers_of, HasBegun, walking_of, sight_of};
ghost use Rattle.stream_stages.specs.Filled.{HasSameRoom, CanPass, Passes, CountsTests, IsOver, IsFilled, IsOneWalk, sent_to_there};
ghost use Rattle.stream_stages.specs.Fills.{Filling, walk_turn, glass_turn, EndsIn, Fills, filling_anew, numbers_so_far};

use crate::glasses::put_in_order;
use crate::pieces::Piece;
use crate::routes::{GLASS, Route, Sight, step};
use crate::sends::send;
use crate::sightings::Sighting;
use draw_list::{DrawList, Stats};
use fx_math::Lens;
use pf_io::NoMemory;
use pf_model::{NodeView, SceneView, Steps, View};
use std::alloc::Global;
use std::marker::Model;
use std::sync::ledger::Ledger;

/// The most levels on the way.
const LEVELS: usize = 32;

/// The walk of a scene that sends what is in sight in pieces: opaque instances as it finds them, and then glass in the
/// order in which it is drawn. It has room for 131,072 instances.
pub struct StreamWalk {
    sight: Sight,
    route: Route,
}

/// Written out, so that to drop one is a single call.
impl Drop for StreamWalk {
    fn drop(self) {
        let Self { sight: _, route: _ } = self;
    }
}

impl Model for StreamWalk {
    ghost use Rattle.stream_stages.specs.Routes.{Walking};
    ghost use Rattle.stream_stages.specs.Underway.{IsRoute, walking_of};

    ghost Value = { Walking };

    ghost view = { λ w. walking_of w.sight w.route };

    ghost invariant = { λ w. IsRoute w.route };
}

impl StreamWalk {
    /// Returns a walk that has nothing to send. Returns `Err(NoMemory)` if memory runs out.
    pub fn new(alloc: Global) -> Result<StreamWalk, NoMemory>
        ensures { IfOk result (λ w. (w.fresh ≡ false) × (w.way ≡ []) × (w.held ≡ None) × (w.glass ≡ [])) }
    {
        let mut seen = DrawList::new(alloc);
        seen.reserve(GLASS, 0)?;
        let way = Vec::with_capacity(alloc, LEVELS)?;
        let glass = Vec::with_capacity(alloc, GLASS)?;
        Ok(StreamWalk {
            sight: Sight {
                time: 0,
                view: View::home(),
                lens: Lens {
                    w: 1,
                    h: 1,
                    f: 1,
                    near: 1,
                    far: 1,
                },
            },
            route: Route {
                fresh: false,
                way,
                seen,
                visited: 0,
                held: None,
                glass,
                sent: None,
            },
        })
    }

    /// Begins the walk of frame `time`, for a view and through a lens. What was to be sent of the walk before is given
    /// up.
    ///
    /// Of a graph within the limits with the boxes of the definition, the whole sending order of what is shown is to
    /// come, with its numbers, and as many box tests as nodes are visited.
    pub fn start(&mut self, time: u32, view: &View, lens: &Lens)
        ensures time { self.new.time ≡ time }
        ensures view { self.new.view ≡ view.now }
        ensures lens { self.new.lens ≡ lens.now }
        ensures underway { (look : Look) → (boxes : ℕ → Option Bounds) → IsStreamable look boxes time
            → IsUnderway (scene_of look boxes self.new) self.new }
        ensures whole { (look : Look) → (boxes : ℕ → Option Bounds) → IsStreamable look boxes time
            → to_come (scene_of look boxes self.new) self.new ≡ map unnamed (in_sending_order (shown look time view.now lens.now)) }
        ensures numbers { (look : Look) → (boxes : ℕ → Option Bounds) → IsStreamable look boxes time
            → numbers_of (scene_of look boxes self.new) self.new ≡ stats_of look time view.now lens.now }
        ensures tests { (look : Look) → (boxes : ℕ → Option Bounds) → IsStreamable look boxes time
            → length (stops_ahead (scene_of look boxes self.new) self.new) ≡ visited look time view.now lens.now }
    {
        begin(view, &mut self.route);
        self.sight = Sight {
            time,
            view: *view,
            lens: *lens,
        };
    }

    /// Fills a piece with what is sent next. A piece that is not the last one is full: it has as many items as it takes, or
    /// it has items and the triangles of what is sent next find no room in it. The last one has the numbers of the whole
    /// walk, any other one those so far; more is not asked of a walk that has given the last one.
    ///
    /// The clauses that name `IsUnderway` are of the walk of a scene that goes on from `start`, where the same scene is given
    /// each time. On every scene `walk` says what the fill does, turn by turn. It goes no deeper than 32 nodes, the children
    /// of 31 nodes on the way, leaves out what finds no room, and makes a box test for each node that it counts.
    pub fn fill<V: SceneView, L: Ledger>(
        &mut self,
        scene: &V,
        out: &mut Piece,
        steps: &mut Steps<L>,
    )
        ensures walk { let s : Scene = scene_of (V.look scene.now) (V.boxes scene.now) self.old in
            let there : Filling = record { walk = self.new; list = out.new.list; tests = steps.new } in
            Fills s out.old.limit (filling_anew self.old out.old.list steps.old) out.new.last there }
        ensures so_far { out.new.stats ≡ numbers_so_far self.new }
        ensures limit { out.new.limit ≡ out.old.limit }
        ensures same { IsOneWalk self.old self.new }
        ensures levels { length self.new.way ≤ 31 }
        ensures room { HasSameRoom out.old.list out.new.list }
        ensures glass { length self.new.glass ≤ 131072 }
        ensures visits { CountsTests self.old self.new steps.old steps.new }
        ensures underway { let s : Scene = scene_of (V.look scene.now) (V.boxes scene.now) self.old in
            IsUnderway s self.old → IsUnderway s self.new }
        ensures sent { let s : Scene = scene_of (V.look scene.now) (V.boxes scene.now) self.old in
            IsUnderway s self.old → to_come s self.old ≡ instances_in out.new.list ++ to_come s self.new }
        ensures full { let s : Scene = scene_of (V.look scene.now) (V.boxes scene.now) self.old in
            IsUnderway s self.old → out.new.last ≡ false → IsFilled (V.look scene.now) out.new.limit out.new.list self.new }
        ensures last { let s : Scene = scene_of (V.look scene.now) (V.boxes scene.now) self.old in
            IsUnderway s self.old → out.new.last ≡ true → to_come s self.new ≡ [] }
        ensures numbers { let s : Scene = scene_of (V.look scene.now) (V.boxes scene.now) self.old in
            IsUnderway s self.old → numbers_of s self.new ≡ numbers_of s self.old }
        ensures stats { let s : Scene = scene_of (V.look scene.now) (V.boxes scene.now) self.old in
            IsUnderway s self.old → out.new.last ≡ true → out.new.stats ≡ numbers_of s self.old }
        ensures tests { let s : Scene = scene_of (V.look scene.now) (V.boxes scene.now) self.old in
            IsUnderway s self.old → steps.new + length (stops_ahead s self.new) ≡ steps.old + length (stops_ahead s self.old) }
    {
        out.list.clear(&self.sight.view);
        let most = out.limit as usize;
        let last = pass(
            scene,
            &self.sight,
            &mut self.route,
            most,
            &mut out.list,
            steps,
        );
        let stats = numbers(&self.route);
        out.last = last;
        out.stats = stats;
    }
}

/// Begins a walk for a view: the scene is visited next.
fn begin(view: &View, route: &mut Route)
    requires { IsRoute route.old }
    ensures sound { IsRoute route.new }
    ensures begun { HasBegun view.now route.new }
{
    route.fresh = true;
    route.way.clear();
    route.seen.clear(view);
    route.visited = 0;
    route.held = None;
    route.glass.clear();
    route.sent = None;
}

/// Passes what is sent next into a list, until it has `most` items, or the next one has no room. Returns true once
/// nothing is left to send.
fn pass<V: SceneView, L: Ledger>(
    scene: &V,
    sight: &Sight,
    route: &mut Route,
    most: usize,
    list: &mut DrawList,
    steps: &mut Steps<L>,
) -> bool
    requires sound { IsRoute route.old }
    requires joint { 0 < length list.old.joints.lists }
    requires few { length list.old.items.items ≤ most }
    ensures sound { IsRoute route.new }
    ensures fills { let s : Scene = sight_of (V.look scene.now) (V.boxes scene.now) sight.now in
        let before : Filling = record { walk = walking_of sight.now route.old; list = list.old; tests = steps.old } in
        let after : Filling = record { walk = walking_of sight.now route.new; list = list.new; tests = steps.new } in
        Fills s most before result after }
    ensures room { HasSameRoom list.old list.new }
    ensures few { length list.new.items.items ≤ most }
    ensures visits { CountsTests (walking_of sight.now route.old) (walking_of sight.now route.new) steps.old steps.new }
    ensures passes { let s : Scene = sight_of (V.look scene.now) (V.boxes scene.now) sight.now in
        CanPass s most (walking_of sight.now route.old) list.old
        → Passes s most (walking_of sight.now route.old) (walking_of sight.now route.new) list.old list.new steps.old steps.new }
    ensures over { let s : Scene = sight_of (V.look scene.now) (V.boxes scene.now) sight.now in
        CanPass s most (walking_of sight.now route.old) list.old → result ≡ true
        → (to_come s (walking_of sight.now route.new) ≡ []) × (stops_ahead s (walking_of sight.now route.new) ≡ []) }
    ensures full { let s : Scene = sight_of (V.look scene.now) (V.boxes scene.now) sight.now in
        CanPass s most (walking_of sight.now route.old) list.old → result ≡ false
        → IsFilled (V.look scene.now) most list.new (walking_of sight.now route.new) }
{
    match route.sent {
        Some(sent) => pass_glass(scene, sent, route, most, list),
        None => {
            if !pass_opaque(scene, sight, route, most, list, steps) {
                return false;
            }
            put_in_order(&mut route.glass);
            pass_glass(scene, 0, route, most, list)
        }
    }
}

/// Passes opaque instances into a list as they are found, until it has `most` items, or the next one has no room.
/// Returns true once nothing is left to visit.
fn pass_opaque<V: SceneView, L: Ledger>(
    scene: &V,
    sight: &Sight,
    route: &mut Route,
    most: usize,
    list: &mut DrawList,
    steps: &mut Steps<L>,
) -> bool
    requires sound { IsRoute route.old }
    requires joint { 0 < length list.old.joints.lists }
    requires few { length list.old.items.items ≤ most }
    ensures sound { IsRoute route.new }
    ensures turns { let s : Scene = sight_of (V.look scene.now) (V.boxes scene.now) sight.now in
        let before : Filling = record { walk = walking_of sight.now route.old; list = list.old; tests = steps.old } in
        let after : Filling = record { walk = walking_of sight.now route.new; list = list.new; tests = steps.new } in
        EndsIn (walk_turn s most) before result after }
    ensures joint { 0 < length list.new.joints.lists }
    ensures room { HasSameRoom list.old list.new }
    ensures few { length list.new.items.items ≤ most }
    ensures visits { CountsTests (walking_of sight.now route.old) (walking_of sight.now route.new) steps.old steps.new }
    ensures passes { let s : Scene = sight_of (V.look scene.now) (V.boxes scene.now) sight.now in
        CanPass s most (walking_of sight.now route.old) list.old → route.old.sent ≡ None
        → Passes s most (walking_of sight.now route.old) (walking_of sight.now route.new) list.old list.new steps.old steps.new }
    ensures sent { let s : Scene = sight_of (V.look scene.now) (V.boxes scene.now) sight.now in
        CanPass s most (walking_of sight.now route.old) list.old → route.old.sent ≡ None → route.new.sent ≡ None }
    ensures over { let s : Scene = sight_of (V.look scene.now) (V.boxes scene.now) sight.now in
        CanPass s most (walking_of sight.now route.old) list.old → route.old.sent ≡ None → result ≡ true
        → IsOver s (walking_of sight.now route.new) }
    ensures full { let s : Scene = sight_of (V.look scene.now) (V.boxes scene.now) sight.now in
        CanPass s most (walking_of sight.now route.old) list.old → route.old.sent ≡ None → result ≡ false
        → IsFilled (V.look scene.now) most list.new (walking_of sight.now route.new) }
{
    while list.len() < most {
        match route.held {
            Some(waiting) => {
                if !send(scene, &waiting, list) {
                    return false;
                }
                route.held = None;
            }
            None => {
                if !step(scene, sight, route, steps) {
                    return true;
                }
            }
        }
    }
    false
}

/// Passes glass into a list from a place on, in its order, until the list has `most` items, or the next one has no
/// room. Returns true once no glass is left.
fn pass_glass<V: NodeView>(
    scene: &V,
    from: usize,
    route: &mut Route,
    most: usize,
    list: &mut DrawList,
) -> bool
    requires sound { IsRoute route.old }
    requires place { from ≤ vec_len route.old.glass }
    requires joint { 0 < length list.old.joints.lists }
    requires few { length list.old.items.items ≤ most }
    ensures sound { IsRoute route.new }
    ensures room { HasSameRoom list.old list.new }
    ensures few { length list.new.items.items ≤ most }
    ensures turns { (a : Sight) → (t : ℕ)
        → let before : Filling = record { walk = sent_to_there (walking_of a route.old) from; list = list.old; tests = t } in
        let after : Filling = record { walk = walking_of a route.new; list = list.new; tests = t } in
        EndsIn (glass_turn (V.look scene.now) most) before result after }
    ensures visited { route.new.visited ≡ route.old.visited }
    ensures passes { (s : Scene) → (a : Sight) → (t : ℕ) → s.look ≡ V.look scene.now
        → CanPass s most (sent_to_there (walking_of a route.old) from) list.old
        → Passes s most (sent_to_there (walking_of a route.old) from) (walking_of a route.new) list.old list.new t t }
    ensures begun { is_some route.new.sent ≡ true }
    ensures over { (s : Scene) → (a : Sight) → result ≡ true → to_come s (walking_of a route.new) ≡ [] }
    ensures full { (s : Scene) → (a : Sight) → s.look ≡ V.look scene.now
        → CanPass s most (sent_to_there (walking_of a route.old) from) list.old → result ≡ false
        → IsFilled (V.look scene.now) most list.new (walking_of a route.new) }
{
    let mut sent = from;
    route.sent = Some(from);
    while list.len() < most {
        let Some(waiting) = waiting_at(route.glass.as_slice(), sent) else {
            return true;
        };
        if !send(scene, waiting, list) {
            return false;
        }
        sent += 1;
        route.sent = Some(sent);
    }
    false
}

/// Returns the glass at a place, or `None` past the end.
fn waiting_at(glass: &[Sighting], place: usize) -> Option<&Sighting>
    ensures { option_copied result ≡ slice_get glass.now place }
{
    glass.get(place)
}

/// Returns the numbers of a walk so far.
fn numbers(route: &Route) -> Stats
    ensures shown { result.shown ≡ length route.now.seen.items.items }
    ensures states { result.states ≡ state_count (instances_in route.now.seen) }
    ensures visited { result.visited ≡ route.now.visited }
{
    Stats {
        shown: route.seen.len() as u32,
        states: route.seen.states(),
        visited: route.visited,
    }
}
