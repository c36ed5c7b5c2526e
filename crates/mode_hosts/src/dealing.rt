//! The scene under its lock, and a desk for each stage and for the probe.
ghost use Rattle.std.specs.Prelude.{◌≡◌, ℕ, [], IfOk};
ghost use Rattle.std.specs.Arc.{arc_value};
ghost use Rattle.seat_lock.specs.View.{opener, gives_one, given_one};
ghost use Rattle.seat_lock.specs.Tokens.{lock_id, pass_of, pass_view};
ghost use Rattle.seat_lock.specs.SeatDesk.{desk_lock, desk_view};
ghost use Rattle.pf_scene.specs.Scenes.{IsSmall};
ghost use Rattle.mode_hosts.specs.Deals.{app_view, cull_view, draw_view, dbase_view, probe_view};

use pf_io::NoMemory;
use pf_scene::Scene;
use seat_lock::{Pass, SeatDesk, SeatLock};
use std::alloc::Global;
use std::sync::{Arc, Wait};

/// The lock over the scene, and the passes: APP has the number 0, CULL 1, DRAW 2, DBASE 3, and the probe 4, in every
/// mode and in every play.
#[derive(Drop)]
struct Dealt {
    lock: SeatLock<Scene>,
    app: Pass<Scene>,
    cull: Pass<Scene>,
    draw: Pass<Scene>,
    dbase: Pass<Scene>,
    probe: Pass<Scene>,
}

/// The lock, and a desk for each stage and for the probe.
#[derive(Drop)]
pub(crate) struct Desks<D> {
    pub(crate) lock: Arc<SeatLock<Scene>, Global>,
    pub(crate) app: SeatDesk<Scene, D>,
    pub(crate) cull: SeatDesk<Scene, D>,
    pub(crate) draw: SeatDesk<Scene, D>,
    pub(crate) dbase: SeatDesk<Scene, D>,
    pub(crate) probe: SeatDesk<Scene, D>,
}

/// The lock over a scene before the first command, and the passes.
fn deal(alloc: Global, ahead: u8, channels: u8) -> Result<Dealt, NoMemory>
    requires ahead { IsSmall ahead }
    requires channels { IsSmall channels }
    ensures app { IfOk result (λ d. (pass_of d.app ≡ lock_id d.lock) × (pass_view d.app ≡ app_view)) }
    ensures cull { IfOk result (λ d. (pass_of d.cull ≡ lock_id d.lock) × (pass_view d.cull ≡ cull_view)) }
    ensures draw { IfOk result (λ d. (pass_of d.draw ≡ lock_id d.lock) × (pass_view d.draw ≡ draw_view)) }
    ensures dbase { IfOk result (λ d. (pass_of d.dbase ≡ lock_id d.lock) × (pass_view d.dbase ≡ dbase_view)) }
    ensures probe { IfOk result (λ d. (pass_of d.probe ≡ lock_id d.lock) × (pass_view d.probe ≡ probe_view)) }
{
    let scene = Scene::new(alloc, ahead, channels)?;
    let Ok((lock, mut app)) = SeatLock::new(alloc, scene, 5) else {
        return Err(NoMemory);
    };
    let cull = lock.split(&mut app)?;
    let draw = lock.split(&mut app)?;
    let dbase = lock.split(&mut app)?;
    let probe = lock.split(&mut app)?;
    Ok(Dealt {
        lock,
        app,
        cull,
        draw,
        dbase,
        probe,
    })
}

/// The lock over a scene before the first command, and the desks.
pub(crate) fn new_desks<D: Wait + Copy + Drop>(
    rt: D,
    alloc: Global,
    ahead: u8,
    channels: u8,
) -> Result<Desks<D>, NoMemory>
    requires ahead { IsSmall ahead }
    requires channels { IsSmall channels }
    ensures app { IfOk result (λ d. (desk_lock d.app ≡ lock_id (arc_value d.lock)) × (desk_view d.app ≡ app_view)) }
    ensures cull { IfOk result (λ d. (desk_lock d.cull ≡ lock_id (arc_value d.lock)) × (desk_view d.cull ≡ cull_view)) }
    ensures draw { IfOk result (λ d. (desk_lock d.draw ≡ lock_id (arc_value d.lock)) × (desk_view d.draw ≡ draw_view)) }
    ensures dbase { IfOk result (λ d. (desk_lock d.dbase ≡ lock_id (arc_value d.lock)) × (desk_view d.dbase ≡ dbase_view)) }
    ensures probe { IfOk result (λ d. (desk_lock d.probe ≡ lock_id (arc_value d.lock)) × (desk_view d.probe ≡ probe_view)) }
{
    let dealt = deal(alloc, ahead, channels)?;
    let lock = Arc::new(alloc, dealt.lock)?;
    let app = SeatDesk::new(rt, Arc::try_clone(&lock)?, dealt.app);
    let cull = SeatDesk::new(rt, Arc::try_clone(&lock)?, dealt.cull);
    let draw = SeatDesk::new(rt, Arc::try_clone(&lock)?, dealt.draw);
    let dbase = SeatDesk::new(rt, Arc::try_clone(&lock)?, dealt.dbase);
    let probe = SeatDesk::new(rt, Arc::try_clone(&lock)?, dealt.probe);
    Ok(Desks {
        lock,
        app,
        cull,
        draw,
        dbase,
        probe,
    })
}
