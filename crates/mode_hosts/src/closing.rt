//! The passes joined, and the lock closed.
ghost use Rattle.std.specs.Prelude.{◌≡◌, ℕ, ◌<◌, ◌≤◌, []};
ghost use Rattle.seat_lock.specs.Log.{of, Found};
ghost use Rattle.seat_lock.specs.View.{answering};
ghost use Rattle.seat_lock.specs.Tokens.{lock_id, pass_of, pass_view};
ghost use Rattle.pf_history.specs.Logs.{IsLegal};

use pf_history::laws::legal_for_any_channels;
use pf_scene::Scene;
use seat_lock::{Pass, SeatLock};
use std::sync::Wait;

/// Returns one pass with the numbers of both.
fn two(lock: &SeatLock<Scene>, mut into: Pass<Scene>, other: Pass<Scene>) -> Pass<Scene>
    requires into { pass_of into ≡ lock_id lock.now }
    requires other { pass_of other ≡ lock_id lock.now }
    ensures lock { pass_of result ≡ pass_of into }
    ensures seats { (pass_view result).seats ≡ (pass_view into).seats }
    ensures keeps { (k : ℕ) → 0 < answering k (pass_view into) → 0 < answering k (pass_view result) }
    ensures gains { (k : ℕ) → 0 < answering k (pass_view other) → 0 < answering k (pass_view result) }
    ensures found { (k : ℕ) → 0 < answering k (pass_view into)
        → Found k (pass_view into).seen (pass_view result).seen }
    ensures other_found { (k : ℕ) → 0 < answering k (pass_view other)
        → Found k (pass_view other).seen (pass_view result).seen }
{
    lock.join(&mut into, other);
    into
}

/// Takes the scene out in a last turn.
fn last<R: Wait>(rt: &R, lock: &SeatLock<Scene>, pass: Pass<Scene>) -> Scene
    requires lock { pass_of pass ≡ lock_id lock.now }
    requires seats { (pass_view pass).seats ≡ 5 }
    ensures legal { (channels : ℕ) → IsLegal channels result.shared.log }
    ensures within { (k : ℕ) → 5 ≤ k → of k result.shared.log ≡ [] }
    ensures found { (k : ℕ) → 0 < answering k (pass_view pass)
        → Found k (pass_view pass).seen result.shared.log }
{
    legal_for_any_channels();
    let scene = lock.close(rt, pass);
    scene.keeps();
    scene
}

/// Returns the scene, once the passes of the five seats are joined.
pub(crate) fn all_home<R: Wait>(
    rt: &R,
    lock: &SeatLock<Scene>,
    app: Pass<Scene>,
    cull: Pass<Scene>,
    draw: Pass<Scene>,
    dbase: Pass<Scene>,
    probe: Pass<Scene>,
) -> Scene
    requires app { pass_of app ≡ lock_id lock.now }
    requires cull { pass_of cull ≡ lock_id lock.now }
    requires draw { pass_of draw ≡ lock_id lock.now }
    requires dbase { pass_of dbase ≡ lock_id lock.now }
    requires probe { pass_of probe ≡ lock_id lock.now }
    requires seats { (pass_view app).seats ≡ 5 }
    ensures legal { (channels : ℕ) → IsLegal channels result.shared.log }
    ensures within { (k : ℕ) → 5 ≤ k → of k result.shared.log ≡ [] }
    ensures app { (k : ℕ) → 0 < answering k (pass_view app) → Found k (pass_view app).seen result.shared.log }
    ensures cull { (k : ℕ) → 0 < answering k (pass_view cull) → Found k (pass_view cull).seen result.shared.log }
    ensures draw { (k : ℕ) → 0 < answering k (pass_view draw) → Found k (pass_view draw).seen result.shared.log }
    ensures dbase { (k : ℕ) → 0 < answering k (pass_view dbase) → Found k (pass_view dbase).seen result.shared.log }
    ensures probe { (k : ℕ) → 0 < answering k (pass_view probe) → Found k (pass_view probe).seen result.shared.log }
{
    let with_cull = two(lock, app, cull);
    let with_draw = two(lock, with_cull, draw);
    let with_dbase = two(lock, with_draw, dbase);
    let with_probe = two(lock, with_dbase, probe);
    last(rt, lock, with_probe)
}
