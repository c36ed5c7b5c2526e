//! Leases on one thread.
ghost use Rattle.std.specs.Prelude.{◌≡◌, ◌+◌, ◌≤◌, [], true, length, Some, is_some, IfOk, IfErr};
ghost use Rattle.geo_lease.specs.Plans.{slot_at};
ghost use Rattle.geo_lease.specs.Tokens.{leases_id, keeper_of, turn_of, lease_of, keeper_view, turn_view, geodes_of};
ghost use Rattle.geo_lease.specs.Tokens.{content_of, frame_of, number_of, lease_slots, content_under, SameLease};

use crate::{GrantError, Keeper, Lease, Leases, Turn};
use std::alloc::Global;
use std::process::Abort;
use std::test::Fail;

// Fetches a content and puts it back.
pub(crate) fn look_at(
    leases: &Leases<u32>,
    turn: &mut Turn<u32>,
    lease: &mut Lease<u32>,
    geode: u16,
) -> u32
    requires same { (turn_of turn.old ≡ leases_id leases.now) × (lease_of lease.old ≡ leases_id leases.now) }
    requires next { number_of lease.old ≡ (turn_view turn.old).next }
    requires named { is_some (slot_at geode (lease_slots lease.old)) ≡ true }
    requires empty { (turn_view turn.old).out ≡ [] }
    ensures content { content_under lease.old geode ≡ Some result }
    ensures same { (turn_of turn.new ≡ turn_of turn.old) × SameLease lease.old lease.new }
    ensures next { (turn_view turn.new).next ≡ (turn_view turn.old).next }
    ensures empty { (turn_view turn.new).out ≡ [] }
{
    let content = leases.fetch(turn, lease, geode);
    leases.put_back(turn, lease, geode, content);
    content
}

// The only geode gets a content.
pub(crate) fn store_one(leases: &Leases<u32>, keeper: &mut Keeper<u32>, content: u32) -> Option<u32>
    requires same { keeper_of keeper.old ≡ leases_id leases.now }
    requires one { geodes_of keeper.old ≡ 1 }
    ensures same { keeper_of keeper.new ≡ keeper_of keeper.old }
    ensures one { geodes_of keeper.new ≡ 1 }
    ensures content { content_of keeper.new 0 ≡ Some content }
    ensures above { (keeper_view keeper.new).above ≡ (keeper_view keeper.old).above }
    ensures slots { length (keeper_view keeper.new).contents ≡ length (keeper_view keeper.old).contents }
{
    leases.store(keeper, 0, content)
}

// A lease that names the only geode.
pub(crate) fn grant_one(
    leases: &Leases<u32>,
    alloc: Global,
    keeper: &mut Keeper<u32>,
    frame: u32,
) -> Result<Lease<u32>, GrantError>
    requires same { keeper_of keeper.old ≡ leases_id leases.now }
    requires current { is_some (content_of keeper.old 0) ≡ true }
    requires above { (keeper_view keeper.old).above ≤ frame }
    ensures same { keeper_of keeper.new ≡ keeper_of keeper.old }
    ensures one { geodes_of keeper.new ≡ geodes_of keeper.old }
    ensures slots { length (keeper_view keeper.new).contents ≡ length (keeper_view keeper.old).contents }
    ensures still { content_of keeper.new 0 ≡ content_of keeper.old 0 }
    ensures lease { IfOk result (λ lease. (lease_of lease ≡ leases_id leases.now) ×
        (is_some (slot_at 0 (lease_slots lease)) ≡ true) × (content_under lease 0 ≡ content_of keeper.old 0)) }
    ensures above { IfOk result (λ lease. (keeper_view keeper.new).above ≡ frame + 1) }
    ensures refused { IfErr result (λ error. (keeper_view keeper.new).above ≡ (keeper_view keeper.old).above) }
{
    leases.grant(alloc, keeper, frame, &[0])
}

// Looks at the only geode under the lease, which has to be the next, and ends it.
fn show_one(leases: &Leases<u32>, turn: &mut Turn<u32>, mut lease: Lease<u32>) -> Result<u32, Fail>
    requires same { (turn_of turn.old ≡ leases_id leases.now) × (lease_of lease ≡ leases_id leases.now) }
    requires named { is_some (slot_at 0 (lease_slots lease)) ≡ true }
    requires empty { (turn_view turn.old).out ≡ [] }
    ensures content { IfOk result (λ content. content_under lease 0 ≡ Some content) }
    ensures same { turn_of turn.new ≡ turn_of turn.old }
    ensures empty { (turn_view turn.new).out ≡ [] }
{
    if lease.number() != turn.next() {
        return Err(Fail::new(format_args!("the lease is not the next")));
    }
    let content = look_at(leases, turn, &mut lease, 0);
    leases.end(turn, lease);
    Ok(content)
}

// The first half of the row: a content, a lease of it, and a newer content. The slot of the lease is not reclaimed, and no
// second lease is granted.
fn lease_and_store(
    rt: &impl Abort,
    leases: &Leases<u32>,
    alloc: Global,
    keeper: &mut Keeper<u32>,
) -> Result<Lease<u32>, Fail>
    requires same { keeper_of keeper.old ≡ leases_id leases.now }
    requires one { geodes_of keeper.old ≡ 1 }
    requires slots { length (keeper_view keeper.old).contents ≡ 2 }
    requires above { (keeper_view keeper.old).above ≡ 0 }
    ensures same { keeper_of keeper.new ≡ keeper_of keeper.old }
    ensures slots { length (keeper_view keeper.new).contents ≡ 2 }
    ensures above { IfOk result (λ lease. (keeper_view keeper.new).above ≤ 2) }
    ensures content { IfOk result (λ lease. content_of keeper.new 0 ≡ Some 20) }
    ensures lease { IfOk result (λ lease. (lease_of lease ≡ leases_id leases.now) ×
        (is_some (slot_at 0 (lease_slots lease)) ≡ true) × (content_under lease 0 ≡ Some 10)) }
{
    assert_eq!(rt; store_one(leases, keeper, 10), None);
    let lease = grant_one(leases, alloc, keeper, 1)?;
    assert_eq!(rt; store_one(leases, keeper, 20), None);
    assert_eq!(rt; leases.reclaim(keeper, 0), None);
    let Err(GrantError::Out(0)) = grant_one(leases, alloc, keeper, 2) else {
        return Err(Fail::new(format_args!("a second lease is out")));
    };
    Ok(lease)
}

// The second half: once the lease is over, its slot is reclaimed, and the next lease has the newer content.
fn end_and_reclaim(
    rt: &impl Abort,
    leases: &Leases<u32>,
    alloc: Global,
    keeper: &mut Keeper<u32>,
    turn: &mut Turn<u32>,
    lease: Lease<u32>,
) -> Result<u32, Fail>
    requires keeper { keeper_of keeper.old ≡ leases_id leases.now }
    requires turn { (turn_of turn.old ≡ leases_id leases.now) × ((turn_view turn.old).out ≡ []) }
    requires slots { length (keeper_view keeper.old).contents ≡ 2 }
    requires above { (keeper_view keeper.old).above ≤ 2 }
    requires content { content_of keeper.old 0 ≡ Some 20 }
    requires lease { (lease_of lease ≡ leases_id leases.now) × (is_some (slot_at 0 (lease_slots lease)) ≡ true) }
    ensures { IfOk result (λ content. content ≡ 20) }
{
    assert_eq!(rt; show_one(leases, turn, lease)?, 10);
    assert_eq!(rt; leases.reclaim(keeper, 0), Some(10));
    assert_eq!(rt; leases.reclaim(keeper, 1), None);
    let lease = grant_one(leases, alloc, keeper, 2)?;
    assert_eq!(rt; lease.number(), 1);
    show_one(leases, turn, lease)
}

#[test]
fn two_slots_one_lease(rt: HostRuntime) -> Result<(), Fail> {
    let (leases, mut keeper, mut turn) = Leases::<u32>::new(rt.alloc(), 1, 1)?;
    assert_eq!(rt; keeper.waiting(), None);
    let lease = lease_and_store(&rt, &leases, rt.alloc(), &mut keeper)?;
    assert_eq!(rt; (lease.frame(), lease.number(), lease.len()), (1, 0, 1));
    assert_eq!(rt; (lease.name(0), lease.name(1)), (Some(0), None));
    let newer = end_and_reclaim(&rt, &leases, rt.alloc(), &mut keeper, &mut turn, lease)?;
    assert_eq!(rt; newer, 20);
    Ok(())
}
