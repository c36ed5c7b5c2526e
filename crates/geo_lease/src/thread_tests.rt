//! Leases on two threads: one stores and grants, the other finds what was granted.
ghost use Rattle.std.specs.Prelude.{◌≡◌, ℕ, ◌+◌, ◌^◌, ◌<◌, ◌≤◌, [], true, length, slice_get, Some, is_some, IfOk, IfErr};
ghost use Rattle.atomic_table.specs.Seated.{TableId};
ghost use Rattle.geo_lease.specs.Plans.{slot_at};
ghost use Rattle.geo_lease.specs.Tokens.{leases_id, keeper_of, turn_of, lease_of, keeper_view, turn_view, geodes_of};
ghost use Rattle.geo_lease.specs.Tokens.{content_of, number_of, lease_slots, content_under, SameLease};

use crate::tests::look_at;
use crate::{GrantError, Keeper, Lease, Leases, NoMemory, Turn};
use std::alloc::{AllocError, Global};
use std::marker::{Brand, PhantomData};
use std::process::Abort;
use std::sync::{Mutex, Wait};
use std::test::Fail;
use std::thread;
use std::thread::Threads;

const FRAMES: u32 = 200;

// Names one table. The test picks it.
trait Bench {
    ghost table: { TableId };
}

impl Bench for Brand {
    ghost table = { record { words = 0; slots = 0; views_name = 0; atom = 0; block = 0; offset = 0; slot_names = [] } };
}

// A lease on its way, which promises `first` of the geode 0, one more of the geode 1, and so on.
#[derive(Drop)]
struct Parcel<B: Bench> {
    lease: Lease<u32>,
    geodes: u16,
    first: u32,
    bench: PhantomData<B>,
    ghost at: { lease_of lease ≡ B.table },
    ghost small: { first < 2 ^ 31 },
    ghost named: { (g : ℕ) → g < geodes → is_some (slot_at g (lease_slots lease)) ≡ true },
    ghost promised: { (g : ℕ) → g < geodes → content_under lease g ≡ Some (first + g) },
}

// What the one thread tells the other.
#[derive(Drop)]
enum Message<B: Bench> {
    Granted(Parcel<B>),
    Over,
}

// Where a message lies until it is taken.
type Desk<B> = Mutex<Option<Message<B>>>;

fn granted<B: Bench>(lease: Lease<u32>, geodes: u16, first: u32) -> Message<B>
    requires at { lease_of lease ≡ B.table }
    requires small { first < 2 ^ 31 }
    requires named { (g : ℕ) → g < geodes → is_some (slot_at g (lease_slots lease)) ≡ true }
    requires promised { (g : ℕ) → g < geodes → content_under lease g ≡ Some (first + g) }
{
    Message::Granted(Parcel {
        lease,
        geodes,
        first,
        bench: PhantomData,
    })
}

// Puts the message down, or hands it back where one lies there.
fn try_put<B: Bench, R: Wait>(rt: &R, desk: &Desk<B>, message: Message<B>) -> Option<Message<B>> {
    let mut place = desk.lock(rt);
    if place.is_some() {
        return Some(message);
    }
    *place = Some(message);
    None
}

fn put<B: Bench, R: Wait>(rt: &R, desk: &Desk<B>, message: Message<B>) {
    let mut waiting = message;
    for _ in rt.forever() {
        match try_put(rt, desk, waiting) {
            Some(back) => waiting = back,
            None => return,
        }
        thread::yield_now();
    }
    unreachable!()
}

fn take<B: Bench, R: Wait>(rt: &R, desk: &Desk<B>) -> Message<B> {
    for _ in rt.forever() {
        let found = desk.lock(rt).take();
        if let Some(message) = found {
            return message;
        }
        thread::yield_now();
    }
    unreachable!()
}

// Each geode gets a new content: `first` the geode 0, one more the geode 1, and so on.
fn store_all(leases: &Leases<u32>, keeper: &mut Keeper<u32>, geodes: u16, first: u32)
    requires same { keeper_of keeper.old ≡ leases_id leases.now }
    requires geodes { geodes_of keeper.old ≡ geodes }
    requires small { first < 2 ^ 31 }
    ensures same { keeper_of keeper.new ≡ keeper_of keeper.old }
    ensures geodes { geodes_of keeper.new ≡ geodes }
    ensures above { (keeper_view keeper.new).above ≡ (keeper_view keeper.old).above }
    ensures contents { (g : ℕ) → g < geodes → content_of keeper.new g ≡ Some (first + g) }
{
    for geode in 0..geodes {
        leases.store(keeper, geode, first + u32::from(geode));
    }
}

// The names of that many geodes.
fn all_names(alloc: Global, geodes: u16) -> Result<Vec<u16>, AllocError>
    ensures count { IfOk result (λ names. length names.items ≡ geodes) }
    ensures each { IfOk result (λ names. (g : ℕ) → g < geodes → slice_get names.items g ≡ Some g) }
{
    let mut names = Vec::with_capacity(alloc, usize::from(geodes))?;
    for geode in 0..geodes {
        names.push(geode)?;
    }
    Ok(names)
}

// A lease that names all geodes, and so promises what was stored.
fn grant_all(
    leases: &Leases<u32>,
    alloc: Global,
    keeper: &mut Keeper<u32>,
    frame: u32,
    names: &[u16],
    first: u32,
) -> Result<Lease<u32>, GrantError>
    requires same { keeper_of keeper.old ≡ leases_id leases.now }
    requires above { (keeper_view keeper.old).above ≤ frame }
    requires names { (g : ℕ) → g < length names.now → slice_get names.now g ≡ Some g }
    requires contents { (g : ℕ) → g < length names.now → content_of keeper.old g ≡ Some (first + g) }
    ensures same { keeper_of keeper.new ≡ keeper_of keeper.old }
    ensures geodes { geodes_of keeper.new ≡ geodes_of keeper.old }
    ensures contents { (g : ℕ) → g < length names.now → content_of keeper.new g ≡ Some (first + g) }
    ensures at { IfOk result (λ lease. lease_of lease ≡ leases_id leases.now) }
    ensures named { IfOk result (λ lease. (g : ℕ) → g < length names.now → is_some (slot_at g (lease_slots lease)) ≡ true) }
    ensures promised { IfOk result (λ lease. (g : ℕ) → g < length names.now → content_under lease g ≡ Some (first + g)) }
    ensures above { IfOk result (λ lease. (keeper_view keeper.new).above ≡ frame + 1) }
    ensures refused { IfErr result (λ error. (keeper_view keeper.new).above ≡ (keeper_view keeper.old).above) }
{
    leases.grant(alloc, keeper, frame, names)
}

// Asks for a lease until fewer are out than there can be.
fn grant_soon<R: Wait>(
    rt: &R,
    leases: &Leases<u32>,
    alloc: Global,
    keeper: &mut Keeper<u32>,
    frame: u32,
    names: &[u16],
    first: u32,
) -> Result<Lease<u32>, NoMemory>
    requires same { keeper_of keeper.old ≡ leases_id leases.now }
    requires above { (keeper_view keeper.old).above ≤ frame }
    requires names { (g : ℕ) → g < length names.now → slice_get names.now g ≡ Some g }
    requires contents { (g : ℕ) → g < length names.now → content_of keeper.old g ≡ Some (first + g) }
    ensures same { keeper_of keeper.new ≡ keeper_of keeper.old }
    ensures geodes { geodes_of keeper.new ≡ geodes_of keeper.old }
    ensures at { IfOk result (λ lease. lease_of lease ≡ leases_id leases.now) }
    ensures named { IfOk result (λ lease. (g : ℕ) → g < length names.now → is_some (slot_at g (lease_slots lease)) ≡ true) }
    ensures promised { IfOk result (λ lease. (g : ℕ) → g < length names.now → content_under lease g ≡ Some (first + g)) }
    ensures above { IfOk result (λ lease. (keeper_view keeper.new).above ≡ frame + 1) }
{
    for _ in rt.forever() {
        match grant_all(leases, alloc, keeper, frame, names, first) {
            Ok(lease) => return Ok(lease),
            Err(GrantError::Out(_)) => thread::yield_now(),
            Err(GrantError::NoMemory) => return Err(NoMemory),
        }
    }
    unreachable!()
}

// Stores a new content of each geode for each frame, 1,000 times the frame's number and the geode's added up, and hands
// the frame's lease over.
fn keep<B: Bench, R: Wait>(
    rt: &R,
    leases: &Leases<u32>,
    alloc: Global,
    mut keeper: Keeper<u32>,
    geodes: u16,
    desk: &Desk<B>,
) -> Result<(), NoMemory>
    requires table { leases_id leases.now ≡ B.table }
    requires keeper { (keeper_of keeper ≡ B.table) × (geodes_of keeper ≡ geodes) × ((keeper_view keeper).above ≡ 0) }
{
    let names = all_names(alloc, geodes)?;
    for frame in 0..FRAMES {
        let first = frame * 1000;
        store_all(leases, &mut keeper, geodes, first);
        let lease = grant_soon(
            rt,
            leases,
            alloc,
            &mut keeper,
            frame,
            names.as_slice(),
            first,
        )?;
        put(rt, desk, granted(lease, geodes, first));
    }
    Ok(())
}

// All frames, and then the end.
fn keep_and_close<B: Bench, R: Wait>(
    rt: &R,
    leases: &Leases<u32>,
    alloc: Global,
    keeper: Keeper<u32>,
    geodes: u16,
    desk: &Desk<B>,
) -> Result<(), NoMemory>
    requires table { leases_id leases.now ≡ B.table }
    requires keeper { (keeper_of keeper ≡ B.table) × (geodes_of keeper ≡ geodes) × ((keeper_view keeper).above ≡ 0) }
{
    let kept = keep(rt, leases, alloc, keeper, geodes, desk);
    put(rt, desk, Message::Over);
    kept
}

// Looks at a geode under the lease, which promises this content of it. What lies there is this content.
fn look_for(
    leases: &Leases<u32>,
    turn: &mut Turn<u32>,
    lease: &mut Lease<u32>,
    geode: u16,
    content: u32,
) -> u32
    requires same { (turn_of turn.old ≡ leases_id leases.now) × (lease_of lease.old ≡ leases_id leases.now) }
    requires next { number_of lease.old ≡ (turn_view turn.old).next }
    requires named { is_some (slot_at geode (lease_slots lease.old)) ≡ true }
    requires empty { (turn_view turn.old).out ≡ [] }
    requires promised { content_under lease.old geode ≡ Some content }
    ensures found { result ≡ content }
    ensures same { (turn_of turn.new ≡ turn_of turn.old) × SameLease lease.old lease.new }
    ensures next { (turn_view turn.new).next ≡ (turn_view turn.old).next }
    ensures empty { (turn_view turn.new).out ≡ [] }
{
    look_at(leases, turn, lease, geode)
}

// Looks at each geode under the lease, which has to be the next one, and ends the lease.
fn show<B: Bench, R: Abort>(rt: &R, leases: &Leases<u32>, turn: &mut Turn<u32>, parcel: Parcel<B>)
    requires table { leases_id leases.now ≡ B.table }
    requires turn { (turn_of turn.old ≡ B.table) × ((turn_view turn.old).out ≡ []) }
    ensures turn { (turn_of turn.new ≡ B.table) × ((turn_view turn.new).out ≡ []) }
{
    let Parcel {
        mut lease,
        geodes,
        first,
        bench: _,
    } = parcel;
    assert!(rt; lease.number() == turn.next());
    for geode in 0..geodes {
        let content = first + u32::from(geode);
        let found = look_for(leases, turn, &mut lease, geode, content);
        assert_eq!(rt; found, content);
    }
    leases.end(turn, lease);
}

// Shows the frames that come, until the end. Answers how many they were.
fn show_all<B: Bench, R: Wait + Abort>(
    rt: &R,
    leases: &Leases<u32>,
    mut turn: Turn<u32>,
    desk: &Desk<B>,
) -> u32
    requires table { leases_id leases.now ≡ B.table }
    requires turn { (turn_of turn ≡ B.table) × ((turn_view turn).out ≡ []) }
{
    for frame in 0..FRAMES {
        let Message::Granted(parcel) = take(rt, desk) else {
            return frame;
        };
        assert_eq!(rt; (parcel.lease.frame(), parcel.first), (frame, frame * 1000));
        show(rt, leases, &mut turn, parcel);
    }
    assert!(rt; matches!(take(rt, desk), Message::Over));
    FRAMES
}

fn on_two_threads<B: Bench + Send + Sync, R: Threads + Wait + Abort + Sync>(
    rt: &R,
    leases: &Leases<u32>,
    alloc: Global,
    keeper: Keeper<u32>,
    turn: Turn<u32>,
    geodes: u16,
) -> Result<u32, NoMemory>
    requires table { leases_id leases.now ≡ B.table }
    requires keeper { (keeper_of keeper ≡ B.table) × (geodes_of keeper ≡ geodes) × ((keeper_view keeper).above ≡ 0) }
    requires turn { (turn_of turn ≡ B.table) × ((turn_view turn).out ≡ []) }
{
    let desk: Desk<B> = Mutex::new(None);
    let desk = &desk;
    let (kept, shown) = thread::join(
        rt,
        move || -> Result<(), NoMemory>
            requires { (leases_id leases.now ≡ B.table) × (keeper_of keeper ≡ B.table) × (geodes_of keeper ≡ geodes) ×
                ((keeper_view keeper).above ≡ 0) }
        { keep_and_close(rt, leases, alloc, keeper, geodes, desk) },
        move || -> u32
            requires { (leases_id leases.now ≡ B.table) × (turn_of turn ≡ B.table) × ((turn_view turn).out ≡ []) }
        { show_all(rt, leases, turn, desk) },
    );
    kept?;
    Ok(shown)
}

#[test]
fn one_geode_two_hundred_frames(rt: HostRuntime) -> Result<(), Fail> {
    let (leases, keeper, turn) = Leases::<u32>::new(rt.alloc(), 1, 3)?;
    let shown = on_two_threads::<Brand, _>(&rt, &leases, rt.alloc(), keeper, turn, 1)?;
    assert_eq!(rt; shown, FRAMES);
    Ok(())
}

#[test]
fn many_geodes_two_hundred_frames(rt: HostRuntime) -> Result<(), Fail> {
    let (leases, keeper, turn) = Leases::<u32>::new(rt.alloc(), 64, 3)?;
    let shown = on_two_threads::<Brand, _>(&rt, &leases, rt.alloc(), keeper, turn, 64)?;
    assert_eq!(rt; shown, FRAMES);
    Ok(())
}
