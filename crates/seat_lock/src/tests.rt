//! The lock over a list of numbers, with one thread and with four.
ghost use Rattle.std.specs.Prelude.{◌≡◌, ◌<◌, ◌≤◌, [], ◌∷◌, ◌++◌, IfOk, MatchResult, map};
ghost use Rattle.std.specs.Thread.{IsSync};
ghost use Rattle.seat_lock.specs.View.{opener};
ghost use Rattle.seat_lock.specs.Tokens.{lock_id, pass_of, pass_view};
ghost use Rattle.seat_lock.specs.SeatDesk.{desk_lock, desk_view};
ghost use Rattle.seat_lock.specs.Log.{Found};

use crate::traits::{Act, Desk, Glance, Logged};
use crate::{Pass, PlainDesk, SeatDesk, SeatLock};
use std::alloc::{AllocError, Global};
use std::process::Abort;
use std::sync::{Arc, Wait};
use std::test::Fail;
use std::thread::{Threads, join};

/// The numbers added, each with the seat that added it.
#[derive(Drop)]
struct Tally {
    entries: Vec<(u32, u32)>,
}

impl Logged for Tally {
    type Entry = u32;

    ghost log = { λ t. t.entries.items };

    fn entries(&self) -> u64 {
        self.entries.len() as u64
    }
}

/// Adds a number.
#[derive(Clone, Copy)]
struct Put(u32);

impl Act<Tally> for Put {
    type Reply = Result<(), AllocError>;

    ghost does = { λ put seat found left reply. MatchResult reply
        (λ _. left.entries.items ≡ found.entries.items ++ (seat, put.0) ∷ [])
        (λ _. left.entries.items ≡ found.entries.items) };

    fn act(self, value: &mut Tally, seat: u32) -> Result<(), AllocError> {
        value.entries.push((seat, self.0))?;
        Ok(())
    }
}

/// Shows the numbers.
#[derive(Drop)]
struct Numbers(Global);

impl Glance<Tally> for Numbers {
    type Out = Result<Vec<u32>, AllocError>;

    ghost shows = { λ _ tally out. IfOk out (λ v. v.items ≡ map (λ e. e.1) tally.entries.items) };

    fn glance(self, value: &Tally) -> Result<Vec<u32>, AllocError> {
        value.entries.iter().map(|entry| entry.1).collect(self.0)
    }
}

fn empty(alloc: Global) -> Tally
    ensures { result.entries.items ≡ [] }
{
    Tally {
        entries: Vec::new(alloc),
    }
}

// A lock over an empty tally, and its first pass.
fn open(alloc: Global, seats: u32) -> Result<(SeatLock<Tally>, Pass<Tally>), AllocError>
    requires some { 0 < seats }
    requires few { seats ≤ 64 }
    ensures { IfOk result (λ r. (pass_of r.1 ≡ lock_id r.0) × (pass_view r.1 ≡ opener seats)) }
{
    match SeatLock::new(alloc, empty(alloc), seats) {
        Ok(opened) => Ok(opened),
        Err(_tally) => Err(AllocError),
    }
}

// Takes that many turns, each of which adds a number.
fn add_all<R: Wait>(
    rt: &R,
    lock: &SeatLock<Tally>,
    mut pass: Pass<Tally>,
    count: u32,
) -> Pass<Tally>
    requires { pass_of pass ≡ lock_id lock.now }
    ensures { pass_of result ≡ pass_of pass }
{
    for number in 0..count {
        let _ = lock.turn(rt, &mut pass, Put(number));
    }
    pass
}

// Two threads take that many turns each.
fn add_both<R: Threads + Wait + Sync>(
    rt: &R,
    lock: &SeatLock<Tally>,
    first: Pass<Tally>,
    second: Pass<Tally>,
    count: u32,
) -> (Pass<Tally>, Pass<Tally>)
    requires first { pass_of first ≡ lock_id lock.now }
    requires second { pass_of second ≡ lock_id lock.now }
    ensures first { pass_of result.0 ≡ pass_of first }
    ensures second { pass_of result.1 ≡ pass_of second }
{
    join(
        rt,
        || -> Pass<Tally>
            requires { pass_of first ≡ lock_id lock.now }
            ensures { pass_of result ≡ pass_of first }
        { add_all(rt, lock, first, count) },
        || -> Pass<Tally>
            requires { pass_of second ≡ lock_id lock.now }
            ensures { pass_of result ≡ pass_of second }
        { add_all(rt, lock, second, count) },
    )
}

// Takes that many turns at the desk, each of which adds a number.
fn add_at_desk<R: Wait>(mut desk: SeatDesk<Tally, R>, count: u32) -> SeatDesk<Tally, R>
    ensures { desk_lock result ≡ desk_lock desk }
{
    for number in 0..count {
        let _ = desk.turn(Put(number));
    }
    desk
}

// Brings two desks home. The closed log goes on from what each of them has seen, with no further entry of its number.
fn bring_home<R: Wait + Drop>(
    rt: &R,
    lock: &SeatLock<Tally>,
    first: SeatDesk<Tally, R>,
    second: SeatDesk<Tally, R>,
) -> Tally
    requires first { desk_lock first ≡ lock_id lock.now }
    requires second { desk_lock second ≡ lock_id lock.now }
    ensures first { Found (desk_view first).number (desk_view first).seen result.entries.items }
    ensures second { Found (desk_view second).number (desk_view second).seen result.entries.items }
{
    let mut into = first.into_pass();
    let other = second.into_pass();
    lock.join(&mut into, other);
    lock.close(rt, into)
}

// Two threads with a desk each take that many turns.
fn add_at_desks<R: Threads + Wait + Send + Drop>(
    rt: &R,
    first: SeatDesk<Tally, R>,
    second: SeatDesk<Tally, R>,
    count: u32,
) -> (SeatDesk<Tally, R>, SeatDesk<Tally, R>)
    ensures first { desk_lock result.0 ≡ desk_lock first }
    ensures second { desk_lock result.1 ≡ desk_lock second }
{
    join(
        rt,
        || -> SeatDesk<Tally, R>
            ensures { desk_lock result ≡ desk_lock first }
        { add_at_desk(first, count) },
        || -> SeatDesk<Tally, R>
            ensures { desk_lock result ≡ desk_lock second }
        { add_at_desk(second, count) },
    )
}

// The numbers that the seat added.
fn added_by(alloc: Global, tally: &Tally, seat: u32) -> Result<Vec<u32>, AllocError> {
    tally
        .entries
        .iter()
        .filter(|entry| entry.0 == seat)
        .map(|entry| entry.1)
        .collect(alloc)
}

// Four threads with a pass each take that many turns.
fn four_threads<R: Threads + Wait + Sync>(
    rt: &R,
    alloc: Global,
    count: u32,
) -> Result<Tally, Fail> {
    let (lock, mut a) = open(alloc, 4)?;
    let b = lock.split(&mut a)?;
    let c = lock.split(&mut a)?;
    let d = lock.split(&mut a)?;
    let shared = &lock;
    let ((mut a, b), (c, d)) = join(
        rt,
        || -> (Pass<Tally>, Pass<Tally>)
            requires { IsSync R.row × (pass_of a ≡ lock_id shared.now) × (pass_of b ≡ lock_id shared.now) }
            ensures { (pass_of result.0 ≡ pass_of a) × (pass_of result.1 ≡ pass_of b) }
        { add_both(rt, shared, a, b, count) },
        || -> (Pass<Tally>, Pass<Tally>)
            requires { IsSync R.row × (pass_of c ≡ lock_id shared.now) × (pass_of d ≡ lock_id shared.now) }
            ensures { (pass_of result.0 ≡ pass_of c) × (pass_of result.1 ≡ pass_of d) }
        { add_both(rt, shared, c, d, count) },
    );
    lock.join(&mut a, b);
    lock.join(&mut a, c);
    lock.join(&mut a, d);
    Ok(lock.close(rt, a))
}

// The tally has all numbers of that many seats, each seat's in its order.
fn check_all(
    rt: &impl Abort,
    alloc: Global,
    tally: &Tally,
    seats: u32,
    count: u32,
) -> Result<(), Fail> {
    assert_eq!(rt;
        tally.entries.len() as u64,
        u64::from(seats) * u64::from(count)
    );
    let wanted: Vec<u32> = (0..count).collect(alloc)?;
    for seat in 0..seats {
        assert_eq!(rt; added_by(alloc, tally, seat)?.as_slice(), wanted.as_slice());
    }
    Ok(())
}

#[test]
fn plain_desk(rt: HostRuntime) -> Result<(), Fail> {
    let mut desk = PlainDesk::new(empty(rt.alloc()));
    desk.turn(Put(7))?;
    desk.turn(Put(8))?;
    assert_eq!(rt;
        desk.look(Numbers(rt.alloc()))?.as_slice(),
        [7, 8].as_slice()
    );
    assert_eq!(rt;
        desk.into_value().entries.as_slice(),
        [(0, 7), (0, 8)].as_slice()
    );
    Ok(())
}

#[test]
fn split_and_join(rt: HostRuntime) -> Result<(), Fail> {
    let (lock, mut first) = open(rt.alloc(), 2)?;
    assert_eq!(rt; first.spare(), 1);
    let mut second = lock.split(&mut first)?;
    assert_eq!(rt; first.spare(), 0);
    lock.turn(&rt, &mut first, Put(7))?;
    lock.turn(&rt, &mut second, Put(8))?;
    assert_eq!(rt;
        lock.look(&rt, &mut first, Numbers(rt.alloc()))?.as_slice(),
        [7, 8].as_slice()
    );
    lock.join(&mut first, second);
    let tally = lock.close(&rt, first);
    assert_eq!(rt; tally.entries.as_slice(), [(0, 7), (1, 8)].as_slice());
    Ok(())
}

#[test]
fn forty_entries(rt: HostRuntime) -> Result<(), Fail> {
    let tally = four_threads(&rt, rt.alloc(), 10)?;
    check_all(&rt, rt.alloc(), &tally, 4, 10)
}

// So many turns that the threads meet and wait for one another.
#[test]
fn threads_that_wait(rt: HostRuntime) -> Result<(), Fail> {
    let tally = four_threads(&rt, rt.alloc(), 200_000)?;
    check_all(&rt, rt.alloc(), &tally, 4, 200_000)
}

#[test]
fn desks_on_threads(rt: HostRuntime) -> Result<(), Fail> {
    let (lock, mut first) = open(rt.alloc(), 2)?;
    let second = lock.split(&mut first)?;
    let lock = Arc::new(rt.alloc(), lock)?;
    let first = SeatDesk::new(rt, Arc::try_clone(&lock)?, first);
    let second = SeatDesk::new(rt, Arc::try_clone(&lock)?, second);
    let (first, second) = add_at_desks(&rt, first, second, 1000);
    let tally = bring_home(&rt, &lock, first, second);
    check_all(&rt, rt.alloc(), &tally, 2, 1000)
}

#[test]
fn seat_desk(rt: HostRuntime) -> Result<(), Fail> {
    let (lock, mut first) = open(rt.alloc(), 2)?;
    let second = lock.split(&mut first)?;
    let lock = Arc::new(rt.alloc(), lock)?;
    let mut desk = SeatDesk::new(rt, Arc::try_clone(&lock)?, first);
    let mut other = SeatDesk::new(rt, Arc::try_clone(&lock)?, second);
    desk.turn(Put(7))?;
    other.turn(Put(8))?;
    assert_eq!(rt;
        desk.look(Numbers(rt.alloc()))?.as_slice(),
        [7, 8].as_slice()
    );
    let mut first = desk.into_pass();
    lock.join(&mut first, other.into_pass());
    assert_eq!(rt;
        lock.close(&rt, first).entries.as_slice(),
        [(0, 7), (1, 8)].as_slice()
    );
    Ok(())
}
