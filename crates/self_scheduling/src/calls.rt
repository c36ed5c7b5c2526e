//! The calls on the items of a list, in several threads.
ghost use Rattle.std.specs.Prelude.{◌≡◌, ℕ, ◌+◌, ◌<◌, ◌≤◌, [], length, slice_get, Some};
ghost use Rattle.std.specs.Thread.{IsSync, IsSend};
ghost use Rattle.std.specs.Fork.{AcceptsAt, AcceptsEach, ChangesAt, ChangesEach};
ghost use Rattle.std.specs.Vec.{vec_capacity};
ghost use Rattle.self_scheduling.specs.Views.{opener};
ghost use Rattle.self_scheduling.specs.Seats.{HasItems, SameSeat, IsFree};

use crate::claims::{Claim, GiveBack, Hire, Return, Rule, Told};
use crate::view::View;
use atomic_table::{Refused, Seat, Shared, Table};
use std::alloc::Global;
use std::marker::Brand;
use std::thread::{Threads, join};

type Claims<T, B> = Table<T, View, u64, Rule<B>, Global>;

/// Calls `f(i, &mut items[i])` at each place, in so many other threads and this one, and gives the items back. Where there is no
/// memory for that, this thread calls it at each place.
pub fn for_each<T: Send + Drop, R: Threads + Sync, F: Fn(usize, &mut T) + Sync>(
    rt: &R,
    alloc: Global,
    items: Vec<T>,
    others: u8,
    f: &F,
) -> Vec<T>
    requires { AcceptsEach F.Fn f.now items.items }
    ensures many { length result.items ≡ length items.items }
    ensures each { ChangesEach F.Fn f.now items.items result.items }
{
    if others == 0 || items.len() < 2 {
        return in_turn(items, f);
    }
    beside::<T, R, F, Brand>(rt, alloc, items, others, f)
}

/// Calls the function at each place, in this thread.
fn in_turn<T, F: Fn(usize, &mut T)>(items: Vec<T>, f: &F) -> Vec<T>
    requires { AcceptsEach F.Fn f.now items.items }
    ensures many { length result.items ≡ length items.items }
    ensures each { ChangesEach F.Fn f.now items.items result.items }
{
    let mut items = items;
    call_each(items.as_mut_slice(), f);
    items
}

/// Calls the function at each place of a slice.
fn call_each<T, F: Fn(usize, &mut T)>(items: &mut [T], f: &F)
    requires { AcceptsEach F.Fn f.now items.old }
    ensures each { ChangesEach F.Fn f.now items.old items.new }
    ensures many { length items.new ≡ length items.old }
{
    for k in 0..items.len() {
        call_at(f, k, &mut items[k]);
    }
}

/// Calls the function at a place.
fn call_at<T, F: Fn(usize, &mut T)>(f: &F, k: usize, item: &mut T)
    requires { AcceptsAt F.Fn f.now k item.old }
    ensures { ChangesAt F.Fn f.now k item.old item.new }
{
    f(k, item);
}

/// Calls the function at each place, in so many other threads and this one, which claim the items of a table.
fn beside<T: Send + Drop, R: Threads + Sync, F: Fn(usize, &mut T) + Sync, B: Told<T> + Send + Sync>(
    rt: &R,
    alloc: Global,
    items: Vec<T>,
    others: u8,
    f: &F,
) -> Vec<T>
    requires some { 0 < length items.items }
    requires accepts { AcceptsEach F.Fn f.now items.items }
    requires items { B.items ≡ items.items }
    requires leaves { (i : ℕ) (x y : T) → ChangesAt F.Fn f.now i x y → B.leaves i x y }
    requires left { (i : ℕ) (x y : T) → B.leaves i x y → ChangesAt F.Fn f.now i x y }
    ensures many { length result.items ≡ length items.items }
    ensures each { ChangesEach F.Fn f.now items.items result.items }
{
    let count = items.len();
    let Ok(gathered) = Vec::with_capacity(alloc, count) else {
        return in_turn(items, f);
    };
    let Ok(words) = vec![in alloc; 0; count] else {
        return in_turn(items, f);
    };
    let threads = u64::from(others) + 1;
    match Claims::<T, B>::new(alloc, words.as_slice(), items, &threads) {
        Ok((table, seat)) => {
            let seat = crew(rt, &table.shared, seat, others, count, f);
            gather(table, seat, count, gathered)
        }
        Err(Refused { slots }) => in_turn(slots, f),
    }
}

/// Claims items until there are none, in so many other threads and this one.
#[cycle(others)]
fn crew<T: Send, R: Threads + Sync, F: Fn(usize, &mut T) + Sync, B: Told<T> + Send + Sync>(
    rt: &R,
    table: &Shared<T, View, u64, Rule<B>>,
    seat: Seat<T, View>,
    others: u8,
    count: usize,
    f: &F,
) -> Seat<T, View>
    requires table { HasItems B.items seat table.now.table_id }
    requires count { count ≡ length B.items }
    requires some { 0 < count }
    requires accepts { AcceptsEach F.Fn f.now B.items }
    requires leaves { (i : ℕ) (x y : T) → ChangesAt F.Fn f.now i x y → B.leaves i x y }
    requires seat { seat.me ≡ (opener (others + 1), []) }
    ensures same { SameSeat seat result }
    ensures done { result.me ≡ (record (opener (others + 1)) { past = count }, []) }
{
    let mut seat = seat;
    if others == 0 {
        claim_each(table, &mut seat, count, f);
        return seat;
    }
    let other = table.split_seat::<Hire>(&mut seat);
    let theirs = move || -> Seat<T, View>
        requires { IsSync R.row × IsSync F.row × IsSend T.row × IsSend B.row × IsSync B.row
            × HasItems B.items other table.now.table_id × (count ≡ length B.items) × (0 < count)
            × AcceptsEach F.Fn f.now B.items × ((i : ℕ) (x y : T) → ChangesAt F.Fn f.now i x y → B.leaves i x y)
            × (other.me ≡ (opener 1, [])) }
        ensures { SameSeat other result × (result.me ≡ (record (opener 1) { past = count }, [])) }
    { crew(rt, table, other, 0, count, f) };
    let ours = move || -> Seat<T, View>
        requires { IsSync R.row × IsSync F.row × IsSend T.row × IsSend B.row × IsSync B.row
            × HasItems B.items seat table.now.table_id × (count ≡ length B.items) × (0 < count)
            × AcceptsEach F.Fn f.now B.items × ((i : ℕ) (x y : T) → ChangesAt F.Fn f.now i x y → B.leaves i x y)
            × (0 < others) × (seat.me ≡ (opener others, [])) }
        ensures { SameSeat seat result × (result.me ≡ (record (opener others) { past = count }, [])) }
    { crew(rt, table, seat, others - 1, count, f) };
    let (theirs, mut ours) = join(rt, theirs, ours);
    table.join_seat::<Return>(&mut ours, theirs);
    ours
}

/// Claims one item after the other, each that nobody has claimed.
fn claim_each<T, F: Fn(usize, &mut T), B: Told<T> + Send + Sync>(
    table: &Shared<T, View, u64, Rule<B>>,
    seat: &mut Seat<T, View>,
    count: usize,
    f: &F,
)
    requires table { HasItems B.items seat.old table.now.table_id }
    requires count { count ≡ length B.items }
    requires accepts { AcceptsEach F.Fn f.now B.items }
    requires leaves { (i : ℕ) (x y : T) → ChangesAt F.Fn f.now i x y → B.leaves i x y }
    requires free { IsFree seat.old 0 }
    ensures same { SameSeat seat.old seat.new }
    ensures done { seat.new.me ≡ (record seat.old.me.0 { past = count }, []) }
{
    for k in 0..count {
        claim(table, seat, k, f);
    }
}

/// Claims an item, and calls the function on it where nobody had claimed it.
fn claim<T, F: Fn(usize, &mut T), B: Told<T> + Send + Sync>(
    table: &Shared<T, View, u64, Rule<B>>,
    seat: &mut Seat<T, View>,
    k: usize,
    f: &F,
)
    requires table { HasItems B.items seat.old table.now.table_id }
    requires place { k < length B.items }
    requires accepts { AcceptsEach F.Fn f.now B.items }
    requires leaves { (i : ℕ) (x y : T) → ChangesAt F.Fn f.now i x y → B.leaves i x y }
    requires free { IsFree seat.old k }
    ensures same { SameSeat seat.old seat.new }
    ensures done { seat.new.me ≡ (record seat.old.me.0 { past = k + 1 }, []) }
{
    if table.swap::<Claim<B>>(seat, k, 1) != 0 {
        return;
    }
    call_at(f, k, seat.slot_mut(table, k));
    table.load::<GiveBack>(seat, k);
}

/// The items of a table at which all threads have ended.
fn gather<T: Drop, B: Told<T> + Send + Sync>(
    table: Claims<T, B>,
    seat: Seat<T, View>,
    count: usize,
    gathered: Vec<T>,
) -> Vec<T>
    requires table { HasItems B.items seat table.shared.table_id }
    requires count { count ≡ length B.items }
    requires done { seat.me ≡ (record (opener table.shared.key) { past = count }, []) }
    requires empty { gathered.items ≡ [] }
    requires room { count ≤ vec_capacity gathered }
    ensures count { length result.items ≡ count }
    ensures items { (k : ℕ) (x y : T) → slice_get B.items k ≡ Some x → slice_get result.items k ≡ Some y → B.leaves k x y }
{
    let mut closed = table.close_with(seat);
    let mut gathered = gathered;
    for k in 0..count {
        gathered.push_reserved(closed.take(k));
    }
    closed.free();
    gathered
}
