//! The lock: a ticket lock whose seats keep the log.
ghost use Rattle.std.specs.Prelude.{◌≡◌};

use crate::pass::{Pass, Token};
use crate::rule::{Draw, HandOut, InTurn, Note, Poll, Recall, TakeIn};
use crate::traits::{Act, Glance, Logged};
use crate::view::View;
use atomic_table::Table;
use pf_io::NoMemory;
use std::alloc::Global;
use std::sync::Wait;

type Bench<T> = Table<Option<T>, View<<T as Logged>::Entry>, u64, InTurn, Global>;

// The words of the table: the ticket to be drawn next, the ticket served, and the number of noted entries.
pub(crate) const TICKET: usize = 0;

pub(crate) const SERVING: usize = 1;

const NOTES: usize = 2;

/// A value that threads take turns at.
#[derive(Drop)]
pub struct SeatLock<T: Logged> {
    pub(crate) table: Bench<T>,
    ghost sized: { (table.shared.table_id.words ≡ 4) × (table.shared.table_id.slots ≡ 1) },
}

impl<T: Logged> SeatLock<T> {
    ghost use Rattle.std.specs.Prelude.{ℕ, ◌<◌, ◌≤◌, ◌+◌, ◌-◌, ◌%◌, ◌^◌, ◌++◌, [], ◌∷◌, ◌≢◌, length, Some, None};
    ghost use Rattle.std.specs.Prelude.{IfOk, IfErr, IsOkAnd, MatchBool};
    ghost use mathlib.Core.List.{IsPrefix};
    ghost use Rattle.seat_lock.specs.declared.view.Phase.TheVariants.{Idle, Waiting, Serving};
    ghost use Rattle.seat_lock.specs.Log.{of, Found};
    ghost use Rattle.seat_lock.specs.View.{opener, answering, IsTrueOf, IsSound, AnswersForAll};
    ghost use Rattle.seat_lock.specs.View.{gives_one, given_one, united, in_phase, having_seen, noting};
    ghost use Rattle.seat_lock.specs.Steps.{Finds, served_to, Holds, HoldsMore};
    ghost use Rattle.seat_lock.specs.Calls.{TurnedBy, LookedBy};
    ghost use Rattle.seat_lock.specs.Tokens.{lock_id, pass_of, pass_view};

    /// A lock for that many seats over a value with an empty log, and the pass of the seat 0, which answers for all
    /// numbers. `Err` is want of memory, and hands the value back.
    pub fn new(alloc: Global, value: T, seats: u32) -> Result<(SeatLock<T>, Pass<T>), T>
        requires empty { T.log value ≡ [] }
        requires some { 0 < seats }
        requires few { seats ≤ 64 }
        ensures ok { IfOk result (λ r. (pass_of r.1 ≡ lock_id r.0) × (pass_view r.1 ≡ opener seats)) }
        ensures err { IfErr result (λ v. v ≡ value) }
    {
        let Ok(mut slots) = Vec::with_capacity(alloc, 1) else {
            return Err(value);
        };
        slots.push_reserved(Some(value));
        let words = [0, 0, 0, u64::from(seats)];
        match Bench::<T>::new(alloc, &words, slots, &u64::from(seats)) {
            Ok((table, seat)) => {
                let pass = Pass {
                    number: 0,
                    next: 1,
                    end: seats,
                    seat,
                };
                Ok((SeatLock { table }, pass))
            }
            Err(refused) => {
                let mut slots = refused.slots;
                let value = slots.pop().unwrap().unwrap();
                slots.destroy_empty();
                Err(value)
            }
        }
    }

    /// One turn: waits until it is the pass's, and lets the act change the value.
    pub fn turn<A: Act<T>, R: Wait>(&self, rt: &R, pass: &mut Pass<T>, act: A) -> A::Reply
        requires { pass_of pass.old ≡ lock_id self.now }
        ensures lock { pass_of pass.new ≡ pass_of pass.old }
        ensures turned { TurnedBy T.log (A.does act (pass_view pass.old).number) (pass_view pass.old) result
            (pass_view pass.new) }
    {
        let mut value = self.take(rt, &mut pass.seat);
        let before = value.entries();
        let reply = act.act(&mut value, pass.number);
        let added = value.entries() != before;
        self.hand_back(&mut pass.seat, value, added);
        reply
    }

    /// One look: waits until it is the pass's turn, and shows the value to the glance.
    pub fn look<G: Glance<T>, R: Wait>(&self, rt: &R, pass: &mut Pass<T>, glance: G) -> G::Out
        requires { pass_of pass.old ≡ lock_id self.now }
        ensures lock { pass_of pass.new ≡ pass_of pass.old }
        ensures looked { LookedBy T.log (G.shows glance) (pass_view pass.old) result (pass_view pass.new) }
    {
        let value = self.take(rt, &mut pass.seat);
        let out = glance.glance(&value);
        self.hand_back(&mut pass.seat, value, false);
        out
    }

    /// Makes a pass for one of the numbers that `pass` can hand out. It answers for that number alone, has no entries
    /// and has seen what `pass` has seen. `pass` no longer answers for the number. This lock needs no memory for it,
    /// so the answer is always `Ok`.
    pub fn split(&self, pass: &mut Pass<T>) -> Result<Pass<T>, NoMemory>
        requires lock { pass_of pass.old ≡ lock_id self.now }
        requires spare { (pass_view pass.old).next < (pass_view pass.old).end }
        ensures lock { pass_of pass.new ≡ pass_of pass.old }
        ensures left { pass_view pass.new ≡ gives_one (pass_view pass.old) }
        ensures given { IsOkAnd result (λ other. (pass_of other ≡ pass_of pass.old) ×
            (pass_view other ≡ given_one (pass_view pass.old))) }
        ensures numbers { IfOk result (λ other. (k : ℕ) →
            answering k (pass_view pass.new) + answering k (pass_view other) ≡ answering k (pass_view pass.old)) }
        ensures unused { of (pass_view pass.old).next (pass_view pass.old).seen ≡ [] }
    {
        self.recall(&mut pass.seat);
        let seat = self.table.shared.split_seat::<HandOut>(&mut pass.seat);
        let number = pass.next;
        pass.next += 1;
        Ok(Pass {
            number,
            next: 0,
            end: 0,
            seat,
        })
    }

    /// Takes the other pass in: `into` then answers for its numbers too, keeps their entries, and has seen the longer
    /// of the two logs. Each of the two is a front of it, and what follows that front has no entry of a number that its
    /// pass answered for. The numbers that came in are not handed out again.
    pub fn join(&self, into: &mut Pass<T>, other: Pass<T>)
        requires into { pass_of into.old ≡ lock_id self.now }
        requires other { pass_of other ≡ lock_id self.now }
        ensures lock { pass_of into.new ≡ pass_of into.old }
        ensures united { pass_view into.new ≡ united (pass_view into.old) (pass_view other) }
        ensures numbers { (k : ℕ) → answering k (pass_view into.new) ≡
            answering k (pass_view into.old) + answering k (pass_view other) }
        ensures kept { (k : ℕ) → 0 < answering k (pass_view into.old) →
            of k (pass_view into.new).kept ≡ of k (pass_view into.old).kept }
        ensures gained { (k : ℕ) → 0 < answering k (pass_view other) →
            of k (pass_view into.new).kept ≡ of k (pass_view other).kept }
        ensures front { IsPrefix (pass_view into.old).seen (pass_view into.new).seen }
        ensures other_front { IsPrefix (pass_view other).seen (pass_view into.new).seen }
        ensures found { (k : ℕ) → 0 < answering k (pass_view into.old) →
            Found k (pass_view into.old).seen (pass_view into.new).seen }
        ensures other_found { (k : ℕ) → 0 < answering k (pass_view other) →
            Found k (pass_view other).seen (pass_view into.new).seen }
    {
        let Pass {
            number: _,
            next: _,
            end: _,
            mut seat,
        } = other;
        self.recall(&mut into.seat);
        self.recall(&mut seat);
        self.take_in(&mut into.seat, seat);
        self.recall(&mut into.seat);
    }

    /// Takes the value out in a last turn. Its log goes on from what the pass had seen, with no further entry of a
    /// number that the pass answers for, and holds of each of these numbers just the entries that the pass keeps.
    /// Where it answers for all numbers, the log holds no other entries: each entry's number is that of a seat. A later
    /// turn at this lock waits for ever.
    pub fn close<R: Wait>(&self, rt: &R, pass: Pass<T>) -> T
        requires { pass_of pass ≡ lock_id self.now }
        ensures goes_on { Found (pass_view pass).number (pass_view pass).seen (T.log result) }
        ensures found { (k : ℕ) → 0 < answering k (pass_view pass) → Found k (pass_view pass).seen (T.log result) }
        ensures true_of { IsTrueOf (T.log result) (pass_view pass) }
        ensures within { (k : ℕ) → (pass_view pass).seats ≤ k → of k (T.log result) ≡ [] }
        ensures all { AnswersForAll (pass_view pass) → (k : ℕ) → of k (T.log result) ≡ of k (pass_view pass).kept }
    {
        let Pass {
            number: _,
            next: _,
            end: _,
            mut seat,
        } = pass;
        self.take(rt, &mut seat)
    }

    // Draws a ticket, waits until it is served, and takes the value out of the slot.
    fn take<R: Wait>(&self, rt: &R, seat: &mut Token<T>) -> T
        requires lock { seat.old.table_id ≡ lock_id self.now }
        requires rests { (seat.old.me.0.phase ≡ Idle) × (seat.old.me.1 ≡ []) × (0 < length seat.old.me.0.answers) }
        ensures lock { seat.new.table_id ≡ seat.old.table_id }
        ensures finds { Finds T.log seat.old.me.0 result }
        ensures serving { (t : ℕ) ×
            (seat.new.me ≡ (having_seen (in_phase seat.old.me.0 (Serving t)) (T.log result), (0, None) ∷ [])) }
    {
        let ticket = self.table.shared.fetch_add::<Draw>(seat, TICKET, 1);
        self.wait_for(rt, seat, ticket);
        self.table.shared.exchange(seat, 0, None).unwrap()
    }

    // Waits until the ticket is served.
    fn wait_for<R: Wait>(&self, rt: &R, seat: &mut Token<T>, ticket: u64)
        requires lock { seat.old.table_id ≡ lock_id self.now }
        requires waits { (t : ℕ) × (ticket ≡ t % 2 ^ 64) × (seat.old.me.0.phase ≡ Waiting t) }
        ensures lock { seat.new.table_id ≡ seat.old.table_id }
        ensures served { (t : ℕ) × (x : T) × Finds T.log seat.old.me.0 x ×
            (seat.new.me ≡ served_to T.log seat.old.me t x) }
    {
        for _ in rt.forever() {
            let served = self.table.shared.load::<Poll>(seat, SERVING);
            if served == ticket {
                return;
            }
            self.table
                .shared
                .park(rt, SERVING, (served & 0xffff_ffff) as u32);
        }
        unreachable!()
    }

    // Puts the value back into the slot, notes its new entry where there is one, and serves the next ticket.
    fn hand_back(&self, seat: &mut Token<T>, value: T, added: bool)
        requires lock { seat.old.table_id ≡ lock_id self.now }
        requires serving { (t : ℕ) × (seat.old.me.0.phase ≡ Serving t) × (seat.old.me.1 ≡ (0, None) ∷ []) }
        requires gained { MatchBool added
            ((e : _) × (T.log value ≡ seat.old.me.0.seen ++ (seat.old.me.0.number, e) ∷ []))
            (T.log value ≡ seat.old.me.0.seen) }
        ensures lock { seat.new.table_id ≡ seat.old.table_id }
        ensures noted { MatchBool added
            ((e : _) × (T.log value ≡ seat.old.me.0.seen ++ (seat.old.me.0.number, e) ∷ []) ×
            (seat.new.me ≡ (in_phase (noting seat.old.me.0 e) Idle, [])))
            (seat.new.me ≡ (in_phase seat.old.me.0 Idle, [])) }
    {
        self.put(seat, value);
        if added {
            self.note(seat);
        }
        self.leave(seat);
    }

    // Puts the value back into the slot.
    fn put(&self, seat: &mut Token<T>, value: T)
        requires lock { seat.old.table_id ≡ lock_id self.now }
        requires empty { seat.old.me.1 ≡ (0, None) ∷ [] }
        ensures lock { seat.new.table_id ≡ seat.old.table_id }
        ensures put { seat.new.me ≡ (seat.old.me.0, (0, Some value) ∷ []) }
    {
        let found = self.table.shared.exchange(seat, 0, Some(value));
        let None = found else { unreachable!() };
    }

    // Notes the entry that the value in the slot has more than the log seen.
    fn note(&self, seat: &mut Token<T>)
        requires lock { seat.old.table_id ≡ lock_id self.now }
        requires more { HoldsMore T.log seat.old.me }
        ensures lock { seat.new.table_id ≡ seat.old.table_id }
        ensures noted { (y : T) × (e : _) × (seat.old.me.1 ≡ (0, Some y) ∷ []) ×
            (T.log y ≡ seat.old.me.0.seen ++ (seat.old.me.0.number, e) ∷ []) ×
            (seat.new.me ≡ (noting seat.old.me.0 e, seat.old.me.1)) }
    {
        self.table.shared.fetch_add::<Note>(seat, NOTES, 1);
    }

    // Gives the value up and serves the next ticket, and then wakes those who wait.
    fn leave(&self, seat: &mut Token<T>)
        requires lock { seat.old.table_id ≡ lock_id self.now }
        requires holds { Holds T.log seat.old.me }
        ensures lock { seat.new.table_id ≡ seat.old.table_id }
        ensures left { seat.new.me ≡ (in_phase seat.old.me.0 Idle, []) }
    {
        let served = self.serve_next(seat);
        self.wake_waiting(served);
    }

    // Joins the other seat into this one.
    fn take_in(&self, seat: &mut Token<T>, other: Token<T>)
        requires lock { (seat.old.table_id ≡ lock_id self.now) × (other.table_id ≡ lock_id self.now) }
        requires rests { (seat.old.me.0.phase ≡ Idle) × (0 < length seat.old.me.0.answers) }
        requires other_rests { (other.me.0.phase ≡ Idle) × (other.me.1 ≡ []) × (0 < length other.me.0.answers) }
        ensures lock { seat.new.table_id ≡ seat.old.table_id }
        ensures united { seat.new.me ≡ (united seat.old.me.0 other.me.0, seat.old.me.1) }
    {
        self.table.shared.join_seat::<TakeIn>(seat, other);
    }

    // Learns that the pass's view is sound.
    pub(crate) fn recall_pass(&self, pass: &mut Pass<T>)
        requires { pass_of pass.old ≡ lock_id self.now }
        ensures lock { pass_of pass.new ≡ pass_of pass.old }
        ensures same { pass_view pass.new ≡ pass_view pass.old }
        ensures sound { IsSound (pass_view pass.new) }
    {
        self.recall(&mut pass.seat);
    }

    // Learns that the seat's view is sound.
    fn recall(&self, seat: &mut Token<T>)
        requires lock { seat.old.table_id ≡ lock_id self.now }
        requires awake { 0 < length seat.old.me.0.answers }
        ensures lock { (seat.new.table_id ≡ seat.old.table_id) × (seat.new.id ≡ seat.old.id) }
        ensures same { seat.new.me ≡ seat.old.me }
        ensures sound { IsSound seat.new.me.0 }
    {
        self.table.shared.load::<Recall>(seat, TICKET);
    }
}
