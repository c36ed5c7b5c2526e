//! The shared slots, and the calls on them.
ghost use Rattle.std.specs.Prelude.{◌≡◌, ◌<◌, ℕ, length, slice_get, Some};
ghost use Rattle.geo_lease.specs.Calls.{marked};

use crate::keeper::{GrantError, Keeper, NoMemory};
use crate::lease::{Lease, Turn};
use crate::rule::{
    AsLeased, ENDED, End, GRANTED, Grant, Lay, LayBack, LayOut, Learn, Lend, Part, Planned, See,
    Slotted, Take, TakeLeased, Token,
};
use crate::view::View;
use atomic_table::Table;
use std::alloc::Global;
use std::marker::Brand;

type Bench<T> = Table<Option<T>, View<T>, (u64, u64), AsLeased, Global>;

/// The slots of all geodes: one more of each than leases can be out.
#[derive(Drop)]
pub struct Leases<T> {
    pub(crate) table: Bench<T>,
    ghost sized: { table.shared.table_id.words ≡ 2 },
}

impl<T> Leases<T> {
    ghost use Rattle.std.specs.Prelude.{◌+◌, ◌*◌, ◌≤◌, ◌≢◌, [], ◌∷◌, replicate, true, false, slice_set, None};
    ghost use Rattle.std.specs.Prelude.{IfOk, IfErr, All, Contains, is_some};
    ghost use Rattle.atomic_table.specs.Table.{rest};
    ghost use Rattle.std.specs.Result.{IsErrOf};
    ghost use Rattle.geo_lease.specs.declared.view.Plan.{Plan};
    ghost use Rattle.geo_lease.specs.declared.view.Role.TheVariants.{Keeps, Turns};
    ghost use Rattle.geo_lease.specs.Plans.{HasPlace, IsFree, plan_of, with_slots, slot_at};
    ghost use Rattle.geo_lease.specs.Views.{has, without, opener, keeping, first_turn, looking, laying, granting};
    ghost use Rattle.geo_lease.specs.Views.{learning, lend, fetching, returning};
    ghost use Rattle.geo_lease.specs.Calls.{Chosen, AreCurrent, Reclaimed, Refused};
    ghost use Rattle.geo_lease.specs.Tokens.{leases_id, keeper_of, turn_of, lease_of, keeper_view, turn_view};
    ghost use Rattle.geo_lease.specs.Tokens.{current_slots, geodes_of, content_of};
    ghost use Rattle.geo_lease.specs.Tokens.{frame_of, number_of, lease_plan, lease_slots, content_under, SameLease};

    /// Empty slots for that many geodes and that many leases out, with the keeper and the turn. `Err` is want of memory.
    pub fn new(
        alloc: Global,
        geodes: u16,
        ahead: u8,
    ) -> Result<(Leases<T>, Keeper<T>, Turn<T>), NoMemory>
        requires geodes { (0 < geodes) × (geodes ≤ 4096) }
        requires ahead { (0 < ahead) × (ahead ≤ 4) }
        ensures same { IfOk result (λ r. (keeper_of r.1 ≡ leases_id r.0) × (turn_of r.2 ≡ leases_id r.0)) }
        ensures keeper { IfOk result (λ r. keeper_view r.1 ≡ keeping (opener ahead (geodes * (ahead + 1)))) }
        ensures current { IfOk result (λ r. current_slots r.1 ≡ replicate geodes None) }
        ensures turn { IfOk result (λ r. turn_view r.2 ≡ first_turn) }
    {
        let slots = usize::from(geodes) * (usize::from(ahead) + 1);
        let current = vec![in alloc; None; usize::from(geodes)]?;
        let last = vec![in alloc; 0; slots]?;
        let key = (u64::from(ahead), slots as u64);
        let (table, mut seat) = Bench::<T>::vacant(alloc, &[0, 0], slots, &key)?;
        let turn = table.shared.split_seat::<Part>(&mut seat);
        let keeper = Keeper {
            seat,
            ahead,
            seen: 0,
            granted: 0,
            current,
            last,
        };
        Ok((
            Leases { table },
            keeper,
            Turn {
                seat: turn,
                next: 0,
            },
        ))
    }

    /// Makes the content the geode's current one, and answers what lay in the slot that it went to: a slot of the geode
    /// that no lease out names.
    pub fn store(&self, keeper: &mut Keeper<T>, geode: u16, content: T) -> Option<T>
        requires same { keeper_of keeper.old ≡ leases_id self.now }
        requires geode { geode < geodes_of keeper.old }
        ensures same { keeper_of keeper.new ≡ keeper_of keeper.old }
        ensures stored { (k : ℕ) × Chosen (keeper_view keeper.old) (current_slots keeper.old) geode k ×
            (slice_get (keeper_view keeper.old).contents k ≡ Some result) ×
            (keeper_view keeper.new ≡ laying (keeper_view keeper.old) k (Some content)) ×
            (current_slots keeper.new ≡ slice_set (current_slots keeper.old) geode (Some k)) }
        ensures content { content_of keeper.new geode ≡ Some content }
        ensures others { (g : ℕ) → g ≢ geode → content_of keeper.new g ≡ content_of keeper.old g }
        ensures geodes { geodes_of keeper.new ≡ geodes_of keeper.old }
        ensures leases { ((keeper_view keeper.new).leases ≡ (keeper_view keeper.old).leases) ×
            ((keeper_view keeper.new).above ≡ (keeper_view keeper.old).above) ×
            ((keeper_view keeper.new).seen ≡ (keeper_view keeper.old).seen) }
    {
        let slot = keeper.choose(usize::from(geode));
        let found = self.swap_free::<Brand>(&mut keeper.seat, slot, Some(content));
        keeper.current[usize::from(geode)] = Some(slot);
        found
    }

    /// Grants a lease for a frame: it records what each named geode contains now. The memory for it is taken first, and
    /// none where no geode is named.
    pub fn grant(
        &self,
        alloc: Global,
        keeper: &mut Keeper<T>,
        frame: u32,
        names: &[u16],
    ) -> Result<Lease<T>, GrantError>
        requires same { keeper_of keeper.old ≡ leases_id self.now }
        requires current { All (λ geode. is_some (content_of keeper.old geode) ≡ true) names.now }
        requires frame { (keeper_view keeper.old).above ≤ frame }
        ensures same { keeper_of keeper.new ≡ keeper_of keeper.old }
        ensures current { current_slots keeper.new ≡ current_slots keeper.old }
        ensures contents { (keeper_view keeper.new).contents ≡ (keeper_view keeper.old).contents }
        ensures lease { IfOk result (λ lease. (lease_of lease ≡ leases_id self.now) × (frame_of lease ≡ frame) ×
            (number_of lease ≡ length (keeper_view keeper.old).leases) ×
            (lease_slots lease ≡ with_slots (current_slots keeper.old) names.now) ×
            (lease_plan lease ≡ Some (plan_of frame (lease_slots lease) (keeper_view keeper.old).contents))) }
        ensures granted { IfOk result (λ lease. (e : ℕ) × (keeper_view keeper.new ≡ granting
            (looking (keeper_view keeper.old) e)
            (plan_of frame (lease_slots lease) (keeper_view keeper.old).contents))) }
        ensures recorded { IfOk result (λ lease. (g : ℕ) → Contains names.now g →
            content_under lease g ≡ content_of keeper.old g) }
        ensures named { IfOk result (λ lease. (g : ℕ) → Contains names.now g →
            is_some (slot_at g (lease_slots lease)) ≡ true) }
        ensures refused { IfErr result (λ error. Refused error (keeper_view keeper.old) (keeper_view keeper.new)) }
        ensures memory { IsErrOf result GrantError.NoMemory → 0 < length names.now }
        ensures above { IfOk result (λ lease. (keeper_view keeper.new).above ≡ frame + 1) }
        ensures still { IfErr result (λ error. (keeper_view keeper.new).above ≡ (keeper_view keeper.old).above) }
    {
        let Ok(places) = keeper.places_for(alloc, names) else {
            return Err(GrantError::NoMemory);
        };
        let ended = self.look(keeper);
        if keeper.granted - ended == u64::from(keeper.ahead) {
            return Err(GrantError::Out(ended));
        }
        Ok(self.hand_out::<Brand>(keeper, frame, places))
    }

    /// Takes a content out of a slot that is no geode's current one and that no lease out names, after a look at which
    /// leases ended.
    pub fn reclaim(&self, keeper: &mut Keeper<T>, slot: u32) -> Option<T>
        requires same { keeper_of keeper.old ≡ leases_id self.now }
        requires slot { slot < length (keeper_view keeper.old).contents }
        ensures same { keeper_of keeper.new ≡ keeper_of keeper.old }
        ensures reclaimed { (e : ℕ) × Reclaimed slot e (current_slots keeper.old) (keeper_view keeper.old) result
            (keeper_view keeper.new) }
        ensures current { current_slots keeper.new ≡ current_slots keeper.old }
        ensures contents { (g : ℕ) → content_of keeper.new g ≡ content_of keeper.old g }
        ensures leases { ((keeper_view keeper.new).leases ≡ (keeper_view keeper.old).leases) ×
            ((keeper_view keeper.new).above ≡ (keeper_view keeper.old).above) ×
            (length (keeper_view keeper.new).contents ≡ length (keeper_view keeper.old).contents) }
    {
        self.look(keeper);
        let slot = slot as usize;
        if keeper.is_idle(slot) && keeper.is_free(slot) {
            self.swap_free::<Brand>(&mut keeper.seat, slot, None)
        } else {
            None
        }
    }

    /// Takes the content that the lease recorded for the geode out of its slot.
    pub fn fetch(&self, turn: &mut Turn<T>, lease: &mut Lease<T>, geode: u16) -> T
        requires same { (turn_of turn.old ≡ leases_id self.now) × (lease_of lease.old ≡ leases_id self.now) }
        requires next { number_of lease.old ≡ (turn_view turn.old).next }
        requires named { is_some (slot_at geode (lease_slots lease.old)) ≡ true }
        requires unfetched { (k : ℕ) → slot_at geode (lease_slots lease.old) ≡ Some k →
            has k (turn_view turn.old).out ≡ false }
        ensures same { (turn_of turn.new ≡ turn_of turn.old) × SameLease lease.old lease.new }
        ensures content { content_under lease.old geode ≡ Some result }
        ensures fetched { (k : ℕ) → slot_at geode (lease_slots lease.old) ≡ Some k →
            (turn_view turn.new).out ≡ k ∷ (turn_view turn.old).out }
        ensures next { (turn_view turn.new).next ≡ (turn_view turn.old).next }
    {
        let slot = lease.slot_of(geode);
        self.learn(turn, lease);
        self.swap_out::<Brand>(&mut turn.seat, slot)
    }

    /// Puts a content that was fetched back into its slot.
    pub fn put_back(&self, turn: &mut Turn<T>, lease: &mut Lease<T>, geode: u16, content: T)
        requires same { (turn_of turn.old ≡ leases_id self.now) × (lease_of lease.old ≡ leases_id self.now) }
        requires next { number_of lease.old ≡ (turn_view turn.old).next }
        requires named { is_some (slot_at geode (lease_slots lease.old)) ≡ true }
        requires fetched { (k : ℕ) → slot_at geode (lease_slots lease.old) ≡ Some k →
            has k (turn_view turn.old).out ≡ true }
        requires content { content_under lease.old geode ≡ Some content }
        ensures same { (turn_of turn.new ≡ turn_of turn.old) × SameLease lease.old lease.new }
        ensures returned { (k : ℕ) → slot_at geode (lease_slots lease.old) ≡ Some k →
            (turn_view turn.new).out ≡ without k (turn_view turn.old).out }
        ensures next { (turn_view turn.new).next ≡ (turn_view turn.old).next }
    {
        let slot = lease.slot_of(geode);
        self.learn(turn, lease);
        self.swap_in::<Brand>(&mut turn.seat, slot, content);
    }

    /// Ends the lease: its slots are free for newer contents, where no later lease names them.
    pub fn end(&self, turn: &mut Turn<T>, lease: Lease<T>)
        requires same { (turn_of turn.old ≡ leases_id self.now) × (lease_of lease ≡ leases_id self.now) }
        requires next { number_of lease ≡ (turn_view turn.old).next }
        requires returned { (turn_view turn.old).out ≡ [] }
        ensures same { turn_of turn.new ≡ turn_of turn.old }
        ensures ended { (turn_view turn.new).next ≡ (turn_view turn.old).next + 1 }
        ensures empty { (turn_view turn.new).out ≡ [] }
    {
        let Lease {
            frame: _,
            number: _,
            places: _,
            seat,
        } = lease;
        self.table.shared.join_seat::<Learn>(&mut turn.seat, seat);
        self.table.shared.fetch_add::<End>(&mut turn.seat, ENDED, 1);
        turn.next += 1;
    }

    // Looks how many leases ended.
    fn look(&self, keeper: &mut Keeper<T>) -> u64
        requires { keeper_of keeper.old ≡ leases_id self.now }
        ensures same { keeper_of keeper.new ≡ keeper_of keeper.old }
        ensures looked { keeper_view keeper.new ≡ looking (keeper_view keeper.old) result }
        ensures kept { (keeper.new.granted ≡ keeper.old.granted) × (keeper.new.ahead ≡ keeper.old.ahead) ×
            (keeper.new.seen ≡ result) × (keeper.new.current ≡ keeper.old.current) ×
            (keeper.new.last ≡ keeper.old.last) }
    {
        let ended = self.table.shared.load::<See>(&mut keeper.seat, ENDED);
        keeper.seen = ended;
        ended
    }

    // Takes a free slot, swaps its content, and lays it back.
    fn swap_free<N: Slotted>(
        &self,
        seat: &mut Token<T>,
        slot: usize,
        content: Option<T>,
    ) -> Option<T>
        requires picked { N.slot ≡ slot }
        requires same { seat.old.table_id ≡ leases_id self.now }
        requires rests { (seat.old.me.0.role ≡ Keeps) × (seat.old.me.0.held ≡ None) × (seat.old.me.1 ≡ []) }
        requires inside { slot < length seat.old.me.0.contents }
        requires free { IsFree seat.old.me.0.leases seat.old.me.0.seen slot }
        ensures same { seat.new.table_id ≡ seat.old.table_id }
        ensures found { slice_get seat.old.me.0.contents slot ≡ Some result }
        ensures laid { seat.new.me ≡ (laying seat.old.me.0 slot content, []) }
    {
        self.table.shared.load::<Take<N>>(seat, GRANTED);
        let found = self.table.shared.exchange(seat, slot, content);
        self.table.shared.load::<Lay>(seat, GRANTED);
        found
    }

    // Grants the lease over these geodes and slots, and notes at each slot that the lease names it.
    fn hand_out<P: Planned<T>>(
        &self,
        keeper: &mut Keeper<T>,
        frame: u32,
        places: Vec<(u16, usize)>,
    ) -> Lease<T>
        requires picked { P.plan ≡ plan_of frame places.items (keeper_view keeper.old).contents }
        requires same { keeper_of keeper.old ≡ leases_id self.now }
        requires current { AreCurrent (current_slots keeper.old) places.items }
        requires room { keeper.old.granted < keeper.old.seen + keeper.old.ahead }
        requires frame { (keeper_view keeper.old).above ≤ frame }
        ensures same { (keeper_of keeper.new ≡ keeper_of keeper.old) × (lease_of result ≡ keeper_of keeper.old) }
        ensures current { current_slots keeper.new ≡ current_slots keeper.old }
        ensures granted { keeper_view keeper.new ≡ granting (keeper_view keeper.old) P.plan }
        ensures lease { (frame_of result ≡ frame) × (number_of result ≡ length (keeper_view keeper.old).leases) ×
            (lease_slots result ≡ places.items) × (lease_plan result ≡ Some P.plan) }
    {
        let number = keeper.granted;
        self.table
            .shared
            .fetch_add::<Grant<P>>(&mut keeper.seat, GRANTED, 1);
        let seat = self.table.shared.split_seat::<Lend>(&mut keeper.seat);
        keeper.granted = number + 1;
        mark(keeper.last.as_mut_slice(), places.as_slice(), number + 1);
        Lease {
            frame,
            number,
            places,
            seat,
        }
    }

    // Lets the turn know what the lease promises.
    fn learn(&self, turn: &mut Turn<T>, lease: &mut Lease<T>)
        requires same { (turn_of turn.old ≡ leases_id self.now) × (lease_of lease.old ≡ leases_id self.now) }
        ensures same { (turn_of turn.new ≡ turn_of turn.old) × SameLease lease.old lease.new }
        ensures learned { turn_view turn.new ≡ learning (turn_view turn.old) lease.old.seat.me.0 }
    {
        let copy = self.table.shared.split_seat::<Lend>(&mut lease.seat);
        self.table.shared.join_seat::<Learn>(&mut turn.seat, copy);
    }

    // Takes the content out of a slot of the lease that the turn knows.
    fn swap_out<N: Slotted>(&self, seat: &mut Token<T>, slot: usize) -> T
        requires picked { N.slot ≡ slot }
        requires same { seat.old.table_id ≡ leases_id self.now }
        requires rests { (seat.old.me.0.role ≡ Turns) × (seat.old.me.0.held ≡ None) × (seat.old.me.1 ≡ []) }
        requires next { seat.old.me.0.number ≡ seat.old.me.0.next }
        requires leased { (l : Plan T) × (x : T) × (seat.old.me.0.plan ≡ Some l) × HasPlace l slot x }
        requires unfetched { has slot seat.old.me.0.out ≡ false }
        ensures same { seat.new.table_id ≡ seat.old.table_id }
        ensures content { (l : Plan T) (x : T) → seat.old.me.0.plan ≡ Some l → HasPlace l slot x → result ≡ x }
        ensures fetched { seat.new.me ≡ (fetching seat.old.me.0 slot, []) }
    {
        self.table.shared.load::<TakeLeased<N>>(seat, ENDED);
        let content = self.table.shared.exchange(seat, slot, None).unwrap();
        self.table.shared.load::<LayOut>(seat, ENDED);
        content
    }

    // Puts the content back into a slot of the lease that the turn knows.
    fn swap_in<N: Slotted>(&self, seat: &mut Token<T>, slot: usize, content: T)
        requires picked { N.slot ≡ slot }
        requires same { seat.old.table_id ≡ leases_id self.now }
        requires rests { (seat.old.me.0.role ≡ Turns) × (seat.old.me.0.held ≡ None) × (seat.old.me.1 ≡ []) }
        requires next { seat.old.me.0.number ≡ seat.old.me.0.next }
        requires leased { (l : Plan T) × (seat.old.me.0.plan ≡ Some l) × HasPlace l slot content }
        requires fetched { has slot seat.old.me.0.out ≡ true }
        ensures same { seat.new.table_id ≡ seat.old.table_id }
        ensures returned { seat.new.me ≡ (returning seat.old.me.0 slot, []) }
    {
        self.table.shared.load::<TakeLeased<N>>(seat, ENDED);
        self.put(seat, slot, content);
        self.table.shared.load::<LayBack>(seat, ENDED);
    }

    // Puts the content into the empty slot that the seat holds.
    fn put(&self, seat: &mut Token<T>, slot: usize, content: T)
        requires same { seat.old.table_id ≡ leases_id self.now }
        requires empty { seat.old.me.1 ≡ (slot, None) ∷ rest seat.old.me.1 }
        ensures same { seat.new.table_id ≡ seat.old.table_id }
        ensures put { seat.new.me ≡ (seat.old.me.0, (slot, Some content) ∷ rest seat.old.me.1) }
    {
        let found = self.table.shared.exchange(seat, slot, Some(content));
        let None = found else { unreachable!() };
    }
}

// Notes the number at each slot of the places.
fn mark(last: &mut [u64], places: &[(u16, usize)], number: u64)
    requires { (i : ℕ) (p : ℕ × ℕ) → slice_get places.now i ≡ Some p → p.1 < length last.old }
    ensures { last.new ≡ marked last.old places.now number }
{
    for place in places {
        last[place.1] = number;
    }
}
