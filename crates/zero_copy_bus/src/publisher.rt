//! The end of a bus that writes records and publishes them: it makes seats for subscribers, loans slots, publishes records, and
//! takes slots back.
ghost use Rattle.std.specs.Prelude.{◌≡◌, ◌+◌, ◌-◌, ◌^◌, ◌<◌, ◌≤◌, ◌↔◌, Bool, true};
ghost use Rattle.std.specs.Prelude.{false, Some, count_by, slice_get, slice_set, vec_len, IsTrue, IsFalse, IfOk, IfErr, IfNone, IfSome, OnErr};
ghost use Rattle.threaded.specs.Shares.{IsAll};
ghost use Rattle.lock_free_sets.specs.Unique.Held.{HoldsNothing};
ghost use Rattle.lock_free_sets.specs.UniqueIndexSet.{made, set_of, share};
ghost use Rattle.zero_copy_bus.specs.Books.{holders_at, AllFree, ChangesAt, GainsNone, GainsOnly, IsLoaned};
ghost use Rattle.zero_copy_bus.specs.Books.{KeepsAllOrNone, KeepsLoans, KeepsLoansBut, held_number};
ghost use Rattle.zero_copy_bus.specs.Holders.{is_held, publisher};
ghost use Rattle.zero_copy_bus.specs.Outlets.{has_gained, holders_in, open_in, AreShown, AtLane, EachLane, EachOther, HaveTheirPlaces};
ghost use Rattle.zero_copy_bus.specs.Outlets.{IsServed, IsSettled, IsTakenBack, KeepsRest, NobodyTakesPart, OthersStay, StaysOrLost};
ghost use Rattle.zero_copy_bus.specs.Outlets.{WasLetOf, WasRejoined};
ghost use Rattle.zero_copy_bus.specs.Pools as pools;
ghost use Rattle.zero_copy_bus.specs.Rolls.{HasLooked, HasNotLooked, HasRecovered};
ghost use Rattle.zero_copy_slots.specs.Slots.{slots_in, written_by};

use crate::error::{LoanFailure, ReclaimFailure, SubscribeFailure};
use crate::holders::Holder;
pub use crate::loan::{Emptied, Loan};
use crate::outlet::Outlet;
use crate::outlets::{free_inlet, rejoin_at, send_to_all, settle_all, take_all_back, takes_part};
use crate::pool::Pool;
use crate::roll::Roll;
use crate::subscriber::{Left, Seat, Subscriber};
use lock_free_owners::mpmc::container::OwnerId;
use lock_free_sets::mpmc::unique_index_set::Pass;
use std::sync::Wait;
use std::thread;
use zero_copy_loans::words::Layout;
use zero_copy_slots::{Anything, Keeps, Slots, Writer};

/// Keeps the value that lay in a slot, if one did, among the records to write.
fn keep<X: Drop>(spares: &mut Vec<X>, old: Option<(u64, X)>) {
    if let Some((_, value)) = old {
        let _ = spares.push(value);
    }
}

/// The publisher, of which a bus has one at a time. It knows who holds each slot, and keeps the records that are not in a slot.
/// It keeps each slot that came back for the next loan. The pool gets those back when the publisher is finished, or dropped
/// (the drop by no clause).
pub struct Publisher<'a, X: Drop, K: Keeps<X> = Anything> {
    pool: Pool<'a>,
    records: Writer<'a, X, K>,
    spares: Vec<X>,
    layout: Layout,
    next: u64,
    outlets: Vec<Outlet<'a>>,
    roll: Roll<'a>,
    ghost sized: { slots_in (written_by records) ≡ pools.slots_of pool },
    ghost fits: { layout.places ≡ slots_in (written_by records) },
    ghost placed: { HaveTheirPlaces (holders_in outlets.items) },
    ghost shown: { AreShown roll (open_in outlets.items) },
}

impl<'a, X: Drop, K: Keeps<X>> Drop for Publisher<'a, X, K> {
    fn drop(self) {
        let Self {
            pool: _pool,
            records: _records,
            spares: _spares,
            layout: _,
            next: _,
            outlets: _outlets,
            roll: _roll,
        } = self;
    }
}

impl<'a, X: Drop, K: Keeps<X>> Publisher<'a, X, K> {
    ghost use Rattle.zero_copy_bus.specs.Ends.{emptied, expected_at, first_before, lanes_of, layout_at, layout_before, layout_of, loaned, next_of, place_at};
    ghost use Rattle.zero_copy_bus.specs.Ends.{place_before, records_of, roll_of, room_of, set_in, share_in, slots_at};
    ghost use Rattle.zero_copy_bus.specs.Ends.{slots_before, slots_of, spares_in, table_of};
    ghost use Rattle.zero_copy_bus.specs.Ends.{place_left, receives_at, receives_before, receives_left, receives_queue, receives_view, record_of};
    ghost use Rattle.zero_copy_bus.specs.Relays.{LanesPassOn};
    ghost use Rattle.zero_copy_bus.specs.Ends.{CanSendToAll, HasNumber, HasTried, IsKept, IsOfLane, IsSame, IsTakenFor, WasNotSubscribed, WasSeated};

    pub(crate) fn of(
        pool: Pool<'a>,
        records: &'a Slots<X, K>,
        spares: Vec<X>,
        outlets: Vec<Outlet<'a>>,
        roll: Roll<'a>,
    ) -> Publisher<'a, X, K>
        requires sized { slots_in records.now ≡ pools.slots_of pool }
        requires placed { HaveTheirPlaces (holders_in outlets.items) }
        requires closed { NobodyTakesPart (open_in outlets.items) }
        ensures pool { result.pool ≡ pool.entry }
        ensures records { written_by result.records ≡ records.now }
        ensures spares { spares_in result ≡ vec_len spares }
        ensures lanes { lanes_of result ≡ outlets.entry.items }
        ensures next { next_of result ≡ 0 }
    {
        let layout = Layout::new(records.number());
        Publisher {
            pool,
            records: Writer::new(records),
            spares,
            layout,
            next: 0,
            outlets,
            roll,
        }
    }

    /// A seat for a subscriber, who may take it in another thread. A subscriber that takes it (`join`) takes part from the next
    /// `update` on, and receives no record that was published before the seat was made. None where no lane is free, or no
    /// further pass can be counted. The call may lose free lanes, also where a seat is given: nobody gets a lost lane any more.
    pub fn seat(&mut self) -> Option<Seat<'a, X, K>>
        ensures slots { IfSome result (λ s. slots_before s ≡ slots_of self.old) }
        ensures layout { IfSome result (λ s. layout_before s ≡ layout_of self.old) }
        ensures first { IfSome result (λ s. first_before s ≡ next_of self.old) }
        ensures leased { IfSome result (λ s. AtLane (place_before s) (WasLetOf (receives_at s) (receives_before s))
            (lanes_of self.old) (lanes_of self.new)) }
        ensures others { IfSome result (λ s. EachOther (place_before s) StaysOrLost (lanes_of self.old) (lanes_of self.new)) }
        ensures none { IfNone result (EachLane StaysOrLost (lanes_of self.old) (lanes_of self.new)) }
        ensures table { table_of self.new ≡ table_of self.old }
        ensures taking { open_in (lanes_of self.new) ≡ open_in (lanes_of self.old) }
        ensures looks { HasNotLooked (roll_of self.old) (roll_of self.new) }
        ensures same { IsSame self.old self.new }
        ensures next { next_of self.new ≡ next_of self.old }
    {
        let Some(member) = self.roll.member() else {
            return None;
        };
        let (inlet, place) = free_inlet(&mut self.outlets)?;
        Some(Seat::of(
            inlet,
            self.records.reader(),
            self.layout,
            self.next,
            member,
            place as u64,
        ))
    }

    /// A subscriber that takes part at once: a `seat`, a `join` and an `update` in one. The lane of its place takes part, so
    /// that `publish` serves it, and the subscriber receives from the queue of that lane (`leased`).
    /// Refused where no seat is given (`NoSeat`), and where the registry does not let the owner in (`NotLetIn`). If the
    /// publisher's look at the registry does not show the subscriber, it leaves again (`NotSeen`), or the registry refuses to
    /// remove its record (`NotRemoved`).
    pub fn subscribe(
        &mut self,
        rt: &impl Wait,
        owner: OwnerId,
    ) -> Result<Subscriber<'a, X, K>, SubscribeFailure>
        ensures looked { IfOk result (λ _. (changed : Bool) × HasLooked changed (roll_of self.old) (roll_of self.new)) }
        ensures part { IfOk result (λ s. slice_get (open_in (lanes_of self.new)) (place_at s) ≡ Some true) }
        ensures owner { IfOk result (λ s. (record_of s).owner ≡ owner) }
        ensures slots { IfOk result (λ s. slots_at s ≡ slots_of self.old) }
        ensures first { IfOk result (λ s. expected_at s ≡ next_of self.old) }
        ensures layout { IfOk result (λ s. layout_at s ≡ layout_of self.old) }
        ensures leased { IfOk result (λ s. AtLane (place_at s) (WasLetOf (receives_queue s) (receives_view s))
            (lanes_of self.old) (lanes_of self.new)) }
        ensures others { IfOk result (λ s. EachOther (place_at s) OthersStay (lanes_of self.old) (lanes_of self.new)) }
        ensures settled { IfOk result (WasSeated self.old self.new) }
        ensures refused { IfErr result (WasNotSubscribed owner self.old self.new) }
        ensures all { KeepsAllOrNone (table_of self.old) (table_of self.new) }
        ensures loans { KeepsLoans (table_of self.old) (table_of self.new) }
        ensures same { IsSame self.old self.new }
        ensures next { next_of self.new ≡ next_of self.old }
    {
        let Some(seat) = self.seat() else {
            return Err(SubscribeFailure::NoSeat);
        };
        let subscriber = match seat.join(rt, owner) {
            Ok(subscriber) => subscriber,
            Err((failure, _seat)) => return Err(SubscribeFailure::NotLetIn(failure)),
        };
        self.update(rt);
        if takes_part(&self.outlets, subscriber.place()) {
            return Ok(subscriber);
        }
        match subscriber.leave(rt) {
            Ok(_left) => return Err(SubscribeFailure::NotSeen),
            Err((failure, _subscriber)) => return Err(SubscribeFailure::NotRemoved(failure)),
        }
    }

    /// Whether the lane of this subscriber's place takes part, as of the last `update`.
    pub fn takes_part(&self, subscriber: &Subscriber<'_, X, K>) -> bool
        ensures { IsTrue result ↔ (slice_get (open_in (lanes_of self.now)) (place_at subscriber.now) ≡ Some true) }
    {
        takes_part(&self.outlets, subscriber.place())
    }

    /// Looks once at the registry who takes part. Subscribers that it shows get what is published from now on. If a subscriber
    /// has left, or a recovery has taken it out, and nobody has its end of the lane any more, the lane is free again, and so
    /// are all slots that it held (only tested). Every other subscriber, and the publisher, holds what it held.
    pub fn update(&mut self, rt: &impl Wait)
        ensures looked { (changed : Bool) × HasLooked changed (roll_of self.old) (roll_of self.new) }
        ensures settled { EachLane (IsSettled (roll_of self.new) (table_of self.old) (table_of self.new))
            (lanes_of self.old) (lanes_of self.new) }
        ensures rest { KeepsRest (lanes_of self.old) (table_of self.old) (table_of self.new) }
        ensures all { KeepsAllOrNone (table_of self.old) (table_of self.new) }
        ensures loans { KeepsLoans (table_of self.old) (table_of self.new) }
        ensures same { IsSame self.old self.new }
        ensures next { next_of self.new ≡ next_of self.old }
    {
        let has_changed = self.roll.update(rt);
        settle_all(
            rt,
            &mut self.outlets,
            &mut self.pool,
            &self.roll,
            has_changed,
        );
    }

    /// Takes in the pass with which a subscriber that left received, and the publisher's guard of that queue, if it is there.
    /// If no pass of the queue was dropped, it is known then which records went out by the lane, and what became of each
    /// (`passes_on`). The subscriber's passes of the registry and of the queue by which it gave slots back are dropped, so
    /// nobody has the whole share of those.
    ///
    /// Nothing more goes out by the lane, also not to a subscriber that got it since. The table does not
    /// change. Unless another subscriber got the lane, the next `update` takes back the slots that the former
    /// one held, and frees the lane (only tested).
    pub fn rejoin(&mut self, left: Left<'_>)
        requires { IsOfLane left self.old }
        ensures taken_in { AtLane (place_left left.entry) (WasRejoined (receives_left left.entry)) (lanes_of self.old) (lanes_of self.new) }
        ensures others { EachOther (place_left left.entry) (λ old new. new ≡ old) (lanes_of self.old) (lanes_of self.new) }
        ensures taking { open_in (lanes_of self.new) ≡ slice_set (open_in (lanes_of self.old)) (place_left left.entry) false }
        ensures table { table_of self.new ≡ table_of self.old }
        ensures same { IsSame self.old self.new }
        ensures next { next_of self.new ≡ next_of self.old }
    {
        let (submission, place) = left.into_received();
        rejoin_at(&mut self.outlets, place as usize, submission);
    }

    /// Does nothing at run time. It tells a caller's proof what became of the records that went out by a lane with room, from
    /// where it is let until all its passes are taken in (`rejoin`), if each `update` in between showed its subscriber: a
    /// beginning of them was received or came back unread, each once, and both in order. The rest still waits. An `update` that
    /// frees the lane takes the rest out, which counts as received.
    pub fn passes_on(&self)
        ensures { LanesPassOn }
    {}

    /// Frees the registry's records of an owner that is dead, and then looks who takes part (`update`).
    pub fn recover(&mut self, rt: &impl Wait, dead: OwnerId)
        ensures recovered { HasRecovered dead (roll_of self.old) (roll_of self.new) }
        ensures settled { EachLane (IsSettled (roll_of self.new) (table_of self.old) (table_of self.new))
            (lanes_of self.old) (lanes_of self.new) }
        ensures rest { KeepsRest (lanes_of self.old) (table_of self.old) (table_of self.new) }
        ensures all { KeepsAllOrNone (table_of self.old) (table_of self.new) }
        ensures loans { KeepsLoans (table_of self.old) (table_of self.new) }
        ensures same { IsSame self.old self.new }
        ensures next { next_of self.new ≡ next_of self.old }
    {
        self.roll.recover(rt, dead);
        self.update(rt);
    }

    /// A free slot, which the publisher alone holds, with a record to write. `NoRecord`: none is left to write, and nothing
    /// changes. `NoSlot`: each slot is out, or the pool is locked (the clause says only that nothing changes). `StillRead`:
    /// somebody reads the slot that does not hold it by the table. The slot stays out, so that the next loan gets another, and
    /// `reclaim` tries it again. If no loan comes, no record is used up.
    /// Steps: a load and at most one compare-exchange on the slot. If the publisher keeps no slot that came back, those of
    /// `acquire_raw_index` too.
    pub fn loan(&mut self, rt: &impl Wait) -> Result<Loan<'a, X, K>, LoanFailure>
        ensures within { IfOk result (λ l. loaned l < slots_of self.old) }
        ensures free { IfOk result
            (λ l. is_held (holders_at (table_of self.old) (loaned l)) ≡ false) }
        ensures changes { IfOk result
            (λ l. ChangesAt (loaned l) publisher (table_of self.old) (table_of self.new)) }
        ensures loaned { IfOk result (λ l. IsLoaned (table_of self.new) (loaned l)) }
        ensures spares { IfOk result (λ l. spares_in self.new + 1 ≡ spares_in self.old) }
        ensures kept { OnErr result (spares_in self.new ≡ spares_in self.old) }
        ensures refused { IfErr result (IsTakenFor (records_of self.old) (spares_in self.old) (table_of self.old) (table_of self.new)) }
        ensures taking { open_in (lanes_of self.new) ≡ open_in (lanes_of self.old) }
        ensures lanes { lanes_of self.new ≡ lanes_of self.old }
        ensures same { IsSame self.old self.new }
        ensures next { next_of self.new ≡ next_of self.old }
    {
        if self.spares.is_empty() {
            return Err(LoanFailure::NoRecord);
        }
        let slot = match self.pool.take(rt, Holder::publisher()) {
            Ok(slot) => slot,
            Err(failure) => return Err(LoanFailure::NoSlot(failure)),
        };
        let writing = match self.records.take(slot) {
            Ok(writing) => writing,
            Err(failure) => return Err(LoanFailure::StillRead(slot, failure)),
        };
        let Some(value) = self.spares.pop() else {
            unreachable!()
        };
        Ok(Loan::of(slot, value, writing))
    }

    /// Takes back the slots that subscribers gave back, and tries to loan once. If no loan comes, no record is used up.
    fn loan_once(&mut self, rt: &impl Wait) -> Option<Loan<'a, X, K>>
        ensures within { IfSome result (λ l. loaned l < slots_of self.old) }
        ensures fresh { IfSome result (λ l. ¬ IsLoaned (table_of self.old) (loaned l)) }
        ensures loaned { IfSome result (λ l. IsLoaned (table_of self.new) (loaned l)) }
        ensures can { IfSome result (λ l. CanSendToAll self.new (loaned l)) }
        ensures spares { IfSome result (λ l. spares_in self.new + 1 ≡ spares_in self.old) }
        ensures kept { IfNone result (spares_in self.new ≡ spares_in self.old) }
        ensures tried { HasTried self.old self.new }
    {
        self.collect();
        match self.loan(rt) {
            Ok(loan) => Some(loan),
            Err(_) => None,
        }
    }

    /// A loan, by at most `tries` tries (by no clause). Before each try it takes back the slots that subscribers gave back, and
    /// after a try that is refused another thread may run. None where each try was refused; then no record is used up.
    ///
    /// A slot that is `StillRead` stays out, on loan, and its number is not told: `reclaim` may be tried with each number. No
    /// subscriber holds it any more. No clause says that it is still read, that each try leaves at most one such slot, or that
    /// all slots that were given back are taken back. For each try, the steps of `collect` and of `loan`.
    pub fn loan_within(&mut self, rt: &impl Wait, tries: u64) -> Option<Loan<'a, X, K>>
        ensures within { IfSome result (λ l. loaned l < slots_of self.old) }
        ensures fresh { IfSome result (λ l. ¬ IsLoaned (table_of self.old) (loaned l)) }
        ensures loaned { IfSome result (λ l. IsLoaned (table_of self.new) (loaned l)) }
        ensures can { IfSome result (λ l. CanSendToAll self.new (loaned l)) }
        ensures spares { IfSome result (λ l. spares_in self.new + 1 ≡ spares_in self.old) }
        ensures kept { IfNone result (spares_in self.new ≡ spares_in self.old) }
        ensures tried { HasTried self.old self.new }
    {
        for _ in 0..tries {
            if let Some(loan) = self.loan_once(rt) {
                return Some(loan);
            }
            thread::yield_now();
        }
        None
    }

    /// A loan, as soon as there is a free slot. Before each try it takes back the slots that subscribers gave back, and after a
    /// try that is refused another thread may run. It waits for good where no slot comes back, and where no record is left to
    /// write. A slot that is `StillRead` stays out (as `loan_within` says). For each try, the steps of `collect` and of `loan`.
    pub fn loan_waiting(&mut self, rt: &impl Wait) -> Loan<'a, X, K>
        ensures within { loaned result < slots_of self.old }
        ensures fresh { ¬ IsLoaned (table_of self.old) (loaned result) }
        ensures loaned { IsLoaned (table_of self.new) (loaned result) }
        ensures can { CanSendToAll self.new (loaned result) }
        ensures spares { spares_in self.new + 1 ≡ spares_in self.old }
        ensures tried { HasTried self.old self.new }
    {
        for _ in rt.forever() {
            if let Some(loan) = self.loan_once(rt) {
                return loan;
            }
            thread::yield_now();
        }
        unreachable!()
    }

    /// Publishes a record, which has to keep the rule with the next number. It goes to each subscriber that takes part and does
    /// not hold its slot. Returns how many gained it. The slot is on loan no more. A subscriber whose queue is full loses its
    /// oldest record. After the last of 2^64 / p numbers (p: the slots, up to a power of two) each loan is given up: 0.
    /// One step on the slot, and the steps of a push for each such subscriber.
    pub fn publish(&mut self, loan: Loan<'a, X, K>) -> usize
        requires fits { K.holds (next_of self.old) loan.value }
        ensures served { HasNumber self.old (loaned loan.entry)
            → EachLane (IsServed (room_of self.old) (next_of self.old) (loaned loan.entry) (table_of self.old) (table_of self.new))
            (lanes_of self.old) (lanes_of self.new) }
        ensures number { HasNumber self.old (loaned loan.entry) → result
            ≡ count_by (has_gained (loaned loan.entry) (table_of self.old) (table_of self.new)) (lanes_of self.old) }
        ensures rest { KeepsRest (lanes_of self.old) (table_of self.old) (table_of self.new) }
        ensures gone { ¬ IsLoaned (table_of self.new) (loaned loan.entry) }
        ensures gains { GainsOnly (loaned loan.entry) (table_of self.old) (table_of self.new) }
        ensures loans { KeepsLoansBut (loaned loan.entry) (table_of self.old) (table_of self.new) }
        ensures nobody { result ≡ 0
            → ChangesAt (loaned loan.entry) publisher (table_of self.old) (table_of self.new) }
        ensures taking { open_in (lanes_of self.new) ≡ open_in (lanes_of self.old) }
        ensures same { IsSame self.old self.new }
        ensures next { HasNumber self.old (loaned loan.entry) → next_of self.new ≡ next_of self.old + 1 }
        ensures last { ¬ HasNumber self.old (loaned loan.entry) → (result ≡ 0) × (next_of self.new ≡ next_of self.old) }
        ensures unsent { ¬ HasNumber self.old (loaned loan.entry) → lanes_of self.new ≡ lanes_of self.old }
    {
        let slot = loan.slot();
        let number = self.next;
        if !self.layout.has(number, slot) {
            self.give_up(loan);
            return 0;
        }
        let (value, writing) = loan.into_parts();
        let (lying, before) = self.records.put(writing, number, value);
        keep(&mut self.spares, before);
        self.next = number + 1;
        let gained = send_to_all(&mut self.outlets, &mut self.pool, &self.layout, &lying);
        self.pool.put_back(slot as u64, Holder::publisher());
        gained
    }

    /// Gives a loan up: nobody gets its record, which is kept among the records to write (by no clause). One step on the slot.
    pub fn give_up(&mut self, loan: Loan<'a, X, K>)
        ensures gone { ¬ IsLoaned (table_of self.new) (loaned loan.entry) }
        ensures changes { ChangesAt (loaned loan.entry) publisher (table_of self.old) (table_of self.new) }
        ensures taking { open_in (lanes_of self.new) ≡ open_in (lanes_of self.old) }
        ensures lanes { lanes_of self.new ≡ lanes_of self.old }
        ensures same { IsSame self.old self.new }
        ensures next { next_of self.new ≡ next_of self.old }
    {
        let slot = loan.slot();
        let (value, writing) = loan.into_parts();
        let _ = self.spares.push(value);
        keep(&mut self.spares, writing.empty());
        self.pool.put_back(slot as u64, Holder::publisher());
    }

    /// Tries a slot again that was `StillRead`, or whose loan was dropped: if nobody reads or writes it, the slot is left
    /// empty, and is free. Refused where the publisher does not hold it (`NotHeld`), and where its word says that somebody
    /// still reads it or writes it, as while its loan is in hand (`InUse`); then nothing changes. A load, at most one
    /// compare-exchange and one further step on the slot.
    pub fn reclaim(&mut self, slot: u32) -> Result<Emptied, ReclaimFailure>
        ensures had { IfOk result (λ e. IsLoaned (table_of self.old) slot) }
        ensures emptied { IfOk result (λ e. emptied e ≡ slot) }
        ensures gone { IfOk result (λ e. ¬ IsLoaned (table_of self.new) slot) }
        ensures changes { ChangesAt slot publisher (table_of self.old) (table_of self.new) }
        ensures refused { IfErr result (λ e. IsKept slot self.old e × (table_of self.new ≡ table_of self.old)) }
        ensures taking { open_in (lanes_of self.new) ≡ open_in (lanes_of self.old) }
        ensures lanes { lanes_of self.new ≡ lanes_of self.old }
        ensures same { IsSame self.old self.new }
        ensures next { next_of self.new ≡ next_of self.old }
    {
        if !self.pool.has(slot, Holder::publisher()) {
            return Err(ReclaimFailure::NotHeld);
        }
        let writing = match self.records.take(slot) {
            Ok(writing) => writing,
            Err(failure) => return Err(ReclaimFailure::InUse(failure)),
        };
        let (emptied, before) = Emptied::by(slot, writing);
        keep(&mut self.spares, before);
        self.pool.put_back(slot as u64, Holder::publisher());
        Ok(emptied)
    }

    /// Takes back the slots that subscribers have given back: nobody gains a slot, and each slot on loan stays on loan. No
    /// record is used up.
    pub fn collect(&mut self)
        ensures taken { EachLane (IsTakenBack (slots_of self.old) (table_of self.old) (table_of self.new))
            (lanes_of self.old) (lanes_of self.new) }
        ensures rest { KeepsRest (lanes_of self.old) (table_of self.old) (table_of self.new) }
        ensures gains { GainsNone (table_of self.old) (table_of self.new) }
        ensures loans { KeepsLoans (table_of self.old) (table_of self.new) }
        ensures spares { spares_in self.new ≡ spares_in self.old }
        ensures taking { open_in (lanes_of self.new) ≡ open_in (lanes_of self.old) }
        ensures same { IsSame self.old self.new }
        ensures next { next_of self.new ≡ next_of self.old }
    {
        take_all_back(&mut self.outlets, &mut self.pool);
    }

    /// Whether nobody holds a slot.
    pub fn is_free(&self) -> bool
        ensures { IsTrue result ↔ AllFree (table_of self.now) }
    {
        self.pool.is_free()
    }

    /// How many slots are not free: at least as many as somebody holds, at most all, and exactly those that somebody holds if
    /// the publisher has the whole share of the pool.
    pub fn borrowed(&mut self) -> usize
        ensures table { table_of self.new ≡ table_of self.old }
        ensures least { held_number (table_of self.old) ≤ result }
        ensures most { result ≤ slots_of self.old }
        ensures whole { IsAll (share_in self.old) → result ≡ held_number (table_of self.old) }
        ensures lanes { lanes_of self.new ≡ lanes_of self.old }
        ensures same { IsSame self.old self.new }
        ensures next { next_of self.new ≡ next_of self.old }
    {
        self.pool.borrowed()
    }

    /// The number that the next record to be published gets: 0 for the first.
    pub fn next_number(&self) -> u64
        ensures { result ≡ next_of self.now }
    {
        self.next
    }

    /// Hands out the pass, and the records that are not in a slot, to be written by a later publisher. Each kept slot goes back
    /// to the pool by at most 5 atomic steps. If nobody holds a slot by the table, the pass holds nothing.
    pub fn finish(self) -> (Pass, Vec<X>)
        ensures free { AllFree (table_of self.entry) → HoldsNothing (made result.0) }
        ensures set { set_of result.0 ≡ set_in self.entry }
        ensures share { share result.0 ≡ share_in self.entry }
        ensures spares { vec_len result.1 ≡ spares_in self.entry }
    {
        let Publisher {
            pool,
            records: _records,
            spares,
            layout: _,
            next: _,
            outlets: _,
            roll: _,
        } = self;
        (pool.into_pass(), spares)
    }
}
