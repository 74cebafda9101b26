//! The end of a bus that receives records and reads them: a seat, the subscriber that takes it, and what one
//! that left hands back.
ghost use Rattle.std.specs.Prelude.{◌≡◌, ◌<◌, IsTrue, IsFalse, IfOk, IfErr, IfSome, IfNone, List, [], ◌∷◌, ℕ};
ghost use Rattle.lock_free_owners.specs.Container.Contracts.{WasNotAdded};
ghost use Rattle.lock_free_owners.specs.Container.Handles.{container_in};
ghost use Rattle.lock_free_owners.specs.Container.Names.{IsOwn};
ghost use Rattle.model.specs.declared.event.Item.TheVariants.{Index};
ghost use Rattle.lock_free_queues.specs.Queues.Contracts.{HasReleased, PopOldest, PushDone};
ghost use Rattle.steps.specs.declared.queues.roles.Role.TheVariants as roles;
ghost use Rattle.lock_free_owners.specs.Robust.Contracts.{WasFreed};
ghost use Rattle.zero_copy_bus.specs.Sequences.{Rises};
ghost use Rattle.zero_copy_slots.specs.Slots.{number_in, read_by, slot_in, slots_in};

use crate::lane::Inlet;
use lock_free_owners::mpmc::container::{
    ContainerAddFailure, ContainerHandle, ContainerRemoveError, Handle, OwnerId,
};
use lock_free_queues::spsc::{index_queue, safely_overflowing_index_queue as overflow};
use lock_free_sets::mpmc::unique_index_set_enums::ReleaseMode;
use std::sync::Wait;
use std::thread;
use zero_copy_loans::error::ReadFailure;
use zero_copy_loans::words::Layout;
use zero_copy_slots::{Anything, Keeps, Reader, Reading};

/// The subscriber's end of a free lane, which a thread takes by `join`.
pub struct Seat<'a, X: Drop, K: Keeps<X> = Anything> {
    inlet: Inlet<'a>,
    records: Reader<'a, X, K>,
    layout: Layout,
    first: u64,
    members: Handle<'a, u64>,
    place: u64,
    ghost fits: { layout.places ≡ slots_in (read_by records) },
}

impl<'a, X: Drop, K: Keeps<X>> Drop for Seat<'a, X, K> {
    fn drop(self) {
        let Self {
            inlet: _inlet,
            records: _records,
            layout: _,
            first: _,
            members: _members,
            place: _,
        } = self;
    }
}

impl<'a, X: Drop, K: Keeps<X>> Seat<'a, X, K> {
    ghost use Rattle.lock_free_queues.specs.Queues.Rings.{consumer_queue, consumer_view};
    ghost use Rattle.zero_copy_bus.specs.Ends.{expected_at, first_before, inlet_at, inlet_before, layout_at, layout_before, members_before, place_at};
    ghost use Rattle.zero_copy_bus.specs.Ends.{place_before, receives_at, receives_before, receives_queue, receives_view, record_of};
    ghost use Rattle.zero_copy_bus.specs.Ends.{slots_at, slots_before, IsLetIn};

    /// A seat with this end of the lane at `place`, whose subscriber receives records from
    /// the number `first` on.
    pub(crate) fn of(
        inlet: Inlet<'a>,
        records: Reader<'a, X, K>,
        layout: Layout,
        first: u64,
        members: Handle<'a, u64>,
        place: u64,
    ) -> Seat<'a, X, K>
        requires { layout.places ≡ slots_in (read_by records) }
        ensures slots { slots_before result ≡ slots_in (read_by records.entry) }
        ensures layout { layout_before result ≡ layout }
        ensures first { first_before result ≡ first }
        ensures place { place_before result ≡ place }
        ensures receives { (receives_at result ≡ consumer_queue inlet.entry.receives) × (receives_before result ≡ consumer_view inlet.entry.receives) }
    {
        Seat {
            inlet,
            records,
            layout,
            first,
            members,
            place,
        }
    }

    /// Adds a record of the seat's place to the registry, as this owner, which no other subscriber may have.
    /// The subscriber takes part from the publisher's next `update` on. If the registry refuses, the seat
    /// comes back with the reason: the same end of the same lane, with the same first number.
    pub fn join(
        self,
        rt: &impl Wait,
        owner: OwnerId,
    ) -> Result<Subscriber<'a, X, K>, (ContainerAddFailure, Seat<'a, X, K>)>
        ensures joined { IfOk result (IsLetIn owner self.entry) }
        ensures owner { IfOk result (λ s. (record_of s).owner ≡ owner) }
        ensures slots { IfOk result (λ s. slots_at s ≡ slots_before self.entry) }
        ensures layout { IfOk result (λ s. layout_at s ≡ layout_before self.entry) }
        ensures first { IfOk result (λ s. expected_at s ≡ first_before self.entry) }
        ensures at { IfOk result (λ s. place_at s ≡ place_before self.entry) }
        ensures receives { IfOk result
            (λ s. (receives_queue s ≡ receives_at self.entry) × (receives_view s ≡ receives_before self.entry)) }
        ensures inlet { IfOk result (λ s. inlet_at s ≡ inlet_before self.entry) }
        ensures back { IfErr result (λ e. slots_before e.1 ≡ slots_before self.entry) }
        ensures place { IfErr result (λ e. place_before e.1 ≡ place_before self.entry) }
        ensures first_back { IfErr result (λ e. first_before e.1 ≡ first_before self.entry) }
        ensures layout_back { IfErr result (λ e. layout_before e.1 ≡ layout_before self.entry) }
        ensures inlet_back { IfErr result (λ e. inlet_before e.1 ≡ inlet_before self.entry) }
        ensures refused { IfErr result (λ e. WasNotAdded (place_before self.entry) owner e.0
            (members_before self.entry) (members_before e.1)) }
    {
        let Seat {
            inlet,
            records,
            layout,
            first,
            mut members,
            place,
        } = self;
        match members.add(rt, place, owner) {
            Ok(record) => Ok(Subscriber {
                inlet,
                records,
                layout,
                expected: first,
                members,
                record,
                place,
            }),
            Err(failure) => Err((
                failure,
                Seat {
                    inlet,
                    records,
                    layout,
                    first,
                    members,
                    place,
                },
            )),
        }
    }
}

/// A record by its number and its slot, which a subscriber may read until it gives it back. It may be sent to another thread. It
/// cannot be dropped: who has one gives it back, or keeps its slot (`keep`).
#[derive(Debug)]
pub struct Sample {
    number: u64,
    slot: u32,
}

impl Sample {
    ghost use Rattle.zero_copy_bus.specs.Ends.{number_of, received};

    /// The number that the record was published with.
    pub fn number(&self) -> u64
        ensures { result ≡ number_of self.now }
    {
        self.number
    }

    /// The number of the slot.
    pub fn slot(&self) -> u32
        ensures { result ≡ received self.now }
    {
        self.slot
    }

    /// Gives the slot not back, so that it stays out until the subscriber is gone. For one that leaves, or dies. No atomic step.
    pub fn keep(self) {
        let Self { number: _, slot: _ } = self;
    }
}

/// A subscriber. If it is dropped it counts as dead: the slots that it held stay out until it is recovered.
pub struct Subscriber<'a, X: Drop, K: Keeps<X> = Anything> {
    inlet: Inlet<'a>,
    records: Reader<'a, X, K>,
    layout: Layout,
    expected: u64,
    members: Handle<'a, u64>,
    record: ContainerHandle,
    place: u64,
    ghost fits: { layout.places ≡ slots_in (read_by records) },
    ghost own: { IsOwn (container_in members) «record» },
}

impl<'a, X: Drop, K: Keeps<X>> Drop for Subscriber<'a, X, K> {
    fn drop(self) {
        let Self {
            inlet: _inlet,
            records: _records,
            layout: _,
            expected: _,
            members: _members,
            record: _record,
            place: _,
        } = self;
    }
}

/// The passes of a subscriber that left: of the registry, of the queue from which it received, and of the one
/// by which it gave slots back. `Publisher::rejoin` takes in the second alone.
pub struct Left<'a> {
    pub members: Handle<'a, u64>,
    pub submission: overflow::Pass,
    pub completion: index_queue::Pass,
    place: u64,
}

impl<'a> Drop for Left<'a> {
    fn drop(self) {
        let Self {
            members: _members,
            submission: _submission,
            completion: _completion,
            place: _,
        } = self;
    }
}

impl<'a> Left<'a> {
    ghost use Rattle.zero_copy_bus.specs.Ends.{place_left};

    /// The pass of the queue from which the subscriber received, and the place of its lane.
    pub(crate) fn into_received(self) -> (overflow::Pass, u64)
        ensures pass { result.0 ≡ self.entry.submission }
        ensures place { result.1 ≡ place_left self.entry }
    {
        let Self {
            members: _members,
            submission,
            completion: _completion,
            place,
        } = self;
        (submission, place)
    }
}

impl<'a, X: Drop, K: Keeps<X>> Subscriber<'a, X, K> {
    ghost use Rattle.zero_copy_bus.specs.Ends.{expected_at, layout_at, members_left, members_view, number_of, numbers_of, place_at, place_left};
    ghost use Rattle.zero_copy_bus.specs.Ends.{queue_left, received, receives_left, receives_queue, receives_view, record_of, returns_left};
    ghost use Rattle.zero_copy_bus.specs.Ends.{returns_view, slots_at, word_at, HasHad, HasLeft, IsAgain, IsUnread};
    ghost use Rattle.zero_copy_bus.specs.Ends.{ReceivedNone, TookNoneBack, TookOut, TriedToReceive, WasKept};

    /// The oldest record that waits. Its number is above that of each record that this subscriber received
    /// before, and not below the number that was next when its seat was made. None where no record waits (as
    /// before the publisher's first `update` after the `join`), or where the popped word is of no slot or of
    /// a lower number; that word is then gone. The steps of `pop`.
    pub fn receive(&mut self, rt: &impl Wait) -> Option<Sample>
        ensures within { IfSome result (λ s. received s < slots_at self.old) }
        ensures rises { Rises (expected_at self.old) (numbers_of result) (expected_at self.new) }
        ensures oldest { IfSome result
            (λ s. PopOldest (Index (word_at self.old s)) (receives_view self.old) (receives_view self.new)) }
        ensures none { IfNone result (ReceivedNone self.old self.new) }
        ensures had { (came : List ℕ) × HasHad came (numbers_of result) self.old self.new }
        ensures same { (slots_at self.new ≡ slots_at self.old) × (layout_at self.new ≡ layout_at self.old) × (place_at self.new ≡ place_at self.old) }
    {
        let Some(word) = self.inlet.receives.pop(rt) else {
            return None;
        };
        let (number, slot) = self.layout.parts(word);
        if slot >= self.layout.places() {
            return None;
        }
        if number < self.expected {
            return None;
        }
        self.expected = number + 1;
        Some(Sample { number, slot })
    }

    /// The next record, by at most `tries` tries, between which another thread may run. None where each of so many tries received
    /// none. Words that are of no record may then be popped and gone. The steps of `receive` for each try.
    pub fn receive_within(&mut self, rt: &impl Wait, tries: u64) -> Option<Sample>
        ensures within { IfSome result (λ s. received s < slots_at self.old) }
        ensures oldest { IfSome result (λ s. TookOut s self.old self.new) }
        ensures rises { Rises (expected_at self.old) (numbers_of result) (expected_at self.new) }
        ensures had { (came : List ℕ) × HasHad came (numbers_of result) self.old self.new }
        ensures tried { IfNone result (TriedToReceive tries self.old self.new) }
        ensures same { (slots_at self.new ≡ slots_at self.old) × (layout_at self.new ≡ layout_at self.old) × (place_at self.new ≡ place_at self.old) }
    {
        for _ in 0..tries {
            if let Some(sample) = self.receive(rt) {
                return Some(sample);
            }
            thread::yield_now();
        }
        None
    }

    /// The next record, as soon as it is there. Between two tries another thread may run. It waits for good
    /// where no record comes, as where the publisher makes no `update` after the `join`. The steps of
    /// `receive` for each try.
    pub fn receive_waiting(&mut self, rt: &impl Wait) -> Sample
        ensures within { received result < slots_at self.old }
        ensures oldest { TookOut result self.old self.new }
        ensures rises { Rises (expected_at self.old) (number_of result ∷ []) (expected_at self.new) }
        ensures had { (came : List ℕ) × HasHad came (number_of result ∷ []) self.old self.new }
        ensures same { (slots_at self.new ≡ slots_at self.old) × (layout_at self.new ≡ layout_at self.old) × (place_at self.new ≡ place_at self.old) }
    {
        for _ in rt.forever() {
            if let Some(sample) = self.receive(rt) {
                return sample;
            }
            thread::yield_now();
        }
        unreachable!()
    }

    /// The least number of a record that it receives from now on: the number that was next when its seat was
    /// made, or one more than that of the record received last.
    pub fn expected(&self) -> u64
        ensures { result ≡ expected_at self.now }
    {
        self.expected
    }

    /// Reads a record that was received, where it lies. The record keeps the rule with the number of the
    /// sample. As long as the reading lives, this subscriber makes no call that changes it, and is not
    /// dropped, since the reading borrows it. Refused where the slot cannot be read (`Slot`), and where a
    /// value of another number lies in it (`Other`, only tested).
    ///
    /// A load and a compare-exchange, again for each other reader that comes or leaves in between. A reading
    /// that is forgotten (`std::mem::forget`) keeps its slot for good (`StillRead`).
    pub fn read(&self, sample: &Sample) -> Result<Reading<'_, X, K>, ReadFailure>
        ensures published { IfOk result (λ r. (number_in r ≡ number_of sample.now) × (slot_in r ≡ received sample.now)) }
        ensures refused { IfErr result (IsUnread self.now sample.now) }
    {
        let reading = match self.records.read(sample.slot) {
            Ok(reading) => reading,
            Err(failure) => return Err(ReadFailure::Slot(failure)),
        };
        let number = reading.number();
        if number == sample.number {
            Ok(reading)
        } else {
            Err(ReadFailure::Other(number))
        }
    }

    /// Gives a record's slot back to the publisher. True, since the queue has room for all slots (by no
    /// clause). False only where the queue is full, or at its last position.
    pub fn give_back(&mut self, sample: Sample) -> bool
        ensures given { IsTrue result
            → PushDone (Index (received sample)) (returns_view self.old) (returns_view self.new) }
        ensures full { IsFalse result → TookNoneBack (received sample) self.old self.new }
        ensures expected { expected_at self.new ≡ expected_at self.old }
        ensures receives { (receives_queue self.new ≡ receives_queue self.old) × (receives_view self.new ≡ receives_view self.old) }
        ensures same { (slots_at self.new ≡ slots_at self.old) × (layout_at self.new ≡ layout_at self.old) × (place_at self.new ≡ place_at self.old) }
    {
        let Sample { number: _, slot } = sample;
        self.inlet.returns.push(slot as u64)
    }

    /// Takes part no more: its record is removed from the registry, and both roles of its lane are released.
    /// The slots that it held come back at the publisher's next `update`. Refused where its owner does not
    /// have the record any more, as after a `recover` of this owner. Then the subscriber comes back as it
    /// was, with both roles: its lane is freed only after it is dropped (only tested).
    pub fn leave(
        self,
        rt: &impl Wait,
    ) -> Result<Left<'a>, (ContainerRemoveError, Subscriber<'a, X, K>)>
        ensures removed { IfOk result
            (λ l. WasFreed (record_of self.entry).index (record_of self.entry).owner (members_view self.entry) (members_left l)) }
        ensures received { IfOk result (λ l. HasReleased roles.Consumer (receives_view self.entry) (receives_left l)) }
        ensures returned { IfOk result (λ l. HasReleased roles.Producer (returns_view self.entry) (returns_left l)) }
        ensures left { IfOk result (HasLeft self.entry) }
        ensures kept { IfErr result (λ e. WasKept self.entry e.1 e.0) }
        ensures again { IfErr result (λ e. IsAgain self.entry e.1) }
    {
        let Subscriber {
            inlet,
            records,
            layout,
            expected,
            mut members,
            record,
            place,
        } = self;
        let ContainerHandle {
            index,
            owner,
            container,
        } = record;
        let named = ContainerHandle {
            index,
            owner,
            container,
        };
        match members.remove(rt, named, ReleaseMode::Default) {
            Ok(_) => {
                let (submission, completion) = inlet.release();
                Ok(Left {
                    members,
                    submission,
                    completion,
                    place,
                })
            }
            Err(failure) => {
                let record = ContainerHandle {
                    index,
                    owner,
                    container,
                };
                Err((
                    failure,
                    Subscriber {
                        inlet,
                        records,
                        layout,
                        expected,
                        members,
                        record,
                        place,
                    },
                ))
            }
        }
    }

    /// How many records wait for this subscriber at most: the capacity of its queue.
    pub fn room(&self) -> usize
        ensures { result ≡ (receives_queue self.now).capacity }
    {
        self.inlet.receives.capacity()
    }

    /// The place of its lane.
    pub fn place(&self) -> u64
        ensures { result ≡ place_at self.now }
    {
        self.place
    }
}
