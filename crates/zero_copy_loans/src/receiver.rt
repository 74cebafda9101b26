//! The end of the channel that receives values and reads them.
ghost use Rattle.std.specs.Prelude.{◌≡◌, ◌<◌, ℕ, IsTrue, IsFalse, IfOk, IfErr, IfSome, IfNone, [], ◌∷◌};
ghost use Rattle.model.specs.declared.event.Item.TheVariants.{Index};
ghost use Rattle.history.specs.Passes.{Goes};
ghost use Rattle.lock_free_queues.specs.Queues.Rings.{consumer_queue, consumer_view, producer_queue, producer_view, queue_of};
ghost use Rattle.steps.specs.declared.queues.roles.Role.TheVariants as roles;
ghost use Rattle.lock_free_queues.specs.Queues.Contracts.{HasReleased, PopOldest, PushDone};
ghost use Rattle.zero_copy_loans.specs.Words.{IsRoomFor};
ghost use Rattle.zero_copy_slots.specs.Slots.{number_in, read_by, slot_in, slots_in};

use crate::error::ReadFailure;
use crate::words::Layout;
use lock_free_queues::spsc::{index_queue, safely_overflowing_index_queue as overflow};
use std::sync::Wait;
use std::thread;
use zero_copy_slots::{Anything, Keeps, Reader, Reading, Slots};

/// A value that was sent, by its number and its place, which may be read until it is given back. It may be sent to another thread.
/// It cannot be dropped or forgotten: who has one gives it back.
#[derive(Debug)]
pub struct Sample {
    number: u64,
    place: u32,
}

/// The parts of which a receiver of a channel is made: a pass of each queue.
#[derive(Drop)]
pub struct ReceiverParts {
    pub submission: overflow::Pass,
    pub completion: index_queue::Pass,
}

impl Sample {
    ghost use Rattle.zero_copy_loans.specs.Ends.{number_of, received};

    /// The number that the value was sent with. No atomic step.
    pub fn number(&self) -> u64
        ensures { result ≡ number_of self.now }
    {
        self.number
    }

    /// The number of the place. No atomic step.
    pub fn place(&self) -> u32
        ensures { result ≡ received self.now }
    {
        self.place
    }
}

/// A reader of values where they lie. Of each value it tells something that is true of any number with which
/// the value keeps its rule. It is not given the number, so it tells what it found in the value. None where
/// it tells nothing.
pub trait Reads<X, K: Keeps<X>, A> {
    ghost tells: { ℕ → A → Type 0 };

    fn read(&mut self, value: &X) -> Option<A>
        ensures { (number : ℕ) → K.holds number value.now → IfSome result (Self.tells number) };
}

/// A receiver. If it is dropped, the places that it had stay Sent until the sender reclaims them, which the
/// sender of a `Channel` cannot.
pub struct Receiver<'a, X: Drop, K: Keeps<X> = Anything> {
    receives: overflow::Consumer<'a>,
    returns: index_queue::Producer<'a>,
    reader: Reader<'a, X, K>,
    layout: Layout,
    ghost sized: { layout.places ≡ slots_in (read_by reader) },
}

impl<'a, X: Drop, K: Keeps<X>> Drop for Receiver<'a, X, K> {
    fn drop(self) {
        let Self {
            receives: _receives,
            returns: _returns,
            reader: _reader,
            layout: _,
        } = self;
    }
}

impl<'a, X: Drop, K: Keeps<X>> Receiver<'a, X, K> {
    ghost use Rattle.zero_copy_loans.specs.Ends.{layout_in, number_of, numbers_of, places_in, received, received_queue, received_view, receives_queue};
    ghost use Rattle.zero_copy_loans.specs.Ends.{receives_view, returns_queue, returns_view, word_in, HasRead, HasReceived, HasReceivedAll};
    ghost use Rattle.zero_copy_loans.specs.Ends.{IsUnread, KeepsReceives};
    ghost use Rattle.zero_copy_loans.specs.Ends.{ReceivedNone, TookNoneBack, TriedToReceive};

    /// A receiver that receives from the submission queue and gives places back through the completion queue.
    /// No atomic step.
    pub fn new(
        receives: overflow::Consumer<'a>,
        returns: index_queue::Producer<'a>,
        slots: &'a Slots<X, K>,
    ) -> Receiver<'a, X, K>
        ensures places { places_in result ≡ slots_in slots.now }
        ensures receives { (receives_queue result ≡ consumer_queue receives.entry)
            × (receives_view result ≡ consumer_view receives.entry) }
        ensures returns { (returns_queue result ≡ producer_queue returns.entry)
            × (returns_view result ≡ producer_view returns.entry) }
        ensures room { IsRoomFor (slots_in slots.now) (layout_in result).room }
    {
        let layout = Layout::new(slots.number());
        Receiver::of(receives, returns, slots, layout)
    }

    /// A receiver as by `new`, with this layout of the words.
    pub(crate) fn of(
        receives: overflow::Consumer<'a>,
        returns: index_queue::Producer<'a>,
        slots: &'a Slots<X, K>,
        layout: Layout,
    ) -> Receiver<'a, X, K>
        requires { layout.places ≡ slots_in slots.now }
        ensures places { places_in result ≡ slots_in slots.now }
        ensures receives { (receives_queue result ≡ consumer_queue receives.entry)
            × (receives_view result ≡ consumer_view receives.entry) }
        ensures returns { (returns_queue result ≡ producer_queue returns.entry)
            × (returns_view result ≡ producer_view returns.entry) }
        ensures layout { layout_in result ≡ layout }
    {
        Receiver {
            receives,
            returns,
            reader: Reader::new(slots),
            layout,
        }
    }

    /// The oldest value that waits. None where none waits, where the queue has no capacity, or where the
    /// popped word names no place; that word is then gone. The steps of `pop`.
    pub fn receive(&mut self, rt: &impl Wait) -> Option<Sample>
        ensures within { IfSome result (λ s. received s < places_in self.old) }
        ensures oldest { IfSome result
            (λ s. PopOldest (Index (word_in self.old s)) (receives_view self.old) (receives_view self.new)) }
        ensures none { IfNone result (ReceivedNone self.old self.new) }
        ensures goes { 0 < (receives_queue self.old).capacity
            → Goes (receives_view self.old) (receives_view self.new) }
        ensures receives { HasReceived (numbers_of result) self.old self.new }
        ensures queues { (receives_queue self.new ≡ receives_queue self.old) × (returns_queue self.new ≡ returns_queue self.old) }
        ensures same { places_in self.new ≡ places_in self.old }
    {
        let word = self.receives.pop(rt)?;
        let (number, place) = self.layout.parts(word);
        if place < self.layout.places() {
            Some(Sample { number, place })
        } else {
            None
        }
    }

    /// The next value, by at most `tries` tries, between which another thread may run. None where each of so many tries received
    /// none. The steps of `receive` for each try.
    pub fn receive_within(&mut self, rt: &impl Wait, tries: u64) -> Option<Sample>
        ensures within { IfSome result (λ s. received s < places_in self.old) }
        ensures receives { HasReceived (numbers_of result) self.old self.new }
        ensures tried { IfNone result (TriedToReceive tries self.old self.new) }
    {
        for _ in 0..tries {
            if let Some(sample) = self.receive(rt) {
                return Some(sample);
            }
            thread::yield_now();
        }
        None
    }

    /// The next value, as soon as it is there. Between two tries another thread may run. Where no value comes
    /// it waits for good. The steps of `receive` for each try.
    pub fn receive_waiting(&mut self, rt: &impl Wait) -> Sample
        ensures within { received result < places_in self.old }
        ensures receives { HasReceived (number_of result ∷ []) self.old self.new }
    {
        for _ in rt.forever() {
            if let Some(sample) = self.receive(rt) {
                return sample;
            }
            thread::yield_now();
        }
        unreachable!()
    }

    /// Reads a value that was received, where it lies: the one that was laid in its place with its number,
    /// which keeps its rule. As long as it is read, this receiver receives and gives back nothing and is not
    /// dropped, since the reading borrows it. Refused where the slot cannot be read (`Slot`): there is no
    /// such place, or its word says that it is empty or written, or that 2^30 - 1 read it; and where a value
    /// of another number lies there (`Other`: by its clause that number is another; that it lies there, by no
    /// clause). Of a sample that this receiver received, the first reason is ruled out by clauses (`within`
    /// of `receive`), and the others by tests alone.
    ///
    /// A load and a compare-exchange, again for each time that another reader comes or leaves, and a subtraction as the reading is
    /// dropped. A reading that is forgotten keeps its place for good (`StillRead`).
    pub fn read(&self, sample: &Sample) -> Result<Reading<'_, X, K>, ReadFailure>
        ensures sent { IfOk result (λ r. (number_in r ≡ number_of sample.now) × (slot_in r ≡ received sample.now)) }
        ensures refused { IfErr result (IsUnread self.now sample.now) }
    {
        let reading = match self.reader.read(sample.place) {
            Ok(reading) => reading,
            Err(failure) => return Err(ReadFailure::Slot(failure)),
        };
        let number = reading.number();
        if number == sample.number {
            Ok(reading)
        } else {
            Err(ReadFailure::Other(number))
        }
    }

    /// Gives a sample's place back to the sender. True if the queue has room for each place (by no clause).
    /// False only where the queue is full, or at its last position, and then the place stays Sent. A sample
    /// of another receiver, given back here, may free a place that is in hand. The steps of `push`.
    pub fn give_back(&mut self, sample: Sample) -> bool
        ensures given { IsTrue result
            → PushDone (Index (received sample)) (returns_view self.old) (returns_view self.new) }
        ensures full { IsFalse result → TookNoneBack (received sample) self.old self.new }
        ensures receives { KeepsReceives self.old self.new }
        ensures queues { (receives_queue self.new ≡ receives_queue self.old) × (returns_queue self.new ≡ returns_queue self.old) }
        ensures same { places_in self.new ≡ places_in self.old }
    {
        let Sample { number: _, place } = sample;
        self.returns.push(place as u64)
    }

    /// Hands out the passes of the two queues, for `Channel::relayed`; both roles are free. Two atomic steps.
    pub fn finish(self) -> ReceiverParts
        ensures goes { Goes (receives_view self.entry) (received_view result) }
        ensures released { HasReleased roles.Consumer (receives_view self.entry) (received_view result) }
        ensures queues { (received_queue result ≡ receives_queue self.entry) × (queue_of result.completion ≡ returns_queue self.entry) }
        ensures receives { HasReceivedAll [] self.entry result }
    {
        let Receiver {
            receives,
            returns,
            reader: _reader,
            layout: _,
        } = self;
        ReceiverParts {
            submission: receives.release(),
            completion: returns.release(),
        }
    }
}
