//! A stream (`Stream`): its slots and its two queues, which both ends share, and how the ends are made.
ghost use Rattle.std.specs.Prelude.{◌≡◌, ◌≤◌, [], false, IfErr, IfOk, IfSome, OnOk};
ghost use Rattle.zero_copy_streams.specs.Ends.{sender_queue, receiver_queue, next_of, sent_so_far, received_so_far, is_at_end};

use crate::error::StreamError;
use crate::receiver::Receiver;
use crate::sender::Sender;
use lock_free_queues::spsc::queue::{Pass, Queue};
use std::alloc::Global;
use steps::enums::UniqueIndexCreationError;
use uses_streams::element::Element;
use uses_streams::ends::both_ends;
use zero_copy_slots::{Anything, Keeps, Slots};

/// The number of a value, and the slot that it lies in.
pub type Ticket = (u64, u64);

/// The slots of a stream, the queue by which tickets go forth, and the one by which slots come back. Each queue has room for
/// CAPACITY of them. A value lies in its slot until another is laid there, or the stream is dropped.
///
/// There are at most CAPACITY slots, so there is always room for a slot that comes back. With fewer there is room for an end beside
/// them too (no clause says either): then a sender that is dropped ends the stream, and a sender learns that its receiver is gone.
pub struct Stream<X: Drop, const CAPACITY: usize, K: Keeps<X> = Anything> {
    tickets: Queue<Element<Ticket>, CAPACITY>,
    places: Queue<Element<u32>, CAPACITY>,
    slots: Slots<X, K>,
}

/// The first pass of each queue, by which both ends are made, once.
pub struct Passes {
    tickets: Pass<Element<Ticket>>,
    places: Pass<Element<u32>>,
}

impl<X: Drop, const CAPACITY: usize, K: Keeps<X>> Drop for Stream<X, CAPACITY, K> {
    fn drop(self) {
        let Self {
            tickets: _tickets,
            places: _places,
            slots: _slots,
        } = self;
    }
}

impl Drop for Passes {
    fn drop(self) {
        let Self {
            tickets: _tickets,
            places: _places,
        } = self;
    }
}

impl Passes {
    /// The passes of both queues.
    fn into_parts(self) -> (Pass<Element<Ticket>>, Pass<Element<u32>>)
        ensures { result ≡ (self.tickets, self.places) }
    {
        let Self { tickets, places } = self;
        (tickets, places)
    }
}

impl<X: Drop, const CAPACITY: usize, K: Keeps<X>> Stream<X, CAPACITY, K> {
    ghost use Rattle.zero_copy_streams.specs.Streams.{slots_of, tickets_of, ArePassesOf, IsNotMade};

    /// A stream with `slots` empty slots, and the first passes of its queues. Refused are more slots than CAPACITY
    /// (`TooManySlots`), since a slot that comes back could find no room and be lost, and a CAPACITY above 2^32 - 1 and memory
    /// (`Part`). No atomic step. This project's own.
    pub fn new(alloc: Global, slots: u32) -> Result<(Stream<X, CAPACITY, K>, Passes), StreamError>
        ensures slots { IfOk result (λ r. slots_of r.0 ≡ slots) }
        ensures admitted { OnOk result (slots ≤ CAPACITY) }
        ensures refused { IfErr result (IsNotMade CAPACITY slots) }
        ensures passes { IfOk result (λ r. ArePassesOf r.0 r.1) }
    {
        if slots as usize > CAPACITY {
            return Err(StreamError::TooManySlots);
        }
        let (tickets, forth) = match Queue::<Element<Ticket>, CAPACITY>::new(alloc) {
            Ok(made) => made,
            Err(failure) => return Err(StreamError::Part(failure)),
        };
        let (places, back) = match Queue::<Element<u32>, CAPACITY>::new(alloc) {
            Ok(made) => made,
            Err(failure) => return Err(StreamError::Part(failure)),
        };
        let Ok(slots) = Slots::new(alloc, slots) else {
            return Err(StreamError::Part(UniqueIndexCreationError::NoMemory));
        };
        let stream = Stream {
            tickets,
            places,
            slots,
        };
        let passes = Passes {
            tickets: forth,
            places: back,
        };
        Ok((stream, passes))
    }

    /// Both ends, with the values that are to be written, which need not keep the rule yet: one more than there are slots. None
    /// where no further pass can be counted (no clause says when), and then the values are dropped. At most 6 atomic steps, three
    /// of each queue (by no clause). This project's own.
    pub fn ends(
        &self,
        passes: Passes,
        spares: Vec<X>,
    ) -> Option<(Sender<'_, X, K>, Receiver<'_, X, K>)>
        requires { ArePassesOf self.now passes }
        ensures sender { IfSome result (λ r. sender_queue r.0 ≡ tickets_of self.now) }
        ensures sent { IfSome result (λ r. sent_so_far r.0 ≡ []) }
        ensures next { IfSome result (λ r. next_of r.0 ≡ 0) }
        ensures receiver { IfSome result (λ r. receiver_queue r.1 ≡ tickets_of self.now) }
        ensures received { IfSome result (λ r. received_so_far r.1 ≡ []) }
        ensures end { IfSome result (λ r. is_at_end r.1 ≡ false) }
    {
        let (tickets, places) = passes.into_parts();
        let (sends, receives) = both_ends(&self.tickets, tickets)?;
        let (gives, takes) = both_ends(&self.places, places)?;
        let sender = Sender::of(sends, takes, &self.slots, spares);
        let receiver = Receiver::of(receives, gives, &self.slots);
        Some((sender, receiver))
    }
}
