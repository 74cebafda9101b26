//! The end that sends.
ghost use Rattle.std.specs.Prelude.{◌≡◌, ◌<◌, ◌≤◌, ◌+◌, ◌++◌, ◌∷◌, [], true, take, length, IfErr, OnOk};
ghost use Rattle.std.specs.List.{range_with_len};
ghost use Rattle.uses_streams.specs.Ends as streams;
ghost use Rattle.zero_copy_streams.specs.Tickets.{numbers_of};

use crate::error::SendFailure;
use crate::receiver::Received;
use crate::stream::Ticket;
use std::sync::Wait;
use std::thread;
use uses_streams::ends::{self, Arrival};
use zero_copy_loans::sender::Writes;
use zero_copy_slots::{Anything, Keeps, Slots};

/// The end that sends. Where it is dropped, it sends the end of the stream if there is room, as a sender of `uses_streams` does.
pub struct Sender<'a, X: Drop, K: Keeps<X> = Anything> {
    tickets: ends::Sender<'a, Ticket>,
    places: ends::Receiver<'a, u32>,
    slots: &'a Slots<X, K>,
    spares: Vec<X>,
    // a slot that is free and not sent, and how many slots were used so far
    free: Option<u32>,
    used: u32,
    next: u64,
    ghost numbered: { numbers_of (streams.sent_so_far tickets) ≡ range_with_len 0 next },
}

/// What a sender that has ended leaves, to be joined with what its receiver leaves.
pub struct Sent {
    tickets: ends::Sent<Ticket>,
}

impl<'a, X: Drop, K: Keeps<X>> Drop for Sender<'a, X, K> {
    fn drop(self) {
        let Self {
            tickets: _tickets,
            places: _places,
            slots: _,
            spares: _spares,
            free: _,
            used: _,
            next: _,
        } = self;
    }
}

impl Drop for Sent {
    fn drop(self) {
        let Self { tickets: _tickets } = self;
    }
}

/// Keeps the value that lay in a slot, if one did, among the values to write.
fn keep<X: Drop>(spares: &mut Vec<X>, before: Option<(u64, X)>) {
    if let Some((_, value)) = before {
        let _ = spares.push(value);
    }
}

impl<'a, X: Drop, K: Keeps<X>> Sender<'a, X, K> {
    ghost use Rattle.zero_copy_streams.specs.Ends.{sender_queue, sent_queue, next_of, sent_so_far, sent, has_finished, KeepsSends};

    /// A sender that has sent nothing yet.
    pub(crate) fn of(
        tickets: ends::Sender<'a, Ticket>,
        places: ends::Receiver<'a, u32>,
        slots: &'a Slots<X, K>,
        spares: Vec<X>,
    ) -> Sender<'a, X, K>
        requires { streams.sent_so_far tickets ≡ [] }
        ensures queue { sender_queue result ≡ streams.sender_queue tickets.entry }
        ensures sent { sent_so_far result ≡ [] }
        ensures next { next_of result ≡ 0 }
    {
        Sender {
            tickets,
            places,
            slots,
            spares,
            free: None,
            used: 0,
            next: 0,
        }
    }

    /// The number that the next value gets: 0 for the first. No atomic step. This project's own.
    pub fn next_number(&self) -> u64
        ensures { result ≡ next_of self.now }
    {
        self.next
    }

    /// A slot that is free: one that is in hand, one that was not used yet, or one that came back. Or the end of those.
    fn find(&mut self) -> Arrival<u32>
        ensures { KeepsSends self.old self.new }
    {
        if let Some(place) = self.free.take() {
            return Arrival::Value(place);
        }
        if self.used < self.slots.number() {
            let place = self.used;
            self.used = place + 1;
            return Arrival::Value(place);
        }
        self.places.receive()
    }

    /// Writes a value, lays it into this slot with the number that comes next, and sends its ticket.
    fn lay(&mut self, place: u32, writer: &mut impl Writes<X, K>) -> Result<(), SendFailure>
        ensures queue { sender_queue self.new ≡ sender_queue self.old }
        ensures sent { OnOk result (sent_so_far self.new ≡ sent_so_far self.old ++ next_of self.old ∷ []) }
        ensures next { OnOk result (next_of self.new ≡ next_of self.old + 1) }
        ensures same { IfErr result (λ _. (sent_so_far self.new ≡ sent_so_far self.old) × (next_of self.new ≡ next_of self.old)) }
    {
        let number = self.next;
        if number == u64::MAX {
            return Err(SendFailure::Full);
        }
        let Some(mut value) = self.spares.pop() else {
            return Err(SendFailure::NoValue);
        };
        if !writer.write(number, &mut value) {
            let _ = self.spares.push(value);
            return Err(SendFailure::Unwritten);
        }
        let writing = match self.slots.take(place) {
            Ok(writing) => writing,
            Err(failure) => {
                let _ = self.spares.push(value);
                return Err(SendFailure::InUse(failure));
            }
        };
        let (_, before) = writing.put(number, value);
        keep(&mut self.spares, before);
        if self.tickets.send((number, place as u64)) {
            self.next = number + 1;
            Ok(())
        } else {
            Err(SendFailure::Full)
        }
    }

    /// Writes a value and sends it with the number that comes next: 0, 1, 2 and so on. Or sends nothing, and can try again, where
    ///
    /// - no slot is free (`NoSlot`), or none is and the receiver is gone (`NoReceiver`),
    /// - no value is left to write (`NoValue`), or the writer wrote none (`Unwritten`),
    /// - the slot is read or written (`InUse`), which does not come, since the stream alone has its slots, or
    /// - the queue of tickets is full or at its last position, or there is no further number (`Full`).
    ///
    /// Which of these it was, no clause says. At `InUse`, and at `Full` while there is a further number, the writer has written already,
    /// and a later try has it write the same number again. By no clause it takes at most 5 atomic steps to find a slot, 3 on the slot,
    /// and 6 to send its ticket. This project's own.
    pub fn send(&mut self, writer: &mut impl Writes<X, K>) -> Result<(), SendFailure>
        ensures queue { sender_queue self.new ≡ sender_queue self.old }
        ensures sent { OnOk result (sent_so_far self.new ≡ sent_so_far self.old ++ next_of self.old ∷ []) }
        ensures next { OnOk result (next_of self.new ≡ next_of self.old + 1) }
        ensures same { IfErr result (λ _. (sent_so_far self.new ≡ sent_so_far self.old) × (next_of self.new ≡ next_of self.old)) }
    {
        let place = match self.find() {
            Arrival::Value(place) => place,
            Arrival::Nothing => return Err(SendFailure::NoSlot),
            Arrival::End => return Err(SendFailure::NoReceiver),
        };
        match self.lay(place, writer) {
            Ok(()) => Ok(()),
            Err(failure) => {
                self.free = Some(place);
                Err(failure)
            }
        }
    }

    /// Sends as `send` does, as soon as a slot is free, so it is never refused by `NoSlot` (by no clause). It
    /// waits for good where neither a slot nor the receiver's end comes back.
    pub fn send_waiting(
        &mut self,
        rt: &impl Wait,
        writer: &mut impl Writes<X, K>,
    ) -> Result<(), SendFailure>
        ensures queue { sender_queue self.new ≡ sender_queue self.old }
        ensures sent { OnOk result (sent_so_far self.new ≡ sent_so_far self.old ++ next_of self.old ∷ []) }
        ensures next { OnOk result (next_of self.new ≡ next_of self.old + 1) }
        ensures same { IfErr result (λ _. (sent_so_far self.new ≡ sent_so_far self.old) × (next_of self.new ≡ next_of self.old)) }
    {
        for _ in rt.forever() {
            match self.send(writer) {
                Ok(()) => return Ok(()),
                Err(SendFailure::NoSlot) => thread::yield_now(),
                Err(failure) => return Err(failure),
            }
        }
        unreachable!()
    }

    /// Sends `count` values, each as soon as a slot is free. If one is refused, the values before it are sent
    /// (`next_number` says how many), and a later call can go on. This project's own.
    pub fn send_each(
        &mut self,
        rt: &impl Wait,
        count: u64,
        writer: &mut impl Writes<X, K>,
    ) -> Result<(), SendFailure>
        ensures queue { sender_queue self.new ≡ sender_queue self.old }
        ensures next { OnOk result (next_of self.new ≡ next_of self.old + count) }
        ensures fewer { IfErr result (λ _. (next_of self.old ≤ next_of self.new) × (next_of self.new < next_of self.old + count)) }
        ensures sent { sent_so_far self.new ≡ range_with_len 0 (next_of self.new) }
    {
        for _ in 0..count {
            self.send_waiting(rt, writer)?;
        }
        Ok(())
    }

    /// Sends the end as soon as there is room, once and after all values. The values that are in no slot are dropped. It waits for
    /// good where there is no room and nobody receives any more, or where the queue of tickets is at its last position.
    pub fn finish_waiting(self, rt: &impl Wait) -> Sent
        ensures queue { sent_queue result ≡ sender_queue self.entry }
        ensures sent { sent result ≡ sent_so_far self.entry }
        ensures numbers { sent result ≡ range_with_len 0 (next_of self.entry) }
        ensures finished { has_finished result ≡ true }
    {
        let Sender {
            tickets,
            places: _places,
            slots: _,
            spares: _spares,
            free: _,
            used: _,
            next: _,
        } = self;
        Sent {
            tickets: tickets.finish_waiting(rt),
        }
    }
}

impl Sent {
    ghost use Rattle.zero_copy_streams.specs.Ends.{sent_queue, received_queue, sent, received, has_finished, has_ended};

    /// Brings both ends together, for a caller's proof. The numbers that were received are the first of those
    /// that were sent, in order. If the end came, they are all of them, and the sender had finished. At most
    /// two atomic steps (by no clause).
    pub fn join(self, other: Received)
        requires { received_queue other ≡ sent_queue self }
        ensures beginning { received other ≡ take (length (received other)) (sent self) }
        ensures all { has_ended other ≡ true → received other ≡ sent self }
        ensures finished { has_ended other ≡ true → has_finished self ≡ true }
    {
        let Sent { tickets } = self;
        tickets.join(other.into_tickets());
    }
}
