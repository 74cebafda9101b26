//! The end of a stream that receives: it reads each value where it lies, and gives its slot back.
ghost use Rattle.std.specs.Prelude.{◌≡◌, true, IfSome, OnOk};
ghost use Rattle.uses_streams.specs.Ends as streams;
ghost use Rattle.zero_copy_streams.specs.Ends.{receiver_queue, received_queue, received_so_far, received, is_at_end, has_ended};

use crate::error::ReadAllFailure;
use crate::stream::Ticket;
use std::sync::Wait;
use uses_streams::ends::{self, Arrival};
use zero_copy_loans::receiver::Reads;
use zero_copy_slots::{Anything, Keeps, Slots};

/// The end that receives. It receives tickets by one stream, and gives slots back by another.
pub struct Receiver<'a, X: Drop, K: Keeps<X> = Anything> {
    tickets: ends::Receiver<'a, Ticket>,
    places: ends::Sender<'a, u32>,
    slots: &'a Slots<X, K>,
}

/// What a receiver that has ended leaves, for `Sent::join`.
pub struct Received {
    tickets: ends::Received<Ticket>,
}

/// What a receiver finds next: a value, or the end of the stream.
#[derive(Debug, Drop, PartialEq, Eq)]
pub enum Found<A> {
    /// What is told of the next value.
    Told(A),
    /// The next value has this number. It was not read, or nothing was told of it.
    Unread(u64),
    /// The end. No value comes after it.
    End,
}

impl<'a, X: Drop, K: Keeps<X>> Drop for Receiver<'a, X, K> {
    fn drop(self) {
        let Self {
            tickets: _tickets,
            places: _places,
            slots: _,
        } = self;
    }
}

impl Drop for Received {
    fn drop(self) {
        let Self { tickets: _tickets } = self;
    }
}

impl Received {
    /// The receiver of tickets that has ended.
    pub(crate) fn into_tickets(self) -> ends::Received<Ticket>
        ensures { result ≡ self.tickets }
    {
        let Received { tickets } = self;
        tickets
    }
}

impl<'a, X: Drop, K: Keeps<X>> Receiver<'a, X, K> {
    ghost use Rattle.zero_copy_streams.specs.Ends.{HasFound, HasLooked, HasRead, IsOf, is_end, unread};

    /// A receiver of the stream whose tickets come through `tickets`.
    pub(crate) fn of(
        tickets: ends::Receiver<'a, Ticket>,
        places: ends::Sender<'a, u32>,
        slots: &'a Slots<X, K>,
    ) -> Receiver<'a, X, K>
        ensures { result.tickets ≡ tickets.entry }
    {
        Receiver {
            tickets,
            places,
            slots,
        }
    }

    /// What the reader tells of a ticket's value, which it reads where it lies. None where the slot has a
    /// value of another number or cannot be read, or where the reader tells nothing.
    fn tell<A: Drop, R: Reads<X, K, A>>(&self, ticket: Ticket, reader: &mut R) -> Option<A>
        ensures { IfSome result (R.tells ticket.0) }
    {
        let place = u32::try_from(ticket.1).ok()?;
        let reading = self.slots.read(place).ok()?;
        if reading.number() != ticket.0 {
            return None;
        }
        reader.read(reading.get())
    }

    /// Reads the value of a ticket that came, and gives its slot back.
    fn take<A: Drop, R: Reads<X, K, A>>(&mut self, ticket: Ticket, reader: &mut R) -> Found<A>
        ensures tickets { self.new.tickets ≡ self.old.tickets }
        ensures told { IsOf R.tells ticket.0 result }
    {
        let told = self.tell(ticket, reader);
        if let Ok(place) = u32::try_from(ticket.1) {
            self.places.send(place);
        }
        match told {
            Some(told) => Found::Told(told),
            None => Found::Unread(ticket.0),
        }
    }

    /// Reads the next value where it lies, and gives its slot back. Or answers the end, or None where neither is there yet. A value
    /// that is not read (`Unread`) is received all the same, and its slot goes back (by no clause). By no clause it takes at most 6
    /// atomic steps for the ticket, 3 on the slot, and 5 to give it back. This project's own.
    pub fn read<A: Drop, R: Reads<X, K, A>>(&mut self, reader: &mut R) -> Option<Found<A>>
        ensures queue { receiver_queue self.new ≡ receiver_queue self.old }
        ensures found { HasLooked R.tells result self.old self.new }
    {
        match self.tickets.receive() {
            Arrival::Value(ticket) => Some(self.take(ticket, reader)),
            Arrival::Nothing => None,
            Arrival::End => Some(Found::End),
        }
    }

    /// Reads the next value as `read` does, as soon as a value or the end is there. Where none
    /// comes it waits for good.
    pub fn read_waiting<A: Drop, R: Reads<X, K, A>>(
        &mut self,
        rt: &impl Wait,
        reader: &mut R,
    ) -> Found<A>
        ensures queue { receiver_queue self.new ≡ receiver_queue self.old }
        ensures found { HasFound R.tells result self.old self.new }
        ensures end { is_at_end self.new ≡ is_end result }
    {
        match self.tickets.receive_waiting(rt) {
            Some(ticket) => self.take(ticket, reader),
            None => Found::End,
        }
    }

    /// Reads all values until the end, each as soon as it is there, and appends what is told of each. Before each value, and before the
    /// end, it makes room for one: Err where there is no memory for that (`NoMemory`), and where a value was not read (`Unread`). Then
    /// all that was told of the values before is in the vector, and a later call can go on. Where no value comes and no end it waits
    /// for good. This project's own.
    pub fn read_all<A: Drop, R: Reads<X, K, A>>(
        &mut self,
        rt: &impl Wait,
        told: &mut Vec<A>,
        reader: &mut R,
    ) -> Result<(), ReadAllFailure>
        ensures queue { receiver_queue self.new ≡ receiver_queue self.old }
        ensures read { HasRead R.tells (unread result) told.old.items told.new.items self.old self.new }
        ensures end { OnOk result (is_at_end self.new ≡ true) }
    {
        for _ in rt.forever() {
            match told.reserve(1) {
                Ok(()) => {}
                Err(_) => return Err(ReadAllFailure::NoMemory),
            }
            match self.read_waiting(rt, reader) {
                Found::Told(one) => told.push_reserved(one),
                Found::Unread(number) => return Err(ReadAllFailure::Unread(number)),
                Found::End => return Ok(()),
            }
        }
        unreachable!()
    }

    /// Leaves the stream. The sender learns it once it has used the slots that came back, if there is room for that (no clause says
    /// so). At most 7 atomic steps (by no clause). This project's own.
    pub fn leave(self) -> Received
        ensures queue { received_queue result ≡ receiver_queue self.entry }
        ensures received { received result ≡ received_so_far self.entry }
        ensures end { has_ended result ≡ is_at_end self.entry }
    {
        let Receiver {
            tickets,
            places: _places,
            slots: _,
        } = self;
        Received {
            tickets: tickets.leave(),
        }
    }
}
