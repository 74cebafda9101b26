//! The steps of the rows that `turns` plays on a bus with two places, and what each step has to come to.
use crate::stage::{Failure, Plays, some};
use crate::words::{Words, is_whole, write};
use lock_free::mpmc::container::OwnerId;
use std::alloc::Global;
use std::mem::forget;
use std::sync::Wait;
use std::thread::Threads;
use zero_copy_bus::bus::Sizes;
use zero_copy_bus::error::LoanFailure;
use zero_copy_bus::publisher::{Loan, Publisher};
use zero_copy_bus::subscriber::Subscriber;
use zero_copy_slots::Keeps;

/// The two subscribers of a bus of these tests.
#[derive(Clone, Copy)]
pub enum Who {
    One,
    Other,
}

/// A step of a row, with what it has to come to. A step that comes to something else is the
/// wrong one of its row.
#[derive(Clone, Copy)]
pub enum Step {
    /// The subscriber gets a seat, and joins as the owner of this number. The publisher looks at
    /// once, so it takes part.
    Joins(Who, u64),
    /// Whether a seat is free. The seat is dropped at once.
    HasSeat(bool),
    /// A record of this number is published, and as many subscribers as the second number get it.
    Publishes(u64, usize),
    /// Whether a loan comes. It is kept if no loan is kept yet, and dropped otherwise, so its slot stays out.
    Loans(bool),
    /// Whether a loan comes by at most as many tries as the first number says. It is given up at once.
    LoansBy(u64, bool),
    /// The publisher waits for a loan, which comes, and is given up at once.
    WaitsForLoan,
    /// The first loan that was kept is given up.
    GivesUp,
    /// The subscriber reads its oldest record, which has this number and is whole, and gives it back.
    Reads(Who, u64),
    /// Whether a record comes to the subscriber by at most as many tries as the number says. The subscriber
    /// never gives it back.
    Gets(Who, u64, bool),
    /// The subscriber leaves.
    Leaves(Who),
    /// The subscriber dies: it is dropped.
    Dies(Who),
    /// The owner of this number is declared dead and recovered, so what he had comes back.
    Recovers(u64),
    /// The publisher takes back the slots that subscribers gave back.
    Collects,
    /// The publisher looks which subscribers take part.
    Updates,
    /// The loan that is kept is dropped, so its slot stays out.
    DropsLoan,
    /// Whether this slot, which was out, is reclaimed.
    Reclaims(u32, bool),
    /// The subscriber receives a record, forgets the reading of it, and gives it back.
    Forgets(Who),
    /// A loan is refused, since somebody still reads this slot.
    IsStillRead(u32),
    /// One subscriber gives back a record that the other still reads. Its slot is then not loaned and not
    /// reclaimed, until the reading ends.
    ReadsOn,
    /// The next record has this number.
    IsNext(u64),
    /// This many slots are out.
    Out(usize),
}

/// How many words each record has.
pub const WORDS: usize = 4;

/// The sizes of the bus of all rows: eight slots, two subscribers, and two records that wait for each.
pub const SIZES: Sizes = Sizes {
    slots: 8,
    subscribers: 2,
    queue: 2,
};

/// What a row has in hand: both subscribers, as long as they take part, and the first loan that it keeps.
struct Room<'a> {
    one: Option<Subscriber<'a, Words>>,
    other: Option<Subscriber<'a, Words>>,
    loan: Option<Loan<'a, Words>>,
}

impl<'a> Drop for Room<'a> {
    fn drop(self) {
        let Self {
            one: _one,
            other: _other,
            loan: _loan,
        } = self;
    }
}

/// Publishes a record of this number, and returns how many subscribers got it. It is wrong if the loan has
/// another number in it after it was written.
pub fn publish(
    rt: &impl Wait,
    publisher: &mut Publisher<'_, Words>,
    number: u64,
) -> Result<usize, Failure> {
    let mut loan = some(publisher.loan(rt).ok())?;
    if !write(&mut loan.value, number) {
        return Err(Failure::NoMemory);
    }
    if loan.number != number || !is_whole(&*loan, number, loan.all.len()) {
        return Err(Failure::Wrong);
    }
    Ok(publisher.publish(loan))
}

/// Receives the oldest record, and gives it back. It returns the number that the record was published with.
/// None where none waits, where it is not the record of `number` with this many words, or where the reading
/// tells another number than the sample.
pub fn read(
    rt: &impl Wait,
    subscriber: &mut Subscriber<'_, Words>,
    number: u64,
    words: usize,
) -> Option<u64> {
    let sample = subscriber.receive(rt)?;
    let published = sample.number();
    let is_right = match subscriber.read(&sample) {
        Ok(reading) => {
            reading.number() == published
                && is_whole(reading.get(), number, words)
                && is_whole(&*reading, number, reading.all.len())
        }
        Err(_) => false,
    };
    if is_right & subscriber.give_back(sample) {
        Some(published)
    } else {
        None
    }
}

/// Whether no record waits. One that does is received and never given back.
pub fn finds_none<K: Keeps<Words>>(
    rt: &impl Wait,
    subscriber: &mut Subscriber<'_, Words, K>,
) -> bool {
    match subscriber.receive(rt) {
        Some(sample) => {
            sample.keep();
            false
        }
        None => true,
    }
}

/// Receives a record, forgets its reading, and gives it back. The reading then holds the slot for good. False
/// where none of this succeeds.
fn forget_reading(rt: &impl Wait, subscriber: &mut Subscriber<'_, Words>) -> bool {
    let Some(sample) = subscriber.receive(rt) else {
        return false;
    };
    let is_read = match subscriber.read(&sample) {
        Ok(reading) => {
            forget(reading);
            true
        }
        Err(_) => false,
    };
    subscriber.give_back(sample) && is_read
}

/// Whether a loan is refused because this slot is still read.
fn is_still_read(rt: &impl Wait, publisher: &mut Publisher<'_, Words>, slot: u32) -> bool {
    match publisher.loan(rt) {
        Err(LoanFailure::StillRead(found, _)) => found == slot,
        _ => false,
    }
}

/// Whether a loan comes. It is kept in `kept` if that is empty, and dropped otherwise.
fn keep_loan<'a>(
    rt: &impl Wait,
    publisher: &mut Publisher<'a, Words>,
    kept: &mut Option<Loan<'a, Words>>,
) -> bool {
    match publisher.loan(rt) {
        Ok(loan) => {
            if kept.is_none() {
                *kept = Some(loan);
            }
            true
        }
        Err(_) => false,
    }
}

/// Whether a loan comes by at most `tries` tries. It is given up at once.
fn try_loan(rt: &impl Wait, publisher: &mut Publisher<'_, Words>, tries: u64) -> bool {
    match publisher.loan_within(rt, tries) {
        Some(loan) => {
            publisher.give_up(loan);
            true
        }
        None => false,
    }
}

/// Whether a seat is free and its subscriber is let in as the owner of this number. The publisher looks at
/// once, and the subscriber is put into `kept`.
fn join<'a>(
    rt: &impl Wait,
    publisher: &mut Publisher<'a, Words>,
    kept: &mut Option<Subscriber<'a, Words>>,
    number: u64,
) -> bool {
    let Ok(owner) = OwnerId::new(number) else {
        return false;
    };
    let Some(seat) = publisher.seat() else {
        return false;
    };
    let Ok(subscriber) = seat.join(rt, owner) else {
        return false;
    };
    *kept = Some(subscriber);
    publisher.update(rt);
    true
}

/// Plays `Step::ReadsOn`. `other` reads the record that `one` receives and gives back. As long as it does the
/// slot is neither loaned nor reclaimed, and once it ends the slot is reclaimed.
fn read_on(rt: &impl Wait, publisher: &mut Publisher<'_, Words>, room: &mut Room<'_>) -> bool {
    let (Some(one), Some(other)) = (&mut room.one, &room.other) else {
        return false;
    };
    let Some(sample) = one.receive(rt) else {
        return false;
    };
    let slot = sample.slot();
    let read = other.read(&sample);
    let is_back = one.give_back(sample);
    let Ok(reading) = read else {
        return false;
    };
    if !is_back {
        return false;
    }
    publisher.collect();
    let is_refused = is_still_read(rt, publisher, slot);
    let is_kept = publisher.reclaim(slot).is_err();
    drop(reading);
    is_refused && is_kept && publisher.reclaim(slot).is_ok()
}

impl<'a> Room<'a> {
    /// The place of this subscriber, which is None while it takes no part.
    fn subscriber(&mut self, who: Who) -> &mut Option<Subscriber<'a, Words>> {
        match who {
            Who::One => &mut self.one,
            Who::Other => &mut self.other,
        }
    }

    /// Takes a step of one subscriber, and says whether it came to what the step has to. False where the
    /// subscriber takes no part.
    fn take_step_of(&mut self, rt: &impl Wait, step: Step) -> bool {
        match step {
            Step::Reads(who, number) => match self.subscriber(who) {
                Some(subscriber) => read(rt, subscriber, number, WORDS).is_some(),
                None => false,
            },
            Step::Gets(who, tries, some) => match self.subscriber(who) {
                Some(subscriber) => match subscriber.receive_within(rt, tries) {
                    Some(sample) => {
                        sample.keep();
                        some
                    }
                    None => !some,
                },
                None => false,
            },
            Step::Forgets(who) => match self.subscriber(who) {
                Some(subscriber) => forget_reading(rt, subscriber),
                None => false,
            },
            Step::Leaves(who) => match self.subscriber(who).take() {
                Some(subscriber) => subscriber.leave(rt).is_ok(),
                None => false,
            },
            Step::Dies(who) => self.subscriber(who).take().is_some(),
            _ => false,
        }
    }

    /// Takes a step of a row, and says whether it came to what the step has to. A failure says that memory
    /// was refused, or that a loan went wrong.
    fn take_step(
        &mut self,
        rt: &impl Wait,
        publisher: &mut Publisher<'a, Words>,
        step: Step,
    ) -> Result<bool, Failure> {
        let is_right = match step {
            Step::Joins(who, number) => join(rt, publisher, self.subscriber(who), number),
            Step::HasSeat(free) => publisher.seat().is_some() == free,
            Step::Publishes(number, reached) => publish(rt, publisher, number)? == reached,
            Step::Loans(some) => keep_loan(rt, publisher, &mut self.loan) == some,
            Step::LoansBy(tries, some) => try_loan(rt, publisher, tries) == some,
            Step::WaitsForLoan => {
                let loan = publisher.loan_waiting(rt);
                publisher.give_up(loan);
                true
            }
            Step::GivesUp => match self.loan.take() {
                Some(loan) => {
                    publisher.give_up(loan);
                    true
                }
                None => false,
            },
            Step::DropsLoan => self.loan.take().is_some(),
            Step::Reclaims(slot, free) => publisher.reclaim(slot).is_ok() == free,
            Step::IsStillRead(slot) => is_still_read(rt, publisher, slot),
            Step::ReadsOn => read_on(rt, publisher, self),
            Step::IsNext(number) => publisher.next_number() == number,
            Step::Recovers(number) => match OwnerId::new(number) {
                Ok(dead) => {
                    publisher.recover(rt, dead);
                    true
                }
                Err(_) => false,
            },
            Step::Collects => {
                publisher.collect();
                true
            }
            Step::Updates => {
                publisher.update(rt);
                true
            }
            Step::Out(number) => publisher.borrowed() == number,
            _ => self.take_step_of(rt, step),
        };
        Ok(is_right)
    }

    /// Takes these steps in order, `rounds` times. It returns the place of the first step that came to
    /// something else than its row says; None where none did.
    fn first_wrong(
        &mut self,
        rt: &impl Wait,
        publisher: &mut Publisher<'a, Words>,
        steps: &[Step],
        rounds: usize,
    ) -> Result<Option<usize>, Failure> {
        for _ in 0..rounds {
            for at in 0..steps.len() {
                if !self.take_step(rt, publisher, steps[at])? {
                    return Ok(Some(at));
                }
            }
        }
        Ok(None)
    }
}

/// A row: the steps `begin`, taken once, and then `steps`, taken `rounds` times.
#[derive(Drop)]
pub struct Row<'s> {
    pub begin: &'s [Step],
    pub steps: &'s [Step],
    pub rounds: usize,
}

impl<'s> Plays for Row<'s> {
    /// The place of the first wrong step of `steps`. For a wrong step of `begin` it is `usize::MAX`, which is
    /// the place of no step.
    fn play(
        &self,
        rt: &(impl Threads + Wait + Sync),
        _alloc: Global,
        publisher: &mut Publisher<'_, Words>,
    ) -> Result<Option<usize>, Failure> {
        let mut room = Room {
            one: None,
            other: None,
            loan: None,
        };
        if room.first_wrong(rt, publisher, self.begin, 1)?.is_some() {
            return Ok(Some(usize::MAX));
        }
        room.first_wrong(rt, publisher, self.steps, self.rounds)
    }
}
