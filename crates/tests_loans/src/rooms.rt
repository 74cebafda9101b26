//! The steps of the rows that `turns` plays on both ends of a channel, and what each step has to come to.
use std::alloc::Global;
use std::mem::forget;
use std::sync::Wait;
use zero_copy_loans::channel::Channel;
use zero_copy_loans::error::LoanFailure;
use zero_copy_loans::receiver::{Receiver, Sample};
use zero_copy_loans::sender::{Loan, Sender};

/// How many places wait for the receiver at most, before the oldest is pushed out.
const QUEUE: usize = 2;

/// A step of a row, with what it has to come to. A step that comes to something else is the
/// wrong one of its row.
#[derive(Clone, Copy)]
pub enum Step {
    /// A value is sent. The place that was pushed out of the queue comes back, if any.
    Sends(u64, Option<u64>),
    /// The next value has this number and is this value. It is given back.
    Reads(u64, u64),
    /// The next value has the number of the round and is this value. It is given back.
    ReadsOfRound(u64),
    /// The next value has this number and is this value. A reading of it is forgotten, and
    /// then it is given back.
    Forgets(u64, u64),
    /// No value waits to be received.
    FindsNone,
    /// The sender takes back the oldest place that was given back, if any, and it is this one.
    TakesBack(Option<u64>),
    /// The next value that is sent gets this number.
    IsNext(u64),
    /// A first loan comes, and is kept.
    LoansOne,
    /// A second loan comes, and is kept.
    LoansOther,
    /// A loan is refused, since there is no place.
    HasNoPlace,
    /// A loan is refused, since there is no value to write.
    HasNoValue,
    /// A loan is refused, since this place is still read.
    IsStillRead(u32),
    /// The place of the first loan, which is in hand, cannot be regained.
    KeepsOne,
    /// The first loan is given up.
    GivesUpOne,
    /// The second loan is dropped; its place is noted.
    DropsOther,
    /// Whether the place of the second loan, which was dropped, can be regained.
    RegainsOther(bool),
    /// Whether this place can be regained.
    Regains(u32, bool),
}

/// Both ends of a channel in one thread, and up to two loans that are kept.
pub struct Room<'a> {
    pub sender: Sender<'a, u64>,
    pub receiver: Receiver<'a, u64>,
    one: Option<Loan<'a, u64>>,
    other: Option<Loan<'a, u64>>,
    /// The place of the second loan, noted as it is dropped.
    place: u32,
}

impl<'a> Drop for Room<'a> {
    fn drop(self) {
        let Self {
            sender: _sender,
            receiver: _receiver,
            one: _one,
            other: _other,
            place: _,
        } = self;
    }
}

/// A channel of this many places, of which `QUEUE` wait at most. None where there is no memory.
pub fn channel(alloc: Global, places: usize) -> Option<Channel<u64>> {
    Channel::new(alloc, places, QUEUE).ok()
}

/// Sends a value, and returns the place that comes back, if any. None where there is no loan.
fn send(rt: &impl Wait, sender: &mut Sender<'_, u64>, value: u64) -> Option<Option<u64>> {
    let mut loan = sender.loan(rt).ok()?;
    loan.value = value;
    match sender.send(loan) {
        Some(back) => Some(Some(back.place as u64)),
        None => Some(None),
    }
}

/// Whether a sample has this number, and its reading shows this number and this value.
fn is_value(receiver: &Receiver<'_, u64>, sample: &Sample, number: u64, value: u64) -> bool {
    match receiver.read(sample) {
        Ok(reading) => {
            sample.number() == number && reading.number() == number && *reading.get() == value
        }
        Err(_) => false,
    }
}

/// Reads a sample and forgets the reading, which then holds the place for good. False
/// where it cannot be read.
fn forget_reading(receiver: &Receiver<'_, u64>, sample: &Sample) -> bool {
    match receiver.read(sample) {
        Ok(reading) => {
            forget(reading);
            true
        }
        Err(_) => false,
    }
}

/// Whether no value waits. One that does is received and given back.
pub fn finds_none(rt: &impl Wait, receiver: &mut Receiver<'_, u64>) -> bool {
    match receiver.receive(rt) {
        Some(sample) => {
            receiver.give_back(sample);
            false
        }
        None => true,
    }
}

/// Receives the next value, and gives it back. True if it has this number and is this value. With `forgets` a
/// reading of it is forgotten before.
fn read(
    rt: &impl Wait,
    receiver: &mut Receiver<'_, u64>,
    number: u64,
    value: u64,
    forgets: bool,
) -> bool {
    let Some(sample) = receiver.receive(rt) else {
        return false;
    };
    let mut is_right = !forgets || forget_reading(receiver, &sample);
    is_right &= is_value(receiver, &sample, number, value);
    is_right & receiver.give_back(sample)
}

/// Whether a loan is refused for the reason that this step names.
pub fn is_refused(rt: &impl Wait, sender: &mut Sender<'_, u64>, step: Step) -> bool {
    let Err(failure) = sender.loan(rt) else {
        return false;
    };
    match step {
        Step::HasNoPlace => matches!(&failure, LoanFailure::NoPlace(_)),
        Step::HasNoValue => matches!(&failure, LoanFailure::NoValue),
        Step::IsStillRead(place) => match &failure {
            LoanFailure::StillRead(found, _) => *found == place,
            _ => false,
        },
        _ => false,
    }
}

/// Whether a place can be regained, and the slot that was left empty is the one of this place.
fn regain(sender: &mut Sender<'_, u64>, place: u32) -> bool {
    match sender.regain(place) {
        Some(emptied) => emptied.slot() == place,
        None => false,
    }
}

impl<'a> Room<'a> {
    /// Both ends of a channel, with `number` values to write. None where memory or an end is refused.
    pub fn new(alloc: Global, channel: &'a mut Channel<u64>, number: usize) -> Option<Room<'a>> {
        let values = vec![in alloc; 0u64; number].ok()?;
        let (sender, receiver) = channel.ends(alloc, values)?;
        Some(Room {
            sender,
            receiver,
            one: None,
            other: None,
            place: 0,
        })
    }

    /// Takes a step about a loan that is kept, and says whether it came to what the step has to.
    fn take_step_with_loans(&mut self, rt: &impl Wait, step: Step) -> bool {
        match step {
            Step::LoansOne => {
                self.one = self.sender.loan(rt).ok();
                self.one.is_some()
            }
            Step::LoansOther => {
                self.other = self.sender.loan(rt).ok();
                self.other.is_some()
            }
            Step::KeepsOne => match &self.one {
                Some(loan) => self.sender.regain(loan.place()).is_none(),
                None => false,
            },
            Step::GivesUpOne => match self.one.take() {
                Some(loan) => {
                    self.sender.give_up(loan);
                    true
                }
                None => false,
            },
            Step::DropsOther => match self.other.take() {
                Some(loan) => {
                    self.place = loan.place();
                    true
                }
                None => false,
            },
            Step::RegainsOther(some) => regain(&mut self.sender, self.place) == some,
            _ => false,
        }
    }

    /// Takes a step of the round of this number, and says whether it came to what the step has to.
    fn take_step(&mut self, rt: &impl Wait, step: Step, round: u64) -> bool {
        match step {
            Step::Sends(value, back) => send(rt, &mut self.sender, value) == Some(back),
            Step::Reads(number, value) => read(rt, &mut self.receiver, number, value, false),
            Step::ReadsOfRound(value) => read(rt, &mut self.receiver, round, value, false),
            Step::Forgets(number, value) => read(rt, &mut self.receiver, number, value, true),
            Step::FindsNone => finds_none(rt, &mut self.receiver),
            Step::TakesBack(place) => self.sender.take_back() == place,
            Step::IsNext(number) => self.sender.next_number() == number,
            Step::HasNoPlace | Step::HasNoValue | Step::IsStillRead(_) => is_refused(
                rt,
                &mut self.sender,
                step,
            ),
            Step::Regains(place, some) => regain(&mut self.sender, place) == some,
            _ => self.take_step_with_loans(rt, step),
        }
    }

    /// Takes these steps in order, in rounds from 0 on. It returns the place of the first step that came to
    /// something else than its row says; None where none did.
    pub fn first_wrong(&mut self, rt: &impl Wait, steps: &[Step], rounds: usize) -> Option<usize> {
        for round in 0..rounds {
            for at in 0..steps.len() {
                if !self.take_step(rt, steps[at], round as u64) {
                    return Some(at);
                }
            }
        }
        None
    }

    /// How many values the sender hands out as it finishes. These are the values that lie in no place.
    pub fn left(self) -> usize {
        let Self {
            sender,
            receiver: _receiver,
            one: _one,
            other: _other,
            place: _,
        } = self;
        let (_, left) = sender.finish();
        left.len()
    }
}
