//! Machines over a type of three words: the queue of values, and the single value.
use model::event::{Answer, Event, Item, Start};
use model::families::atomic::AtomicStart;
use model::families::queues::QueueStart;
use model::turn::{Kind, Shape, Turn};
use schedule::bare::{TakesTurns, made_of};
use std::alloc::Global;
use tests_calls::long_values::Three;

/// The call for the producer's role.
const ACQUIRE_PRODUCER: Start<Three> = Start::Queues(QueueStart::AcquireProducer);

/// The call for the consumer's role.
const ACQUIRE_CONSUMER: Start<Three> = Start::Queues(QueueStart::AcquireConsumer);

/// The call that takes the oldest value out.
const POP: Start<Three> = Start::Queues(QueueStart::Pop);

/// The call that looks at the oldest value.
const PEEK: Start<Three> = Start::Queues(QueueStart::Peek);

/// The call that asks how many values wait.
const LEN: Start<Three> = Start::Queues(QueueStart::Len);

/// The value that goes through the queue. Its second word is the greatest number.
const FIRST: Three = Three(1, u64::MAX, 3);

/// The value that the full queue refuses.
const SECOND: Three = Three(4, 5, 6);

/// The push of `FIRST`.
const PUSH_FIRST: QueueStart<Three> = QueueStart::Push(FIRST);

/// The push of `SECOND`.
const PUSH_SECOND: QueueStart<Three> = QueueStart::Push(SECOND);

/// A party, its call, how many turns it takes, and the last event and the words after them. The words of the
/// queue of capacity 1 are its two positions, the two roles, and the cell.
type Row = (u32, QueueStart<Three>, u64, Event<Three>, [u64; 7]);

/// Turns of two parties, in order. A push of party 0 stops before its last step while party 1 pops nothing,
/// and goes on later.
const ROWS: [Row; 10] = [
    (
        0,
        QueueStart::AcquireProducer,
        1,
        Event::Finished(0, ACQUIRE_PRODUCER, Answer::Truth(true)),
        [0, 0, 0, 1, 0, 0, 0],
    ),
    (
        1,
        QueueStart::AcquireConsumer,
        1,
        Event::Finished(1, ACQUIRE_CONSUMER, Answer::Truth(true)),
        [0, 0, 0, 0, 0, 0, 0],
    ),
    // The first five steps of a push: its words stand in the cell, and no value waits yet.
    (
        0,
        PUSH_FIRST,
        5,
        Event::Begun(0, Start::Queues(PUSH_FIRST)),
        [0, 0, 0, 0, 1, u64::MAX, 3],
    ),
    (
        1,
        QueueStart::Pop,
        2,
        Event::Finished(1, POP, Answer::PoppedNone),
        [0, 0, 0, 0, 1, u64::MAX, 3],
    ),
    (
        1,
        QueueStart::Len,
        0,
        Event::Begun(1, LEN),
        [0, 0, 0, 0, 1, u64::MAX, 3],
    ),
    (
        0,
        PUSH_FIRST,
        1,
        Event::Finished(0, Start::Queues(PUSH_FIRST), Answer::Truth(true)),
        [1, 0, 0, 0, 1, u64::MAX, 3],
    ),
    (
        0,
        PUSH_SECOND,
        2,
        Event::Finished(0, Start::Queues(PUSH_SECOND), Answer::Truth(false)),
        [1, 0, 0, 0, 1, u64::MAX, 3],
    ),
    (
        1,
        QueueStart::Len,
        4,
        Event::Finished(1, LEN, Answer::Number(1)),
        [1, 0, 0, 0, 1, u64::MAX, 3],
    ),
    (
        1,
        QueueStart::Peek,
        5,
        Event::Finished(1, PEEK, Answer::Popped(FIRST)),
        [1, 0, 0, 0, 1, u64::MAX, 3],
    ),
    (
        1,
        QueueStart::Pop,
        6,
        Event::Finished(1, POP, Answer::Popped(FIRST)),
        [1, 1, 0, 0, 1, u64::MAX, 3],
    ),
];

/// The events of the last call, a pop of `FIRST`, which are the last events of all.
const TOLD: [Event<Three>; 4] = [
    Event::Begun(1, POP),
    Event::HandedOut(1, Item::Value(FIRST)),
    Event::Acted(1, POP, Answer::Popped(FIRST)),
    Event::Finished(1, POP, Answer::Popped(FIRST)),
];

/// Whether this many turns of the party's call are taken.
fn go(machine: &mut impl TakesTurns<Three>, party: u32, turns: u64) -> bool {
    let mut taken = true;
    for _ in 0..turns {
        taken &= machine.step(Turn::Next(party)).is_ok();
    }
    taken
}

/// Whether the row comes out as it says. A call that is under way goes on; otherwise the row's call begins.
fn come_out(machine: &mut impl TakesTurns<Three>, row: &Row) -> bool {
    let (party, start, turns, last, words) = row;
    let begins = machine.is_going(*party)
        || machine
            .step(Turn::Begin(*party, Start::Queues(*start)))
            .is_ok();
    begins
        & go(machine, *party, *turns)
        & (machine.events().last() == Some(last))
        & (machine.words() == words.as_slice())
}

/// The place of the first row that does not come out as it says, if any.
fn wrong_row(machine: &mut impl TakesTurns<Three>) -> Option<usize> {
    for (at, row) in ROWS.iter().enumerate() {
        if !come_out(machine, row) {
            return Some(at);
        }
    }
    None
}

/// The place of the first row that does not come out as it says. It is the number of rows if only the last
/// events are wrong, and None if all is right.
fn wrong_of_queue(machine: &mut impl TakesTurns<Three>) -> Option<usize> {
    match wrong_row(machine) {
        Some(at) => Some(at),
        None if machine.events().ends_with(&TOLD) => None,
        None => Some(ROWS.len()),
    }
}

/// The value that a single value of three words opens with.
const ZEROS: Three = Three(0, 0, 0);

/// The value that is stored.
const VALUE: Three = Three(7, u64::MAX, 9);

/// A party, its call, how many turns it takes, and its answer.
const THREE_WORDS: [(u32, AtomicStart<Three>, u64, Answer<Three>); 6] = [
    (0, AtomicStart::AcquireProducer, 1, Answer::Truth(true)),
    (1, AtomicStart::Load, 5, Answer::Loaded(ZEROS)),
    (0, AtomicStart::Store(VALUE), 5, Answer::Truth(true)),
    (1, AtomicStart::Load, 5, Answer::Loaded(VALUE)),
    (1, AtomicStart::Version, 1, Answer::Number(2)),
    (1, AtomicStart::HasProducer, 1, Answer::Truth(true)),
];

/// Whether the call takes this many turns after its begin, and the last event is its end with this answer.
fn answers(
    machine: &mut impl TakesTurns<Three>,
    party: u32,
    start: AtomicStart<Three>,
    turns: u64,
    answer: Answer<Three>,
) -> bool {
    let last = Event::Finished(party, Start::Atomic(start), answer);
    machine
        .step(Turn::Begin(party, Start::Atomic(start)))
        .is_ok()
        & go(machine, party, turns)
        & (machine.events().last() == Some(&last))
}

/// The place of the first call of `THREE_WORDS` that does not come out as it says, if any.
fn wrong_answer(machine: &mut impl TakesTurns<Three>) -> Option<usize> {
    for (at, (party, start, turns, answer)) in THREE_WORDS.iter().enumerate() {
        if !answers(machine, *party, *start, *turns, *answer) {
            return Some(at);
        }
    }
    None
}

/// The place of the first call that does not come out as it says. It is the number of calls if only the words
/// are wrong, and None if all is right.
fn wrong_of_value(machine: &mut impl TakesTurns<Three>) -> Option<usize> {
    match wrong_answer(machine) {
        Some(at) => Some(at),
        None if machine.words() == [2, 0, 0, 0, 0, 7, u64::MAX, 9].as_slice() => None,
        None => Some(THREE_WORDS.len()),
    }
}

/// What is wrong on the machine of this kind, the queue of values or the single value.
fn wrong_of(machine: &mut impl TakesTurns<Three>, kind: Kind) -> Option<usize> {
    match kind {
        Kind::Queue => wrong_of_queue(machine),
        _ => wrong_of_value(machine),
    }
}

/// What is wrong on a new machine of this kind, if anything. The machine is made in a function of its own,
/// since a function has a proof, for each of its ends, that the machine is dropped.
fn wrong(alloc: Global, kind: Kind) -> Option<usize> {
    match made_of(alloc, Shape::Of(kind, 1), 2) {
        Ok(mut machine) => wrong_of(&mut machine, kind),
        Err(_) => Some(0),
    }
}

/// Whether a queue of values and the single value come out right at values of three words.
pub fn of_three_words(alloc: Global) -> bool {
    wrong(alloc, Kind::Queue).is_none() && wrong(alloc, Kind::Atomic).is_none()
}
