//! Calls that a machine of another kind does not have, which it has to refuse, and the numbers of refusals.
use model::event::Start;
use model::families::atomic::AtomicStart;
use model::families::bits::BitsStart;
use model::families::indices::IndexStart;
use model::families::indices::robust::RobustStart;
use model::families::queues::QueueStart;
use model::turn::{Kind, Refusal, Shape, Turn};
use schedule::bare::{TakesTurns, made_of};
use std::alloc::Global;
use steps::enums::OwnerId;

/// A pop of any queue.
const POP: Start<u128> = Start::Queues(QueueStart::Pop);

/// A peek of a bounded queue.
const PEEK: Start<u128> = Start::Queues(QueueStart::Peek);

/// A question for the length of any queue.
const LEN: Start<u128> = Start::Queues(QueueStart::Len);

/// A push of a value, which only the queue of values has.
const PUSH: Start<u128> = Start::Queues(QueueStart::Push(1));

/// A kind, and a call that this kind does not have.
const WRONG: [(Kind, Start<u128>); 17] = [
    (Kind::IndexQueue, PUSH),
    (Kind::Atomic, PUSH),
    (Kind::Atomic, POP),
    (Kind::Bits, POP),
    (Kind::Counts, POP),
    (Kind::Indices, POP),
    (Kind::Robust, POP),
    (Kind::Overflow, PEEK),
    (Kind::Atomic, PEEK),
    (Kind::Counts, Start::Bits(BitsStart::ResetNext)),
    (Kind::Counts, Start::Bits(BitsStart::IsSet(0))),
    (Kind::Bits, Start::Bits(BitsStart::Count(0))),
    (Kind::IndexQueue, Start::Bits(BitsStart::ResetNext)),
    (Kind::IndexQueue, Start::Indices(IndexStart::Acquire)),
    (Kind::IndexQueue, Start::Atomic(AtomicStart::Load)),
    (Kind::IndexQueue, Start::Atomic(AtomicStart::HasProducer)),
    (Kind::IndexQueue, Start::Robust(RobustStart::IsLocked)),
];

/// Whether this call is refused as `WrongCall` on a new machine of this kind, and no event is written down.
fn is_wrong(alloc: Global, kind: Kind, start: Start<u128>) -> bool {
    match made_of(alloc, Shape::Of(kind, 1), 2) {
        Ok(mut machine) => {
            TakesTurns::step(&mut machine, Turn::Begin(0, start)) == Err(Refusal::WrongCall)
                && machine.events().is_empty()
        }
        Err(_) => false,
    }
}

/// Whether a call that the kind does not have is refused as `Busy` if the party has another call under way.
fn is_busy(alloc: Global) -> bool {
    match made_of(alloc, Shape::Of(Kind::IndexQueue, 1), 2) {
        Ok(mut machine) => {
            TakesTurns::step(&mut machine, Turn::Begin(0, LEN)).is_ok()
                && TakesTurns::step(&mut machine, Turn::Begin(0, PUSH)) == Err(Refusal::Busy)
        }
        Err(_) => false,
    }
}

/// Whether each call of `WRONG` is refused, and one more.
pub fn are_refused(alloc: Global) -> bool {
    for (kind, start) in &WRONG {
        if !is_wrong(alloc, *kind, *start) {
            return false;
        }
    }
    // This call has an owner, which no constant can hold.
    let Ok(owner) = OwnerId::new(2) else {
        return false;
    };
    is_busy(alloc)
        && is_wrong(
            alloc,
            Kind::IndexQueue,
            Start::Robust(RobustStart::Acquire(owner)),
        )
}

/// Each refusal with its number, `as u8`. A refusal that is put between others must not change
/// the numbers of the rest.
const NUMBERS: [(Refusal, u8); 12] = [
    (Refusal::NoParty, 1),
    (Refusal::Busy, 2),
    (Refusal::Idle, 3),
    (Refusal::WrongCall, 4),
    (Refusal::NoRole, 5),
    (Refusal::NotHeld, 6),
    (Refusal::BadIndex, 7),
    (Refusal::OwnerIsDead, 8),
    (Refusal::OwnerLives, 9),
    (Refusal::Undecided, 10),
    (Refusal::NoMemory, 11),
    (Refusal::AtEnd, 12),
];

/// Whether the refusals have the numbers of `NUMBERS`.
pub fn have_numbers() -> bool {
    for (refusal, number) in &NUMBERS {
        if *refusal as u8 != *number {
            return false;
        }
    }
    true
}
