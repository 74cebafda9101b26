//! The families of calls, each with files of its own. Each function of this file passes on to that
//! of the call's family.
ghost use Rattle.std.specs.Prelude.{◌≡◌, ◌+◌, ◌≤◌, ◌⊎◌, true, false, None, Some, OnOk, IfOk, IfErr, vec_len, vec_capacity};
ghost use Rattle.model.specs.Families.{first_of, begin_rows, want_of, is_question, most_of, beside_of};
ghost use Rattle.model.specs.Families.{step_of, going_rows, lacks_party, death_rows, kept_after_death, kept_after_begin};
ghost use Rattle.model.specs.Rows.{first_row};
ghost use Rattle.model.specs.World.{words_opened, kept_opened};
ghost use Rattle.model.specs.declared.turn.Refusal.TheVariants.{NoMemory};
ghost use Rattle.turns.specs.Went.{IsOfStep};
ghost use Rattle.model.specs.Coding.{coding_by};

use model::event::{Event, Start};
use model::families::queues::QueueKind;
use model::families::{Beside, Flight, Registry, Went};
use model::party::Latest;
use model::turn::{Kind, Refusal};
use std::alloc::{AllocError, Global};
use steps::ask::Want;
use steps::enums::OwnerId;
use steps::words::Words;

pub mod atomic;
pub mod bits;
pub mod container;
pub mod indices;
pub mod loan;
pub mod queues;

/// The words at the opening of a structure of this kind and capacity, and what its family keeps beside them.
/// `queue` is the capacity of a loan channel's submission queue; no other kind has one.
pub fn opening<T: Words>(
    alloc: Global,
    kind: Kind,
    capacity: u32,
    queue: u32,
) -> Result<(Vec<u64>, Registry<T>), AllocError>
    ensures words { IfOk result
        (λ opened. opened.0.items ≡ words_opened kind (coding_by T.Words).size capacity queue) }
    ensures kept { IfOk result (λ opened. opened.1 ≡ kept_opened kind capacity queue) }
{
    match kind {
        Kind::IndexQueue => queues::opening::open::<T>(alloc, QueueKind::IndexQueue, capacity),
        Kind::Overflow => queues::opening::open::<T>(alloc, QueueKind::Overflow, capacity),
        Kind::Queue => queues::opening::open::<T>(alloc, QueueKind::Queue, capacity),
        Kind::Atomic => atomic::opening::open::<T>(alloc),
        Kind::Bits => bits::opening::open_bits::<T>(alloc, capacity),
        Kind::Counts => bits::opening::open_counts::<T>(alloc, capacity),
        Kind::Indices => indices::opening::open::<T>(alloc, capacity),
        Kind::Robust => indices::robust::opening::open::<T>(alloc, capacity),
        Kind::Container => container::opening::open::<T>(alloc, capacity),
        Kind::Loan => loan::opening::open::<T>(alloc, capacity, queue),
    }
}

/// The call that the party `number` begins, or why it may not, or that memory for its room is refused.
/// Whether the kind has the call is decided by one function of the call's family.
pub fn admit<T: Words>(
    alloc: Global,
    kind: Kind,
    capacity: u32,
    kept: &Registry<T>,
    number: u32,
    start: &Start<T>,
) -> Result<Flight<T>, Refusal>
    ensures ok { IfOk result (λ flight. first_of kind capacity start.now kept.now ≡ Some flight) }
    ensures allowed { OnOk result
        (first_row (begin_rows kind capacity kept.now number start.now) ≡ None) }
    ensures refused { IfErr result
        (λ row. (first_row (begin_rows kind capacity kept.now number start.now) ≡ Some row)
        ⊎ (first_row (begin_rows kind capacity kept.now number start.now) ≡ None)
        × (row ≡ NoMemory)) }
{
    match (start, kept) {
        (Start::Queues(start), Registry::Queues(roles)) => {
            let flight = queues::opening::permit(alloc, kind, capacity, roles, number, start)?;
            Ok(Flight::Queues(flight))
        }
        (Start::Atomic(start), Registry::Atomic(producer)) => {
            let flight = atomic::opening::permit(alloc, kind, *producer, number, start)?;
            Ok(Flight::Atomic(flight))
        }
        (Start::Bits(start), Registry::Nothing) => {
            let flight = bits::opening::permit(kind, capacity, *start)?;
            Ok(Flight::Bits(flight))
        }
        (Start::Indices(start), Registry::Indices(holders)) => {
            let flight = indices::opening::permit(kind, capacity, holders, number, start)?;
            Ok(Flight::Indices(flight))
        }
        (Start::Robust(start), Registry::Owners(dead)) => {
            let flight = indices::robust::opening::permit(kind, capacity, dead, start)?;
            Ok(Flight::Robust(flight))
        }
        (Start::Container(start), Registry::Container(dead, _)) => {
            let flight = container::opening::permit(alloc, kind, capacity, dead, start)?;
            Ok(Flight::Container(flight))
        }
        (Start::Loan(start), Registry::Loan(book)) => {
            let flight = loan::opening::permit(kind, capacity, book, number, *start)?;
            Ok(Flight::Loan(flight))
        }
        _ => Err(Refusal::WrongCall),
    }
}

/// Notes what the family keeps from the begin of this call on. Answers false where memory for it is refused,
/// and nothing changes then.
pub fn keep<T: Words>(kept: &mut Registry<T>, capacity: u32, start: &Start<T>, number: u32) -> bool
    ensures keeps { result ≡ true → kept.new
        ≡ kept_after_begin (coding_by T.Words) capacity start.now number kept.old }
    ensures same { result ≡ false → kept.new ≡ kept.old }
{
    match (start, kept) {
        (Start::Container(start), Registry::Container(_, states)) => {
            container::opening::keep(capacity, start, number, states)
        }
        (Start::Loan(start), Registry::Loan(book)) => {
            loan::opening::keep(book, *start);
            true
        }
        _ => true,
    }
}

/// Whether owners of this kind are parties, and no party has the number of this one.
pub fn lacks_party<T>(kept: &Registry<T>, parties: u32, owner: OwnerId) -> bool
    ensures { result ≡ lacks_party kept.now parties owner }
{
    match kept {
        Registry::Loan(_) => owner.value() >= parties as u64,
        _ => false,
    }
}

/// Why this owner may not die, or None. Only a structure that has owners keeps who has died.
pub fn death_refusal<T>(kept: &Registry<T>, owner: OwnerId) -> Option<Refusal>
    ensures { result ≡ first_row (death_rows kept.now owner) }
{
    match kept {
        Registry::Owners(dead) => {
            if dead.has(owner) {
                Some(Refusal::OwnerIsDead)
            } else {
                None
            }
        }
        Registry::Container(dead, _) => {
            if dead.has(owner) {
                Some(Refusal::OwnerIsDead)
            } else {
                None
            }
        }
        Registry::Loan(book) => {
            if book.dead.has(owner) {
                Some(Refusal::OwnerIsDead)
            } else {
                None
            }
        }
        _ => Some(Refusal::WrongCall),
    }
}

/// Notes that the owner is dead. Answers false where memory for it is refused, and nothing changes then.
pub fn mark_dead<T>(kept: &mut Registry<T>, owner: OwnerId) -> bool
    ensures dies { result ≡ true → kept.new ≡ kept_after_death kept.old owner }
    ensures same { result ≡ false → kept.new ≡ kept.old }
{
    match kept {
        Registry::Owners(dead) => dead.add(owner),
        Registry::Container(dead, _) => dead.add(owner),
        Registry::Loan(book) => book.dead.add(owner),
        _ => true,
    }
}

/// The push or send of another party that acts if this party's step moves the read position; None in families
/// without such calls.
pub fn look_beside<T>(
    kept: &Registry<T>,
    words: &Vec<u64>,
    latest: &Latest<T>,
    number: u32,
) -> Beside
    ensures { result ≡ beside_of words.now.items kept.now latest.now.entries number }
{
    match kept {
        Registry::Queues(roles) => queues::effects::look_beside(roles, words, latest, number),
        Registry::Loan(book) => loan::effects::look_beside(book, words, latest, number),
        _ => None,
    }
}

/// What the call wants next, and the most events that its next step writes, apart from the end of the call.
pub fn going<T: Words>(flight: &Flight<T>) -> (Want<()>, usize)
    ensures want { result.0 ≡ want_of (coding_by T.Words) flight.now }
    ensures most { result.1 ≡ most_of (coding_by T.Words) flight.now }
    ensures few { result.1 ≤ 64 }
{
    match flight {
        Flight::Queues(call) => (queues::calls::want(call), queues::effects::MOST_EFFECTS),
        Flight::Atomic(call) => (atomic::calls::want(call), atomic::effects::MOST_EFFECTS),
        Flight::Bits(call) => (bits::calls::want(call), bits::effects::most_effects(call)),
        Flight::Indices(call) => (indices::calls::want(call), indices::effects::MOST_EFFECTS),
        Flight::Robust(call) => (
            indices::robust::calls::want(call),
            indices::robust::effects::MOST_EFFECTS,
        ),
        Flight::Container(call) => (
            container::calls::want(call),
            container::effects::MOST_EFFECTS,
        ),
        Flight::Loan(call) => (loan::calls::want(call), loan::effects::MOST_EFFECTS),
    }
}

/// Whether the call asks a question next, which only a turn `Decide` answers.
pub fn is_asking<T: Words>(flight: &Flight<T>) -> bool
    ensures { result ≡ is_question (want_of (coding_by T.Words) flight.now) }
{
    let (want, _) = going(flight);
    match want {
        Want::Question(_) => true,
        _ => false,
    }
}

/// Why the call may not go on, by a decision or by a step, as far as what its family keeps forbids it. None
/// where it may.
pub fn going_refusal<T: Words>(
    flight: &Flight<T>,
    kept: &Registry<T>,
    said: Option<bool>,
) -> Option<Refusal>
    ensures { result ≡ first_row (going_rows (coding_by T.Words) kept.now (Some flight.now) said) }
{
    match (flight, kept) {
        (Flight::Robust(call), Registry::Owners(dead)) => {
            indices::robust::opening::going_refusal(call, dead, said)
        }
        (Flight::Container(call), Registry::Container(dead, _)) => {
            container::opening::going_refusal(call, dead)
        }
        (Flight::Loan(call), Registry::Loan(book)) => loan::opening::going_refusal(call, book),
        _ => None,
    }
}

/// Hands the call an answer, changes it in place, and appends the events of this step to `events`, which has
/// room for them. `words` are the words before the step.
pub fn advance<T: Words>(
    flight: &mut Flight<T>,
    number: u32,
    start: &Start<T>,
    words: &Vec<u64>,
    beside: Beside,
    answer: u64,
    kept: &mut Registry<T>,
    events: &mut Vec<Event<T>>,
) -> Went<T>
    requires { vec_len events.old + most_of (coding_by T.Words) flight.old
        ≤ vec_capacity events.old }
    ensures step { IsOfStep (step_of (coding_by T.Words) words.now.items beside number start.now flight.old answer
        kept.old) result flight.new kept.new events.old.items events.new.items }
    ensures few { vec_len events.new
        ≤ vec_len events.old + most_of (coding_by T.Words) flight.old }
    ensures room { vec_capacity events.new ≡ vec_capacity events.old }
{
    match (flight, start, kept) {
        (Flight::Queues(call), Start::Queues(start), Registry::Queues(roles)) => {
            queues::effects::perform(call, number, start, words, beside, answer, roles, events)
        }
        (Flight::Atomic(call), Start::Atomic(start), Registry::Atomic(producer)) => {
            atomic::effects::perform(call, number, start, answer, producer, events)
        }
        (Flight::Bits(call), Start::Bits(_), Registry::Nothing) => {
            bits::effects::perform(call, number, answer, events)
        }
        (Flight::Indices(call), Start::Indices(_), Registry::Indices(holders)) => {
            indices::effects::perform(call, number, answer, holders, events)
        }
        (Flight::Robust(call), Start::Robust(_), Registry::Owners(dead)) => {
            indices::robust::effects::perform(call, number, answer, dead, events)
        }
        (Flight::Container(call), Start::Container(_), Registry::Container(_, states)) => {
            container::effects::perform(call, number, answer, states, events)
        }
        (Flight::Loan(call), Start::Loan(start), Registry::Loan(book)) => {
            loan::effects::perform(call, number, *start, words, beside, answer, book, events)
        }
        _ => Went {
            back: false,
            done: None,
        },
    }
}
