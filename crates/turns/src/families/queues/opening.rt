//! The words of a queue at its opening, and who may begin which call.
ghost use Rattle.std.specs.Prelude.{◌≡◌, ◌∷◌, ◌⊎◌, ℕ, false, None, Some, is_none, OnOk, IfOk, IfErr, IfSome};
ghost use Rattle.model.specs.Families.Queues.Calls.{first};
ghost use Rattle.model.specs.Families.Queues.Opening.{cells_of, words_of_cell, opening, queue_kind, call_of, holds, lacks_role, call_rows};
ghost use Rattle.model.specs.Rows.{first_row};
ghost use Rattle.model.specs.declared.turn.Refusal.TheVariants.{WrongCall, NoMemory};
ghost use Rattle.model.specs.Coding.{coding_by};

use super::calls::first;
use model::families::Registry;
use model::families::queues::calls::QueueFlight;
use model::families::queues::{QueueKind, QueueStart, Roles};
use model::turn::{Kind, Refusal};
use std::alloc::{AllocError, Global};
use steps::words::Words;

/// How many cells a queue of this kind and capacity has: an overflowing queue has one more than its capacity.
fn cells_of(kind: QueueKind, capacity: u32) -> usize
    ensures { result ≡ cells_of kind capacity }
{
    match kind {
        QueueKind::IndexQueue => capacity as usize,
        QueueKind::Overflow => capacity as usize + 1,
        QueueKind::Queue => capacity as usize,
    }
}

/// How many words a cell has.
fn words_of_cell<T: Words>(kind: QueueKind) -> usize
    ensures { result ≡ words_of_cell (coding_by T.Words).size kind }
{
    match kind {
        QueueKind::IndexQueue => 1,
        QueueKind::Overflow => 1,
        QueueKind::Queue => T::WORDS,
    }
}

/// The words at the opening of a queue of this capacity. Nobody holds a role.
pub fn open<T: Words>(
    alloc: Global,
    kind: QueueKind,
    capacity: u32,
) -> Result<(Vec<u64>, Registry<T>), AllocError>
    ensures words { IfOk result
        (λ opened. opened.0.items ≡ (opening kind).words (coding_by T.Words).size capacity) }
    ensures kept { IfOk result (λ opened. opened.1 ≡ (opening kind).kept capacity) }
{
    let cells = words_of_cell::<T>(kind) * cells_of(kind, capacity);
    let mut words = Vec::with_capacity(alloc, 4 + cells)?;
    words.push_reserved(0);
    words.push_reserved(0);
    words.push_reserved(1);
    words.push_reserved(1);
    words.resize(4 + cells, 0)?;
    let roles = Roles {
        producer: None,
        consumer: None,
    };
    Ok((words, Registry::Queues(roles)))
}

/// Whether the holder of a role is this party.
pub fn holds(holder: Option<u32>, number: u32) -> bool
    ensures { result ≡ holds holder number }
{
    match holder {
        Some(party) => party == number,
        None => false,
    }
}

/// Whether the call asks for a role that the party lacks.
fn lacks_role<T: Copy>(roles: &Roles, number: u32, start: &QueueStart<T>) -> bool
    ensures { result ≡ lacks_role roles.now number start.now }
{
    match start {
        QueueStart::AcquireProducer => false,
        QueueStart::ReleaseProducer => !holds(roles.producer, number),
        QueueStart::AcquireConsumer => false,
        QueueStart::ReleaseConsumer => !holds(roles.consumer, number),
        QueueStart::PushIndex(_) => !holds(roles.producer, number),
        QueueStart::Push(_) => !holds(roles.producer, number),
        QueueStart::Pop => !holds(roles.consumer, number),
        QueueStart::Peek => !holds(roles.consumer, number),
        QueueStart::HasProducer => false,
        QueueStart::HasConsumer => false,
        QueueStart::Len => false,
        QueueStart::IsEmpty => false,
        QueueStart::IsFull => false,
    }
}

/// The queue that a machine of this kind has, if it has this call: a queue of indices pushes indices, and one of values
/// pushes values. The overflowing queue has no peek.
fn queue_with<T: Words>(kind: Kind, start: &QueueStart<T>) -> Option<QueueKind>
    ensures some { IfSome result (λ queue. queue_kind kind ≡ Some queue) }
    ensures has { IfSome result
        (λ queue. (capacity : ℕ) → is_none (first queue capacity start.now) ≡ false) }
    ensures none { result ≡ None → (capacity : ℕ) → call_of kind capacity start.now ≡ None }
{
    match kind {
        Kind::IndexQueue => match start {
            QueueStart::Push(_) => None,
            _ => Some(QueueKind::IndexQueue),
        },
        Kind::Overflow => match start {
            QueueStart::Push(_) => None,
            QueueStart::Peek => None,
            _ => Some(QueueKind::Overflow),
        },
        Kind::Queue => match start {
            QueueStart::PushIndex(_) => None,
            _ => Some(QueueKind::Queue),
        },
        _ => None,
    }
}

/// The call that the party `number` begins, or why it may not, or that memory for its room is refused.
pub fn permit<T: Words>(
    alloc: Global,
    kind: Kind,
    capacity: u32,
    roles: &Roles,
    number: u32,
    start: &QueueStart<T>,
) -> Result<QueueFlight<T>, Refusal>
    ensures ok { IfOk result (λ flight. call_of kind capacity start.now ≡ Some flight) }
    ensures allowed { OnOk result (first_row
        ((is_none (call_of kind capacity start.now), WrongCall)
        ∷ call_rows roles.now number start.now) ≡ None) }
    ensures refused { IfErr result (λ row. (first_row
        ((is_none (call_of kind capacity start.now), WrongCall)
        ∷ call_rows roles.now number start.now) ≡ Some row) ⊎ (first_row
        ((is_none (call_of kind capacity start.now), WrongCall)
        ∷ call_rows roles.now number start.now) ≡ None) × (row ≡ NoMemory)) }
{
    let Some(queue) = queue_with(kind, start) else {
        return Err(Refusal::WrongCall);
    };
    if lacks_role(roles, number, start) {
        return Err(Refusal::NoRole);
    }
    match first(alloc, queue, capacity, start) {
        Ok(flight) => Ok(flight),
        Err(_) => Err(Refusal::NoMemory),
    }
}
