//! The words of the single value at its opening, and who may begin which call.
ghost use Rattle.std.specs.Prelude.{◌≡◌, ◌∷◌, ◌⊎◌, None, Some, is_none, OnOk, IfOk, IfErr};
ghost use Rattle.model.specs.Families.Atomic.Opening.{opening, is_value, call_of, lacks_role, call_rows};
ghost use Rattle.model.specs.Rows.{first_row};
ghost use Rattle.model.specs.declared.turn.Refusal.TheVariants.{WrongCall, NoMemory};
ghost use Rattle.model.specs.Coding.{coding_by};

use super::calls::first;
use crate::families::queues::opening::holds;
use model::families::Registry;
use model::families::atomic::AtomicStart;
use model::families::atomic::calls::AtomicFlight;
use model::turn::{Kind, Refusal};
use std::alloc::{AllocError, Global};
use steps::words::Words;

/// The words of the single value at its opening. Nobody holds the producer's role.
pub fn open<T: Words>(alloc: Global) -> Result<(Vec<u64>, Registry<T>), AllocError>
    ensures words { IfOk result
        (λ opened. opened.0.items ≡ opening.words (coding_by T.Words).size 1) }
    ensures kept { IfOk result (λ opened. opened.1 ≡ opening.kept 1) }
{
    let words = 2 + T::WORDS * 2;
    let mut opened = Vec::with_capacity(alloc, words)?;
    opened.push_reserved(1);
    opened.push_reserved(1);
    opened.resize(words, 0)?;
    Ok((opened, Registry::Atomic(None)))
}

/// Whether the call asks for the producer's role where the party lacks it.
fn lacks_role<T: Copy>(producer: Option<u32>, number: u32, start: &AtomicStart<T>) -> bool
    ensures { result ≡ lacks_role producer number start.now }
{
    match start {
        AtomicStart::AcquireProducer => false,
        AtomicStart::ReleaseProducer => !holds(producer, number),
        AtomicStart::Store(_) => !holds(producer, number),
        AtomicStart::Load => false,
        AtomicStart::HasProducer => false,
        AtomicStart::Version => false,
    }
}

/// Whether a machine of this kind is the single value.
fn is_value(kind: Kind) -> bool
    ensures { result ≡ is_value kind }
{
    match kind {
        Kind::Atomic => true,
        _ => false,
    }
}

/// The call that the party `number` begins, or why it may not, or that memory for its room is refused.
pub fn permit<T: Words>(
    alloc: Global,
    kind: Kind,
    producer: Option<u32>,
    number: u32,
    start: &AtomicStart<T>,
) -> Result<AtomicFlight<T>, Refusal>
    ensures ok { IfOk result (λ flight. call_of kind start.now ≡ Some flight) }
    ensures allowed { OnOk result (first_row
        ((is_none (call_of kind start.now), WrongCall)
        ∷ call_rows producer number start.now) ≡ None) }
    ensures refused { IfErr result (λ row. (first_row
        ((is_none (call_of kind start.now), WrongCall)
        ∷ call_rows producer number start.now) ≡ Some row) ⊎ (first_row
        ((is_none (call_of kind start.now), WrongCall)
        ∷ call_rows producer number start.now) ≡ None) × (row ≡ NoMemory)) }
{
    if !is_value(kind) {
        return Err(Refusal::WrongCall);
    }
    if lacks_role(producer, number, start) {
        return Err(Refusal::NoRole);
    }
    match first(alloc, start) {
        Ok(flight) => Ok(flight),
        Err(_) => Err(Refusal::NoMemory),
    }
}
