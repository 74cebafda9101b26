//! The words of the unique index set at its opening, and who may begin which call.
ghost use Rattle.std.specs.Prelude.{◌≡◌, ◌∷◌, None, Some, is_none, OnOk, IfOk, IfErr};
ghost use Rattle.model.specs.Families.Indices.Opening.{flag_words, opening, is_set, call_of, call_rows};
ghost use Rattle.model.specs.Rows.{first_row};
ghost use Rattle.model.specs.declared.turn.Refusal.TheVariants.{WrongCall};

use super::calls::{acquire, borrowed_indices, is_locked, release};
use crate::families::queues::opening::holds;
use model::families::Registry;
use model::families::indices::IndexStart;
use model::families::indices::calls::IndexFlight;
use model::families::indices::holders::Holders;
use model::turn::{Kind, Refusal};
use std::alloc::{AllocError, Global};

/// How many words the claim flags take.
fn flag_words(capacity: u32) -> usize
    ensures { result ≡ flag_words capacity }
{
    (capacity as usize + 63) / 64
}

/// The words of a set of this capacity at its opening. Nobody holds an index.
pub fn open<T>(alloc: Global, capacity: u32) -> Result<(Vec<u64>, Registry<T>), AllocError>
    ensures words { IfOk result (λ opened. opened.0.items ≡ opening.words 0 capacity) }
    ensures kept { IfOk result (λ opened. opened.1 ≡ opening.kept capacity) }
{
    let flags = flag_words(capacity);
    let mut words = Vec::with_capacity(alloc, 1 + capacity as usize + flags)?;
    words.push_reserved(0);
    for index in 0..capacity {
        words.push_reserved(index as u64 + 1);
    }
    words.resize(1 + capacity as usize + flags, 0)?;
    Ok((words, Registry::Indices(Holders::new(alloc, capacity)?)))
}

/// Whether a machine of this kind is a unique index set.
fn is_set(kind: Kind) -> bool
    ensures { result ≡ is_set kind }
{
    match kind {
        Kind::Indices => true,
        _ => false,
    }
}

/// The call that this party begins, or why it may not.
pub fn permit(
    kind: Kind,
    capacity: u32,
    holders: &Holders,
    number: u32,
    start: &IndexStart,
) -> Result<IndexFlight, Refusal>
    ensures ok { IfOk result (λ flight. call_of kind capacity start.now ≡ Some flight) }
    ensures allowed { OnOk result (first_row
        ((is_none (call_of kind capacity start.now), WrongCall)
        ∷ call_rows capacity holders.now number start.now) ≡ None) }
    ensures refused { IfErr result (λ row. first_row
        ((is_none (call_of kind capacity start.now), WrongCall)
        ∷ call_rows capacity holders.now number start.now) ≡ Some row) }
{
    if !is_set(kind) {
        return Err(Refusal::WrongCall);
    }
    match *start {
        IndexStart::Acquire => Ok(acquire(capacity)),
        IndexStart::Release(index, mode) => {
            if index >= capacity as u64 {
                return Err(Refusal::BadIndex);
            }
            let index = index as u32;
            if !holds(holders.of(index), number) {
                return Err(Refusal::NotHeld);
            }
            Ok(release(capacity, index, mode))
        }
        IndexStart::BorrowedIndices => Ok(borrowed_indices()),
        IndexStart::IsLocked => Ok(is_locked()),
    }
}
