//! How a queue of values is made, with its first pass.
ghost use Rattle.std.specs.Prelude.{◌≡◌, ◌⊎◌, ◌-◌, ◌^◌, None, Some, IfOk, IfErr, OnOk, replicate};
ghost use Rattle.steps.specs.Enums.{capacity_refusal};
ghost use Rattle.steps.specs.declared.enums.UniqueIndexCreationError.TheVariants.{NoMemory};
ghost use Rattle.model.specs.declared.event.Item.TheVariants.{Value};
ghost use Rattle.history.specs.Views.{first_view};
ghost use Rattle.lock_free_queues.specs.Queues.Opened.{opened_view};
ghost use Rattle.lock_free_queues.specs.Queues.Values.{capacity_of, inner, IsPassOf, view};

use super::{Pass, Queue, Ring};
use crate::spsc::places::{cells_used, empty_words, start_at};
use crate::spsc::ring;
use std::alloc::{AllocError, Global};
use steps::copied::{Buffer, Room};
use steps::enums::{UniqueIndexCreationError, capacity_refusal};
use steps::queues::ring::FIRST_CELL;
use steps::words::Words;

/// Returns the value whose words are zeros.
fn of_zeros<T: Words>() -> T
    ensures { result ≡ T.value_of (replicate T.WORDS 0) }
{
    Buffer::<128> { words: [0; 128] }.value()
}

impl<T: Words> Ring<T> {
    /// Makes an empty queue with both positions at `position`, and its first pass. The cells that the pushes
    /// so far have used have the words of the value that was pushed.
    fn of(alloc: Global, capacity: u32, position: u64) -> Result<(Ring<T>, Pass<T>), AllocError>
        ensures pass { IfOk result (λ r. IsPassOf r.0 r.1
            × (view r.1 ≡ opened_view T.WORDS (Value (T.value_of (replicate T.WORDS 0))) capacity position)) }
        ensures capacity { IfOk result (λ r. capacity_of r.0 ≡ capacity) }
    {
        let start = start_at(capacity, position);
        let size = T::WORDS;
        let value = of_zeros::<T>();
        let mut words = empty_words(alloc, size * capacity as usize, start)?;
        let used = size * cells_used(capacity, position) as usize;
        for at in 0..used {
            let word = value.word(at % size);
            words[FIRST_CELL + at] = word;
        }
        Ring::<T>::of_words(alloc, words, capacity, position)
    }

    /// Makes an empty queue with both positions at `position`, and its first pass, unless the
    /// capacity is refused. Refused as `new`. This project's own.
    pub fn open(
        alloc: Global,
        capacity: usize,
        position: u64,
    ) -> Result<(Ring<T>, Pass<T>), UniqueIndexCreationError>
        ensures pass { IfOk result (λ r. IsPassOf r.0 r.1
            × (view r.1 ≡ opened_view T.WORDS (Value (T.value_of (replicate T.WORDS 0))) capacity position)) }
        ensures capacity { IfOk result (λ r. capacity_of r.0 ≡ capacity) }
        ensures admitted { OnOk result (capacity_refusal 0 (2 ^ 32 - 1) capacity ≡ None) }
        ensures refused { IfErr result (λ e. (capacity_refusal 0 (2 ^ 32 - 1) capacity ≡ Some e)
            ⊎ (capacity_refusal 0 (2 ^ 32 - 1) capacity ≡ None) × (e ≡ NoMemory)) }
    {
        if let Some(error) = capacity_refusal(capacity as u64, 0, u32::MAX as u64) {
            return Err(error);
        }
        match Ring::<T>::of(alloc, capacity as u32, position) {
            Ok(made) => Ok(made),
            Err(_) => Err(UniqueIndexCreationError::NoMemory),
        }
    }
}

impl<T: Words, const CAPACITY: usize> Queue<T, CAPACITY> {
    /// Makes an empty queue and its first pass, which has the whole share and has seen nothing. The history is empty.
    ///
    /// Refused are, in this order, a CAPACITY above 2^32 - 1 (`ProvidedCapacityGreaterThanMaxCapacity`) and memory
    /// (`NoMemory`). After `Queue::new` of the Rust crate.
    pub fn new(alloc: Global) -> Result<(Queue<T, CAPACITY>, Pass<T>), UniqueIndexCreationError>
        ensures pass { IfOk result (λ r. IsPassOf (inner r.0) r.1 × (view r.1 ≡ first_view CAPACITY)) }
        ensures admitted { OnOk result (capacity_refusal 0 (2 ^ 32 - 1) CAPACITY ≡ None) }
        ensures refused { IfErr result (λ e. (capacity_refusal 0 (2 ^ 32 - 1) CAPACITY ≡ Some e)
            ⊎ (capacity_refusal 0 (2 ^ 32 - 1) CAPACITY ≡ None) × (e ≡ NoMemory)) }
    {
        Queue::<T, CAPACITY>::new_at(alloc, 0)
    }

    /// Makes an empty queue with both positions at `position`, and its first pass. Its history begins with
    /// `position` pushes and pops of the value whose words are zeros; without capacity there are none.
    /// Refused as `new`. This project's own.
    pub fn new_at(
        alloc: Global,
        position: u64,
    ) -> Result<(Queue<T, CAPACITY>, Pass<T>), UniqueIndexCreationError>
        ensures pass { IfOk result (λ r. IsPassOf (inner r.0) r.1
            × (view r.1 ≡ opened_view T.WORDS (Value (T.value_of (replicate T.WORDS 0))) CAPACITY position)) }
        ensures admitted { OnOk result (capacity_refusal 0 (2 ^ 32 - 1) CAPACITY ≡ None) }
        ensures refused { IfErr result (λ e. (capacity_refusal 0 (2 ^ 32 - 1) CAPACITY ≡ Some e)
            ⊎ (capacity_refusal 0 (2 ^ 32 - 1) CAPACITY ≡ None) × (e ≡ NoMemory)) }
    {
        let (ring, pass) = Ring::<T>::open(alloc, CAPACITY, position)?;
        Ok((ring::FixedSize { ring }, pass))
    }
}
