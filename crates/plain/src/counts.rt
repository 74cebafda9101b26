//! The counting bit set of one caller.
ghost use Rattle.std.specs.Prelude.{◌≡◌, ◌<◌, ◌-◌, ◌^◌, ◌⊎◌, ℕ, List, length, slice_index, IfOk, IfErr, OnOk, Some, None};
ghost use Rattle.steps.specs.Enums.{capacity_refusal};
ghost use Rattle.steps.specs.Objects.Counts.{counted, states, uncounted};
ghost use Rattle.steps.specs.declared.enums.UniqueIndexCreationError.TheVariants.{NoMemory};
ghost use Rattle.plain.specs.Visits.{Takes, WasCalled};

use crate::swaps::{call_counted, swap_next};
use plain_queues::drive::drive;
use std::alloc::Global;
use std::marker::Model;
use steps::bits::counting_bit_set::{BitState, MAX_COUNT, Set};
use steps::bits::looks::Count;
use steps::bits::reset_all::ResetAll;
use steps::enums::{UniqueIndexCreationError, capacity_refusal};

/// A counting bit set that one caller uses: places, each of which has a count of 64 bits. After `CountingBitSet` of the
/// Rust crate.
///
/// ```rust
/// let mut counts = CountingBitSet::new(rt.alloc(), 8)?;
/// assert!(rt; counts.set(3) == 0 && counts.set(3) == 1);
/// let mut last = (0, 0);
/// counts.reset_all(&mut |state| last = (state.bit(), state.count()));
/// assert!(rt; last == (3, 2));
/// ```
#[derive(Drop)]
pub struct CountingBitSet {
    words: Vec<u64>,
    capacity: u32,
}

impl Model for CountingBitSet {
    ghost Value = { List ℕ };

    ghost view = { λ s. s.words.items };

    ghost invariant = { λ s. length s.words.items ≡ s.capacity };
}

/// Drives a call `Set`, which adds 1 to the place's count, over the words of a counting bit set.
fn set(words: &mut Vec<u64>, place: u64) -> u64
    ensures answer { result ≡ slice_index words.old.items place }
    ensures counts { words.new.items ≡ counted words.old.items place }
{
    let mut room = ();
    drive(words, Set, &place, &mut room)
}

/// Drives a look at the count of the place to its end, over the words of a counting bit set.
fn count(words: &mut Vec<u64>, place: u64) -> u64
    ensures answer { result ≡ slice_index words.old.items place }
    ensures counts { words.new.items ≡ words.old.items }
{
    let mut room = ();
    drive(words, Count, &place, &mut room)
}

/// Empties the words of a counting bit set, one after another. It calls `visit` with each
/// place that had a count.
fn empty<F: FnMut(BitState)>(words: &mut Vec<u64>, capacity: u32, visit: &mut F)
    requires long { length words.old.items ≡ capacity }
    requires takes { Takes F.pre F.step (states words.old.items) visit.old }
    ensures counts { words.new.items ≡ uncounted capacity }
    ensures calls { WasCalled F.step (states words.old.items) visit.old visit.new }
{
    let mut call = ResetAll::counts(capacity);
    for place in 0..capacity {
        let count = swap_next(words, &mut call);
        call_counted(visit, place, count);
    }
}

impl CountingBitSet {
    /// Adds 1 to the count of the place, modulo 2^64, and returns what it was.
    pub fn set(&mut self, place: usize) -> u64
        requires { place < length self.old }
        ensures answer { result ≡ slice_index self.old place }
        ensures counts { self.new ≡ counted self.old place }
    {
        set(&mut self.words, place as u64)
    }

    /// Calls `visit` with each place that has a count, ascending, and makes all counts 0.
    pub fn reset_all<F: FnMut(BitState)>(&mut self, visit: &mut F)
        requires { Takes F.pre F.step (states self.old) visit.old }
        ensures counts { self.new ≡ uncounted (length self.old) }
        ensures calls { WasCalled F.step (states self.old) visit.old visit.new }
    {
        empty(&mut self.words, self.capacity, visit);
    }

    /// Returns the count of the place. This project's own.
    pub fn count(&mut self, place: usize) -> u64
        requires { place < length self.old }
        ensures answer { result ≡ slice_index self.old place }
        ensures counts { self.new ≡ self.old }
    {
        count(&mut self.words, place as u64)
    }

    /// Returns how many places there are.
    pub fn capacity(&self) -> usize
        ensures { result ≡ length self.now }
    {
        self.capacity as usize
    }

    /// Returns the greatest count.
    pub fn max_count() -> u64
        ensures { result ≡ 2 ^ 64 - 1 }
    {
        MAX_COUNT
    }

    /// Makes a set of which no place has a count.
    ///
    /// Refused are, in this order, a capacity above 2^32 - 1 (`ProvidedCapacityGreaterThanMaxCapacity`) and memory
    /// (`NoMemory`).
    pub fn new(alloc: Global, capacity: usize) -> Result<CountingBitSet, UniqueIndexCreationError>
        ensures counts { IfOk result (λ s. s ≡ uncounted capacity) }
        ensures admitted { OnOk result (capacity_refusal 0 (2 ^ 32 - 1) capacity ≡ None) }
        ensures refused { IfErr result (λ e. (capacity_refusal 0 (2 ^ 32 - 1) capacity ≡ Some e)
            ⊎ (capacity_refusal 0 (2 ^ 32 - 1) capacity ≡ None) × (e ≡ NoMemory)) }
    {
        if let Some(error) = capacity_refusal(capacity as u64, 0, u32::MAX as u64) {
            return Err(error);
        }
        let mut words = Vec::new(alloc);
        if words.resize(capacity, 0).is_err() {
            return Err(UniqueIndexCreationError::NoMemory);
        }
        Ok(CountingBitSet {
            words,
            capacity: capacity as u32,
        })
    }
}
