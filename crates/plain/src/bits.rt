//! The bit set of one caller.
ghost use Rattle.std.specs.Prelude.{◌≡◌, ◌<◌, ◌-◌, ◌^◌, ◌⊎◌, not, length, IfOk, IfErr, OnOk, Some, None};
ghost use Rattle.steps.specs.Enums.{capacity_refusal};
ghost use Rattle.steps.specs.Objects.Places.{Places, unset, has, with_place, standing, next_place, after_next, emptied};
ghost use Rattle.steps.specs.declared.enums.UniqueIndexCreationError.TheVariants.{NoMemory};
ghost use Rattle.plain_queues.specs.Alone.{BehavesAs};
ghost use Rattle.plain.specs.Bits.{places_in, Represents};
ghost use Rattle.plain.specs.Visits.{Takes, WasCalled};

use crate::swaps::{end_of_element, swap_next, visit_element};
use plain_queues::drive::drive;
use std::alloc::Global;
use std::marker::Model;
use steps::bits::bit_set::{ResetNext, Set};
use steps::bits::flags::{FIRST_ELEMENT, elements};
use steps::bits::looks::IsSet;
use steps::bits::reset_all::ResetAll;
use steps::enums::{UniqueIndexCreationError, capacity_refusal};

/// A bit set that one caller uses: places below a capacity, each set or clear. After `BitSet` of the Rust crate.
///
/// ```rust
/// let mut flags = BitSet::new(rt.alloc(), 64)?;
/// assert!(rt; flags.set(5) && !flags.set(5));
/// assert!(rt; flags.reset_next() == Some(5) && flags.reset_next().is_none());
/// ```
#[derive(Drop)]
pub struct BitSet {
    words: Vec<u64>,
    capacity: u32,
}

impl Model for BitSet {
    ghost Value = { Places };

    ghost view = { λ s. places_in s.capacity s.words.items };

    ghost invariant = { λ s. Represents s.capacity s.words.items };
}

/// Drives a call `Set` on the place to its end, over the words of a bit set.
fn set(words: &mut Vec<u64>, capacity: u32, place: u64) -> bool
    requires fits { Represents capacity words.old.items }
    requires below { place < capacity }
    ensures { BehavesAs (Represents capacity) (places_in capacity) (λ s. not (has s place))
        (λ s. with_place s place) words.old.items result words.new.items }
{
    let mut room = ();
    drive(words, Set::new(), &place, &mut room)
}

/// Drives a call `ResetNext` to its end, over the words of a bit set.
fn reset_next(words: &mut Vec<u64>, capacity: u32) -> Option<u64>
    requires { Represents capacity words.old.items }
    ensures { BehavesAs (Represents capacity) (places_in capacity) next_place after_next words.old.items
        result words.new.items }
{
    let mut room = ();
    drive(words, ResetNext::new(capacity), &(), &mut room)
}

/// Drives a look at the place to its end, over the words of a bit set.
fn is_set(words: &mut Vec<u64>, capacity: u32, place: u64) -> bool
    requires fits { Represents capacity words.old.items }
    requires below { place < capacity }
    ensures { BehavesAs (Represents capacity) (places_in capacity) (λ s. has s place) (λ s. s) words.old.items
        result words.new.items }
{
    let mut room = ();
    drive(words, IsSet, &place, &mut room)
}

/// Empties the words of a bit set, one element after another. It calls `visit` with each place that stood.
fn empty<F: FnMut(usize)>(words: &mut Vec<u64>, capacity: u32, visit: &mut F)
    requires fits { Represents capacity words.old.items }
    requires takes { Takes F.pre F.step (standing (places_in capacity words.old.items)) visit.old }
    ensures fits { Represents capacity words.new.items }
    ensures places { places_in capacity words.new.items
        ≡ emptied (places_in capacity words.old.items) }
    ensures calls { WasCalled F.step (standing (places_in capacity words.old.items)) visit.old visit.new }
{
    let mut call = ResetAll::bits(capacity);
    let mut first = 0;
    for _ in 0..elements(capacity) {
        let found = swap_next(words, &mut call);
        let end = end_of_element(first, capacity as u64);
        visit_element(visit, found, first, end);
        first = end;
    }
}

impl BitSet {
    /// Sets the place, and returns whether it was clear.
    pub fn set(&mut self, place: usize) -> bool
        requires { place < length self.old.flags }
        ensures answer { result ≡ not (has self.old place) }
        ensures places { self.new ≡ with_place self.old place }
    {
        set(&mut self.words, self.capacity, place as u64)
    }

    /// Resets the least place that stands and is not below the start, else the least that stands, and returns it. The
    /// start is then the place after it. None if no place stands.
    pub fn reset_next(&mut self) -> Option<usize>
        ensures answer { result ≡ next_place self.old }
        ensures places { self.new ≡ after_next self.old }
    {
        match reset_next(&mut self.words, self.capacity) {
            Some(place) => Some(place as usize),
            None => None,
        }
    }

    /// Calls `visit` with each place that stands, ascending, and resets all places. The start of the search stays.
    pub fn reset_all<F: FnMut(usize)>(&mut self, visit: &mut F)
        requires { Takes F.pre F.step (standing self.old) visit.old }
        ensures places { self.new ≡ emptied self.old }
        ensures calls { WasCalled F.step (standing self.old) visit.old visit.new }
    {
        empty(&mut self.words, self.capacity, visit);
    }

    /// Returns whether the place stands. This project's own.
    pub fn is_set(&mut self, place: usize) -> bool
        requires { place < length self.old.flags }
        ensures answer { result ≡ has self.old place }
        ensures places { self.new ≡ self.old }
    {
        is_set(&mut self.words, self.capacity, place as u64)
    }

    /// Returns how many places there are.
    pub fn capacity(&self) -> usize
        ensures { result ≡ length self.now.flags }
    {
        self.capacity as usize
    }

    /// Makes a set of which no place stands.
    ///
    /// Refused are, in this order, a capacity above 2^32 - 1 (`ProvidedCapacityGreaterThanMaxCapacity`) and memory
    /// (`NoMemory`).
    #[tactic(auto, using(crate::proofs::Places::Empties::opened))]
    pub fn new(alloc: Global, capacity: usize) -> Result<BitSet, UniqueIndexCreationError>
        ensures places { IfOk result (λ s. s ≡ unset capacity) }
        ensures admitted { OnOk result (capacity_refusal 0 (2 ^ 32 - 1) capacity ≡ None) }
        ensures refused { IfErr result (λ e. (capacity_refusal 0 (2 ^ 32 - 1) capacity ≡ Some e)
            ⊎ (capacity_refusal 0 (2 ^ 32 - 1) capacity ≡ None) × (e ≡ NoMemory)) }
    {
        if let Some(error) = capacity_refusal(capacity as u64, 0, u32::MAX as u64) {
            return Err(error);
        }
        let capacity = capacity as u32;
        let mut words = Vec::new(alloc);
        if words
            .resize(FIRST_ELEMENT + elements(capacity) as usize, 0)
            .is_err()
        {
            return Err(UniqueIndexCreationError::NoMemory);
        }
        Ok(BitSet { words, capacity })
    }
}
