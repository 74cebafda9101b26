//! The unique index set of one caller.
ghost use Rattle.std.specs.Prelude.{◌≡◌, ◌≤◌, ◌<◌, ◌-◌, ◌^◌, ◌⊎◌, not, IsTrue, IfOk, IfErr, OnOk, Some, None};
ghost use Rattle.steps.specs.Enums.{capacity_refusal};
ghost use Rattle.steps.specs.Objects.Stacks.{Stack, IsOut, is_free, opened, acquired, after_acquire, released, released_or_locked, release_state, out};
ghost use Rattle.steps.specs.declared.enums.UniqueIndexCreationError.TheVariants.{NoMemory};
ghost use Rattle.steps.specs.declared.indices.enums.ReleaseState.TheVariants.{Unlocked};
ghost use Rattle.plain_queues.specs.Alone.{BehavesAs};
ghost use Rattle.plain.specs.Unique.{stack_in, Represents};

use plain_queues::drive::drive;
use std::alloc::{AllocError, Global};
use std::marker::Model;
use steps::enums::{UniqueIndexCreationError, capacity_refusal};
use steps::indices::enums::{ReleaseState, UniqueIndexSetAcquireFailure};
use steps::indices::layout::{FIRST_NEXT, flag_word, has_flag, next_word};
use steps::indices::looks::{BorrowedIndices, IsLocked};
use steps::indices::unique::{Acquire, DefaultMode, LockMode, Release};

/// A unique index set that one caller uses: the free ones of its indices lie on a stack. They are the numbers from 0 to
/// below the capacity. After `UniqueIndexSet` of the Rust crate.
///
/// ```rust
/// let mut pool = UniqueIndexSet::new(rt.alloc(), 1)?;
/// assert!(rt; pool.acquire_raw_index().is_ok());
/// assert!(rt; pool.acquire_raw_index().is_err() && pool.borrowed_indices() == 1);
/// ```
#[derive(Drop)]
pub struct UniqueIndexSet {
    words: Vec<u64>,
    capacity: u32,
}

impl Model for UniqueIndexSet {
    ghost Value = { Stack };

    ghost view = { λ s. stack_in s.capacity s.words.items };

    ghost invariant = { λ s. Represents s.capacity s.words.items };
}

/// Makes the words of a set of which all indices are free, with 0 on top of the stack.
fn open(alloc: Global, capacity: u32) -> Result<Vec<u64>, AllocError>
    requires some { 1 ≤ capacity }
    requires few { capacity ≤ 2 ^ 24 - 2 }
    ensures { IfOk result (λ words. Represents capacity words.items
        × (stack_in capacity words.items ≡ opened capacity)) }
{
    let mut words = Vec::new(alloc);
    words.resize(
        FIRST_NEXT + capacity as usize + (capacity as usize + 63) / 64,
        0,
    )?;
    for index in 0..capacity {
        words[next_word(index)] = index as u64 + 1;
    }
    Ok(words)
}

/// Drives an acquire to its end, over the words of a unique index set.
fn acquire(words: &mut Vec<u64>, capacity: u32) -> Result<u32, UniqueIndexSetAcquireFailure>
    requires { Represents capacity words.old.items }
    ensures { BehavesAs (Represents capacity) (stack_in capacity) acquired after_acquire words.old.items
        result words.new.items }
{
    let mut room = ();
    drive(words, Acquire::new(capacity), &(), &mut room)
}

/// Drives a release in mode `Default` to its end, over the words of a unique index set.
fn release(words: &mut Vec<u64>, capacity: u32, index: u32) -> ReleaseState
    requires fits { Represents capacity words.old.items }
    requires out { IsOut (stack_in capacity words.old.items) index }
    ensures { BehavesAs (Represents capacity) (stack_in capacity) (λ s. Unlocked) (λ s. released s index)
        words.old.items result words.new.items }
{
    let mut room = ();
    drive(
        words,
        Release::<DefaultMode>::new(capacity),
        &index,
        &mut room,
    )
}

/// Drives a release in mode `LockIfLastIndex` to its end, over the words of a unique index set.
fn release_or_lock(words: &mut Vec<u64>, capacity: u32, index: u32) -> ReleaseState
    requires fits { Represents capacity words.old.items }
    requires out { IsOut (stack_in capacity words.old.items) index }
    ensures { BehavesAs (Represents capacity) (stack_in capacity) release_state
        (λ s. released_or_locked s index) words.old.items result words.new.items }
{
    let mut room = ();
    drive(words, Release::<LockMode>::new(capacity), &index, &mut room)
}

/// Drives a look at the number of borrowed indices to its end, over the words of a unique index set.
fn count(words: &mut Vec<u64>, capacity: u32) -> usize
    requires { Represents capacity words.old.items }
    ensures { BehavesAs (Represents capacity) (stack_in capacity) out (λ s. s) words.old.items result
        words.new.items }
{
    let mut room = ();
    drive(words, BorrowedIndices, &(), &mut room)
}

/// Drives a look at the lock to its end, over the words of a unique index set.
fn look(words: &mut Vec<u64>, capacity: u32) -> bool
    requires { Represents capacity words.old.items }
    ensures { BehavesAs (Represents capacity) (stack_in capacity) (λ s. s.locked) (λ s. s) words.old.items
        result words.new.items }
{
    let mut room = ();
    drive(words, IsLocked, &(), &mut room)
}

/// Returns whether the claim flag of an index stands, in the words of a unique index set.
fn is_claimed(words: &Vec<u64>, capacity: u32, index: u32) -> bool
    requires fits { Represents capacity words.now.items }
    requires below { index < capacity }
    ensures { result ≡ not (is_free (stack_in capacity words.now.items) index) }
{
    has_flag(words[flag_word(capacity, index)], index)
}

impl UniqueIndexSet {
    /// Makes a set of which all indices are free, 0 on top.
    ///
    /// Refused are, in this order, a capacity above 2^24 - 2 (`ProvidedCapacityGreaterThanMaxCapacity`), 0
    /// (`ProvidedCapacityIsZero`) and memory (`NoMemory`).
    pub fn new(alloc: Global, capacity: usize) -> Result<UniqueIndexSet, UniqueIndexCreationError>
        ensures stack { IfOk result (λ s. s ≡ opened capacity) }
        ensures admitted { OnOk result (capacity_refusal 1 (2 ^ 24 - 2) capacity ≡ None) }
        ensures refused { IfErr result (λ e. (capacity_refusal 1 (2 ^ 24 - 2) capacity ≡ Some e)
            ⊎ (capacity_refusal 1 (2 ^ 24 - 2) capacity ≡ None) × (e ≡ NoMemory)) }
    {
        if let Some(error) = capacity_refusal(capacity as u64, 1, 0xff_fffe) {
            return Err(error);
        }
        let capacity = capacity as u32;
        match open(alloc, capacity) {
            Ok(words) => Ok(UniqueIndexSet { words, capacity }),
            Err(_) => Err(UniqueIndexCreationError::NoMemory),
        }
    }

    /// Takes the index on top of the stack, and returns it. Refused are `IsLocked` if the set is locked, and
    /// `OutOfIndices` if the stack is empty.
    pub fn acquire_raw_index(&mut self) -> Result<u32, UniqueIndexSetAcquireFailure>
        ensures answer { result ≡ acquired self.old }
        ensures stack { self.new ≡ after_acquire self.old }
    {
        acquire(&mut self.words, self.capacity)
    }

    /// Puts an index that is out on the stack.
    pub fn release_raw_index(&mut self, index: u32) -> ReleaseState
        requires { IsOut self.old index }
        ensures answer { result ≡ Unlocked }
        ensures stack { self.new ≡ released self.old index }
    {
        release(&mut self.words, self.capacity, index)
    }

    /// Puts an index that is out on the stack. If it was the last one out, it locks the set for good.
    pub fn release_or_lock(&mut self, index: u32) -> ReleaseState
        requires { IsOut self.old index }
        ensures answer { result ≡ release_state self.old }
        ensures stack { self.new ≡ released_or_locked self.old index }
    {
        release_or_lock(&mut self.words, self.capacity, index)
    }

    /// Returns whether the index is one that is out, as a release requires.
    pub fn is_out(&self, index: u32) -> bool
        ensures out { IsTrue result → IsOut self.now index }
        ensures all { IsOut self.now index → IsTrue result }
    {
        index < self.capacity && is_claimed(&self.words, self.capacity, index)
    }

    /// Returns how many indices are out.
    pub fn borrowed_indices(&mut self) -> usize
        ensures answer { result ≡ out self.old }
        ensures stack { self.new ≡ self.old }
    {
        count(&mut self.words, self.capacity)
    }

    /// Returns whether the set is locked.
    pub fn is_locked(&mut self) -> bool
        ensures answer { result ≡ self.old.locked }
        ensures stack { self.new ≡ self.old }
    {
        look(&mut self.words, self.capacity)
    }

    /// Returns how many indices the set has.
    pub fn capacity(&self) -> u32
        ensures { result ≡ self.now.capacity }
    {
        self.capacity
    }
}
