//! The overflowing queue of one caller.
ghost use Rattle.std.specs.Prelude.{◌≡◌, ◌-◌, ◌^◌, ◌⊎◌, ℕ, length, nat_eq, IfOk, IfErr, OnOk, Some, None};
ghost use Rattle.steps.specs.Enums.{capacity_refusal};
ghost use Rattle.steps.specs.Objects.Lists.{Bounded, opened_at, handed_back, pushed_over, front, popped};
ghost use Rattle.steps.specs.declared.enums.UniqueIndexCreationError.TheVariants.{NoMemory};
ghost use Rattle.plain_queues.specs.Alone.{BehavesAs};
ghost use Rattle.plain_queues.specs.Overflowing.{list_in, Represents};

use crate::drive::drive;
use std::alloc::Global;
use std::marker::Model;
use steps::copied::OneWord;
use steps::enums::{UniqueIndexCreationError, capacity_refusal};
use steps::queues::lengths::Len;
use steps::queues::overflow::{Pop, Push};
use steps::queues::ring::{CONSUMER, FIRST_CELL, PRODUCER, READ, WRITE};
use steps::routine::Routine;

/// An overflowing queue that one caller uses: a list of at most as many numbers as its capacity. Where it is
/// full, a push hands the oldest one back. After `SafelyOverflowingIndexQueue` of the Rust crate.
#[derive(Drop)]
pub struct SafelyOverflowingIndexQueue {
    words: Vec<u64>,
    capacity: u32,
}

impl Model for SafelyOverflowingIndexQueue {
    ghost Value = { Bounded ℕ };

    ghost view = { λ q. list_in q.capacity q.words.items };

    ghost invariant = { λ q. Represents q.capacity q.words.items };
}

/// Drives a push to its end, over the words of an overflowing queue.
fn push(words: &mut Vec<u64>, capacity: u32, value: u64) -> Option<u64>
    requires { Represents capacity words.old.items }
    ensures { BehavesAs (Represents capacity) (list_in capacity) (λ q. handed_back q value)
        (λ q. pushed_over q value) words.old.items result words.new.items }
{
    let mut room = OneWord(0);
    let end = drive(words, Push::new(capacity), &value, &mut room);
    Push::answer(end, &value, &room)
}

/// Drives a pop to its end, over the words of an overflowing queue.
fn pop(words: &mut Vec<u64>, capacity: u32) -> Option<u64>
    requires { Represents capacity words.old.items }
    ensures { BehavesAs (Represents capacity) (list_in capacity) front popped words.old.items result
        words.new.items }
{
    let mut room = OneWord(0);
    let end = drive(words, Pop::new(capacity), &(), &mut room);
    Pop::answer(end, &(), &room)
}

/// Counts the values that wait, over the words of an overflowing queue.
fn len(words: &mut Vec<u64>, capacity: u32) -> u64
    requires { Represents capacity words.old.items }
    ensures { BehavesAs (Represents capacity) (list_in capacity) (λ q. length q.values) (λ q. q)
        words.old.items result words.new.items }
{
    let mut room = ();
    drive(words, Len::new(capacity), &(), &mut room)
}

impl SafelyOverflowingIndexQueue {
    /// Appends the number and returns None, or the oldest number if there was no room. If the positions are
    /// used up, or the capacity is 0, it hands the number itself back, and nothing changes.
    pub fn push(&mut self, value: u64) -> Option<u64>
        ensures answer { result ≡ handed_back self.old value }
        ensures list { self.new ≡ pushed_over self.old value }
    {
        push(&mut self.words, self.capacity, value)
    }

    /// Takes the oldest number and returns it, or returns None if there is none.
    pub fn pop(&mut self) -> Option<u64>
        ensures answer { result ≡ front self.old }
        ensures list { self.new ≡ popped self.old }
    {
        pop(&mut self.words, self.capacity)
    }

    /// Returns how many numbers there are.
    pub fn len(&mut self) -> usize
        ensures answer { result ≡ length self.old.values }
        ensures list { self.new ≡ self.old }
    {
        len(&mut self.words, self.capacity) as usize
    }

    /// Returns whether there is no number.
    pub fn is_empty(&mut self) -> bool
        ensures answer { result ≡ nat_eq (length self.old.values) 0 }
        ensures list { self.new ≡ self.old }
    {
        self.len() == 0
    }

    /// Returns whether there are as many numbers as the capacity.
    pub fn is_full(&mut self) -> bool
        ensures answer { result ≡ nat_eq (length self.old.values) self.old.capacity }
        ensures list { self.new ≡ self.old }
    {
        let len = self.len();
        len == self.capacity()
    }

    /// Returns the greatest number of numbers.
    pub fn capacity(&self) -> usize
        ensures { result ≡ self.now.capacity }
    {
        self.capacity as usize
    }

    /// Makes an empty list, whose first number has position 0.
    ///
    /// Refused are, in this order, a capacity above 2^32 - 1 (`ProvidedCapacityGreaterThanMaxCapacity`) and memory
    /// (`NoMemory`).
    pub fn new(
        alloc: Global,
        capacity: usize,
    ) -> Result<SafelyOverflowingIndexQueue, UniqueIndexCreationError>
        ensures list { IfOk result (λ q. q ≡ opened_at capacity 0) }
        ensures admitted { OnOk result (capacity_refusal 0 (2 ^ 32 - 1) capacity ≡ None) }
        ensures refused { IfErr result (λ e. (capacity_refusal 0 (2 ^ 32 - 1) capacity ≡ Some e)
            ⊎ (capacity_refusal 0 (2 ^ 32 - 1) capacity ≡ None) × (e ≡ NoMemory)) }
    {
        SafelyOverflowingIndexQueue::new_at(alloc, capacity, 0)
    }

    /// Makes an empty list, whose first number has this position. It is refused where `new` is.
    pub fn new_at(
        alloc: Global,
        capacity: usize,
        position: u64,
    ) -> Result<SafelyOverflowingIndexQueue, UniqueIndexCreationError>
        ensures list { IfOk result (λ q. q ≡ opened_at capacity position) }
        ensures admitted { OnOk result (capacity_refusal 0 (2 ^ 32 - 1) capacity ≡ None) }
        ensures refused { IfErr result (λ e. (capacity_refusal 0 (2 ^ 32 - 1) capacity ≡ Some e)
            ⊎ (capacity_refusal 0 (2 ^ 32 - 1) capacity ≡ None) × (e ≡ NoMemory)) }
    {
        if let Some(error) = capacity_refusal(capacity as u64, 0, u32::MAX as u64) {
            return Err(error);
        }
        let capacity = capacity as u32;
        let mut words = Vec::new(alloc);
        if words.resize(FIRST_CELL + capacity as usize + 1, 0).is_err() {
            return Err(UniqueIndexCreationError::NoMemory);
        }
        words[WRITE] = position;
        words[READ] = position;
        words[PRODUCER] = 1;
        words[CONSUMER] = 1;
        Ok(SafelyOverflowingIndexQueue { words, capacity })
    }

    /// Returns the queue that these words are, with the list that stands in them.
    pub fn of_words(words: Vec<u64>, capacity: u32) -> SafelyOverflowingIndexQueue
        requires { Represents capacity words.items }
        ensures { result ≡ list_in capacity words.items }
    {
        SafelyOverflowingIndexQueue { words, capacity }
    }
}
