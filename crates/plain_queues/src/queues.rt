//! The bounded queues of one caller: of numbers of 64 bits, and of values of any number of words.
ghost use Rattle.std.specs.Prelude.{◌≡◌, ◌-◌, ◌^◌, ◌⊎◌, length, nat_eq, IfOk, IfErr, OnOk, Some, None};
ghost use Rattle.steps.specs.Enums.{capacity_refusal};
ghost use Rattle.steps.specs.Objects.Lists.{Bounded, opened_at, takes_more, pushed, front, popped};
ghost use Rattle.steps.specs.declared.enums.UniqueIndexCreationError.TheVariants.{NoMemory};
ghost use Rattle.plain_queues.specs.Alone.{BehavesAs};
ghost use Rattle.plain_queues.specs.Queues.{list_in, Represents};

use crate::drive::drive;
use std::alloc::Global;
use std::marker::{Model, PhantomData};
use steps::copied::Copied;
use steps::enums::{UniqueIndexCreationError, capacity_refusal};
use steps::queues::lengths::Len;
use steps::queues::peek::Peek;
use steps::queues::ring::{CONSUMER, FIRST_CELL, PRODUCER, Pop, Push, READ, WRITE};
use steps::routine::Routine;
use steps::words::Words;

/// The items of a queue of numbers, which its `push` takes by value.
#[derive(Clone, Copy)]
pub struct Numbers;

/// The items of a queue of values, which its `push` takes by reference.
#[derive(Clone, Copy)]
pub struct Values;

/// A bounded queue that one caller uses, of at most `capacity` values. What goes in first comes out first.
/// Two types have these calls, `IndexQueue` and `Queue`, and each its own `push`.
#[derive(Drop)]
pub struct List<E: Copy, T: Words> {
    words: Vec<u64>,
    capacity: u32,
    of: PhantomData<(E, T)>,
}

/// A bounded queue of one caller that holds values. After `Queue` of the Rust crate.
///
/// ```rust
/// let mut queue = Queue::new(rt.alloc(), 2)?;
/// assert!(rt; queue.push(&7u32) && queue.len() == 1);
/// assert!(rt; queue.peek() == Some(7));
/// assert!(rt; queue.pop() == Some(7) && queue.pop().is_none());
/// ```
pub type Queue<T> = List<Values, T>;

/// A bounded queue of one caller that holds numbers of 64 bits. After `IndexQueue` of the Rust crate.
///
/// ```rust
/// let mut queue = IndexQueue::new(rt.alloc(), 1)?;
/// assert!(rt; queue.push(3) && !queue.push(4));
/// assert!(rt; queue.pop() == Some(3));
/// ```
pub type IndexQueue = List<Numbers, u64>;

impl<E: Copy, T: Words> Model for List<E, T> {
    ghost Value = { Bounded T };

    ghost view = { λ q. list_in T.value_of T.WORDS q.capacity q.words.items };

    ghost invariant = { λ q. Represents T.WORDS q.capacity q.words.items };
}

/// Drives a push to its end, over the words of a bounded queue.
fn push<T: Words>(words: &mut Vec<u64>, capacity: u32, value: &T) -> bool
    requires { Represents T.WORDS capacity words.old.items }
    ensures { BehavesAs (Represents T.WORDS capacity) (list_in T.value_of T.WORDS capacity) takes_more
        (λ q. pushed q value.now) words.old.items result words.new.items }
{
    let mut room = ();
    drive(words, Push::new(capacity), value, &mut room)
}

/// Drives a pop to its end, over the words of a bounded queue.
fn pop<T: Words>(words: &mut Vec<u64>, capacity: u32) -> Option<T>
    requires { Represents T.WORDS capacity words.old.items }
    ensures { BehavesAs (Represents T.WORDS capacity) (list_in T.value_of T.WORDS capacity) front popped
        words.old.items result words.new.items }
{
    let mut room = Copied::new();
    let end = drive(words, Pop::<T, Copied>::new(capacity), &(), &mut room);
    Pop::<T, Copied>::answer(end, &(), &room)
}

/// Drives a look at the oldest value to its end, over the words of a bounded queue.
fn peek<T: Words>(words: &mut Vec<u64>, capacity: u32) -> Option<T>
    requires { Represents T.WORDS capacity words.old.items }
    ensures { BehavesAs (Represents T.WORDS capacity) (list_in T.value_of T.WORDS capacity) front (λ q. q)
        words.old.items result words.new.items }
{
    let mut room = Copied::new();
    let end = drive(words, Peek::<T, Copied>::new(capacity), &(), &mut room);
    Peek::<T, Copied>::answer(end, &(), &room)
}

/// Counts the values that wait, over the words of a bounded queue.
fn len<T: Words>(words: &mut Vec<u64>, capacity: u32) -> u64
    requires { Represents T.WORDS capacity words.old.items }
    ensures { BehavesAs (Represents T.WORDS capacity) (list_in T.value_of T.WORDS capacity)
        (λ q. length q.values) (λ q. q) words.old.items result words.new.items }
{
    let mut room = ();
    drive(words, Len::new(capacity), &(), &mut room)
}

impl IndexQueue {
    /// Appends the number and returns true, or returns false if there is no room or the
    /// positions are used up.
    pub fn push(&mut self, value: u64) -> bool
        ensures answer { result ≡ takes_more self.old }
        ensures list { self.new ≡ pushed self.old value }
    {
        push(&mut self.words, self.capacity, &value)
    }
}

impl<T: Words> Queue<T> {
    /// Appends the value and returns true, or returns false if there is no room or the positions are used up.
    pub fn push(&mut self, value: &T) -> bool
        ensures answer { result ≡ takes_more self.old }
        ensures list { self.new ≡ pushed self.old value.now }
    {
        push(&mut self.words, self.capacity, value)
    }
}

impl<E: Copy, T: Words> List<E, T> {
    /// Takes the oldest value and returns it, or returns None if there is none.
    pub fn pop(&mut self) -> Option<T>
        ensures answer { result ≡ front self.old }
        ensures list { self.new ≡ popped self.old }
    {
        pop::<T>(&mut self.words, self.capacity)
    }

    /// Returns the oldest value, which stays, or None if there is none. This project's own.
    pub fn peek(&mut self) -> Option<T>
        ensures answer { result ≡ front self.old }
        ensures list { self.new ≡ self.old }
    {
        peek::<T>(&mut self.words, self.capacity)
    }

    /// Returns the number of values.
    pub fn len(&mut self) -> usize
        ensures answer { result ≡ length self.old.values }
        ensures list { self.new ≡ self.old }
    {
        len::<T>(&mut self.words, self.capacity) as usize
    }

    /// Returns whether there is no value.
    pub fn is_empty(&mut self) -> bool
        ensures answer { result ≡ nat_eq (length self.old.values) 0 }
        ensures list { self.new ≡ self.old }
    {
        self.len() == 0
    }

    /// Returns whether there are as many values as the capacity.
    pub fn is_full(&mut self) -> bool
        ensures answer { result ≡ nat_eq (length self.old.values) self.old.capacity }
        ensures list { self.new ≡ self.old }
    {
        let len = self.len();
        len == self.capacity()
    }

    /// Returns the greatest number of values.
    pub fn capacity(&self) -> usize
        ensures { result ≡ self.now.capacity }
    {
        self.capacity as usize
    }

    /// Makes an empty list, whose first value has position 0.
    ///
    /// Refused are, in this order, a capacity above 2^32 - 1 (`ProvidedCapacityGreaterThanMaxCapacity`) and memory
    /// (`NoMemory`).
    pub fn new(alloc: Global, capacity: usize) -> Result<List<E, T>, UniqueIndexCreationError>
        ensures list { IfOk result (λ q. q ≡ opened_at capacity 0) }
        ensures admitted { OnOk result (capacity_refusal 0 (2 ^ 32 - 1) capacity ≡ None) }
        ensures refused { IfErr result (λ e. (capacity_refusal 0 (2 ^ 32 - 1) capacity ≡ Some e)
            ⊎ (capacity_refusal 0 (2 ^ 32 - 1) capacity ≡ None) × (e ≡ NoMemory)) }
    {
        List::new_at(alloc, capacity, 0)
    }

    /// Makes an empty list, whose first value has this position. It is refused where `new` is.
    pub fn new_at(
        alloc: Global,
        capacity: usize,
        position: u64,
    ) -> Result<List<E, T>, UniqueIndexCreationError>
        ensures list { IfOk result (λ q. q ≡ opened_at capacity position) }
        ensures admitted { OnOk result (capacity_refusal 0 (2 ^ 32 - 1) capacity ≡ None) }
        ensures refused { IfErr result (λ e. (capacity_refusal 0 (2 ^ 32 - 1) capacity ≡ Some e)
            ⊎ (capacity_refusal 0 (2 ^ 32 - 1) capacity ≡ None) × (e ≡ NoMemory)) }
    {
        if let Some(error) = capacity_refusal(capacity as u64, 0, u32::MAX as u64) {
            return Err(error);
        }
        let capacity = capacity as u32;
        let mut words = Vec::new(alloc);
        if words
            .resize(FIRST_CELL + T::WORDS * capacity as usize, 0)
            .is_err()
        {
            return Err(UniqueIndexCreationError::NoMemory);
        }
        words[WRITE] = position;
        words[READ] = position;
        words[PRODUCER] = 1;
        words[CONSUMER] = 1;
        Ok(List {
            words,
            capacity,
            of: PhantomData,
        })
    }

    /// Returns the queue that these words are, with the list that stands in them.
    pub fn of_words(words: Vec<u64>, capacity: u32) -> List<E, T>
        requires { Represents T.WORDS capacity words.items }
        ensures { result ≡ list_in T.value_of T.WORDS capacity words.items }
    {
        List {
            words,
            capacity,
            of: PhantomData,
        }
    }
}
