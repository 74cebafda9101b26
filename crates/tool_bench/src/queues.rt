//! The rows of the index queue, compared with queues that a user would take instead, and of the overflowing
//! queue, compared with the same steps by hand.
use crate::hand::queues as by_hand;
use crate::timing::{Asked, Row};
use crossbeam_queue::ArrayQueue;
use lock_free::spsc::index_queue::{Consumer, IndexQueue, Producer};
use lock_free::spsc::safely_overflowing_index_queue as overflow;
use lock_free::spsc::safely_overflowing_index_queue::SafelyOverflowingIndexQueue;
use rtrb::RingBuffer;
use std::alloc::Global;
use std::collections::VecDeque;
use std::sync::{Mutex, Wait};
use std::time::CpuClock;

/// The name of the three rows that push a number and pop it.
const PUSH_AND_POP: &str = "index queue: push and pop";

/// The queues that a user would take instead: a ring of `rtrb`, an `ArrayQueue`, and a
/// `VecDeque` under a lock.
struct Usual {
    producer: rtrb::Producer<u64>,
    consumer: rtrb::Consumer<u64>,
    array: ArrayQueue<u64>,
    deque: Mutex<VecDeque<u64>>,
    capacity: usize,
}

impl Drop for Usual {
    fn drop(self) {
        let Self {
            producer: _producer,
            consumer: _consumer,
            array: _array,
            deque: _deque,
            capacity: _,
        } = self;
    }
}

impl Usual {
    /// Empty queues of this capacity. None where memory is refused.
    fn new(alloc: Global, capacity: usize) -> Option<Usual> {
        let (producer, consumer) = RingBuffer::new(alloc, capacity).ok()?;
        let array = ArrayQueue::new(alloc, capacity.max(1)).ok()?;
        let deque = VecDeque::with_capacity(alloc, capacity).ok()?;
        Some(Usual {
            producer,
            consumer,
            array,
            deque: Mutex::new(deque),
            capacity,
        })
    }

    /// Pushes into the `VecDeque` under its lock. False where it is full.
    #[inline(always)]
    fn pushes<R: Wait>(&self, rt: &R, value: u64) -> bool {
        let mut deque = self.deque.lock(rt);
        deque.len() < self.capacity && deque.push_back(value).is_ok()
    }
}

/// The two ends of an index queue, and the queues that it is compared with.
struct Numbers<'a> {
    producer: Producer<'a>,
    consumer: Consumer<'a>,
    usual: Usual,
}

impl<'a> Drop for Numbers<'a> {
    fn drop(self) {
        let Self {
            producer: _producer,
            consumer: _consumer,
            usual: _usual,
        } = self;
    }
}

impl<'a> Numbers<'a> {
    /// Pushes a number and pops one: the number that came out, or 0 where a call failed.
    #[inline(always)]
    fn turns(&mut self, number: u64) -> u64 {
        let pushed = self.producer.push(number);
        match self.consumer.pop() {
            Some(value) if pushed => value,
            _ => 0,
        }
    }
}

/// A push and a pop, compared with those of `rtrb`, which also has one producer and one consumer.
struct BesideRing;

impl<'a> Row<Numbers<'a>> for BesideRing {
    const NAME: &'static str = PUSH_AND_POP;

    const BESIDE: &'static str = "`rtrb`";

    fn ours<R: Wait>(on: &mut Numbers<'a>, _rt: &R, number: u64) -> u64 {
        on.turns(number)
    }

    fn theirs<R: Wait>(on: &mut Numbers<'a>, _rt: &R, number: u64) -> u64 {
        let pushed = on.usual.producer.push(number).is_ok();
        match on.usual.consumer.pop() {
            Ok(value) if pushed => value,
            _ => 0,
        }
    }
}

/// A push and a pop, compared with those of an `ArrayQueue`.
struct BesideArray;

impl<'a> Row<Numbers<'a>> for BesideArray {
    const NAME: &'static str = PUSH_AND_POP;

    const BESIDE: &'static str = "`ArrayQueue`";

    fn ours<R: Wait>(on: &mut Numbers<'a>, _rt: &R, number: u64) -> u64 {
        on.turns(number)
    }

    fn theirs<R: Wait>(on: &mut Numbers<'a>, rt: &R, number: u64) -> u64 {
        let pushed = on.usual.array.push(rt, number).is_ok();
        match on.usual.array.pop(rt) {
            Some(value) if pushed => value,
            _ => 0,
        }
    }
}

/// A push and a pop, compared with those of a `VecDeque` under a lock.
struct BesideDeque;

impl<'a> Row<Numbers<'a>> for BesideDeque {
    const NAME: &'static str = PUSH_AND_POP;

    const BESIDE: &'static str = "`Mutex<VecDeque>`";

    fn ours<R: Wait>(on: &mut Numbers<'a>, _rt: &R, number: u64) -> u64 {
        on.turns(number)
    }

    fn theirs<R: Wait>(on: &mut Numbers<'a>, rt: &R, number: u64) -> u64 {
        let pushed = on.usual.pushes(rt, number);
        let popped = on.usual.deque.lock(rt).pop_front();
        match popped {
            Some(value) if pushed => value,
            _ => 0,
        }
    }
}

/// The consumer's end of an overflowing queue, and the queue by hand. Both are empty.
struct Overflowing<'a> {
    consumer: overflow::Consumer<'a>,
    hand: by_hand::Overflowing,
}

impl<'a> Drop for Overflowing<'a> {
    fn drop(self) {
        let Self {
            consumer: _consumer,
            hand: _hand,
        } = self;
    }
}

/// A pop of an empty overflowing queue, compared with the same steps by hand.
struct OverflowPop;

impl<'a> Row<Overflowing<'a>> for OverflowPop {
    const NAME: &'static str = "overflowing queue: pop of an empty one";

    fn ours<R: Wait>(on: &mut Overflowing<'a>, rt: &R, _number: u64) -> u64 {
        on.consumer.pop(rt).unwrap_or(0)
    }

    fn theirs<R: Wait>(on: &mut Overflowing<'a>, rt: &R, _number: u64) -> u64 {
        on.hand.pop(rt).unwrap_or(0)
    }
}

/// Times and prints the rows of the queues that are asked for. None where memory, a role or the clock fails.
pub fn rows<R: Wait + CpuClock + Print>(
    rt: &R,
    alloc: Global,
    asked: &Asked<'_>,
    capacity: u32,
) -> Option<()> {
    let (queue, pass) = IndexQueue::new(alloc, capacity as usize).ok()?;
    let (producer, consumer) = queue.ends(pass)?;
    let mut on = Numbers {
        producer,
        consumer,
        usual: Usual::new(alloc, capacity as usize)?,
    };
    asked.alone::<BesideRing, Numbers<'_>, R>(rt, capacity, &mut on)?;
    asked.alone::<BesideArray, Numbers<'_>, R>(rt, capacity, &mut on)?;
    asked.alone::<BesideDeque, Numbers<'_>, R>(rt, capacity, &mut on)?;
    let hand = by_hand::Overflowing::new(alloc, capacity).ok()?;
    let (queue, pass) = SafelyOverflowingIndexQueue::new(alloc, capacity as usize).ok()?;
    let consumer = queue.acquire_consumer(pass).ok()?;
    let mut on = Overflowing { consumer, hand };
    asked.alone::<OverflowPop, Overflowing<'_>, R>(rt, capacity, &mut on)
}
