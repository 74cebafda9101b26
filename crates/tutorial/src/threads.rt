//! A queue between two threads.

use lock_free::spsc::index_queue::{Consumer, IndexQueue, Producer};
use std::alloc::Global;
use std::sync::Wait;
use std::thread;
use std::thread::Threads;

/// Pushes the numbers below `count`, each as soon as there is room.
fn send(rt: &impl Wait, producer: &mut Producer<'_>, count: u64) {
    let mut next = 0;
    for _ in rt.forever() {
        if next >= count {
            break;
        }
        if producer.push(next) {
            next += 1;
        } else {
            thread::yield_now();
        }
    }
}

/// Pops `count` numbers, each as soon as one is there, and adds them up.
fn receive(rt: &impl Wait, consumer: &mut Consumer<'_>, count: u64) -> u64 {
    let (mut came, mut sum) = (0, 0u64);
    for _ in rt.forever() {
        if came >= count {
            break;
        }
        match consumer.pop() {
            Some(number) => {
                came += 1;
                sum = sum.wrapping_add(number);
            }
            None => thread::yield_now(),
        }
    }
    sum
}

/// Sends the numbers below `count` from one thread to another, and returns the sum of those that came.
pub fn cross<R: Threads + Wait + Sync>(rt: &R, alloc: Global, count: u64) -> Option<u64> {
    let (queue, pass) = IndexQueue::new(alloc, 4).ok()?;
    let mut handle = queue.handle(pass);
    let other = handle.split()?;
    let mut producer = handle.acquire_producer().ok()?;
    let mut consumer = other.acquire_consumer().ok()?;
    let (_, sum) = thread::join(
        rt,
        || send(rt, &mut producer, count),
        || receive(rt, &mut consumer, count),
    );
    Some(sum)
}
