//! One thread calls a queue.

use lock_free::spsc::index_queue::IndexQueue;
use std::alloc::Global;

/// Pushes 3 and 1 into a queue with room for four numbers, and pops three times.
pub fn push_and_pop(alloc: Global) -> Option<[Option<u64>; 3]> {
    let (queue, pass) = IndexQueue::new(alloc, 4).ok()?;
    let mut handle = queue.handle(pass);
    let other = handle.split()?;
    let mut producer = handle.acquire_producer().ok()?;
    let mut consumer = other.acquire_consumer().ok()?;
    producer.push(3);
    producer.push(1);
    Some([consumer.pop(), consumer.pop(), consumer.pop()])
}
