//! A contract with a proof.
ghost use Rattle.lock_free.specs.Queues.Calls.{producer_view};
ghost use Rattle.tutorial.specs.Sent.{Appends};

use lock_free::spsc::index_queue::{IndexQueue, Producer};
use std::alloc::Global;
use std::sync::Wait;
use std::thread;

/// Pushes `number` as soon as there is room.
fn push_waiting(rt: &impl Wait, producer: &mut Producer<'_>, number: u64)
    ensures { Appends number (producer_view producer.old) (producer_view producer.new) }
{
    for _ in rt.forever() {
        if producer.push(number) {
            return;
        }
        thread::yield_now();
    }
    unreachable!()
}

/// Pushes 1 and 2, and returns how many numbers wait in the queue then.
pub fn push_two(rt: &impl Wait, alloc: Global) -> Option<usize> {
    let (queue, pass) = IndexQueue::new(alloc, 2).ok()?;
    let mut producer = queue.handle(pass).acquire_producer().ok()?;
    push_waiting(rt, &mut producer, 1);
    push_waiting(rt, &mut producer, 2);
    Some(producer.len(rt))
}
