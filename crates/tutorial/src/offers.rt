//! A contract that needs no proof file.
ghost use Rattle.std.specs.Prelude.{IsTrue};
ghost use Rattle.lock_free.specs.Queues.Calls.{producer_view};
ghost use Rattle.tutorial.specs.Sent.{Appends};

use lock_free::spsc::index_queue::{IndexQueue, Producer};
use std::alloc::Global;

/// Pushes `number` if there is room.
fn offer(producer: &mut Producer<'_>, number: u64) -> bool
    ensures { IsTrue result → Appends number (producer_view producer.old) (producer_view producer.new) }
{
    producer.push(number)
}

/// Offers 1, 2 and 3 to a queue with room for two numbers.
pub fn fill(alloc: Global) -> Option<[bool; 3]> {
    let (queue, pass) = IndexQueue::new(alloc, 2).ok()?;
    let mut producer = queue.handle(pass).acquire_producer().ok()?;
    Some([
        offer(&mut producer, 1),
        offer(&mut producer, 2),
        offer(&mut producer, 3),
    ])
}
