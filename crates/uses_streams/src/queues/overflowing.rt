//! The calls of an overflowing queue's consumer that wait for a number, or that try up to a limit.
ghost use Rattle.std.specs.Prelude.{◌≡◌, ◌<◌, ℕ, None, IfSome, IfNone};
ghost use Rattle.model.specs.declared.event.Item.TheVariants.{Index};
ghost use Rattle.lock_free_queues.specs.Queues.Contracts.{PopFoundNone};
ghost use Rattle.lock_free_queues.specs.Queues.Overflowing.{consumer_queue, consumer_view};
ghost use Rattle.uses_streams.specs.Tries.{Times, WasTakenWithin};

use lock_free_queues::spsc::safely_overflowing_index_queue::Consumer;
use std::sync::Wait;
use std::thread;

/// Takes the oldest number as soon as there is one. Between two tries another thread may run. Where no number
/// comes, or the queue has no capacity, it waits for good. A try has the steps of one pop (by no clause).
/// This project's own.
pub fn pop_overflowing_waiting(rt: &impl Wait, consumer: &mut Consumer<'_>) -> u64
    ensures queue { consumer_queue consumer.new ≡ consumer_queue consumer.old }
    ensures share { (consumer_view consumer.new).share ≡ (consumer_view consumer.old).share }
    ensures taken { (tries : ℕ) × WasTakenWithin tries (Index result) (consumer_view consumer.old) (consumer_view consumer.new) }
{
    for _ in rt.forever() {
        match consumer.pop(rt) {
            Some(number) => return number,
            None => thread::yield_now(),
        }
    }
    unreachable!()
}

/// Takes the oldest number, or returns None after `tries` tries, each of which found none. Between two tries
/// another thread may run. A try has the steps of one pop (by no clause). Where the queue has no capacity it
/// returns None, and nothing changes. This project's own.
pub fn pop_overflowing_within(
    rt: &impl Wait,
    consumer: &mut Consumer<'_>,
    tries: u64,
) -> Option<u64>
    ensures queue { consumer_queue consumer.new ≡ consumer_queue consumer.old }
    ensures share { (consumer_view consumer.new).share ≡ (consumer_view consumer.old).share }
    ensures taken { IfSome result
        (λ x. WasTakenWithin tries (Index x) (consumer_view consumer.old) (consumer_view consumer.new)) }
    ensures empty { 0 < (consumer_queue consumer.old).capacity
        → IfNone result (Times tries PopFoundNone (consumer_view consumer.old) (consumer_view consumer.new)) }
    ensures none { (consumer_queue consumer.old).capacity ≡ 0 → result ≡ None }
    ensures still { (consumer_queue consumer.old).capacity ≡ 0 → consumer_view consumer.new ≡ consumer_view consumer.old }
{
    for _empty in 0..tries {
        match consumer.pop(rt) {
            Some(number) => return Some(number),
            None => thread::yield_now(),
        }
    }
    None
}
