//! Calls of an overflowing queue's consumer in `uses_streams`, each with the clauses that no test uses, so
//! that no clause can go out of a call unnoticed.
ghost use Rattle.std.specs.Prelude.{◌≡◌, ◌<◌, ℕ, None, IfSome, IfNone};
ghost use Rattle.model.specs.declared.event.Item.TheVariants.{Index};
ghost use Rattle.lock_free_queues.specs.Queues.Contracts.{PopFoundNone};
ghost use Rattle.lock_free_queues.specs.Queues.Overflowing.{consumer_queue, consumer_view};
ghost use Rattle.uses_streams.specs.Tries.{Times, WasTakenWithin};

use lock_free_queues::spsc::safely_overflowing_index_queue::Consumer;
use std::sync::Wait;
use uses_streams::queues;

/// A pop that waits takes the number that it answers as the oldest one, after tries that found none.
pub fn pop_overflowing_waiting(rt: &impl Wait, consumer: &mut Consumer<'_>) -> u64
    ensures queue { consumer_queue consumer.new ≡ consumer_queue consumer.old }
    ensures share { (consumer_view consumer.new).share ≡ (consumer_view consumer.old).share }
    ensures taken { (tries : ℕ) × WasTakenWithin tries (Index result) (consumer_view consumer.old) (consumer_view consumer.new) }
{
    queues::pop_overflowing_waiting(rt, consumer)
}

/// A pop with a limit of tries took what it answers as the oldest number, by the last of at most `tries`
/// tries, or each of them found none. Without capacity it answers None and the pass learns nothing.
pub fn pop_overflowing_within(
    rt: &impl Wait,
    consumer: &mut Consumer<'_>,
    tries: u64,
) -> Option<u64>
    ensures queue { consumer_queue consumer.new ≡ consumer_queue consumer.old }
    ensures share { (consumer_view consumer.new).share ≡ (consumer_view consumer.old).share }
    ensures taken { IfSome result
        (λ x. WasTakenWithin tries (Index x) (consumer_view consumer.old) (consumer_view consumer.new)) }
    ensures empty { 0 < (consumer_queue consumer.old).capacity
        → IfNone result (Times tries PopFoundNone (consumer_view consumer.old) (consumer_view consumer.new)) }
    ensures none { (consumer_queue consumer.old).capacity ≡ 0 → result ≡ None }
    ensures still { (consumer_queue consumer.old).capacity ≡ 0 → consumer_view consumer.new ≡ consumer_view consumer.old }
{
    queues::pop_overflowing_within(rt, consumer, tries)
}
