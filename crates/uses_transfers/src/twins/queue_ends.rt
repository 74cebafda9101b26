//! Calls of a plain queue's ends (`uses_streams::queues`) once more, at the queue of numbers, each with the
//! clauses that the program has no use for.
ghost use Rattle.std.specs.Prelude.{◌≡◌, ◌≤◌, ◌+◌, ◌*◌, ◌∷◌, [], take, drop, length, IsTrue, IsFalse, IfSome, IfNone};
ghost use Rattle.model.specs.declared.event.Item.TheVariants.{Index};
ghost use Rattle.history.specs.Steps.{TakesAtMost};
ghost use Rattle.lock_free_queues.specs.Queues.Relays.{Sending, Receiving};
ghost use Rattle.lock_free_queues.specs.Queues.Rings.{producer_queue, producer_view, consumer_view};
ghost use Rattle.uses_streams.specs.Tries.{WereRefused, WereEmpty, WasPushedWithin, WasPoppedWithin, WerePushedUpTo, WerePoppedUpTo};

use lock_free_queues::spsc::index_queue::{Consumer, Producer};
use std::sync::Wait;
use uses_streams::queues;

/// The first numbers go in, each by a push of its own, until one is refused.
pub fn push_all(producer: &mut Producer<'_>, numbers: &[u64]) -> usize
    ensures few { result ≤ length numbers.now }
    ensures sent { Sending Index producer.old (take result numbers.now) producer.new }
    ensures tried { WerePushedUpTo Index (producer_queue producer.old).capacity result numbers.now
        (producer_view producer.old) (producer_view producer.new) }
    ensures steps { TakesAtMost ((result + 1) * 4) (producer_view producer.old) (producer_view producer.new) }
{
    queues::push_all(producer, numbers)
}

/// `push_waiting` pushes this number, and no other.
pub fn push_waiting(rt: &impl Wait, producer: &mut Producer<'_>, number: u64)
    ensures { Sending Index producer.old (number ∷ []) producer.new }
{
    queues::push_waiting(rt, producer, &number);
}

/// A number is pushed by the last of at most `tries` tries, or each of `tries` tries was refused.
pub fn push_within(producer: &mut Producer<'_>, number: u64, tries: u64) -> bool
    ensures sent { IsTrue result → Sending Index producer.old (number ∷ []) producer.new }
    ensures pushed { IsTrue result → WasPushedWithin tries (producer_queue producer.old).capacity (Index number)
        (producer_view producer.old) (producer_view producer.new) }
    ensures same { IsFalse result → Sending Index producer.old [] producer.new }
    ensures full { IsFalse result → WereRefused tries (producer_queue producer.old).capacity (Index number)
        (producer_view producer.old) (producer_view producer.new) }
    ensures steps { TakesAtMost (tries * 4) (producer_view producer.old) (producer_view producer.new) }
{
    queues::push_within(producer, &number, tries)
}

/// What comes are the first numbers of the room, each by a pop of its own, until it is full or the queue is empty.
pub fn pop_all(consumer: &mut Consumer<'_>, room: &mut [u64]) -> usize
    ensures few { result ≤ length room.old }
    ensures received { Receiving Index consumer.old (take result room.new) consumer.new }
    ensures rest { drop result room.new ≡ drop result room.old }
    ensures tried { WerePoppedUpTo Index (take result room.new) (drop result room.new)
        (consumer_view consumer.old) (consumer_view consumer.new) }
    ensures steps { TakesAtMost ((result + 1) * 4) (consumer_view consumer.old) (consumer_view consumer.new) }
{
    queues::pop_all(consumer, room)
}

/// `pop_waiting` pops the number that it returns, and no other.
pub fn pop_waiting(rt: &impl Wait, consumer: &mut Consumer<'_>) -> u64
    ensures { Receiving Index consumer.old (result ∷ []) consumer.new }
{
    queues::pop_waiting(rt, consumer)
}

/// What comes was popped by the last of at most `tries` tries, or each of `tries` tries
/// found the queue empty.
pub fn pop_within(consumer: &mut Consumer<'_>, tries: u64) -> Option<u64>
    ensures received { IfSome result (λ x. Receiving Index consumer.old (x ∷ []) consumer.new) }
    ensures popped { IfSome result
        (λ x. WasPoppedWithin tries (Index x) (consumer_view consumer.old) (consumer_view consumer.new)) }
    ensures same { IfNone result (Receiving Index consumer.old [] consumer.new) }
    ensures empty { IfNone result (WereEmpty tries (consumer_view consumer.old) (consumer_view consumer.new)) }
    ensures steps { TakesAtMost (tries * 4) (consumer_view consumer.old) (consumer_view consumer.new) }
{
    queues::pop_within(consumer, tries)
}
