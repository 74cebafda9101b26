//! The calls of a queue's consumer that pop many values, that wait for one, or that try up to a limit.
ghost use Rattle.std.specs.Prelude.{◌≡◌, ◌≤◌, ◌+◌, ◌*◌, ◌∷◌, [], take, drop, length, IfSome, IfNone};
ghost use Rattle.history.specs.Steps.{TakesAtMost};
ghost use Rattle.lock_free_queues.specs.Queues.Relays.{Receiving};
ghost use Rattle.lock_free_queues.specs.Queues.Rings.{consumer_view};
ghost use Rattle.uses_streams.specs.Tries.{WereEmpty, WasPoppedWithin, WerePoppedUpTo};

use super::BoundedKind;
use lock_free_queues::spsc::ring::Consumer;
use std::sync::Wait;
use std::thread;
use steps::words::Words;

/// Pops into a slice, in order, until it is full or the queue is found empty. Returns how many came: they are
/// the first ones of the slice, and the rest of the slice stays as it was. At most the atomic steps of that
/// many pops, and of one more.
pub fn pop_all<E: BoundedKind<T>, T: Words>(
    consumer: &mut Consumer<'_, E, T>,
    values: &mut [T],
) -> usize
    ensures few { result ≤ length values.old }
    ensures received { Receiving E.named consumer.old (take result values.new) consumer.new }
    ensures rest { drop result values.new ≡ drop result values.old }
    ensures tried { WerePoppedUpTo E.named (take result values.new) (drop result values.new)
        (consumer_view consumer.old) (consumer_view consumer.new) }
    ensures steps { TakesAtMost ((result + 1) * E.most_steps) (consumer_view consumer.old) (consumer_view consumer.new) }
{
    for count in 0..values.len() {
        match E::pop(consumer) {
            Some(value) => values[count] = value,
            None => return count,
        }
    }
    values.len()
}

/// Pops a value as soon as there is one. Between two tries another thread may run. Where no value comes it
/// waits for good.
pub fn pop_waiting<E: BoundedKind<T>, T: Words>(
    rt: &impl Wait,
    consumer: &mut Consumer<'_, E, T>,
) -> T
    ensures { Receiving E.named consumer.old (result ∷ []) consumer.new }
{
    for _ in rt.forever() {
        match E::pop(consumer) {
            Some(value) => return value,
            None => thread::yield_now(),
        }
    }
    unreachable!()
}

/// Pops a value, or returns None after `tries` tries, each of which found the queue empty. Between two tries
/// another thread may run. A try has the steps of one pop.
pub fn pop_within<E: BoundedKind<T>, T: Words>(
    consumer: &mut Consumer<'_, E, T>,
    tries: u64,
) -> Option<T>
    ensures received { IfSome result (λ x. Receiving E.named consumer.old (x ∷ []) consumer.new) }
    ensures popped { IfSome result
        (λ x. WasPoppedWithin tries (E.named x) (consumer_view consumer.old) (consumer_view consumer.new)) }
    ensures same { IfNone result (Receiving E.named consumer.old [] consumer.new) }
    ensures empty { IfNone result (WereEmpty tries (consumer_view consumer.old) (consumer_view consumer.new)) }
    ensures steps { TakesAtMost (tries * E.most_steps) (consumer_view consumer.old) (consumer_view consumer.new) }
{
    for _empty in 0..tries {
        match E::pop(consumer) {
            Some(value) => return Some(value),
            None => thread::yield_now(),
        }
    }
    None
}
