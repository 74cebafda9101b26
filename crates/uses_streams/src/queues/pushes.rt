//! The calls of a queue's producer that push many values, that wait for room, or that try up to a limit.
ghost use Rattle.std.specs.Prelude.{◌≤◌, ◌+◌, ◌*◌, ◌∷◌, [], take, length, IsTrue, IsFalse};
ghost use Rattle.history.specs.Steps.{TakesAtMost};
ghost use Rattle.lock_free_queues.specs.Queues.Relays.{Sending};
ghost use Rattle.lock_free_queues.specs.Queues.Rings.{producer_queue, producer_view};
ghost use Rattle.uses_streams.specs.Tries.{WereRefused, WasPushedWithin, WerePushedUpTo};

use super::BoundedKind;
use lock_free_queues::spsc::ring::Producer;
use std::sync::Wait;
use std::thread;
use steps::words::Words;

/// Pushes the values of a slice in order until one is refused, since the queue is full or its write position
/// at its end. Returns how many went in, the first `count` ones, so a later call can go on with
/// `&values[count..]`. At most the atomic steps of that many pushes, and of one more.
pub fn push_all<E: BoundedKind<T>, T: Words>(
    producer: &mut Producer<'_, E, T>,
    values: &[T],
) -> usize
    ensures few { result ≤ length values.now }
    ensures sent { Sending E.named producer.old (take result values.now) producer.new }
    ensures tried { WerePushedUpTo E.named (producer_queue producer.old).capacity result values.now
        (producer_view producer.old) (producer_view producer.new) }
    ensures steps { TakesAtMost ((result + 1) * E.most_steps) (producer_view producer.old) (producer_view producer.new) }
{
    for count in 0..values.len() {
        let value = values[count];
        if !E::push(producer, &value) {
            return count;
        }
    }
    values.len()
}

/// Pushes a value as soon as there is room. Between two tries another thread may run. It waits for good where
/// the queue has no places or its write position is at its end, and it may where nobody pops any more.
pub fn push_waiting<E: BoundedKind<T>, T: Words>(
    rt: &impl Wait,
    producer: &mut Producer<'_, E, T>,
    value: &T,
)
    ensures { Sending E.named producer.old (value.now ∷ []) producer.new }
{
    for _ in rt.forever() {
        if E::push(producer, value) {
            return;
        }
        thread::yield_now();
    }
    unreachable!()
}

/// Pushes a value and returns true. Or returns false after `tries` tries, each of which was refused, since
/// the queue was full or its write position is at its end. Then nothing was pushed. Between two tries another
/// thread may run. A try has the steps of one push.
pub fn push_within<E: BoundedKind<T>, T: Words>(
    producer: &mut Producer<'_, E, T>,
    value: &T,
    tries: u64,
) -> bool
    ensures sent { IsTrue result → Sending E.named producer.old (value.now ∷ []) producer.new }
    ensures pushed { IsTrue result → WasPushedWithin tries (producer_queue producer.old).capacity (E.named value.now)
        (producer_view producer.old) (producer_view producer.new) }
    ensures same { IsFalse result → Sending E.named producer.old [] producer.new }
    ensures full { IsFalse result → WereRefused tries (producer_queue producer.old).capacity (E.named value.now)
        (producer_view producer.old) (producer_view producer.new) }
    ensures steps { TakesAtMost (tries * E.most_steps) (producer_view producer.old) (producer_view producer.new) }
{
    for _refused in 0..tries {
        if E::push(producer, value) {
            return true;
        }
        thread::yield_now();
    }
    false
}
