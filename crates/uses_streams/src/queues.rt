//! Calls of a queue's ends that push or pop many values, that wait, or that try up to a limit. They are for
//! the queue of numbers and the queue of values, which refuse a push when they are full. Two calls are for
//! the consumer of an overflowing queue.
ghost use Rattle.std.specs.Prelude.{◌≡◌, ℕ, IsTrue, IsFalse, IfSome, IfNone};
ghost use Rattle.model.specs.declared.event.Item.{Item};
ghost use Rattle.history.specs.Steps.{TakesAtMost};
ghost use Rattle.lock_free_queues.specs.Queues.Contracts.{PushDone, PushRefused, PopDone, PopEmpty};
ghost use Rattle.lock_free_queues.specs.Queues.Rings.{producer_queue, producer_view, consumer_view, SameProducer, SameConsumer};

use lock_free_queues::spsc::ring::rule::{Kind, Numbers, Values};
use lock_free_queues::spsc::ring::{Consumer, Producer};
use steps::words::Words;

mod overflowing;
mod pops;
mod pushes;

pub use overflowing::{pop_overflowing_waiting, pop_overflowing_within};
pub use pops::{pop_all, pop_waiting, pop_within};
pub use pushes::{push_all, push_waiting, push_within};

/// A kind of queue that refuses a push when it is full, with its push and its pop.
pub trait BoundedKind<T: Words>: Kind + Sized {
    /// What a value is in the queue's history.
    ghost named: { T → Item T };

    /// How many atomic steps a push or a pop takes at most.
    ghost most_steps: { ℕ };

    /// Appends a value and returns true, or false if the queue is full or its write position u64::MAX.
    fn push(producer: &mut Producer<'_, Self, T>, value: &T) -> bool
        ensures same { SameProducer producer.old producer.new }
        ensures pushed { IsTrue result → PushDone (named value.now) (producer_view producer.old) (producer_view producer.new) }
        ensures full { IsFalse result → PushRefused (producer_queue producer.old).capacity (named value.now)
            (producer_view producer.old) (producer_view producer.new) }
        ensures steps { TakesAtMost most_steps (producer_view producer.old) (producer_view producer.new) };

    /// Takes the oldest value and returns it, or returns None where the queue is empty.
    fn pop(consumer: &mut Consumer<'_, Self, T>) -> Option<T>
        ensures same { SameConsumer consumer.old consumer.new }
        ensures popped { IfSome result (λ x. PopDone (named x) (consumer_view consumer.old) (consumer_view consumer.new)) }
        ensures empty { IfNone result (PopEmpty (consumer_view consumer.old) (consumer_view consumer.new)) }
        ensures steps { TakesAtMost most_steps (consumer_view consumer.old) (consumer_view consumer.new) };
}

impl BoundedKind<u64> for Numbers {
    ghost use Rattle.model.specs.declared.event.Item.TheVariants.{Index};

    ghost named = { λ x. Index x };

    ghost most_steps = { 4 };

    fn push(producer: &mut Producer<'_, Numbers, u64>, value: &u64) -> bool {
        producer.push(*value)
    }

    fn pop(consumer: &mut Consumer<'_, Numbers, u64>) -> Option<u64> {
        consumer.pop()
    }
}

impl<T: Words> BoundedKind<T> for Values {
    ghost use Rattle.std.specs.Prelude.{◌+◌};
    ghost use Rattle.model.specs.declared.event.Item.TheVariants.{Value};

    ghost named = { λ x. Value x };

    ghost most_steps = { 3 + T.WORDS };

    fn push(producer: &mut Producer<'_, Values, T>, value: &T) -> bool {
        producer.push(value)
    }

    fn pop(consumer: &mut Consumer<'_, Values, T>) -> Option<T> {
        consumer.pop()
    }
}
