//! The calls of the guards of a queue of values: `push`, `pop` and `peek`.
ghost use Rattle.std.specs.Prelude.{◌+◌, IsTrue, IsFalse, IfSome, IfNone};
ghost use Rattle.std.specs.Option.{option_map};
ghost use Rattle.model.specs.declared.event.Item.TheVariants.{Value};
ghost use Rattle.history.specs.Steps.{TakesAtMost};
ghost use Rattle.lock_free_queues.specs.Queues.Values.{producer_queue, producer_view, consumer_view, SameProducer, SameConsumer};
ghost use Rattle.lock_free_queues.specs.Queues.Contracts.{PushDone, PushRefused, PopDone, PopEmpty, HasPeeked};

use super::{Consumer, Producer};
use steps::words::Words;

impl<'a, T: Words> Producer<'a, T> {
    /// Appends a value and returns true, or false if the queue is full or its write position u64::MAX. At most 3 +
    /// `T::WORDS` atomic steps. After `Producer::push` of the Rust crate.
    pub fn push(&mut self, value: &T) -> bool
        ensures same { SameProducer self.old self.new }
        ensures pushed { IsTrue result → PushDone (Value value.now) (producer_view self.old) (producer_view self.new) }
        ensures full { IsFalse result → PushRefused (producer_queue self.old).capacity (Value value.now)
            (producer_view self.old) (producer_view self.new) }
        ensures steps { TakesAtMost (3 + T.WORDS) (producer_view self.old) (producer_view self.new) }
    {
        self.token.push(value)
    }
}

impl<'a, T: Words> Consumer<'a, T> {
    /// Takes the oldest value and returns it, or returns None where the queue is empty. At most 3 + `T::WORDS` atomic
    /// steps. After `Consumer::pop` of the Rust crate.
    pub fn pop(&mut self) -> Option<T>
        ensures same { SameConsumer self.old self.new }
        ensures popped { IfSome result (λ x. PopDone (Value x) (consumer_view self.old) (consumer_view self.new)) }
        ensures empty { IfNone result (PopEmpty (consumer_view self.old) (consumer_view self.new)) }
        ensures steps { TakesAtMost (3 + T.WORDS) (consumer_view self.old) (consumer_view self.new) }
    {
        self.token.pop()
    }

    /// Returns the oldest value, which stays, or None where the queue is empty. So a pop right after it returns the same
    /// value, if there is one. At most 2 + `T::WORDS` atomic steps. This project's own.
    pub fn peek(&mut self) -> Option<T>
        ensures same { SameConsumer self.old self.new }
        ensures peeked { HasPeeked (option_map Value result) (consumer_view self.old) (consumer_view self.new) }
        ensures steps { TakesAtMost (2 + T.WORDS) (consumer_view self.old) (consumer_view self.new) }
    {
        self.token.peek()
    }
}
