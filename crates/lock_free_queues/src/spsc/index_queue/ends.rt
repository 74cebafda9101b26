//! The calls of the guards of a queue of numbers: `push`, `pop` and `peek`.
ghost use Rattle.std.specs.Prelude.{IsTrue, IsFalse, IfSome, IfNone};
ghost use Rattle.std.specs.Option.{option_map};
ghost use Rattle.model.specs.declared.event.Item.TheVariants.{Index};
ghost use Rattle.history.specs.Steps.{TakesAtMost};
ghost use Rattle.lock_free_queues.specs.Queues.Calls.{producer_queue, producer_view, consumer_view, SameProducer, SameConsumer};
ghost use Rattle.lock_free_queues.specs.Queues.Contracts.{PushDone, PushRefused, PopDone, PopEmpty, HasPeeked};

use super::{Consumer, Producer};

impl<'a> Producer<'a> {
    /// Appends a number and returns true, or false if the queue is full or its write position u64::MAX. At most 4
    /// atomic steps. After `Producer::push` of the Rust crate.
    pub fn push(&mut self, value: u64) -> bool
        ensures same { SameProducer self.old self.new }
        ensures pushed { IsTrue result → PushDone (Index value) (producer_view self.old) (producer_view self.new) }
        ensures full { IsFalse result → PushRefused (producer_queue self.old).capacity (Index value)
            (producer_view self.old) (producer_view self.new) }
        ensures steps { TakesAtMost 4 (producer_view self.old) (producer_view self.new) }
    {
        self.token.push(value)
    }
}

impl<'a> Consumer<'a> {
    /// Takes the oldest number and returns it, or returns None where the queue is empty. At most 4 atomic steps. After
    /// `Consumer::pop` of the Rust crate.
    pub fn pop(&mut self) -> Option<u64>
        ensures same { SameConsumer self.old self.new }
        ensures popped { IfSome result (λ x. PopDone (Index x) (consumer_view self.old) (consumer_view self.new)) }
        ensures empty { IfNone result (PopEmpty (consumer_view self.old) (consumer_view self.new)) }
        ensures steps { TakesAtMost 4 (consumer_view self.old) (consumer_view self.new) }
    {
        self.token.pop()
    }

    /// Returns the oldest number, which stays, or None where the queue is empty. So a pop right after it returns the same
    /// number, if there is one. At most 3 atomic steps. This project's own.
    pub fn peek(&mut self) -> Option<u64>
        ensures same { SameConsumer self.old self.new }
        ensures peeked { HasPeeked (option_map Index result) (consumer_view self.old) (consumer_view self.new) }
        ensures steps { TakesAtMost 3 (consumer_view self.old) (consumer_view self.new) }
    {
        self.token.peek()
    }
}
