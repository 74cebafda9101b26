//! The push and the pop of the guards of an overflowing queue. At capacity 0 they take no
//! step, and nothing changes.
ghost use Rattle.std.specs.Prelude.{◌≡◌, ◌+◌, ◌<◌, ◌≤◌, Some, None, IfSome, IfNone};
ghost use Rattle.model.specs.declared.event.Item.TheVariants.{Index};
ghost use Rattle.history.specs.Steps.{TakesAtMost, TakesAlone};
ghost use Rattle.lock_free_queues.specs.Queues.Overflowing.{producer_queue, producer_view, consumer_queue, consumer_view};
ghost use Rattle.lock_free_queues.specs.Queues.Overflowing.{PushAdded, PushHandedBack, SameProducerByCapacity, SameConsumerByCapacity};
ghost use Rattle.lock_free_queues.specs.Queues.Contracts.{PopOldest, PopFoundNone};

use super::{Consumer, Producer};
use std::sync::Wait;

impl<'a> Producer<'a> {
    /// Appends a number, and returns the oldest one if the queue is full, else None. At most the
    /// capacity waits once it has returned. The number itself comes back, and nothing is published,
    /// without capacity or where the write position is u64::MAX. At most 6 atomic steps. After
    /// `Producer::push` of the Rust crate.
    pub fn push(&mut self, value: u64) -> Option<u64>
        ensures same { SameProducerByCapacity self.old self.new }
        ensures aside { (producer_view self.new).aside ≤ (producer_view self.old).aside + 1 }
        ensures added { IfNone result (PushAdded value (producer_view self.old) (producer_view self.new)) }
        ensures handed_back { IfSome result (λ back. PushHandedBack (producer_queue self.old).capacity value back
            (producer_view self.old) (producer_view self.new)) }
        ensures own { (producer_queue self.old).capacity ≡ 0 → result ≡ Some value }
        ensures steps { TakesAtMost 6 (producer_view self.old) (producer_view self.new) }
    {
        if self.token.capacity == 0 {
            Some(value)
        } else {
            self.token.push(value)
        }
    }
}

impl<'a> Consumer<'a> {
    /// Takes the oldest number and returns it, or returns None where the queue is empty. At most 4 atomic steps, and 2
    /// more for each change of a word of the queue by others during the call. After `Consumer::pop` of the Rust crate.
    pub fn pop(&mut self, rt: &impl Wait) -> Option<u64>
        ensures same { SameConsumerByCapacity self.old self.new }
        ensures aside { (consumer_view self.new).aside ≤ (consumer_view self.old).aside + 1 }
        ensures popped { IfSome result (λ x. PopOldest (Index x) (consumer_view self.old) (consumer_view self.new)) }
        ensures empty { 0 < (consumer_queue self.old).capacity
            → IfNone result (PopFoundNone (consumer_view self.old) (consumer_view self.new)) }
        ensures none { (consumer_queue self.old).capacity ≡ 0 → result ≡ None }
        ensures steps { 0 < (consumer_queue self.old).capacity → TakesAlone 4 2 (consumer_view self.old) (consumer_view self.new) }
    {
        if self.token.capacity == 0 {
            None
        } else {
            self.token.pop(rt)
        }
    }
}
