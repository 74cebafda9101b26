//! The ends of queues, as what can be tried.
ghost use Rattle.std.specs.Prelude.{◌≡◌, ◌<◌};
ghost use Rattle.model.specs.declared.event.Item.TheVariants.{Index, Value};
ghost use Rattle.lock_free_queues.specs.Queues.Contracts.{PushDone, PushRefused, PopDone, PopEmpty, PopOldest, PopFoundNone};
ghost use Rattle.lock_free_queues.specs.Queues.Rings.{producer_queue, producer_view, consumer_queue, consumer_view};
ghost use Rattle.lock_free_queues.specs.Queues.Rings.{SameProducer, SameConsumer, SameConsumerByCapacity};

use crate::waits::{Puts, Tries};
use lock_free_queues::spsc::ring::rule::{Numbers, Overflowing, Values};
use lock_free_queues::spsc::ring::{Consumer, Producer};
use std::sync::Wait;
use steps::words::Words;

impl<'a> Tries<u64> for Consumer<'a, Numbers, u64> {
    ghost came = { λ x old new. SameConsumer old new × PopDone (Index x) (consumer_view old) (consumer_view new) };

    ghost nothing = { λ old new. SameConsumer old new × PopEmpty (consumer_view old) (consumer_view new) };

    fn try_once(&mut self, _rt: &impl Wait) -> Option<u64> {
        self.pop()
    }
}

impl<'a, T: Words> Tries<T> for Consumer<'a, Values, T> {
    ghost came = { λ x old new. SameConsumer old new × PopDone (Value x) (consumer_view old) (consumer_view new) };

    ghost nothing = { λ old new. SameConsumer old new × PopEmpty (consumer_view old) (consumer_view new) };

    fn try_once(&mut self, _rt: &impl Wait) -> Option<T> {
        self.pop()
    }
}

/// A queue without a capacity brings nothing. Of a try of it is known only that the consumer stays of its queue.
impl<'a> Tries<u64> for Consumer<'a, Overflowing, u64> {
    ghost came = { λ x old new. SameConsumerByCapacity old new × PopOldest (Index x) (consumer_view old) (consumer_view new) };

    ghost nothing = { λ old new. SameConsumerByCapacity old new
        × (0 < (consumer_queue old).capacity → PopFoundNone (consumer_view old) (consumer_view new)) };

    fn try_once(&mut self, rt: &impl Wait) -> Option<u64> {
        self.pop(rt)
    }
}

impl<'a> Puts<u64> for Producer<'a, Numbers, u64> {
    ghost was_put = { λ x old new. SameProducer old new × PushDone (Index x) (producer_view old) (producer_view new) };

    ghost refused = { λ x old new. SameProducer old new
        × PushRefused (producer_queue old).capacity (Index x) (producer_view old) (producer_view new) };

    fn put_once(&mut self, value: &u64) -> bool {
        self.push(*value)
    }
}

impl<'a, T: Words> Puts<T> for Producer<'a, Values, T> {
    ghost was_put = { λ x old new. SameProducer old new × PushDone (Value x) (producer_view old) (producer_view new) };

    ghost refused = { λ x old new. SameProducer old new
        × PushRefused (producer_queue old).capacity (Value x) (producer_view old) (producer_view new) };

    fn put_once(&mut self, value: &T) -> bool {
        self.push(value)
    }
}
