//! The ends of a stream: a queue of values between one sender and one receiver, whose end is an element of its own. So the end is in
//! the same history as the values.
ghost use Rattle.std.specs.Prelude.{◌≡◌, true};
ghost use Rattle.uses_streams.specs.Streams.{has_values, pushed_by, popped_by, OnlyPushes, OnlyPops, CameUpTo};
ghost use Rattle.lock_free_queues.specs.Queues.Rings.{producer_view, consumer_view, view};

use crate::element::Element;
use lock_free_queues::spsc::queue::{Consumer, Pass, Producer};
use steps::words::Words;

mod calls;
mod debug;
mod tries;
mod values;
mod waits;

pub use calls::{both_ends, halves};
pub use values::Values;
pub use waits::Takes;

/// The end that sends. Where it is dropped, it sends the end of the stream if there is room (no clause says so). If there is none, no
/// end comes.
pub struct Sender<'a, T: Copy>
where
    Element<T>: Words,
{
    producer: Producer<'a, Element<T>>,
    ghost alone: { OnlyPushes (producer_view producer) },
    ghost unended: { has_values (pushed_by (producer_view producer)) ≡ true },
}

/// What a sender that has ended leaves: its pass of the queue, for `Sent::join`.
pub struct Sent<T: Copy>
where
    Element<T>: Words,
{
    pass: Pass<Element<T>>,
    ghost alone: { OnlyPushes (view pass) },
}

/// The end that receives.
pub struct Receiver<'a, T: Copy>
where
    Element<T>: Words,
{
    consumer: Consumer<'a, Element<T>>,
    ended: bool,
    ghost alone: { OnlyPops (consumer_view consumer) },
    ghost came: { CameUpTo ended (popped_by (consumer_view consumer)) },
}

/// What a receiver that has ended leaves: its pass of the queue, for `Sent::join`.
pub struct Received<T: Copy>
where
    Element<T>: Words,
{
    pass: Pass<Element<T>>,
    ghost alone: { OnlyPops (view pass) },
}

/// What a receiver finds: the next value, the end, or nothing yet.
#[derive(Debug, Clone, Copy, PartialEq, Eq)]
pub enum Arrival<T> {
    /// The next value.
    Value(T),
    /// Nothing yet.
    Nothing,
    /// The end. No value comes after it.
    End,
}

impl<'a, T: Copy> Drop for Sender<'a, T>
where
    Element<T>: Words,
{
    fn drop(self) {
        let Self { mut producer } = self;
        let _ = producer.push(&Element::End);
    }
}

impl<T: Copy> Drop for Sent<T>
where
    Element<T>: Words,
{
    fn drop(self) {
        let Self { pass: _pass } = self;
    }
}

impl<'a, T: Copy> Drop for Receiver<'a, T>
where
    Element<T>: Words,
{
    fn drop(self) {
        let Self {
            consumer: _consumer,
            ended: _,
        } = self;
    }
}

impl<T: Copy> Drop for Received<T>
where
    Element<T>: Words,
{
    fn drop(self) {
        let Self { pass: _pass } = self;
    }
}
