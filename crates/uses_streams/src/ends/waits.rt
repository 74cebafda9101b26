//! The calls of a stream's ends that wait for room, for a value or for the end. Between two tries another
//! thread may run.
ghost use Rattle.std.specs.Prelude.{◌≡◌, ◌++◌, ◌∷◌, [], List, true, is_none, IsTrue, IfSome, IfNone, OnOk};
ghost use Rattle.uses_streams.specs.Ends.{sender_queue, receiver_queue, sent_queue, GainAlike};
ghost use Rattle.uses_streams.specs.Ends.{sent_so_far, received_so_far, sent, has_finished, has_finished_once, is_at_end};

use super::{Arrival, Receiver, Sender, Sent};
use crate::element::Element;
use std::alloc::AllocError;
use std::sync::Wait;
use std::thread;
use steps::words::Words;

/// A worker that is handed values one after the other. Its ghost fact says what is known of it once it has
/// taken a list of them.
pub trait Takes<T> {
    ghost has_taken: { List T → Self → Type 0 };

    /// Takes a value. False where it can take no more.
    fn take(&mut self, value: T) -> bool
        ensures { IsTrue result → (xs : List T) → Self.has_taken xs self.old → Self.has_taken (xs ++ value ∷ []) self.new };
}

impl<'a, T: Copy> Sender<'a, T>
where
    Element<T>: Words,
{
    /// Sends a value as soon as there is room. It waits for good where the queue has no places or its write position is at its end,
    /// and it may where nobody receives any more.
    pub fn send_waiting(&mut self, rt: &impl Wait, value: T)
        ensures queue { sender_queue self.new ≡ sender_queue self.old }
        ensures sent { sent_so_far self.new ≡ sent_so_far self.old ++ value ∷ [] }
    {
        for _ in rt.forever() {
            if self.send(value) {
                return;
            }
            thread::yield_now();
        }
        unreachable!()
    }

    /// Sends all values of a slice in order, each as soon as there is room. It waits as `send_waiting` does.
    pub fn send_all(&mut self, rt: &impl Wait, values: &[T])
        ensures queue { sender_queue self.new ≡ sender_queue self.old }
        ensures sent { sent_so_far self.new ≡ sent_so_far self.old ++ values.now }
    {
        for value in values {
            self.send_waiting(rt, *value);
        }
    }

    /// Sends the end as soon as there is room, once and after all values. It waits for good where the queue has no places or its
    /// write position is at its end, and it may where nobody receives any more.
    pub fn finish_waiting(self, rt: &impl Wait) -> Sent<T>
        ensures queue { sent_queue result ≡ sender_queue self.entry }
        ensures sent { sent result ≡ sent_so_far self.entry }
        ensures finished { has_finished result ≡ true }
        ensures end { has_finished_once result ≡ true }
    {
        let Sender { mut producer } = self;
        for _ in rt.forever() {
            if producer.push(&Element::End) {
                let pass = producer.release();
                return Sent { pass };
            }
            thread::yield_now();
        }
        unreachable!()
    }
}

impl<'a, T: Copy> Receiver<'a, T>
where
    Element<T>: Words,
{
    /// Receives the next value as soon as it is there, or None at the end. Where no value comes and no end it waits for good.
    pub fn receive_waiting(&mut self, rt: &impl Wait) -> Option<T>
        ensures queue { receiver_queue self.new ≡ receiver_queue self.old }
        ensures value { IfSome result (λ x. received_so_far self.new ≡ received_so_far self.old ++ x ∷ []) }
        ensures none { IfNone result (received_so_far self.new ≡ received_so_far self.old) }
        ensures end { is_at_end self.new ≡ is_none result }
    {
        for _ in rt.forever() {
            match self.receive() {
                Arrival::Value(value) => return Some(value),
                Arrival::End => return None,
                Arrival::Nothing => thread::yield_now(),
            }
        }
        unreachable!()
    }

    /// Receives into a vector all values until the end, each as soon as it is there. Before it receives it
    /// makes room for one more. Err where there is no memory for that; then all that was received is in the
    /// vector, and a later call can go on. Where no value comes and no end it waits for good.
    pub fn receive_all(&mut self, rt: &impl Wait, values: &mut Vec<T>) -> Result<(), AllocError>
        ensures queue { receiver_queue self.new ≡ receiver_queue self.old }
        ensures came { GainAlike (received_so_far self.old) (received_so_far self.new) values.old.items values.new.items }
        ensures end { OnOk result (is_at_end self.new ≡ true) }
    {
        for _ in rt.forever() {
            values.reserve(1)?;
            match self.receive_waiting(rt) {
                Some(value) => values.push_reserved(value),
                None => return Ok(()),
            }
        }
        unreachable!()
    }

    /// Receives all values until the end, and hands each to the worker as it comes. True once the end came: then the worker has taken
    /// all that was received, in order. False where the worker did not take the value that came last (no clause says that it is
    /// the last), and a later call can go on. Where no value comes and no end it waits for good.
    pub fn receive_each<W: Takes<T>>(&mut self, rt: &impl Wait, worker: &mut W) -> bool
        ensures queue { receiver_queue self.new ≡ receiver_queue self.old }
        ensures taken { IsTrue result
            → W.has_taken (received_so_far self.old) worker.old → W.has_taken (received_so_far self.new) worker.new }
        ensures end { IsTrue result → is_at_end self.new ≡ true }
    {
        for _ in rt.forever() {
            let Some(value) = self.receive_waiting(rt) else {
                return true;
            };
            if !worker.take(value) {
                return false;
            }
        }
        unreachable!()
    }
}
