//! The calls of a stream's ends that try up to a limit, and so end in any case. After each try that fails
//! another thread may run.
ghost use Rattle.std.specs.Prelude.{◌≡◌, ◌++◌, ◌∷◌, [], ◌+◌, ◌*◌, true, IsTrue, IsFalse, IfOk, IfErr};
ghost use Rattle.model.specs.declared.event.Item.TheVariants.{Value};
ghost use Rattle.history.specs.Steps.{TakesAtMost};
ghost use Rattle.uses_streams.specs.Ends.{arrived, is_end, IfNothing, IfValue, sender_view, receiver_view, sent_view};
ghost use Rattle.uses_streams.specs.Ends.{sender_words, receiver_words};
ghost use Rattle.uses_streams.specs.Ends.{sender_queue, receiver_queue, sent_queue};
ghost use Rattle.uses_streams.specs.Ends.{sent_so_far, received_so_far, sent, has_finished, has_finished_once, is_at_end};
ghost use Rattle.uses_streams.specs.Tries.{WereRefused, WereEmpty, WasPushedWithin, WasPoppedWithin};

use super::{Arrival, Receiver, Sender, Sent};
use crate::element::Element;
use std::thread;
use steps::words::Words;

impl<'a, T: Copy> Sender<'a, T>
where
    Element<T>: Words,
{
    /// Sends a value and returns true. Or returns false after `tries` tries, each of which was
    /// refused, since the queue was full or its write position is at its end. Then nothing was sent. A
    /// try has the steps of `send`.
    pub fn send_within(&mut self, value: T, tries: u64) -> bool
        ensures queue { sender_queue self.new ≡ sender_queue self.old }
        ensures sent { IsTrue result → sent_so_far self.new ≡ sent_so_far self.old ++ value ∷ [] }
        ensures pushed { IsTrue result → WasPushedWithin tries (sender_queue self.old).capacity (Value (Element.Value value))
            (sender_view self.old) (sender_view self.new) }
        ensures same { IsFalse result → sent_so_far self.new ≡ sent_so_far self.old }
        ensures full { IsFalse result → WereRefused tries (sender_queue self.old).capacity (Value (Element.Value value))
            (sender_view self.old) (sender_view self.new) }
        ensures steps { TakesAtMost (tries * (3 + sender_words self.old)) (sender_view self.old) (sender_view self.new) }
    {
        for _refused in 0..tries {
            if self.send(value) {
                return true;
            }
            thread::yield_now();
        }
        false
    }

    /// Sends the end, once and after all values, and gives the role back. Or the sender comes back after
    /// `tries` tries, each of which was refused, since the queue was full or its write position is at its
    /// end. A try has the steps of `send`, and there is one more where the role is given back.
    pub fn finish_within(self, tries: u64) -> Result<Sent<T>, Sender<'a, T>>
        ensures queue { IfOk result (λ s. sent_queue s ≡ sender_queue self.entry) }
        ensures sent { IfOk result (λ s. sent s ≡ sent_so_far self.entry) }
        ensures finished { IfOk result (λ s. has_finished s ≡ true) }
        ensures end { IfOk result (λ s. has_finished_once s ≡ true) }
        ensures still { IfErr result (λ s. sender_queue s ≡ sender_queue self.entry) }
        ensures same { IfErr result (λ s. sent_so_far s ≡ sent_so_far self.entry) }
        ensures full { IfErr result (λ s. WereRefused tries (sender_queue self.entry).capacity (Value Element.End)
            (sender_view self.entry) (sender_view s)) }
        ensures steps { IfOk result (λ s. TakesAtMost (tries * (3 + sender_words self.entry) + 1) (sender_view self.entry) (sent_view s)) }
        ensures tried { IfErr result (λ s. TakesAtMost (tries * (3 + sender_words self.entry)) (sender_view self.entry) (sender_view s)) }
    {
        let Sender { mut producer } = self;
        for _refused in 0..tries {
            if producer.push(&Element::End) {
                let pass = producer.release();
                return Ok(Sent { pass });
            }
            thread::yield_now();
        }
        Err(Sender { producer })
    }
}

impl<'a, T: Copy> Receiver<'a, T>
where
    Element<T>: Words,
{
    /// Receives the next value or the end, or nothing after `tries` tries, each of which found the queue
    /// empty. Each try is a `receive`. Once the end came it comes again, whatever the number of tries, and
    /// nothing is popped any more.
    pub fn receive_within(&mut self, tries: u64) -> Arrival<T>
        ensures queue { receiver_queue self.new ≡ receiver_queue self.old }
        ensures received { received_so_far self.new ≡ received_so_far self.old ++ arrived result }
        ensures end { is_at_end self.new ≡ is_end result }
        ensures again { is_at_end self.old ≡ true → is_end result ≡ true }
        ensures still { is_at_end self.old ≡ true → receiver_view self.new ≡ receiver_view self.old }
        ensures popped { IfValue result
            (λ x. WasPoppedWithin tries (Value (Element.Value x)) (receiver_view self.old) (receiver_view self.new)) }
        ensures nothing { IfNothing result (WereEmpty tries (receiver_view self.old) (receiver_view self.new)) }
        ensures steps { TakesAtMost (tries * (3 + receiver_words self.old)) (receiver_view self.old) (receiver_view self.new) }
    {
        if self.ended {
            return Arrival::End;
        }
        for _empty in 0..tries {
            match self.receive() {
                Arrival::Value(value) => return Arrival::Value(value),
                Arrival::End => return Arrival::End,
                Arrival::Nothing => thread::yield_now(),
            }
        }
        Arrival::Nothing
    }
}
