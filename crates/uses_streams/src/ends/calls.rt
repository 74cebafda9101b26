//! The calls of a stream: how its ends are made, how values and the end are sent and received, and how both
//! ends are joined.
ghost use Rattle.std.specs.Prelude.{◌≡◌, ◌≤◌, ◌++◌, ◌∷◌, [], ◌+◌, ℕ, true, false, take, length, is_none};
ghost use Rattle.std.specs.Prelude.{IsTrue, IsFalse, IfOk, IfErr, IfSome, IfNone};
ghost use Rattle.model.specs.declared.event.Item.TheVariants.{Value};
ghost use Rattle.threaded.specs.Shares.{IsAll};
ghost use Rattle.history.specs.Steps.{TakesAtMost};
ghost use Rattle.history.specs.Views.{first_view};
ghost use Rattle.lock_free_queues.specs.Queues.Contracts.{PushDone, PushRefused, PopDone, PopEmpty};
ghost use Rattle.lock_free_queues.specs.Queues.Values.{queue_of, queue_id, inner, view, IsPassOf};
ghost use Rattle.uses_streams.specs.Ends.{arrival_of, arrived, is_end, IfNothing, IfValue};
ghost use Rattle.uses_streams.specs.Ends.{sender_view, receiver_view, sent_view, received_view, sender_words, receiver_words};
ghost use Rattle.uses_streams.specs.Ends.{sender_queue, receiver_queue, sent_queue, received_queue};
ghost use Rattle.uses_streams.specs.Ends.{sent_so_far, received_so_far, sent, received};
ghost use Rattle.uses_streams.specs.Ends.{has_finished, has_finished_once, is_at_end, has_ended};
ghost use Rattle.uses_streams.specs.Streams.{IsFreshHalf};

use super::{Arrival, Received, Receiver, Sender, Sent};
use crate::element::Element;
use lock_free_queues::spsc::queue::{Pass, Queue};
use steps::words::Words;

/// Splits the first pass of a queue into the halves that a sender and a receiver begin with. None where no further pass can be
/// counted (no clause says when), and the pass is gone then. At most one atomic step.
pub fn halves<T: Copy, const CAPACITY: usize>(
    pass: Pass<Element<T>>,
) -> Option<(Pass<Element<T>>, Pass<Element<T>>)>
where
    Element<T>: Words,
    requires { view pass ≡ first_view CAPACITY }
    ensures queue { IfSome result (λ r. (queue_of r.0 ≡ queue_of pass) × (queue_of r.1 ≡ queue_of pass)) }
    ensures fresh { IfSome result (λ r. IsFreshHalf (view r.0) × IsFreshHalf (view r.1)) }
    ensures steps { IfSome result (λ r. TakesAtMost 1 (view pass) (view r.0)) }
    ensures other { IfSome result (λ r. (view r.1).asked ≡ 0) }
{
    let mut mine = pass;
    let other = mine.split()?;
    Some((mine, other))
}

/// Both ends of a queue, by its first pass. None where no further pass can be counted (no clause says when), and the pass is gone
/// then. At most 3 atomic steps, two of the sender's half and one of the receiver's.
pub fn both_ends<'a, T: Copy, const CAPACITY: usize>(
    queue: &'a Queue<Element<T>, CAPACITY>,
    pass: Pass<Element<T>>,
) -> Option<(Sender<'a, T>, Receiver<'a, T>)>
where
    Element<T>: Words,
    requires pass { IsPassOf (inner queue.now) pass }
    requires first { view pass ≡ first_view CAPACITY }
    ensures sender { IfSome result (λ r. sender_queue r.0 ≡ queue_id (inner queue.now)) }
    ensures sent { IfSome result (λ r. sent_so_far r.0 ≡ []) }
    ensures receiver { IfSome result (λ r. receiver_queue r.1 ≡ queue_id (inner queue.now)) }
    ensures received { IfSome result (λ r. received_so_far r.1 ≡ []) }
    ensures end { IfSome result (λ r. is_at_end r.1 ≡ false) }
    ensures steps { IfSome result (λ r. TakesAtMost 2 (view pass) (sender_view r.0)) }
    ensures other { IfSome result (λ r. (receiver_view r.1).asked ≤ 1) }
{
    let (mine, other) = halves::<T, CAPACITY>(pass)?;
    let sender = Sender::new(queue, mine)?;
    let receiver = Receiver::new(queue, other)?;
    Some((sender, receiver))
}

impl<'a, T: Copy> Sender<'a, T>
where
    Element<T>: Words,
{
    /// Begins to send. None where another has the producer's role of the queue (no clause says when), and the half is gone then.
    /// At most one atomic step.
    pub fn new<const CAPACITY: usize>(
        queue: &'a Queue<Element<T>, CAPACITY>,
        half: Pass<Element<T>>,
    ) -> Option<Sender<'a, T>>
        requires pass { IsPassOf (inner queue.now) half }
        requires fresh { IsFreshHalf (view half) }
        ensures queue { IfSome result (λ s. sender_queue s ≡ queue_id (inner queue.now)) }
        ensures sent { IfSome result (λ s. sent_so_far s ≡ []) }
        ensures steps { IfSome result (λ s. TakesAtMost 1 (view half) (sender_view s)) }
    {
        let Ok(producer) = queue.acquire_producer(half) else {
            return None;
        };
        Some(Sender { producer })
    }

    /// Sends a value and returns true. Or returns false where the queue is full or its write position is at its end, and then
    /// nothing was sent. At most 3 atomic steps and one for each word of an element.
    pub fn send(&mut self, value: T) -> bool
        ensures queue { sender_queue self.new ≡ sender_queue self.old }
        ensures sent { IsTrue result → sent_so_far self.new ≡ sent_so_far self.old ++ value ∷ [] }
        ensures pushed { IsTrue result → PushDone (Value (Element.Value value)) (sender_view self.old) (sender_view self.new) }
        ensures same { IsFalse result → sent_so_far self.new ≡ sent_so_far self.old }
        ensures full { IsFalse result → PushRefused (sender_queue self.old).capacity (Value (Element.Value value))
            (sender_view self.old) (sender_view self.new) }
        ensures steps { TakesAtMost (3 + sender_words self.old) (sender_view self.old) (sender_view self.new) }
    {
        self.producer.push(&Element::Value(value))
    }

    /// Sends the end, once and after all values, and gives the role back. Where the queue is full, or its write position at its
    /// end, the sender comes back, to try again. The steps of `send`, and one more where it gives the role back.
    pub fn finish(self) -> Result<Sent<T>, Sender<'a, T>>
        ensures queue { IfOk result (λ s. sent_queue s ≡ sender_queue self.entry) }
        ensures sent { IfOk result (λ s. sent s ≡ sent_so_far self.entry) }
        ensures finished { IfOk result (λ s. has_finished s ≡ true) }
        ensures end { IfOk result (λ s. has_finished_once s ≡ true) }
        ensures still { IfErr result (λ s. sender_queue s ≡ sender_queue self.entry) }
        ensures same { IfErr result (λ s. sent_so_far s ≡ sent_so_far self.entry) }
        ensures full { IfErr result (λ s. PushRefused (sender_queue self.entry).capacity (Value Element.End)
            (sender_view self.entry) (sender_view s)) }
        ensures steps { IfOk result (λ s. TakesAtMost (4 + sender_words self.entry) (sender_view self.entry) (sent_view s)) }
        ensures tried { IfErr result (λ s. TakesAtMost (3 + sender_words self.entry) (sender_view self.entry) (sender_view s)) }
    {
        let Sender { mut producer } = self;
        if producer.push(&Element::End) {
            let pass = producer.release();
            Ok(Sent { pass })
        } else {
            Err(Sender { producer })
        }
    }

    /// Leaves the stream without an end, and gives the role back. At most one atomic step.
    pub fn leave(self) -> Sent<T>
        ensures queue { sent_queue result ≡ sender_queue self.entry }
        ensures sent { sent result ≡ sent_so_far self.entry }
        ensures finished { has_finished result ≡ false }
        ensures steps { TakesAtMost 1 (sender_view self.entry) (sent_view result) }
    {
        let Sender { producer } = self;
        let pass = producer.release();
        Sent { pass }
    }
}

impl<T: Copy> Arrival<T> {
    /// What a pop of the queue has found, as a receiver tells it.
    fn of(found: Option<Element<T>>) -> Arrival<T>
        ensures { result ≡ arrival_of found }
    {
        match found {
            Some(Element::Value(value)) => Arrival::Value(value),
            Some(Element::End) => Arrival::End,
            None => Arrival::Nothing,
        }
    }

    /// Whether the arrival is the end of the stream.
    pub fn is_end(&self) -> bool
        ensures { result ≡ is_end self.now }
    {
        match self {
            Arrival::End => true,
            _ => false,
        }
    }
}

impl<'a, T: Copy> Receiver<'a, T>
where
    Element<T>: Words,
{
    /// Begins to receive. None where another has the consumer's role of the queue (no clause says when), and the half is gone then.
    /// At most one atomic step.
    pub fn new<const CAPACITY: usize>(
        queue: &'a Queue<Element<T>, CAPACITY>,
        half: Pass<Element<T>>,
    ) -> Option<Receiver<'a, T>>
        requires pass { IsPassOf (inner queue.now) half }
        requires fresh { IsFreshHalf (view half) }
        ensures queue { IfSome result (λ r. receiver_queue r ≡ queue_id (inner queue.now)) }
        ensures received { IfSome result (λ r. received_so_far r ≡ []) }
        ensures end { IfSome result (λ r. is_at_end r ≡ false) }
        ensures steps { IfSome result (λ r. TakesAtMost 1 (view half) (receiver_view r)) }
    {
        let Ok(consumer) = queue.acquire_consumer(half) else {
            return None;
        };
        Some(Receiver {
            consumer,
            ended: false,
        })
    }

    /// Receives the next value, or the end, or nothing where the queue is empty. Once the end came it comes again, and nothing
    /// is popped any more. At most 3 atomic steps and one for each word of an element.
    pub fn receive(&mut self) -> Arrival<T>
        ensures queue { receiver_queue self.new ≡ receiver_queue self.old }
        ensures received { received_so_far self.new ≡ received_so_far self.old ++ arrived result }
        ensures end { is_at_end self.new ≡ is_end result }
        ensures again { is_at_end self.old ≡ true → is_end result ≡ true }
        ensures still { is_at_end self.old ≡ true → receiver_view self.new ≡ receiver_view self.old }
        ensures popped { IfValue result (λ x. PopDone (Value (Element.Value x)) (receiver_view self.old) (receiver_view self.new)) }
        ensures nothing { IfNothing result (PopEmpty (receiver_view self.old) (receiver_view self.new)) }
        ensures steps { TakesAtMost (3 + receiver_words self.old) (receiver_view self.old) (receiver_view self.new) }
    {
        if self.ended {
            return Arrival::End;
        }
        let arrival = Arrival::of(self.consumer.pop());
        self.ended = arrival.is_end();
        arrival
    }

    /// Leaves the stream, and gives the role back. At most one atomic step.
    pub fn leave(self) -> Received<T>
        ensures queue { received_queue result ≡ receiver_queue self.entry }
        ensures received { received result ≡ received_so_far self.entry }
        ensures end { has_ended result ≡ is_at_end self.entry }
        ensures steps { TakesAtMost 1 (receiver_view self.entry) (received_view result) }
    {
        let Receiver { consumer, ended: _ } = self;
        let pass = consumer.release();
        Received { pass }
    }
}

impl<T: Copy> Received<T>
where
    Element<T>: Words,
{
    /// The pass of an end that has received. No atomic step.
    fn into_pass(self) -> Pass<Element<T>>
        ensures { result ≡ self.pass }
    {
        let Received { pass } = self;
        pass
    }
}

impl<T: Copy> Sent<T>
where
    Element<T>: Words,
{
    /// Brings both ends together. What was received is a beginning of what was sent, in order. If the
    /// end came, it is all that was sent, and the sender had finished. The joined pass comes back,
    /// with the whole share.
    pub fn join(self, other: Received<T>) -> Pass<Element<T>>
        requires { received_queue other ≡ sent_queue self }
        ensures queue { queue_of result ≡ sent_queue self }
        ensures whole { IsAll (view result).share }
        ensures beginning { received other ≡ take (length (received other)) (sent self) }
        ensures all { has_ended other ≡ true → received other ≡ sent self }
        ensures finished { has_ended other ≡ true → has_finished self ≡ true }
    {
        let Sent { mut pass } = self;
        pass.join(other.into_pass());
        pass.history();
        pass
    }
}
