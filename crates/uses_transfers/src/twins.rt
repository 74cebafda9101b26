//! Calls of a stream once more, each with the clauses that the program has no use for, so that none can go out of a call
//! unnoticed. What a wrong body would leave, and a clause refuses, stands in `proofs/WrongBodies.antt` of `uses_streams`.
ghost use Rattle.std.specs.Prelude.{◌≡◌, ◌≤◌, ◌++◌, ◌∷◌, [], ◌+◌, ◌*◌, true, false, take, length};
ghost use Rattle.std.specs.Prelude.{IsTrue, IsFalse, IfOk, IfErr, IfSome, IfNone};
ghost use Rattle.model.specs.declared.event.Item.TheVariants.{Value};
ghost use Rattle.threaded.specs.Shares.{IsAll};
ghost use Rattle.history.specs.Steps.{TakesAtMost};
ghost use Rattle.history.specs.Views.{first_view};
ghost use Rattle.lock_free_queues.specs.Queues.Contracts.{PushRefused};
ghost use Rattle.lock_free_queues.specs.Queues.Values.{inner, queue_id, queue_of, view, IsPassOf};
ghost use Rattle.uses_streams.specs.Ends.{arrived, is_end, IfNothing, IfValue, sender_view, receiver_view, sent_view, received_view};
ghost use Rattle.uses_streams.specs.Ends.{sender_queue, receiver_queue, sent_queue, received_queue};
ghost use Rattle.uses_streams.specs.Ends.{sent_so_far, received_so_far, sent, received};
ghost use Rattle.uses_streams.specs.Ends.{has_finished, has_finished_once, is_at_end, has_ended};
ghost use Rattle.uses_streams.specs.Streams.{IsFreshHalf};
ghost use Rattle.uses_streams.specs.Tries.{WereRefused, WereEmpty, WasPushedWithin, WasPoppedWithin};

use lock_free_queues::spsc::queue::{Pass, Queue};
use std::sync::Wait;
use uses_streams::element::Element;
use uses_streams::ends::{Arrival, Received, Receiver, Sender, Sent, Takes, both_ends};

pub mod queue_ends;

/// A new receiver is not at the end.
pub fn begin<'a>(
    queue: &'a Queue<Element<u64>, 4>,
    half: Pass<Element<u64>>,
) -> Option<Receiver<'a, u64>>
    requires pass { IsPassOf (inner queue.now) half }
    requires fresh { IsFreshHalf (view half) }
    ensures end { IfSome result (λ r. is_at_end r ≡ false) }
{
    Receiver::new(queue, half)
}

/// Both ends are of the queue, and nothing was sent or received. They have taken their roles, and have not looked.
pub fn begin_both<'a>(
    queue: &'a Queue<Element<u64>, 4>,
    pass: Pass<Element<u64>>,
) -> Option<(Sender<'a, u64>, Receiver<'a, u64>)>
    requires pass { IsPassOf (inner queue.now) pass }
    requires first { view pass ≡ first_view 4 }
    ensures sender { IfSome result (λ r. sender_queue r.0 ≡ queue_id (inner queue.now)) }
    ensures sent { IfSome result (λ r. sent_so_far r.0 ≡ []) }
    ensures receiver { IfSome result (λ r. receiver_queue r.1 ≡ queue_id (inner queue.now)) }
    ensures received { IfSome result (λ r. received_so_far r.1 ≡ []) }
    ensures end { IfSome result (λ r. is_at_end r.1 ≡ false) }
    ensures steps { IfSome result (λ r. TakesAtMost 2 (view pass) (sender_view r.0)) }
    ensures other { IfSome result (λ r. (receiver_view r.1).asked ≤ 1) }
{
    both_ends(queue, pass)
}

/// A number is pushed by the last of at most `tries` tries, or each of `tries` tries was refused.
pub fn send_within(sender: &mut Sender<'_, u64>, number: u64, tries: u64) -> bool
    ensures queue { sender_queue sender.new ≡ sender_queue sender.old }
    ensures sent { IsTrue result → sent_so_far sender.new ≡ sent_so_far sender.old ++ number ∷ [] }
    ensures pushed { IsTrue result → WasPushedWithin tries (sender_queue sender.old).capacity (Value (Element.Value number))
        (sender_view sender.old) (sender_view sender.new) }
    ensures same { IsFalse result → sent_so_far sender.new ≡ sent_so_far sender.old }
    ensures full { IsFalse result → WereRefused tries (sender_queue sender.old).capacity (Value (Element.Value number))
        (sender_view sender.old) (sender_view sender.new) }
    ensures steps { TakesAtMost (tries * 5) (sender_view sender.old) (sender_view sender.new) }
{
    sender.send_within(number, tries)
}

/// The end is sent once and after all numbers, or it is refused.
pub fn finish<'a>(sender: Sender<'a, u64>) -> Result<Sent<u64>, Sender<'a, u64>>
    ensures queue { IfOk result (λ s. sent_queue s ≡ sender_queue sender.entry) }
    ensures sent { IfOk result (λ s. sent s ≡ sent_so_far sender.entry) }
    ensures finished { IfOk result (λ s. has_finished s ≡ true) }
    ensures end { IfOk result (λ s. has_finished_once s ≡ true) }
    ensures still { IfErr result (λ s. sender_queue s ≡ sender_queue sender.entry) }
    ensures same { IfErr result (λ s. sent_so_far s ≡ sent_so_far sender.entry) }
    ensures full { IfErr result (λ s. PushRefused (sender_queue sender.entry).capacity (Value Element.End)
        (sender_view sender.entry) (sender_view s)) }
    ensures steps { IfOk result (λ s. TakesAtMost 6 (sender_view sender.entry) (sent_view s)) }
    ensures tried { IfErr result (λ s. TakesAtMost 5 (sender_view sender.entry) (sender_view s)) }
{
    sender.finish()
}

/// The end is sent once and after all numbers, by the last of at most `tries` tries, or each
/// of them was refused.
pub fn finish_within<'a>(sender: Sender<'a, u64>, tries: u64) -> Result<Sent<u64>, Sender<'a, u64>>
    ensures queue { IfOk result (λ s. sent_queue s ≡ sender_queue sender.entry) }
    ensures sent { IfOk result (λ s. sent s ≡ sent_so_far sender.entry) }
    ensures finished { IfOk result (λ s. has_finished s ≡ true) }
    ensures end { IfOk result (λ s. has_finished_once s ≡ true) }
    ensures still { IfErr result (λ s. sender_queue s ≡ sender_queue sender.entry) }
    ensures same { IfErr result (λ s. sent_so_far s ≡ sent_so_far sender.entry) }
    ensures full { IfErr result (λ s. WereRefused tries (sender_queue sender.entry).capacity (Value Element.End)
        (sender_view sender.entry) (sender_view s)) }
    ensures steps { IfOk result (λ s. TakesAtMost (tries * 5 + 1) (sender_view sender.entry) (sent_view s)) }
    ensures tried { IfErr result (λ s. TakesAtMost (tries * 5) (sender_view sender.entry) (sender_view s)) }
{
    sender.finish_within(tries)
}

/// Who waits with the end sends it once and after all numbers.
pub fn finish_waiting(sender: Sender<'_, u64>, rt: &impl Wait) -> Sent<u64>
    ensures finished { has_finished result ≡ true }
    ensures end { has_finished_once result ≡ true }
{
    sender.finish_waiting(rt)
}

/// Who leaves sends no end.
pub fn leave(sender: Sender<'_, u64>) -> Sent<u64>
    ensures queue { sent_queue result ≡ sender_queue sender.entry }
    ensures sent { sent result ≡ sent_so_far sender.entry }
    ensures finished { has_finished result ≡ false }
    ensures steps { TakesAtMost 1 (sender_view sender.entry) (sent_view result) }
{
    sender.leave()
}

/// Who leaves takes one step.
pub fn stop(receiver: Receiver<'_, u64>) -> Received<u64>
    ensures { TakesAtMost 1 (receiver_view receiver.entry) (received_view result) }
{
    receiver.leave()
}

/// After the end nothing is popped, and it comes again.
pub fn receive(receiver: &mut Receiver<'_, u64>) -> Arrival<u64>
    ensures again { is_at_end receiver.old ≡ true → is_end result ≡ true }
    ensures still { is_at_end receiver.old ≡ true → receiver_view receiver.new ≡ receiver_view receiver.old }
{
    receiver.receive()
}

/// What comes was popped by the last of at most `tries` tries, or each of `tries` tries
/// found the queue empty.
pub fn receive_within(receiver: &mut Receiver<'_, u64>, tries: u64) -> Arrival<u64>
    ensures queue { receiver_queue receiver.new ≡ receiver_queue receiver.old }
    ensures received { received_so_far receiver.new ≡ received_so_far receiver.old ++ arrived result }
    ensures end { is_at_end receiver.new ≡ is_end result }
    ensures again { is_at_end receiver.old ≡ true → is_end result ≡ true }
    ensures still { is_at_end receiver.old ≡ true → receiver_view receiver.new ≡ receiver_view receiver.old }
    ensures popped { IfValue result
        (λ x. WasPoppedWithin tries (Value (Element.Value x)) (receiver_view receiver.old) (receiver_view receiver.new)) }
    ensures nothing { IfNothing result (WereEmpty tries (receiver_view receiver.old) (receiver_view receiver.new)) }
    ensures steps { TakesAtMost (tries * 5) (receiver_view receiver.old) (receiver_view receiver.new) }
{
    receiver.receive_within(tries)
}

/// Once the end came, the worker has taken all that was received.
pub fn receive_each<W: Takes<u64>>(
    receiver: &mut Receiver<'_, u64>,
    rt: &impl Wait,
    worker: &mut W,
) -> bool
    ensures queue { receiver_queue receiver.new ≡ receiver_queue receiver.old }
    ensures taken { IsTrue result
        → W.has_taken (received_so_far receiver.old) worker.old → W.has_taken (received_so_far receiver.new) worker.new }
    ensures end { IsTrue result → is_at_end receiver.new ≡ true }
{
    receiver.receive_each(rt, worker)
}

/// Receives one number by the iterator, and goes on with the receiver.
pub fn receive_by_values<'a>(
    rt: &'a impl Wait,
    receiver: Receiver<'a, u64>,
) -> (Option<u64>, Receiver<'a, u64>)
    ensures queue { receiver_queue result.1 ≡ receiver_queue receiver.entry }
    ensures value { IfSome result.0 (λ x. received_so_far result.1 ≡ received_so_far receiver.entry ++ x ∷ []) }
    ensures none { IfNone result.0 (received_so_far result.1 ≡ received_so_far receiver.entry) }
    ensures end { IfNone result.0 (is_at_end result.1 ≡ true) }
{
    let mut values = receiver.values(rt);
    let value = values.next();
    (value, values.into_receiver())
}

/// An iterator that was not asked changes nothing.
pub fn ask_for_no_values<'a>(rt: &'a impl Wait, receiver: Receiver<'a, u64>) -> Receiver<'a, u64>
    ensures queue { receiver_queue result ≡ receiver_queue receiver.entry }
    ensures received { received_so_far result ≡ received_so_far receiver.entry }
    ensures end { is_at_end result ≡ is_at_end receiver.entry }
{
    receiver.values(rt).into_receiver()
}

/// Both ends together give the whole share, and what came is a beginning of what was sent.
pub fn join(mine: Sent<u64>, theirs: Received<u64>) -> Pass<Element<u64>>
    requires { received_queue theirs ≡ sent_queue mine }
    ensures queue { queue_of result ≡ sent_queue mine }
    ensures whole { IsAll (view result).share }
    ensures beginning { received theirs ≡ take (length (received theirs)) (sent mine) }
    ensures finished { has_ended theirs ≡ true → has_finished mine ≡ true }
{
    mine.join(theirs)
}
