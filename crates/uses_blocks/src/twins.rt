//! Calls of a stream of slots once more, each with the clauses that the program has no use for, so that none can go out of a call
//! unnoticed. What a wrong body would leave, and a clause refuses, stands in `proofs/WrongBodies.antt` of `zero_copy_streams`.
ghost use Rattle.std.specs.Prelude.{◌≡◌, ◌≤◌, ◌++◌, ◌∷◌, ◌+◌, [], true, false, take, length, IfErr, IfOk, IfSome, OnOk};
ghost use Rattle.std.specs.List.{range_with_len};
ghost use Rattle.zero_copy_streams.specs.Ends.{sender_queue, receiver_queue, sent_queue, received_queue, next_of, sent_so_far, received_so_far};
ghost use Rattle.zero_copy_streams.specs.Ends.{sent, received, is_at_end, is_end, has_ended, has_finished, unread, HasFound, HasLooked, HasRead};
ghost use Rattle.zero_copy_streams.specs.Streams.{slots_of, tickets_of, ArePassesOf, IsNotMade};

use std::alloc::Global;
use std::sync::Wait;
use zero_copy_loans::receiver::Reads;
use zero_copy_loans::sender::Writes;
use zero_copy_slots::Anything;
use zero_copy_streams::error::{ReadAllFailure, SendFailure, StreamError};
use zero_copy_streams::receiver::{Found, Received, Receiver};
use zero_copy_streams::sender::{Sender, Sent};
use zero_copy_streams::stream::{Passes, Stream};

type Numbers = Stream<u64, 4, Anything>;

/// A new stream has as many slots as were asked for, and not more than its queues have room for.
pub fn make(alloc: Global, slots: u32) -> Result<(Numbers, Passes), StreamError>
    ensures slots { IfOk result (λ r. slots_of r.0 ≡ slots) }
    ensures admitted { OnOk result (slots ≤ 4) }
    ensures refused { IfErr result (IsNotMade 4 slots) }
    ensures passes { IfOk result (λ r. ArePassesOf r.0 r.1) }
{
    Numbers::new(alloc, slots)
}

/// Both ends are of its queue, and nothing was sent or received.
pub fn begin(
    stream: &Numbers,
    passes: Passes,
    spares: Vec<u64>,
) -> Option<(Sender<'_, u64>, Receiver<'_, u64>)>
    requires { ArePassesOf stream.now passes }
    ensures sender { IfSome result (λ r. sender_queue r.0 ≡ tickets_of stream.now) }
    ensures sent { IfSome result (λ r. sent_so_far r.0 ≡ []) }
    ensures next { IfSome result (λ r. next_of r.0 ≡ 0) }
    ensures receiver { IfSome result (λ r. receiver_queue r.1 ≡ tickets_of stream.now) }
    ensures received { IfSome result (λ r. received_so_far r.1 ≡ []) }
    ensures end { IfSome result (λ r. is_at_end r.1 ≡ false) }
{
    stream.ends(passes, spares)
}

/// A value is sent with the number that comes next, or nothing is.
pub fn send(
    sender: &mut Sender<'_, u64>,
    writer: &mut impl Writes<u64, Anything>,
) -> Result<(), SendFailure>
    ensures queue { sender_queue sender.new ≡ sender_queue sender.old }
    ensures sent { OnOk result (sent_so_far sender.new ≡ sent_so_far sender.old ++ next_of sender.old ∷ []) }
    ensures next { OnOk result (next_of sender.new ≡ next_of sender.old + 1) }
    ensures same { IfErr result (λ _. (sent_so_far sender.new ≡ sent_so_far sender.old) × (next_of sender.new ≡ next_of sender.old)) }
{
    sender.send(writer)
}

/// A value that `send_waiting` sends gets the number that comes next, or nothing is sent.
pub fn send_waiting(
    sender: &mut Sender<'_, u64>,
    rt: &impl Wait,
    writer: &mut impl Writes<u64, Anything>,
) -> Result<(), SendFailure>
    ensures queue { sender_queue sender.new ≡ sender_queue sender.old }
    ensures sent { OnOk result (sent_so_far sender.new ≡ sent_so_far sender.old ++ next_of sender.old ∷ []) }
    ensures next { OnOk result (next_of sender.new ≡ next_of sender.old + 1) }
    ensures same { IfErr result (λ _. (sent_so_far sender.new ≡ sent_so_far sender.old) × (next_of sender.new ≡ next_of sender.old)) }
{
    sender.send_waiting(rt, writer)
}

/// The numbers sent are 0, 1, 2 and so on, also if a value was refused.
pub fn send_each(
    sender: &mut Sender<'_, u64>,
    rt: &impl Wait,
    writer: &mut impl Writes<u64, Anything>,
) -> Result<(), SendFailure>
    ensures { sent_so_far sender.new ≡ range_with_len 0 (next_of sender.new) }
{
    sender.send_each(rt, 3, writer)
}

/// The end is sent, and all that was sent before.
pub fn finish(sender: Sender<'_, u64>, rt: &impl Wait) -> Sent
    ensures queue { sent_queue result ≡ sender_queue sender.entry }
    ensures sent { sent result ≡ sent_so_far sender.entry }
    ensures finished { has_finished result ≡ true }
{
    sender.finish_waiting(rt)
}

/// What is told is of the value that comes next.
pub fn read<R: Reads<u64, Anything, u64>>(
    receiver: &mut Receiver<'_, u64>,
    reader: &mut R,
) -> Option<Found<u64>>
    ensures queue { receiver_queue receiver.new ≡ receiver_queue receiver.old }
    ensures found { HasLooked R.tells result receiver.old receiver.new }
{
    receiver.read(reader)
}

/// What `read_waiting` tells is of the value that comes next.
pub fn read_waiting<R: Reads<u64, Anything, u64>>(
    receiver: &mut Receiver<'_, u64>,
    rt: &impl Wait,
    reader: &mut R,
) -> Found<u64>
    ensures queue { receiver_queue receiver.new ≡ receiver_queue receiver.old }
    ensures found { HasFound R.tells result receiver.old receiver.new }
    ensures end { is_at_end receiver.new ≡ is_end result }
{
    receiver.read_waiting(rt, reader)
}

/// Something is told of each value that came, except the last one if it was not read.
pub fn read_all<R: Reads<u64, Anything, u64>>(
    receiver: &mut Receiver<'_, u64>,
    rt: &impl Wait,
    told: &mut Vec<u64>,
    reader: &mut R,
) -> Result<(), ReadAllFailure>
    ensures read { HasRead R.tells (unread result) told.old.items told.new.items receiver.old receiver.new }
    ensures end { OnOk result (is_at_end receiver.new ≡ true) }
{
    receiver.read_all(rt, told, reader)
}

/// Both ends together: what came is a beginning of what was sent.
pub fn join(mine: Sent, theirs: Received)
    requires { received_queue theirs ≡ sent_queue mine }
    ensures beginning { received theirs ≡ take (length (received theirs)) (sent mine) }
    ensures finished { has_ended theirs ≡ true → has_finished mine ≡ true }
{
    mine.join(theirs);
}
