//! Streams over a queue, for what no clause says. Calls succeed at five capacities, a sender that
//! finishes, leaves or is dropped leaves the stream as it has to, and roles come back. Each other
//! public call is made once.
use lock_free_queues::spsc::queue::Queue;
use std::alloc::Global;
use std::sync::Wait;
use std::test::Fail;
use std::thread;
use std::thread::Threads;
use uses_streams::element::Element;
use uses_streams::ends::{Arrival, Receiver, Sender, Takes, both_ends, halves};

/// How a sender ends: it finishes the stream, leaves it without an end, or is dropped.
#[derive(Drop)]
enum Last {
    Finishes,
    Leaves,
    IsDropped,
}

/// Sends the numbers below `count`, and one more if the stream is full then. True if all went in, and the one
/// more did not.
fn fill(sender: &mut Sender<'_, u64>, count: u64, is_full: bool) -> bool {
    let mut right = true;
    for value in 0..count {
        right &= sender.send(value);
    }
    right && !(is_full && sender.send(7))
}

/// Finishes the stream. In a full one the end is refused until a number is received. True if it was refused
/// just in that case.
fn finish_stream(sender: Sender<'_, u64>, receiver: &mut Receiver<'_, u64>, is_full: bool) -> bool {
    match sender.finish() {
        Ok(_sent) => !is_full,
        Err(sender) => {
            let came = receiver.receive() == Arrival::Value(0);
            let finished = sender.finish().is_ok();
            is_full & came & finished
        }
    }
}

/// Receives the numbers from `from` to before `to`. True if they came in order.
fn empty(receiver: &mut Receiver<'_, u64>, from: u64, to: u64) -> bool {
    let mut right = true;
    for value in from..to {
        right &= receiver.receive() == Arrival::Value(value);
    }
    right
}

/// Sends `count` numbers, ends as `last` says, and receives all. It returns whether each call answered right,
/// and what two further calls of `receive` find. None where memory or an end is refused.
fn play<const CAPACITY: usize>(
    alloc: Global,
    count: u64,
    last: Last,
) -> Option<(bool, [Arrival<u64>; 2])> {
    let (queue, pass) = Queue::<Element<u64>, CAPACITY>::new(alloc).ok()?;
    let (mut sender, mut receiver) = both_ends(&queue, pass)?;
    let is_full = count == CAPACITY as u64;
    let mut right = fill(&mut sender, count, is_full);
    let mut from = 0;
    match last {
        Last::Finishes => {
            right &= finish_stream(sender, &mut receiver, is_full);
            from = is_full as u64;
        }
        Last::Leaves => drop(sender.leave()),
        Last::IsDropped => drop(sender),
    }
    right &= empty(&mut receiver, from, count);
    Some((right, [receiver.receive(), receiver.receive()]))
}

/// Sends one value and the end, receives both, and joins what the ends leave. It says whether both came, and
/// whether the joined pass gets each role again.
fn send_and_join(alloc: Global) -> Option<[bool; 2]> {
    let (queue, pass) = Queue::<Element<u64>, 2>::new(alloc).ok()?;
    let (mut sender, mut receiver) = both_ends(&queue, pass)?;
    if !sender.send(7) {
        return None;
    }
    let Ok(sent) = sender.finish() else {
        return None;
    };
    let came = [receiver.receive(), receiver.receive()];
    let Ok(producer) = queue.acquire_producer(sent.join(receiver.leave())) else {
        return None;
    };
    let is_free = queue.acquire_consumer(producer.release()).is_ok();
    Some([came == [Arrival::Value(7), Arrival::End], is_free])
}

/// Makes a sender and a receiver while another one has the role, and says for each whether it was refused.
fn begin_beside_another(alloc: Global) -> Option<[bool; 2]> {
    let (queue, pass) = Queue::<Element<u64>, 2>::new(alloc).ok()?;
    let (mine, other) = halves::<u64, 2>(pass)?;
    let _sender = Sender::new(&queue, mine)?;
    let no_sender = Sender::new(&queue, other).is_none();
    let (queue, pass) = Queue::<Element<u64>, 2>::new(alloc).ok()?;
    let (mine, other) = halves::<u64, 2>(pass)?;
    let _receiver = Receiver::new(&queue, mine)?;
    let no_receiver = Receiver::new(&queue, other).is_none();
    Some([no_sender, no_receiver])
}

/// Fills a stream of two places by calls with a limit of tries. True if a call with 0 tries does nothing, two
/// values go in, and a third one is refused.
fn fill_by_tries(sender: &mut Sender<'_, u64>, receiver: &mut Receiver<'_, u64>) -> bool {
    let mut right = receiver.receive_within(3) == Arrival::Nothing;
    right &= !sender.send_within(5, 0);
    right &= sender.send_within(6, 1) && sender.send_within(7, 3);
    right && !sender.send_within(8, 3)
}

/// Ends the full stream of `fill_by_tries` and empties it, by calls with a limit of tries. True if the end
/// goes in after one value was received, and the values and the end come in order. None where the first try
/// to finish succeeds.
fn empty_by_tries(sender: Sender<'_, u64>, receiver: &mut Receiver<'_, u64>) -> Option<bool> {
    let Err(sender) = sender.finish_within(3) else {
        return None;
    };
    let mut right = receiver.receive_within(0) == Arrival::Nothing;
    right &= receiver.receive_within(1) == Arrival::Value(6);
    right &= sender.finish_within(1).is_ok();
    right &= receiver.receive_within(3) == Arrival::Value(7);
    right &= receiver.receive_within(1) == Arrival::End;
    Some(right & (receiver.receive_within(0) == Arrival::End))
}

/// Receives the numbers 2, 3, 5 and 7: one by a call, one by an iterator, and the rest at once. True if all
/// came in order.
fn receive_in_parts(rt: &impl Wait, alloc: Global, receiver: Receiver<'_, u64>) -> Option<bool> {
    let mut receiver = receiver;
    let mut right = receiver.receive_waiting(rt) == Some(2);
    let mut values = receiver.values(rt);
    right &= values.next() == Some(3);
    let mut receiver = values.into_receiver();
    let mut came = Vec::from_array(alloc, [1]).ok()?;
    right &= receiver.receive_all(rt, &mut came).is_ok();
    right &= receiver.receive_all(rt, &mut came).is_ok();
    Some(right && came.as_slice() == [1, 5, 7].as_slice())
}

/// A worker that notes the numbers that it takes, up to `most` of them, and refuses to take more.
#[derive(Drop)]
struct Notes {
    numbers: Vec<u64>,
    most: usize,
}

impl Takes<u64> for Notes {
    ghost use Rattle.std.specs.Prelude.{◌≡◌};

    ghost has_taken = { λ numbers notes. notes.numbers.items ≡ numbers };

    fn take(&mut self, number: u64) -> bool {
        self.numbers.len() < self.most && self.numbers.push(number).is_ok()
    }
}

/// Sends the numbers below `count`, each as soon as there is room, and then the end.
fn send(rt: &impl Wait, sender: Sender<'_, u64>, count: u64) {
    let mut sender = sender;
    for value in 0..count {
        sender.send_waiting(rt, value);
    }
    let _sent = sender.finish_waiting(rt);
}

/// Receives until the end, and returns how many numbers came. None where one was out of order.
fn receive<'a>(rt: &'a impl Wait, receiver: Receiver<'a, u64>) -> Option<u64> {
    let mut came = 0u64;
    for value in receiver.values(rt) {
        if value != came {
            return None;
        }
        came = came.wrapping_add(1);
    }
    Some(came)
}

/// Sends the numbers below `count` from one thread to another, and returns how many came. None where an end
/// is refused or a number was out of order.
fn cross<R: Threads + Wait + Sync, const CAPACITY: usize>(
    rt: &R,
    alloc: Global,
    count: u64,
) -> Option<u64> {
    let (queue, pass) = Queue::<Element<u64>, CAPACITY>::new(alloc).ok()?;
    let (sender, receiver) = both_ends(&queue, pass)?;
    let (came, _) = thread::join(
        rt,
        move || receive(rt, receiver),
        move || send(rt, sender, count),
    );
    came
}

/// Each call of `play` answered right, and after the numbers the end came, twice.
const ENDED: Option<(bool, [Arrival<u64>; 2])> = Some((true, [Arrival::End; 2]));

/// Each call of `play` answered right, and after the numbers nothing came: the stream has no end yet.
const NOT_ENDED: Option<(bool, [Arrival<u64>; 2])> = Some((true, [Arrival::Nothing; 2]));

/// A full stream refuses a number and its end, and ends once there is room, at five capacities.
#[test]
fn a_full_stream_refuses_and_ends(rt: HostRuntime) -> Result<(), Fail> {
    let alloc = rt.alloc();
    assert!(rt; play::<1>(alloc, 1, Last::Finishes) == ENDED);
    assert!(rt; play::<2>(alloc, 2, Last::Finishes) == ENDED);
    assert!(rt; play::<5>(alloc, 5, Last::Finishes) == ENDED);
    assert!(rt; play::<64>(alloc, 64, Last::Finishes) == ENDED);
    assert!(rt; play::<1000>(alloc, 1000, Last::Finishes) == ENDED);
    Ok(())
}

/// A sender that is dropped ends the stream if there is room for the end, and one that
/// leaves does not end it.
#[test]
fn a_dropped_sender_ends_the_stream_where_there_is_room(rt: HostRuntime) -> Result<(), Fail> {
    let alloc = rt.alloc();
    assert!(rt; play::<1>(alloc, 0, Last::IsDropped) == ENDED);
    assert!(rt; play::<1>(alloc, 1, Last::IsDropped) == NOT_ENDED);
    assert!(rt; play::<5>(alloc, 4, Last::IsDropped) == ENDED);
    assert!(rt; play::<5>(alloc, 5, Last::IsDropped) == NOT_ENDED);
    assert!(rt; play::<1000>(alloc, 999, Last::IsDropped) == ENDED);
    assert!(rt; play::<2>(alloc, 1, Last::Leaves) == NOT_ENDED);
    Ok(())
}

/// Each role has one holder at a time, and comes back when its end leaves. Two senders at once
/// would mix their numbers.
#[test]
fn each_role_has_one_holder_and_comes_back(rt: HostRuntime) -> Result<(), Fail> {
    assert!(rt; send_and_join(rt.alloc()) == Some([true; 2]));
    assert!(rt; begin_beside_another(rt.alloc()) == Some([true; 2]));
    Ok(())
}

/// Calls with a limit of tries succeed where they can within it, and give up otherwise.
#[test]
fn calls_give_up_after_their_tries(rt: HostRuntime) -> Result<(), Fail> {
    let (queue, pass) = Queue::<Element<u64>, 2>::new(rt.alloc())?;
    let (mut sender, mut receiver) = both_ends(&queue, pass).ok_or("no ends")?;
    let filled = fill_by_tries(&mut sender, &mut receiver);
    let emptied = empty_by_tries(sender, &mut receiver);
    assert!(rt; filled && emptied == Some(true));
    Ok(())
}

/// A stream may be received in parts, by different calls, and each number comes once.
#[test]
fn a_stream_is_received_in_parts(rt: HostRuntime) -> Result<(), Fail> {
    let (queue, pass) = Queue::<Element<u64>, 5>::new(rt.alloc())?;
    let (mut sender, receiver) = both_ends(&queue, pass).ok_or("no ends")?;
    sender.send_all(&rt, &[2, 3, 5, 7]);
    let _sent = sender.finish_waiting(&rt);
    assert!(rt; receive_in_parts(&rt, rt.alloc(), receiver) == Some(true));
    Ok(())
}

/// A worker that refuses a number stops `receive_each`, which goes on behind that number when it is called
/// again. The number that was refused, 5, is gone.
#[test]
fn a_worker_that_takes_no_more_can_go_on(rt: HostRuntime) -> Result<(), Fail> {
    let (queue, pass) = Queue::<Element<u64>, 5>::new(rt.alloc())?;
    let (mut sender, mut receiver) = both_ends(&queue, pass).ok_or("no ends")?;
    sender.send_all(&rt, &[2, 3, 5, 7]);
    let _sent = sender.finish_waiting(&rt);
    let mut notes = Notes {
        numbers: Vec::new(rt.alloc()),
        most: 2,
    };
    // The number 5 was received, and the worker did not take it.
    let stopped = !receiver.receive_each(&rt, &mut notes);
    notes.most = 9;
    assert!(rt; stopped && receiver.receive_each(&rt, &mut notes));
    assert!(rt;
        receiver.receive_each(&rt, &mut notes) && notes.numbers.as_slice() == [2, 3, 7].as_slice()
    );
    Ok(())
}

/// All numbers come in order from one thread to another, at five capacities.
#[test]
fn all_come_from_one_thread_to_another(rt: HostRuntime) -> Result<(), Fail> {
    let alloc = rt.alloc();
    assert!(rt; cross::<HostRuntime, 1>(&rt, alloc, 100) == Some(100));
    assert!(rt; cross::<HostRuntime, 2>(&rt, alloc, 100) == Some(100));
    assert!(rt; cross::<HostRuntime, 5>(&rt, alloc, 100) == Some(100));
    assert!(rt; cross::<HostRuntime, 64>(&rt, alloc, 1000) == Some(1000));
    assert!(rt; cross::<HostRuntime, 1000>(&rt, alloc, 3000) == Some(3000));
    Ok(())
}
