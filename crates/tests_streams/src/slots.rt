//! Streams over slots, for what no clause says. Calls succeed at several sizes and refuse for the
//! right reason, an end that is dropped or leaves early leaves the stream as it has to, and values
//! come as they were written.
use std::alloc::Global;
use std::sync::Wait;
use std::test::Fail;
use std::thread;
use std::thread::Threads;
use zero_copy_loans::receiver::Reads;
use zero_copy_loans::sender::Writes;
use zero_copy_slots::Anything;
use zero_copy_streams::error::{ReadAllFailure, SendFailure, StreamError};
use zero_copy_streams::receiver::{Found, Receiver};
use zero_copy_streams::sender::Sender;
use zero_copy_streams::stream::Stream;

/// A writer of the value of each number (`of_number`), which refuses to write from the number `below` on.
#[derive(Drop)]
struct Triples {
    below: u64,
}

/// The value that is sent with this number: three times the number and one.
fn of_number(number: u64) -> u64 {
    number.wrapping_mul(3).wrapping_add(1)
}

impl Writes<u64, Anything> for Triples {
    fn write(&mut self, number: u64, value: &mut u64) -> bool {
        *value = of_number(number);
        number < self.below
    }
}

/// A reader that tells each value, but for the value `but`, of which it tells nothing.
#[derive(Drop)]
struct Plain {
    but: u64,
}

impl Reads<u64, Anything, u64> for Plain {
    ghost tells = { λ _ _. Unit {0} };

    fn read(&mut self, value: &u64) -> Option<u64> {
        if *value == self.but {
            None
        } else {
            Some(*value)
        }
    }
}

/// Sends `count` values and then tries one more. True if the `count` were sent and the last one was refused
/// since no slot is free.
fn fills(sender: &mut Sender<'_, u64>, count: u32) -> bool {
    let mut right = true;
    for _ in 0..count {
        right &= sender.send(&mut Triples { below: u64::MAX }).is_ok();
    }
    right
        && matches!(
            &sender.send(&mut Triples { below: u64::MAX }),
            Err(SendFailure::NoSlot)
        )
}

/// Reads the values of the numbers from `from` to before `to`. True if they came in order.
fn empties(receiver: &mut Receiver<'_, u64>, from: u64, to: u64) -> bool {
    let mut right = true;
    for number in from..to {
        right &= receiver.read(&mut Plain { but: 0 }) == Some(Found::Told(of_number(number)));
    }
    right
}

/// How a sender ends: it finishes the stream, or it is dropped.
#[derive(Drop)]
enum Last {
    Finishes,
    IsDropped,
}

/// Fills all slots, reads one value, and sends one more, which fills them again. Then the sender ends as
/// `last` says, and all values are read. It returns whether each call answered right, and what two further
/// reads find. None where memory or an end is refused.
fn play<const CAPACITY: usize>(
    rt: &impl Wait,
    alloc: Global,
    slots: u32,
    last: Last,
) -> Option<(bool, [Option<Found<u64>>; 2])> {
    let (stream, passes) = Stream::<u64, CAPACITY, Anything>::new(alloc, slots).ok()?;
    let spares = vec![in alloc; 0u64; slots as usize + 1].ok()?;
    let (mut sender, mut receiver) = stream.ends(passes, spares)?;
    let count = slots as u64;
    let mut right = fills(&mut sender, slots);
    right &= empties(&mut receiver, 0, 1);
    right &= fills(&mut sender, 1);
    right &= sender.next_number() == count.wrapping_add(1);
    let mut from = 1;
    match last {
        Last::Finishes => {
            if count == CAPACITY as u64 {
                right &= empties(&mut receiver, 1, 2);
                from = 2;
            }
            drop(sender.finish_waiting(rt));
        }
        Last::IsDropped => drop(sender),
    }
    right &= empties(&mut receiver, from, count.wrapping_add(1));
    let mut reader = Plain { but: 0 };
    Some((
        right,
        [receiver.read(&mut reader), receiver.read(&mut reader)],
    ))
}

/// Each call of `play` answered right, and after the values the end came, twice.
const ENDED: Option<(bool, [Option<Found<u64>>; 2])> = Some((
    true,
    [Some(Found::End), Some(Found::End)],
));

/// Each call of `play` answered right, and after the values nothing came: the stream has no end yet.
const NOT_ENDED: Option<(bool, [Option<Found<u64>>; 2])> = Some((true, [None, None]));

/// Makes a stream of as many slots as its queues have room for, and one of one slot more. True if the second is refused
/// since it has too many.
fn is_refused<const CAPACITY: usize>(alloc: Global, slots: u32) -> bool {
    let is_made = Stream::<u64, CAPACITY, Anything>::new(alloc, slots).is_ok();
    let more = Stream::<u64, CAPACITY, Anything>::new(alloc, slots.saturating_add(1));
    is_made && matches!(&more, Err(StreamError::TooManySlots))
}

/// The receiver reads one of two values and leaves, or is dropped. True if the sender uses the slot that came
/// back, and its next calls say that nobody receives.
fn leave_early(rt: &impl Wait, alloc: Global, is_dropped: bool) -> Option<bool> {
    let (stream, passes) = Stream::<u64, 3, Anything>::new(alloc, 2).ok()?;
    let spares = vec![in alloc; 0u64; 3].ok()?;
    let (mut sender, mut receiver) = stream.ends(passes, spares)?;
    let mut right = fills(&mut sender, 2);
    right &= empties(&mut receiver, 0, 1);
    if is_dropped {
        drop(receiver);
    } else {
        drop(receiver.leave());
    }
    let mut all = Triples { below: u64::MAX };
    right &= sender.send_waiting(rt, &mut all).is_ok();
    right &= matches!(
        &sender.send_waiting(rt, &mut all),
        Err(SendFailure::NoReceiver)
    );
    right &= matches!(&sender.send(&mut all), Err(SendFailure::NoReceiver));
    drop(sender.finish_waiting(rt));
    Some(right)
}

/// Sends by a writer that stops before the third value, and then until no value is left to write. True if the
/// calls say so, nothing was sent beyond that, and the three values that were sent come in order.
fn stop_and_go_on(rt: &impl Wait, alloc: Global) -> Option<bool> {
    let (stream, passes) = Stream::<u64, 8, Anything>::new(alloc, 5).ok()?;
    let spares = vec![in alloc; 0u64; 3].ok()?;
    let (mut sender, mut receiver) = stream.ends(passes, spares)?;
    let mut some = Triples { below: 2 };
    let mut all = Triples { below: u64::MAX };
    let mut right = matches!(
        &sender.send_each(rt, 4, &mut some),
        Err(SendFailure::Unwritten)
    );
    right &= sender.next_number() == 2;
    right &= matches!(
        &sender.send_each(rt, 4, &mut all),
        Err(SendFailure::NoValue)
    );
    right &= sender.next_number() == 3;
    right &= empties(&mut receiver, 0, 3);
    right &= receiver.read(&mut Plain { but: 0 }) == None;
    Some(right)
}

/// Sends five values and the end, and reads them with a reader that tells nothing of the third. True
/// if `read_all` stops there and says which it was, the later calls go on behind it, and the end
/// comes again and again.
fn pass_over_one(rt: &impl Wait, alloc: Global) -> Option<bool> {
    let (stream, passes) = Stream::<u64, 8, Anything>::new(alloc, 5).ok()?;
    let spares = vec![in alloc; 0u64; 6].ok()?;
    let (mut sender, mut receiver) = stream.ends(passes, spares)?;
    let mut all = Triples { below: u64::MAX };
    let mut right = sender.send_each(rt, 5, &mut all).is_ok();
    let sent = sender.finish_waiting(rt);
    let mut reader = Plain { but: of_number(2) };
    let mut told = Vec::new(alloc);
    right &= matches!(
        &receiver.read_all(rt, &mut told, &mut reader),
        Err(ReadAllFailure::Unread(2))
    );
    right &= told.as_slice() == [1, 4].as_slice();
    right &= receiver.read_waiting(rt, &mut reader) == Found::Told(10);
    right &= receiver.read_all(rt, &mut told, &mut reader).is_ok();
    right &= told.as_slice() == [1, 4, 13].as_slice();
    right &= receiver.read_waiting(rt, &mut reader) == Found::End;
    right &= receiver.read_all(rt, &mut told, &mut reader).is_ok();
    sent.join(receiver.leave());
    Some(right)
}

/// Reads the first of two values, of which nothing is told. True if its slot comes back all the same, so that
/// one more value can be sent.
fn give_back_unread(alloc: Global) -> Option<bool> {
    let (stream, passes) = Stream::<u64, 3, Anything>::new(alloc, 2).ok()?;
    let spares = vec![in alloc; 0u64; 3].ok()?;
    let (mut sender, mut receiver) = stream.ends(passes, spares)?;
    let mut right = fills(&mut sender, 2);
    let mut reader = Plain { but: of_number(0) };
    right &= receiver.read(&mut reader) == Some(Found::Unread(0));
    right &= fills(&mut sender, 1);
    Some(right & empties(&mut receiver, 1, 3))
}

/// Sends `count` values, each as soon as a slot is free, and then the end. True if all were sent.
fn send(rt: &impl Wait, sender: Sender<'_, u64>, count: u64) -> bool {
    let mut sender = sender;
    let right = sender
        .send_each(rt, count, &mut Triples { below: u64::MAX })
        .is_ok();
    drop(sender.finish_waiting(rt));
    right
}

/// Reads until the end, and returns how many values came. None where one was not that of its number, or
/// memory was refused.
fn receive(rt: &impl Wait, alloc: Global, receiver: Receiver<'_, u64>) -> Option<u64> {
    let mut receiver = receiver;
    let mut told = Vec::new(alloc);
    receiver
        .read_all(rt, &mut told, &mut Plain { but: 0 })
        .ok()?;
    let mut next = 0u64;
    for value in &told {
        if *value != of_number(next) {
            return None;
        }
        next = next.wrapping_add(1);
    }
    Some(next)
}

/// Sends `count` values from one thread to another, and returns how many came. None where an end is refused
/// or a value was wrong.
fn cross<R: Threads + Wait + Sync, const CAPACITY: usize>(
    rt: &R,
    alloc: Global,
    slots: u32,
    count: u64,
) -> Option<u64> {
    let (stream, passes) = Stream::<u64, CAPACITY, Anything>::new(alloc, slots).ok()?;
    let spares = vec![in alloc; 0u64; slots as usize + 1].ok()?;
    let (sender, receiver) = stream.ends(passes, spares)?;
    let (came, sent) = thread::join(
        rt,
        move || receive(rt, alloc, receiver),
        move || send(rt, sender, count),
    );
    if sent { came } else { None }
}

/// A stream refuses a value while all slots are full, and its end comes after all values, at five sizes. In
/// two of them the queue of tickets has no place for the end until a value is read.
#[test]
fn full_slots_refuse_and_the_stream_ends(rt: HostRuntime) -> Result<(), Fail> {
    let alloc = rt.alloc();
    assert!(rt; play::<1>(&rt, alloc, 1, Last::Finishes) == ENDED);
    assert!(rt; play::<2>(&rt, alloc, 1, Last::Finishes) == ENDED);
    assert!(rt; play::<5>(&rt, alloc, 4, Last::Finishes) == ENDED);
    assert!(rt; play::<64>(&rt, alloc, 64, Last::Finishes) == ENDED);
    assert!(rt; play::<300>(&rt, alloc, 299, Last::Finishes) == ENDED);
    Ok(())
}

/// A sender that is dropped ends the stream if the queue of tickets has a place for the end, and leaves it
/// without an end if not.
#[test]
fn a_dropped_sender_ends_the_stream_of_slots_where_there_is_room(
    rt: HostRuntime,
) -> Result<(), Fail> {
    let alloc = rt.alloc();
    assert!(rt; play::<1>(&rt, alloc, 1, Last::IsDropped) == NOT_ENDED);
    assert!(rt; play::<2>(&rt, alloc, 1, Last::IsDropped) == ENDED);
    assert!(rt; play::<5>(&rt, alloc, 5, Last::IsDropped) == NOT_ENDED);
    assert!(rt; play::<300>(&rt, alloc, 299, Last::IsDropped) == ENDED);
    Ok(())
}

/// A stream has at most as many slots as its queues have room for. If it had more, a slot that comes back could be lost.
#[test]
fn more_slots_than_room_are_refused(rt: HostRuntime) -> Result<(), Fail> {
    assert!(rt; is_refused::<1>(rt.alloc(), 1) && is_refused::<5>(rt.alloc(), 5));
    Ok(())
}

/// A sender learns that its receiver has left or was dropped. Otherwise a sender that waits for a slot would
/// wait for good.
#[test]
fn a_sender_learns_that_its_receiver_is_gone(rt: HostRuntime) -> Result<(), Fail> {
    assert!(rt; leave_early(&rt, rt.alloc(), false) == Some(true));
    assert!(rt; leave_early(&rt, rt.alloc(), true) == Some(true));
    Ok(())
}

/// A call that was refused or stopped leaves the stream so that the next call goes on.
#[test]
fn who_was_refused_goes_on(rt: HostRuntime) -> Result<(), Fail> {
    assert!(rt; stop_and_go_on(&rt, rt.alloc()) == Some(true));
    assert!(rt; pass_over_one(&rt, rt.alloc()) == Some(true));
    assert!(rt; give_back_unread(rt.alloc()) == Some(true));
    Ok(())
}

/// All values come in order from one thread to another, at five sizes.
#[test]
fn all_values_come_from_one_thread_to_another(rt: HostRuntime) -> Result<(), Fail> {
    let alloc = rt.alloc();
    assert!(rt; cross::<HostRuntime, 1>(&rt, alloc, 1, 100) == Some(100));
    assert!(rt; cross::<HostRuntime, 2>(&rt, alloc, 1, 100) == Some(100));
    assert!(rt; cross::<HostRuntime, 5>(&rt, alloc, 4, 100) == Some(100));
    assert!(rt; cross::<HostRuntime, 64>(&rt, alloc, 64, 1000) == Some(1000));
    assert!(rt; cross::<HostRuntime, 300>(&rt, alloc, 299, 1000) == Some(1000));
    Ok(())
}
