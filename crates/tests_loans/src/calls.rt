//! Values that are read through the guards of a loan and of a reading, and calls that wait for a place, a
//! value or a buffer.
ghost use Rattle.std.specs.Prelude.{◌≡◌, Some, IfErr};
ghost use Rattle.zero_copy_loans.specs.Pools.{HasPlaces};
ghost use Rattle.zero_copy_slots.specs.Slots.{value_in};

use std::alloc::Global;
use std::sync::Wait;
use std::test::Fail;
use std::thread;
use std::thread::Threads;
use zero_copy_loans::channel::Channel;
use zero_copy_loans::error::PoolFailure;
use zero_copy_loans::pool::{Buffer, Lender, Pool};
use zero_copy_loans::receiver::Receiver;
use zero_copy_loans::sender::{Loan, Sender};
use zero_copy_slots::Reading;

/// How many values are sent through a channel, and how often each thread takes the buffer of a pool.
const VALUES: u64 = 2_000;

/// A value of a channel: a number and three times that number. A value that was torn or mixed up has
/// another second number.
#[derive(Drop)]
struct Triple {
    one: u64,
    three: u64,
}

/// `number` values with zeros, which a sender is given to write. None where there is no memory.
fn triples(alloc: Global, number: usize) -> Option<Vec<Triple>> {
    let mut triples = Vec::new(alloc);
    for _ in 0..number {
        triples.push(Triple { one: 0, three: 0 }).ok()?;
    }
    Some(triples)
}

/// Whether a value is the one of this number.
fn is_triple(triple: &Triple, number: u64) -> bool {
    triple.one == number && triple.three == number.wrapping_mul(3)
}

/// The value that a loan shows through its guard, which its clause says is the loan's value.
fn shown<'b>(loan: &'b Loan<'_, Triple>) -> &'b Triple
    ensures { result.now ≡ loan.now.value }
{
    &**loan
}

/// The value that a reading shows through its guard, which its clause says is the value
/// that lies in the slot.
fn read_shown<'b>(reading: &'b Reading<'_, Triple>) -> &'b Triple
    ensures { value_in reading.now ≡ Some result.now }
{
    &**reading
}

/// Sends the value of the next number, by a loan for which it waits. False where the loan shows another value
/// than was written.
fn send_next(rt: &impl Wait, sender: &mut Sender<'_, Triple>) -> bool {
    let number = sender.next_number();
    let mut loan = sender.loan_waiting(rt);
    loan.value.one = number;
    loan.value.three = number.wrapping_mul(3);
    let is_right = loan.one == number && is_triple(shown(&loan), number);
    sender.send(loan);
    is_right
}

/// Waits for the next value, reads it and gives it back. It returns the value's number, and None where that
/// number or the value is wrong.
fn read_next(rt: &impl Wait, receiver: &mut Receiver<'_, Triple>) -> Option<u64> {
    let sample = receiver.receive_waiting(rt);
    let number = sample.number();
    let is_right = match receiver.read(&sample) {
        Ok(reading) => reading.one == number && is_triple(read_shown(&reading), number),
        Err(_) => false,
    };
    if receiver.give_back(sample) & is_right {
        Some(number)
    } else {
        None
    }
}

/// Sends `VALUES` values. False where one of the loans showed another value than was written.
fn send_all(rt: &impl Wait, sender: &mut Sender<'_, Triple>) -> bool {
    let mut right = true;
    for _ in 0..VALUES {
        right &= send_next(rt, sender);
    }
    right
}

/// Reads values until the last one comes, and returns whether it came. A receiver that is slow misses the
/// oldest ones. None where a value was wrong.
fn read_last(rt: &impl Wait, receiver: &mut Receiver<'_, Triple>) -> Option<bool> {
    for _ in 0..VALUES {
        if read_next(rt, receiver)? == VALUES - 1 {
            return Some(true);
        }
    }
    Some(false)
}

/// Sends and reads in two threads. The queue has room for two of the four places, so a place comes back
/// because it was pushed out of the queue, or from the receiver. None where memory or the ends are refused.
fn side_by_side<R: Threads + Wait + Sync>(rt: &R, alloc: Global) -> Option<bool> {
    let mut channel: Channel<Triple> = Channel::new(alloc, 4, 2).ok()?;
    let (mut sender, mut receiver) = channel.ends(alloc, triples(alloc, 5)?)?;
    // `join` calls its first closure last where no thread can be made; the values that wait
    // are then the last ones.
    let (read, sent) = thread::join(
        rt,
        || read_last(rt, &mut receiver),
        || send_all(rt, &mut sender),
    );
    Some(read? && sent)
}

/// A sender and a receiver that wait for each other come to the last value. If a call missed what it waits
/// for, the test would not end; if a place was used too early, a value would be wrong.
#[test]
fn the_last_value_is_waited_for(rt: HostRuntime) -> Result<(), Fail> {
    assert!(rt; side_by_side(&rt, rt.alloc()) == Some(true));
    Ok(())
}

/// Waits for a buffer of the pool. If it is refused, that is not for want of a place, as its clause says.
fn wait_for_buffer<'a>(
    rt: &impl Wait,
    lender: &mut Lender<'a, u64>,
) -> Result<Buffer<'a, u64>, PoolFailure>
    ensures { IfErr result HasPlaces }
{
    lender.acquire_waiting(rt)
}

/// Takes the pool's buffer `VALUES` times, by a call that waits or by one that tries very often, adds 1 to the
/// number that lies there, and gives it back. False where a buffer was refused or could not be given back.
fn add_to_each(rt: &impl Wait, lender: &mut Lender<'_, u64>, waits: bool) -> bool {
    for _ in 0..VALUES {
        let taken = if waits {
            wait_for_buffer(rt, lender)
        } else {
            lender.acquire_within(rt, u64::MAX)
        };
        let Ok(mut buffer) = taken else {
            return false;
        };
        buffer.value = match buffer.value {
            Some(value) => Some(value.wrapping_add(1)),
            None => Some(1),
        };
        if buffer.give_back().is_err() {
            return false;
        }
    }
    true
}

/// Two threads take the one buffer of a pool by turns. Then the number in it says that no addition was lost.
/// While the buffer is out, the other lender gets none by 3 tries, nor by the one try that a limit of 0
/// makes; after it is given back it gets it. None where memory or a pass is refused.
fn share<R: Threads + Wait + Sync>(rt: &R, alloc: Global) -> Option<bool> {
    let mut pool: Pool<u64> = Pool::new(alloc, 1).ok()?;
    let mut one = pool.lender()?;
    let mut other = one.split()?;
    let added = thread::join(
        rt,
        || add_to_each(rt, &mut one, true),
        || add_to_each(rt, &mut other, false),
    );
    let buffer = one.acquire_within(rt, 3).ok()?;
    let mut right = added == (true, true) && buffer.value == Some(2 * VALUES);
    right &= other.acquire_within(rt, 3).is_err();
    right &= other.acquire_within(rt, 0).is_err();
    right &= buffer.give_back().is_ok();
    Some(right & other.acquire_within(rt, 0).is_ok())
}

/// A buffer that is waited for is handed to one thread at a time. If both had it at once,
/// additions would be lost.
#[test]
fn a_buffer_is_waited_for(rt: HostRuntime) -> Result<(), Fail> {
    assert!(rt; share(&rt, rt.alloc()) == Some(true));
    Ok(())
}
