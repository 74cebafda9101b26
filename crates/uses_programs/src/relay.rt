//! Sends numbers from one thread to another, through a queue that holds a few of them. Proved: the
//! numbers that came are the first of those that were sent, in their order, and all of them exactly if
//! none waits at the end.

ghost use Rattle.std.specs.Prelude.{◌≡◌, IfOk, length};
ghost use Rattle.lock_free.specs.Queues.Calls.{IsPassOf};
ghost use Rattle.lock_free.specs.Queues.Item.TheVariants.{Index};
ghost use Rattle.lock_free.specs.Queues.Relays.{Sent, Received, IsRelayed};

use lock_free::spsc::index_queue::{IndexQueue, Pass};
use std::alloc::Global;
use std::sync::Wait;
use std::thread::Threads;
use std::{io, thread};

/// Why not all numbers came through.
#[derive(Debug, Drop)]
pub enum RelayError {
    NoMemory,
    NoPass,
    Taken,
}

/// Pushes all numbers, each as soon as there is room.
fn send(rt: &impl Wait, queue: &IndexQueue, pass: Pass, numbers: &[u64]) -> Result<Pass, RelayError>
    requires { IsPassOf queue.now pass }
    ensures { IfOk result (λ p. Sent Index pass numbers.now p) }
{
    let Ok(mut producer) = queue.acquire_producer(pass) else {
        return Err(RelayError::Taken);
    };
    let mut next = 0;
    for _ in rt.forever() {
        if next >= numbers.len() {
            return Ok(producer.release());
        }
        if producer.push(numbers[next]) {
            next += 1;
        } else {
            thread::yield_now();
        }
    }
    unreachable!()
}

/// A receiver's pass, and the numbers that it popped.
#[derive(Drop)]
struct Receipt {
    pass: Pass,
    numbers: Vec<u64>,
}

/// Pops `count` numbers, each as soon as it is there.
fn receive(
    rt: &impl Wait,
    alloc: Global,
    queue: &IndexQueue,
    pass: Pass,
    count: usize,
) -> Result<Receipt, RelayError>
    requires { IsPassOf queue.now pass }
    ensures received { IfOk result (λ r. Received Index pass r.numbers.items r.pass) }
    ensures count { IfOk result (λ r. length r.numbers.items ≡ count) }
{
    let Ok(mut consumer) = queue.acquire_consumer(pass) else {
        return Err(RelayError::Taken);
    };
    let mut numbers = Vec::new(alloc);
    for _ in rt.forever() {
        if numbers.len() == count {
            break;
        }
        match consumer.pop() {
            Some(number) => {
                if numbers.push(number).is_err() {
                    return Err(RelayError::NoMemory);
                }
            }
            None => thread::yield_now(),
        }
    }
    let pass = consumer.release();
    Ok(Receipt { pass, numbers })
}

/// What came, and whether a last pop found nothing.
#[derive(Drop)]
pub struct Relayed {
    pub numbers: Vec<u64>,
    pub emptied: bool,
}

/// Sends the numbers from one thread to another, which takes `count` of them. What comes is a beginning
/// of them, in their order, and all of them exactly if nothing waits at the end. At most four may be
/// left over, since the queue has room for four: if more are left, or more are asked for than there
/// are, it waits for good.
pub fn relay<R: Threads + Wait + Sync>(
    rt: &R,
    alloc: Global,
    numbers: &[u64],
    count: usize,
) -> Result<Relayed, RelayError>
    ensures relayed { IfOk result (λ r. IsRelayed 4 numbers.now r.numbers.items r.emptied) }
    ensures count { IfOk result (λ r. length r.numbers.items ≡ count) }
{
    let Ok((queue, mut mine)) = IndexQueue::new(alloc, 4) else {
        return Err(RelayError::NoMemory);
    };
    let other = mine.split().ok_or(RelayError::NoPass)?;
    let shared = &queue;
    let (sent, received) = thread::join(
        rt,
        move || send(rt, shared, mine, numbers),
        move || receive(rt, alloc, shared, other, count),
    );
    let mut pass = sent?;
    let Receipt {
        pass: other,
        numbers: came,
    } = received?;
    pass.join(other);
    pass.history();
    let Ok(mut consumer) = shared.acquire_consumer(pass) else {
        return Err(RelayError::Taken);
    };
    let emptied = consumer.pop().is_none();
    consumer.history();
    Ok(Relayed {
        numbers: came,
        emptied,
    })
}

/// Sends all of some numbers, some of few, and none of them, and prints what came.
pub fn report<R: Threads + Wait + Print + Sync>(rt: &R, alloc: Global) -> io::Result<()> {
    let sent = [3, 1, 4, 1, 5, 9, 2, 6, 5, 3, 5, 8];
    let few = [3, 1, 4, 1];
    let (all, few) = (sent.as_slice(), few.as_slice());
    for (said, numbers, count) in [("sent", all, 12), ("came", few, 2), ("came", few, 0)] {
        match relay(rt, alloc, numbers, count) {
            Ok(came) => println!(rt;
                "{said}: {:?}; nothing waits: {}",
                came.numbers, came.emptied
            )?,
            Err(error) => println!(rt; "{error:?}")?,
        }
    }
    Ok(())
}
