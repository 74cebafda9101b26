//! Sends numbers from one thread to another that may be slow, through a queue that hands back its oldest where it is full.
//! Proved: each number was popped or handed back, once, and both lists stand in the order in which they were sent.

ghost use Rattle.std.specs.Prelude.{◌≡◌, ◌<◌, IfSome};
ghost use Rattle.lock_free.specs.Queues.Overflowing.{view, queue_of, IsPassOf, consumer_view, consumer_queue};
ghost use Rattle.lock_free.specs.Queues.Merges.{HasPushedUpTo, HasTaken, HasDrained, Merges};

use lock_free::spsc::safely_overflowing_index_queue::{
    Consumer, Pass, SafelyOverflowingIndexQueue,
};
use std::alloc::Global;
use std::sync::Wait;
use std::thread::Threads;
use std::{io, thread};

/// Pushes all numbers. Returns the pass, and the numbers that were handed back.
fn push_all(
    alloc: Global,
    queue: &SafelyOverflowingIndexQueue,
    pass: Pass,
    numbers: &[u64],
) -> Option<(Pass, Vec<u64>)>
    requires { IsPassOf queue.now pass }
    ensures queue { IfSome result (λ r. queue_of r.0 ≡ queue_of pass) }
    ensures pushed { 0 < (queue_of pass).capacity
        → IfSome result (λ r. HasPushedUpTo numbers.now r.1.items (view pass) (view r.0)) }
{
    let Ok(mut producer) = queue.acquire_producer(pass) else {
        return None;
    };
    let mut handed_back = Vec::new(alloc);
    for next in 0..numbers.len() {
        match producer.push(numbers[next]) {
            Some(back) => handed_back.push(back).ok()?,
            None => continue,
        }
    }
    let pass = producer.release();
    Some((pass, handed_back))
}

/// Pops `times` times. Returns the pass, and the numbers that came.
fn pop_some(
    rt: &impl Wait,
    alloc: Global,
    queue: &SafelyOverflowingIndexQueue,
    pass: Pass,
    times: usize,
) -> Option<(Pass, Vec<u64>)>
    requires { IsPassOf queue.now pass }
    ensures queue { IfSome result (λ r. queue_of r.0 ≡ queue_of pass) }
    ensures popped { 0 < (queue_of pass).capacity
        → IfSome result (λ r. HasTaken r.1.items (view pass) (view r.0)) }
{
    let Ok(mut consumer) = queue.acquire_consumer(pass) else {
        return None;
    };
    let mut numbers = Vec::new(alloc);
    for _ in 0..times {
        match consumer.pop(rt) {
            Some(number) => numbers.push(number).ok()?,
            None => continue,
        }
    }
    let pass = consumer.release();
    Some((pass, numbers))
}

/// Pops until a pop finds the queue empty.
fn drain(rt: &impl Wait, consumer: &mut Consumer<'_>, numbers: &mut Vec<u64>) -> Option<()>
    ensures queue { consumer_queue consumer.new ≡ consumer_queue consumer.old }
    ensures drained { 0 < (consumer_queue consumer.old).capacity
        → IfSome result (λ _. HasDrained numbers.old.items numbers.new.items
        (consumer_view consumer.old) (consumer_view consumer.new)) }
{
    for _ in rt.forever() {
        match consumer.pop(rt) {
            Some(number) => numbers.push(number).ok()?,
            None => {
                consumer.history();
                return Some(());
            }
        }
    }
    unreachable!()
}

/// The numbers that came through, and those that were handed back.
#[derive(Drop)]
pub struct Overflowed {
    pub popped: Vec<u64>,
    pub handed_back: Vec<u64>,
}

/// Sends the numbers from one thread to another, which pops `times` times; what waits then is popped too.
/// Each number is popped or handed back, once, and both lists are in the order of sending. None where memory
/// or a further pass is refused.
pub fn overflow<R: Threads + Wait + Sync>(
    rt: &R,
    alloc: Global,
    numbers: &[u64],
    times: usize,
) -> Option<Overflowed>
    ensures { IfSome result (λ r. Merges r.popped.items r.handed_back.items numbers.now) }
{
    let (queue, mut mine) = SafelyOverflowingIndexQueue::new(alloc, 4).ok()?;
    let other = mine.split()?;
    let shared = &queue;
    let (pushed, came) = thread::join(
        rt,
        move || push_all(alloc, shared, mine, numbers),
        move || pop_some(rt, alloc, shared, other, times),
    );
    let (mut pass, handed_back) = pushed?;
    let (further, mut popped) = came?;
    pass.join(further);
    let Ok(mut consumer) = shared.acquire_consumer(pass) else {
        return None;
    };
    drain(rt, &mut consumer, &mut popped)?;
    Some(Overflowed {
        popped,
        handed_back,
    })
}

/// Sends numbers to one that pops a few times, and to one that does not, and prints how many went which way.
pub fn report<R: Threads + Wait + Print + Sync>(rt: &R, alloc: Global) -> io::Result<()> {
    let sent = [20, 21, 22, 23, 24, 25, 26, 27, 28, 29];
    let Some(came) = overflow(rt, alloc, sent.as_slice(), 5) else {
        return println!(rt; "no memory");
    };
    let number = came.popped.len() + came.handed_back.len();
    println!(rt; "popped or handed back: {number}")?;
    let Some(came) = overflow(rt, alloc, &[5, 5, 5, 5, 5, 5], 0) else {
        return println!(rt; "no memory");
    };
    let (popped, handed_back) = (came.popped.len(), came.handed_back.len());
    println!(rt; "of six that were sent before a pop: {popped} popped, {handed_back} handed back")
}
