//! A consumer that stops cleanly when the producer says so, one that waits on two queues at once, and a
//! producer that gives up at a queue that stays full.
use lock_free_queues::spsc::index_queue::{Consumer, IndexQueue, Producer};
use lock_free_waits::both::{Both, Either};
use lock_free_waits::waits::{put_until, try_until};
use std::alloc::Global;
use std::sync::Wait;
use std::sync::atomic::{AtomicU64, Ordering};
use std::test::Fail;
use std::thread;
use std::thread::Threads;

/// How many numbers each producer pushes.
const NUMBERS: u64 = 1_000;

/// Pushes the numbers below `NUMBERS`, each as soon as there is room, and then notes that it has ended. True
/// if all were pushed, which nobody stops.
fn push_all(rt: &impl Wait, mut producer: Producer<'_>, ended: &AtomicU64) -> bool {
    let mut all = true;
    for number in 0..NUMBERS {
        all &= put_until(rt, &mut producer, &number, &mut || false);
    }
    ended.fetch_add(1, Ordering::SeqCst);
    all
}

/// Pops until the producer has ended and nothing is left. It returns how many numbers came, in order.
fn pop_until_ended(rt: &impl Wait, mut consumer: Consumer<'_>, ended: &AtomicU64) -> u64 {
    let mut came = 0u64;
    for _ in 0..=NUMBERS {
        match try_until(rt, &mut consumer, &mut || ended.load(Ordering::SeqCst) == 1) {
            Some(number) if number == came => came = came.wrapping_add(1),
            Some(_) => return came,
            None => return pop_rest(&mut consumer, came),
        }
    }
    came
}

/// Pops what was pushed between the last try and the stop, as long as numbers come in order, from `next` on. It returns
/// the number that would come next.
fn pop_rest(consumer: &mut Consumer<'_>, next: u64) -> u64 {
    let mut came = next;
    for _ in 0..NUMBERS {
        match consumer.pop() {
            Some(number) if number == came => came = came.wrapping_add(1),
            _ => return came,
        }
    }
    came
}

/// A producer and a consumer in two threads. None where memory or an end is refused.
fn stop_cleanly<R: Threads + Wait + Sync>(rt: &R, alloc: Global) -> Option<(bool, u64)> {
    let (queue, pass) = IndexQueue::new(alloc, 3).ok()?;
    let (producer, consumer) = queue.ends(pass)?;
    let ended = AtomicU64::new(0);
    let ended = &ended;
    Some(thread::join(
        rt,
        move || push_all(rt, producer, ended),
        move || pop_until_ended(rt, consumer, ended),
    ))
}

/// All numbers come: where the stop is heard the producer has ended, and what it pushed after the last try is popped then.
#[test]
fn a_consumer_stops_after_the_last_number(rt: HostRuntime) -> Result<(), Fail> {
    assert!(rt; stop_cleanly(&rt, rt.alloc()) == Some((true, NUMBERS)));
    Ok(())
}

/// Pops of both queues until both producers have ended and nothing is left. It returns how many numbers of
/// each came, in order.
fn pop_of_two<'a>(
    rt: &impl Wait,
    one: Consumer<'a>,
    two: Consumer<'a>,
    ended: &AtomicU64,
) -> (u64, u64) {
    let mut both = Both { one, two };
    let (mut first, mut second) = (0u64, 0u64);
    for _ in 0..=2 * NUMBERS {
        match try_until(rt, &mut both, &mut || ended.load(Ordering::SeqCst) == 2) {
            Some(Either::One(number)) if number == first => first = first.wrapping_add(1),
            Some(Either::Two(number)) if number == second => second = second.wrapping_add(1),
            Some(_) => return (first, second),
            None => return (
                pop_rest(&mut both.one, first),
                pop_rest(&mut both.two, second),
            ),
        }
    }
    (first, second)
}

/// Two producers and one consumer, which waits on both queues, in three threads. None where memory or an end
/// is refused.
fn wait_on_two<R: Threads + Wait + Sync>(rt: &R, alloc: Global) -> Option<(u64, u64)> {
    let (first, pass) = IndexQueue::new(alloc, 3).ok()?;
    let (to_first, one) = first.ends(pass)?;
    let (second, pass) = IndexQueue::new(alloc, 1).ok()?;
    let (to_second, two) = second.ends(pass)?;
    let ended = AtomicU64::new(0);
    let ended = &ended;
    let (came, _) = thread::join(
        rt,
        move || pop_of_two(rt, one, two, ended),
        move || thread::join(
            rt,
            move || push_all(rt, to_first, ended),
            move || push_all(rt, to_second, ended),
        ),
    );
    Some(came)
}

/// A consumer that waits on two queues gets all numbers of both, each queue's in order.
#[test]
fn a_consumer_waits_on_two_queues(rt: HostRuntime) -> Result<(), Fail> {
    assert!(rt; wait_on_two(&rt, rt.alloc()) == Some((NUMBERS, NUMBERS)));
    Ok(())
}

/// Fills a queue of one and pushes again, until the closure has been asked three times. It says whether the
/// first push went in and the second did not. None where memory or an end is refused.
fn give_up(rt: &impl Wait, alloc: Global) -> Option<(bool, bool)> {
    let (queue, pass) = IndexQueue::new(alloc, 1).ok()?;
    let (mut producer, _consumer) = queue.ends(pass)?;
    let mut asked = 0u64;
    let went = put_until(rt, &mut producer, &1, &mut || true);
    let full = put_until(
        rt,
        &mut producer,
        &2,
        &mut || {
            asked = asked.wrapping_add(1);
            asked == 3
        },
    );
    Some((went, full))
}

/// A producer gives up where the queue stays full and the closure says so.
#[test]
fn a_producer_gives_up(rt: HostRuntime) -> Result<(), Fail> {
    assert!(rt; give_up(&rt, rt.alloc()) == Some((true, false)));
    Ok(())
}
