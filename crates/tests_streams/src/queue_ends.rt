//! Calls of a queue's ends in `uses_streams::queues` that wait, make tries, or push or pop many values. The
//! tests show what no clause says: that they succeed where there is room, and in order, at seven capacities.
use lock_free_queues::spsc::index_queue::{Consumer, IndexQueue, Producer};
use lock_free_queues::spsc::queue::Queue;
use lock_free_queues::spsc::safely_overflowing_index_queue::SafelyOverflowingIndexQueue;
use lock_free_queues::spsc::{queue, safely_overflowing_index_queue as overflow};
use std::alloc::Global;
use std::sync::Wait;
use std::test::Fail;
use std::thread;
use std::thread::Threads;
use uses_streams::queues::{
    pop_all, pop_overflowing_waiting, pop_overflowing_within, pop_waiting, pop_within, push_all,
    push_waiting, push_within,
};

/// Pushes seven numbers into a queue of five, as many as go in at a time, and pops them into slices. It says
/// whether the first five went in and no more, three came, the other two went in, the remaining four came,
/// and nothing was left.
fn pass_slices(producer: &mut Producer<'_>, consumer: &mut Consumer<'_>) -> [bool; 5] {
    let values = [2, 3, 5, 7, 11, 13, 17];
    let filled = push_all(producer, &values) == 5 && push_all(producer, &values) == 0;
    let mut three = [9; 3];
    let came = pop_all(consumer, &mut three) == 3 && three == [2, 3, 5];
    let went_on = push_all(producer, &values[5..]) == 2;
    let mut six = [9; 6];
    let emptied = pop_all(consumer, &mut six) == 4 && six == [7, 11, 13, 17, 9, 9];
    let none = pop_all(consumer, &mut six) == 0 && push_all(producer, &[]) == 0;
    [filled, came, went_on, emptied, none]
}

/// Fills a queue of two pairs, and empties it, by calls with a limit of tries. It says whether calls with
/// room succeed and those with 0 tries do nothing, whether a push into the full queue gives up, and whether
/// the pairs come in order.
fn try_so_often(
    producer: &mut queue::Producer<'_, (u64, u64)>,
    consumer: &mut queue::Consumer<'_, (u64, u64)>,
) -> [bool; 3] {
    let mut at_first = pop_within(consumer, 3).is_none();
    at_first &= !push_within(producer, &(1, 2), 0);
    at_first &= push_within(producer, &(1, 2), 1) && push_within(producer, &(3, 4), 3);
    let full = !push_within(producer, &(5, 6), 3) && pop_within(consumer, 0).is_none();
    let mut in_order = pop_within(consumer, 1) == Some((1, 2));
    in_order &= pop_within(consumer, 3) == Some((3, 4));
    [at_first, full, in_order]
}

/// Pushes the numbers below `count`, each as soon as there is room.
fn push_numbers(rt: &impl Wait, producer: &mut Producer<'_>, count: u64) {
    for value in 0..count {
        push_waiting(rt, producer, &value);
    }
}

/// Pops `count` numbers, each as soon as it is there. True if they were 0, 1 and so on in order.
fn pop_numbers(rt: &impl Wait, consumer: &mut Consumer<'_>, count: u64) -> bool {
    let mut in_order = true;
    for value in 0..count {
        in_order &= pop_waiting(rt, consumer) == value;
    }
    in_order
}

/// Passes the numbers below `count` from one thread to another, and says whether they came in order. None
/// where memory or an end is refused.
fn cross<R: Threads + Wait + Sync>(
    rt: &R,
    alloc: Global,
    capacity: usize,
    count: u64,
) -> Option<bool> {
    let (queue, pass) = IndexQueue::new(alloc, capacity).ok()?;
    let (mut producer, mut consumer) = queue.ends(pass)?;
    let (in_order, _) = thread::join(
        rt,
        || pop_numbers(rt, &mut consumer, count),
        || push_numbers(rt, &mut producer, count),
    );
    Some(in_order)
}

/// Pushes the numbers below five into an overflowing queue of two. It says whether a pop with 0 tries does
/// nothing, whether the last two numbers come in order, and whether none comes after them.
fn pop_what_is_left(
    rt: &impl Wait,
    producer: &mut overflow::Producer<'_>,
    consumer: &mut overflow::Consumer<'_>,
) -> [bool; 3] {
    for value in 0..5u64 {
        let _ = producer.push(value);
    }
    let untried = pop_overflowing_within(rt, consumer, 0).is_none();
    let mut in_order = pop_overflowing_waiting(rt, consumer) == 3;
    in_order &= pop_overflowing_within(rt, consumer, 1) == Some(4);
    let none = pop_overflowing_within(rt, consumer, 3).is_none();
    [untried, in_order, none]
}

/// Pushes the numbers below `count` into an overflowing queue, which pushes the oldest ones out.
fn push_over(producer: &mut overflow::Producer<'_>, count: u64) {
    for value in 0..count {
        let _ = producer.push(value);
    }
}

/// Pops numbers, each as soon as there is one, until `count` - 1 comes. True if each was greater than the one
/// before and below `count`.
fn pop_to_the_last(rt: &impl Wait, consumer: &mut overflow::Consumer<'_>, count: u64) -> bool {
    let mut next = 0;
    for _ in 0..count {
        let value = pop_overflowing_waiting(rt, consumer);
        if value < next || value >= count {
            return false;
        }
        if value == count - 1 {
            return true;
        }
        next = value + 1;
    }
    false
}

/// Passes the numbers below `count` by an overflowing queue from one thread to another. True if those that
/// came rose up to the last one. None where memory or an end is refused.
fn cross_over<R: Threads + Wait + Sync>(
    rt: &R,
    alloc: Global,
    capacity: usize,
    count: u64,
) -> Option<bool> {
    let (queue, pass) = SafelyOverflowingIndexQueue::new(alloc, capacity).ok()?;
    let (mut producer, mut consumer) = queue.ends(pass)?;
    let (risen, _) = thread::join(
        rt,
        || pop_to_the_last(rt, &mut consumer, count),
        || push_over(&mut producer, count),
    );
    Some(risen)
}

/// `push_all` pushes as many of seven numbers as the queue has room for, at capacities from 0 to 1,000.
#[test]
fn a_queue_takes_what_it_has_room_for(rt: HostRuntime) -> Result<(), Fail> {
    for (capacity, number) in [(0, 0), (1, 1), (7, 7), (1000, 7)] {
        let (queue, pass) = IndexQueue::new(rt.alloc(), capacity)?;
        let (mut producer, _consumer) = queue.ends(pass).ok_or("no ends")?;
        let went_in = push_all(&mut producer, &[2, 3, 5, 7, 11, 13, 17]);
        assert!(rt; went_in == number, "at {capacity}");
    }
    Ok(())
}

/// Slices are pushed and popped in order, in parts, on a queue of five. A number that is lost or comes twice
/// would be seen in the slices.
#[test]
fn slices_come_in_order(rt: HostRuntime) -> Result<(), Fail> {
    let (queue, pass) = IndexQueue::new(rt.alloc(), 5)?;
    let (mut producer, mut consumer) = queue.ends(pass).ok_or("no ends")?;
    assert!(rt; pass_slices(&mut producer, &mut consumer) == [true; 5]);
    Ok(())
}

/// Calls with a limit of tries end: with success where there is room or a value, and otherwise without.
#[test]
fn tries_end(rt: HostRuntime) -> Result<(), Fail> {
    let (queue, pass) = Queue::<(u64, u64), 2>::new(rt.alloc())?;
    let (mut producer, mut consumer) = queue.ends(pass).ok_or("no ends")?;
    assert!(rt; try_so_often(&mut producer, &mut consumer) == [true; 3]);
    Ok(())
}

/// All numbers come in order to a thread that waits for them. A wait that missed one would not end.
#[test]
fn who_waits_gets_all(rt: HostRuntime) -> Result<(), Fail> {
    for (capacity, count) in [(1, 100), (2, 100), (64, 1000), (1000, 3000)] {
        assert!(rt;
            cross(&rt, rt.alloc(), capacity, count) == Some(true),
            "at {capacity}"
        );
    }
    Ok(())
}

/// The numbers that an overflowing queue still has come in order, and a queue without capacity gives none.
#[test]
fn the_oldest_that_is_left_comes(rt: HostRuntime) -> Result<(), Fail> {
    let (queue, pass) = SafelyOverflowingIndexQueue::new(rt.alloc(), 2)?;
    let (mut producer, mut consumer) = queue.ends(pass).ok_or("no ends")?;
    assert!(rt; pop_what_is_left(&rt, &mut producer, &mut consumer) == [true; 3]);
    let (none, pass) = SafelyOverflowingIndexQueue::new(rt.alloc(), 0)?;
    let (_producer, mut consumer) = none.ends(pass).ok_or("no ends")?;
    assert!(rt; pop_overflowing_within(&rt, &mut consumer, 3).is_none());
    Ok(())
}

/// A thread that waits at an overflowing queue gets the last number, which nothing pushes out.
#[test]
fn who_waits_gets_the_last(rt: HostRuntime) -> Result<(), Fail> {
    for (capacity, count) in [(1, 1), (1, 100), (64, 3000)] {
        assert!(rt;
            cross_over(&rt, rt.alloc(), capacity, count) == Some(true),
            "at {capacity}"
        );
    }
    Ok(())
}
