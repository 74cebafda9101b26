//! Queues that are closed while memory may be refused. `bin/try-memory` runs these tests, each time with
//! another allocation refused.
use lock_free::mpmc::unique_index_set_enums::UniqueIndexCreationError;
use lock_free::spsc::index_queue::IndexQueue;
use lock_free::spsc::queue::Queue;
use lock_free::spsc::safely_overflowing_index_queue::SafelyOverflowingIndexQueue;
use lock_free::spsc::{index_queue, queue, safely_overflowing_index_queue as overflowing};
use std::alloc::Global;
use std::test::Fail;
use tests_calls::long_values::Three;

/// Whether what was asked for came out right, or that memory was refused.
type Right = Result<bool, UniqueIndexCreationError>;

/// Whether both were right. False where memory was refused to both, since one refusal may not reach the
/// other. A refusal to one alone is passed on, so that the test fails by it.
fn both(one: Right, other: Right) -> Right {
    if one.is_err() && other.is_err() {
        return Ok(false);
    }
    Ok(one? && other?)
}

/// A pass that is left after a close looks, is split, and joined again. False where it cannot be split.
fn use_index_pass(left: &mut index_queue::Pass) -> bool {
    left.look();
    match left.split() {
        Some(further) => {
            left.join(further);
            true
        }
        None => false,
    }
}

/// Pushes 7 into an index queue and closes it. True if the queue that is left has just 7. The pass that was
/// split off goes on also where the close is refused memory, and that is the result then.
fn index_queue(alloc: Global) -> Right {
    let (queue, mut left) = IndexQueue::new(alloc, 2)?;
    let Some(pass) = left.split() else {
        return Ok(false);
    };
    let Ok(mut producer) = queue.acquire_producer(pass) else {
        return Ok(false);
    };
    let pushed = producer.push(7);
    let pass = producer.release();
    let closed = queue.close(pass);
    let goes_on = use_index_pass(&mut left);
    let mut list = closed?;
    Ok(pushed & goes_on & (list.pop() == Some(7)) & list.pop().is_none())
}

/// A pass of a queue of values, left after a close, looks, is split, and joined again. False
/// where it cannot be split.
fn use_value_pass(left: &mut queue::Pass<Three>) -> bool {
    left.look();
    match left.split() {
        Some(further) => {
            left.join(further);
            true
        }
        None => false,
    }
}

/// Pushes a value into a queue of values and closes it. True if the queue that is left has just this value,
/// and the pass that was split off goes on.
fn value_queue(alloc: Global) -> Right {
    let (queue, mut left) = Queue::<Three, 2>::new(alloc)?;
    let Some(pass) = left.split() else {
        return Ok(false);
    };
    let Ok(mut producer) = queue.acquire_producer(pass) else {
        return Ok(false);
    };
    let pushed = producer.push(&Three(7, 8, 9));
    let pass = producer.release();
    let closed = queue.close(pass);
    let goes_on = use_value_pass(&mut left);
    let mut list = closed?;
    Ok(pushed & goes_on & (list.pop() == Some(Three(7, 8, 9))) & list.pop().is_none())
}

/// A pass of an overflowing queue, left after a close, looks, is split, and joined again. False where it
/// cannot be split.
fn use_overflowing_pass(left: &mut overflowing::Pass) -> bool {
    left.look();
    match left.split() {
        Some(further) => {
            left.join(further);
            true
        }
        None => false,
    }
}

/// Pushes 6 and 7 into an overflowing queue of capacity 1 and closes it. True if 6 was pushed out, the queue
/// that is left has just 7, and the pass that was split off goes on.
fn overflowing_queue(alloc: Global) -> Right {
    let (queue, mut left) = SafelyOverflowingIndexQueue::new(alloc, 1)?;
    let Some(pass) = left.split() else {
        return Ok(false);
    };
    let Ok(mut producer) = queue.acquire_producer(pass) else {
        return Ok(false);
    };
    let pushed = producer.push(6).is_none() & (producer.push(7) == Some(6));
    let pass = producer.release();
    let closed = queue.close(pass);
    let goes_on = use_overflowing_pass(&mut left);
    let mut list = closed?;
    Ok(pushed & goes_on & (list.pop() == Some(7)) & list.pop().is_none())
}

/// Closes two index queues, one after another. Where memory is refused to one close, the test fails by this
/// refusal alone, and the other queue is made and closed as if nothing had been refused.
#[test]
fn a_refused_close_of_an_index_queue(rt: HostRuntime) -> Result<(), Fail> {
    let (one, other) = (index_queue(rt.alloc()), index_queue(rt.alloc()));
    assert!(rt; both(one, other)?);
    Ok(())
}

/// Closes two queues of values; the outcomes are those of `a_refused_close_of_an_index_queue`.
#[test]
fn a_refused_close_of_a_queue(rt: HostRuntime) -> Result<(), Fail> {
    let (one, other) = (value_queue(rt.alloc()), value_queue(rt.alloc()));
    assert!(rt; both(one, other)?);
    Ok(())
}

/// Closes two overflowing queues; the outcomes are those of `a_refused_close_of_an_index_queue`.
#[test]
fn a_refused_close_of_an_overflowing_queue(rt: HostRuntime) -> Result<(), Fail> {
    let (one, other) = (overflowing_queue(rt.alloc()), overflowing_queue(rt.alloc()));
    assert!(rt; both(one, other)?);
    Ok(())
}
