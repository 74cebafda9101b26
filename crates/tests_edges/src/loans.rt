//! A sender of a loan channel that is refused memory, or that is dropped.
use lock_free::mpmc::unique_index_set::UniqueIndexSet;
use lock_free::spsc::index_queue::IndexQueue;
use lock_free::spsc::loan::LoanSender;
use lock_free::spsc::safely_overflowing_index_queue::SafelyOverflowingIndexQueue;
use lock_free::spsc::{index_queue, safely_overflowing_index_queue as overflowing};
use std::test::Fail;

/// The producer of the submission queue, by which a sender sends, and another handle of that queue. None
/// where the role is taken.
fn sending<'a>(
    handle: overflowing::Handle<'a>,
) -> Option<(overflowing::Producer<'a>, overflowing::Handle<'a>)> {
    let mut handle = handle;
    let other = handle.split()?;
    let producer = handle.acquire_producer().ok()?;
    Some((producer, other))
}

/// The consumer of the completion queue, from which a sender takes indices back, and another handle of that
/// queue. None where the role is taken.
fn taking<'a>(
    handle: index_queue::Handle<'a>,
) -> Option<(index_queue::Consumer<'a>, index_queue::Handle<'a>)> {
    let mut handle = handle;
    let other = handle.split()?;
    let consumer = handle.acquire_consumer().ok()?;
    Some((consumer, other))
}

/// Whether the role of the producer is taken, so that somebody sends.
fn is_sending(handle: overflowing::Handle<'_>) -> bool {
    handle.acquire_producer().is_err()
}

/// Whether the role of the consumer is taken, so that somebody takes back.
fn is_taking(handle: index_queue::Handle<'_>) -> bool {
    handle.acquire_consumer().is_err()
}

/// A sender has both roles as long as it lives, and they are free once it is dropped. Where memory is refused
/// to it the test fails by that alone, and the roles are free at once. If one stayed taken, no later sender
/// could be made.
#[test]
fn a_refused_or_dropped_sender(rt: HostRuntime) -> Result<(), Fail> {
    let (set, slots) = UniqueIndexSet::new(rt.alloc(), 12)?;
    let (submission, sends) = SafelyOverflowingIndexQueue::new(rt.alloc(), 2)?;
    let (completion, returns) = IndexQueue::new(rt.alloc(), 12)?;
    let (producer, mut sends) = sending(submission.handle(sends)).ok_or("not to be had")?;
    let (consumer, mut returns) = taking(completion.handle(returns)).ok_or("not to be had")?;
    let sends_again = sends.split().ok_or("no further handle")?;
    let returns_again = returns.split().ok_or("no further handle")?;
    let sender = LoanSender::new(rt.alloc(), &set, slots, producer, consumer);
    let lives = sender.is_ok();
    assert!(rt; is_sending(sends) == lives);
    assert!(rt; is_taking(returns) == lives);
    drop(sender);
    assert!(rt; !is_sending(sends_again));
    assert!(rt; !is_taking(returns_again));
    if lives {
        Ok(())
    } else {
        Err(Fail::from("no memory"))
    }
}
