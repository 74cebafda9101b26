//! The structures of `plain`, which one caller uses, each in a few calls. A failure says that the doc comment
//! of the type shows something wrong.

use plain::{
    BitSet, Container, CountingBitSet, IndexQueue, Queue, RobustUniqueIndexSet,
    SafelyOverflowingIndexQueue, UniqueIndexSet, UnrestrictedAtomic,
};
use std::test::Fail;
use steps::enums::OwnerId;

/// A flag is set once, and comes once.
#[test]
fn flags(rt: HostRuntime) -> Result<(), Fail> {
    let mut flags = BitSet::new(rt.alloc(), 64)?;
    assert!(rt; flags.set(5) && !flags.set(5));
    assert!(rt; flags.reset_next() == Some(5) && flags.reset_next().is_none());
    Ok(())
}

/// A count of two comes by one call.
#[test]
fn counts(rt: HostRuntime) -> Result<(), Fail> {
    let mut counts = CountingBitSet::new(rt.alloc(), 8)?;
    assert!(rt; counts.set(3) == 0 && counts.set(3) == 1);
    let mut last = (0, 0);
    counts.reset_all(&mut |state| last = (state.bit(), state.count()));
    assert!(rt; last == (3, 2));
    Ok(())
}

/// A pool of one index refuses a second one.
#[test]
fn pool(rt: HostRuntime) -> Result<(), Fail> {
    let mut pool = UniqueIndexSet::new(rt.alloc(), 1)?;
    assert!(rt; pool.acquire_raw_index().is_ok());
    assert!(rt; pool.acquire_raw_index().is_err() && pool.borrowed_indices() == 1);
    Ok(())
}

/// A pool whose indices have owners counts the one that is out.
#[test]
fn pool_with_owners(rt: HostRuntime) -> Result<(), Fail> {
    let owner = OwnerId::new(7)?;
    let mut pool = RobustUniqueIndexSet::new(rt.alloc(), 4)?;
    assert!(rt; pool.acquire(owner).is_ok());
    assert!(rt; pool.borrowed_indices() == 1);
    Ok(())
}

/// A state of a container shows the value that was added.
#[test]
fn values_with_owners(rt: HostRuntime) -> Result<(), Fail> {
    let owner = OwnerId::new(7)?;
    let mut values = Container::new(rt.alloc(), 4, 1)?;
    let key = values.add(50u64, owner)?;
    let state = values.get_state()?;
    assert!(rt; state.get(key.index()) == Some(&50));
    Ok(())
}

/// A store of a value of two words raises the version by 1.
#[test]
fn value_of_two_words(rt: HostRuntime) -> Result<(), Fail> {
    let mut value = UnrestrictedAtomic::new(rt.alloc(), (7u64, 1u64))?;
    assert!(rt; value.store((8, 2)));
    assert!(rt; value.load() == (8, 2) && value.version() == 2);
    Ok(())
}

/// A peek leaves the value in the queue, and a pop takes it out.
#[test]
fn queue_of_values(rt: HostRuntime) -> Result<(), Fail> {
    let mut queue = Queue::new(rt.alloc(), 2)?;
    assert!(rt; queue.push(&7u32) && queue.len() == 1);
    assert!(rt; queue.peek() == Some(7));
    assert!(rt; queue.pop() == Some(7) && queue.pop().is_none());
    Ok(())
}

/// A full queue of numbers refuses a push.
#[test]
fn queue_of_numbers(rt: HostRuntime) -> Result<(), Fail> {
    let mut queue = IndexQueue::new(rt.alloc(), 1)?;
    assert!(rt; queue.push(3) && !queue.push(4));
    assert!(rt; queue.pop() == Some(3));
    Ok(())
}

/// A push into a full overflowing queue answers the oldest number, which it pushed out.
#[test]
fn overflowing_queue(rt: HostRuntime) -> Result<(), Fail> {
    let mut queue = SafelyOverflowingIndexQueue::new(rt.alloc(), 1)?;
    assert!(rt; queue.push(3).is_none());
    assert!(rt; queue.push(4) == Some(3));
    Ok(())
}
