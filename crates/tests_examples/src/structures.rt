//! The structures of `lock_free`, used by one thread with handles and guards, as CALLING.md shows them. A
//! failure says that a document or doc comment shows something wrong.

use lock_free::mpmc::bit_set::BitSet;
use lock_free::mpmc::container::Container;
use lock_free::mpmc::counting_bit_set::CountingBitSet;
use lock_free::mpmc::robust_unique_index_set::{OwnerId, RobustUniqueIndexSet};
use lock_free::mpmc::unique_index_set::UniqueIndexSet;
use lock_free::mpmc::unique_index_set_enums::ReleaseMode;
use lock_free::spmc::unrestricted_atomic::UnrestrictedAtomic;
use lock_free::spsc::index_queue::IndexQueue;
use lock_free::spsc::loan::LoanSender;
use lock_free::spsc::queue::Queue;
use lock_free::spsc::safely_overflowing_index_queue::SafelyOverflowingIndexQueue;
use std::test::Fail;

/// A flag is set once, and comes once.
#[test]
fn flags(rt: HostRuntime) -> Result<(), Fail> {
    let (set, pass) = BitSet::new(rt.alloc(), 64)?;
    let mut flags = set.handle(pass);
    assert!(rt; flags.set(&rt, 5) && !flags.set(&rt, 5));
    assert!(rt; flags.reset_next(&rt) == Some(5) && flags.reset_next(&rt).is_none());
    Ok(())
}

/// A count of two comes by one call.
#[test]
fn counts(rt: HostRuntime) -> Result<(), Fail> {
    let (set, pass) = CountingBitSet::new(rt.alloc(), 8)?;
    let mut counts = set.handle(pass);
    assert!(rt; counts.set(3) == 0 && counts.set(3) == 1);
    let mut last = (0, 0);
    counts.reset_all(&mut |state| last = (state.bit(), state.count()));
    assert!(rt; last == (3, 2));
    Ok(())
}

/// An index of a pool is given back by its guard, and no index is out then.
#[test]
fn pool(rt: HostRuntime) -> Result<(), Fail> {
    let (set, pass) = UniqueIndexSet::new(rt.alloc(), 2)?;
    let handle = set.handle(pass);
    let index = handle.acquire(&rt).map_err(|_| "none is free")?;
    assert!(rt; index.value() < 2);
    let mut handle = index.give_back();
    assert!(rt; handle.borrowed_indices() == 0);
    Ok(())
}

/// The index of an owner who died comes back by a recovery.
#[test]
fn pool_with_owners(rt: HostRuntime) -> Result<(), Fail> {
    let owner = OwnerId::new(7)?;
    let (set, pass) = RobustUniqueIndexSet::new(rt.alloc(), 4)?;
    let mut pool = set.handle(pass);
    assert!(rt; pool.acquire(&rt, owner).is_ok());
    // The owner has died: another caller frees what it had.
    pool.recover(
        &rt,
        ReleaseMode::Default,
        &mut |of, _| of == owner,
        &mut |_, _| {},
    );
    assert!(rt; pool.borrowed_indices(&rt) == 0);
    Ok(())
}

/// A state of a container shows the value that was added, until it is removed.
#[test]
fn values_with_owners(rt: HostRuntime) -> Result<(), Fail> {
    let owner = OwnerId::new(7)?;
    let (container, pass) = Container::new(rt.alloc(), 4, 1)?;
    let mut values = container.handle(pass);
    let key = values.add(&rt, 50u64, owner)?;
    let state = values.get_state(&rt)?;
    assert!(rt; state.get(key.index()) == Some(&50));
    assert!(rt; values.remove(&rt, key, ReleaseMode::Default).is_ok());
    Ok(())
}

/// A handle loads the value that another handle's producer has stored, and sees its version.
#[test]
fn latest_value(rt: HostRuntime) -> Result<(), Fail> {
    let (value, pass) = UnrestrictedAtomic::new(rt.alloc(), (7u64, 1u64))?;
    let mut reader = value.handle(pass);
    let writer = reader.split().ok_or("no further handle")?;
    let mut producer = writer.acquire_producer().map_err(|_| "taken")?;
    assert!(rt; producer.store((8, 2)) && reader.load(&rt) == (8, 2));
    assert!(rt; reader.version() == 3 && reader.has_producer());
    Ok(())
}

/// A value that one handle's producer pushes comes out at the other handle's consumer.
#[test]
fn queue_of_values(rt: HostRuntime) -> Result<(), Fail> {
    let (queue, pass) = Queue::<u32, 2>::new(rt.alloc())?;
    let mut handle = queue.handle(pass);
    let other = handle.split().ok_or("no further handle")?;
    let mut producer = handle.acquire_producer().map_err(|_| "taken")?;
    let mut consumer = other.acquire_consumer().map_err(|_| "taken")?;
    assert!(rt; producer.push(&7) && consumer.pop() == Some(7));
    Ok(())
}

/// A push into a full overflowing queue answers the oldest number, which it pushed out.
#[test]
fn overflowing_queue(rt: HostRuntime) -> Result<(), Fail> {
    let (queue, pass) = SafelyOverflowingIndexQueue::new(rt.alloc(), 1)?;
    let mut producer = queue.handle(pass).acquire_producer().map_err(|_| "taken")?;
    assert!(rt; producer.push(3).is_none());
    assert!(rt; producer.push(4) == Some(3));
    Ok(())
}

/// A slot is loaned, sent, received, given back and taken back.
#[test]
fn loan_channel(rt: HostRuntime) -> Result<(), Fail> {
    let (slots, pass) = UniqueIndexSet::new(rt.alloc(), 3)?;
    let (there, mut sends) = SafelyOverflowingIndexQueue::new(rt.alloc(), 1)?;
    let (back, mut returns) = IndexQueue::new(rt.alloc(), 3)?;
    let receiving = sends.split().ok_or("no further pass")?;
    let returning = returns.split().ok_or("no further pass")?;
    let producer = there.acquire_producer(sends).map_err(|_| "taken")?;
    let consumer = back.acquire_consumer(returns).map_err(|_| "taken")?;
    let mut receiver = there.acquire_consumer(receiving).map_err(|_| "taken")?;
    let mut returner = back.acquire_producer(returning).map_err(|_| "taken")?;
    let Ok(mut sender) = LoanSender::new(rt.alloc(), &slots, pass, producer, consumer) else {
        return Err("no memory".into());
    };
    let slot = sender.loan(&rt)?;
    // .. the sender writes its data into the buffer of this number
    sender.send(slot);
    let came = receiver.pop(&rt).ok_or("nothing came")?;
    // .. the receiver reads them there
    assert!(rt; returner.push(came) && sender.take_back() == Some(slot as u64));
    Ok(())
}
