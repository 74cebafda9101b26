//! A number that goes from one thread to another, as README.md shows it, and the single value.

use lock_free::spmc::unrestricted_atomic::UnrestrictedAtomic;
use lock_free::spsc::index_queue::{Consumer, IndexQueue};
use std::sync::Wait;
use std::test::Fail;
use std::thread;

/// Pops until a number comes.
fn pop_one(rt: &impl Wait, consumer: &mut Consumer<'_>) -> Option<u64> {
    for _ in rt.forever() {
        if let Some(number) = consumer.pop() {
            return Some(number);
        }
    }
    None
}

// README.md shows these lines.
#[test]
fn readme_queue(rt: HostRuntime) -> Result<(), Fail> {
    let (queue, mut mine) = IndexQueue::new(rt.alloc(), 4)?;
    let other = mine.split().ok_or("no further pass")?;
    let mut producer = queue.acquire_producer(mine).map_err(|_| "taken")?;
    let mut consumer = queue.acquire_consumer(other).map_err(|_| "taken")?;
    let (pushed, popped) = thread::join(
        &rt,
        || producer.push(1234),
        || pop_one(&rt, &mut consumer),
    );
    assert!(rt; pushed && popped == Some(1234));
    Ok(())
}

// crates/lock_free/CALLING.md names these lines.
#[test]
fn readme_value(rt: HostRuntime) -> Result<(), Fail> {
    let (value, mut pass) = UnrestrictedAtomic::new(rt.alloc(), 7u64)?;
    let other = pass.split().ok_or("no further pass")?;
    let mut producer = value.acquire_producer(other).map_err(|_| "taken")?;
    assert!(rt; producer.store(8)); // false where the versions are used up
    assert_eq!(rt; value.load(&rt, &mut pass), 8);
    Ok(())
}
