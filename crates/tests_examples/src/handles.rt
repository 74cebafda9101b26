//! Handles, as CALLING.md shows them: three threads ring bells, and no function has a clause. Besides,
//! handles of the single value, of a pool and of a queue.

use lock_free::mpmc::bit_set::{BitSet, Handle};
use lock_free::mpmc::unique_index_set;
use lock_free::mpmc::unique_index_set::UniqueIndexSet;
use lock_free::spmc::unrestricted_atomic::UnrestrictedAtomic;
use lock_free::spsc::index_queue::IndexQueue;
use std::sync::Wait;
use std::test::Fail;
use std::thread;
use std::thread::Threads;

/// Somebody who rings one of the bells, by a handle of the bit set that they are.
#[derive(Drop)]
pub struct Ringer<'a> {
    bells: Handle<'a>,
    bell: usize,
}

/// Rings the bell. False where there is no such bell, or it was rung already.
fn ring(rt: &impl Wait, ringer: Ringer<'_>) -> bool {
    let Ringer { mut bells, bell } = ringer;
    bell < bells.capacity() && bells.set(rt, bell)
}

/// Lets three ringers ring at the same time, each in a thread. True if each rang; None where no
/// thread could be made.
fn all<'a, R: Threads + Wait + Sync>(
    rt: &R,
    a: Ringer<'a>,
    b: Ringer<'a>,
    c: Ringer<'a>,
) -> Option<bool> {
    thread::scope(thread::scope_env(), rt, |scope| {
        let a = scope.spawn(move || ring(rt, a)).ok()?;
        let b = scope.spawn(move || ring(rt, b)).ok()?;
        let c = scope.spawn(move || ring(rt, c)).ok()?;
        Some(a.join(rt) & b.join(rt) & c.join(rt))
    })
}

/// Each of three bells that three threads rang is heard once. A bell that was lost, or heard twice, would
/// change the number.
#[test]
fn three_ring(rt: HostRuntime) -> Result<(), Fail> {
    let (set, pass) = BitSet::new(rt.alloc(), 64)?;
    let mut bells = set.handle(pass);
    let other = bells.split().ok_or("no further handle")?;
    let third = bells.split().ok_or("no further handle")?;
    let mut last = bells.split().ok_or("no further handle")?;
    let rang = all(
        &rt,
        Ringer { bells, bell: 1 },
        Ringer {
            bells: other,
            bell: 2,
        },
        Ringer {
            bells: third,
            bell: 3,
        },
    );
    let mut heard = 0u64;
    last.reset_all(&mut |_| heard = heard.wrapping_add(1));
    assert!(rt; rang == Some(true) && heard == 3);
    Ok(())
}

/// One handle stores a value and two others load it. The producer's role is refused to a second one.
#[test]
fn one_stores_and_two_load(rt: HostRuntime) -> Result<(), Fail> {
    let (value, pass) = UnrestrictedAtomic::new(rt.alloc(), 7u64)?;
    let mut mine = value.handle(pass);
    let storing = mine.split().ok_or("no further handle")?;
    let other = mine.split().ok_or("no further handle")?;
    let mut producer = storing.acquire_producer().map_err(|_| "taken")?;
    assert!(rt; producer.store(8));
    let Err(mut other) = other.acquire_producer() else {
        return Err("two have the role".into());
    };
    other.look();
    assert!(rt; mine.load(&rt) == 8 && other.load(&rt) == 8);
    let mut again = value.handle(mine.into_pass());
    assert_eq!(rt; again.load(&rt), 8);
    Ok(())
}

/// Takes an index and gives it back until it has got one `times` times, and returns that number.
fn use_pool(rt: &impl Wait, pool: unique_index_set::Handle<'_>, times: u64) -> u64 {
    let (mut pool, mut got) = (pool, 0u64);
    for _ in rt.forever() {
        if got >= times {
            break;
        }
        match pool.acquire(rt) {
            Ok(index) => {
                got += 1;
                pool = index.give_back();
            }
            Err((_, handle)) => pool = handle,
        }
    }
    got
}

/// A pool gives an index each time that one was given back.
#[test]
fn one_uses_a_pool(rt: HostRuntime) -> Result<(), Fail> {
    let (set, pass) = UniqueIndexSet::new(rt.alloc(), 2)?;
    assert_eq!(rt; use_pool(&rt, set.handle(pass), 100), 100);
    Ok(())
}

/// A queue by three handles: one pushes, one pops, and one looks and counts. A role that is
/// taken is refused to it.
#[test]
fn a_queue_by_handles(rt: HostRuntime) -> Result<(), Fail> {
    let (queue, pass) = IndexQueue::new(rt.alloc(), 4)?;
    let mut mine = queue.handle(pass);
    let other = mine.split().ok_or("no further handle")?;
    let mut third = mine.split().ok_or("no further handle")?;
    let mut producer = mine.acquire_producer().map_err(|_| "taken")?;
    let mut consumer = other.acquire_consumer().map_err(|_| "taken")?;
    assert!(rt; producer.push(7) && third.len(&rt) == 1 && !third.is_full(&rt));
    assert!(rt; consumer.pop() == Some(7) && third.is_empty(&rt) && third.capacity() == 4);
    third.look();
    let Err(mut third) = third.acquire_producer() else {
        return Err("two have the role".into());
    };
    assert_eq!(rt; third.len(&rt), 0);
    let Err(third) = third.acquire_consumer() else {
        return Err("two have the role".into());
    };
    drop(third.into_pass());
    Ok(())
}
