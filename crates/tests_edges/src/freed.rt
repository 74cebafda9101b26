//! Each structure is made many times, with its passes, guards and handles, which are dropped: then its memory
//! has to come back. `bin/try-memory --freed` runs these tests with 32 MB of memory, less than the structures
//! of one test would take if none of it came back.
use lock_free::mpmc::bit_set::BitSet;
use lock_free::mpmc::container::Container;
use lock_free::mpmc::counting_bit_set::CountingBitSet;
use lock_free::mpmc::robust_unique_index_set::RobustUniqueIndexSet;
use lock_free::mpmc::unique_index_set::UniqueIndexSet;
use lock_free::mpmc::unique_index_set_enums::UniqueIndexCreationError;
use lock_free::spmc::unrestricted_atomic::UnrestrictedAtomic;
use lock_free::spsc::index_queue::IndexQueue;
use lock_free::spsc::queue::Queue;
use lock_free::spsc::safely_overflowing_index_queue::SafelyOverflowingIndexQueue;
use std::alloc::Global;
use std::sync::Wait;
use std::test::Fail;
use tests_calls::long_values::Greatest;

/// How many places each structure has. If nothing came back, all structures of one test would
/// take 33 MB and more.
const PLACES: usize = 5000;

/// How often each structure is made.
const ROUNDS: u64 = 1000;

/// How often the single value is made. It takes 2 KB, which is less than the others, so
/// it is made more often.
const VALUES: u64 = 20_000;

/// Whether the structure was made, or the reason why not.
type Made = Result<(), UniqueIndexCreationError>;

/// Makes an index queue, and drops the guards of both roles, which are taken by passes.
fn index_queue(alloc: Global) -> Made {
    let (queue, mut pass) = IndexQueue::new(alloc, PLACES)?;
    let other = pass.split();
    drop(queue.acquire_producer(pass));
    if let Some(other) = other {
        drop(queue.acquire_consumer(other));
    }
    Ok(())
}

/// Makes an index queue, and drops the guards of both roles, which are taken by handles.
fn handles_of_index_queue(alloc: Global) -> Made {
    let (queue, pass) = IndexQueue::new(alloc, PLACES)?;
    let mut handle = queue.handle(pass);
    let other = handle.split();
    drop(handle.acquire_producer());
    if let Some(other) = other {
        drop(other.acquire_consumer());
    }
    Ok(())
}

/// Makes a queue of values, and drops the guards of both roles.
fn queue(alloc: Global) -> Made {
    let (queue, mut pass) = Queue::<u64, PLACES>::new(alloc)?;
    let other = pass.split();
    drop(queue.acquire_producer(pass));
    if let Some(other) = other {
        drop(queue.acquire_consumer(other));
    }
    Ok(())
}

/// Makes an overflowing queue, and drops the guards of both roles.
fn overflowing_queue(alloc: Global) -> Made {
    let (queue, mut pass) = SafelyOverflowingIndexQueue::new(alloc, PLACES)?;
    let other = pass.split();
    drop(queue.acquire_producer(pass));
    if let Some(other) = other {
        drop(queue.acquire_consumer(other));
    }
    Ok(())
}

/// Makes a value of 128 words, and drops its producer and a handle.
fn value(alloc: Global) -> Made {
    let (value, mut pass) = UnrestrictedAtomic::new(alloc, Greatest(7, 8, 9))?;
    if let Some(other) = pass.split() {
        drop(value.acquire_producer(other));
    }
    drop(value.handle(pass));
    Ok(())
}

/// Makes a bit set, and drops a handle and a pass.
fn bit_set(alloc: Global) -> Made {
    let (set, mut pass) = BitSet::new(alloc, 64 * PLACES)?;
    let other = pass.split();
    drop(set.handle(pass));
    drop(other);
    Ok(())
}

/// Makes a counting bit set, and drops a handle and a pass.
fn counting_bit_set(alloc: Global) -> Made {
    let (set, mut pass) = CountingBitSet::new(alloc, PLACES)?;
    let other = pass.split();
    drop(set.handle(pass));
    drop(other);
    Ok(())
}

/// Makes a unique index set, and drops an index that was taken by a pass, one that was taken by a handle, and
/// a handle. An index that is dropped gives itself back.
fn unique_index_set(rt: &impl Wait, alloc: Global) -> Made {
    let (set, mut pass) = UniqueIndexSet::new(alloc, PLACES)?;
    if let Some(other) = pass.split() {
        drop(set.acquire(rt, other));
    }
    let mut handle = set.handle(pass);
    let other = handle.split();
    drop(handle.acquire(rt));
    drop(other);
    Ok(())
}

/// Makes a robust set, and drops a handle and a pass.
fn robust_unique_index_set(alloc: Global) -> Made {
    let (set, mut pass) = RobustUniqueIndexSet::new(alloc, PLACES)?;
    let other = pass.split();
    drop(set.handle(pass));
    drop(other);
    Ok(())
}

/// Makes a container, and drops a handle and a pass.
fn container(alloc: Global) -> Made {
    let (container, mut pass) = Container::<u64>::new(alloc, PLACES, 5)?;
    let other = pass.split();
    drop(container.handle(pass));
    drop(other);
    Ok(())
}

/// The memory of an index queue comes back once its guards, passes and handles are dropped. If one of them
/// kept it, a later queue would be refused memory.
#[test]
fn index_queues(rt: HostRuntime) -> Result<(), Fail> {
    for _ in 0..ROUNDS {
        index_queue(rt.alloc())?;
        handles_of_index_queue(rt.alloc())?;
    }
    Ok(())
}

/// The memory of a queue of values comes back, or a later one would be refused memory.
#[test]
fn queues(rt: HostRuntime) -> Result<(), Fail> {
    for _ in 0..ROUNDS {
        queue(rt.alloc())?;
    }
    Ok(())
}

/// The memory of an overflowing queue comes back, or a later one would be refused memory.
#[test]
fn overflowing_queues(rt: HostRuntime) -> Result<(), Fail> {
    for _ in 0..ROUNDS {
        overflowing_queue(rt.alloc())?;
    }
    Ok(())
}

/// The memory of the single value comes back, or a later one would be refused memory.
#[test]
fn values(rt: HostRuntime) -> Result<(), Fail> {
    for _ in 0..VALUES {
        value(rt.alloc())?;
    }
    Ok(())
}

/// The memory of a bit set comes back, or a later one would be refused memory.
#[test]
fn bits(rt: HostRuntime) -> Result<(), Fail> {
    for _ in 0..ROUNDS {
        bit_set(rt.alloc())?;
    }
    Ok(())
}

/// The memory of a counting bit set comes back, or a later one would be refused memory.
#[test]
fn counts(rt: HostRuntime) -> Result<(), Fail> {
    for _ in 0..ROUNDS {
        counting_bit_set(rt.alloc())?;
    }
    Ok(())
}

/// The memory of a unique index set comes back, or a later one would be refused memory.
#[test]
fn unique_sets(rt: HostRuntime) -> Result<(), Fail> {
    for _ in 0..ROUNDS {
        unique_index_set(&rt, rt.alloc())?;
    }
    Ok(())
}

/// The memory of a robust set comes back, or a later one would be refused memory.
#[test]
fn robust_sets(rt: HostRuntime) -> Result<(), Fail> {
    for _ in 0..ROUNDS {
        robust_unique_index_set(rt.alloc())?;
    }
    Ok(())
}

/// The memory of a container comes back, or a later one would be refused memory.
#[test]
fn containers(rt: HostRuntime) -> Result<(), Fail> {
    for _ in 0..ROUNDS {
        container(rt.alloc())?;
    }
    Ok(())
}
