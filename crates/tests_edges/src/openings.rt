//! Makes each structure once. `bin/try-memory` refuses one allocation after another, and each refusal has to
//! end the test by `NoMemory` alone.
use lock_free::mpmc::bit_set::{BitSet, FixedSizeBitSet};
use lock_free::mpmc::container::{Container, FixedSizeContainer};
use lock_free::mpmc::counting_bit_set::{CountingBitSet, FixedSizeCountingBitSet};
use lock_free::mpmc::robust_unique_index_set::{RobustUniqueIndexSet, StaticRobustUniqueIndexSet};
use lock_free::mpmc::unique_index_set::{FixedSizeUniqueIndexSet, UniqueIndexSet};
use lock_free::mpmc::unique_index_set_enums::UniqueIndexCreationError;
use lock_free::spmc::unrestricted_atomic::UnrestrictedAtomic;
use lock_free::spsc::index_queue::{FixedSizeIndexQueue, IndexQueue};
use lock_free::spsc::queue::Queue;
use lock_free::spsc::safely_overflowing_index_queue::{
    FixedSizeSafelyOverflowingIndexQueue, SafelyOverflowingIndexQueue,
};
use std::alloc::Global;
use std::test::Fail;

/// Drops what was made, and keeps only whether it was refused, so that one type fits all structures.
fn opened<T: Drop, E>(made: Result<T, E>) -> Result<(), E> {
    match made {
        Ok(_) => Ok(()),
        Err(error) => Err(error),
    }
}

/// Makes queues and the single value in the form of one caller.
fn queues_of_one_caller(alloc: Global) -> Result<(), UniqueIndexCreationError> {
    opened(plain::IndexQueue::new(alloc, 2))?;
    opened(plain::SafelyOverflowingIndexQueue::new(alloc, 2))?;
    opened(plain::Queue::<u128>::new(alloc, 2))?;
    opened(plain::UnrestrictedAtomic::new(alloc, 7u128))?;
    Ok(())
}

/// Makes sets and a container in the form of one caller.
fn sets_of_one_caller(alloc: Global) -> Result<(), UniqueIndexCreationError> {
    opened(plain::BitSet::new(alloc, 123))?;
    opened(plain::CountingBitSet::new(alloc, 123))?;
    opened(plain::UniqueIndexSet::new(alloc, 3))?;
    opened(plain::RobustUniqueIndexSet::new(alloc, 3))?;
    opened(plain::Container::<u128>::new(alloc, 3, 5))?;
    Ok(())
}

/// The forms of one caller are made, or the refusal of memory is passed on.
#[test]
fn forms_of_one_caller(rt: HostRuntime) -> Result<(), Fail> {
    queues_of_one_caller(rt.alloc())?;
    sets_of_one_caller(rt.alloc())?;
    Ok(())
}

/// Makes queues and the single value in the form of threads, with a capacity from the run.
fn queues(alloc: Global) -> Result<(), UniqueIndexCreationError> {
    opened(IndexQueue::new(alloc, 2))?;
    opened(SafelyOverflowingIndexQueue::new(alloc, 2))?;
    opened(Queue::<u128, 2>::new(alloc))?;
    opened(UnrestrictedAtomic::new(alloc, 7u128))?;
    Ok(())
}

/// Makes sets and a container in the form of threads, with a capacity from the run.
fn sets(alloc: Global) -> Result<(), UniqueIndexCreationError> {
    opened(BitSet::new(alloc, 123))?;
    opened(CountingBitSet::new(alloc, 123))?;
    opened(UniqueIndexSet::new(alloc, 3))?;
    opened(RobustUniqueIndexSet::new(alloc, 3))?;
    opened(Container::<u128>::new(alloc, 3, 5))?;
    Ok(())
}

/// The forms of threads are made, or the refusal of memory is passed on.
#[test]
fn forms_of_threads(rt: HostRuntime) -> Result<(), Fail> {
    queues(rt.alloc())?;
    sets(rt.alloc())?;
    Ok(())
}

/// Makes queues in the form of threads whose types have the capacity.
fn queues_of_types(alloc: Global) -> Result<(), UniqueIndexCreationError> {
    opened(FixedSizeIndexQueue::<2>::new(alloc))?;
    opened(FixedSizeSafelyOverflowingIndexQueue::<2>::new(alloc))?;
    Ok(())
}

/// Makes sets and containers in the form of threads whose types have the capacity, also with a reduced one.
fn sets_of_types(alloc: Global) -> Result<(), UniqueIndexCreationError> {
    opened(FixedSizeBitSet::<123>::new(alloc))?;
    opened(FixedSizeCountingBitSet::<123>::new(alloc))?;
    opened(FixedSizeUniqueIndexSet::<3>::new(alloc))?;
    opened(StaticRobustUniqueIndexSet::<3>::new(alloc))?;
    opened(FixedSizeContainer::<u128, 3>::new(alloc, 5))?;
    opened(FixedSizeUniqueIndexSet::<8>::new_with_reduced_capacity(alloc, 3))?;
    opened(StaticRobustUniqueIndexSet::<8>::new_with_reduced_capacity(alloc, 3))?;
    Ok(())
}

/// The forms whose types have the capacity are made, or the refusal of memory is passed on.
#[test]
fn forms_of_types(rt: HostRuntime) -> Result<(), Fail> {
    queues_of_types(rt.alloc())?;
    sets_of_types(rt.alloc())?;
    Ok(())
}
