//! Which types may cross threads. These tests hold if they compile.
use lock_free::mpmc::bit_set::{BitSet, FixedSizeBitSet};
use lock_free::mpmc::container::{Container, ContainerHandle, ContainerState, FixedSizeContainer};
use lock_free::mpmc::counting_bit_set::{CountingBitSet, FixedSizeCountingBitSet};
use lock_free::mpmc::robust_unique_index_set::{RobustUniqueIndexSet, StaticRobustUniqueIndexSet};
use lock_free::mpmc::unique_index_set::{FixedSizeUniqueIndexSet, UniqueIndex, UniqueIndexSet};
use lock_free::mpmc::{
    bit_set, container, counting_bit_set, robust_unique_index_set, unique_index_set,
};
use lock_free::spmc::unrestricted_atomic;
use lock_free::spmc::unrestricted_atomic::UnrestrictedAtomic;
use lock_free::spsc::index_queue::{FixedSizeIndexQueue, IndexQueue};
use lock_free::spsc::queue::Queue;
use lock_free::spsc::safely_overflowing_index_queue::{
    FixedSizeSafelyOverflowingIndexQueue, SafelyOverflowingIndexQueue,
};
use lock_free::spsc::{index_queue, queue, safely_overflowing_index_queue as overflowing};
use tests_calls::long_values::Sixteen;

/// Compiles only for a type that may be sent to another thread. A tuple may be sent where each of its parts
/// may, so one call says it of all of them.
fn may_be_sent<T: Send>() {}

/// Compiles only for a type that may be sent to another thread and shared between threads.
fn may_be_shared<T: Send + Sync>() {}

/// Queues and the single value may be shared, and their passes and guards may be sent.
#[test]
fn what_crosses_threads(rt: HostRuntime) {
    may_be_shared::<
        (
            IndexQueue,
            FixedSizeIndexQueue<8>,
            SafelyOverflowingIndexQueue,
            FixedSizeSafelyOverflowingIndexQueue<8>,
            Queue<Sixteen, 8>,
            UnrestrictedAtomic<(u64, u64)>,
        ),
    >();
    may_be_sent::<
        (
            index_queue::Pass,
            index_queue::Producer<'_>,
            index_queue::Consumer<'_>,
            overflowing::Pass,
            overflowing::Producer<'_>,
            overflowing::Consumer<'_>,
            queue::Pass<Sixteen>,
            queue::Producer<'_, Sixteen>,
        ),
    >();
    may_be_sent::<
        (
            queue::Consumer<'_, Sixteen>,
            unrestricted_atomic::Pass<(u64, u64)>,
            unrestricted_atomic::Producer<'_, (u64, u64)>,
        ),
    >();
}

/// Bit sets may be shared, and their passes may be sent.
#[test]
fn what_of_bit_sets_crosses_threads(rt: HostRuntime) {
    may_be_shared::<
        (
            BitSet,
            FixedSizeBitSet<8>,
            CountingBitSet,
            FixedSizeCountingBitSet<8>,
        ),
    >();
    may_be_sent::<(bit_set::Pass, counting_bit_set::Pass)>();
}

/// Sets of indices may be shared, and their passes and an index in hand may be sent.
#[test]
fn what_of_index_sets_crosses_threads(rt: HostRuntime) {
    may_be_shared::<
        (
            UniqueIndexSet,
            FixedSizeUniqueIndexSet<8>,
            RobustUniqueIndexSet,
            StaticRobustUniqueIndexSet<8>,
        ),
    >();
    may_be_sent::<
        (
            unique_index_set::Pass,
            UniqueIndex<'_>,
            robust_unique_index_set::Pass,
        ),
    >();
}

/// Containers and handles of values may be shared, and passes and states may be sent.
#[test]
fn what_of_containers_crosses_threads(rt: HostRuntime) {
    may_be_shared::<(Container<u32>, FixedSizeContainer<u32, 8>, ContainerHandle)>();
    may_be_sent::<(container::Pass<u32>, ContainerState<u32>)>();
}
