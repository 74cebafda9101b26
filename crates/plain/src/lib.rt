//! The containers for one caller alone. They are what a closed queue becomes, the oracle of tests, and the Rust crate's
//! unsafe calls for one caller made safe. The calls are the same, driven over a vector of words. Whole calls answer as a
//! list, a stack of free indices and the like do, and the contracts say so by equations.
#![tactic(auto)]

mod answers;
pub mod bits;
pub mod container;
pub mod counts;
pub mod laws;
pub mod robust_unique_index_set;
mod swaps;
pub mod unique;
pub mod value;

pub use bits::BitSet;
pub use container::Container;
pub use counts::CountingBitSet;
pub use plain_queues::{IndexQueue, Queue, SafelyOverflowingIndexQueue, overflowing, queues};
pub use robust_unique_index_set::RobustUniqueIndexSet;
pub use unique::UniqueIndexSet;
pub use value::UnrestrictedAtomic;
