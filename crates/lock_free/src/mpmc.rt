//! Structures that have many producers and many consumers.

pub use lock_free_owners::mpmc::{container, robust_unique_index_set};
pub use lock_free_sets::mpmc::{
    bit_set, counting_bit_set, sets, unique_index_set, unique_index_set_enums,
};
