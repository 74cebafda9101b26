//! Structures that have many producers and many consumers.

pub mod container;
pub mod robust_unique_index_set;
