//! Structures that have many producers and many consumers.

pub mod bit_set;
pub mod counting_bit_set;
pub mod sets;
pub mod unique_index_set;
pub mod unique_index_set_enums;
