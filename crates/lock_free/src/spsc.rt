//! Structures that have one producer and one consumer: the queues, and a loan channel over them.

pub use lock_free_loans::spsc::loan;
pub use lock_free_sp::spsc::{index_queue, queue, safely_overflowing_index_queue};
