//! Queues that have one producer and one consumer at a time.
pub mod index_queue;
mod places;
pub mod queue;
pub mod ring;
pub mod safely_overflowing_index_queue;
