//! The queues of `plain` for one caller alone, and how calls are driven over words that nobody else touches.
#![tactic(auto)]

pub mod drive;
pub mod overflowing;
pub mod queues;

pub use overflowing::SafelyOverflowingIndexQueue;
pub use queues::{IndexQueue, Queue};
