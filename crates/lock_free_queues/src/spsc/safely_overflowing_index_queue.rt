//! A queue of numbers of 64 bits that hands its oldest number back when it is full. One producer and one consumer share
//! it between threads.
//!
//! The clause `steps` of a call says how many atomic steps it takes: these are the operations on words that
//! its pass counts, and the driver counts each one that it performs. A `close` has no such clause, since no
//! pass is left. What is proved of threads is what the contracts say.
use super::ring;
use super::ring::rule::Overflowing;

mod calls;
mod close;
mod drives;
mod ends;
mod make;

/// A queue of numbers whose push, where it is full, hands the oldest number back. Threads share it by reference. One
/// producer pushes and one consumer pops at a time. After `SafelyOverflowingIndexQueue` of the Rust crate.
///
/// ```rust
/// let (queue, pass) = SafelyOverflowingIndexQueue::new(rt.alloc(), 1)?;
/// let mut producer = queue.handle(pass).acquire_producer().map_err(|_| "taken")?;
/// assert!(rt; producer.push(3).is_none());
/// assert!(rt; producer.push(4) == Some(3));
/// ```
pub type SafelyOverflowingIndexQueue = ring::Ring<Overflowing, u64>;

/// A `SafelyOverflowingIndexQueue` whose type names its capacity: CAPACITY, from 0 to 2^32 - 1. It is used as the queue
/// that it has. After `FixedSizeSafelyOverflowingIndexQueue` of the Rust crate.
pub type FixedSizeSafelyOverflowingIndexQueue<const CAPACITY: usize> = ring::FixedSize<
    Overflowing,
    u64,
    CAPACITY,
>;

/// A pass permits its owner to call an overflowing queue.
pub type Pass = ring::Pass<Overflowing, u64>;

/// The guard that pushes into an overflowing queue, and owns a pass.
pub type Producer<'a> = ring::Producer<'a, Overflowing, u64>;

/// The guard that pops from an overflowing queue, and owns a pass.
pub type Consumer<'a> = ring::Consumer<'a, Overflowing, u64>;

/// A handle has an overflowing queue and a pass of it, so its calls ask for no proof.
pub type Handle<'a> = ring::Handle<'a, Overflowing, u64>;
