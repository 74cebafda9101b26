//! A bounded queue of numbers of 64 bits, which one producer and one consumer share between threads.
//!
//! The clause `steps` of a call says how many atomic steps it takes: these are the operations on words that
//! its pass counts, and the driver counts each one that it performs. A `close` has no such clause, since no
//! pass is left. What is proved of threads is what the contracts say.
use super::ring;
use super::ring::rule::Numbers;

mod calls;
mod close;
mod drives;
mod ends;
mod make;

/// A bounded queue of numbers, which threads share by reference. One producer pushes and one consumer pops at a time.
/// After `IndexQueue` of the Rust crate.
///
/// ```rust
/// let (queue, pass) = IndexQueue::new(alloc, 4).ok()?;
/// let mut handle = queue.handle(pass);
/// let other = handle.split()?;
/// let mut producer = handle.acquire_producer().ok()?;
/// let mut consumer = other.acquire_consumer().ok()?;
/// producer.push(3);
/// producer.push(1);
/// Some([consumer.pop(), consumer.pop(), consumer.pop()])
/// ```
pub type IndexQueue = ring::Ring<Numbers, u64>;

/// An `IndexQueue` whose type names its capacity: CAPACITY, from 0 to 2^32 - 1. It is used as the queue that it has.
/// After `FixedSizeIndexQueue` of the Rust crate.
pub type FixedSizeIndexQueue<const CAPACITY: usize> = ring::FixedSize<Numbers, u64, CAPACITY>;

/// A pass permits its owner to call a queue of numbers.
pub type Pass = ring::Pass<Numbers, u64>;

/// The guard that pushes numbers, and owns a pass.
pub type Producer<'a> = ring::Producer<'a, Numbers, u64>;

/// The guard that pops numbers, and owns a pass.
pub type Consumer<'a> = ring::Consumer<'a, Numbers, u64>;

/// A handle has a queue of numbers and a pass of it, so its calls ask for no proof.
pub type Handle<'a> = ring::Handle<'a, Numbers, u64>;
