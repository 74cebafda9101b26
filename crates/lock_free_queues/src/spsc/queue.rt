//! A bounded queue of values with words, which one producer and one consumer share between threads.
//!
//! The clause `steps` of a call says how many atomic steps it takes: these are the operations on words that
//! its pass counts, and the driver counts each one that it performs. A `close` has no such clause, since no
//! pass is left. What is proved of threads is what the contracts say.
use super::ring;
use super::ring::rule::Values;

mod calls;
mod close;
mod drives;
mod ends;
mod make;
mod peeks;
mod pops;

/// A bounded queue of values, which threads share by reference. It holds at most CAPACITY values, from 0 to 2^32 - 1.
/// One producer pushes and one consumer pops at a time. It is used as the ring that it has. After `Queue` of the Rust
/// crate.
///
/// ```rust
/// let (queue, pass) = Queue::<u32, 2>::new(rt.alloc())?;
/// let mut handle = queue.handle(pass);
/// let other = handle.split().ok_or("no further handle")?;
/// let mut producer = handle.acquire_producer().map_err(|_| "taken")?;
/// let mut consumer = other.acquire_consumer().map_err(|_| "taken")?;
/// assert!(rt; producer.push(&7) && consumer.pop() == Some(7));
/// ```
pub type Queue<T, const CAPACITY: usize> = ring::FixedSize<Values, T, CAPACITY>;

/// A bounded queue of values whose capacity is no part of its type, which threads share by reference. This project's
/// own.
pub type Ring<T> = ring::Ring<Values, T>;

/// A pass permits its owner to call a queue of values.
pub type Pass<T> = ring::Pass<Values, T>;

/// The guard that pushes values, and owns a pass.
pub type Producer<'a, T> = ring::Producer<'a, Values, T>;

/// The guard that pops values, and owns a pass.
pub type Consumer<'a, T> = ring::Consumer<'a, Values, T>;

/// A handle has a queue of values and a pass of it, so its calls ask for no proof.
pub type Handle<'a, T> = ring::Handle<'a, Values, T>;
