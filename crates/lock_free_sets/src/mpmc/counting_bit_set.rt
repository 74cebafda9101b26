//! A count for each place, which any number of threads raise and take out.
//!
//! The clause `steps` of a call says how many atomic steps it takes: these are the operations on words
//! that its pass counts, and the driver counts each one that it performs. What is proved of threads is
//! what the contracts say.
use super::sets;
use super::sets::rule::Counts;
pub use steps::bits::counting_bit_set::BitState;

mod calls;
mod drives;
mod handles;

/// A count for each of its places, which threads share by reference. After `CountingBitSet` of the Rust crate.
///
/// ```rust
/// let (set, pass) = CountingBitSet::new(rt.alloc(), 8)?;
/// let mut counts = set.handle(pass);
/// assert!(rt; counts.set(3) == 0 && counts.set(3) == 1);
/// let mut last = (0, 0);
/// counts.reset_all(&mut |state| last = (state.bit(), state.count()));
/// assert!(rt; last == (3, 2));
/// ```
pub type CountingBitSet = sets::Set<Counts>;

/// A `CountingBitSet` whose type names its capacity: CAPACITY, from 0 to 2^32 - 1. It is used as the set that it has.
/// After `FixedSizeCountingBitSet` of the Rust crate.
pub type FixedSizeCountingBitSet<const CAPACITY: usize> = sets::FixedSize<Counts, CAPACITY>;

/// A pass permits its owner to call a counting bit set. It knows which set it is for, how much of the set's history it
/// has seen, and what of it is its own doing. Each call is made with a pass of its set, which is the caller's concern.
/// This project's own.
pub type Pass = sets::Pass<Counts>;

/// A handle has a counting bit set and a pass of it, so its calls ask for no proof. Each thread has one of its own, by
/// `split`. This project's own.
pub type Handle<'a> = sets::Handle<'a, Counts>;
