//! A set of places that any number of threads set and reset.
//!
//! The clause `steps` of a call says how many atomic steps it takes: these are the operations on words
//! that its pass counts, and the driver counts each one that it performs. What is proved of threads is
//! what the contracts say.
use super::sets;
use super::sets::rule::Flags;

mod calls;
mod drives;
mod handles;
mod resets;

/// A set of places, each set or clear, which threads share by reference. The flags stand 64 to a word. After `BitSet`
/// of the Rust crate.
///
/// ```rust
/// let (set, pass) = BitSet::new(rt.alloc(), 64)?;
/// let mut flags = set.handle(pass);
/// assert!(rt; flags.set(&rt, 5) && !flags.set(&rt, 5));
/// assert!(rt; flags.reset_next(&rt) == Some(5) && flags.reset_next(&rt).is_none());
/// ```
pub type BitSet = sets::Set<Flags>;

/// A `BitSet` whose type names its capacity: CAPACITY, from 0 to 2^32 - 1. It is used as the set that it has. After
/// `FixedSizeBitSet` of the Rust crate.
pub type FixedSizeBitSet<const CAPACITY: usize> = sets::FixedSize<Flags, CAPACITY>;

/// A pass permits its owner to call a bit set. It knows which set it is for, how much of the set's history it has seen,
/// and what of it is its own doing. Each call is made with a pass of its set, which is the caller's concern. This
/// project's own.
pub type Pass = sets::Pass<Flags>;

/// A handle has a bit set and a pass of it, so its calls ask for no proof. Each thread has one of its own, by `split`.
/// This project's own.
pub type Handle<'a> = sets::Handle<'a, Flags>;
