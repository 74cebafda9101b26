//! A queue whose capacity is part of its type.
ghost use Rattle.std.specs.Prelude.{◌≡◌};

use super::rule::Kind;
use super::{FixedSize, Ring};
use std::ops::Deref;
use steps::words::Words;

/// The calls of a queue with a fixed capacity are those of the queue that it has.
impl<E: Kind, T: Words, const CAPACITY: usize> Deref for FixedSize<E, T, CAPACITY> {
    ghost use Rattle.lock_free_queues.specs.Queues.Rings.{inner, capacity_of};

    type Target = Ring<E, T>;

    ghost deref_gives = { λ fixed ring. (ring ≡ inner fixed) × (capacity_of ring ≡ CAPACITY) };

    fn deref(&self) -> &Ring<E, T> {
        &self.ring
    }
}

impl<E: Kind, T: Words, const CAPACITY: usize> FixedSize<E, T, CAPACITY> {
    /// Returns CAPACITY.
    pub fn capacity(&self) -> usize
        ensures { result ≡ CAPACITY }
    {
        CAPACITY
    }
}
