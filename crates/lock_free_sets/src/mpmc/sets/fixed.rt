//! A set whose capacity is part of its type.
ghost use Rattle.std.specs.Prelude.{◌≡◌};

use super::rule::Kind;
use super::{FixedSize, Set};
use std::ops::Deref;

/// The calls of a set whose type names its capacity are those of the set that it has.
impl<E: Kind, const CAPACITY: usize> Deref for FixedSize<E, CAPACITY> {
    ghost use Rattle.lock_free_sets.specs.Sets.Calls.{inner, capacity_of};

    type Target = Set<E>;

    ghost deref_gives = { λ fixed set. (set ≡ inner fixed) × (capacity_of set ≡ CAPACITY) };

    fn deref(&self) -> &Set<E> {
        &self.set
    }
}
