//! A set whose greatest capacity is part of its type.
ghost use Rattle.std.specs.Prelude.{◌≡◌, ◌≢◌, ◌⊎◌, ◌<◌, ◌≤◌, [], None, Some, IfOk, IfErr, OnOk};
ghost use Rattle.steps.specs.declared.enums.UniqueIndexCreationError.TheVariants.{NoMemory};
ghost use Rattle.threaded.specs.Shares.{all_shares};
ghost use Rattle.lock_free_sets.specs.Unique.Held.{HoldsNothing};
ghost use Rattle.lock_free_sets.specs.UniqueIndexSet.{capacity_of, IsPassOf, history, made, share, set_in, set_refusal, reduced_refusal};

use super::make::GREATEST;
use super::{FixedSizeUniqueIndexSet, Pass, UniqueIndexSet};
use std::alloc::Global;
use std::ops::Deref;
use steps::enums::UniqueIndexCreationError;

/// The calls of a set whose type names its greatest capacity are those of the set that it has.
impl<const CAPACITY: usize> Deref for FixedSizeUniqueIndexSet<CAPACITY> {
    ghost use Rattle.lock_free_sets.specs.UniqueIndexSet.{set_in};

    type Target = UniqueIndexSet;

    ghost deref_gives = { λ fixed set. set ≡ set_in fixed };

    fn deref(&self) -> &UniqueIndexSet {
        &self.set
    }
}

impl<const CAPACITY: usize> FixedSizeUniqueIndexSet<CAPACITY> {
    /// Makes a set of the indices below CAPACITY, and its first pass, which holds nothing.
    ///
    /// Refused are, in this order, a CAPACITY above 2^24 - 2 (`ProvidedCapacityGreaterThanMaxCapacity`), 0
    /// (`ProvidedCapacityIsZero`) and memory (`NoMemory`). After `FixedSizeUniqueIndexSet` of the Rust crate.
    pub fn new(
        alloc: Global,
    ) -> Result<(FixedSizeUniqueIndexSet<CAPACITY>, Pass), UniqueIndexCreationError>
        ensures pass { IfOk result (λ r. IsPassOf (set_in r.0) r.1) }
        ensures seen { IfOk result (λ r. history r.1 ≡ []) }
        ensures made { IfOk result (λ r. made r.1 ≡ []) }
        ensures nothing { IfOk result (λ r. HoldsNothing (made r.1)) }
        ensures share { IfOk result (λ r. share r.1 ≡ all_shares) }
        ensures capacity { IfOk result (λ r. capacity_of (set_in r.0) ≡ CAPACITY) }
        ensures admitted { OnOk result (set_refusal CAPACITY ≡ None) }
        ensures refused { IfErr result (λ e. (set_refusal CAPACITY ≡ Some e)
            ⊎ (set_refusal CAPACITY ≡ None) × (e ≡ NoMemory)) }
    {
        let (set, pass) = UniqueIndexSet::new(alloc, CAPACITY)?;
        Ok((FixedSizeUniqueIndexSet { set }, pass))
    }

    /// Makes a set of the indices below `capacity`, and its first pass, which holds nothing.
    ///
    /// Refused are, in this order, a CAPACITY above 2^24 - 2 or a `capacity` above CAPACITY
    /// (`ProvidedCapacityGreaterThanMaxCapacity`), a `capacity` of 0 (`ProvidedCapacityIsZero`) and memory
    /// (`NoMemory`). After `new_with_reduced_capacity` of the Rust crate.
    pub fn new_with_reduced_capacity(
        alloc: Global,
        capacity: usize,
    ) -> Result<(FixedSizeUniqueIndexSet<CAPACITY>, Pass), UniqueIndexCreationError>
        ensures pass { IfOk result (λ r. IsPassOf (set_in r.0) r.1) }
        ensures seen { IfOk result (λ r. history r.1 ≡ []) }
        ensures made { IfOk result (λ r. made r.1 ≡ []) }
        ensures nothing { IfOk result (λ r. HoldsNothing (made r.1)) }
        ensures share { IfOk result (λ r. share r.1 ≡ all_shares) }
        ensures capacity { IfOk result (λ r. capacity_of (set_in r.0) ≡ capacity) }
        ensures admitted { OnOk result (reduced_refusal CAPACITY capacity ≡ None) }
        ensures refused { IfErr result (λ e. (reduced_refusal CAPACITY capacity ≡ Some e)
            ⊎ (reduced_refusal CAPACITY capacity ≡ None) × (e ≡ NoMemory)) }
    {
        if CAPACITY as u64 > GREATEST || capacity > CAPACITY {
            return Err(UniqueIndexCreationError::ProvidedCapacityGreaterThanMaxCapacity);
        }
        let (set, pass) = UniqueIndexSet::new(alloc, capacity)?;
        Ok((FixedSizeUniqueIndexSet { set }, pass))
    }
}
