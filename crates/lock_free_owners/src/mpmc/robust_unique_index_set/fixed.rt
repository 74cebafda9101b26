//! A set whose greatest capacity is part of its type.
ghost use Rattle.std.specs.Prelude.{◌≡◌, ◌⊎◌, [], None, Some, IfOk, IfErr, OnOk};
ghost use Rattle.steps.specs.declared.enums.UniqueIndexCreationError.TheVariants.{NoMemory};
ghost use Rattle.threaded.specs.Shares.{all_shares};
ghost use Rattle.lock_free_owners.specs.RobustUniqueIndexSet.{capacity_of, IsPassOf, history, made, share, set_in, set_refusal, reduced_refusal};

use super::{Pass, RobustUniqueIndexSet, StaticRobustUniqueIndexSet};
use std::alloc::Global;
use std::ops::Deref;
use steps::enums::UniqueIndexCreationError;

/// The calls of a set whose type names its greatest capacity are those of the set that it has.
impl<const CAPACITY: usize> Deref for StaticRobustUniqueIndexSet<CAPACITY> {
    ghost use Rattle.lock_free_owners.specs.RobustUniqueIndexSet.{set_in};

    type Target = RobustUniqueIndexSet;

    ghost deref_gives = { λ fixed set. set ≡ set_in fixed };

    fn deref(&self) -> &RobustUniqueIndexSet {
        &self.set
    }
}

impl<const CAPACITY: usize> StaticRobustUniqueIndexSet<CAPACITY> {
    /// Makes a set of the indices below CAPACITY, and its first pass, which has seen nothing.
    ///
    /// Refused are, in this order, a CAPACITY above 2^32 - 1 (`ProvidedCapacityGreaterThanMaxCapacity`), 0
    /// (`ProvidedCapacityIsZero`) and memory (`NoMemory`). After `StaticRobustUniqueIndexSet` of the Rust crate.
    pub fn new(
        alloc: Global,
    ) -> Result<(StaticRobustUniqueIndexSet<CAPACITY>, Pass), UniqueIndexCreationError>
        ensures pass { IfOk result (λ r. IsPassOf (set_in r.0) r.1) }
        ensures seen { IfOk result (λ r. history r.1 ≡ []) }
        ensures made { IfOk result (λ r. made r.1 ≡ []) }
        ensures share { IfOk result (λ r. share r.1 ≡ all_shares) }
        ensures capacity { IfOk result (λ r. capacity_of (set_in r.0) ≡ CAPACITY) }
        ensures admitted { OnOk result (set_refusal CAPACITY ≡ None) }
        ensures refused { IfErr result (λ e. (set_refusal CAPACITY ≡ Some e)
            ⊎ (set_refusal CAPACITY ≡ None) × (e ≡ NoMemory)) }
    {
        let (set, pass) = RobustUniqueIndexSet::new(alloc, CAPACITY)?;
        Ok((StaticRobustUniqueIndexSet { set }, pass))
    }

    /// Makes a set of the indices below `capacity`, and its first pass, which has seen nothing.
    ///
    /// Refused are, in this order, a CAPACITY above 2^32 - 1 or a `capacity` above CAPACITY
    /// (`ProvidedCapacityGreaterThanMaxCapacity`), a `capacity` of 0 (`ProvidedCapacityIsZero`) and memory
    /// (`NoMemory`). After `new_with_reduced_capacity` of the Rust crate.
    pub fn new_with_reduced_capacity(
        alloc: Global,
        capacity: usize,
    ) -> Result<(StaticRobustUniqueIndexSet<CAPACITY>, Pass), UniqueIndexCreationError>
        ensures pass { IfOk result (λ r. IsPassOf (set_in r.0) r.1) }
        ensures seen { IfOk result (λ r. history r.1 ≡ []) }
        ensures made { IfOk result (λ r. made r.1 ≡ []) }
        ensures share { IfOk result (λ r. share r.1 ≡ all_shares) }
        ensures capacity { IfOk result (λ r. capacity_of (set_in r.0) ≡ capacity) }
        ensures admitted { OnOk result (reduced_refusal CAPACITY capacity ≡ None) }
        ensures refused { IfErr result (λ e. (reduced_refusal CAPACITY capacity ≡ Some e)
            ⊎ (reduced_refusal CAPACITY capacity ≡ None) × (e ≡ NoMemory)) }
    {
        if CAPACITY as u64 > u32::MAX as u64 || capacity > CAPACITY {
            return Err(UniqueIndexCreationError::ProvidedCapacityGreaterThanMaxCapacity);
        }
        let (set, pass) = RobustUniqueIndexSet::new(alloc, capacity)?;
        Ok((StaticRobustUniqueIndexSet { set }, pass))
    }
}
