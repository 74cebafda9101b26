//! How a unique index set is made, with its first pass.
ghost use Rattle.std.specs.Prelude.{◌≡◌, ◌⊎◌, ◌-◌, ◌^◌, ◌<◌, None, Some, [], IfOk, IfErr, OnOk};
ghost use Rattle.steps.specs.declared.enums.UniqueIndexCreationError.TheVariants.{NoMemory};
ghost use Rattle.threaded.specs.Shares.{all_shares};
ghost use Rattle.lock_free_sets.specs.Unique.Held.{HoldsNothing};
ghost use Rattle.lock_free_sets.specs.UniqueIndexSet.{capacity_of, IsPassOf, history, made, share, set_refusal};

use super::rule::IndicesRule;
use super::{Pass, UniqueIndexSet};
use history::view::View;
use std::alloc::{AllocError, Global};
use steps::enums::{UniqueIndexCreationError, capacity_refusal};
use threaded::driver::seated::Seated;

/// The greatest capacity of a set, 2^24 - 2.
pub(crate) const GREATEST: u64 = 0xff_fffe;

impl UniqueIndexSet {
    /// Makes a set all of whose indices are free, and its first pass.
    fn of(alloc: Global, capacity: u32) -> Result<(UniqueIndexSet, Pass), AllocError>
        requires some { 0 < capacity }
        requires few { capacity < 2 ^ 24 - 1 }
        ensures pass { IfOk result (λ r. IsPassOf r.0 r.1) }
        ensures capacity { IfOk result (λ r. capacity_of r.0 ≡ capacity) }
        ensures seen { IfOk result (λ r. history r.1 ≡ []) }
        ensures made { IfOk result (λ r. made r.1 ≡ []) }
        ensures nothing { IfOk result (λ r. HoldsNothing (made r.1)) }
        ensures share { IfOk result (λ r. share r.1 ≡ all_shares) }
    {
        let flags = (capacity as usize + 63) / 64;
        let mut words = Vec::with_capacity(alloc, 1 + capacity as usize + flags + 1)?;
        words.push_reserved(0u64);
        for index in 0..capacity {
            words.push_reserved(index as u64 + 1);
        }
        words.resize(1 + capacity as usize + flags + 1, 0)?;
        let (home, seated) = Seated::<View<u64>, u64, IndicesRule>::open(
            alloc,
            words.as_slice(),
            &(capacity as u64),
        )?;
        Ok((UniqueIndexSet { home, capacity }, Pass { seated, capacity }))
    }

    /// Makes a set of the indices below `capacity`, all free, and its first pass. The pass has the whole share and has
    /// seen nothing: the history is empty.
    ///
    /// Refused are, in this order, a capacity above 2^24 - 2 (`ProvidedCapacityGreaterThanMaxCapacity`), 0
    /// (`ProvidedCapacityIsZero`) and memory (`NoMemory`). This project's own, after `UniqueIndexSet` of the Rust
    /// crate, which is made in memory that it is given.
    pub fn new(
        alloc: Global,
        capacity: usize,
    ) -> Result<(UniqueIndexSet, Pass), UniqueIndexCreationError>
        ensures pass { IfOk result (λ r. IsPassOf r.0 r.1) }
        ensures capacity { IfOk result (λ r. capacity_of r.0 ≡ capacity) }
        ensures seen { IfOk result (λ r. history r.1 ≡ []) }
        ensures made { IfOk result (λ r. made r.1 ≡ []) }
        ensures nothing { IfOk result (λ r. HoldsNothing (made r.1)) }
        ensures share { IfOk result (λ r. share r.1 ≡ all_shares) }
        ensures admitted { OnOk result (set_refusal capacity ≡ None) }
        ensures refused { IfErr result (λ e. (set_refusal capacity ≡ Some e)
            ⊎ (set_refusal capacity ≡ None) × (e ≡ NoMemory)) }
    {
        if let Some(error) = capacity_refusal(capacity as u64, 1, GREATEST) {
            return Err(error);
        }
        match UniqueIndexSet::of(alloc, capacity as u32) {
            Ok(made) => Ok(made),
            Err(_) => Err(UniqueIndexCreationError::NoMemory),
        }
    }
}
