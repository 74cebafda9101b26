//! How a robust unique index set is made, with its first pass.
ghost use Rattle.std.specs.Prelude.{◌≡◌, ◌⊎◌, ◌<◌, None, Some, [], IfOk, IfErr, OnOk};
ghost use Rattle.steps.specs.declared.enums.UniqueIndexCreationError.TheVariants.{NoMemory};
ghost use Rattle.threaded.specs.Shares.{all_shares};
ghost use Rattle.lock_free_owners.specs.RobustUniqueIndexSet.{capacity_of, IsPassOf, history, made, share, set_refusal};

use super::rule::RobustRule;
use super::{Pass, RobustUniqueIndexSet};
use history::view::View;
use std::alloc::{AllocError, Global};
use steps::enums::{UniqueIndexCreationError, capacity_refusal};
use steps::indices::robust::parts::{EMPTY, FIRST_CELL};
use threaded::driver::seated::Seated;

/// Makes a set no index of which has an owner, and its first pass.
fn open(alloc: Global, capacity: u32) -> Result<(RobustUniqueIndexSet, Pass), AllocError>
    requires { 0 < capacity }
    ensures pass { IfOk result (λ r. IsPassOf r.0 r.1) }
    ensures capacity { IfOk result (λ r. capacity_of r.0 ≡ capacity) }
    ensures seen { IfOk result (λ r. history r.1 ≡ []) }
    ensures made { IfOk result (λ r. made r.1 ≡ []) }
    ensures share { IfOk result (λ r. share r.1 ≡ all_shares) }
{
    let cells = capacity as usize;
    let mut words = Vec::with_capacity(alloc, FIRST_CELL + cells + 1)?;
    words.push_reserved(0u64);
    words.resize(FIRST_CELL + cells, EMPTY)?;
    words.push_reserved(0);
    let (home, seated) = Seated::<View<u64>, u64, RobustRule>::open(
        alloc,
        words.as_slice(),
        &(capacity as u64),
    )?;
    Ok((
        RobustUniqueIndexSet { home, capacity },
        Pass { seated, capacity },
    ))
}

impl RobustUniqueIndexSet {
    /// Makes a set of the indices below `capacity`, all free, and its first pass. The pass has the whole share and has
    /// seen nothing: the history is empty.
    ///
    /// Refused are, in this order, a capacity above 2^32 - 1 (`ProvidedCapacityGreaterThanMaxCapacity`), 0
    /// (`ProvidedCapacityIsZero`) and memory (`NoMemory`). This project's own, after `RobustUniqueIndexSet` of the Rust
    /// crate, which is made in memory that it is given.
    pub fn new(
        alloc: Global,
        capacity: usize,
    ) -> Result<(RobustUniqueIndexSet, Pass), UniqueIndexCreationError>
        ensures pass { IfOk result (λ r. IsPassOf r.0 r.1) }
        ensures capacity { IfOk result (λ r. capacity_of r.0 ≡ capacity) }
        ensures seen { IfOk result (λ r. history r.1 ≡ []) }
        ensures made { IfOk result (λ r. made r.1 ≡ []) }
        ensures share { IfOk result (λ r. share r.1 ≡ all_shares) }
        ensures admitted { OnOk result (set_refusal capacity ≡ None) }
        ensures refused { IfErr result (λ e. (set_refusal capacity ≡ Some e)
            ⊎ (set_refusal capacity ≡ None) × (e ≡ NoMemory)) }
    {
        if let Some(error) = capacity_refusal(capacity as u64, 1, u32::MAX as u64) {
            return Err(error);
        }
        match open(alloc, capacity as u32) {
            Ok(made) => Ok(made),
            Err(_) => Err(UniqueIndexCreationError::NoMemory),
        }
    }
}
