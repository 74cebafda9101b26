//! How a bit set or a counting bit set is made, with its first pass.
ghost use Rattle.std.specs.Prelude.{◌≡◌, ◌⊎◌, ◌-◌, ◌^◌, None, Some, [], IfOk, IfErr, OnOk};
ghost use Rattle.steps.specs.Enums.{capacity_refusal};
ghost use Rattle.steps.specs.declared.enums.UniqueIndexCreationError.TheVariants.{NoMemory};
ghost use Rattle.threaded.specs.Shares.{all_shares};
ghost use Rattle.lock_free_sets.specs.Sets.Calls.{capacity_of, IsPassOf, inner, history, made, party, share};

use super::rule::{Kind, SetRule};
use super::{FixedSize, Held, Pass, Set};
use history::view::View;
use std::alloc::{AllocError, Global};
use std::marker::PhantomData;
use steps::enums::{UniqueIndexCreationError, capacity_refusal};
use threaded::driver::seated::Seated;

impl<E: Kind> Set<E> {
    /// Makes a set all of whose words are 0, and its first pass.
    fn of(alloc: Global, capacity: u32) -> Result<(Set<E>, Pass<E>), AllocError>
        ensures pass { IfOk result (λ r. IsPassOf r.0 r.1) }
        ensures capacity { IfOk result (λ r. capacity_of r.0 ≡ capacity) }
        ensures seen { IfOk result (λ r. history r.1 ≡ []) }
        ensures made { IfOk result (λ r. made r.1 ≡ []) }
        ensures party { IfOk result (λ r. party r.1 ≡ Some 0) }
        ensures share { IfOk result (λ r. share r.1 ≡ all_shares) }
    {
        let words = Vec::from_elem(alloc, 0u64, E::words(capacity) + 1)?;
        let (home, seated) = Seated::<View<u64>, u32, SetRule<E>>::open(
            alloc,
            words.as_slice(),
            &capacity,
        )?;
        let pass = Held {
            of: PhantomData,
            seated,
            capacity,
        };
        Ok((Set { home, capacity }, pass))
    }

    /// Makes a set of `capacity` places, all clear or with the count 0, and its first pass. The pass has the whole
    /// share and has seen nothing: the history is empty.
    ///
    /// Refused are, in this order, a capacity above 2^32 - 1 (`ProvidedCapacityGreaterThanMaxCapacity`) and memory
    /// (`NoMemory`). After `BitSet::new` and `CountingBitSet::new` of the Rust crate.
    pub fn new(
        alloc: Global,
        capacity: usize,
    ) -> Result<(Set<E>, Pass<E>), UniqueIndexCreationError>
        ensures pass { IfOk result (λ r. IsPassOf r.0 r.1) }
        ensures capacity { IfOk result (λ r. capacity_of r.0 ≡ capacity) }
        ensures seen { IfOk result (λ r. history r.1 ≡ []) }
        ensures made { IfOk result (λ r. made r.1 ≡ []) }
        ensures party { IfOk result (λ r. party r.1 ≡ Some 0) }
        ensures share { IfOk result (λ r. share r.1 ≡ all_shares) }
        ensures admitted { OnOk result (capacity_refusal 0 (2 ^ 32 - 1) capacity ≡ None) }
        ensures refused { IfErr result (λ e. (capacity_refusal 0 (2 ^ 32 - 1) capacity ≡ Some e)
            ⊎ (capacity_refusal 0 (2 ^ 32 - 1) capacity ≡ None) × (e ≡ NoMemory)) }
    {
        if let Some(error) = capacity_refusal(capacity as u64, 0, u32::MAX as u64) {
            return Err(error);
        }
        match Set::<E>::of(alloc, capacity as u32) {
            Ok(made) => Ok(made),
            Err(_) => Err(UniqueIndexCreationError::NoMemory),
        }
    }

    /// Returns the capacity that it was made with. After `capacity` of the Rust crate.
    pub fn capacity(&self) -> usize
        ensures { result ≡ capacity_of self.now }
    {
        self.capacity as usize
    }
}

impl<E: Kind, const CAPACITY: usize> FixedSize<E, CAPACITY> {
    /// Makes a set of CAPACITY places, and its first pass, as `new` of the set does.
    ///
    /// Refused are, in this order, a CAPACITY above 2^32 - 1 (`ProvidedCapacityGreaterThanMaxCapacity`) and memory
    /// (`NoMemory`). After `FixedSizeBitSet::new` and `FixedSizeCountingBitSet::new` of the Rust crate.
    pub fn new(alloc: Global) -> Result<(FixedSize<E, CAPACITY>, Pass<E>), UniqueIndexCreationError>
        ensures pass { IfOk result (λ r. IsPassOf (inner r.0) r.1) }
        ensures seen { IfOk result (λ r. history r.1 ≡ []) }
        ensures made { IfOk result (λ r. made r.1 ≡ []) }
        ensures party { IfOk result (λ r. party r.1 ≡ Some 0) }
        ensures share { IfOk result (λ r. share r.1 ≡ all_shares) }
        ensures admitted { OnOk result (capacity_refusal 0 (2 ^ 32 - 1) CAPACITY ≡ None) }
        ensures refused { IfErr result (λ e. (capacity_refusal 0 (2 ^ 32 - 1) CAPACITY ≡ Some e)
            ⊎ (capacity_refusal 0 (2 ^ 32 - 1) CAPACITY ≡ None) × (e ≡ NoMemory)) }
    {
        let (set, pass) = Set::<E>::new(alloc, CAPACITY)?;
        Ok((FixedSize { set }, pass))
    }

    /// Returns CAPACITY.
    pub fn capacity(&self) -> usize
        ensures { result ≡ CAPACITY }
    {
        CAPACITY
    }
}
