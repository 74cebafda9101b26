//! A container whose capacity is part of its type.
ghost use Rattle.std.specs.Prelude.{◌≡◌, ◌⊎◌, None, Some, IfOk, IfErr, OnOk};
ghost use Rattle.steps.specs.declared.enums.UniqueIndexCreationError.TheVariants.{NoMemory};
ghost use Rattle.history.specs.Views.{first_view};
ghost use Rattle.lock_free_owners.specs.Container.Names.{view, number_of, capacity_of, IsPassOf, container_in, container_refusal};

use super::{Container, FixedSizeContainer, Pass};
use std::alloc::Global;
use std::ops::Deref;
use steps::enums::UniqueIndexCreationError;
use steps::words::Words;

/// The calls of a container whose type names its capacity are those of the container that it has.
impl<T: Words, const CAPACITY: usize> Deref for FixedSizeContainer<T, CAPACITY> {
    ghost use Rattle.lock_free_owners.specs.Container.Names.{container_in};

    type Target = Container<T>;

    ghost deref_gives = { λ fixed container. container ≡ container_in fixed };

    fn deref(&self) -> &Container<T> {
        &self.container
    }
}

impl<T: Words, const CAPACITY: usize> FixedSizeContainer<T, CAPACITY> {
    /// Makes a container with the number `id` and no value at the indices below CAPACITY, and its first pass. That no
    /// other container has this `id` is the caller's concern: handles and states tell containers apart by it.
    ///
    /// Refused are, in this order, a CAPACITY above 2^32 - 1 (`ProvidedCapacityGreaterThanMaxCapacity`), 0
    /// (`ProvidedCapacityIsZero`) and memory (`NoMemory`). After `FixedSizeContainer` of the Rust crate.
    pub fn new(
        alloc: Global,
        id: u64,
    ) -> Result<(FixedSizeContainer<T, CAPACITY>, Pass<T>), UniqueIndexCreationError>
        ensures pass { IfOk result
            (λ r. IsPassOf (container_in r.0) r.1 × (view r.1 ≡ first_view CAPACITY)) }
        ensures capacity { IfOk result (λ r. capacity_of (container_in r.0) ≡ CAPACITY) }
        ensures id { IfOk result (λ r. number_of (container_in r.0) ≡ id) }
        ensures admitted { OnOk result (container_refusal CAPACITY ≡ None) }
        ensures refused { IfErr result (λ e. (container_refusal CAPACITY ≡ Some e)
            ⊎ (container_refusal CAPACITY ≡ None) × (e ≡ NoMemory)) }
    {
        let (container, pass) = Container::new(alloc, CAPACITY, id)?;
        Ok((FixedSizeContainer { container }, pass))
    }
}
