//! How a container is made, with its first pass.
ghost use Rattle.std.specs.Prelude.{◌≡◌, ◌⊎◌, ◌<◌, None, Some, IfOk, IfErr, OnOk};
ghost use Rattle.steps.specs.declared.enums.UniqueIndexCreationError.TheVariants.{NoMemory};
ghost use Rattle.history.specs.Views.{first_view};
ghost use Rattle.lock_free_owners.specs.Container.Names.{view, number_of, capacity_of, IsPassOf, container_refusal};

use super::rule::ContainerRule;
use super::token::Held;
use super::{Container, Pass};
use history::view::View;
use std::alloc::{AllocError, Global};
use steps::container::layout::total_words;
use steps::enums::{UniqueIndexCreationError, capacity_refusal};
use steps::indices::robust::parts::{EMPTY, FIRST_CELL};
use steps::words::Words;
use threaded::driver::seated::Seated;

/// Makes a container without a value, and its first pass.
fn open<T: Words>(
    alloc: Global,
    capacity: u32,
    id: u64,
) -> Result<(Container<T>, Pass<T>), AllocError>
    requires { 0 < capacity }
    ensures pass { IfOk result (λ r. IsPassOf r.0 r.1) }
    ensures view { IfOk result (λ r. view r.1 ≡ first_view capacity) }
    ensures capacity { IfOk result (λ r. capacity_of r.0 ≡ capacity) }
    ensures id { IfOk result (λ r. number_of r.0 ≡ id) }
{
    let total = total_words(capacity, T::WORDS as u8);
    let mut words = Vec::with_capacity(alloc, total + 1)?;
    words.push_reserved(0u64);
    words.resize(FIRST_CELL + capacity as usize, EMPTY)?;
    words.resize(total + 1, 0)?;
    let (home, seated) = Seated::<View<T>, u64, ContainerRule<T>>::open(
        alloc,
        words.as_slice(),
        &(capacity as u64),
    )?;
    Ok((
        Container {
            home,
            capacity,
            id,
            alloc,
        },
        Pass {
            token: Held { seated, capacity },
        },
    ))
}

impl<T: Words> Container<T> {
    /// Makes a container with the number `id` and no value at the indices below `capacity`, and its first pass. That no
    /// other container has this `id` is the caller's concern: handles and states tell containers apart by it.
    ///
    /// Refused are, in this order, a capacity above 2^32 - 1 (`ProvidedCapacityGreaterThanMaxCapacity`), 0
    /// (`ProvidedCapacityIsZero`) and memory (`NoMemory`). This project's own, after `Container` of the Rust crate,
    /// which takes memory that it is given and a number from a global counter.
    pub fn new(
        alloc: Global,
        capacity: usize,
        id: u64,
    ) -> Result<(Container<T>, Pass<T>), UniqueIndexCreationError>
        ensures pass { IfOk result (λ r. IsPassOf r.0 r.1 × (view r.1 ≡ first_view capacity)) }
        ensures capacity { IfOk result (λ r. capacity_of r.0 ≡ capacity) }
        ensures id { IfOk result (λ r. number_of r.0 ≡ id) }
        ensures admitted { OnOk result (container_refusal capacity ≡ None) }
        ensures refused { IfErr result (λ e. (container_refusal capacity ≡ Some e)
            ⊎ (container_refusal capacity ≡ None) × (e ≡ NoMemory)) }
    {
        if let Some(error) = capacity_refusal(capacity as u64, 1, u32::MAX as u64) {
            return Err(error);
        }
        match open(alloc, capacity as u32, id) {
            Ok(made) => Ok(made),
            Err(_) => Err(UniqueIndexCreationError::NoMemory),
        }
    }
}
