//! How an overflowing queue is made.
ghost use Rattle.std.specs.Prelude.{◌≡◌, ◌⊎◌, ◌-◌, ◌^◌, None, Some, IfOk, IfErr, OnOk};
ghost use Rattle.steps.specs.Enums.{capacity_refusal};
ghost use Rattle.steps.specs.declared.enums.UniqueIndexCreationError.TheVariants.{NoMemory};
ghost use Rattle.history.specs.Views.{first_view};
ghost use Rattle.lock_free_queues.specs.Queues.Opened.{over_opened_view};
ghost use Rattle.lock_free_queues.specs.Queues.Overflowing.{capacity_of, inner, IsPassOf, view};

use super::{FixedSizeSafelyOverflowingIndexQueue, Pass, SafelyOverflowingIndexQueue};
use crate::spsc::ring;
use std::alloc::Global;
use steps::enums::UniqueIndexCreationError;

impl SafelyOverflowingIndexQueue {
    /// Makes an empty queue for at most `capacity` numbers, and its first pass. The pass has the whole share and has
    /// seen nothing: the history is empty.
    ///
    /// Refused are, in this order, a capacity above 2^32 - 1 (`ProvidedCapacityGreaterThanMaxCapacity`) and memory
    /// (`NoMemory`). After `SafelyOverflowingIndexQueue::new` of the Rust crate.
    pub fn new(
        alloc: Global,
        capacity: usize,
    ) -> Result<(SafelyOverflowingIndexQueue, Pass), UniqueIndexCreationError>
        ensures pass { IfOk result (λ r. IsPassOf r.0 r.1 × (view r.1 ≡ first_view capacity)) }
        ensures capacity { IfOk result (λ r. capacity_of r.0 ≡ capacity) }
        ensures admitted { OnOk result (capacity_refusal 0 (2 ^ 32 - 1) capacity ≡ None) }
        ensures refused { IfErr result (λ e. (capacity_refusal 0 (2 ^ 32 - 1) capacity ≡ Some e)
            ⊎ (capacity_refusal 0 (2 ^ 32 - 1) capacity ≡ None) × (e ≡ NoMemory)) }
    {
        SafelyOverflowingIndexQueue::of_numbers(alloc, capacity, 1, 0)
    }

    /// Makes an empty queue with both positions at `position`, and its first pass. Its history begins
    /// with `position` pushes and pops of the number 0; without capacity there are none. Refused as
    /// `new`. This project's own.
    pub fn new_at(
        alloc: Global,
        capacity: usize,
        position: u64,
    ) -> Result<(SafelyOverflowingIndexQueue, Pass), UniqueIndexCreationError>
        ensures pass { IfOk result (λ r. IsPassOf r.0 r.1 × (view r.1 ≡ over_opened_view capacity position)) }
        ensures capacity { IfOk result (λ r. capacity_of r.0 ≡ capacity) }
        ensures admitted { OnOk result (capacity_refusal 0 (2 ^ 32 - 1) capacity ≡ None) }
        ensures refused { IfErr result (λ e. (capacity_refusal 0 (2 ^ 32 - 1) capacity ≡ Some e)
            ⊎ (capacity_refusal 0 (2 ^ 32 - 1) capacity ≡ None) × (e ≡ NoMemory)) }
    {
        // one cell more, for the number that pushes the oldest out
        SafelyOverflowingIndexQueue::of_numbers(alloc, capacity, 1, position)
    }
}

impl<const CAPACITY: usize> FixedSizeSafelyOverflowingIndexQueue<CAPACITY> {
    /// Makes an empty queue and its first pass, as `SafelyOverflowingIndexQueue::new` does.
    ///
    /// Refused are, in this order, a CAPACITY above 2^32 - 1 (`ProvidedCapacityGreaterThanMaxCapacity`) and memory
    /// (`NoMemory`). After `FixedSizeSafelyOverflowingIndexQueue::new` of the Rust crate.
    pub fn new(
        alloc: Global,
    ) -> Result<(FixedSizeSafelyOverflowingIndexQueue<CAPACITY>, Pass), UniqueIndexCreationError>
        ensures pass { IfOk result (λ r. IsPassOf (inner r.0) r.1 × (view r.1 ≡ first_view CAPACITY)) }
        ensures admitted { OnOk result (capacity_refusal 0 (2 ^ 32 - 1) CAPACITY ≡ None) }
        ensures refused { IfErr result (λ e. (capacity_refusal 0 (2 ^ 32 - 1) CAPACITY ≡ Some e)
            ⊎ (capacity_refusal 0 (2 ^ 32 - 1) CAPACITY ≡ None) × (e ≡ NoMemory)) }
    {
        let (ring, pass) = SafelyOverflowingIndexQueue::new(alloc, CAPACITY)?;
        Ok((ring::FixedSize { ring }, pass))
    }
}
