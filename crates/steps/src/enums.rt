//! The enums and errors that carry the names of the Rust crate.
ghost use Rattle.std.specs.Prelude.{◌≡◌, ◌<◌, ◌^◌, ◌-◌, MatchResult};
ghost use Rattle.steps.specs.Enums.{capacity_refusal};

use std::marker::Model;
use thiserror::Error;

/// Why a structure or a machine was not made, in the order of the tests. The first two are of the Rust crate.
#[derive(Debug, Clone, Copy, PartialEq, Eq, Error)]
pub enum UniqueIndexCreationError {
    #[error("the capacity is greater than the greatest that is allowed")]
    ProvidedCapacityGreaterThanMaxCapacity,
    #[error("the capacity is less than the least that is allowed")]
    ProvidedCapacityIsZero,
    #[error("there is no memory")]
    NoMemory,
}

/// The refusal of a capacity outside `least..=greatest`: above comes before below. None where it is admitted.
pub fn capacity_refusal(
    capacity: u64,
    least: u64,
    greatest: u64,
) -> Option<UniqueIndexCreationError>
    ensures { result ≡ capacity_refusal least greatest capacity }
{
    if capacity > greatest {
        Some(UniqueIndexCreationError::ProvidedCapacityGreaterThanMaxCapacity)
    } else if capacity < least {
        Some(UniqueIndexCreationError::ProvidedCapacityIsZero)
    } else {
        None
    }
}

/// Why a number names no owner.
#[derive(Debug, Clone, Copy, PartialEq, Eq, Error)]
pub enum OwnerIdNewError {
    #[error("the greatest number of 64 bits names no owner")]
    InvalidOwnerValue,
}

/// The number of an owner of indices: any number of 64 bits but the greatest, which marks an empty cell.
/// After the Rust crate's `OwnerId`.
#[derive(Debug, Clone, Copy, PartialEq, Eq, PartialOrd, Ord, Hash)]
pub struct OwnerId {
    number: u64,
}

/// Contracts see an owner as its number, which is below 2^64 - 1.
impl Model for OwnerId {
    ghost use Rattle.std.specs.Prelude.{ℕ, ◌<◌, ◌-◌, ◌^◌};

    ghost Value = { ℕ };

    ghost view = { λ owner. owner.number };

    ghost invariant = { λ owner. owner.number < 2 ^ 64 - 1 };

    ghost inverse = { λ number. record { number = number } };
}

impl OwnerId {
    /// The owner of this number, or `InvalidOwnerValue` for `u64::MAX`.
    pub fn new(value: u64) -> Result<OwnerId, OwnerIdNewError>
        ensures { MatchResult result (λ owner. (owner ≡ value) × (value < 2 ^ 64 - 1))
            (λ _. value ≡ 2 ^ 64 - 1) }
    {
        if value < u64::MAX {
            Ok(OwnerId { number: value })
        } else {
            Err(OwnerIdNewError::InvalidOwnerValue)
        }
    }

    /// The owner's number.
    pub fn value(self) -> u64
        ensures number { result ≡ self }
        ensures named { result < 2 ^ 64 - 1 }
    {
        self.number
    }
}

/// Whether a call that comes to several indices goes on to the next one. After the Rust crate's
/// `CallbackProgression`.
#[derive(Debug, Clone, Copy, PartialEq, Eq)]
pub enum CallbackProgression {
    Continue,
    Stop,
}
