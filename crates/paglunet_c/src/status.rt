//! What a call answers: a number, since an enum may not cross to C.
ghost use Rattle.std.specs.Prelude.{◌≡◌, Some};
ghost use Rattle.paglunet_c.specs.Status.{number_of};

use steps::enums::UniqueIndexCreationError;

/// The call did what it is for.
pub const OK: u32 = 0;

/// The structure is full.
pub const FULL: u32 = 1;

/// The structure is empty.
pub const EMPTY: u32 = 2;

/// Another handle has the role.
pub const TAKEN: u32 = 3;

/// There is no memory.
pub const NO_MEMORY: u32 = 4;

/// The capacity is greater than the greatest that is allowed.
pub const PROVIDED_CAPACITY_GREATER_THAN_MAX_CAPACITY: u32 = 5;

/// The capacity is less than the least that is allowed.
pub const PROVIDED_CAPACITY_IS_ZERO: u32 = 6;

/// The handle is of another structure, or has not the role that the call needs.
pub const WRONG_HANDLE: u32 = 7;

/// The number of the reason why a structure was not made.
pub(crate) fn of_creation(error: UniqueIndexCreationError) -> u32
    ensures { result ≡ number_of (Some error) }
{
    match error {
        UniqueIndexCreationError::ProvidedCapacityGreaterThanMaxCapacity => {
            PROVIDED_CAPACITY_GREATER_THAN_MAX_CAPACITY
        }
        UniqueIndexCreationError::ProvidedCapacityIsZero => PROVIDED_CAPACITY_IS_ZERO,
        UniqueIndexCreationError::NoMemory => NO_MEMORY,
    }
}
