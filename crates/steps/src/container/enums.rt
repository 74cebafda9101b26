//! The errors of the container that carry the names of the Rust crate.
ghost use Rattle.std.specs.Prelude.{◌≡◌};
ghost use Rattle.steps.specs.Container.Enums.{add_failure};

use crate::indices::enums::UniqueIndexSetAcquireFailure;
use thiserror::Error;

/// Why no value was added.
#[derive(Debug, Clone, Copy, PartialEq, Eq, Error)]
pub enum ContainerAddFailure {
    #[error("no index can be given")]
    OutOfSpace,
    #[error("the container is locked")]
    IsLocked,
}

impl From<UniqueIndexSetAcquireFailure> for ContainerAddFailure {
    ghost from_gives = { λ failure result. result ≡ add_failure failure };

    #[inline(always)]
    fn from(failure: UniqueIndexSetAcquireFailure) -> ContainerAddFailure {
        match failure {
            UniqueIndexSetAcquireFailure::OutOfIndices => ContainerAddFailure::OutOfSpace,
            UniqueIndexSetAcquireFailure::IsLocked => ContainerAddFailure::IsLocked,
        }
    }
}

/// Why a value was not removed or replaced.
#[derive(Debug, Clone, Copy, PartialEq, Eq, Error)]
pub enum ContainerRemoveError {
    #[error("the container has no value of this handle")]
    ContainerHandleNotOwnedByContainer,
}

/// Why there is no state.
#[derive(Debug, Clone, Copy, PartialEq, Eq, Error)]
pub enum ContainerStateError {
    #[error("there is no memory")]
    NoMemory,
}
