//! The enums of the sets of indices that carry the names of the Rust crate.
ghost use Rattle.std.specs.Prelude.{◌≡◌};
ghost use Rattle.steps.specs.declared.indices.enums.ReleaseMode.TheVariants.{Default};

use thiserror::Error;

/// What becomes of a set of indices where a release gives the last index back.
#[derive(Debug, Clone, Copy, PartialEq, Eq)]
pub enum ReleaseMode {
    /// The set is locked, and hands out no index from then on.
    LockIfLastIndex,
    /// The set goes on handing out indices.
    Default,
}

impl Default for ReleaseMode {
    fn default() -> ReleaseMode
        ensures { result ≡ Default }
    {
        ReleaseMode::Default
    }
}

/// Whether a release has locked the set.
#[derive(Debug, Clone, Copy, PartialEq, Eq)]
pub enum ReleaseState {
    /// The set is locked, and hands out no index any more.
    Locked,
    /// The call has not found the set locked, or its mode is `Default`.
    Unlocked,
}

/// Why no index was handed out.
#[derive(Debug, Clone, Copy, PartialEq, Eq, Error)]
pub enum UniqueIndexSetAcquireFailure {
    #[error("all indices are handed out")]
    OutOfIndices,
    #[error("the set is locked")]
    IsLocked,
}

/// Why a robust set has not taken an index back.
#[derive(Debug, Clone, Copy, PartialEq, Eq, Error)]
pub enum RobustUniqueIndexSetReleaseError {
    #[error("the index is not that of the given owner")]
    IndexIsNotOwnedByProvidedOwner,
}
