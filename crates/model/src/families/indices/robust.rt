//! The robust index set, whose indices are filled with owners that can die: its calls by name, and what stands in the
//! files beside this one.
pub mod calls;
pub mod dead;

use steps::enums::OwnerId;
use steps::indices::enums::ReleaseMode;

/// The least and the greatest capacity of the set.
pub const CAPACITIES: (u64, u64) = (1, 0xffff_ffff);

/// A call of the robust index set by its name and arguments.
#[derive(Clone, Copy, PartialEq, Eq)]
pub enum RobustStart {
    /// An index for this owner.
    Acquire(OwnerId),
    /// This index of this owner is given back.
    Release(u64, OwnerId, ReleaseMode),
    /// How many indices this owner has. It asks at each whether to go on.
    Find(OwnerId),
    /// It asks about each index that has an owner whether to free it.
    Recover(ReleaseMode),
    BorrowedIndices,
    IsLocked,
}
