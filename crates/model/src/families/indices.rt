//! The unique index set, which hands indices out and takes them back: its calls by name, and what stands in the files
//! beside this one. The robust index set, whose indices have owners, has files of its own within.
pub mod calls;
pub mod holders;
pub mod robust;

use steps::indices::enums::ReleaseMode;

/// The least and the greatest capacity of the set.
pub const CAPACITIES: (u64, u64) = (1, 0xff_fffe);

/// A call of the unique index set by its name and arguments.
#[derive(Clone, Copy, PartialEq, Eq)]
pub enum IndexStart {
    Acquire,
    /// Only the holder of the index releases it.
    Release(u64, ReleaseMode),
    BorrowedIndices,
    IsLocked,
}
