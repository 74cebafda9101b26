//! Guards of indices that have owners, and acquires that wait. An index of a robust unique index set is given
//! back as its guard is dropped (no clause says so), and those of one owner are recovered by a call without
//! closures. An acquire of either index set can wait for an index, for good or for a number of tries.
#![tactic(auto)]

pub mod owner_recovery;
pub mod robust_index;
pub mod splits;
pub mod unique_index;
