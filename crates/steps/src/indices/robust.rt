//! The calls of a robust set of indices: each index that is out has an owner. The indices of an owner known to be dead
//! are freed, and the set can be locked.
//!
//! The first word is the counter. Then comes a cell for each index, which holds the number of its owner, or `u64::MAX`
//! while nobody has the index. The set has a capacity of 1 or more.
pub mod acquire;
pub mod find;
pub mod looks;
pub mod parts;
pub mod recover;
pub mod release;
