//! Indices that have owners, which threads share: a robust unique index set, and a container of values at such indices.
//! The indices of an owner that is dead are recovered. All calls of a structure form one history.
//!
//! `lock_free` hands these modules on under their own paths.
#![tactic(auto)]

pub mod laws;
pub mod mpmc;
