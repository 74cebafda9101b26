//! Bit sets and the unique index set, which threads share. All calls of a structure form one history.
//!
//! `lock_free` hands these modules on under their own paths.
#![tactic(auto)]

pub mod laws;
pub mod mpmc;
