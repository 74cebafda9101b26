//! A loan channel, this project's own: indices of a set that a sender loans, sends and gets back.
//!
//! `lock_free` hands these modules on under their own paths.
#![tactic(auto)]

pub mod laws;
pub mod spsc;
