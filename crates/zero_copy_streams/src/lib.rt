//! A stream with an end whose values are not copied. Each value is laid into a slot and read where it lies. Its number and its slot
//! go through a stream of `uses_streams`, and the slot comes back through another one. Proved: what was received are the first
//! numbers, in order, and all that were sent once the end came.
#![tactic(auto)]

pub mod error;
pub mod receiver;
pub mod sender;
pub mod stream;
