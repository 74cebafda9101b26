//! A stream between two threads: a queue of values whose end is in the same history as the values. So a
//! receiver to which the end came has received all that was sent. The crate also has calls of a plain queue's
//! ends that wait, that try up to a limit, or that push or pop many values.
#![tactic(auto)]

pub mod element;
pub mod ends;
pub mod queues;
