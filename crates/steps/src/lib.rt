//! What each call on a lock-free container does, one atomic step at a time.
//!
//! A call is plain data: a small value that changes with each step, what it was given, and room for what it reads. It
//! asks for one operation on one shared word, or for a decision, or for nothing, is handed the answer, and goes on or
//! is done. It never sees a word by itself, so its driver decides what else happens between two steps.
#![tactic(auto)]

pub mod ask;
pub mod atomic;
pub mod bits;
pub mod container;
pub mod copied;
pub mod enums;
pub mod indices;
pub mod loan;
pub mod queues;
pub mod routine;
pub mod words;
