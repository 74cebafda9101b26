//! Structures that have one producer and any number of readers at a time.
pub mod unrestricted_atomic;
