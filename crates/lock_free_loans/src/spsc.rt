//! Structures that have one producer and one consumer.

pub mod loan;
