//! The driver of all structures between threads: it takes the steps of a call on shared
//! words, and counts them.
//!
//! A call is a value of a type of `steps`, which the machine runs too, but for the room in which a value's
//! words are read. The driver performs its operations on the words of a table of `atomic_table`. A caller
//! knows the view of its pass, and the rule of the table says how all views fit together.
#![tactic(auto)]

pub mod driver;
pub mod laws;
pub mod share;
