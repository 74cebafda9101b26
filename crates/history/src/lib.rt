//! One history for all threads on a structure: the table of its words is a machine of the model (`IsMachine`). Its
//! words are those of a reached machine, each seat knows where its own call stands there, and what the seat has seen is
//! a beginning of that machine's events.
#![tactic(auto)]

pub mod laws;
pub mod plays;
pub mod view;
