//! The text of a schedule, read word by word, and that of events, refusals and errors. No machine is run here.
#![tactic(auto)]

mod atomic;
mod bits;
mod container;
pub mod error;
mod families;
pub mod grammar;
mod indices;
pub mod line;
mod loan;
pub mod pen;
mod queues;
pub mod text;
