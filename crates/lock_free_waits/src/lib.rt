//! Waits that end where their caller says so: something is tried until it brings what is waited for, and between two tries
//! a closure is asked whether to stop. So the caller decides what a timeout, a shutdown or another thing that came in the
//! meantime is, and no contract speaks of time.
//!
//! What can be tried implements `Tries`: the consumers of the queues here, and `Both` of two others. What can be put somewhere
//! implements `Puts`: the producers of queues that can be full.
#![tactic(auto)]

pub mod both;
mod queues;
pub mod waits;
