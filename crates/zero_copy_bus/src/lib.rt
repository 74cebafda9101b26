//! A bus: records go from one publisher to many subscribers, between threads, and nobody copies them.
#![tactic(auto)]

pub mod bus;
pub mod error;
mod holders;
mod lane;
pub mod loan;
pub mod news;
pub mod numbers;
mod outlet;
mod outlets;
mod pool;
pub mod publisher;
mod roll;
mod store;
pub mod subscriber;
