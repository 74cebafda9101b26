//! The queues of one producer and one consumer, under the module paths of the Rust crate, with their laws. A crate that
//! needs queues alone takes this one.
#![tactic(auto)]

pub mod laws;

pub use lock_free_queues::spsc;
pub use steps::words;
