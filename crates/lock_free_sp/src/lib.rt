//! The structures of one producer: queues, and a single value of many readers, under the module paths of the Rust crate, with
//! their laws. A crate that needs no set and no container takes this one.
#![tactic(auto)]

pub mod laws;

pub use lock_free_spsc::{spsc, words};
pub use lock_free_value::spmc;
