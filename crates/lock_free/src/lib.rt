//! The containers of the Rust crate iceoryx2-bb-lock-free, for the threads of one process, under its module paths.
#![tactic(auto)]

pub mod laws;
pub mod mpmc;
pub mod spsc;

pub use lock_free_owners::laws as owner_laws;
pub use lock_free_sp::{spmc, words};
