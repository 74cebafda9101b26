//! The containers for C: a static library over `lock_free_queues`, whose functions state its contracts again.
//!
//! C holds handles. A handle is a struct of one pointer, and the contracts speak of `held`, which is what lies at the
//! pointer. A function that is given a handle of another kind says so, and changes nothing.
#![tactic(auto)]

pub mod close;
pub mod handle;
pub mod held;
pub mod index_queue;
pub mod loose;
pub mod status;
