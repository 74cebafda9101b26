//! The laws of what threads have seen, by structure. Each function does nothing: its contract is a law, proved by a
//! lemma that a client's proof can cite.
//!
//! `histories` has those of every structure. Each other module is of one: `bits` and `counts` of bit sets, `indices` of
//! unique index sets and `pools` of those who hold their indices, `owners` of robust sets, `overflowing` of overflowing
//! queues alone, `queues` of any, and `loans` of a sender's calls.

pub mod bits;
pub mod containers;
pub mod counts;
pub mod histories;
pub mod indices;
pub mod owners;

pub use lock_free_loans::laws::loans;
pub use lock_free_sets::laws::pools;
pub use lock_free_sp::laws::{overflowing, queues, value};
