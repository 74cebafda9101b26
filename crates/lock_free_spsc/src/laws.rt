//! The laws of what threads have seen of queues. Each function does nothing: its contract is a law, proved by a lemma that
//! a client's proof can cite.
//!
//! `histories` has those of every structure, `queues` those of any queue, and `overflowing` those of overflowing queues
//! alone.

pub mod histories;
pub mod overflowing;

pub use lock_free_queues::laws as queues;
