//! Laws of every history that threads have seen, in the words of its events. The functions do nothing: the contract of each
//! is a law, whose proof is a lemma that a client's proof can cite.
#![tactic(auto)]

pub mod bits;
pub mod containers;
pub mod counts;
pub mod grants;
pub mod indices;
pub mod owners;

pub use history::laws::{calls_are_in_order, calls_stand};
pub use history_bits::laws::histories_act;
