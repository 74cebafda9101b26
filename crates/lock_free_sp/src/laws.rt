//! The laws of what threads have seen of queues, and of the single value. Each function does nothing: its contract is a
//! law, proved by a lemma that a client's proof can cite. `value` has those of the single value.

pub use lock_free_spsc::laws::{histories, overflowing, queues};
pub use lock_free_value::laws as value;
