//! A loan channel for values of any type, from one sender to one receiver: the sender writes a value in plain memory and sends
//! it, the receiver reads it where it lies and gives it back. Nothing is copied, and no code is unsafe. What the sender knows of
//! its places is the table of `LoanSender`, and each value is read with the fact of the user's rule. There is also a pool: who
//! takes a place of it owns the value that lies there, if any.
#![tactic(auto)]

pub mod channel;
mod debug;
mod each;
pub mod error;
pub mod pool;
pub mod receiver;
pub mod sender;
pub mod words;
