//! Queues that threads share. All calls of all threads form one history, which is one of a machine of the model. So
//! what is proved of every machine is a fact about what the threads did.
#![tactic(auto)]

pub mod laws;
pub mod spsc;
