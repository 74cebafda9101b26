//! The calls of a loan channel: a sender loans slots, sends their indices to one receiver, and gets them back.
//!
//! Each call is made of calls on the channel's parts: `loan` is the acquire of the set and `give_up` its release in
//! mode `Default`, `receive` the pop of the submission queue and `give_back` the push of the completion queue. The
//! other three stand here. Who may begin a call, and with which index, is the callers' concern.
pub mod back;
pub mod layout;
pub mod parts;
pub mod places;
pub mod reclaim;
pub mod send;
pub mod take_back;
