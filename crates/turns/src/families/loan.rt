//! The loan channel: how it opens, which call begins, how it goes on, and what that writes down.
pub mod calls;
pub mod effects;
pub mod opening;
