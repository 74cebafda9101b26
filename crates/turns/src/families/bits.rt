//! The bit sets and the counting bit sets: how one opens, which call begins, how it goes on, and what that writes down.
pub mod calls;
pub mod effects;
pub mod opening;
