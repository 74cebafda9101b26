//! The unique index set: how it opens, which call begins, how it goes on, and what that writes down. The robust index
//! set has files of its own within.
pub mod calls;
pub mod effects;
pub mod opening;
pub mod robust;
