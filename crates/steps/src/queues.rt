//! The calls of the queues, on the roles and on the number of values that wait.
pub mod lengths;
pub mod overflow;
pub mod peek;
pub mod ring;
pub mod roles;
