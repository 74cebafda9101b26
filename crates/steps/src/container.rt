//! The calls of a container of values, each of which stands at an index that has an owner. What an owner that died has
//! left is freed, and the container can be locked.
//!
//! That nothing is given back twice, that no remove and no replace of an index is begun while a replace of it is under
//! way, and that nobody acts for an owner whose recovery has begun, is the callers' concern.
pub mod add;
pub mod enums;
pub mod find;
pub mod handle;
pub mod layout;
pub mod look;
pub mod recover;
pub mod remove;
pub mod replace;
pub mod state;
