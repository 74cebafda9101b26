//! The calls of the sets of indices.
pub mod enums;
pub mod head;
pub mod layout;
pub mod looks;
pub mod robust;
pub mod unique;
