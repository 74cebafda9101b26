//! The enums that say why no set is made or no index granted, and how one is given back.
pub use steps::enums::UniqueIndexCreationError;
pub use steps::indices::enums::{ReleaseMode, ReleaseState, UniqueIndexSetAcquireFailure};
