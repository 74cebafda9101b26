//! The handle of a value that was added to a container.
ghost use Rattle.std.specs.Prelude.{◌≡◌};

use crate::enums::OwnerId;

/// Names a value by its index, its owner and the number of its container. Two handles are equal where these are, also
/// where another value was added at the index, for the same owner, in between. After the Rust crate's
/// `ContainerHandle`.
#[derive(Debug, Clone, Copy, PartialEq, Eq, PartialOrd, Ord, Hash)]
pub struct ContainerHandle {
    pub index: u32,
    pub owner: OwnerId,
    pub container: u64,
}

impl ContainerHandle {
    /// The index at which the value stands.
    #[inline(always)]
    pub fn index(&self) -> usize
        ensures { result ≡ self.now.index }
    {
        self.index as usize
    }
}
