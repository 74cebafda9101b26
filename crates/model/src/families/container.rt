//! The container of values, each of which stands at an index that has an owner: its calls by name, and what stands in
//! the files beside this one.
pub mod calls;
pub mod states;

use steps::enums::OwnerId;
use steps::indices::enums::ReleaseMode;

/// The least and the greatest capacity of a container.
pub const CAPACITIES: (u64, u64) = (1, 0xffff_ffff);

/// A call of the container by its name and arguments.
#[derive(Clone, Copy, PartialEq, Eq)]
pub enum ContainerStart<T> {
    /// This value is added for this owner.
    Add(T, OwnerId),
    /// The value at this index of this owner is removed.
    Remove(u64, OwnerId, ReleaseMode),
    /// This value comes into the place of the one at this index of this owner.
    Replace(u64, T, OwnerId),
    /// How many indices this owner has. It asks about each value of his whether to go on.
    Find(OwnerId),
    /// It frees the indices of this owner, who is dead, and before that asks about each value of the owner whether to
    /// free its index.
    Recover(OwnerId, ReleaseMode),
    /// The party's state is emptied and then brought up to date.
    GetState,
    /// The party's state is brought up to date.
    UpdateState,
    Len,
    IsEmpty,
    IsLocked,
}
