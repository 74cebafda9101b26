//! The calls of the unique index set under way.
use steps::indices::looks::{BorrowedIndices, IsLocked};
use steps::indices::unique::{Acquire, DefaultMode, LockMode, Release};
use steps::routine::Running;

/// A call of the unique index set under way.
#[derive(Drop)]
pub enum IndexFlight {
    Acquire(Running<Acquire, (), ()>),
    ReleaseDefault(Running<Release<DefaultMode>, u32, ()>),
    ReleaseLock(Running<Release<LockMode>, u32, ()>),
    BorrowedIndices(Running<BorrowedIndices, (), ()>),
    IsLocked(Running<IsLocked, (), ()>),
}
