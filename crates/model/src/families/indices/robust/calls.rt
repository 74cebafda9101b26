//! The calls of the robust index set under way.
use steps::enums::OwnerId;
use steps::indices::enums::ReleaseMode;
use steps::indices::robust::acquire::Acquire;
use steps::indices::robust::find::Find;
use steps::indices::robust::looks::{BorrowedIndices, IsLocked};
use steps::indices::robust::recover::Recover;
use steps::indices::robust::release::{GiveBack, Release};
use steps::routine::Running;

/// A call of the robust index set under way.
#[derive(Drop)]
pub enum RobustFlight {
    Acquire(Running<Acquire, OwnerId, ()>),
    Release(Running<Release, GiveBack, ()>),
    Find(Running<Find, OwnerId, ()>),
    Recover(Running<Recover, ReleaseMode, ()>),
    BorrowedIndices(Running<BorrowedIndices, (), ()>),
    IsLocked(Running<IsLocked, (), ()>),
}
