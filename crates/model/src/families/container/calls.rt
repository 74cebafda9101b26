//! The calls of the container under way.
use crate::room::Apart;
use steps::container::add::{Add, Owned};
use steps::container::find::Find;
use steps::container::look::Look;
use steps::container::recover::{DeadOwner, Recover};
use steps::container::remove::Remove;
use steps::container::replace::{Replace, Replacement};
use steps::enums::OwnerId;
use steps::indices::robust::looks::{BorrowedIndices, IsLocked};
use steps::indices::robust::release::GiveBack;
use steps::routine::Running;

/// What a look answers: how many values the state shows, or whether anything has changed.
#[derive(Clone, Copy)]
pub enum LookOf {
    GetState,
    UpdateState,
}

/// What a call asks of the number of indices that are filled.
#[derive(Clone, Copy)]
pub enum CountOf {
    Len,
    IsEmpty,
}

/// A call of the container under way.
#[derive(Drop)]
pub enum ContainerFlight<T> {
    Add(Running<Add<T>, Owned<T>, ()>),
    Remove(Running<Remove, GiveBack, ()>),
    Replace(Running<Replace<T>, Replacement<T>, ()>),
    Find(Running<Find<T, Apart>, OwnerId, Apart>),
    Recover(Running<Recover<T, Apart>, DeadOwner, Apart>),
    /// It goes on from what its party's state has seen, and writes into that.
    Look(LookOf, Look<T>),
    Count(CountOf, Running<BorrowedIndices, (), ()>),
    IsLocked(Running<IsLocked, (), ()>),
}
