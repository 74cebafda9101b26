//! The calls of the single value under way.
use crate::room::Apart;
use steps::atomic::version::Version;
use steps::atomic::{Load, Store};
use steps::queues::roles::{AcquireRole, LookRole, ReleaseRole};
use steps::routine::Running;

/// A call of the single value under way.
#[derive(Drop)]
pub enum AtomicFlight<T> {
    Acquire(Running<AcquireRole, (), ()>),
    Release(Running<ReleaseRole, (), ()>),
    Store(Running<Store<T>, T, ()>),
    Load(Running<Load<T, Apart>, (), Apart>),
    /// Asks whether the producer's role is taken.
    Look(Running<LookRole, (), ()>),
    Version(Running<Version, (), ()>),
}
