//! The calls of the queues under way.
use crate::room::Apart;
use steps::copied::OneWord;
use steps::queues::lengths::Len;
use steps::queues::overflow;
use steps::queues::peek::Peek;
use steps::queues::ring::{Pop, Push};
use steps::queues::roles::{AcquireRole, LookRole, ReleaseRole};
use steps::routine::Running;

/// A call on a role.
#[derive(Drop)]
pub enum RoleCall {
    Acquire(Running<AcquireRole, (), ()>),
    Release(Running<ReleaseRole, (), ()>),
    /// Asks whether it is taken.
    Look(Running<LookRole, (), ()>),
}

/// A call on a bounded queue of the values V, which a pop and a peek read by way of a room R.
#[derive(Drop)]
pub enum RingCall<V, R> {
    Push(Running<Push<V>, V, ()>),
    Pop(Running<Pop<V, R>, (), R>),
    Peek(Running<Peek<V, R>, (), R>),
}

/// A call on an overflowing queue.
#[derive(Drop)]
pub enum OverflowCall {
    Push(Running<overflow::Push, u64, OneWord>),
    Pop(Running<overflow::Pop, (), OneWord>),
}

/// What a call asks of the number of values that wait.
#[derive(Clone, Copy)]
pub enum LengthOf {
    Len,
    IsEmpty,
    IsFull,
}

/// A call of a queue under way.
#[derive(Drop)]
pub enum QueueFlight<T> {
    Role(RoleCall),
    Indices(RingCall<u64, OneWord>),
    /// On a queue of the machine's own values.
    Values(RingCall<T, Apart>),
    Overflow(OverflowCall),
    Length(LengthOf, Running<Len, (), ()>),
}
