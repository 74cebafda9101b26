//! Calls by their names and arguments, their answers, and what a run writes down.
ghost use Rattle.std.specs.Prelude.{◌≡◌, ⊤};

use crate::families::atomic::AtomicStart;
use crate::families::bits::BitsStart;
use crate::families::container::ContainerStart;
use crate::families::indices::IndexStart;
use crate::families::indices::robust::RobustStart;
use crate::families::loan::LoanStart;
use crate::families::queues::QueueStart;
use std::alloc::AllocError;
use steps::container::enums::{ContainerAddFailure, ContainerRemoveError};
use steps::enums::OwnerId;
use steps::indices::enums::{
    ReleaseState, RobustUniqueIndexSetReleaseError, UniqueIndexSetAcquireFailure,
};

/// A value of a queue.
#[derive(Clone, Copy, PartialEq, Eq)]
pub enum Item<T> {
    /// A number of one word, in the queues of indices.
    Index(u64),
    /// A value of the machine's own type.
    Value(T),
}

/// A call and its arguments, by families.
#[derive(Copy, PartialEq, Eq)]
pub enum Start<T> {
    /// A call of a queue, or on one of its roles.
    Queues(QueueStart<T>),
    /// A call of the single value, or on its producer's role.
    Atomic(AtomicStart<T>),
    /// A call of a bit set or of a counting bit set.
    Bits(BitsStart),
    /// A call of the unique index set.
    Indices(IndexStart),
    /// A call of the robust index set.
    Robust(RobustStart),
    /// A call of the container.
    Container(ContainerStart<T>),
    /// A call of a loan channel.
    Loan(LoanStart),
}

// `clone` is by hand, here and below, and there is no `Debug`. A derive goes through every field of every case, and the
// proof of that takes a minute.
impl<T: Copy> Clone for Start<T> {
    ghost is_clone = { λ x y. y ≡ x };

    ghost is_infallible = { λ _. ⊤ };

    fn clone(&self) -> Result<Start<T>, AllocError> {
        Ok(*self)
    }
}

/// What a call answers.
#[derive(Copy, PartialEq, Eq)]
pub enum Answer<T> {
    /// Of giving a role back, of resetting all bits or counts, of a replace, and of giving a loaned index up.
    Done,
    /// Of a push of the bounded queue, of a store, of acquiring a role, of asking whether one is held, a queue empty or
    /// full, a container empty, a bit set or a set of indices or a container locked, of setting a bit, of bringing a
    /// state up to date, and of giving a received index back.
    Truth(bool),
    /// Of asking how many values wait, for the version of the single value, how many indices are borrowed or how many an
    /// owner has, the count of a place as it was asked for or before it was set, how many values a new state of a
    /// container shows, and how many indices a reclaim released.
    Number(u64),
    /// Of a pop, a peek, a receive or a take-back, or of a push of the overflowing queue or a send, that has no value.
    PoppedNone,
    /// The number that a pop, a peek, a receive or a take-back answers, or that a push of the overflowing queue or a send
    /// hands back.
    PoppedIndex(u64),
    /// The value of the machine's own type that a pop or a peek answers.
    Popped(T),
    /// The value that a load answers.
    Loaded(T),
    /// Of resetting the next bit where none was found to stand.
    ResetNone,
    /// The bit that was reset.
    Reset(u64),
    /// The index that an acquire or a loan hands out, or at which an add has put its value.
    Index(u32),
    /// Why an acquire or a loan hands out none.
    NoIndex(UniqueIndexSetAcquireFailure),
    /// Whether the set or the container is locked, by a release, a remove or a recovery.
    State(ReleaseState),
    /// Why a release gives nothing back.
    NotOwned(RobustUniqueIndexSetReleaseError),
    /// Why no value was added.
    NoPlace(ContainerAddFailure),
    /// Why no value was removed or replaced.
    NotRemoved(ContainerRemoveError),
}

impl<T: Copy> Clone for Answer<T> {
    ghost is_clone = { λ x y. y ≡ x };

    ghost is_infallible = { λ _. ⊤ };

    fn clone(&self) -> Result<Answer<T>, AllocError> {
        Ok(*self)
    }
}

/// What a run writes down. The first number is the party's.
#[derive(Copy, PartialEq, Eq)]
pub enum Event<T> {
    /// The party began this call.
    Begun(u32, Start<T>),
    /// A push stored the next write position: from here on its value waits.
    Published(u32, Item<T>),
    /// The read position went on, by a pop or by a push of the overflowing queue: the value was the oldest that waited.
    HandedOut(u32, Item<T>),
    /// The call set this bit.
    Set(u32, u64),
    /// The call cleared this bit.
    Cleared(u32, u64),
    /// The call added 1 to the count of this place.
    Counted(u32, u64),
    /// The call took this number, which is above 0, out of the count of this place.
    TakenOut(u32, u64, u64),
    /// An acquire took the claim flag of this index: from here on the party holds it.
    Claimed(u32, u32),
    /// A release cleared the claim flag of this index: from here on nobody holds it.
    Freed(u32, u32),
    /// The set is locked from here on: a release gave the last index back, or in the robust set or a container a
    /// release, a remove or a recovery found no index with an owner.
    Locked(u32),
    /// An acquire of the robust set, or an add, filled the cell of this index for this owner.
    Filled(u32, u32, OwnerId),
    /// The acquire or the add is granted this index for this owner: from here on the owner holds it.
    Granted(u32, u32, OwnerId),
    /// A release, a remove or a recovery emptied the cell of this index, which held this owner.
    FreedOf(u32, u32, OwnerId),
    /// A recovery has found this index filled with this owner, in a container has copied its value too, and asks
    /// whether it is to free it.
    Asked(u32, u32, OwnerId),
    /// The recovery was told to free it.
    Told(u32, u32, OwnerId),
    /// An add or a replace has made the number of this index odd: from here on this value stands there.
    Placed(u32, u32, T),
    /// The call has made the odd number of this index even: from here on nothing stands there.
    Hidden(u32, u32),
    /// The call has copied this value, whole, from this index.
    Copied(u32, u32, T),
    /// A recovery has found that nothing stands at this index.
    Shown(u32, u32),
    /// The receiver of a loan channel has given this index back: from here on it waits in the completion queue.
    Returned(u32, u64),
    /// The sender of a loan channel has taken this index, the oldest that waited there, out of the completion queue.
    TakenBack(u32, u64),
    /// The owner, or the party of a loan channel, died. This is an event of no party.
    Died(OwnerId),
    /// The linearization point of the call, with its answer. It can come in the turn of another party.
    Acted(u32, Start<T>, Answer<T>),
    /// The call is done, in this turn.
    Finished(u32, Start<T>, Answer<T>),
}

impl<T: Copy> Clone for Event<T> {
    ghost is_clone = { λ x y. y ≡ x };

    ghost is_infallible = { λ _. ⊤ };

    fn clone(&self) -> Result<Event<T>, AllocError> {
        Ok(*self)
    }
}
