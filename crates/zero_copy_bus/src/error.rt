//! Why a bus, or an end of it, is not made, and why its calls are refused.
use lock_free_owners::mpmc::container::{ContainerAddFailure, ContainerRemoveError};
use lock_free_sets::mpmc::unique_index_set_enums::{
    UniqueIndexCreationError, UniqueIndexSetAcquireFailure,
};
use thiserror::Error;
use zero_copy_slots::error as slots;

/// Why a bus, or its publisher, is not made.
#[derive(Debug, Drop, Error)]
pub enum BusError {
    #[error("a part is not made: {0}")]
    Part(#[from] UniqueIndexCreationError),
    #[error("more than 63 subscribers")]
    TooManySubscribers,
    #[error("there is no memory")]
    NoMemory,
    #[error("no further pass")]
    NoPass,
    #[error("another has the role")]
    Taken,
}

/// Why there is no loan.
#[derive(Debug, Drop, Error)]
pub enum LoanFailure {
    #[error("no slot: {0}")]
    NoSlot(#[from] UniqueIndexSetAcquireFailure),
    #[error("no record to write")]
    NoRecord,
    #[error("slot {0} is not to be written, and stays out: {1}")]
    StillRead(u32, slots::TakeFailure),
}

/// Why there is no subscriber.
#[derive(Debug, Drop, Error)]
pub enum SubscribeFailure {
    #[error("no place is free")]
    NoSeat,
    #[error("the registry: {0}")]
    NotLetIn(#[from] ContainerAddFailure),
    #[error("the look at the registry does not show it")]
    NotSeen,
    #[error("the look at the registry does not show it, and the registry refused to remove it: {0}")]
    NotRemoved(ContainerRemoveError),
}

/// Why a slot that stayed out is not reclaimed.
#[derive(Debug, Drop, Error)]
pub enum ReclaimFailure {
    #[error("the publisher does not hold it")]
    NotHeld,
    #[error("the slot: {0}")]
    InUse(#[from] slots::TakeFailure),
}
