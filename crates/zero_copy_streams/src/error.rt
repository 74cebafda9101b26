//! Why a stream is not made, why a value is not sent, and why not all were read.
use steps::enums::UniqueIndexCreationError;
use thiserror::Error;
use zero_copy_slots::error::TakeFailure;

/// Why a stream is not made.
#[derive(Debug, Drop, Error)]
pub enum StreamError {
    #[error("a slot that comes back may find no room")]
    TooManySlots,
    #[error("a part is not made: {0}")]
    Part(#[from] UniqueIndexCreationError),
}

/// Why a value is not sent.
#[derive(Debug, Drop, Error)]
pub enum SendFailure {
    #[error("no slot is free")]
    NoSlot,
    #[error("the receiver is gone")]
    NoReceiver,
    #[error("no value to write")]
    NoValue,
    #[error("the value was not written")]
    Unwritten,
    #[error("the slot: {0}")]
    InUse(#[from] TakeFailure),
    #[error("no room for a ticket")]
    Full,
}

/// Why not all values were read.
#[derive(Debug, Drop, Error)]
pub enum ReadAllFailure {
    #[error("no memory")]
    NoMemory,
    #[error("the value of number {0} was not read, or nothing was told of it")]
    Unread(u64),
}
