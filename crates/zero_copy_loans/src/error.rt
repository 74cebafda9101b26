//! Why there is no loan, no reading, or no buffer.
use lock_free_sets::mpmc::unique_index_set_enums::UniqueIndexSetAcquireFailure;
use thiserror::Error;
use zero_copy_slots::error as slots;

/// Why a sender has no loan.
#[derive(Debug, Drop, Error)]
pub enum LoanFailure {
    #[error("no place: {0}")]
    NoPlace(#[from] UniqueIndexSetAcquireFailure),
    #[error("no value to write")]
    NoValue,
    #[error("place {0} is not to be written, and stays loaned: {1}")]
    StillRead(u32, slots::TakeFailure),
}

/// Why a sample is not read.
#[derive(Debug, Drop, Error)]
pub enum ReadFailure {
    #[error("its slot: {0}")]
    Slot(#[from] slots::ReadFailure),
    #[error("a value of another number lies there: {0}")]
    Other(u64),
}

/// Why there is no buffer.
#[derive(Debug, Drop, Error)]
pub enum PoolFailure {
    #[error("no place: {0}")]
    NoPlace(#[from] UniqueIndexSetAcquireFailure),
    #[error("no further pass")]
    NoPass,
    #[error("the slot of the place: {0}")]
    InUse(#[from] slots::TakeFailure),
}
