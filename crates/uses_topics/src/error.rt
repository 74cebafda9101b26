//! Why nothing comes of a run.
use lock_free::mpmc::container::OwnerIdNewError;
use lock_free::mpmc::unique_index_set_enums::UniqueIndexCreationError;
use std::alloc::AllocError;
use std::io;
use thiserror::Error;
use zero_copy_bus::error::{BusError, LoanFailure};

/// Why a run of the topics ends before its end.
#[derive(Debug, Drop, Error)]
pub enum RunError {
    #[error("no bus: {0}")]
    Bus(#[from] BusError),
    #[error("no news: {0}")]
    News(#[from] UniqueIndexCreationError),
    #[error("no loan: {0}")]
    Loan(#[from] LoanFailure),
    #[error("no owner: {0}")]
    Owner(#[from] OwnerIdNewError),
    #[error("no memory: {0}")]
    NoMemory(#[from] AllocError),
    #[error("the square is too large")]
    TooLarge,
    #[error("nothing printed: {0}")]
    Print(#[from] io::Error),
    #[error("no place is free")]
    NoPlace,
    #[error("not let in")]
    NotLetIn,
    #[error("nothing waits")]
    NothingWaits,
    #[error("a record is torn")]
    Torn,
}
