//! Why a slot is not read, or not to be written.
use crate::words::Seen;
use thiserror::Error;

/// Why a slot is not read, with the word that said so.
#[derive(Debug, Drop, Error)]
pub enum ReadFailure {
    #[error("no such slot")]
    NoSlot,
    #[error("it is empty or written: word {}", .0.word())]
    NotThere(Seen),
    #[error("no further reader can be counted: word {}", .0.word())]
    TooMany(Seen),
    #[error("nothing lies there though its word says so: word {}", .0.word())]
    Hollow(Seen),
    #[error("it changed in each try, at last from word {} to word {}", .0.word(), .1.word())]
    Busy(Seen, Seen),
}

/// Why a slot is not to be written, with the words that said so.
#[derive(Debug, Drop, Error)]
pub enum TakeFailure {
    #[error("no such slot")]
    NoSlot,
    #[error("it is read or written: word {}", .0.word())]
    InUse(Seen),
    #[error("it changed from word {} to word {}", .0.word(), .1.word())]
    Changed(Seen, Seen),
}
