//! Why a schedule was not run to its end.
use thiserror::Error;

/// What is wrong with a line: the first cause that is met from left to right. A capacity is tested last.
#[derive(Debug, Clone, Copy, PartialEq, Eq, Error)]
pub enum Cause {
    /// A word is missing.
    #[error("missing value")]
    MissingValue,
    /// A word is no number, or none that is allowed there.
    #[error("bad value")]
    BadValue,
    /// The word names no kind.
    #[error("unknown kind")]
    UnknownKind,
    /// The word names no turn.
    #[error("unknown turn")]
    UnknownTurn,
    /// The word names no call of the kind.
    #[error("unknown call")]
    UnknownCall,
    /// Words stand behind the last one that is read.
    #[error("extra words")]
    ExtraWords,
    /// The first line is sound, and its capacity is refused.
    #[error("ProvidedCapacityGreaterThanMaxCapacity")]
    ProvidedCapacityGreaterThanMaxCapacity,
    /// The first line is sound, and its capacity is refused.
    #[error("ProvidedCapacityIsZero")]
    ProvidedCapacityIsZero,
}

/// Why a run ended early.
#[derive(Debug, Clone, Copy, PartialEq, Eq, Error)]
pub enum ScheduleError {
    /// The line of this number, counted from 1, is malformed, or the machine of line 1 is refused.
    #[error("line {0}: {1}")]
    Malformed(u64, Cause),
    /// A read failed. Nothing was written.
    #[error("read failed")]
    ReadFailed,
    /// A write failed. Of a writer that tells what it holds, a beginning of the output was written.
    #[error("write failed")]
    WriteFailed,
    /// There is no memory for the input or the machine. Nothing was written.
    #[error("no memory")]
    NoMemory,
}
