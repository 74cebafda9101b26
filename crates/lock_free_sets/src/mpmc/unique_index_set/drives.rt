//! A type for each call of a unique index set. It says what the seat's view knows while the call is under way
//! and once it has ended.
ghost use Rattle.model.specs.Coding.{one_word};
ghost use Rattle.model.specs.declared.turn.Kind.TheVariants as kinds;

use history::view::View;
use steps::indices::looks::{BorrowedIndices, IsLocked};
use steps::indices::unique::{Acquire, DefaultMode, LockMode, Release};
use threaded::driver::rule::{Drives, Tells};

/// Taking an index.
pub struct Takes;

impl Drives<View<u64>, Acquire> for Takes {
    ghost use Rattle.history.specs.Stages.{At, Ends};
    ghost use Rattle.history_indices.specs.Indices.{takes_index};

    ghost at = { λ given. At one_word kinds.Indices takes_index };

    ghost ends = { λ given. Ends one_word kinds.Indices takes_index };
}

/// Giving an index back.
pub struct Gives;

impl Drives<View<u64>, Release<DefaultMode>> for Gives {
    ghost use Rattle.history.specs.Stages.{At, Ends};
    ghost use Rattle.history_indices.specs.Indices.{gives_index};

    ghost at = { λ index. At one_word kinds.Indices (gives_index index) };

    ghost ends = { λ index. Ends one_word kinds.Indices (gives_index index) };
}

/// Giving an index back, and locking the set where it was the last.
pub struct GivesOrLocks;

impl Drives<View<u64>, Release<LockMode>> for GivesOrLocks {
    ghost use Rattle.history.specs.Stages.{At, Ends};
    ghost use Rattle.history_indices.specs.Indices.{gives_or_locks};

    ghost at = { λ index. At one_word kinds.Indices (gives_or_locks index) };

    ghost ends = { λ index. Ends one_word kinds.Indices (gives_or_locks index) };
}

/// Counting the indices that are out.
pub struct CountsOut;

impl Drives<View<u64>, BorrowedIndices> for CountsOut {
    ghost use Rattle.history.specs.Stages.{At, Ends};
    ghost use Rattle.history_indices.specs.Indices.{counts_out};

    ghost at = { λ given. At one_word kinds.Indices counts_out };

    ghost ends = { λ given. Ends one_word kinds.Indices counts_out };
}

/// Looking at the lock.
pub struct LooksLocked;

impl Drives<View<u64>, IsLocked> for LooksLocked {
    ghost use Rattle.history.specs.Stages.{At, Ends};
    ghost use Rattle.history_indices.specs.Indices.{looks_locked};

    ghost at = { λ given. At one_word kinds.Indices looks_locked };

    ghost ends = { λ given. Ends one_word kinds.Indices looks_locked };
}

/// A look at the whole history.
pub struct Look;

impl Tells<View<u64>> for Look {
    ghost use Rattle.history.specs.Views.{LooksOnce};

    ghost told = { λ old found new. LooksOnce one_word kinds.Indices old.capacity old new };
}
