//! A type for each call and look of a robust set. It says what the seat's view knows while the call is under
//! way and once it has ended.
ghost use Rattle.model.specs.Coding.{one_word};
ghost use Rattle.model.specs.declared.turn.Kind.TheVariants as kinds;

use history::view::View;
use steps::indices::robust::acquire::Acquire;
use steps::indices::robust::looks::{BorrowedIndices, IsLocked};
use steps::indices::robust::release::Release;
use threaded::driver::rule::{Drives, Tells};

/// Taking an index for an owner.
pub struct Takes;

impl Drives<View<u64>, Acquire> for Takes {
    ghost use Rattle.lock_free_owners.specs.Robust.Turns.{AcquireAt, AcquireEnds};

    ghost at = { AcquireAt };

    ghost ends = { AcquireEnds };
}

/// Giving an index back for its owner.
pub struct Gives;

impl Drives<View<u64>, Release> for Gives {
    ghost use Rattle.history.specs.Stages.{At, Ends};
    ghost use Rattle.history_owners.specs.Robust.{gives_owned};

    ghost at = { λ given. At one_word kinds.Robust (gives_owned given) };

    ghost ends = { λ given. Ends one_word kinds.Robust (gives_owned given) };
}

/// Counting the indices that have an owner.
pub struct CountsOwned;

impl Drives<View<u64>, BorrowedIndices> for CountsOwned {
    ghost use Rattle.lock_free_owners.specs.Robust.Turns.{CountAt, CountEnds};

    ghost at = { λ given. CountAt };

    ghost ends = { λ given. CountEnds };
}

/// Looking at the lock.
pub struct LooksLocked;

impl Drives<View<u64>, IsLocked> for LooksLocked {
    ghost use Rattle.history.specs.Stages.{At, Ends};
    ghost use Rattle.history_owners.specs.Robust.{looks_owned};

    ghost at = { λ given. At one_word kinds.Robust looks_owned };

    ghost ends = { λ given. Ends one_word kinds.Robust looks_owned };
}

/// A look at the whole history.
pub struct Look;

impl Tells<View<u64>> for Look {
    ghost use Rattle.history.specs.Views.{LooksOnce};

    ghost told = { λ old found new. LooksOnce one_word kinds.Robust old.capacity old new };
}
