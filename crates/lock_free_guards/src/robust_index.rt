//! An index of a robust unique index set that is held for an owner.
ghost use Rattle.std.specs.Prelude.{◌<◌};
ghost use Rattle.lock_free_owners.specs.RobustUniqueIndexSet.{capacity_of, made, IsPassOf};
ghost use Rattle.lock_free_guards.specs.Held.{HoldsFor};

use lock_free_owners::mpmc::robust_unique_index_set::{OwnerId, Pass, RobustUniqueIndexSet};
use std::fmt;
use std::fmt::{Debug, Formatter};
use std::sync::Wait;
use steps::indices::enums::ReleaseMode;

mod calls;
mod waits;

/// An index that is held for an owner. It owns the pass that it was acquired with, and gives the index back in mode
/// `Default` when it is dropped (no clause says so). Who dies leaves it undropped, and the index to a recovery.
pub struct RobustIndex<'a, R: Wait> {
    set: &'a RobustUniqueIndexSet,
    rt: &'a R,
    pass: Pass,
    owner: OwnerId,
    index: usize,
    ghost of: { IsPassOf set.now pass },
    ghost within: { index < capacity_of set.now },
    ghost held: { HoldsFor owner index (made pass) },
}

impl<'a, R: Wait> Drop for RobustIndex<'a, R> {
    /// Gives the index back, if its owner still has it (no clause says so). Alone at most 3 atomic steps.
    fn drop(self) {
        let Self {
            set,
            rt,
            mut pass,
            owner,
            index,
        } = self;
        let _ = set.release(rt, index, owner, ReleaseMode::Default, &mut pass);
    }
}

impl<R: Wait> Debug for RobustIndex<'_, R> {
    fn fmt<W: fmt::Write>(&self, f: &mut Formatter<W>) -> fmt::Result {
        f.debug_struct("RobustIndex")
            .field("owner", &self.owner)
            .field("index", &self.index)
            .finish_non_exhaustive()
    }
}
