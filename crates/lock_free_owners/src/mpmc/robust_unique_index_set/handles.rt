//! A robust unique index set with a pass of it, whose calls ask for no proof.
ghost use Rattle.lock_free_owners.specs.RobustUniqueIndexSet.{IsPassOf};

use super::{Pass, RobustUniqueIndexSet};

mod calls;
mod visits;

/// A handle has a set and a pass of it. Its calls are those of the set, and ask for nothing but an index below the
/// capacity, which an `if` shows, and closures that may be called. Each thread has a handle of its own, by `split`.
/// This project's own.
pub struct Handle<'a> {
    set: &'a RobustUniqueIndexSet,
    pass: Pass,
    ghost of: { IsPassOf set.now pass },
}

impl<'a> Drop for Handle<'a> {
    fn drop(self) {
        let Self {
            set: _,
            pass: _pass,
        } = self;
    }
}
