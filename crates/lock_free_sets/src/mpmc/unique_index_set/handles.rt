//! A unique index set with a pass of it, whose calls ask for no proof.
ghost use Rattle.lock_free_sets.specs.UniqueIndexSet.{IsPassOf};

use super::{Pass, UniqueIndexSet};

mod calls;
mod index;

/// A handle has a set and a pass of it. Its calls are those of the set, and ask for nothing. An index that it takes is
/// a guard, which gives it back without a proof, by a call or as it is dropped; raw indices are for passes. Each thread
/// has a handle of its own, by `split`. This project's own.
pub struct Handle<'a> {
    set: &'a UniqueIndexSet,
    pass: Pass,
    ghost of: { IsPassOf set.now pass },
}

impl<'a> Drop for Handle<'a> {
    fn drop(self) {
        let Self {
            set: _,
            pass: _pass,
        } = self;
    }
}
