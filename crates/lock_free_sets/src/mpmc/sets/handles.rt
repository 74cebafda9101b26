//! A set with a pass of it, whose calls ask for no proof.
ghost use Rattle.lock_free_sets.specs.Sets.Calls.{IsPassOf};

use super::rule::Kind;
use super::{Pass, Set};

mod calls;

/// A handle has a set and a pass of it. Its calls are those of the set. They ask for nothing but a place below the
/// capacity, which an `if` shows, and a closure that may be called with each place. Each thread has a handle of its
/// own, by `split`. This project's own.
pub struct Handle<'a, E: Kind> {
    pub(crate) set: &'a Set<E>,
    pub(crate) pass: Pass<E>,
    ghost of: { IsPassOf set.now pass },
}

impl<'a, E: Kind> Drop for Handle<'a, E> {
    fn drop(self) {
        let Self {
            set: _,
            pass: _pass,
        } = self;
    }
}
