//! What `Debug` shows of each type: its name or what it is, and the capacity.

use super::rule::Kind;
use super::{FixedSize, Handle, Held, Set};
use atomic_table::TableRule;
use history::view::View;
use std::fmt;
use std::fmt::{Debug, Formatter};
use steps::words::Words;

impl<E: Kind> Debug for Set<E> {
    fn fmt<W: fmt::Write>(&self, f: &mut Formatter<W>) -> fmt::Result {
        f.debug_struct("Set")
            .field("capacity", &self.capacity)
            .finish_non_exhaustive()
    }
}

impl<E: Kind, const CAPACITY: usize> Debug for FixedSize<E, CAPACITY> {
    fn fmt<W: fmt::Write>(&self, f: &mut Formatter<W>) -> fmt::Result {
        f.debug_struct("FixedSize")
            .field("capacity", &self.set.capacity)
            .finish_non_exhaustive()
    }
}

impl<E: Kind, T: Words, Q: TableRule<(), View<T>, u32>> Debug for Held<E, T, Q> {
    fn fmt<W: fmt::Write>(&self, f: &mut Formatter<W>) -> fmt::Result {
        f.debug_struct("Pass").finish_non_exhaustive()
    }
}

impl<E: Kind> Debug for Handle<'_, E> {
    fn fmt<W: fmt::Write>(&self, f: &mut Formatter<W>) -> fmt::Result {
        f.debug_struct("Handle").finish_non_exhaustive()
    }
}
