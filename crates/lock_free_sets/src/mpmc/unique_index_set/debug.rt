//! What `Debug` shows of each type: its name, the capacity or the index.

use super::{FixedSizeUniqueIndexSet, Handle, Pass, UniqueIndex, UniqueIndexSet};
use std::fmt;
use std::fmt::{Debug, Formatter};

impl Debug for UniqueIndexSet {
    fn fmt<W: fmt::Write>(&self, f: &mut Formatter<W>) -> fmt::Result {
        f.debug_struct("UniqueIndexSet")
            .field("capacity", &self.capacity)
            .finish_non_exhaustive()
    }
}

impl<const CAPACITY: usize> Debug for FixedSizeUniqueIndexSet<CAPACITY> {
    fn fmt<W: fmt::Write>(&self, f: &mut Formatter<W>) -> fmt::Result {
        f.debug_struct("FixedSizeUniqueIndexSet")
            .field("capacity", &self.set.capacity)
            .finish_non_exhaustive()
    }
}

impl Debug for Pass {
    fn fmt<W: fmt::Write>(&self, f: &mut Formatter<W>) -> fmt::Result {
        f.debug_struct("Pass").finish_non_exhaustive()
    }
}

impl Debug for Handle<'_> {
    fn fmt<W: fmt::Write>(&self, f: &mut Formatter<W>) -> fmt::Result {
        f.debug_struct("Handle").finish_non_exhaustive()
    }
}

impl Debug for UniqueIndex<'_> {
    fn fmt<W: fmt::Write>(&self, f: &mut Formatter<W>) -> fmt::Result {
        f.debug_struct("UniqueIndex")
            .field("index", &self.index)
            .finish_non_exhaustive()
    }
}
