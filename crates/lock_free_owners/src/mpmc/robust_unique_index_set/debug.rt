//! What `Debug` shows of each type: its name, and the capacity.

use super::{Handle, Pass, RobustUniqueIndexSet, StaticRobustUniqueIndexSet};
use std::fmt;
use std::fmt::{Debug, Formatter};

impl Debug for RobustUniqueIndexSet {
    fn fmt<W: fmt::Write>(&self, f: &mut Formatter<W>) -> fmt::Result {
        f.debug_struct("RobustUniqueIndexSet")
            .field("capacity", &self.capacity)
            .finish_non_exhaustive()
    }
}

impl<const CAPACITY: usize> Debug for StaticRobustUniqueIndexSet<CAPACITY> {
    fn fmt<W: fmt::Write>(&self, f: &mut Formatter<W>) -> fmt::Result {
        f.debug_struct("StaticRobustUniqueIndexSet")
            .field("capacity", &self.set.capacity)
            .finish_non_exhaustive()
    }
}

impl Debug for Pass {
    fn fmt<W: fmt::Write>(&self, f: &mut Formatter<W>) -> fmt::Result {
        f.debug_struct("Pass").finish_non_exhaustive()
    }
}

impl Debug for Handle<'_> {
    fn fmt<W: fmt::Write>(&self, f: &mut Formatter<W>) -> fmt::Result {
        f.debug_struct("Handle").finish_non_exhaustive()
    }
}
