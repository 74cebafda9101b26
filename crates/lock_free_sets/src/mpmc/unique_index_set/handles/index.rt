//! How a held index is given back, for a handle.
ghost use Rattle.steps.specs.declared.indices.enums.ReleaseState.TheVariants.{Unlocked};
ghost use Rattle.lock_free_sets.specs.Unique.Calls.{ReleaseOrLockDone};
ghost use Rattle.lock_free_sets.specs.Unique.Contracts.{HasGiven};
ghost use Rattle.lock_free_sets.specs.UniqueIndexSet.{value_of, index_pass, index_view, SamePass};
ghost use Rattle.lock_free_sets.specs.Unique.Handles.{pass_in, knows};
ghost use Rattle.history.specs.Steps.{TakesAtMost, TakesAlone};

use super::Handle;
use crate::mpmc::unique_index_set::UniqueIndex;
use std::sync::Wait;
use steps::indices::enums::ReleaseState;

impl<'a> UniqueIndex<'a> {
    /// Gives the index back as `release` does, and returns the handle. This project's own.
    pub fn give_back(self) -> Handle<'a>
        ensures same { SamePass (index_pass self.entry) (pass_in result) }
        ensures given { HasGiven (value_of self.entry) Unlocked (index_view self.entry) (knows result) }
        ensures steps { TakesAtMost 5 (index_view self.entry) (knows result) }
    {
        let UniqueIndex {
            set,
            mut pass,
            index,
        } = self;
        set.release_raw_index(index, &mut pass);
        set.handle(pass)
    }

    /// Gives the index back as `UniqueIndexSet::release_or_lock` does, and returns its answer and the handle. This
    /// project's own.
    pub fn give_back_or_lock(self, rt: &impl Wait) -> (ReleaseState, Handle<'a>)
        ensures same { SamePass (index_pass self.entry) (pass_in result.1) }
        ensures given { ReleaseOrLockDone (value_of self.entry) result.0 (index_view self.entry) (knows result.1) }
        ensures steps { TakesAlone 4 2 (index_view self.entry) (knows result.1) }
    {
        let UniqueIndex {
            set,
            mut pass,
            index,
        } = self;
        let state = set.release_or_lock(rt, index, &mut pass);
        (state, set.handle(pass))
    }
}
