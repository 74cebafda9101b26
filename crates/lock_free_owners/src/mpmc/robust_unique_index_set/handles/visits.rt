//! The calls by a handle that come to the indices of owners.
ghost use Rattle.std.specs.Prelude.{◌≡◌, ◌+◌, false};
ghost use Rattle.steps.specs.declared.enums.CallbackProgression.TheVariants.{Continue};
ghost use Rattle.model.specs.Families.Indices.Reading.{is_locked};
ghost use Rattle.history.specs.Steps.{TakesAtMost};
ghost use Rattle.threaded.specs.Callable.{TakesPlaces};
ghost use Rattle.lock_free_owners.specs.Robust.Callable.{TakesQuestions, TakesFreed};
ghost use Rattle.lock_free_owners.specs.Robust.Calls.{RecoverDone};
ghost use Rattle.lock_free_owners.specs.Robust.Steps.{RecoverTakes};
ghost use Rattle.lock_free_owners.specs.Robust.Contracts.{HasSearched};
ghost use Rattle.lock_free_owners.specs.RobustUniqueIndexSet.{capacity_of, history};
ghost use Rattle.lock_free_owners.specs.Robust.Handles.{set_in, pass_in, knows, FindKeepsHandle, SameHandle};

use super::Handle;
use crate::mpmc::robust_unique_index_set::{CallbackProgression, OwnerId};
use std::sync::Wait;
use steps::indices::enums::{ReleaseMode, ReleaseState};

impl<'a> Handle<'a> {
    /// Calls `RobustUniqueIndexSet::find`, with its pass.
    pub fn find<F: FnMut(usize) -> CallbackProgression>(
        &mut self,
        owner: OwnerId,
        visit: &mut F,
    ) -> usize
        requires { TakesPlaces F.pre (λ p x q. F.step p x Continue q) (capacity_of (set_in self.old)) visit.old }
        ensures same { FindKeepsHandle self.old self.new }
        ensures found { HasSearched (λ p x a q. F.step p x a q) (capacity_of (set_in self.old)) owner
            visit.old result visit.new (knows self.old) (knows self.new) }
        ensures steps { TakesAtMost (capacity_of (set_in self.old) + 1) (knows self.old) (knows self.new) }
    {
        self.set.find(owner, visit, &mut self.pass)
    }

    /// Calls `RobustUniqueIndexSet::recover`, with its pass.
    pub fn recover<F: FnMut(OwnerId, usize) -> bool, S: FnMut(OwnerId, usize)>(
        &mut self,
        rt: &impl Wait,
        mode: ReleaseMode,
        predicate: &mut F,
        recover_success: &mut S,
    ) -> ReleaseState
        requires questions { is_locked (history (pass_in self.old)) ≡ false → TakesQuestions F.pre
            (λ p o i b q. F.step p o i b q) (capacity_of (set_in self.old)) predicate.old }
        requires freed { is_locked (history (pass_in self.old)) ≡ false → TakesFreed
            (λ p o i b q. F.step p o i b q) S.pre (λ s o i t. S.step s o i tt t)
            (capacity_of (set_in self.old)) predicate.old recover_success.old }
        ensures same { SameHandle self.old self.new }
        ensures recovered { RecoverDone (λ p o i b q. F.step p o i b q) (λ s o i t. S.step s o i tt t) mode result
            predicate.old recover_success.old predicate.new recover_success.new (knows self.old) (knows self.new) }
        ensures steps { RecoverTakes (capacity_of (set_in self.old)) mode (knows self.old) (knows self.new) }
    {
        self.set
            .recover(rt, mode, predicate, recover_success, &mut self.pass)
    }
}
