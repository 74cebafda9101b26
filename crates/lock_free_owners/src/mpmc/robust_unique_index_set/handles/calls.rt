//! The calls by a handle: those of its set.
ghost use Rattle.std.specs.Prelude.{◌≡◌, ◌+◌, ◌<◌, true, Err, IfSome, IfNone, IfOk, IfErr};
ghost use Rattle.steps.specs.declared.indices.enums.UniqueIndexSetAcquireFailure.TheVariants.{IsLocked as Locked};
ghost use Rattle.model.specs.Families.Indices.Reading.{is_locked};
ghost use Rattle.model.specs.declared.turn.Kind.TheVariants as kinds;
ghost use Rattle.model.specs.Coding.{one_word};
ghost use Rattle.history.specs.History.{Knows};
ghost use Rattle.history.specs.Passes.{HasSplit};
ghost use Rattle.history.specs.Steps.{TakesAtMost, TakesAlone};
ghost use Rattle.lock_free_owners.specs.Robust.Calls.{AcquireDone, AcquireRefused, ReleaseDone, ReleaseRefused, BorrowedDone, IsLockedDone};
ghost use Rattle.lock_free_owners.specs.Robust.Steps.{ReleaseTakes};
ghost use Rattle.lock_free_owners.specs.RobustUniqueIndexSet.{capacity_of, set_of, IsPassOf, HasHistory, history};
ghost use Rattle.lock_free_owners.specs.Robust.Handles.{set_in, pass_in, knows, SameHandle};

use super::Handle;
use crate::mpmc::robust_unique_index_set::{
    OwnerId, Pass, RobustUniqueIndexSet, RobustUniqueIndexSetReleaseError,
};
use std::sync::Wait;
use steps::indices::enums::{ReleaseMode, ReleaseState, UniqueIndexSetAcquireFailure};

impl RobustUniqueIndexSet {
    /// Makes a handle of this set and a pass of it. No atomic step. This project's own.
    pub fn handle(&self, pass: Pass) -> Handle<'_>
        requires { IsPassOf self.now pass }
        ensures set { set_in result ≡ self.now }
        ensures pass { pass_in result ≡ pass }
    {
        Handle { set: self, pass }
    }
}

impl<'a> Handle<'a> {
    /// Returns the pass. No atomic step.
    pub fn into_pass(self) -> Pass
        ensures { result ≡ pass_in self.entry }
    {
        let Handle { set: _, pass } = self;
        pass
    }

    /// What the handle's pass has seen is a history, as `history` of the pass says. It does nothing.
    pub fn history(&self)
        ensures run { Knows one_word kinds.Robust (set_of (pass_in self.now)).capacity (knows self.now) }
        ensures history { HasHistory (pass_in self.now) }
    {
        self.pass.history();
    }

    /// Makes a further handle of the set, with a pass that it gets by `Pass::split`.
    pub fn split(&mut self) -> Option<Handle<'a>>
        ensures set { set_in self.new ≡ set_in self.old }
        ensures new { IfSome result (λ h. set_in h ≡ set_in self.old) }
        ensures cut { IfSome result (λ h. HasSplit (knows self.old) (knows self.new) (knows h)) }
        ensures none { IfNone result (knows self.new ≡ knows self.old) }
        ensures steps { TakesAtMost 1 (knows self.old) (knows self.new) }
    {
        let pass = self.pass.split()?;
        Some(Handle {
            set: self.set,
            pass,
        })
    }

    /// Calls `RobustUniqueIndexSet::capacity`.
    pub fn capacity(&self) -> usize
        ensures { result ≡ capacity_of (set_in self.now) }
    {
        self.set.capacity()
    }

    /// Calls `RobustUniqueIndexSet::acquire`, with its pass.
    pub fn acquire(
        &mut self,
        rt: &impl Wait,
        owner: OwnerId,
    ) -> Result<usize, UniqueIndexSetAcquireFailure>
        ensures same { SameHandle self.old self.new }
        ensures acquired { IfOk result (λ index. AcquireDone (capacity_of (set_in self.old)) owner index (knows self.old) (knows self.new)) }
        ensures refused { IfErr result (λ failure. AcquireRefused owner failure (knows self.old) (knows self.new)) }
        ensures lock { is_locked (history (pass_in self.old)) ≡ true → result ≡ Err Locked }
        ensures steps { TakesAlone (capacity_of (set_in self.old) + 3)
            (capacity_of (set_in self.old) + 1) (knows self.old) (knows self.new) }
    {
        self.set.acquire(rt, owner, &mut self.pass)
    }

    /// Calls `RobustUniqueIndexSet::release`, with its pass.
    pub fn release(
        &mut self,
        rt: &impl Wait,
        index: usize,
        owner: OwnerId,
        mode: ReleaseMode,
    ) -> Result<ReleaseState, RobustUniqueIndexSetReleaseError>
        requires { index < capacity_of (set_in self.old) }
        ensures same { SameHandle self.old self.new }
        ensures released { IfOk result (λ state. ReleaseDone index owner mode state (knows self.old) (knows self.new)) }
        ensures refused { IfErr result (λ failure. ReleaseRefused index owner mode failure (knows self.old) (knows self.new)) }
        ensures steps { ReleaseTakes (capacity_of (set_in self.old)) mode (knows self.old) (knows self.new) }
    {
        self.set.release(rt, index, owner, mode, &mut self.pass)
    }

    /// Calls `RobustUniqueIndexSet::is_locked`, with its pass.
    pub fn is_locked(&mut self) -> bool
        ensures same { SameHandle self.old self.new }
        ensures looked { IsLockedDone result (knows self.old) (knows self.new) }
        ensures steps { TakesAtMost 1 (knows self.old) (knows self.new) }
    {
        self.set.is_locked(&mut self.pass)
    }

    /// Calls `RobustUniqueIndexSet::borrowed_indices`, with its pass.
    pub fn borrowed_indices(&mut self, rt: &impl Wait) -> usize
        ensures same { SameHandle self.old self.new }
        ensures counted { BorrowedDone (capacity_of (set_in self.old)) result (knows self.old) (knows self.new) }
        ensures steps { TakesAlone (capacity_of (set_in self.old) + 2)
            (capacity_of (set_in self.old) + 2) (knows self.old) (knows self.new) }
    {
        self.set.borrowed_indices(rt, &mut self.pass)
    }
}
