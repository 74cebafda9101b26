//! The calls by a handle: those of its set.
ghost use Rattle.std.specs.Prelude.{◌≡◌, ◌+◌, max};
ghost use Rattle.std.specs.Prelude.{IfSome, IfNone, IfOk, IfErr};
ghost use Rattle.lock_free_sets.specs.Unique.Calls.{BorrowedDone, IsLockedDone};
ghost use Rattle.lock_free_sets.specs.Unique.Contracts.{HasAcquired, WasRefused};
ghost use Rattle.lock_free_sets.specs.UniqueIndexSet.{capacity_of, set_of, IsPassOf, HasHistory, value_of, index_pass, index_view, SamePass};
ghost use Rattle.history.specs.History.{Knows};
ghost use Rattle.history.specs.Passes.{HasSplit};
ghost use Rattle.lock_free_sets.specs.Unique.Handles.{set_in, pass_in, knows, SameHandle};
ghost use Rattle.model.specs.declared.turn.Kind.TheVariants as kinds;
ghost use Rattle.model.specs.Coding.{one_word};
ghost use Rattle.history.specs.Steps.{TakesAtMost, TakesAlone};

use super::Handle;
use crate::mpmc::unique_index_set::{Pass, UniqueIndex, UniqueIndexSet};
use std::sync::Wait;
use steps::indices::enums::UniqueIndexSetAcquireFailure;

impl UniqueIndexSet {
    /// Makes a handle of this set and a pass of it. No atomic step. This project's own.
    pub fn handle(&self, pass: Pass) -> Handle<'_>
        requires { IsPassOf self.now pass }
        ensures set { set_in result ≡ self.now }
        ensures pass { pass_in result ≡ pass }
    {
        Handle { set: self, pass }
    }
}

impl<'a> Handle<'a> {
    /// Returns the pass. No atomic step.
    pub fn into_pass(self) -> Pass
        ensures { result ≡ pass_in self.entry }
    {
        let Handle { set: _, pass } = self;
        pass
    }

    /// What the handle's pass has seen is a history, as `history` of the pass says. It does nothing.
    pub fn history(&self)
        ensures run { Knows one_word kinds.Indices (set_of (pass_in self.now)).capacity (knows self.now) }
        ensures history { HasHistory (pass_in self.now) }
    {
        self.pass.history();
    }

    /// Makes a further handle of the set, with a pass that it gets by `Pass::split`.
    pub fn split(&mut self) -> Option<Handle<'a>>
        ensures set { set_in self.new ≡ set_in self.old }
        ensures new { IfSome result (λ h. set_in h ≡ set_in self.old) }
        ensures cut { IfSome result (λ h. HasSplit (knows self.old) (knows self.new) (knows h)) }
        ensures none { IfNone result (knows self.new ≡ knows self.old) }
        ensures steps { TakesAtMost 1 (knows self.old) (knows self.new) }
    {
        let pass = self.pass.split()?;
        Some(Handle {
            set: self.set,
            pass,
        })
    }

    /// Calls `UniqueIndexSet::capacity`.
    pub fn capacity(&self) -> u32
        ensures { result ≡ capacity_of (set_in self.now) }
    {
        self.set.capacity()
    }

    /// Calls `UniqueIndexSet::acquire`, and returns the index, which owns the pass, or the failure with the handle.
    /// `give_back` of the index gives the handle again.
    pub fn acquire(
        self,
        rt: &impl Wait,
    ) -> Result<UniqueIndex<'a>, (UniqueIndexSetAcquireFailure, Handle<'a>)>
        ensures same { IfOk result (λ i. SamePass (pass_in self.entry) (index_pass i)) }
        ensures acquired { IfOk result (λ i. HasAcquired (value_of i) (knows self.entry) (index_view i)) }
        ensures refused_same { IfErr result (λ r. SamePass (pass_in self.entry) (pass_in r.1)) }
        ensures refused { IfErr result (λ r. WasRefused r.0 (knows self.entry) (knows r.1)) }
        ensures steps { IfOk result (λ i. TakesAlone (4 + capacity_of (set_in self.entry)) (max 2 (capacity_of (set_in self.entry)))
            (knows self.entry) (index_view i)) }
        ensures refused_steps { IfErr result (λ r. TakesAlone (4 + capacity_of (set_in self.entry)) (max 2 (capacity_of (set_in self.entry)))
            (knows self.entry) (knows r.1)) }
    {
        let Handle { set, pass } = self;
        match set.acquire(rt, pass) {
            Ok(index) => Ok(index),
            Err((failure, pass)) => Err((failure, set.handle(pass))),
        }
    }

    /// Calls `UniqueIndexSet::borrowed_indices`, with its pass.
    pub fn borrowed_indices(&mut self) -> usize
        ensures same { SameHandle self.old self.new }
        ensures counted { BorrowedDone (capacity_of (set_in self.old)) result (knows self.old) (knows self.new) }
        ensures steps { TakesAtMost 1 (knows self.old) (knows self.new) }
    {
        self.set.borrowed_indices(&mut self.pass)
    }

    /// Calls `UniqueIndexSet::is_locked`, with its pass.
    pub fn is_locked(&mut self) -> bool
        ensures same { SameHandle self.old self.new }
        ensures looked { IsLockedDone result (knows self.old) (knows self.new) }
        ensures steps { TakesAtMost 1 (knows self.old) (knows self.new) }
    {
        self.set.is_locked(&mut self.pass)
    }
}
