//! How an index is acquired for an owner, and given back.
ghost use Rattle.std.specs.Prelude.{◌≡◌, ◌+◌, ◌<◌, true, IfOk, IfErr, IsErrAnd};
ghost use Rattle.steps.specs.declared.indices.enums.UniqueIndexSetAcquireFailure.TheVariants.{IsLocked as Locked};
ghost use Rattle.model.specs.Coding.{one_word};
ghost use Rattle.model.specs.Families.Indices.Reading.{is_locked};
ghost use Rattle.model.specs.declared.turn.Kind.TheVariants as kinds;
ghost use Rattle.history.specs.History.{Knows};
ghost use Rattle.history.specs.Steps.{TakesAlone};
ghost use Rattle.lock_free_owners.specs.Robust.Calls.{ReleaseDone, ReleaseRefused};
ghost use Rattle.lock_free_owners.specs.Robust.Steps.{ReleaseTakes};
ghost use Rattle.lock_free_owners.specs.RobustUniqueIndexSet.{capacity_of, history, made, set_id, view, HasHistory, IsPassOf, SamePass};
ghost use Rattle.lock_free_guards.specs.Acquired.{HasAcquired, HasFailed};
ghost use Rattle.lock_free_guards.specs.Guards.{index_pass, index_set, index_view, owner_of, value_of};
ghost use Rattle.lock_free_guards.specs.Held.{HoldsFor};

use super::RobustIndex;
use lock_free_owners::mpmc::robust_unique_index_set::{
    OwnerId, Pass, RobustUniqueIndexSet, RobustUniqueIndexSetReleaseError,
};
use std::sync::Wait;
use steps::indices::enums::{ReleaseMode, ReleaseState, UniqueIndexSetAcquireFailure};

impl<'a, R: Wait> RobustIndex<'a, R> {
    /// Takes the lowest index that it finds without an owner for `owner`. The answer owns the pass. Else the pass comes
    /// back with the refusal:
    ///
    /// - `OutOfIndices` if each index had an owner at some moment, or the generation counter is at its end.
    /// - `IsLocked` if the set is locked. If it meets the lock after it has given an index its owner, the index keeps
    ///   him.
    ///
    /// Alone at most capacity + 3 atomic steps.
    pub fn acquire(
        rt: &'a R,
        set: &'a RobustUniqueIndexSet,
        mut pass: Pass,
        owner: OwnerId,
    ) -> Result<RobustIndex<'a, R>, (UniqueIndexSetAcquireFailure, Pass)>
        requires { IsPassOf set.now pass }
        ensures set { IfOk result (λ i. index_set i ≡ set_id set.now) }
        ensures owner { IfOk result (λ i. owner_of i ≡ owner) }
        ensures same { IfOk result (λ i. SamePass pass (index_pass i)) }
        ensures acquired { IfOk result (λ i. HasAcquired owner (value_of i) (view pass) (index_view i)) }
        ensures failed_same { IfErr result (λ r. SamePass pass r.1) }
        ensures failed { IfErr result (λ r. HasFailed owner r.0 (view pass) (view r.1)) }
        ensures lock { is_locked (history pass) ≡ true → IsErrAnd result (λ r. r.0 ≡ Locked) }
        ensures steps { IfOk result (λ i. TakesAlone (capacity_of set.now + 3) (capacity_of set.now + 1)
            (view pass) (index_view i)) }
        ensures failed_steps { IfErr result (λ r. TakesAlone (capacity_of set.now + 3) (capacity_of set.now + 1)
            (view pass) (view r.1)) }
    {
        match set.acquire(rt, owner, &mut pass) {
            Ok(index) => Ok(RobustIndex {
                set,
                rt,
                pass,
                owner,
                index,
            }),
            Err(failure) => Err((failure, pass)),
        }
    }

    /// Returns the index, which is below the capacity. No atomic step.
    pub fn value(&self) -> usize
        ensures value { result ≡ value_of self.now }
        ensures below { result < (index_set self.now).capacity }
    {
        self.index
    }

    /// Returns the owner for whom it is held. No atomic step.
    pub fn owner(&self) -> OwnerId
        ensures { result ≡ owner_of self.now }
    {
        self.owner
    }

    /// What its pass has made holds the index for its owner, and what it has seen is a history. It does nothing.
    pub fn history(&self)
        ensures run { Knows one_word kinds.Robust (index_set self.now).capacity (index_view self.now) }
        ensures history { HasHistory (index_pass self.now) }
        ensures held { HoldsFor (owner_of self.now) (value_of self.now) (made (index_pass self.now)) }
    {
        self.pass.history();
    }

    /// Gives the index back for its owner, and returns the answer with the pass. It is `Locked` only in mode
    /// `LockIfLastIndex`, if the set is locked, by this call or an earlier one. That mode locks the set if no index has
    /// an owner by then, unless the generation counter is at its end.
    ///
    /// `IndexIsNotOwnedByProvidedOwner`, without a change, if a recovery has freed the index.
    ///
    /// Alone at most 3 atomic steps, in mode `LockIfLastIndex` capacity + 6.
    pub fn release(
        self,
        mode: ReleaseMode,
    ) -> (Result<ReleaseState, RobustUniqueIndexSetReleaseError>, Pass)
        ensures same { SamePass (index_pass self.entry) result.1 }
        ensures released { IfOk result.0 (λ state. ReleaseDone (value_of self.entry) (owner_of self.entry) mode state
            (index_view self.entry) (view result.1)) }
        ensures refused { IfErr result.0 (λ failure. ReleaseRefused (value_of self.entry) (owner_of self.entry) mode failure
            (index_view self.entry) (view result.1)) }
        ensures steps { ReleaseTakes (index_set self.entry).capacity mode (index_view self.entry) (view result.1) }
    {
        let RobustIndex {
            set,
            rt,
            mut pass,
            owner,
            index,
        } = self;
        let answer = set.release(rt, index, owner, mode, &mut pass);
        (answer, pass)
    }
}
