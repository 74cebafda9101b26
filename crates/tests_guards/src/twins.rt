//! Calls of `lock_free_guards`, each with those of its clauses that no test uses, so that no clause can go
//! out of a call unnoticed. What a wrong body would leave, and a clause refuses, stands in
//! `proofs/WrongBodies.antt` of that crate.
ghost use Rattle.std.specs.Prelude.{◌≡◌, ◌≢◌, ◌<◌, ◌+◌, ℕ, true, false, IfOk, IfErr, IfSome, OnOk, IsErrAnd};
ghost use Rattle.steps.specs.declared.indices.enums.UniqueIndexSetAcquireFailure.TheVariants.{IsLocked as Locked, OutOfIndices as Out};
ghost use Rattle.model.specs.declared.event.Start.TheVariants.{Indices, Robust};
ghost use Rattle.model.specs.declared.families.indices.IndexStart.TheVariants as indices;
ghost use Rattle.model.specs.declared.families.indices.robust.RobustStart.TheVariants as robust;
ghost use Rattle.model.specs.declared.turn.Kind.TheVariants as kinds;
ghost use Rattle.model.specs.Coding.{one_word};
ghost use Rattle.model.specs.Families.Indices.Reading.{is_locked};
ghost use Rattle.history.specs.History.{Knows};
ghost use Rattle.history.specs.Passes.{HasSplit};
ghost use Rattle.history.specs.Steps.{TakesAlone};
ghost use Rattle.lock_free_owners.specs.Robust.Contracts.{FoundState, HasGiven, HasReleased, IsRightRelease, WasFreed};
ghost use Rattle.lock_free_owners.specs.Robust.Steps.{RecoverTakes, ReleaseTakes};
ghost use Rattle.lock_free_owners.specs.RobustUniqueIndexSet.{capacity_of, history, made, set_id, set_of, view, IsPassOf, SamePass};
ghost use Rattle.lock_free_sets.specs.UniqueIndexSet as unique;
ghost use Rattle.lock_free_sets.specs.Unique.Contracts as uniques;
ghost use Rattle.lock_free_sets.specs.Unique.Handles.{set_in, knows};
ghost use Rattle.lock_free_guards.specs.Acquired.{HasAcquired, HasFailed};
ghost use Rattle.lock_free_guards.specs.Guards.{index_pass, index_set, index_view, owner_of, value_of};
ghost use Rattle.lock_free_guards.specs.Held.{number_freed, HoldsFor};
ghost use Rattle.lock_free_guards.specs.Cuts.{AreCut};
ghost use Rattle.lock_free_guards.specs.Recovered.{HasRecoveredOwner, IsRightOwnerRecovery};
ghost use Rattle.lock_free_guards.specs.Tries.{EndsSometime, EndsWithin, EndsAtLimit};
ghost use Rattle.lock_free_guards.specs.Unique.{HoldsMore, HoldsTheSame};

use lock_free_guards::owner_recovery::{OwnerRecovery, recover_owner};
use lock_free_guards::robust_index::RobustIndex;
use lock_free_guards::{splits, unique_index};
use lock_free_owners::mpmc::robust_unique_index_set::{
    OwnerId, Pass, RobustUniqueIndexSet, RobustUniqueIndexSetReleaseError,
};
use lock_free_sets::mpmc::unique_index_set;
use lock_free_sets::mpmc::unique_index_set::{Handle, UniqueIndex, UniqueIndexSet};
use std::alloc::Global;
use std::sync::Wait;
use steps::indices::enums::{ReleaseMode, ReleaseState, UniqueIndexSetAcquireFailure};

pub mod cuts;

/// An acquire answers a guard of this set, for this owner, which owns the pass; otherwise the pass
/// comes back with the failure. At a locked set it fails by the lock. In both cases the steps are those
/// of `acquire` of the set.
pub fn acquire<'a, R: Wait>(
    rt: &'a R,
    set: &'a RobustUniqueIndexSet,
    pass: Pass,
    owner: OwnerId,
) -> Result<RobustIndex<'a, R>, (UniqueIndexSetAcquireFailure, Pass)>
    requires { IsPassOf set.now pass }
    ensures set { IfOk result (λ i. index_set i ≡ set_id set.now) }
    ensures owner { IfOk result (λ i. owner_of i ≡ owner) }
    ensures same { IfOk result (λ i. SamePass pass (index_pass i)) }
    ensures failed_same { IfErr result (λ r. SamePass pass r.1) }
    ensures failed { IfErr result (λ r. HasFailed owner r.0 (view pass) (view r.1)) }
    ensures lock { is_locked (history pass) ≡ true → IsErrAnd result (λ r. r.0 ≡ Locked) }
    ensures steps { IfOk result (λ i. TakesAlone (capacity_of set.now + 3) (capacity_of set.now + 1)
        (view pass) (index_view i)) }
    ensures failed_steps { IfErr result (λ r. TakesAlone (capacity_of set.now + 3) (capacity_of set.now + 1)
        (view pass) (view r.1)) }
{
    RobustIndex::acquire(rt, set, pass, owner)
}

/// The index of a guard is the one that its value says, and is below the capacity of its set.
pub fn value<R: Wait>(index: &RobustIndex<'_, R>) -> usize
    ensures value { result ≡ value_of index.now }
    ensures below { result < (index_set index.now).capacity }
{
    index.value()
}

/// The owner that a guard tells is the one that it was made for.
pub fn owner<R: Wait>(index: &RobustIndex<'_, R>) -> OwnerId
    ensures { result ≡ owner_of index.now }
{
    index.owner()
}

/// The index of a guard is held for its owner, and the guard's pass knows a run of the set.
pub fn tell_history<R: Wait>(index: &RobustIndex<'_, R>)
    ensures run { Knows one_word kinds.Robust (index_set index.now).capacity (index_view index.now) }
    ensures held { HoldsFor (owner_of index.now) (value_of index.now) (made (index_pass index.now)) }
{
    index.history();
}

/// What a guard gives back is its own index, for its owner. The answer, the lock and the steps are those of
/// `release` of the set.
pub fn release<R: Wait>(
    index: RobustIndex<'_, R>,
    mode: ReleaseMode,
) -> (Result<ReleaseState, RobustUniqueIndexSetReleaseError>, Pass)
    ensures same { SamePass (index_pass index.entry) result.1 }
    ensures given { HasGiven (record { index = value_of index.entry; owner = owner_of index.entry; mode = mode }) result.0
        (index_view index.entry) (view result.1) }
    ensures freed { OnOk result.0 (WasFreed (value_of index.entry) (owner_of index.entry)
        (index_view index.entry) (view result.1)) }
    ensures answered { IsRightRelease (value_of index.entry) (owner_of index.entry) mode result.0
        (index_view index.entry) (view result.1) }
    ensures released { IfOk result.0 (λ s. HasReleased s mode (index_view index.entry) (view result.1)) }
    ensures steps { ReleaseTakes (index_set index.entry).capacity mode (index_view index.entry) (view result.1) }
{
    index.release(mode)
}

/// A wait ends with a guard of this set and owner, at the end of an acquire that succeeded, or at
/// a lock with the pass.
pub fn acquire_waiting<'a, R: Wait>(
    rt: &'a R,
    set: &'a RobustUniqueIndexSet,
    pass: Pass,
    owner: OwnerId,
) -> Result<RobustIndex<'a, R>, Pass>
    requires { IsPassOf set.now pass }
    ensures set { IfOk result (λ i. index_set i ≡ set_id set.now) }
    ensures owner { IfOk result (λ i. owner_of i ≡ owner) }
    ensures acquired { IfOk result (λ i. EndsSometime (Robust (robust.Acquire owner)) (HasAcquired owner (value_of i))
        (view pass) (index_view i)) }
    ensures locked_set { IfErr result (λ p. set_of p ≡ set_of pass) }
    ensures locked { IfErr result (λ p. EndsSometime (Robust (robust.Acquire owner)) (HasFailed owner Locked)
        (view pass) (view p)) }
    ensures lock { IfErr result (λ p. is_locked (history p) ≡ true) }
{
    RobustIndex::acquire_waiting(rt, set, pass, owner)
}

/// Tries end with a guard of this set and owner, at a lock, or after `tries` tries that found each index out.
/// In the last case the set was not locked before.
pub fn acquire_within<'a, R: Wait>(
    rt: &'a R,
    tries: u64,
    set: &'a RobustUniqueIndexSet,
    pass: Pass,
    owner: OwnerId,
) -> Result<RobustIndex<'a, R>, (UniqueIndexSetAcquireFailure, Pass)>
    requires { IsPassOf set.now pass }
    ensures set { IfOk result (λ i. index_set i ≡ set_id set.now) }
    ensures owner { IfOk result (λ i. owner_of i ≡ owner) }
    ensures acquired { IfOk result (λ i. EndsWithin (Robust (robust.Acquire owner)) (HasAcquired owner (value_of i)) tries
        (view pass) (index_view i)) }
    ensures failed_set { IfErr result (λ r. set_of r.1 ≡ set_of pass) }
    ensures locked { IfErr result (λ r. r.0 ≡ Locked → EndsWithin (Robust (robust.Acquire owner)) (HasFailed owner Locked) tries
        (view pass) (view r.1)) }
    ensures lock { IfErr result (λ r. r.0 ≡ Locked → is_locked (history r.1) ≡ true) }
    ensures limit { IfErr result (λ r. r.0 ≡ Out → EndsAtLimit (Robust (robust.Acquire owner)) (HasFailed owner Out) tries
        (view pass) (view r.1)) }
    ensures unlocked { IfErr result (λ r. r.0 ≡ Out → is_locked (history pass) ≡ false) }
{
    RobustIndex::acquire_within(rt, tries, set, pass, owner)
}

/// A recovery of one owner counts what it freed of that owner, and frees no index of another one. Its answer,
/// the lock and its steps are right.
pub fn recover(
    rt: &impl Wait,
    set: &RobustUniqueIndexSet,
    pass: &mut Pass,
    owner: OwnerId,
    mode: ReleaseMode,
) -> OwnerRecovery
    requires { IsPassOf set.now pass.old }
    ensures recovered { HasRecoveredOwner owner mode result.state (view pass.old) (view pass.new) }
    ensures counted { number_freed owner (made pass.new) ≡ number_freed owner (made pass.old) + result.freed }
    ensures others { (o : ℕ) → o ≢ owner → number_freed o (made pass.new) ≡ number_freed o (made pass.old) }
    ensures answered { IsRightOwnerRecovery owner mode result.state (view pass.old) (view pass.new) }
    ensures lock { FoundState result.state (view pass.old) (view pass.new) }
    ensures steps { RecoverTakes (capacity_of set.now) mode (view pass.old) (view pass.new) }
{
    recover_owner(rt, set, pass, owner, mode)
}

/// A wait at a unique index set ends with an index of this set, which the pass then holds besides, or at a
/// lock with the pass.
pub fn acquire_unique_waiting<'a>(
    rt: &impl Wait,
    set: &'a UniqueIndexSet,
    pass: unique_index_set::Pass,
) -> Result<UniqueIndex<'a>, unique_index_set::Pass>
    requires { unique.IsPassOf set.now pass }
    ensures set { IfOk result (λ i. unique.index_set i ≡ unique.set_id set.now) }
    ensures acquired { IfOk result (λ i. EndsSometime (Indices indices.Acquire) (uniques.HasAcquired (unique.value_of i))
        (unique.view pass) (unique.index_view i)) }
    ensures held { IfOk result (λ i. HoldsMore (unique.value_of i) (unique.made pass) (unique.made (unique.index_pass i))) }
    ensures locked_set { IfErr result (λ p. unique.set_of p ≡ unique.set_of pass) }
    ensures locked { IfErr result (λ p. EndsSometime (Indices indices.Acquire) (uniques.WasRefused Locked)
        (unique.view pass) (unique.view p)) }
    ensures lock { IfErr result (λ p. is_locked (unique.history p) ≡ true) }
{
    unique_index::acquire_waiting(rt, set, pass)
}

/// Tries at a unique index set end with an index of this set, at a lock, or after `tries` tries that found
/// each index out. In the last case the pass holds what it held.
pub fn acquire_unique_within<'a>(
    rt: &impl Wait,
    tries: u64,
    set: &'a UniqueIndexSet,
    pass: unique_index_set::Pass,
) -> Result<UniqueIndex<'a>, (UniqueIndexSetAcquireFailure, unique_index_set::Pass)>
    requires { unique.IsPassOf set.now pass }
    ensures set { IfOk result (λ i. unique.index_set i ≡ unique.set_id set.now) }
    ensures acquired { IfOk result (λ i. EndsWithin (Indices indices.Acquire) (uniques.HasAcquired (unique.value_of i)) tries
        (unique.view pass) (unique.index_view i)) }
    ensures held { IfOk result (λ i. HoldsMore (unique.value_of i) (unique.made pass) (unique.made (unique.index_pass i))) }
    ensures failed_set { IfErr result (λ r. unique.set_of r.1 ≡ unique.set_of pass) }
    ensures locked { IfErr result (λ r. r.0 ≡ Locked → EndsWithin (Indices indices.Acquire) (uniques.WasRefused Locked) tries
        (unique.view pass) (unique.view r.1)) }
    ensures lock { IfErr result (λ r. r.0 ≡ Locked → is_locked (unique.history r.1) ≡ true) }
    ensures limit { IfErr result (λ r. r.0 ≡ Out → EndsAtLimit (Indices indices.Acquire) (uniques.WasRefused Out) tries
        (unique.view pass) (unique.view r.1)) }
    ensures unlocked { IfErr result (λ r. r.0 ≡ Out → is_locked (unique.history pass) ≡ false) }
    ensures kept { IfErr result (λ r. r.0 ≡ Out → HoldsTheSame (unique.made pass) (unique.made r.1)) }
{
    unique_index::acquire_within(rt, tries, set, pass)
}

/// Each of the three handles that are split off is of the same set, and was split off what the split before
/// had left (`AreCut`).
pub fn split_many<'a>(alloc: Global, handle: &mut Handle<'a>) -> Option<[Handle<'a>; 3]>
    ensures { IfSome result (λ halves. AreCut (λ old new half. (set_in new ≡ set_in old) × (set_in half ≡ set_in old)
        × HasSplit (knows old) (knows new) (knows half)) halves handle.old handle.new) }
{
    splits::split_many::<3, Handle<'a>>(alloc, handle)
}
