//! The acquires for an owner that try again where no index is free: between two tries others get a turn.
ghost use Rattle.std.specs.Prelude.{◌≡◌, true, false, IfOk, IfErr};
ghost use Rattle.steps.specs.declared.indices.enums.UniqueIndexSetAcquireFailure.TheVariants.{IsLocked as Locked, OutOfIndices as Out};
ghost use Rattle.model.specs.declared.event.Start.TheVariants.{Robust};
ghost use Rattle.model.specs.declared.families.indices.robust.RobustStart.TheVariants.{Acquire};
ghost use Rattle.model.specs.Families.Indices.Reading.{is_locked};
ghost use Rattle.lock_free_owners.specs.RobustUniqueIndexSet.{history, set_id, set_of, view, IsPassOf};
ghost use Rattle.lock_free_guards.specs.Acquired.{HasAcquired, HasFailed};
ghost use Rattle.lock_free_guards.specs.Guards.{index_set, index_view, owner_of, value_of};
ghost use Rattle.lock_free_guards.specs.Tries.{EndsSometime, EndsWithin, EndsAtLimit};

use super::RobustIndex;
use lock_free_owners::mpmc::robust_unique_index_set::{OwnerId, Pass, RobustUniqueIndexSet};
use std::sync::Wait;
use std::thread;
use steps::indices::enums::UniqueIndexSetAcquireFailure;

impl<'a, R: Wait> RobustIndex<'a, R> {
    /// Takes an index for `owner` as soon as it finds one free. The pass comes back alone only where a try
    /// saw the set locked. Where none is free, none is given back and nobody locks the set, it waits for
    /// good. It also waits for good where the generation counter is at its end.
    ///
    /// For each try, the atomic steps of `acquire` (by no clause).
    pub fn acquire_waiting(
        rt: &'a R,
        set: &'a RobustUniqueIndexSet,
        mut pass: Pass,
        owner: OwnerId,
    ) -> Result<RobustIndex<'a, R>, Pass>
        requires { IsPassOf set.now pass }
        ensures set { IfOk result (λ i. index_set i ≡ set_id set.now) }
        ensures owner { IfOk result (λ i. owner_of i ≡ owner) }
        ensures acquired { IfOk result (λ i. EndsSometime (Robust (Acquire owner)) (HasAcquired owner (value_of i))
            (view pass) (index_view i)) }
        ensures locked_set { IfErr result (λ p. set_of p ≡ set_of pass) }
        ensures locked { IfErr result (λ p. EndsSometime (Robust (Acquire owner)) (HasFailed owner Locked)
            (view pass) (view p)) }
        ensures lock { IfErr result (λ p. is_locked (history p) ≡ true) }
    {
        for _ in rt.forever() {
            match RobustIndex::acquire(rt, set, pass, owner) {
                Ok(index) => return Ok(index),
                Err((failure, back)) => match failure {
                    UniqueIndexSetAcquireFailure::IsLocked => return Err(back),
                    UniqueIndexSetAcquireFailure::OutOfIndices => {
                        pass = back;
                        thread::yield_now();
                    }
                },
            }
        }
        unreachable!()
    }

    /// Takes an index for `owner` by at most `tries` tries, and by one if `tries` is 0. Else the pass comes
    /// back with what the last try found: `OutOfIndices` where each try found none left, or `IsLocked` where
    /// the last one saw the set locked.
    ///
    /// For each try, the atomic steps of `acquire` (by no clause).
    pub fn acquire_within(
        rt: &'a R,
        tries: u64,
        set: &'a RobustUniqueIndexSet,
        mut pass: Pass,
        owner: OwnerId,
    ) -> Result<RobustIndex<'a, R>, (UniqueIndexSetAcquireFailure, Pass)>
        requires { IsPassOf set.now pass }
        ensures set { IfOk result (λ i. index_set i ≡ set_id set.now) }
        ensures owner { IfOk result (λ i. owner_of i ≡ owner) }
        ensures acquired { IfOk result (λ i. EndsWithin (Robust (Acquire owner)) (HasAcquired owner (value_of i)) tries
            (view pass) (index_view i)) }
        ensures failed_set { IfErr result (λ r. set_of r.1 ≡ set_of pass) }
        ensures locked { IfErr result (λ r. r.0 ≡ Locked → EndsWithin (Robust (Acquire owner)) (HasFailed owner Locked) tries
            (view pass) (view r.1)) }
        ensures lock { IfErr result (λ r. r.0 ≡ Locked → is_locked (history r.1) ≡ true) }
        ensures limit { IfErr result (λ r. r.0 ≡ Out → EndsAtLimit (Robust (Acquire owner)) (HasFailed owner Out) tries
            (view pass) (view r.1)) }
        ensures unlocked { IfErr result (λ r. r.0 ≡ Out → is_locked (history pass) ≡ false) }
    {
        // The last try is made behind the loop, so that there is one try even if `tries` is 0.
        for _ in 0..tries.saturating_sub(1) {
            match RobustIndex::acquire(rt, set, pass, owner) {
                Ok(index) => return Ok(index),
                Err((failure, back)) => match failure {
                    UniqueIndexSetAcquireFailure::IsLocked => return Err((failure, back)),
                    UniqueIndexSetAcquireFailure::OutOfIndices => {
                        pass = back;
                        thread::yield_now();
                    }
                },
            }
        }
        RobustIndex::acquire(rt, set, pass, owner)
    }
}
