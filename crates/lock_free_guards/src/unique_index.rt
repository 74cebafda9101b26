//! The acquires of a unique index set that try again where no index is free. Between two tries others get a turn.
ghost use Rattle.std.specs.Prelude.{◌≡◌, true, false, IfOk, IfErr};
ghost use Rattle.steps.specs.declared.indices.enums.UniqueIndexSetAcquireFailure.TheVariants.{IsLocked as Locked, OutOfIndices as Out};
ghost use Rattle.model.specs.declared.event.Start.TheVariants.{Indices};
ghost use Rattle.model.specs.declared.families.indices.IndexStart.TheVariants.{Acquire};
ghost use Rattle.model.specs.Families.Indices.Reading.{is_locked};
ghost use Rattle.lock_free_sets.specs.Unique.Contracts.{HasAcquired, WasRefused};
ghost use Rattle.lock_free_sets.specs.UniqueIndexSet.{history, index_pass, index_set, index_view, made, set_id, set_of, value_of, view, IsPassOf};
ghost use Rattle.lock_free_guards.specs.Tries.{EndsSometime, EndsWithin, EndsAtLimit};
ghost use Rattle.lock_free_guards.specs.Unique.{HoldsMore, HoldsTheSame};

use lock_free_sets::mpmc::unique_index_set::{Pass, UniqueIndex, UniqueIndexSet};
use std::sync::Wait;
use std::thread;
use steps::indices::enums::UniqueIndexSetAcquireFailure;

/// Takes an index as soon as it finds one that nobody holds. The answer owns the pass, which comes back alone only where
/// a try saw the set locked. Where none is free, none is given
/// back and nobody locks the set, it waits for good.
///
/// For each try, the atomic steps of the set's `acquire` (by no clause).
pub fn acquire_waiting<'a>(
    rt: &impl Wait,
    set: &'a UniqueIndexSet,
    mut pass: Pass,
) -> Result<UniqueIndex<'a>, Pass>
    requires { IsPassOf set.now pass }
    ensures set { IfOk result (λ i. index_set i ≡ set_id set.now) }
    ensures acquired { IfOk result (λ i. EndsSometime (Indices Acquire) (HasAcquired (value_of i))
        (view pass) (index_view i)) }
    ensures held { IfOk result (λ i. HoldsMore (value_of i) (made pass) (made (index_pass i))) }
    ensures locked_set { IfErr result (λ p. set_of p ≡ set_of pass) }
    ensures locked { IfErr result (λ p. EndsSometime (Indices Acquire) (WasRefused Locked) (view pass) (view p)) }
    ensures lock { IfErr result (λ p. is_locked (history p) ≡ true) }
{
    for _ in rt.forever() {
        match set.acquire(rt, pass) {
            Ok(index) => return Ok(index),
            Err((failure, back)) => match failure {
                UniqueIndexSetAcquireFailure::IsLocked => return Err(back),
                UniqueIndexSetAcquireFailure::OutOfIndices => {
                    pass = back;
                    thread::yield_now();
                }
            },
        }
    }
    unreachable!()
}

/// Takes an index by at most `tries` tries, and by one if `tries` is 0. The answer owns the pass. Else the
/// pass comes back with what the last try found: `OutOfIndices` where each try found none left, or `IsLocked`
/// where the last one saw the set locked.
///
/// For each try, the atomic steps of the set's `acquire` (by no clause).
pub fn acquire_within<'a>(
    rt: &impl Wait,
    tries: u64,
    set: &'a UniqueIndexSet,
    mut pass: Pass,
) -> Result<UniqueIndex<'a>, (UniqueIndexSetAcquireFailure, Pass)>
    requires { IsPassOf set.now pass }
    ensures set { IfOk result (λ i. index_set i ≡ set_id set.now) }
    ensures acquired { IfOk result (λ i. EndsWithin (Indices Acquire) (HasAcquired (value_of i)) tries
        (view pass) (index_view i)) }
    ensures held { IfOk result (λ i. HoldsMore (value_of i) (made pass) (made (index_pass i))) }
    ensures failed_set { IfErr result (λ r. set_of r.1 ≡ set_of pass) }
    ensures locked { IfErr result (λ r. r.0 ≡ Locked → EndsWithin (Indices Acquire) (WasRefused Locked) tries
        (view pass) (view r.1)) }
    ensures lock { IfErr result (λ r. r.0 ≡ Locked → is_locked (history r.1) ≡ true) }
    ensures limit { IfErr result (λ r. r.0 ≡ Out → EndsAtLimit (Indices Acquire) (WasRefused Out) tries
        (view pass) (view r.1)) }
    ensures unlocked { IfErr result (λ r. r.0 ≡ Out → is_locked (history pass) ≡ false) }
    ensures kept { IfErr result (λ r. r.0 ≡ Out → HoldsTheSame (made pass) (made r.1)) }
{
    // The last try is made behind the loop, so that there is one try even if `tries` is 0.
    for _ in 0..tries.saturating_sub(1) {
        match set.acquire(rt, pass) {
            Ok(index) => return Ok(index),
            Err((failure, back)) => match failure {
                UniqueIndexSetAcquireFailure::IsLocked => return Err((failure, back)),
                UniqueIndexSetAcquireFailure::OutOfIndices => {
                    pass = back;
                    thread::yield_now();
                }
            },
        }
    }
    set.acquire(rt, pass)
}
