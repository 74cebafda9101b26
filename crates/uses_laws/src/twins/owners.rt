//! Calls of a robust index set once more, each with a clause that no other client has a use for (as
//! `twins.rt` says).
ghost use Rattle.std.specs.Prelude.{◌≡◌, ◌+◌, ◌≤◌, true, false};
ghost use Rattle.lock_free.specs.CallbackProgression.TheVariants.{Continue};
ghost use Rattle.lock_free.specs.IndexReading.{is_locked as has_lock};
ghost use Rattle.lock_free.specs.Robust.Callable.{TakesFreed, TakesQuestions};
ghost use Rattle.lock_free.specs.Robust.Contracts.{FoundLock, HasCounted, HasLooked, HasRecovered, HasSearched, IsRightCount, IsRightLook};
ghost use Rattle.lock_free.specs.Robust.Handles.{knows, set_in};
ghost use Rattle.lock_free.specs.RobustUniqueIndexSet.{capacity_of, history, IsPassOf, LeavesPass, view};
ghost use Rattle.threaded.specs.Callable.{TakesPlaces};

use lock_free::mpmc::robust_unique_index_set::{Handle, OwnerId, Pass, RobustUniqueIndexSet};
use std::sync::Wait;
use steps::enums::CallbackProgression;
use steps::indices::enums::{ReleaseMode, ReleaseState};

/// What a look at the lock answers is its answer in the history, and right. It is true if the pass had seen the lock.
pub fn is_locked(handle: &mut Handle<'_>) -> bool
    ensures looked { HasLooked result (knows handle.old) (knows handle.new) }
    ensures answered { IsRightLook result (knows handle.old) (knows handle.new) }
    ensures lock { FoundLock result (knows handle.old) (knows handle.new) }
{
    handle.is_locked()
}

/// A count of the indices is its answer in the history, and right. It is at most the capacity, and 0 if the
/// pass had seen the lock.
pub fn borrowed_indices(handle: &mut Handle<'_>, rt: &impl Wait) -> usize
    ensures counted { HasCounted result (knows handle.old) (knows handle.new) }
    ensures answered { IsRightCount result (knows handle.old) (knows handle.new) }
    ensures most { result ≤ capacity_of (set_in handle.old) }
    ensures lock { has_lock (knows handle.old).seen ≡ true → result ≡ 0 }
{
    handle.borrowed_indices(rt)
}

/// A find calls its closure as the history says. It looks at the lock and at each index, and no more.
pub fn find<F: FnMut(usize) -> CallbackProgression>(
    set: &RobustUniqueIndexSet,
    owner: OwnerId,
    visit: &mut F,
    pass: &mut Pass,
) -> usize
    requires pass { IsPassOf set.now pass.old }
    requires indices { TakesPlaces F.pre (λ p x q. F.step p x Continue q) (capacity_of set.now) visit.old }
    ensures same { LeavesPass (capacity_of set.now + 1) pass.old pass.new }
    ensures found { HasSearched (λ p x a q. F.step p x a q) (capacity_of set.now) owner visit.old result visit.new
        (view pass.old) (view pass.new) }
{
    set.find(owner, visit, pass)
}

/// A recovery calls its closures as the history says.
pub fn recover<F: FnMut(OwnerId, usize) -> bool, S: FnMut(OwnerId, usize)>(
    set: &RobustUniqueIndexSet,
    rt: &impl Wait,
    mode: ReleaseMode,
    predicate: &mut F,
    recover_success: &mut S,
    pass: &mut Pass,
) -> ReleaseState
    requires pass { IsPassOf set.now pass.old }
    requires questions { has_lock (history pass.old) ≡ false → TakesQuestions F.pre
        (λ p o i b q. F.step p o i b q) (capacity_of set.now) predicate.old }
    requires freed { has_lock (history pass.old) ≡ false → TakesFreed
        (λ p o i b q. F.step p o i b q) S.pre (λ s o i t. S.step s o i tt t)
        (capacity_of set.now) predicate.old recover_success.old }
    ensures recovered { HasRecovered (λ p o i b q. F.step p o i b q) (λ s o i t. S.step s o i tt t) mode result
        predicate.old recover_success.old predicate.new recover_success.new (view pass.old) (view pass.new) }
{
    set.recover(rt, mode, predicate, recover_success, pass)
}
