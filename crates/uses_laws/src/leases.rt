//! A pool of indices that can be told to be full. An acquire answers `OutOfIndices` also where the
//! set's counter is at its end, so by itself the answer tells nothing of the indices. In a history of
//! few changes it says that the pool was full, and a pass with the whole share counts the changes by
//! the events that it made.
ghost use Rattle.std.specs.Prelude.{◌≡◌, ℕ, Err, None, Ok};
ghost use Rattle.steps.specs.declared.indices.enums.UniqueIndexSetAcquireFailure.TheVariants.{OutOfIndices};
ghost use Rattle.model.specs.Families.Indices.Robust.Reading.{holder_of};
ghost use Rattle.lock_free.specs.Event.TheVariants.{Granted};
ghost use Rattle.lock_free.specs.RobustUniqueIndexSet.{history, made, set_of, share, view, IsPassOf};
ghost use Rattle.lock_free.specs.Shares.{IsAll};
ghost use Rattle.lock_free.specs.GrantLaws.{times_freed};
ghost use Rattle.uses_laws.specs.Events.{Whenever};
ghost use Rattle.uses_laws.specs.Leases.{IsYoung, WasFull};

use lock_free::laws::owners;
use lock_free::mpmc::robust_unique_index_set::{OwnerId, Pass, RobustUniqueIndexSet};
use lock_free::mpmc::unique_index_set_enums::UniqueIndexSetAcquireFailure;
use std::sync::Wait;

/// Leases an index to the owner. Where there is none in a pool of which this pass has the whole history, and in which
/// it has made few changes, each index had an owner at a moment of the call.
pub fn lease(
    rt: &impl Wait,
    pool: &RobustUniqueIndexSet,
    owner: OwnerId,
    pass: &mut Pass,
) -> Result<usize, UniqueIndexSetAcquireFailure>
    requires pass { IsPassOf pool.now pass.old }
    requires whole { IsAll (share pass.old) }
    requires young { IsYoung (made pass.old) }
    ensures set { set_of pass.new ≡ set_of pass.old }
    ensures full { result ≡ Err OutOfIndices → WasFull (view pass.old).capacity (history pass.new) }
{
    owners::calls_that_lock_are_apart::<u64>();
    pool.acquire(rt, owner, pass)
}

/// Leases an index to the owner. If nobody has given it back before, and no recovery has freed it, it was
/// granted only where nobody held it, whatever became of other indices and of their owners. A pass with the
/// whole share counts both by the events that it made.
pub fn lease_apart(
    rt: &impl Wait,
    pool: &RobustUniqueIndexSet,
    owner: OwnerId,
    pass: &mut Pass,
) -> Result<usize, UniqueIndexSetAcquireFailure>
    requires pass { IsPassOf pool.now pass.old }
    requires whole { IsAll (share pass.old) }
    ensures { (index : ℕ) → result ≡ Ok index → times_freed index (made pass.old) ≡ 0
        → (by other : ℕ) → Whenever (history pass.new) (Granted by index other) (λ before. holder_of index before ≡ None) }
{
    owners::set_indices_are_held_by_one();
    owners::indices_never_freed_are_freed_right::<u64>();
    let leased = pool.acquire(rt, owner, pass);
    pass.history();
    leased
}
