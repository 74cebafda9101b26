//! The recovery of the indices of one owner.
ghost use Rattle.std.specs.Prelude.{◌≡◌, ◌≢◌, ◌+◌, ℕ};
ghost use Rattle.lock_free_owners.specs.Robust.Contracts.{FoundState};
ghost use Rattle.lock_free_owners.specs.Robust.Steps.{RecoverTakes};
ghost use Rattle.lock_free_owners.specs.RobustUniqueIndexSet.{capacity_of, made, view, IsPassOf, SamePass};
ghost use Rattle.lock_free_guards.specs.Held.{number_freed};
ghost use Rattle.lock_free_guards.specs.Recovered.{HasRecoveredOwner, IsRightOwnerRecovery};

use lock_free_owners::mpmc::robust_unique_index_set::{OwnerId, Pass, RobustUniqueIndexSet};
use std::sync::Wait;
use steps::indices::enums::{ReleaseMode, ReleaseState};

/// What the recovery of one owner has done.
#[derive(Debug, Clone, Copy, PartialEq, Eq)]
pub struct OwnerRecovery {
    /// How many indices of the owner the recovery freed.
    pub freed: usize,
    /// `Locked` if the set is locked.
    pub state: ReleaseState,
}

/// Frees the indices of an owner, who has to be dead, and counts them. In mode `LockIfLastIndex` it locks the set if no
/// index has an owner after one was freed.
///
/// `Locked` if the set is locked. Else `Unlocked`: where nobody acts for the owner, none of the indices that were his
/// through the call is left to him. Alone at most 2 + 4·capacity steps, in mode `LockIfLastIndex` 2 +
/// capacity·(capacity + 7).
pub fn recover_owner(
    rt: &impl Wait,
    set: &RobustUniqueIndexSet,
    pass: &mut Pass,
    owner: OwnerId,
    mode: ReleaseMode,
) -> OwnerRecovery
    requires { IsPassOf set.now pass.old }
    ensures same { SamePass pass.old pass.new }
    ensures recovered { HasRecoveredOwner owner mode result.state (view pass.old) (view pass.new) }
    ensures counted { number_freed owner (made pass.new) ≡ number_freed owner (made pass.old) + result.freed }
    ensures others { (o : ℕ) → o ≢ owner → number_freed o (made pass.new) ≡ number_freed o (made pass.old) }
    ensures answered { IsRightOwnerRecovery owner mode result.state (view pass.old) (view pass.new) }
    ensures lock { FoundState result.state (view pass.old) (view pass.new) }
    ensures steps { RecoverTakes (capacity_of set.now) mode (view pass.old) (view pass.new) }
{
    // Each index is freed once at most, so the number is at most the capacity.
    let _most = set.capacity();
    let mut freed = 0usize;
    let state = set.recover(
        rt,
        mode,
        &mut |whose, _| whose == owner,
        &mut |_, _| freed += 1,
        pass,
    );
    OwnerRecovery { freed, state }
}
