//! A user of a robust set, who splits a pass off for each guard that is taken.
ghost use Rattle.lock_free_owners.specs.RobustUniqueIndexSet.{IsPassOf};

use lock_free_guards::owner_recovery::{OwnerRecovery, recover_owner};
use lock_free_guards::robust_index::RobustIndex;
use lock_free_owners::mpmc::robust_unique_index_set::{OwnerId, Pass, RobustUniqueIndexSet};
use std::sync::Wait;
use steps::indices::enums::{ReleaseMode, UniqueIndexSetAcquireFailure};

/// A user of a robust set, by a pass of it.
pub struct User<'a> {
    set: &'a RobustUniqueIndexSet,
    pass: Pass,
    ghost of: { IsPassOf set.now pass },
}

impl<'a> Drop for User<'a> {
    fn drop(self) {
        let Self {
            set: _,
            pass: _pass,
        } = self;
    }
}

impl<'a> User<'a> {
    /// The user of this set by this pass.
    pub fn new(set: &'a RobustUniqueIndexSet, pass: Pass) -> User<'a>
        requires { IsPassOf set.now pass }
    {
        User { set, pass }
    }

    /// Another user of the same set. None where no further pass can be counted.
    pub fn another(&mut self) -> Option<User<'a>> {
        let pass = self.pass.split()?;
        Some(User {
            set: self.set,
            pass,
        })
    }

    /// Takes an index for the owner, with a guard. None where the index or a further pass is refused.
    pub fn take<R: Wait>(&mut self, rt: &'a R, owner: OwnerId) -> Option<RobustIndex<'a, R>> {
        let pass = self.pass.split()?;
        RobustIndex::acquire(rt, self.set, pass, owner).ok()
    }

    /// The reason why no index is to be had for the owner. None where one is, which is given back at once, or
    /// where no further pass can be counted.
    pub fn refusal<R: Wait>(
        &mut self,
        rt: &'a R,
        owner: OwnerId,
    ) -> Option<UniqueIndexSetAcquireFailure> {
        let pass = self.pass.split()?;
        match RobustIndex::acquire(rt, self.set, pass, owner) {
            Ok(_) => None,
            Err((failure, _)) => Some(failure),
        }
    }

    /// Takes an index for the owner without a guard, as if the owner died with it: nothing gives it back.
    pub fn take_and_die(&mut self, rt: &impl Wait, owner: OwnerId) -> bool {
        self.set.acquire(rt, owner, &mut self.pass).is_ok()
    }

    /// Takes an index by at most `tries` tries, drops its guard, and returns its number. The error says why
    /// there was none.
    pub fn take_within<R: Wait>(
        &mut self,
        rt: &'a R,
        tries: u64,
        owner: OwnerId,
    ) -> Result<usize, UniqueIndexSetAcquireFailure> {
        let Some(pass) = self.pass.split() else {
            return Err(UniqueIndexSetAcquireFailure::OutOfIndices);
        };
        match RobustIndex::acquire_within(rt, tries, self.set, pass, owner) {
            Ok(index) => Ok(index.value()),
            Err((failure, _)) => Err(failure),
        }
    }

    /// Waits for an index, drops its guard, and returns its number. None where the set is locked.
    /// The user is used up.
    pub fn take_waiting<R: Wait>(self, rt: &'a R, owner: OwnerId) -> Option<usize> {
        let User { set, pass } = self;
        match RobustIndex::acquire_waiting(rt, set, pass, owner) {
            Ok(index) => Some(index.value()),
            Err(_) => None,
        }
    }

    /// Recovers the owner, and says how many of its indices were freed and whether the set is locked.
    pub fn recover(&mut self, rt: &impl Wait, owner: OwnerId, mode: ReleaseMode) -> OwnerRecovery {
        recover_owner(rt, self.set, &mut self.pass, owner, mode)
    }

    /// How many indices are out.
    pub fn out(&mut self, rt: &impl Wait) -> usize {
        self.set.borrowed_indices(rt, &mut self.pass)
    }
}
