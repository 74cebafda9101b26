//! The calls on a set by a pass that ask nothing of their caller. No contract says that an index taken is the lowest.
ghost use Rattle.std.specs.Prelude.{◌≡◌, ◌+◌, ◌<◌, true, Err, IfOk, IfErr};
ghost use Rattle.steps.specs.declared.indices.enums.UniqueIndexSetAcquireFailure.TheVariants.{IsLocked as Locked};
ghost use Rattle.model.specs.Families.Indices.Reading.{is_locked};
ghost use Rattle.history.specs.Steps.{TakesAtMost, TakesAlone};
ghost use Rattle.lock_free_owners.specs.Robust.Calls.{AcquireDone, AcquireRefused, ReleaseDone, ReleaseRefused, BorrowedDone, IsLockedDone};
ghost use Rattle.lock_free_owners.specs.Robust.Steps.{ReleaseTakes};
ghost use Rattle.lock_free_owners.specs.RobustUniqueIndexSet.{view, history, capacity_of, IsPassOf, SamePass};

use super::acquires::acquire_all;
use super::counts::count_all;
use super::drives::{Gives, LooksLocked};
use super::{OwnerId, Pass, RobustUniqueIndexSet, RobustUniqueIndexSetReleaseError};
use std::sync::Wait;
use steps::indices::enums::{ReleaseMode, ReleaseState, UniqueIndexSetAcquireFailure};
use steps::indices::robust::looks::IsLocked;
use steps::indices::robust::release::{GiveBack, Release};

impl RobustUniqueIndexSet {
    /// Takes the lowest index that it finds without an owner for `owner`, and returns it.
    ///
    /// - `OutOfIndices`, without a change, if each index had an owner at some moment, or the generation counter is at
    ///   its end.
    /// - `IsLocked` if the set is locked. If it meets the lock after it has given the index its owner, the index keeps
    ///   him, so `find` comes to it.
    ///
    /// Alone at most capacity + 3 atomic steps. After `acquire` of the Rust crate.
    pub fn acquire(
        &self,
        rt: &impl Wait,
        owner: OwnerId,
        pass: &mut Pass,
    ) -> Result<usize, UniqueIndexSetAcquireFailure>
        requires { IsPassOf self.now pass.old }
        ensures same { SamePass pass.old pass.new }
        ensures acquired { IfOk result (λ index. AcquireDone (capacity_of self.now) owner index (view pass.old) (view pass.new)) }
        ensures refused { IfErr result (λ failure. AcquireRefused owner failure (view pass.old) (view pass.new)) }
        ensures lock { is_locked (history pass.old) ≡ true → result ≡ Err Locked }
        ensures steps { TakesAlone (capacity_of self.now + 3) (capacity_of self.now + 1)
            (view pass.old) (view pass.new) }
    {
        match acquire_all(&mut pass.seated, rt, pass.capacity, owner) {
            Ok(index) => Ok(index as usize),
            Err(failure) => Err(failure),
        }
    }

    /// Gives `index`, below the capacity, back for `owner`. It returns `Locked` only in mode `LockIfLastIndex`, if the
    /// set is locked, by this call or an earlier one. That mode locks the set if no index has an owner by then, unless
    /// the generation counter is at its end.
    ///
    /// `IndexIsNotOwnedByProvidedOwner`, without a change, if another owner has it, or none.
    ///
    /// Alone at most 3 atomic steps, in mode `LockIfLastIndex` capacity + 6. After `release` of the Rust crate.
    pub fn release(
        &self,
        rt: &impl Wait,
        index: usize,
        owner: OwnerId,
        mode: ReleaseMode,
        pass: &mut Pass,
    ) -> Result<ReleaseState, RobustUniqueIndexSetReleaseError>
        requires pass { IsPassOf self.now pass.old }
        requires index { index < capacity_of self.now }
        ensures same { SamePass pass.old pass.new }
        ensures released { IfOk result (λ state. ReleaseDone index owner mode state (view pass.old) (view pass.new)) }
        ensures refused { IfErr result (λ failure. ReleaseRefused index owner mode failure (view pass.old) (view pass.new)) }
        ensures steps { ReleaseTakes (capacity_of self.now) mode (view pass.old) (view pass.new) }
    {
        let call = Release::new(pass.capacity);
        let given = GiveBack {
            index: index as u32,
            owner,
            mode,
        };
        pass.seated
            .drive_on::<Release, Gives>(rt, call, &given, &mut ())
    }

    /// Returns how many indices have an owner, or 0 if the set is locked. It counts each that has one through the whole
    /// call, and none that has one at no moment of it. At the end of the generation counter it is the number of one
    /// pass over the indices, whatever has changed meanwhile.
    ///
    /// Alone at most capacity + 2 atomic steps. After `borrowed_indices` of the Rust crate.
    pub fn borrowed_indices(&self, rt: &impl Wait, pass: &mut Pass) -> usize
        requires { IsPassOf self.now pass.old }
        ensures same { SamePass pass.old pass.new }
        ensures counted { BorrowedDone (capacity_of self.now) result (view pass.old) (view pass.new) }
        ensures steps { TakesAlone (capacity_of self.now + 2) (capacity_of self.now + 2)
            (view pass.old) (view pass.new) }
    {
        count_all(&mut pass.seated, rt, pass.capacity)
    }

    /// Returns whether the set is locked. True is the answer to each pass that has seen it. At most one atomic step.
    /// After `is_locked` of the Rust crate.
    pub fn is_locked(&self, pass: &mut Pass) -> bool
        requires { IsPassOf self.now pass.old }
        ensures same { SamePass pass.old pass.new }
        ensures looked { IsLockedDone result (view pass.old) (view pass.new) }
        ensures steps { TakesAtMost 1 (view pass.old) (view pass.new) }
    {
        pass.seated
            .drive::<IsLocked, LooksLocked>(IsLocked, &(), &mut ())
    }

    /// Returns the capacity that it was made with. After `capacity` of the Rust crate.
    pub fn capacity(&self) -> usize
        ensures { result ≡ capacity_of self.now }
    {
        self.capacity as usize
    }
}
