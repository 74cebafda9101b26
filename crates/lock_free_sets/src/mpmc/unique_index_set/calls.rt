//! The calls on a unique index set by a pass.
ghost use Rattle.std.specs.Prelude.{◌≡◌, ◌+◌, max, IfOk, IfErr};
ghost use Rattle.history.specs.Held.{Holds};
ghost use Rattle.lock_free_sets.specs.Unique.Calls.{AcquireDone, ReleaseDone, ReleaseOrLockDone, BorrowedDone, IsLockedDone};
ghost use Rattle.lock_free_sets.specs.Unique.Contracts.{HasAcquired, WasRefused};
ghost use Rattle.lock_free_sets.specs.UniqueIndexSet.{capacity_of, IsPassOf, view, made, SamePass, value_of, index_pass, index_view};
ghost use Rattle.history.specs.Steps.{TakesAtMost, TakesAlone};

use super::drives::{CountsOut, Gives, GivesOrLocks, LooksLocked, Takes};
use super::{Pass, UniqueIndex, UniqueIndexSet};
use std::sync::Wait;
use steps::indices::enums::{ReleaseState, UniqueIndexSetAcquireFailure};
use steps::indices::looks::{BorrowedIndices, IsLocked};
use steps::indices::unique::{Acquire, DefaultMode, LockMode, Release};

impl UniqueIndexSet {
    /// Takes an index that nobody holds at its claim; the answer owns the pass. Else the pass comes back with the
    /// refusal:
    ///
    /// - `OutOfIndices` if at one moment as many indices as the capacity are in use without this call.
    /// - `IsLocked` if the set is locked.
    ///
    /// At most capacity + 4 atomic steps, and the greater of 2 and the capacity more for each change of a word by
    /// others during the call. After `acquire` of the Rust crate.
    pub fn acquire(
        &self,
        rt: &impl Wait,
        pass: Pass,
    ) -> Result<UniqueIndex<'_>, (UniqueIndexSetAcquireFailure, Pass)>
        requires { IsPassOf self.now pass }
        ensures same { IfOk result (λ i. SamePass pass (index_pass i)) }
        ensures acquired { IfOk result (λ i. HasAcquired (value_of i) (view pass) (index_view i)) }
        ensures refused_same { IfErr result (λ r. SamePass pass r.1) }
        ensures refused { IfErr result (λ r. WasRefused r.0 (view pass) (view r.1)) }
        ensures steps { IfOk result (λ i. TakesAlone (4 + capacity_of self.now) (max 2 (capacity_of self.now)) (view pass) (index_view i)) }
        ensures refused_steps { IfErr result (λ r. TakesAlone (4 + capacity_of self.now) (max 2 (capacity_of self.now)) (view pass) (view r.1)) }
    {
        let mut pass = pass;
        match self.acquire_raw_index(rt, &mut pass) {
            Ok(index) => Ok(UniqueIndex {
                set: self,
                pass,
                index,
            }),
            Err(failure) => Err((failure, pass)),
        }
    }

    /// Acquires as `acquire` does, but the pass holds the index until `release_raw_index` or `release_or_lock`. After
    /// `acquire_raw_index` of the Rust crate.
    pub fn acquire_raw_index(
        &self,
        rt: &impl Wait,
        pass: &mut Pass,
    ) -> Result<u32, UniqueIndexSetAcquireFailure>
        requires { IsPassOf self.now pass.old }
        ensures same { SamePass pass.old pass.new }
        ensures acquired { IfOk result (λ i. AcquireDone (capacity_of self.now) i (view pass.old) (view pass.new)) }
        ensures refused { IfErr result (λ e. WasRefused e (view pass.old) (view pass.new)) }
        ensures steps { TakesAlone (4 + capacity_of self.now) (max 2 (capacity_of self.now)) (view pass.old) (view pass.new) }
    {
        let call = Acquire::new(self.capacity);
        pass.seated
            .drive_on::<Acquire, Takes>(rt, call, &(), &mut ())
    }

    /// Gives back an index that the pass holds, in mode `Default`, and returns `Unlocked`. Any of the passes that it
    /// took in may have acquired the index. At most 5 atomic steps. After `release_raw_index` of the Rust crate.
    pub fn release_raw_index(&self, index: u32, pass: &mut Pass) -> ReleaseState
        requires pass { IsPassOf self.now pass.old }
        requires held { Holds index (made pass.old) }
        ensures same { SamePass pass.old pass.new }
        ensures given { ReleaseDone index result (view pass.old) (view pass.new) }
        ensures steps { TakesAtMost 5 (view pass.old) (view pass.new) }
    {
        let call = Release::<DefaultMode>::new(self.capacity);
        pass.seated
            .drive::<Release<DefaultMode>, Gives>(call, &index, &mut ())
    }

    /// Gives back an index that the pass holds, in mode `LockIfLastIndex`. It returns `Locked` where it was the last
    /// one out, else `Unlocked`, where without it another is in use at one moment of the call. At most 4 atomic steps,
    /// and 2 more for each change of a word of the set by others during the call. After `release_raw_index` of the Rust
    /// crate.
    pub fn release_or_lock(&self, rt: &impl Wait, index: u32, pass: &mut Pass) -> ReleaseState
        requires pass { IsPassOf self.now pass.old }
        requires held { Holds index (made pass.old) }
        ensures same { SamePass pass.old pass.new }
        ensures given { ReleaseOrLockDone index result (view pass.old) (view pass.new) }
        ensures steps { TakesAlone 4 2 (view pass.old) (view pass.new) }
    {
        let call = Release::<LockMode>::new(self.capacity);
        pass.seated
            .drive_on::<Release<LockMode>, GivesOrLocks>(rt, call, &index, &mut ())
    }

    /// Returns how many indices were borrowed at one moment of the call. At least those held, and at most those in use,
    /// at most the capacity, and 0 where the set is locked. At most one atomic step. After `borrowed_indices` of the
    /// Rust crate.
    pub fn borrowed_indices(&self, pass: &mut Pass) -> usize
        requires { IsPassOf self.now pass.old }
        ensures same { SamePass pass.old pass.new }
        ensures counted { BorrowedDone (capacity_of self.now) result (view pass.old) (view pass.new) }
        ensures steps { TakesAtMost 1 (view pass.old) (view pass.new) }
    {
        pass.seated
            .drive::<BorrowedIndices, CountsOut>(BorrowedIndices, &(), &mut ())
    }

    /// Returns whether the set is locked. At most one atomic step. After `is_locked` of the Rust crate.
    pub fn is_locked(&self, pass: &mut Pass) -> bool
        requires { IsPassOf self.now pass.old }
        ensures same { SamePass pass.old pass.new }
        ensures looked { IsLockedDone result (view pass.old) (view pass.new) }
        ensures steps { TakesAtMost 1 (view pass.old) (view pass.new) }
    {
        pass.seated
            .drive::<IsLocked, LooksLocked>(IsLocked, &(), &mut ())
    }

    /// Returns the capacity that it was made with. After `capacity` of the Rust crate.
    pub fn capacity(&self) -> u32
        ensures { result ≡ capacity_of self.now }
    {
        self.capacity
    }

    /// Tells a caller's proof that a pass of the set has its capacity. It does nothing. This project's own.
    pub fn sizes(&self, pass: &Pass)
        requires { IsPassOf self.now pass.now }
        ensures { (view pass.now).capacity ≡ capacity_of self.now }
    {}
}
