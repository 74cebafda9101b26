//! The calls on a container by a pass, but those of states. No contract says that an index taken is the
//! lowest. At the end of the generation counter nothing is added and nothing locks any more. An add that
//! meets the lock after it has given an index its owner leaves the index that owner and places no value. A
//! value that an earlier owner's remove has not hidden yet then still stands at the index.
ghost use Rattle.std.specs.Prelude.{◌≡◌, ◌+◌, true, Err, IfOk, IfErr, OnOk};
ghost use Rattle.steps.specs.declared.container.enums.ContainerAddFailure.TheVariants.{IsLocked as Locked};
ghost use Rattle.model.specs.Families.Indices.Reading.{is_locked};
ghost use Rattle.lock_free_owners.specs.Container.Calls.{KeepsPass, KeepsPassIf, AddDone, AddRefused, RemoveDone, RemoveRefused};
ghost use Rattle.lock_free_owners.specs.Container.Calls.{ReplaceDone, ReplaceRefused, LenDone, IsEmptyDone, IsLockedDone};
ghost use Rattle.lock_free_owners.specs.Container.Steps.{TakesFew, ContainerTakes, RemoveTakes};
ghost use Rattle.lock_free_owners.specs.Container.Names.{view, history, capacity_of, IsPassOf, IsOwn};

use super::counts::count_all;
use super::drives::{Adds, HowMany, LooksLocked, Removes, Replaces, WhetherNone};
use super::{Container, ContainerAddFailure, ContainerHandle, ContainerRemoveError, OwnerId, Pass};
use std::sync::Wait;
use steps::container::add::{Add, Owned};
use steps::container::remove::Remove;
use steps::container::replace::{Replace, Replacement};
use steps::indices::enums::{ReleaseMode, ReleaseState};
use steps::indices::robust::looks::IsLocked;
use steps::indices::robust::release::GiveBack;
use steps::words::Words;

impl<T: Words> Container<T> {
    /// Adds `value` for `owner` at the lowest index that it finds without an owner, and returns its handle.
    ///
    /// - `OutOfSpace`, without a change, if each index had an owner at a moment of the call, or the generation counter
    ///   is at its end.
    /// - `IsLocked` if the container is locked. If it meets the lock late, the index keeps the owner without the value.
    ///
    /// Alone at most capacity + 7 + `T::WORDS` atomic steps. After `add` of the Rust crate.
    pub fn add(
        &self,
        rt: &impl Wait,
        value: T,
        owner: OwnerId,
        pass: &mut Pass<T>,
    ) -> Result<ContainerHandle, ContainerAddFailure>
        requires { IsPassOf self.now pass.old }
        ensures same { KeepsPass pass.old pass.new }
        ensures added { IfOk result (λ handle. AddDone self.now (record { value = value; owner = owner }) handle
            (view pass.old) (view pass.new)) }
        ensures refused { IfErr result (λ failure. AddRefused (record { value = value; owner = owner }) failure
            (view pass.old) (view pass.new)) }
        ensures lock { is_locked (history pass.old) ≡ true → result ≡ Err Locked }
        ensures steps { ContainerTakes (capacity_of self.now + 7 + T.WORDS) (capacity_of self.now + 1)
            (view pass.old) (view pass.new) }
    {
        let call = Add::new(pass.token.capacity);
        let given = Owned { value, owner };
        let end = pass
            .token
            .seated
            .drive_on::<Add<T>, Adds>(rt, call, &given, &mut ());
        match end {
            Ok(index) => Ok(ContainerHandle {
                index,
                owner,
                container: self.id,
            }),
            Err(failure) => Err(failure),
        }
    }

    /// Removes the value that `handle` names, and frees its index. `Locked` only in mode `LockIfLastIndex`, if the
    /// container is locked, also by this call if no index has an owner then; else `Unlocked`.
    ///
    /// `ContainerHandleNotOwnedByContainer`, without a change, if the handle is of another container or past the
    /// capacity (no step, no call of the history), or its owner does not have the index.
    ///
    /// Alone at most 6 steps, in mode `LockIfLastIndex` capacity + 9. After `remove` of the Rust crate.
    pub fn remove(
        &self,
        rt: &impl Wait,
        handle: ContainerHandle,
        mode: ReleaseMode,
        pass: &mut Pass<T>,
    ) -> Result<ReleaseState, ContainerRemoveError>
        requires { IsPassOf self.now pass.old }
        ensures same { KeepsPassIf (IsOwn self.now handle) pass.old pass.new }
        ensures removed { IfOk result (λ state. RemoveDone self.now handle mode state (view pass.old) (view pass.new)) }
        ensures refused { IfErr result (λ failure. RemoveRefused self.now handle mode failure
            (view pass.old) (view pass.new)) }
        ensures steps { IsOwn self.now handle → RemoveTakes (capacity_of self.now) mode
            (view pass.old) (view pass.new) }
    {
        if handle.container != self.id || handle.index >= self.capacity {
            return Err(ContainerRemoveError::ContainerHandleNotOwnedByContainer);
        }
        let call = Remove::new(pass.token.capacity, handle.index);
        let given = GiveBack {
            index: handle.index,
            owner: handle.owner,
            mode,
        };
        pass.token
            .seated
            .drive_on::<Remove, Removes>(rt, call, &given, &mut ())
    }

    /// Puts `value` in the place of the one that `handle` names. From its third step, which hides the value that stood
    /// there, to the last but one, behind the new value's words, the index shows no value.
    ///
    /// `ContainerHandleNotOwnedByContainer`, without a change, where `remove` has it.
    ///
    /// At most 5 + `T::WORDS` atomic steps. This project's own.
    pub fn replace(
        &self,
        handle: ContainerHandle,
        value: T,
        pass: &mut Pass<T>,
    ) -> Result<(), ContainerRemoveError>
        requires { IsPassOf self.now pass.old }
        ensures same { KeepsPassIf (IsOwn self.now handle) pass.old pass.new }
        ensures replaced { OnOk result (ReplaceDone self.now handle value (view pass.old) (view pass.new)) }
        ensures refused { IfErr result (λ failure. ReplaceRefused self.now handle value failure
            (view pass.old) (view pass.new)) }
        ensures steps { IsOwn self.now handle → TakesFew (5 + T.WORDS) (view pass.old) (view pass.new) }
    {
        if handle.container != self.id || handle.index >= self.capacity {
            return Err(ContainerRemoveError::ContainerHandleNotOwnedByContainer);
        }
        let call = Replace::new(pass.token.capacity, handle.index);
        let given = Replacement {
            index: handle.index,
            owner: handle.owner,
            value,
        };
        pass.token
            .seated
            .drive::<Replace<T>, Replaces>(call, &given, &mut ())
    }

    /// Returns how many indices have an owner, or 0 if the container is locked. It counts each that has one through the
    /// whole call, and none that has one at no moment of it. At the end of the generation counter it is the number of
    /// one pass over the indices, whatever has changed meanwhile.
    ///
    /// Alone at most capacity + 2 atomic steps. After `len` of the Rust crate.
    pub fn len(&self, rt: &impl Wait, pass: &mut Pass<T>) -> usize
        requires { IsPassOf self.now pass.old }
        ensures same { KeepsPass pass.old pass.new }
        ensures counted { LenDone (capacity_of self.now) result (view pass.old) (view pass.new) }
        ensures steps { ContainerTakes (capacity_of self.now + 2)
            (capacity_of self.now + 2) (view pass.old) (view pass.new) }
    {
        count_all::<T, HowMany>(&mut pass.token.seated, rt, pass.token.capacity)
    }

    /// Returns whether `len` is 0, which it is where the pass has seen the lock. As many atomic steps as
    /// `len`. After `is_empty` of the Rust crate.
    pub fn is_empty(&self, rt: &impl Wait, pass: &mut Pass<T>) -> bool
        requires { IsPassOf self.now pass.old }
        ensures same { KeepsPass pass.old pass.new }
        ensures tested { IsEmptyDone result (view pass.old) (view pass.new) }
        ensures steps { ContainerTakes (capacity_of self.now + 2)
            (capacity_of self.now + 2) (view pass.old) (view pass.new) }
    {
        count_all::<T, WhetherNone>(&mut pass.token.seated, rt, pass.token.capacity) == 0
    }

    /// Returns whether the container is locked. True is the answer to each pass that has seen it. At most one atomic
    /// step. After `is_locked` of the Rust crate.
    pub fn is_locked(&self, pass: &mut Pass<T>) -> bool
        requires { IsPassOf self.now pass.old }
        ensures same { KeepsPass pass.old pass.new }
        ensures looked { IsLockedDone result (view pass.old) (view pass.new) }
        ensures steps { TakesFew 1 (view pass.old) (view pass.new) }
    {
        pass.token
            .seated
            .drive::<IsLocked, LooksLocked>(IsLocked, &(), &mut ())
    }

    /// Returns the capacity that it was made with. After `capacity` of the Rust crate.
    pub fn capacity(&self) -> usize
        ensures { result ≡ capacity_of self.now }
    {
        self.capacity as usize
    }
}
