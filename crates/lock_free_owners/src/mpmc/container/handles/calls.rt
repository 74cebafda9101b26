//! The calls by a handle: those of its container.
ghost use Rattle.std.specs.Prelude.{◌≡◌, ◌+◌, true, None, Err, IfSome, IfNone, IfOk, IfErr, OnOk};
ghost use Rattle.steps.specs.declared.container.enums.ContainerAddFailure.TheVariants.{IsLocked as Locked};
ghost use Rattle.model.specs.Families.Indices.Reading.{is_locked};
ghost use Rattle.lock_free_owners.specs.Container.Calls.{KeepsPass, KeepsPassIf, AddDone, AddRefused, RemoveDone, RemoveRefused};
ghost use Rattle.lock_free_owners.specs.Container.Calls.{ReplaceDone, ReplaceRefused, LenDone, IsEmptyDone, IsLockedDone};
ghost use Rattle.lock_free_owners.specs.Container.Steps.{TakesFew, ContainerTakes, RemoveTakes};
ghost use Rattle.lock_free_owners.specs.Container.Idle.{IsIdle};
ghost use Rattle.lock_free_owners.specs.Container.Names.{history, code_of, capacity_of, container_of, HasHistory, IsPassOf, IsOwn};
ghost use Rattle.model.specs.declared.turn.Kind.TheVariants as kinds;
ghost use Rattle.history_owners.specs.ContainerLooks.{KeepsState};
ghost use Rattle.history.specs.History.{Knows};
ghost use Rattle.history.specs.Passes.{HasSplit};
ghost use Rattle.history.specs.Steps.{TakesAtMost};
ghost use Rattle.lock_free_owners.specs.Container.Handles.{container_in, pass_in, knows, KeepsHandle};

use super::Handle;
use crate::mpmc::container::{
    Container, ContainerAddFailure, ContainerHandle, ContainerRemoveError, OwnerId, Pass,
};
use std::sync::Wait;
use steps::indices::enums::{ReleaseMode, ReleaseState};
use steps::words::Words;

impl<T: Words> Container<T> {
    /// Makes a handle of this container and a pass of it. No atomic step. This project's own.
    pub fn handle(&self, pass: Pass<T>) -> Handle<'_, T>
        requires { IsPassOf self.now pass }
        ensures container { container_in result ≡ self.now }
        ensures pass { pass_in result ≡ pass }
    {
        Handle {
            container: self,
            pass,
        }
    }
}

impl<'a, T: Words> Handle<'a, T> {
    /// Returns the pass. No atomic step.
    pub fn into_pass(self) -> Pass<T>
        ensures { result ≡ pass_in self.entry }
    {
        let Handle { container: _, pass } = self;
        pass
    }

    /// What the handle's pass has seen is a history. Its last call has ended or rests, as `history` of the pass says. It does
    /// nothing.
    pub fn history(&self)
        ensures run { Knows (code_of (pass_in self.now)) kinds.Container (container_of (pass_in self.now)).capacity (knows self.now) }
        ensures history { HasHistory (pass_in self.now) }
        ensures rests { IsIdle (knows self.now) }
    {
        self.pass.history();
    }

    /// Makes a further handle of the container, with a pass that it gets by `Pass::split`.
    pub fn split(&mut self) -> Option<Handle<'a, T>>
        ensures container { container_in self.new ≡ container_in self.old }
        ensures new { IfSome result (λ h. container_in h ≡ container_in self.old) }
        ensures cut { IfSome result (λ h. HasSplit (knows self.old) (knows self.new) (knows h)) }
        ensures going { (knows self.new).going ≡ (knows self.old).going }
        ensures keeps { KeepsState (knows self.old) (knows self.new) }
        ensures idle { IfSome result (λ h. (knows h).going ≡ None) }
        ensures none { IfNone result (knows self.new ≡ knows self.old) }
        ensures steps { TakesAtMost 1 (knows self.old) (knows self.new) }
    {
        let pass = self.pass.split()?;
        Some(Handle {
            container: self.container,
            pass,
        })
    }

    /// Calls `Container::capacity`.
    pub fn capacity(&self) -> usize
        ensures { result ≡ capacity_of (container_in self.now) }
    {
        self.container.capacity()
    }

    /// Calls `Container::add`, with its pass.
    pub fn add(
        &mut self,
        rt: &impl Wait,
        value: T,
        owner: OwnerId,
    ) -> Result<ContainerHandle, ContainerAddFailure>
        ensures same { KeepsHandle KeepsPass self.old self.new }
        ensures added { IfOk result (λ handle. AddDone (container_in self.old) (record { value = value; owner = owner }) handle
            (knows self.old) (knows self.new)) }
        ensures refused { IfErr result (λ failure. AddRefused (record { value = value; owner = owner }) failure
            (knows self.old) (knows self.new)) }
        ensures lock { is_locked (history (pass_in self.old)) ≡ true → result ≡ Err Locked }
        ensures steps { ContainerTakes (capacity_of (container_in self.old) + 7 + T.WORDS) (capacity_of (container_in self.old) + 1)
            (knows self.old) (knows self.new) }
    {
        self.container.add(rt, value, owner, &mut self.pass)
    }

    /// Calls `Container::remove`, with its pass.
    pub fn remove(
        &mut self,
        rt: &impl Wait,
        handle: ContainerHandle,
        mode: ReleaseMode,
    ) -> Result<ReleaseState, ContainerRemoveError>
        ensures same { KeepsHandle (KeepsPassIf (IsOwn (container_in self.old) handle)) self.old self.new }
        ensures removed { IfOk result (λ state. RemoveDone (container_in self.old) handle mode state
            (knows self.old) (knows self.new)) }
        ensures refused { IfErr result (λ failure. RemoveRefused (container_in self.old) handle mode failure
            (knows self.old) (knows self.new)) }
        ensures steps { IsOwn (container_in self.old) handle → RemoveTakes (capacity_of (container_in self.old)) mode (knows self.old) (knows self.new) }
    {
        self.container.remove(rt, handle, mode, &mut self.pass)
    }

    /// Calls `Container::replace`, with its pass.
    pub fn replace(&mut self, handle: ContainerHandle, value: T) -> Result<(), ContainerRemoveError>
        ensures same { KeepsHandle (KeepsPassIf (IsOwn (container_in self.old) handle)) self.old self.new }
        ensures replaced { OnOk result (ReplaceDone (container_in self.old) handle value (knows self.old) (knows self.new)) }
        ensures refused { IfErr result (λ failure. ReplaceRefused (container_in self.old) handle value failure
            (knows self.old) (knows self.new)) }
        ensures steps { IsOwn (container_in self.old) handle → TakesFew (5 + T.WORDS) (knows self.old) (knows self.new) }
    {
        self.container.replace(handle, value, &mut self.pass)
    }

    /// Calls `Container::len`, with its pass.
    pub fn len(&mut self, rt: &impl Wait) -> usize
        ensures same { KeepsHandle KeepsPass self.old self.new }
        ensures counted { LenDone (capacity_of (container_in self.old)) result (knows self.old) (knows self.new) }
        ensures steps { ContainerTakes (capacity_of (container_in self.old) + 2) (capacity_of (container_in self.old) + 2) (knows self.old) (knows self.new) }
    {
        self.container.len(rt, &mut self.pass)
    }

    /// Calls `Container::is_empty`, with its pass.
    pub fn is_empty(&mut self, rt: &impl Wait) -> bool
        ensures same { KeepsHandle KeepsPass self.old self.new }
        ensures tested { IsEmptyDone result (knows self.old) (knows self.new) }
        ensures steps { ContainerTakes (capacity_of (container_in self.old) + 2) (capacity_of (container_in self.old) + 2) (knows self.old) (knows self.new) }
    {
        self.container.is_empty(rt, &mut self.pass)
    }

    /// Calls `Container::is_locked`, with its pass.
    pub fn is_locked(&mut self) -> bool
        ensures same { KeepsHandle KeepsPass self.old self.new }
        ensures looked { IsLockedDone result (knows self.old) (knows self.new) }
        ensures steps { TakesFew 1 (knows self.old) (knows self.new) }
    {
        self.container.is_locked(&mut self.pass)
    }
}
