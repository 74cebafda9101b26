//! Calls of a container once more, each with a clause that no other client has a use for
//! (as `twins.rt` says).
ghost use Rattle.std.specs.Prelude.{◌≡◌, ◌≤◌, ◌<◌, ◌^◌, ◌∷◌, length, true, false, Ok, Err, List, MatchOption, IfOk, IfErr, OnOk, []};
ghost use Rattle.lock_free.specs.IndexReading.{is_locked as has_lock};
ghost use Rattle.lock_free.specs.Container.Bare.{IsCounted};
ghost use Rattle.lock_free.specs.Container.Callable.{TakesVisits};
ghost use Rattle.lock_free.specs.Container.Calls.{given_back, put_at};
ghost use Rattle.lock_free.specs.Container.Entries.{entries_of};
ghost use Rattle.lock_free.specs.Container.Contracts.{HasCounted, HasGotState, HasLooked, HasMet, HasRemoved, HasReplaced, HasTested};
ghost use Rattle.lock_free.specs.Container.Contracts.{IsRightLength, IsRightLook, IsRightRecovery, IsRightRemove, IsRightReplace, IsRightTest};
ghost use Rattle.lock_free.specs.Container.Names.{capacity_of, history, view, IsHandleFor, IsLatestState, IsOwn, IsPassOf, IsStateOf};
ghost use Rattle.lock_free.specs.Container.Questions.{TakesValues};
ghost use Rattle.lock_free.specs.Container.Steps.{FewAside};
ghost use Rattle.lock_free.specs.ContainerState.{shown_from};
ghost use Rattle.lock_free.specs.Robust.Contracts.{FoundLock, FoundState, WasFilled, WasGranted};

use lock_free::mpmc::container;
use lock_free::mpmc::container::{
    CallbackProgression, Container, ContainerAddFailure, ContainerHandle, ContainerRemoveError,
    ContainerState, ContainerStateError, OwnerId, Pass, StateEntries,
};
use lock_free::words::Words;
use std::sync::Wait;
use steps::indices::enums::{ReleaseMode, ReleaseState};

/// An add fills an index that had no owner, and is granted it.
pub fn add<T: Words>(
    container: &Container<T>,
    rt: &impl Wait,
    value: T,
    owner: OwnerId,
    pass: &mut Pass<T>,
) -> Result<ContainerHandle, ContainerAddFailure>
    requires { IsPassOf container.now pass.old }
    ensures filled { IfOk result (λ handle. WasFilled handle.index owner (view pass.old) (view pass.new)) }
    ensures granted { IfOk result (λ handle. WasGranted handle.index owner (view pass.old) (view pass.new)) }
{
    container.add(rt, value, owner, pass)
}

/// What a remove answers is its answer in the history, and right. With another container's handle nothing changes.
pub fn remove<T: Words>(
    container: &Container<T>,
    rt: &impl Wait,
    handle: ContainerHandle,
    mode: ReleaseMode,
    pass: &mut Pass<T>,
) -> Result<ReleaseState, ContainerRemoveError>
    requires { IsPassOf container.now pass.old }
    ensures foreign { (IsOwn container.now handle → ⊥) → view pass.new ≡ view pass.old }
    ensures removed { IfOk result (λ state. HasRemoved (given_back handle mode) (Ok state) (view pass.old) (view pass.new)) }
    ensures answered { IfOk result (λ state. IsRightRemove (given_back handle mode) (Ok state) (view pass.old) (view pass.new)) }
    ensures refused { IfErr result (λ failure. IsOwn container.now handle
        → HasRemoved (given_back handle mode) (Err failure) (view pass.old) (view pass.new)) }
{
    container.remove(rt, handle, mode, pass)
}

/// What a replace answers is its answer in the history, and right. It succeeds only with a
/// handle of this container.
pub fn replace<T: Words>(
    container: &Container<T>,
    handle: ContainerHandle,
    value: T,
    pass: &mut Pass<T>,
) -> Result<(), ContainerRemoveError>
    requires { IsPassOf container.now pass.old }
    ensures own { OnOk result (IsOwn container.now handle) }
    ensures replaced { OnOk result (HasReplaced (put_at handle value) (Ok tt) (view pass.old) (view pass.new)) }
    ensures answered { OnOk result (IsRightReplace (put_at handle value) (Ok tt) (view pass.old) (view pass.new)) }
    ensures refused { IfErr result (λ failure. IsOwn container.now handle
        → HasReplaced (put_at handle value) (Err failure) (view pass.old) (view pass.new)) }
    ensures denied { IfErr result (λ failure. IsOwn container.now handle
        → IsRightReplace (put_at handle value) (Err failure) (view pass.old) (view pass.new)) }
{
    container.replace(handle, value, pass)
}

/// A length is its answer in the history, and right. It is at most the capacity, and 0 if the pass had seen
/// the lock. One operation is aside at most, and one more if the last call of the pass was a find that rests.
pub fn len<T: Words>(container: &Container<T>, rt: &impl Wait, pass: &mut Pass<T>) -> usize
    requires { IsPassOf container.now pass.old }
    ensures counted { HasCounted result (view pass.old) (view pass.new) }
    ensures answered { IsRightLength result (view pass.old) (view pass.new) }
    ensures most { result ≤ capacity_of container.now }
    ensures lock { has_lock (history pass.old) ≡ true → result ≡ 0 }
    ensures aside { FewAside (view pass.old) (view pass.new) }
{
    container.len(rt, pass)
}

/// Whether the container is empty is the call's answer in the history, and right.
pub fn is_empty<T: Words>(container: &Container<T>, rt: &impl Wait, pass: &mut Pass<T>) -> bool
    requires { IsPassOf container.now pass.old }
    ensures tested { HasTested result (view pass.old) (view pass.new) }
    ensures answered { IsRightTest result (view pass.old) (view pass.new) }
    ensures lock { has_lock (history pass.old) ≡ true → result ≡ true }
{
    container.is_empty(rt, pass)
}

/// What a look at the lock answers is its answer in the history, and right.
pub fn is_locked<T: Words>(container: &Container<T>, pass: &mut Pass<T>) -> bool
    requires { IsPassOf container.now pass.old }
    ensures looked { HasLooked result (view pass.old) (view pass.new) }
    ensures answered { IsRightLook result (view pass.old) (view pass.new) }
    ensures lock { FoundLock result (view pass.old) (view pass.new) }
{
    container.is_locked(pass)
}

/// One operation of a find is aside at most, and one more if the last call of the pass was a find that rests.
pub fn find<T: Words, F: FnMut(T, ContainerHandle) -> CallbackProgression>(
    container: &Container<T>,
    owner: OwnerId,
    visit: &mut F,
    pass: &mut Pass<T>,
) -> usize
    requires pass { IsPassOf container.now pass.old }
    requires visits { TakesVisits F.pre (λ p x h a q. F.step p x h a q) (IsHandleFor container.now owner) visit.old }
    ensures aside { FewAside (view pass.old) (view pass.new) }
{
    container.find(owner, visit, pass)
}

/// What a recovery answers is right. It is `Locked` if the pass had seen the lock.
pub fn recover<T: Words, F: FnMut(T) -> bool>(
    container: &Container<T>,
    rt: &impl Wait,
    owner: OwnerId,
    predicate: &mut F,
    mode: ReleaseMode,
    pass: &mut Pass<T>,
) -> ReleaseState
    requires pass { IsPassOf container.now pass.old }
    requires questions { has_lock (history pass.old) ≡ false → TakesValues F.pre
        (λ p x b q. F.step p x b q) (capacity_of container.now) predicate.old }
    ensures answered { IsRightRecovery (record { owner = owner; mode = mode }) result (view pass.old) (view pass.new) }
    ensures lock { FoundState result (view pass.old) (view pass.new) }
{
    container.recover(rt, owner, predicate, mode, pass)
}

/// What a state shows is what its pass has copied.
pub fn get_state<T: Words>(
    container: &Container<T>,
    rt: &impl Wait,
    pass: &mut Pass<T>,
) -> Result<ContainerState<T>, ContainerStateError>
    requires { IsPassOf container.now pass.old }
    ensures got { IfOk result (λ state. HasGotState state (view pass.old) (view pass.new)) }
{
    container.get_state(rt, pass)
}

/// An update of the state that the pass got last tells whether there was a change. All its operations are aside if the pass
/// got another state last.
pub fn update_state<T: Words>(
    rt: &impl Wait,
    container: &Container<T>,
    state: &mut ContainerState<T>,
    pass: &mut Pass<T>,
) -> bool
    requires pass { IsPassOf container.now pass.old }
    requires state { IsStateOf container.now state.old }
    ensures met { IsLatestState pass.old state.old → HasMet result (view pass.old) (view pass.new) }
    ensures beside { (IsLatestState pass.old state.old → ⊥) → IsCounted (view pass.old) (view pass.new) }
{
    container.update_state(rt, state, pass)
}

/// What a state shows comes entry by entry, and no entry is left out, where the state has no element past its capacity.
pub fn entries<'a, T: Words>(state: &'a ContainerState<T>) -> StateEntries<'a, T>
    ensures entries { result ≡ entries_of state.now }
    ensures all { length state.now.shown.elements ≤ state.now.capacity
        → result ≡ shown_from 0 state.now.shown.elements }
    ensures most { length result < 2 ^ 32 }
{
    container::entries(state)
}

/// The first entry, if there is one.
pub fn first<'a, T: Words>(state: &'a ContainerState<T>) -> Option<(usize, &'a T)>
    ensures { MatchOption result (entries_of state.now ≡ [])
        (λ item. (rest : List _) × (entries_of state.now ≡ (item.0, item.1.now) ∷ rest)) }
{
    entries(state).next()
}
