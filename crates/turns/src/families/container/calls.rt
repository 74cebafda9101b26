//! The calls of the container under way: what each wants, and how it goes on.
ghost use Rattle.std.specs.Prelude.{◌≡◌, IfOk};
ghost use Rattle.steps.specs.Ask.{CameTo};
ghost use Rattle.model.specs.Families.Container.Calls.{place_of, add_of, remove_of, replace_of, find_of, recover_of};
ghost use Rattle.model.specs.Families.Container.Calls.{look_of, count_of, locked_of, added, removed, replaced, counted};
ghost use Rattle.model.specs.Families.Container.Calls.{looked, want, after, goes_back, look_flight, look_after};
ghost use Rattle.model.specs.Families.Container.Calls.{look_writes, states_after};
ghost use Rattle.model.specs.Families.Container.States.{state_of};
ghost use Rattle.model.specs.Coding.{coding_by};

use model::event::Answer;
use model::families::container::calls::{ContainerFlight, CountOf, LookOf};
use model::families::container::states::States;
use model::room::Apart;
use std::alloc::{AllocError, Global};
use steps::ask::{After, Want};
use steps::container::add::{Add, Owned};
use steps::container::enums::{ContainerAddFailure, ContainerRemoveError};
use steps::container::find::Find;
use steps::container::look::Look;
use steps::container::recover::{DeadOwner, Recover};
use steps::container::remove::Remove;
use steps::container::replace::{Replace, Replacement};
use steps::container::state::ContainerState;
use steps::enums::OwnerId;
use steps::indices::enums::{ReleaseMode, ReleaseState};
use steps::indices::robust::looks::{BorrowedIndices, IsLocked};
use steps::indices::robust::release::GiveBack;
use steps::routine::{Routine, Running};
use steps::words::Words;

/// The index that a call names, or the capacity in place of one that is not below it.
fn place_of(capacity: u32, index: u64) -> u32
    ensures { result ≡ place_of capacity index }
{
    if index < capacity as u64 {
        index as u32
    } else {
        capacity
    }
}

/// An add of this value for this owner that begins on a container of this capacity.
pub fn add<T: Words>(capacity: u32, value: T, owner: OwnerId) -> ContainerFlight<T>
    ensures { result ≡ add_of capacity value owner }
{
    ContainerFlight::Add(Running {
        call: Add::new(capacity),
        given: Owned { value, owner },
        room: (),
    })
}

/// A remove of this owner's value at this index, before its first step.
pub fn remove<T>(capacity: u32, index: u64, owner: OwnerId, mode: ReleaseMode) -> ContainerFlight<T>
    ensures { result ≡ remove_of capacity index owner mode }
{
    let index = place_of(capacity, index);
    ContainerFlight::Remove(Running {
        call: Remove::new(capacity, index),
        given: GiveBack { index, owner, mode },
        room: (),
    })
}

/// A replace of this owner's value at this index, before its first step.
pub fn replace<T: Words>(capacity: u32, index: u64, value: T, owner: OwnerId) -> ContainerFlight<T>
    ensures { result ≡ replace_of capacity index value owner }
{
    let index = place_of(capacity, index);
    ContainerFlight::Replace(Running {
        call: Replace::new(capacity, index),
        given: Replacement {
            index,
            owner,
            value,
        },
        room: (),
    })
}

/// A find of this owner's indices, before its first step. It fails where memory for its room is refused.
pub fn find<T: Words>(
    alloc: Global,
    capacity: u32,
    owner: OwnerId,
) -> Result<ContainerFlight<T>, AllocError>
    ensures { IfOk result (λ flight. flight ≡ find_of capacity owner) }
{
    let room = Apart::new(alloc)?;
    Ok(ContainerFlight::Find(Running {
        call: Find::new(capacity),
        given: owner,
        room,
    }))
}

/// A recovery of this owner's indices, before its first step. It fails where memory for its room is refused.
pub fn recover<T: Words>(
    alloc: Global,
    capacity: u32,
    owner: OwnerId,
    mode: ReleaseMode,
) -> Result<ContainerFlight<T>, AllocError>
    ensures { IfOk result (λ flight. flight ≡ recover_of capacity owner mode) }
{
    let room = Apart::new(alloc)?;
    Ok(ContainerFlight::Recover(Running {
        call: Recover::new(capacity),
        given: DeadOwner { owner, mode },
        room,
    }))
}

/// A look (`get_state` or `update_state`), before its first step.
pub fn look<T: Words>(which: LookOf, capacity: u32) -> ContainerFlight<T>
    ensures { result ≡ look_of which capacity }
{
    ContainerFlight::Look(which, Look::new(capacity))
}

/// A count of the filled indices (`len` or `is_empty`), before its first step.
pub fn count<T>(which: CountOf, capacity: u32) -> ContainerFlight<T>
    ensures { result ≡ count_of which capacity }
{
    ContainerFlight::Count(
        which,
        Running {
            call: BorrowedIndices::new(capacity),
            given: (),
            room: (),
        },
    )
}

/// A look at the lock, before its step.
pub fn is_locked<T>() -> ContainerFlight<T>
    ensures { result ≡ locked_of }
{
    ContainerFlight::IsLocked(Running {
        call: IsLocked,
        given: (),
        room: (),
    })
}

/// What an add answers in a machine.
fn added<T>(end: Result<u32, ContainerAddFailure>) -> Answer<T>
    ensures { result ≡ added end }
{
    match end {
        Ok(index) => Answer::Index(index),
        Err(failure) => Answer::NoPlace(failure),
    }
}

/// What a remove answers in a machine.
fn removed<T>(end: Result<ReleaseState, ContainerRemoveError>) -> Answer<T>
    ensures { result ≡ removed end }
{
    match end {
        Ok(state) => Answer::State(state),
        Err(failure) => Answer::NotRemoved(failure),
    }
}

/// What a replace answers in a machine.
fn replaced<T>(end: Result<(), ContainerRemoveError>) -> Answer<T>
    ensures { result ≡ replaced end }
{
    match end {
        Ok(()) => Answer::Done,
        Err(failure) => Answer::NotRemoved(failure),
    }
}

/// What a count of the filled indices answers in a machine.
fn counted<T>(which: CountOf, number: usize) -> Answer<T>
    ensures { result ≡ counted which number }
{
    match which {
        CountOf::Len => Answer::Number(number as u64),
        CountOf::IsEmpty => Answer::Truth(number == 0),
    }
}

/// What a look answers in a machine, where it leaves this state: how many values the state shows, or whether
/// it has changed.
fn looked<T: Words>(which: LookOf, state: &ContainerState<T>, changed: bool) -> Answer<T>
    ensures { result ≡ looked which state.now changed }
{
    match which {
        LookOf::GetState => Answer::Number(state.number() as u64),
        LookOf::UpdateState => Answer::Truth(changed),
    }
}

/// Hands a look an answer, changes it and its party's state in place, and returns the look's
/// answer once it is done.
pub fn look_on<T: Words>(
    which: LookOf,
    call: &mut Look<T>,
    state: &mut ContainerState<T>,
    answer: u64,
) -> Option<Answer<T>>
    ensures state { state.new ≡ look_writes (coding_by T.Words) call.old state.old answer }
    ensures after { CameTo result (look_flight which call.new)
        (look_after (coding_by T.Words) which call.old state.old answer) }
{
    match call.take(&state.seen, &mut state.shown, answer) {
        After::GoOn(next) => {
            *call = next;
            None
        }
        After::Done(changed) => {
            if changed {
                state.settle();
            }
            Some(looked(which, state, changed))
        }
    }
}

/// What the call wants next.
pub fn want<T: Words>(flight: &ContainerFlight<T>) -> Want<()>
    ensures { result ≡ want (coding_by T.Words) flight.now }
{
    match flight {
        ContainerFlight::Add(run) => run.want(),
        ContainerFlight::Remove(run) => run.want(),
        ContainerFlight::Replace(run) => run.want(),
        ContainerFlight::Find(run) => run.want(),
        ContainerFlight::Recover(run) => run.want(),
        ContainerFlight::Look(_, call) => call.wants(),
        ContainerFlight::Count(_, run) => run.want(),
        ContainerFlight::IsLocked(run) => run.want(),
    }
}

/// Whether the call begins a turn of its loop again once it is handed this answer.
pub fn goes_back<T: Words>(flight: &ContainerFlight<T>, answer: u64) -> bool
    ensures { result ≡ goes_back flight.now answer }
{
    match flight {
        ContainerFlight::Add(run) => run.call.stage.goes_back(run.call.capacity, answer),
        ContainerFlight::Remove(run) => run.call.stage.goes_back(run.call.capacity, answer),
        ContainerFlight::Replace(_) => false,
        ContainerFlight::Find(_) => false,
        ContainerFlight::Recover(run) => run.call.stage.goes_back(answer),
        ContainerFlight::Look(_, call) => call.stage.goes_back(answer),
        ContainerFlight::Count(_, run) => run.call.goes_back(answer),
        ContainerFlight::IsLocked(_) => false,
    }
}

/// Hands the call an answer, changes it in place, and returns the call's own answer once it is done. A look
/// changes the state of its party; without a state it does not go on.
pub fn feed<T: Words>(
    flight: &mut ContainerFlight<T>,
    number: u32,
    states: &mut States<T>,
    answer: u64,
) -> Option<Answer<T>>
    ensures after { CameTo result flight.new
        (after (coding_by T.Words) (state_of number states.old) flight.old answer) }
    ensures states { states.new
        ≡ states_after (coding_by T.Words) number flight.old answer states.old }
{
    match flight {
        ContainerFlight::Add(run) => {
            let end = run.go_on(answer)?;
            Some(added(end))
        }
        ContainerFlight::Remove(run) => {
            let end = run.go_on(answer)?;
            Some(removed(end))
        }
        ContainerFlight::Replace(run) => {
            let end = run.go_on(answer)?;
            Some(replaced(end))
        }
        ContainerFlight::Find(run) => {
            let number = run.go_on(answer)?;
            Some(Answer::Number(number as u64))
        }
        ContainerFlight::Recover(run) => {
            let state = run.go_on(answer)?;
            Some(Answer::State(state))
        }
        ContainerFlight::Look(which, call) => match states.of.get_mut(&number) {
            Some(state) => look_on(*which, call, state, answer),
            None => None,
        },
        ContainerFlight::Count(which, run) => {
            let which = *which;
            let number = run.go_on(answer)?;
            Some(counted(which, number))
        }
        ContainerFlight::IsLocked(run) => {
            let locked = run.go_on(answer)?;
            Some(Answer::Truth(locked))
        }
    }
}
