//! What a step of a call of the container writes down.
ghost use Rattle.std.specs.Prelude.{◌≡◌, ◌+◌, ◌≤◌, ◌++◌, vec_len, vec_capacity, option_to_list};
ghost use Rattle.steps.specs.Ask.{CameTo};
ghost use Rattle.model.specs.Families.Container.Calls.{after, goes_back, states_after};
ghost use Rattle.model.specs.Families.Container.States.{state_of};
ghost use Rattle.model.specs.Families.Container.Steps.{placed, hidden, copied, shown, checked, add_effects};
ghost use Rattle.model.specs.Families.Container.Steps.{remove_effects, replace_effects, find_effects, recover_effects};
ghost use Rattle.model.specs.Families.Container.Steps.{look_effects, copy_in, effects, question_of, questions};
ghost use Rattle.model.specs.Coding.{coding_by};

use super::calls::{feed, goes_back};
use crate::families::indices::robust::effects::{acquire_effect, freed, locked_by, release_effect};
use model::event::Event;
use model::families::Went;
use model::families::container::calls::ContainerFlight;
use model::families::container::states::States;
use steps::container::add::{AddStage, Owned};
use steps::container::find::FindStage;
use steps::container::look::LookStage;
use steps::container::recover::{DeadOwner, RecoverStage};
use steps::container::remove::RemoveStage;
use steps::container::replace::{ReplaceStage, Replacement};
use steps::copied::Room;
use steps::indices::robust::release::GiveBack;
use steps::words::Words;

/// The most events that a step of a call writes, apart from the end of its call.
pub const MOST_EFFECTS: usize = 2;

/// The event `Placed` of adding 1 to the number of an element, if the number, which is the answer, was even.
fn placed<T: Copy>(number: u32, index: u32, value: T, answer: u64) -> Option<Event<T>>
    ensures { option_to_list result ≡ placed number index value answer }
{
    if answer % 2 == 0 {
        Some(Event::Placed(number, index, value))
    } else {
        None
    }
}

/// The event `Hidden` of an exchange of an element's odd number for the next, if the answer
/// says that it succeeds.
fn hidden<T>(number: u32, index: u32, count: u64, answer: u64) -> Option<Event<T>>
    ensures { option_to_list result ≡ hidden number index count answer }
{
    if answer == count {
        Some(Event::Hidden(number, index))
    } else {
        None
    }
}

/// The event `Copied` of an exchange of an element's number for itself after the copy of its value, if the
/// answer says that it succeeds.
fn copied<T: Copy>(number: u32, index: u32, count: u64, value: T, answer: u64) -> Option<Event<T>>
    ensures { option_to_list result ≡ copied number index count value answer }
{
    if answer == count {
        Some(Event::Copied(number, index, value))
    } else {
        None
    }
}

/// The event `Shown` of a recovery that finds an even number of an element, which says that
/// no value stands there.
fn shown<T>(number: u32, index: u32, answer: u64) -> Option<Event<T>>
    ensures { option_to_list result ≡ shown number index answer }
{
    if answer % 2 == 0 {
        Some(Event::Shown(number, index))
    } else {
        None
    }
}

/// The event of a recovery's exchange of an element's number for itself: `Copied` where it succeeds, or
/// `Shown` where it finds another number and that is even.
fn checked<T: Copy>(number: u32, index: u32, count: u64, value: T, answer: u64) -> Option<Event<T>>
    ensures { option_to_list result ≡ checked number index count value answer }
{
    if answer == count {
        Some(Event::Copied(number, index, value))
    } else {
        shown(number, index, answer)
    }
}

/// The event of the next step of an add, which is handed this answer, if it has one.
fn add_effect<T: Copy>(
    number: u32,
    given: &Owned<T>,
    stage: AddStage,
    answer: u64,
) -> Option<Event<T>>
    ensures { option_to_list result ≡ add_effects number given.now stage answer }
{
    match stage {
        AddStage::Acquires { stage } => acquire_effect(number, given.owner, stage, answer),
        AddStage::Hides { index, count } => hidden(number, index, count, answer),
        AddStage::AddsCount { index } => placed(number, index, given.value, answer),
        _ => None,
    }
}

/// The event of the next step of a remove, which is handed this answer, if it has one.
fn remove_effect<T>(
    number: u32,
    given: GiveBack,
    stage: RemoveStage,
    answer: u64,
) -> Option<Event<T>>
    ensures { option_to_list result ≡ remove_effects number given stage answer }
{
    match stage {
        RemoveStage::Releases { stage, .. } => release_effect(number, given, stage, answer),
        RemoveStage::Hides { count, .. } => hidden(number, given.index, count, answer),
        _ => None,
    }
}

/// The event of the next step of a replace, which is handed this answer, if it has one.
fn replace_effect<T: Copy>(
    number: u32,
    given: &Replacement<T>,
    stage: ReplaceStage,
    answer: u64,
) -> Option<Event<T>>
    ensures { option_to_list result ≡ replace_effects number given.now stage answer }
{
    match stage {
        ReplaceStage::Hides { count } => hidden(number, given.index, count, answer),
        ReplaceStage::AddsCount => placed(number, given.index, given.value, answer),
        _ => None,
    }
}

/// The event of the next step of a find, if it has one. `value` is what the words in its room make.
fn find_effect<T: Copy>(number: u32, value: T, stage: FindStage, answer: u64) -> Option<Event<T>>
    ensures { option_to_list result ≡ find_effects number value stage answer }
{
    match stage {
        FindStage::ChecksCount { index, count, .. } => copied(number, index, count, value, answer),
        _ => None,
    }
}

/// The event of the next step of a recovery, if it has one. `value` is what the words in its room make.
fn recover_effect<T: Copy>(
    number: u32,
    given: DeadOwner,
    value: T,
    stage: RecoverStage,
    answer: u64,
) -> Option<Event<T>>
    ensures { option_to_list result ≡ recover_effects number given value stage answer }
{
    match stage {
        RecoverStage::LoadsCount { index } => shown(number, index, answer),
        RecoverStage::ChecksCount { index, count } => checked(number, index, count, value, answer),
        RecoverStage::Asks { index, .. } => {
            if answer == 0 {
                None
            } else {
                Some(Event::Told(number, index, given.owner))
            }
        }
        RecoverStage::EmptiesCell { index, .. } => freed(number, index, given.owner, answer),
        RecoverStage::Hides { index, count } => hidden(number, index, count, answer),
        RecoverStage::Locks { lock, .. } => locked_by(number, lock, answer),
        _ => None,
    }
}

/// The event of the next step of a look, if it has one. `value` is what the words make that
/// its state has copied.
fn look_effect<T: Copy>(number: u32, value: T, stage: LookStage, answer: u64) -> Option<Event<T>>
    ensures { option_to_list result ≡ look_effects number value stage answer }
{
    match stage {
        LookStage::ChecksCount { index, count } => copied(number, index, count, value, answer),
        _ => None,
    }
}

/// The event `Asked` of a recovery, if its next step is the one after which it puts a question.
fn question_of<T>(
    number: u32,
    given: DeadOwner,
    stage: RecoverStage,
    answer: u64,
) -> Option<Event<T>>
    ensures { option_to_list result ≡ question_of number given stage answer }
{
    match stage {
        RecoverStage::ChecksCount { index, count } => {
            if answer == count {
                Some(Event::Asked(number, index, given.owner))
            } else {
                None
            }
        }
        _ => None,
    }
}

/// The event of the next step of the call, which is handed this answer, if it has one.
fn effect<T: Words>(
    flight: &ContainerFlight<T>,
    number: u32,
    states: &States<T>,
    answer: u64,
) -> Option<Event<T>>
    ensures { option_to_list result ≡ effects (coding_by T.Words) number
        (state_of number states.now) flight.now answer }
{
    match flight {
        ContainerFlight::Add(run) => add_effect(number, &run.given, run.call.stage, answer),
        ContainerFlight::Remove(run) => remove_effect(number, run.given, run.call.stage, answer),
        ContainerFlight::Replace(run) => {
            replace_effect(number, &run.given, run.call.stage, answer)
        }
        ContainerFlight::Find(run) => {
            find_effect(number, run.room.value(), run.call.stage, answer)
        }
        ContainerFlight::Recover(run) => {
            recover_effect(number, run.given, run.room.value(), run.call.stage, answer)
        }
        ContainerFlight::Look(_, call) => match states.get(number) {
            Some(state) => look_effect(number, state.shown.copied(), call.stage, answer),
            None => None,
        },
        _ => None,
    }
}

/// The event `Asked` of the call's next step, if after it the call puts a question.
fn question<T: Words>(flight: &ContainerFlight<T>, number: u32, answer: u64) -> Option<Event<T>>
    ensures { option_to_list result ≡ questions number flight.now answer }
{
    match flight {
        ContainerFlight::Recover(run) => { question_of(number, run.given, run.call.stage, answer) }
        _ => None,
    }
}

/// Hands the call an answer, changes it in place, and appends the events of this step to `events`. A look
/// also changes the state of its party.
pub fn perform<T: Words>(
    flight: &mut ContainerFlight<T>,
    number: u32,
    answer: u64,
    states: &mut States<T>,
    events: &mut Vec<Event<T>>,
) -> Went<T>
    requires { vec_len events.old + MOST_EFFECTS ≤ vec_capacity events.old }
    ensures after { CameTo result.done flight.new
        (after (coding_by T.Words) (state_of number states.old) flight.old answer) }
    ensures back { result.back ≡ goes_back flight.old answer }
    ensures states { states.new
        ≡ states_after (coding_by T.Words) number flight.old answer states.old }
    ensures wrote { events.new.items ≡ events.old.items
        ++ (effects (coding_by T.Words) number (state_of number states.old) flight.old answer
        ++ questions number flight.old answer) }
    ensures few { vec_len events.new ≤ vec_len events.old + MOST_EFFECTS }
    ensures room { vec_capacity events.new ≡ vec_capacity events.old }
{
    let back = goes_back(flight, answer);
    if let Some(event) = effect(flight, number, states, answer) {
        events.push_reserved(event);
    }
    if let Some(event) = question(flight, number, answer) {
        events.push_reserved(event);
    }
    let done = feed(flight, number, states, answer);
    Went { back, done }
}
