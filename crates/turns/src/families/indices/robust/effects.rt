//! What a step of a call of the robust index set writes down.
ghost use Rattle.std.specs.Prelude.{◌≡◌, ◌+◌, ◌≤◌, ◌++◌, vec_len, vec_capacity, option_to_list};
ghost use Rattle.steps.specs.Ask.{CameTo};
ghost use Rattle.model.specs.Families.Indices.Robust.Steps.{freed, acquire_effects, release_effects, recover_effects, effects, locked_by, step};

use super::calls::{feed, goes_back};
use model::event::{Answer, Event};
use model::families::Went;
use model::families::indices::robust::calls::RobustFlight;
use model::families::indices::robust::dead::Dead;
use steps::ask::After;
use steps::enums::OwnerId;
use steps::indices::enums::ReleaseState;
use steps::indices::robust::acquire::AcquireStage;
use steps::indices::robust::parts::{EMPTY, Lock};
use steps::indices::robust::recover::RecoverStage;
use steps::indices::robust::release::{GiveBack, ReleaseStage};

/// The most events that a step of a call writes, apart from the end of its call.
pub const MOST_EFFECTS: usize = 1;

/// The event `Locked` of the step of a lock, if this answer makes it lock the set.
pub fn locked_by<T>(number: u32, lock: Lock, answer: u64) -> Option<Event<T>>
    ensures { option_to_list result ≡ locked_by number lock answer }
{
    match lock {
        Lock::Counts { .. } => None,
        Lock::ExchangesCounter { counter } => {
            if answer == counter {
                Some(Event::Locked(number))
            } else {
                None
            }
        }
    }
}

/// The event `FreedOf` of an exchange of a cell from this owner to empty, if the answer
/// says that it succeeds.
pub fn freed<T>(number: u32, index: u32, owner: OwnerId, answer: u64) -> Option<Event<T>>
    ensures { option_to_list result ≡ freed number index owner answer }
{
    if answer == owner.value() {
        Some(Event::FreedOf(number, index, owner))
    } else {
        None
    }
}

/// The event of the next step of an acquire, if it has one: `Filled` as its cell gets the owner, `Granted` as
/// its raise of the counter ends.
pub fn acquire_effect<T>(
    number: u32,
    owner: OwnerId,
    stage: AcquireStage,
    answer: u64,
) -> Option<Event<T>>
    ensures { option_to_list result ≡ acquire_effects number owner stage answer }
{
    match stage {
        AcquireStage::FillsCell { index, .. } => {
            if answer == EMPTY {
                Some(Event::Filled(number, index, owner))
            } else {
                None
            }
        }
        AcquireStage::Raises { index, raise } => match raise.take(answer) {
            After::Done(ReleaseState::Unlocked) => Some(Event::Granted(number, index, owner)),
            _ => None,
        },
        _ => None,
    }
}

/// The event of the next step of a release, if it has one: `FreedOf` as its cell becomes empty, `Locked` as
/// it locks the set.
pub fn release_effect<T>(
    number: u32,
    given: GiveBack,
    stage: ReleaseStage,
    answer: u64,
) -> Option<Event<T>>
    ensures { option_to_list result ≡ release_effects number given stage answer }
{
    match stage {
        ReleaseStage::EmptiesCell => freed(number, given.index, given.owner, answer),
        ReleaseStage::Raises { .. } => None,
        ReleaseStage::Locks { lock } => locked_by(number, lock, answer),
    }
}

/// The event of the next step of a recovery, if it has one: `Asked` at an owner that it finds, `Told` at a
/// yes, `FreedOf` as a cell becomes empty, `Locked` as it locks the set.
fn recover_effect<T>(number: u32, stage: RecoverStage, answer: u64) -> Option<Event<T>>
    ensures { option_to_list result ≡ recover_effects number stage answer }
{
    match stage {
        RecoverStage::LoadsCell { index } => match OwnerId::new(answer) {
            Ok(owner) => Some(Event::Asked(number, index, owner)),
            Err(_) => None,
        },
        RecoverStage::Asks { index, owner } => {
            if answer == 0 {
                None
            } else {
                Some(Event::Told(number, index, owner))
            }
        }
        RecoverStage::EmptiesCell { index, owner } => freed(number, index, owner, answer),
        RecoverStage::Locks { lock, .. } => locked_by(number, lock, answer),
        _ => None,
    }
}

/// The event of the next step of the call, which is handed this answer, if it has one.
fn effect<T>(flight: &RobustFlight, number: u32, answer: u64) -> Option<Event<T>>
    ensures { option_to_list result ≡ effects number flight.now answer }
{
    match flight {
        RobustFlight::Acquire(run) => acquire_effect(number, run.given, run.call.stage, answer),
        RobustFlight::Release(run) => release_effect(number, run.given, run.call.stage, answer),
        RobustFlight::Recover(run) => recover_effect(number, run.call.stage, answer),
        _ => None,
    }
}

/// Hands the call an answer, changes it in place, and appends the step's event to `events`. The
/// list of dead owners stays.
pub fn perform<T: Copy>(
    flight: &mut RobustFlight,
    number: u32,
    answer: u64,
    dead: &Dead,
    events: &mut Vec<Event<T>>,
) -> Went<T>
    requires { vec_len events.old + MOST_EFFECTS ≤ vec_capacity events.old }
    ensures after { CameTo result.done flight.new (step number flight.old answer dead.now).after }
    ensures back { result.back ≡ (step {T = T} number flight.old answer dead.now).back }
    ensures kept { dead.now ≡ (step {T = T} number flight.old answer dead.now).kept }
    ensures wrote { events.new.items ≡ events.old.items
        ++ (step number flight.old answer dead.now).wrote }
    ensures few { vec_len events.new ≤ vec_len events.old + MOST_EFFECTS }
    ensures room { vec_capacity events.new ≡ vec_capacity events.old }
{
    let back = goes_back(flight, answer);
    if let Some(event) = effect(flight, number, answer) {
        events.push_reserved(event);
    }
    let done = feed(flight, answer);
    Went { back, done }
}
