//! The calls of the robust index set under way: what each wants, and how it goes on.
ghost use Rattle.std.specs.Prelude.{◌≡◌};
ghost use Rattle.steps.specs.Ask.{CameTo};
ghost use Rattle.model.specs.Families.Indices.Robust.Calls.{acquire_answer, release_answer, acquire_of, release_of};
ghost use Rattle.model.specs.Families.Indices.Robust.Calls.{find_of, recover_of, borrowed_of, locked_of, want, after};
ghost use Rattle.model.specs.Families.Indices.Robust.Calls.{goes_back};

use model::event::Answer;
use model::families::indices::robust::calls::RobustFlight;
use steps::ask::Want;
use steps::enums::OwnerId;
use steps::indices::enums::{
    ReleaseMode, ReleaseState, RobustUniqueIndexSetReleaseError, UniqueIndexSetAcquireFailure,
};
use steps::indices::robust::acquire::Acquire;
use steps::indices::robust::find::Find;
use steps::indices::robust::looks::{BorrowedIndices, IsLocked};
use steps::indices::robust::recover::Recover;
use steps::indices::robust::release::{GiveBack, Release};
use steps::routine::Running;

/// What an acquire answers in a machine.
fn acquire_answer<T>(acquired: Result<u32, UniqueIndexSetAcquireFailure>) -> Answer<T>
    ensures { result ≡ acquire_answer acquired }
{
    match acquired {
        Ok(index) => Answer::Index(index),
        Err(failure) => Answer::NoIndex(failure),
    }
}

/// What a release answers in a machine.
fn release_answer<T>(released: Result<ReleaseState, RobustUniqueIndexSetReleaseError>) -> Answer<T>
    ensures { result ≡ release_answer released }
{
    match released {
        Ok(state) => Answer::State(state),
        Err(failure) => Answer::NotOwned(failure),
    }
}

/// An acquire for this owner that begins on a set of this capacity.
pub fn acquire(capacity: u32, owner: OwnerId) -> RobustFlight
    ensures { result ≡ acquire_of capacity owner }
{
    RobustFlight::Acquire(Running {
        call: Acquire::new(capacity),
        given: owner,
        room: (),
    })
}

/// A release of this owner's index that begins on a set of this capacity.
pub fn release(capacity: u32, index: u32, owner: OwnerId, mode: ReleaseMode) -> RobustFlight
    ensures { result ≡ release_of capacity index owner mode }
{
    RobustFlight::Release(Running {
        call: Release::new(capacity),
        given: GiveBack { index, owner, mode },
        room: (),
    })
}

/// A find of this owner's indices that begins on a set of this capacity.
pub fn find(capacity: u32, owner: OwnerId) -> RobustFlight
    ensures { result ≡ find_of capacity owner }
{
    RobustFlight::Find(Running {
        call: Find::new(capacity),
        given: owner,
        room: (),
    })
}

/// A recovery that begins on a set of this capacity.
pub fn recover(capacity: u32, mode: ReleaseMode) -> RobustFlight
    ensures { result ≡ recover_of capacity mode }
{
    RobustFlight::Recover(Running {
        call: Recover::new(capacity),
        given: mode,
        room: (),
    })
}

/// A count of the borrowed indices that begins on a set of this capacity.
pub fn borrowed_indices(capacity: u32) -> RobustFlight
    ensures { result ≡ borrowed_of capacity }
{
    RobustFlight::BorrowedIndices(Running {
        call: BorrowedIndices::new(capacity),
        given: (),
        room: (),
    })
}

/// A look at the lock.
pub fn is_locked() -> RobustFlight
    ensures { result ≡ locked_of }
{
    RobustFlight::IsLocked(Running {
        call: IsLocked,
        given: (),
        room: (),
    })
}

/// What the call wants next.
pub fn want(flight: &RobustFlight) -> Want<()>
    ensures { result ≡ want flight.now }
{
    match flight {
        RobustFlight::Acquire(run) => run.want(),
        RobustFlight::Release(run) => run.want(),
        RobustFlight::Find(run) => run.want(),
        RobustFlight::Recover(run) => run.want(),
        RobustFlight::BorrowedIndices(run) => run.want(),
        RobustFlight::IsLocked(run) => run.want(),
    }
}

/// Whether the call begins a turn of its loop again once it is handed this answer.
pub fn goes_back(flight: &RobustFlight, answer: u64) -> bool
    ensures { result ≡ goes_back flight.now answer }
{
    match flight {
        RobustFlight::Acquire(run) => run.call.goes_back(answer),
        RobustFlight::Release(run) => run.call.goes_back(answer),
        RobustFlight::Find(_) => false,
        RobustFlight::Recover(run) => run.call.goes_back(answer),
        RobustFlight::BorrowedIndices(run) => run.call.goes_back(answer),
        RobustFlight::IsLocked(_) => false,
    }
}

/// Hands the call an answer, changes it in place, and returns the call's own answer once it is done.
pub fn feed<T>(flight: &mut RobustFlight, answer: u64) -> Option<Answer<T>>
    ensures { CameTo result flight.new (after flight.old answer) }
{
    match flight {
        RobustFlight::Acquire(run) => {
            let acquired = run.go_on(answer)?;
            Some(acquire_answer(acquired))
        }
        RobustFlight::Release(run) => {
            let released = run.go_on(answer)?;
            Some(release_answer(released))
        }
        RobustFlight::Find(run) => {
            let number = run.go_on(answer)?;
            Some(Answer::Number(number as u64))
        }
        RobustFlight::Recover(run) => {
            let state = run.go_on(answer)?;
            Some(Answer::State(state))
        }
        RobustFlight::BorrowedIndices(run) => {
            let number = run.go_on(answer)?;
            Some(Answer::Number(number as u64))
        }
        RobustFlight::IsLocked(run) => {
            let locked = run.go_on(answer)?;
            Some(Answer::Truth(locked))
        }
    }
}
